// Laws over the definitions, which the layers above cite.

ghost use Rattle.std.specs.Prelude.{◌≡◌, ℕ, List};
ghost use Rattle.x64_syntax.specs.declared.type_words.Sort.{Sort as ASort};
ghost use Rattle.term_core.specs.Functions.{Function};
ghost use Rattle.term_core.specs.Terms.{Tm};
ghost use Rattle.term_core.specs.Printed.{printed};
ghost use Rattle.term_core.specs.Legible.{IsLegible, AreLegible};

/// No two terms have one text, where their names are those of the grammar, with one sort each, and the parts have the sorts
/// that they should have.
pub fn printing_tells_terms_apart()
    ensures { (fs : List Function) (sorts : List ℕ → ASort) (t u : Tm) → AreLegible fs → IsLegible fs sorts t → IsLegible fs sorts u → printed fs t ≡ printed fs u → t ≡ u }
{}
