// Laws over the definitions, which the layers above cite.

ghost use Rattle.std.specs.Prelude.{◌≡◌, true, Bool, List, [], ℕ, Ok};
ghost use Rattle.x64_syntax.specs.declared.type_words.Sort.{Sort};
ghost use Rattle.term_core.specs.declared.literal.Entry.{Entry as AnEntry};
ghost use Rattle.term_core.specs.Terms.{Tm};
ghost use Rattle.term_core.specs.Value.{Val, Assignment, value};
ghost use Rattle.term_core.specs.Functions.{Function};
ghost use Rattle.term_core.specs.Literals.{entry_value};
ghost use Rattle.term_core.specs.Meaning.{meaning};
ghost use Rattle.term_core.specs.Rules.{free_all, all_obey};
ghost use Rattle.term_core.specs.Sorted.{well_sorted};
ghost use Rattle.term_value.specs.Agreement.{Agrees};
ghost use Rattle.term_value.specs.Evaluation.{evaluated};

/// What a well formed term evaluates to is what it means, under each assignment that agrees with the entries of its free
/// names, where the functions obey their rules.
pub fn evaluation_is_value()
    ensures { (fs : List Function) (es : List AnEntry) (a : Assignment) (p : List ℕ → Sort → Bool) (t : Tm) (v : Val) → all_obey [] fs ≡ true → well_sorted fs t ≡ true → free_all p t ≡ true → Agrees p (entry_value es) a → evaluated fs es t ≡ Ok v → v ≡ value (meaning fs) a t }
{}
