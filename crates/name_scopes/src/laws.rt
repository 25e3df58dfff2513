// Laws over the definitions, which the layers above cite.

ghost use Rattle.std.specs.Prelude.{◌≡◌, ℕ, List, take, slice_get, Some, None};
ghost use Rattle.vale_syntax.specs.Programs.{De};
ghost use Rattle.name_scopes.specs.declared.globals.GlobalKind.{GlobalKind as AKind};
ghost use Rattle.name_scopes.specs.declared.globals.GlobalDecl.{GlobalDecl as ADecl};
ghost use Rattle.name_scopes.specs.Globals.{name_of, kind_of, declared};
ghost use Rattle.name_scopes.specs.Declarations.{decl_fault};
ghost use Rattle.name_scopes.specs.Sources.{export_names, IsScoped};

/// Where each name is bound by the rules, each declaration is without a fault, behind the exports before it, and the name
/// that a procedure, lemma or function is given stands for it. In all sources a name stands for a declaration that gives it.
pub fn names_are_bound()
    ensures each { (ds : List De) → IsScoped ds → (k : ℕ) (d : De) → slice_get ds k ≡ Some d → decl_fault (declared ds) (export_names (take k ds)) k d ≡ None }
    ensures own { (ds : List De) → IsScoped ds → (k : ℕ) (d : De) (t : AKind) → slice_get ds k ≡ Some d → kind_of d ≡ Some t → declared ds (name_of d).text ≡ Some (record { kind = t; number = k }) }
    ensures stands { (ds : List De) (n : List ℕ) (g : ADecl) → declared ds n ≡ Some g → (d : De) × (slice_get ds g.number ≡ Some d) × (kind_of d ≡ Some g.kind) × ((name_of d).text ≡ n) }
{}
