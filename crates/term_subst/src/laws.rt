// Laws over the definitions, which the layers above cite.

ghost use Rattle.std.specs.Prelude.{◌≡◌, ◌<◌, true, List, [], ℕ, Bool, Some, length, slice_get};
ghost use Rattle.x64_syntax.specs.declared.type_words.Sort.{Sort};
ghost use Rattle.term_core.specs.Terms.{Tm, Name, tm_sort};
ghost use Rattle.term_core.specs.Value.{Val, Functions, Assignment, assigned, cast, value};
ghost use Rattle.term_core.specs.Functions.{Function};
ghost use Rattle.term_core.specs.Sorted.{well_sorted};
ghost use Rattle.term_core.specs.Rules.{free_all, all_obey};
ghost use Rattle.term_core.specs.Meaning.{fun_value, meaning};
ghost use Rattle.term_subst.specs.Substituted.{Images, with_images, image, substituted, captures_nothing};
ghost use Rattle.term_subst.specs.Unfolded.{unfolded, unfolding_captures_nothing};

/// A term is worth the same under two assignments that read its free variables as the same values, and under two
/// meanings of functions that agree on those that it may call.
pub fn values_agree()
    ensures variables { (m : Functions) (a b : Assignment) (p : List ℕ → Sort → Bool) (t : Tm) → free_all p t ≡ true → ((text : List ℕ) (s : Sort) → p text s ≡ true → cast s (a text s) ≡ cast s (b text s)) → value m a t ≡ value m b t }
    ensures functions { (m n : Functions) (a : Assignment) (fs : List Function) (t : Tm) → well_sorted fs t ≡ true → ((k : ℕ) (vs : List Val) → k < length fs → m k vs ≡ n k vs) → value m a t ≡ value n a t }
{}

/// A term that is put for a variable stands for the value that the variable has, where nothing is captured; so do terms
/// that are put for all variables at once.
pub fn substitution_keeps_values()
    ensures one { (m : Functions) (a : Assignment) (name : List ℕ) (by t : Tm) → captures_nothing (image name by) t ≡ true → value m a (substituted name by t) ≡ value m (assigned name (tm_sort by) (value m a by) a) t }
    ensures all { (m : Functions) (a b : Assignment) (f : Images) (t : Tm) → ((text : List ℕ) (s : Sort) (u : Tm) → f text s ≡ Some u → tm_sort u ≡ s) → captures_nothing f t ≡ true → ((text : List ℕ) (s : Sort) → value m a (with_images f (Name text s)) ≡ cast s (b text s)) → value m a (with_images f t) ≡ value m b t }
{}

/// What terms of the variables' sorts are put in keeps its sort, and stays well formed.
pub fn substitution_keeps_sorts()
    ensures one { (name : List ℕ) (by t : Tm) → tm_sort (substituted name by t) ≡ tm_sort t }
    ensures all { (f : Images) (t : Tm) → ((text : List ℕ) (s : Sort) (u : Tm) → f text s ≡ Some u → tm_sort u ≡ s) → tm_sort (with_images f t) ≡ tm_sort t }
    ensures well { (fs : List Function) (f : Images) (t : Tm) → ((text : List ℕ) (s : Sort) (u : Tm) → f text s ≡ Some u → tm_sort u ≡ s) → ((text : List ℕ) (s : Sort) (u : Tm) → f text s ≡ Some u → well_sorted fs u ≡ true) → well_sorted fs (with_images f t) ≡ well_sorted fs t }
{}

/// What a function of a list means is what its parts are worth, by the meaning of the whole list.
pub fn functions_mean()
    ensures { (fs : List Function) (k : ℕ) (f : Function) (vs : List Val) → all_obey [] fs ≡ true → slice_get fs k ≡ Some f → meaning fs k vs ≡ fun_value (meaning fs) f f.zero_part vs }
{}

/// A call is worth what it is unfolded to, where nothing is captured.
pub fn unfolding_keeps_values()
    ensures { (fs : List Function) (a : Assignment) (call u : Tm) → all_obey [] fs ≡ true → well_sorted fs call ≡ true → unfolding_captures_nothing fs call ≡ true → unfolded fs call ≡ Some u → value (meaning fs) a u ≡ value (meaning fs) a call }
{}

/// A call is of the sort of what it is unfolded to, which is well formed.
pub fn unfolding_keeps_sorts()
    ensures sort { (fs : List Function) (call u : Tm) → all_obey [] fs ≡ true → well_sorted fs call ≡ true → unfolded fs call ≡ Some u → tm_sort u ≡ tm_sort call }
    ensures well { (fs : List Function) (call u : Tm) → all_obey [] fs ≡ true → well_sorted fs call ≡ true → unfolded fs call ≡ Some u → well_sorted fs u ≡ true }
{}
