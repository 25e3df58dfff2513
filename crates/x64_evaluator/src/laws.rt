// Laws over the definitions, which the layers above cite.

ghost use Rattle.std.specs.Prelude.{◌≡◌, ℕ, List};
ghost use Rattle.x64_syntax.specs.declared.items.Item.{Item as AnItem};
ghost use Rattle.x64_meaning.specs.State.{State};
ghost use Rattle.x64_meaning.specs.Run.{Way};
ghost use Rattle.x64_evaluator.specs.Evaluated.{evaluation, IsRun};
ghost use Rattle.x64_evaluator.specs.StateFile.{IsStateOf, StopsAt};

/// An evaluation is a run of the machine, as far as its end tells.
pub fn evaluated_is_run()
    ensures { (items : List AnItem) (room n pos : ℕ) (w : Way) → IsRun items room n pos w (evaluation items room n pos w).end (evaluation items room n pos w).way }
{}

/// A state file has one first faulty line at most, and none where it is read.
pub fn one_fault()
    ensures stops { (lines : List (List ℕ)) (m n : ℕ) → StopsAt lines m → StopsAt lines n → m ≡ n }
    ensures none { (lines : List (List ℕ)) (s : State) (n : ℕ) → IsStateOf lines s → StopsAt lines n → ⊥ }
{}
