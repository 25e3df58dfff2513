// Laws over the definitions, which the layers above cite.

ghost use Rattle.std.specs.Prelude.{◌≡◌, ◌≢◌, ◌≤◌, ◌<◌, ◌+◌, ◌++◌, ◌∷◌, ℕ, List, length, true, position};
ghost use Rattle.x64_syntax.specs.declared.items.Item.{Item};
ghost use Rattle.x64_syntax.specs.Code.{Prog};
ghost use Rattle.x64_syntax.specs.Programs.{program_ok};
ghost use Rattle.x64_blocks.specs.Memory.{holds, block_at};
ghost use Rattle.term_core.specs.Value.{Functions};
ghost use Rattle.x64_meaning.specs.State.{State, IsState};
ghost use Rattle.x64_meaning.specs.Run.{Way, start, run, StandAt};
ghost use Rattle.x64_meaning.specs.Run as machine;
ghost use Rattle.x64_meaning.specs.Contract.{Contract, Meets};
ghost use Rattle.code_lower.specs.Lowered.{export_items, lowered_items};
ghost use Rattle.code_lower.specs.Guarded.{Ended, Faulted, guarded_run, is_at};
ghost use Rattle.code_lower.specs.Keeps.{LabelsDiffer, later, CodeMeets, all_labels, AreExports};

/// Lowering keeps the runs of code, in every program that holds the items of its export and whose labels differ.
///
/// - Where a guarded run ends, the items end in the same state with the same observations, after exactly two steps more:
///   those of the entry and of `ret`.
/// - Where no bound on turns makes the guarded run fault, the items end only where some bound makes it end.
/// - So the items meet the contracts that the code meets.
pub fn lowering_keeps()
    ensures ends { (stack n k pos : ℕ) (p : Prog) (name : List ℕ) (items : List Item) (s : State) (v : Way) → LabelsDiffer items → StandAt items pos (export_items k name p) → IsState s → guarded_run stack n p (start s) ≡ Ended v → run items (v.steps + 2) pos (start s) ≡ machine.Ended (later 2 v) }
    ensures conversely { (stack k pos m : ℕ) (p : Prog) (name : List ℕ) (items : List Item) (s : State) (w : Way) → LabelsDiffer items → StandAt items pos (export_items k name p) → IsState s → ((n : ℕ) → guarded_run stack n p (start s) ≢ Faulted) → run items m pos (start s) ≡ machine.Ended w → (n : ℕ) × (v : Way) × (guarded_run stack n p (start s) ≡ Ended v) }
    ensures meets { (m : Functions) (k pos : ℕ) (p : Prog) (name : List ℕ) (items : List Item) (c : Contract) → LabelsDiffer items → StandAt items pos (export_items k name p) → CodeMeets m c p → Meets m c items pos }
{}

/// A greater bound on turns doesn't change a guarded run that ended.
pub fn more_turns()
    ensures { (stack m n : ℕ) (p : Prog) (w v : Way) → m ≤ n → guarded_run stack m p w ≡ Ended v → guarded_run stack n p w ≡ Ended v }
{}

/// In a state of the machine the first block that holds an access is the only one.
pub fn named_blocks()
    ensures { (s : State) (k a size : ℕ) → IsState s → 0 < size → is_at k (position (holds a size) s.blocks) ≡ holds a size (block_at s.blocks k) }
{}

/// Exports one after another are a program; each stands in it as it is lowered, its labels behind those of the exports
/// before it; and in a program labels differ.
pub fn lowered_is_a_program()
    ensures program { (es : List (List ℕ × Prog)) → AreExports es → program_ok (lowered_items es) ≡ true }
    ensures stands { (front back : List (List ℕ × Prog)) (name : List ℕ) (p : Prog) → StandAt (lowered_items (front ++ (name, p) ∷ back)) (length (lowered_items front)) (export_items (all_labels front) name p) }
    ensures differ { (items : List Item) → program_ok items ≡ true → LabelsDiffer items }
{}
