// Laws over the definitions, which the layers above cite.

ghost use Rattle.std.specs.Prelude.{◌≡◌, ◌<◌, ◌^◌, ◌||◌, true, List, ℕ, length};
ghost use Rattle.std.specs.List.{list_all};
ghost use Rattle.x64_syntax.specs.declared.instructions.Ins.{Ins};
ghost use Rattle.x64_syntax.specs.declared.places.MachinePlace.{MachinePlace};
ghost use Rattle.x64_syntax.specs.Instructions.{accesses, read_places, written_places, is_among};
ghost use Rattle.x64_meaning.specs.Table.{reads, writes, memory_places};
ghost use Rattle.x64_syntax.specs.Places.{place_name};
ghost use Rattle.term_core.specs.Terms.{Name};
ghost use Rattle.term_core.specs.Value.{Functions, Assignment, value};
ghost use Rattle.x64_meaning.specs.State.{State, IsState, place_sort, read};
ghost use Rattle.x64_meaning.specs.Contract.{Contract, entry_name, seen, Meets, SameRuns};
ghost use Rattle.x64_meaning.specs.Condition.{StraightFits, IsNamed, is_plain, straight_items};

/// Straight code ends, and an assignment makes all its equations true and names its start and its end. Straight code
/// whose promises follow from its equations meets its contract, and an observer sees the same of any two
/// of its runs.
pub fn straight_code()
    ensures named { (name : List ℕ) (is : List Ins) → list_all is_plain is ≡ true → length is < 2 ^ 64 → IsNamed is (straight_items name is) 0 }
    ensures same_runs { (m : Functions) (name : List ℕ) (is : List Ins) (c : Contract) → StraightFits is c → SameRuns m c (straight_items name is) 0 }
    ensures meets { (m : Functions) (name : List ℕ) (is : List Ins) (c : Contract) → StraightFits is c → Meets m c (straight_items name is) 0 }
{}

/// What an instruction reads and writes by its form is what the equations of the table take and give, and its base and
/// index registers.
pub fn forms_as_in_the_table()
    ensures writes { (i : Ins) → written_places i ≡ writes i }
    ensures reads { (i : Ins) (p : MachinePlace) → is_among (read_places i) p ≡ (reads i p || is_among (memory_places (accesses i)) p) }
{}

/// In a contract's terms the name of a machine place is worth what it holds now, and with `.0` what it held at the entry.
pub fn names_are_read()
    ensures now { (m : Functions) (c : Contract) (ghosts : Assignment) (s t : State) (p : MachinePlace) → IsState t → value m (seen c ghosts s t) (Name (place_name p) (place_sort p)) ≡ read t p }
    ensures at_the_entry { (m : Functions) (c : Contract) (ghosts : Assignment) (s t : State) (p : MachinePlace) → IsState s → value m (seen c ghosts s t) (Name (entry_name (place_name p)) (place_sort p)) ≡ read s p }
{}
