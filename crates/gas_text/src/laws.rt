// Laws over the definitions, which the layers above cite.

ghost use Rattle.std.specs.Prelude.{◌≡◌, ◌⊎◌, true, List, ℕ, Result, Ok, Err};
ghost use Rattle.x64_syntax.specs.declared.items.Item.{Item};
ghost use Rattle.x64_syntax.specs.Programs.{is_ordered, program_ok};
ghost use Rattle.gas_text.specs.declared.fault.AsmFault.{AsmFault};
ghost use Rattle.gas_text.specs.declared.fault.AsmFault.TheVariants.{NoMemory};
ghost use Rattle.gas_text.specs.Gas.{gas_text};
ghost use Rattle.gas_text.specs.Text.{ReadsAs, Reads, Refused};

/// What is printed of a program reads as that program, and as nothing else.
pub fn printed_is_read()
    ensures read { (items : List Item) → program_ok items ≡ true → ReadsAs (gas_text items) items }
    ensures only { (items : List Item) (r : Result (List Item) AsmFault) → program_ok items ≡ true → Reads (gas_text items) r → (r ≡ Ok items) ⊎ (r ≡ Err NoMemory) }
{}

/// A text has one fault at most, want of memory aside.
pub fn one_fault()
    ensures { (text : List ℕ) (f g : AsmFault) → Refused text f → Refused text g → (f ≡ g) ⊎ ((f ≡ NoMemory) ⊎ (g ≡ NoMemory)) }
{}

/// Two texts that read as the same items are the same bytes, and no text reads as two lists of items.
pub fn one_text()
    ensures texts { (a b : List ℕ) (items : List Item) → ReadsAs a items → ReadsAs b items → a ≡ b }
    ensures items { (text : List ℕ) (x y : List Item) → ReadsAs text x → ReadsAs text y → x ≡ y }
{}
