// Laws over the definitions of tokens and expressions.

ghost use Rattle.std.specs.Prelude.{◌≡◌, ◌≤◌, true, List, [], ℕ, length, map, Some};
ghost use Rattle.std.specs.List.{AllByRecursion};
ghost use Rattle.vale_syntax.specs.Tokens.{begins, marks, mark_at, whole_limit, word_limit};
ghost use Rattle.vale_syntax.specs.inner.Marks.{mark_len};
ghost use Rattle.vale_syntax.specs.declared.token.Token.{Token};
ghost use Rattle.vale_syntax.specs.Operators.{any};
ghost use Rattle.vale_syntax.specs.Trees.{Ex};
ghost use Rattle.vale_syntax.specs.Expressions.{Spells, IsExpr};
ghost use Rattle.vale_syntax.specs.inner.Parse.{whole_parse};
ghost use Rattle.vale_syntax.specs.inner.Print.{text, IsWritable, IsTextOf};

use crate::mark::MARKS;
use crate::token::{WHOLE_LIMIT, WORD_LIMIT};

/// The table of marks is that of the definitions.
pub fn table_of_marks()
    ensures { map (λ m. (m.0.now, m.1)) MARKS ≡ marks }
{}

/// The limits of numbers are those of the definitions.
pub fn limits_of_numbers()
    ensures whole { WHOLE_LIMIT ≡ whole_limit }
    ensures word { WORD_LIMIT ≡ word_limit }
{}

/// No mark is empty, and the mark that is taken is the longest: no mark that begins a text is longer than the first of the table that does.
pub fn longest_mark()
    ensures some { AllByRecursion (λ m. 1 ≤ length m.0) marks }
    ensures longest { (bytes : List ℕ) → AllByRecursion (λ m. begins m.0 bytes ≡ true → length m.0 ≤ mark_len (mark_at marks bytes)) marks }
{}

/// No list of tokens spells two expressions, whatever their depth.
pub fn spelled_once()
    ensures { (d e : ℕ) (ts : List Token) (x y : Ex) → Spells any d ts x [] → Spells any e ts y [] → (x ≡ y) × (d ≡ e) }
{}

/// What is read by looking ahead is what the tokens spell.
pub fn read_as_spelled()
    ensures sound { (ts : List Token) (x : Ex) → whole_parse ts ≡ Some x → IsExpr ts x }
    ensures complete { (ts : List Token) (x : Ex) → IsExpr ts x → whole_parse ts ≡ Some x }
{}

/// The expressions that some text spells, places aside, are the writable ones, and what each is printed as spells it.
pub fn printed_as_spelled()
    ensures writable { (x : Ex) (file : ℕ) (bytes : List ℕ) → IsTextOf file bytes x → IsWritable x }
    ensures text { (x : Ex) → IsWritable x → (file : ℕ) → IsTextOf file (text x) x }
{}
