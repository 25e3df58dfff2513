// Why inputs are refused, and the refusals that are told.

ghost use Rattle.std.specs.Prelude.{◌≡◌, IfOk, codes, Some, None, ◌++◌};
ghost use Rattle.std.specs.Option.{option_map};
ghost use Rattle.vale_driver.specs.Causes.{refusal_of, token_words, in_file};
ghost use Rattle.vale_driver.specs.inner.Phases.{cause_view};

use crate::status::Refusal;
use std::alloc::{AllocError as NoMemory, Global};
use vale_syntax::NotAToken;
use x64_syntax::Text;

/// Why an input is refused, with what is named: a file, an offset or a line in it, an entry, a procedure.
#[derive(Clone, Copy)]
pub(crate) enum Cause<'a> {
    /// The file is longer than its limit.
    TooLong(&'a str),
    /// There is no token at the offset of the source.
    NoToken(&'a str, u32, NotAToken),
    /// No declaration begins at the offset of the source.
    NoDeclaration(&'a str, u32),
    /// The sources, of which this is the first, are of no form that is built.
    NoForm(Option<&'a str>),
    /// The certificate is of no form that is read.
    NoCertificate(&'a str),
    /// The certificate's step doesn't apply to the condition of the procedure.
    NoStep(&'a str, &'a [u8]),
    /// The line of the assembler text is none.
    NoLine(&'a str, u64),
    /// A jump on the line goes to a label that isn't in its piece.
    NoLabel(&'a str, u64),
    /// The line of the state file sets nothing which may follow.
    NoSetting(&'a str, u64),
    /// The assembler text has no entry of the name.
    NoEntry(&'a str, &'a str),
}

fn token_words(why: NotAToken) -> &'static [u8]
    ensures { result.now ≡ token_words why }
{
    match why {
        NotAToken::BadByte => b"BadByte",
        NotAToken::NumberTooLarge => b"NumberTooLarge",
        NotAToken::OpenComment => b"OpenComment",
    }
}

// A refusal that names a file, a place in it, and nobody.
fn in_file(
    alloc: Global,
    number: u8,
    file: Option<&str>,
    at: Option<u64>,
    words: &[u8],
) -> Result<Refusal, NoMemory>
    ensures { IfOk result (λ r. r ≡ in_file number (option_map (λ f. f.now) file.entry) at words.now) }
{
    Ok(Refusal {
        number,
        file: match file {
            Some(file) => Some(Text::from_slice(alloc, file.as_bytes())?),
            None => None,
        },
        at,
        who: None,
        cause: Text::from_slice(alloc, words)?,
    })
}

// A refusal of the step of a procedure's condition.
fn no_step(alloc: Global, cert: &str, name: &[u8]) -> Result<Refusal, NoMemory>
    ensures { IfOk result (λ r. r ≡ record { number = 11; file = Some cert.now; at = Some 2; who = Some (name.now ++ codes "()#0"); cause = codes "step 0" }) }
{
    let mut who = Vec::from_slice(alloc, name)?;
    who.extend_from_slice(b"()#0")?;
    Ok(Refusal {
        number: 11,
        file: Some(Text::from_slice(alloc, cert.as_bytes())?),
        at: Some(2),
        who: Some(Text::from_vec(who)),
        cause: Text::from_slice(alloc, b"step 0")?,
    })
}

// A refusal of an entry that isn't there.
fn no_entry(alloc: Global, file: &str, entry: &str) -> Result<Refusal, NoMemory>
    ensures { IfOk result (λ r. r ≡ record { number = 14; file = Some file.now; at = None; who = Some entry.now; cause = codes "NoEntry" }) }
{
    Ok(Refusal {
        number: 14,
        file: Some(Text::from_slice(alloc, file.as_bytes())?),
        at: None,
        who: Some(Text::from_slice(alloc, entry.as_bytes())?),
        cause: Text::from_slice(alloc, b"NoEntry")?,
    })
}

/// The refusal that is told of a cause.
pub(crate) fn refusal_of(alloc: Global, cause: Cause<'_>) -> Result<Refusal, NoMemory>
    ensures { IfOk result (λ r. r ≡ refusal_of (cause_view cause.entry)) }
{
    match cause {
        Cause::TooLong(file) => in_file(alloc, 8, Some(file), None, b"TooLong"),
        Cause::NoToken(file, at, why) => {
            in_file(alloc, 1, Some(file), Some(u64::from(at)), token_words(why))
        }
        Cause::NoDeclaration(file, at) => {
            in_file(alloc, 2, Some(file), Some(u64::from(at)), b"NotADecl")
        }
        Cause::NoForm(file) => in_file(alloc, 2, file, Some(0), b"NotBuilt"),
        Cause::NoCertificate(file) => in_file(alloc, 9, Some(file), Some(1), b"NotBuilt"),
        Cause::NoStep(file, name) => no_step(alloc, file, name),
        Cause::NoLine(file, line) => in_file(alloc, 12, Some(file), Some(line), b"Line"),
        Cause::NoLabel(file, line) => in_file(alloc, 12, Some(file), Some(line), b"Label"),
        Cause::NoSetting(file, line) => in_file(alloc, 13, Some(file), Some(line), b"State"),
        Cause::NoEntry(file, entry) => no_entry(alloc, file, entry),
    }
}
