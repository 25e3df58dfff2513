// How a run of the program ends.

ghost use Rattle.std.specs.Prelude.{◌≡◌};
ghost use Rattle.vale_driver.specs.Codes.{status_code};

use x64_syntax::Text;

/// How a run ends. The program's exit status is the number of the variant, from 0.
#[derive(Debug, Drop, PartialEq, Eq)]
pub enum Status {
    /// The output was written.
    Done,
    /// The input was refused, and the refusal's line written to `err`.
    Refused(Refusal),
    /// The words are no command.
    Usage,
    /// A file couldn't be read.
    ReadFault,
    /// A text or a line couldn't be written.
    WriteFault,
    /// Memory ran out. Nothing was written.
    NoMemory,
}

impl Status {
    /// The program's exit status.
    pub fn code(&self) -> u8
        ensures { result ≡ status_code self.now }
    {
        match self {
            Status::Done => 0,
            Status::Refused(_) => 1,
            Status::Usage => 2,
            Status::ReadFault => 3,
            Status::WriteFault => 4,
            Status::NoMemory => 5,
        }
    }
}

/// Why an input was refused. A part that is absent is written as `-`.
#[derive(Debug, Drop, PartialEq, Eq)]
pub struct Refusal {
    /// The kind of the refusal: see docs/COMMANDS.md.
    pub number: u8,
    pub file: Option<Text>,
    /// An offset in bytes in a source; a line from 1 in a certificate, an assembler text or a state file.
    pub at: Option<u64>,
    pub who: Option<Text>,
    pub cause: Text,
}
