//! The program: it reads sources and a certificate, checks that the one proves the other, and writes assembler text;
//! and it lists and runs assembler texts.
//!
//! [`run`] has two clauses. `ends` says what is known after each answer, where the store tells what the files hold and
//! the streams tell what was written (`Ends`, in `specs/Ends.antt`):
//!
//! - [`Status::Done`]: what is appended to `out` is the command's output (`IsOutput`, in `specs/Commands.antt`). Of a
//!   build it reads as exactly the lowered code of the source's export, and as nothing else; that code meets its
//!   contract, and its runs look alike to an observer (`IsRight`, in `specs/Builds.antt`). Of a `read` it is the
//!   listing of exactly the items that the text reads as, and of an `eval` the report of exactly their run
//!   (`specs/Texts.antt`).
//! - [`Status::Refused`]: the refusal is the first one (`FirstRefusal`), its line is exactly `refusal_line`, and `out`
//!   is as before. `specs/Causes.antt` has the causes, and what is told of each.
//! - [`Status::Usage`]: the words are no command (`specs/Words.antt`). For such words no other answer but WriteFault
//!   comes, and for a command this one never comes.
//! - [`Status::ReadFault`]: the store's count of faults rose. [`Status::WriteFault`]: that of `out` rose, and `out` has
//!   a front of the output; or that of `err`, and `err` has a front of the line. [`Status::NoMemory`]: nothing was
//!   written.
//!
//! `exactly` says which answer comes where no count of faults rose: Usage for words that are no command; and where the
//! store tells all that the files hold, the first refusal where there is one, and Done where there is none, unless the
//! answer is NoMemory. So a certificate whose step meets the rule isn't refused.
#![tactic(auto)]

mod build;
mod cause;
mod certificate;
mod code;
mod condition;
mod eval;
mod program;
mod read;
mod reading;
mod report;
mod ring;
mod sources;
mod status;
mod stop;
mod versions;
mod words;

pub use program::run;
pub use status::{Refusal, Status};
