//! The evaluator: runs of items on a machine, with a trace of what an observer sees; state files and reports.
//!
//! `run_items` is exactly `evaluation` (`specs/Evaluated.antt`), for programs without xmm instructions: single steps of
//! the machine's `run`, as far as the permitted steps, the last item, a fault or the room of the trace.
//! `evaluated_is_run`: it ends where `run` ends so after some of the steps, pauses where `run` still runs after all of
//! them, and else stops in front of the step that is a fault, is off the code or has no room. `read_state` is exact: it
//! gives a state of the machine, the one that the lines set, or the first line that sets nothing which may follow
//! (`specs/StateFile.antt`). `report_of` writes exactly the report (`specs/Report.antt`). `one_fault`: a state file has
//! one first faulty line at most, and none where it is read.
#![tactic(auto)]

mod end;
mod laws;
mod places;
mod report;
mod run;
mod settings;
mod state;
mod trace;

pub use end::{End, RunEnd};
pub use laws::{evaluated_is_run, one_fault};
pub use report::report_of;
pub use run::run_items;
pub use state::{StateFault, read_state};
pub use trace::Trace;
