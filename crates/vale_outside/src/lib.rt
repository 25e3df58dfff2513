//! The outside of the program: where files come from, and where text goes.
//!
//! A store and a sink may tell what they hold. Each keeps a count of its faults, so that a caller's contract can tie a
//! fault to the object in which it happened.
//!
//! The clauses of [`Store::fetch`] and [`Sink::put`] are kept by six implementations: files and streams of the system,
//! those in memory, and those in memory that never fail. [`MemStore`] fails exactly where planned or where a name isn't
//! held, and [`MemSink`] where planned or where memory runs out; each counts exactly one call, and where it fails one
//! fault (`specs/Plan.antt`).
#![tactic(auto)]

mod failures;
mod mem_sink;
mod mem_store;
mod named_files;
mod no_fault;
mod real;
mod sink;
mod store;

pub use mem_sink::MemSink;
pub use mem_store::MemStore;
pub use no_fault::{NoFaultSink, NoFaultStore};
pub use real::{FileStore, StreamSink};
pub use sink::{PutFault, Sink};
pub use store::{FetchFault, Store};
