//! What every other crate stands on: sources and sinks of bytes that count their faults, the two refusals `Failed` and
//! `NoMemory`, names, frames, what a run is asked to do, and the limits.
//!
//! A source and a sink may tell their bytes or not. Where they do, this is proved:
//!
//! - A read gives the next bytes that are left, and none only at their end (`bytes` of `Source::read`). A write appends
//!   a front part of its piece, at least one byte, and nothing where it fails (`bytes` and `some` of `Sink::write`).
//! - `read_input` answers the whole input (`whole`, `within`), or says that it is too long exactly where it is
//!   (`too_long`, `long`), and never takes more than one byte past its limit (`taken`).
//! - `write_whole` appends all of the bytes (`ok`), or where it fails a front part of them (`err`).
//!
//! Each source and sink counts its calls (`called`). `read_input` makes at most `limit` + 1 of them, and where it
//! answers an input at most one more than that has bytes (`calls`, `calls_whole`). `write_whole` makes at most as many
//! as there are bytes (`calls`), and each hands the sink all bytes that are not yet appended (`turns`). The count is a
//! natural number that only proofs read (`Calls`).
//!
//! Whether told or not, a failure is answered only where the count of faults rose in that call (`cause`, and `fault` of
//! `read_input`). A count stands still at the last value of its type.
//!
//! `MemSource` and `MemSink` are whole: each call's answer and the state after it are functions of the state before
//! (`failing`, `given` or `taken`, and `goes`). `StdSource` and `StdSink` tell no bytes, and hand on what the reader or
//! writer of std did (`reader`, `writer`).
#![tactic(auto)]

mod calls;
mod failure;
mod frame;
mod limits;
mod memory_sink;
mod memory_source;
mod name;
mod options;
mod schedule;
mod sink;
mod source;
mod standard;

pub use calls::Calls;
pub use failure::{Failed, NoMemory};
pub use frame::Frame;
pub use limits::{
    MOST_ACTIONS, MOST_ATOMS, MOST_BYTES, MOST_CONJUNCTIONS, MOST_FRAMES, MOST_INPUT,
    MOST_ITERATIONS, MOST_LOCATIONS, MOST_PIECES, MOST_STATES, MOST_STEPS, MOST_THREADS,
    MOST_WRITES, WHOLE_RATE,
};
pub use memory_sink::MemSink;
pub use memory_source::MemSource;
pub use name::Name;
pub use options::Options;
pub use schedule::Schedule;
pub use sink::{Sink, write_whole};
pub use source::{ReadError, Source, read_input};
pub use standard::{StdSink, StdSource};
