//! The values that the loads of each thread found, iteration by iteration.
//!
//! A log has a fixed number of columns, one for each load of its thread's body, and its room is reserved when it is
//! made. So `Log::put` never fails and takes no memory: its clause says that exactly one value is appended. Contracts
//! see the values by iteration and then by column: `Log::get` gives the value at `n * columns + column` (its clause
//! `value`), and `specs/Values` says when logs are whole for a number of iterations (`AreWhole`). Memory has the
//! columns apart, each with its values by iteration, and `Log::column` hands one out (its clauses `values` and `room`):
//! so whoever goes along a column reads one word after another. `Log::rises` says whether a column's values never fall
//! (its clauses `yes` and `no`, in the words `Rises` and `Falls` of `specs/Values`), as `Log::put` found while it wrote
//! them.
#![tactic(auto)]

mod log;
mod logs;

pub use log::Log;
pub use logs::Logs;
