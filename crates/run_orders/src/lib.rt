//! A run of x86-TSO along an order.
//!
//! A spot is a place of a thread's loop, and so tells the iteration too. `specs/Orders` says what a relation of spots
//! may be asked for. It has kept order (`KeepsOrder`). It says of a read where its value comes from (`Draws`): from a
//! store of another thread, or from the newest of its own, with each other store of the location before that one or
//! after the read; or it is the initial value, with each store of the location after the read. The law `run_along`:
//! some run of n iterations has each of these reads take its value, or the relation has a cycle. It asks nothing of
//! the test, so several threads may store to a location, and n is any number.
//!
//! `logs_or_cycle` is the case of logs, where each read has a value and the stores of each location stand in one
//! thread (`specs/Logs`): a run has the logs, or the order that they ask for has a cycle.
#![tactic(auto)]

mod laws;

pub use laws::{logs_or_cycle, run_along};
