//! The loops of threads: each thread performs its body again and again with no barrier between iterations, through a
//! store buffer of its own, over shared words.
//!
//! **Threads.** `run_threads` runs one walker a thread over one field. Its clause `some_run` says that some legal run
//! of x86-TSO, in which each thread performs its body as often as the options say and drains by their seed, fits what
//! the threads did on the words and ends with them (`Fits`, `EndsWith`); its clause `logs` says that each such run has
//! the logs that are answered, so it does not matter which one is meant. The call cannot be refused and takes no
//! memory.
//!
//! **Replay.** `replay` lets the walkers take turns over a stored history. Its clauses `made` and `every` say that
//! history and logs are those of the one run of the schedule (`IsScheduled`).
//!
//! **One walker.** `Walker::step` takes the next turn of a lawful part (`Stepped`), and `Walker::walk`, over any
//! `Port`, appends the shared steps of one lawful part and logs its values (clause `lawful`).
#![tactic(auto)]

mod actions;
mod crew;
mod gate;
mod meeting;
mod member;
mod picks;
mod replaying;
mod resting;
mod threads;
mod walker;
mod went;

pub use actions::{due, first_iteration, next_position};
pub use crew::Crew;
pub use gate::{Gate, NoGate};
pub use perp_base::{Options, Schedule};
pub use picks::{first_words, pick};
pub use replaying::replay;
pub use threads::run_threads;
pub use walker::Walker;
pub use went::Went;
