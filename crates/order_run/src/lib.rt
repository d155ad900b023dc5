//! A run of x86-TSO along edges between the actions of a test.
//!
//! `run_along` does one iteration of every body, and each event as soon as it can be done: a store reaches memory, and a
//! load or an exchange is done, where no edge leads to its place from one whose moment is still to come; a store enters
//! its buffer at once; a fence and an exchange wait for the thread's own stores. What is read is what the machine has
//! there, so the events are a legal run, whatever the edges are. Its clause has three parts (`specs/Along`): the run is
//! legal; each read of which the edges say where its value comes from has that value (`Draws` in the specs of
//! `run_orders`); and where there is no run, edges that have kept order have a cycle.
//!
//! What is kept from event to event (`IsKept` in `specs/Course`) is `Begun` of `run_orders`, along each relation that the
//! edges stand for.
#![tactic(auto)]

mod course;
mod free;
mod next;
mod perform;
mod run;
mod waiting;

pub use run::run_along;
