//! Is the front part of a row of a litmus test possible?
//!
//! `decide_readings` decides readings: reads with their sources (`once`). It numbers the places of the test, 16 to a
//! thread, and hands the edges and choices that the readings ask for to `choice_search`. It answers in the test's own
//! words (its clause, `IsDecision` in `specs/Decided`): a run of one iteration has all sources; none has, since the
//! source of this reading is hidden, or since this tree of cases refutes them; or all the steps were taken.
//!
//! `show_readings` answers the same, and where a run has all sources it gives the events of one (its clause,
//! `IsShowing` in `specs/Shown`), made along the edges and the sides that the search took (`order_run`).
//!
//! `show_conjunction` does so of what the atoms of a conjunction of a checked test say: a run of one iteration in which
//! they all hold, so that an execution of the test as it is written has the outcome, or none has (its clause,
//! `IsConjunctionShown` in `specs/Conjunctions`).
//!
//! `decide_front` goes over all lists of sources that have the values of the front part of a row. It answers whether
//! an execution of the test as it is written ends with these values, or that all the steps were taken (its clause,
//! `IsFront` in `specs/Fronts`). It asks that each of the registers holds a read at the end, and no constant, which
//! `hold_reads` tells. A list of sources takes one step more than its search, so `most` bounds the whole walk.
#![tactic(auto)]

mod conjunction;
mod decide;
mod edges;
mod front;
mod graph;
mod kept;
mod reading;
mod show;

pub use conjunction::show_conjunction;
pub use decide::{Answer, Decision, decide_readings};
pub use front::{Front, FrontAnswer, Register, decide_front, hold_reads, read_of, value_of};
pub use reading::Reading;
pub use show::{Showing, Shown, show_readings};
