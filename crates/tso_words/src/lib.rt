//! Sixteen shared words of atomic memory, the *field*, and the steps that at most eight threads take on them with no
//! lock and no barrier.
//!
//! **The promise**: all steps stand in one flat history. It is a list of loads, stores and swaps, each with the number
//! of its thread, in which every load and swap finds what the steps before it left (`IsFlat` of `specs/History`). The
//! history is stored nowhere. It is the rule of the words (`HoldsOneHistory` of `specs/Views`, kept by the type
//! `OneHistory` of `src/rule.rt`): between any two steps there is such a history whose memory is the words, and each
//! thread's number stands once, beside its part of that history.
//!
//! - `Field::new` makes words of 0 with all eight numbers at home; `Home::lend` and `Home::take_back` move one number
//!   with its list.
//! - `Post` steps with a lent number over the shared words. Each call is one atomic step, takes no memory and cannot
//!   fail: the one clause of each call of `Port`, `Appends`, says that its list gains exactly that step.
//! - `Words::close` gives a `Done`. Its clause `whole` (`ArePartsOfOne`) says that its eight lists are the parts of one
//!   flat history whose memory is its words.
//! - `Traced` is the same over words of one thread, with the history stored in room that was reserved. `steps` and
//!   `word` say that it is flat and that its memory is the words (clause `flat`).
#![tactic(auto)]

mod field;
mod lane;
mod number;
mod port;
mod rule;
mod step;
mod steps;
mod traced;

pub use field::{Done, Field, Home, Words};
pub use lane::{Lane, Post};
pub use port::Port;
pub use step::{Part, Step, THREAD_COUNT, TracedStep, WORD_COUNT};
pub use traced::{Traced, TracedPort};
