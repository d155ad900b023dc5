//! The program `perple` as one call over a source, two sinks and a field.
//!
//! The headline is the clauses `reads`, `fits`, `text` and `identity` of [`perple`]: where `run` ends whole, the bytes
//! that the source had left read as a litmus test, what the threads did on the field is what a legal run of x86-TSO
//! does in which each thread performs its body exactly so often, and the report on `out` is that of every such run. The
//! cause of each status is the clause `ended`.
//!
//! The clauses of [`answer_text`] say the same of the bytes that a request holds, and ask nothing of a source or a sink.
//! So they hold of what was read from standard input and of what is handed to standard output.
#![tactic(auto)]

mod accept;
mod answer;
mod counters;
mod laws;
mod report_run;
mod request;
mod top;
mod work;

pub use answer::answer_text;
pub use command_words::{Command, Count, Job, WordsError, read_words};
pub use demo_text::demo_text;
pub use laws::{same_words_and_text_give_the_same, still_answers_are_one};
pub use perp_loop::{Gate, NoGate, Options};
pub use program_edge::{Answered, Request};
pub use report_text::Status;
pub use request::read_request;
pub use top::perple;
pub use tso_words::{Done, Field};

/// How a call of [`perple`] ended, and the field that it was given, closed.
pub type Outcome = program_edge::Outcome<Status>;

#[cfg(test)]
mod tests;
