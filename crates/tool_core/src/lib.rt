//! The second program as one call over a source, two sinks and a field: it judges written runs, finds and shows runs,
//! tells the run of a schedule, gives verdicts, tells how far apart the threads of a run were, and counts the frames of a
//! run that are outcomes of the test.
//!
//! The clause `whole` of [`tool`] says what stands on `out` where a command ends whole: the text that `IsText`
//! (`specs/Top`, by the texts of `specs/Texts`, `specs/Showing` and others) calls right for the test and the section
//! of the input. The cause of each status is the clause `ended`; its clauses `usage`, `due` and `too_long` say that
//! each refusal comes exactly where it is due (`specs/Due`), and `complete` that where none is due and nothing fails
//! the answer is whole, or memory ran out. [`answer_text`] says the same of the bytes that were read, and asks nothing
//! of a source or a sink (`specs/Answering`): so it speaks of standard input too. The law `written_runs_are_legal`
//! (`specs/Laws`) says that where a legal run of a test is written after the test's text, no refusal is due, and
//! `Legal` with the number of its events is the one right answer; `replays_are_legal` says so of what `replay` writes.
//! By `judgements_are_repeated` and `verdicts_are_repeated` the same words and the same input give the same text
//! again, but for the cycles of a verdict, of which any are right. Where `count` writes `Seen yes` x86-TSO allows the
//! condition (`seen_within_is_allowed`), and of a faithful test it counts the hits (`faithful_counts_are_hits`).
#![tactic(auto)]

mod answer;
mod counters;
mod counting;
mod faithful;
mod judging;
mod laws;
mod listing;
mod number_text;
mod ordering;
mod parts;
mod reasons;
mod replaying;
mod request;
mod running;
mod showing;
mod skews;
mod status;
mod top;
mod verdicts;
mod witnessing;
mod words;
mod work;
mod writers;

pub use answer::answer_text;
pub use laws::{
    faithful_counts_are_hits, judgements_are_repeated, replays_are_legal, seen_within_is_allowed,
    verdicts_are_repeated, written_runs_are_legal,
};
pub use perp_loop::{Gate, NoGate};
pub use program_edge::{Answered, Request};
pub use report_text::{Over, Status};
pub use request::read_request;
pub use status::ToolStatus;
pub use top::tool;
pub use tso_words::{Done, Field};
pub use words::Command;

/// How a call of [`tool`] ended, and the field that it was given, closed.
pub type ToolOutcome = program_edge::Outcome<ToolStatus>;

#[cfg(test)]
mod tests;
