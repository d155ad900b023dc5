//! The sections of an input: where one begins, and what its lines say.
//!
//! `find_section` parts an input at its first section line of a heading. Its clause `is` says that what it answers is
//! exactly `split_of` the input (`specs/Sections`), so none where no line is a section line. `events` gives the events
//! that the lines of a section tell, and `execution_events` those of a section `%execution 1`; `read_logs` gives one log
//! for each thread. Their clauses say that the answer is exactly `events_of` and `execution_events_of` (`specs/Events`)
//! and `logs_of` (`specs/Logs`) of the lines, or want of memory, and so which line is the first without its form. Lines
//! are numbered through the whole input, and lines without words are skipped. On lines of events `P007` is thread 7; a
//! line of logs begins with the plain `P7`.
//!
//! The laws of `specs/Laws` say that what is written is read back. `events_are_read_back`: the line of an event, as
//! run_judge writes it, tells that event. `sections_part_inputs`: an input that has a section is its litmus part, the
//! section line and the section's lines, put together. `runs_are_read_back`: a run that is written after a litmus text
//! (`run_text_of`, `specs/Runs`) is parted from it again, and its lines tell its events.
//!
//! Each byte is looked at a few times at most, and nothing is kept but the answer.
#![tactic(auto)]

mod error;
mod event_lines;
mod laws;
mod log_line;
mod logs;
mod numbers;
mod section;
mod words;

pub use error::SectionError;
pub use event_lines::{events, execution_events};
pub use laws::{events_are_read_back, runs_are_read_back, sections_part_inputs};
pub use logs::read_logs;
pub use section::{Section, find_section};
