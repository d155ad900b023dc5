//! The words of the command line. `read_words` reads them, those of `run` and `replay` by clap: an answer is the
//! command that the definition `command_of` gives for the words (clause `ok`), and the words are refused as misused
//! only where it gives none (clause `usage`). Each `Job` keeps that its numbers lie within their limits (`IsWithin`).
//! `read_iterations` reads the words after a name where they are to be the number of iterations alone
//! (`iterations_in`), `read_count` reads them as the job of a count (`count_in`), and `read_replay` as a replay of which
//! nothing is counted (`replay_in`). The law `lines_stand_for_their_commands` says that `command_of`, `count_in` and
//! `replay_in`, which go through the words from left to right, find what the rules of `specs/Lines` say of the line as a
//! whole, with the options in any order.
#![tactic(auto)]

mod job;
mod laws;
mod reading;
mod values;

pub use job::{Command, Count, CountJob, Job, ReplayJob, schedule_for};
pub use laws::lines_stand_for_their_commands;
pub use perp_base::{Options, Schedule};
pub use reading::{WordsError, read_count, read_iterations, read_replay, read_words};

#[cfg(test)]
mod tests;
