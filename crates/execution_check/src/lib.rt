//! Is a written execution of a litmus test, with the numbers of the text, one of x86-TSO?
//!
//! `judge_execution` of run_judge judges it. The law `legal_is_execution` says that `Legal` is said exactly of the
//! lists of events that are executions of the test as it is written (`IsWritten`, `specs/Steps`), in the terms of
//! litmus_outcomes. By `executions_are_written_once` each execution has exactly one such list.
#![tactic(auto)]

mod laws;

pub use laws::{executions_are_written_once, legal_is_execution};
