//! All outcomes of a litmus test as it is written, as a text.
//!
//! `outcomes_text` answers the final values of the registers that the condition of a test names, over all executions of
//! the test on x86-TSO, as herd7 prints them; or why it does not (its clause, `IsOutcomes` in `specs/Outcomes`). Any
//! test is answered, not only one whose condition can be counted.
//!
//! The registers stand by thread and then from EAX to EDI, each once (`specs/Registers`), and the states rise as numbers,
//! each once. What is told of the expression behind the quantifier is how many states satisfy some conjunction of it,
//! and how many none (`specs/Counting`). The bytes of the text are those of `specs/Text`.
//!
//! `laws` has one public function for each law of `specs/Laws`: a state stands there exactly where some execution of the
//! test ends with it (`outcomes_are_listed`), its line is no other state's (`lines_are_apart`), and a test has one text
//! (`one_text`), beside which it is refused for want of steps alone (`texts_are_not_refused`). The states that are counted
//! are those in which some conjunction holds (`counted_rows_satisfy`), and there are some exactly where x86-TSO allows
//! what the condition asks for (`counted_is_allowed`).
#![tactic(auto)]

mod columns;
mod counting;
mod laws;
mod outcomes;
mod registers;
mod states;
mod text;

pub use laws::{
    counted_is_allowed, counted_rows_satisfy, lines_are_apart, one_text, outcomes_are_listed,
    texts_are_not_refused,
};
pub use outcomes::outcomes_text;
pub use registers::Refused;

#[cfg(test)]
mod tests;
