//! Tests of the crates that say which outcomes a litmus test can have, on their public names.
//!
//! A crate with tests is proved twice, with and without them. So the tests stand here, and what they test is proved
//! once. A module tests one crate: `verdicts` tests `verdict`, `decisions` `decision`, `listings` `outcome_rows`,
//! `alongs` `order_run`, and `possible` and `shown` `row_decision`.
#![tactic(auto)]

#[cfg(test)]
mod alongs;
#[cfg(test)]
mod decisions;
#[cfg(test)]
mod listings;
#[cfg(test)]
mod possible;
#[cfg(test)]
mod shown;
#[cfg(test)]
mod verdicts;
