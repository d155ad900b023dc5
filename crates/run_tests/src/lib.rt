//! Tests of the crates that make, read and judge runs, on their public names.
//!
//! A crate with tests is proved twice, with and without them. So the tests stand here, and what they test is proved
//! once. A module tests one crate: `walks` tests `perp_loop`, `schedules` `replay_run`, `sections` `run_text`, and
//! `witnesses` `run_witness`.
#![tactic(auto)]

#[cfg(test)]
mod schedules;
#[cfg(test)]
mod sections;
#[cfg(test)]
mod walks;
#[cfg(test)]
mod witnesses;
