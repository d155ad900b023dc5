//! Tests of the crates that stand on no other crate of the project than `perp_base`, and of `perp_base` itself, on their
//! public names.
//!
//! A crate with tests is proved twice, with and without them. So the tests stand here, and what they test is proved
//! once. A module tests one crate: `sources_and_sinks` tests `perp_base`, `logs` `load_log`, `buffers` `store_buffer`,
//! `lanes` `tso_words`, `searching` `choice_search`, and `reports` `report_text`.
#![tactic(auto)]

#[cfg(test)]
mod buffers;
#[cfg(test)]
mod lanes;
#[cfg(test)]
mod logs;
#[cfg(test)]
mod reports;
#[cfg(test)]
mod searching;
#[cfg(test)]
mod sources_and_sinks;
