//! Tests of the crates that read litmus tests and put them into numbers, on their public names.
//!
//! A crate with tests is proved twice, with and without them. So the tests stand here, and what they test is proved
//! once. A module tests one crate: `parts` tests `x86_subset`, `reading` `litmus_reader`, `sequences` `seq_conv`,
//! `profiles` `profile_check`, `conditions` `outcome_conv`, `conversions` `convert_rows`, and `demos` `demo_text`.
#![tactic(auto)]

#[cfg(test)]
mod conditions;
#[cfg(test)]
mod conversions;
#[cfg(test)]
mod demos;
#[cfg(test)]
mod parts;
#[cfg(test)]
mod profiles;
#[cfg(test)]
mod reading;
#[cfg(test)]
mod sequences;
