//! Tests of the crates that count frames, on their public names.
//!
//! A crate with tests is proved twice, with and without them. So the tests stand here, and what they test is proved
//! once. `counts` and `rings` test `frame_count`, `picks` tests `heuristic`, and `skews` tests `skew`. What the fixtures
//! promise stands in `specs/`: two logs and conditions over them (`TwoLogs`), logs of one column for each of up to eight
//! threads (`RingLogs`), and store buffering with its logs (`Tried`).
#![tactic(auto)]

#[cfg(test)]
mod counts;
#[cfg(test)]
mod fixtures;
#[cfg(test)]
mod picks;
#[cfg(test)]
mod rings;
#[cfg(test)]
mod skews;
