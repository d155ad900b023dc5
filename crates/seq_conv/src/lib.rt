//! The arithmetic sequences that make stored values unique.
//!
//! `Sequences::of` numbers the stores of a test: its clause `AreOf` says that the rank and the values of each store are
//! those of the definitions in specs/Sequence, and `Sequences::owner` tells whose value a number is (its clause
//! `owner`). `stand_in` says whether stores stand in a thread. The law `values_have_one_owner` says it of the
//! definitions alone: each value above 0 has one owner.
#![tactic(auto)]

mod laws;
mod number;
mod sequences;
mod site;
mod writers;

pub use laws::values_have_one_owner;
pub use number::Number;
pub use sequences::Sequences;
pub use site::{Origin, Site};
pub use writers::stand_in;
