//! Which conditions can be counted: those whose atoms each have a kind.
//!
//! `check` answers Ok exactly where each atom of a test asks a read to come from one store, or to come before the first
//! store of one other thread, by the table in specs/Kinds (its clauses `inside` and `checked`). Else it names the first
//! atom that does not, and why (its clause `outside`; `profile_of` in specs/Profile computes the same).
#![tactic(auto)]

mod atoms;
mod checked;
mod error;
mod kind;

pub use checked::{Checked, check};
pub use error::ProfileError;
pub use kind::{AtomKind, ProfileKind};
