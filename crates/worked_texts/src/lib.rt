//! Well-known litmus tests as texts, and the test that a text is: what the tests of several crates begin with.
//!
//! The texts are in the format of herd and litmus7 (`docs/FORMAT.md`). `test_of` reads one by `litmus_reader`.
#![tactic(auto)]

mod reading;
mod texts;

pub use reading::test_of;
pub use texts::{COWW, IRIW, LB, MP, OWN, SB, SBF, SBX, WRF};
