//! The demo's text. `demo_text` writes the text of a number `k`, byte for byte the definition's (clause `text`,
//! `demo_text_of`), and `demo_texts_are_tests` has the law that each of these texts reads as a test of two to four
//! threads, with a kind for each of its atoms, an ASCII name, and few enough frames at the iterations of
//! `demo_iterations`. So a demo is never refused.
#![tactic(auto)]

mod draw;
mod laws;
mod line;
mod text;

pub use draw::Draw;
pub use laws::demo_texts_are_tests;
pub use line::Line;
pub use text::{demo_iterations, demo_text};
