//! Reads litmus tests of the X86 format: `read_litmus` answers a test, or the first thing that does not fit.
//!
//! What a text is read as is the relation `Reads text answer` (`specs/Reading`), which follows the format section by
//! section. The clauses `reads` and `refuses` of `read_litmus` say that its answer is what the text is read as, and the
//! clause `only` that the text is read as nothing else; want of memory alone is free. The clause of `one_reading` says
//! that each text, of any length, is read as exactly one answer. The clause of `names_are_ascii` says that a text that
//! is read as a test names it and its locations in ASCII.
#![tactic(auto)]

mod condition;
mod front;
mod initial;
mod kind;
mod reader;
mod rows;

ghost use Rattle.litmus_reader.specs.Answered.{NamesAreAscii};
ghost use Rattle.litmus_reader.specs.Reading.{OneReading};

pub use kind::{LitmusError, LitmusKind};
pub use reader::read_litmus;

/// Each text is read as one answer, and as no other.
pub fn one_reading()
    ensures { OneReading }
{}

/// A text that is read as a test names it and its locations in ASCII.
pub fn names_are_ascii()
    ensures { NamesAreAscii }
{}
