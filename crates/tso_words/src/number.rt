//! A thread's number in a type, for the proof of a call that speaks of one number.
ghost use Rattle.std.specs.Prelude.{ℕ};

use std::marker::Brand;

/// The number for which a call asks the table for a step. It is known to proofs alone, and a call picks it.
pub trait Number {
    ghost number: { ℕ };
}

impl Number for Brand {
    ghost number = { 0 };
}
