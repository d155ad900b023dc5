//! An answer before anything of it is written, and how a call ended after.
ghost use Rattle.std.specs.Prelude.{◌≡◌};
ghost use Rattle.program_edge.specs.Field.{IsStill};

use crate::closing::close_unused;
use tso_words::{Done, Field};

/// A text or why there is none, and the closed field.
#[derive(Drop)]
pub struct Answered<E> {
    pub text: Result<String, E>,
    pub done: Done,
}

impl<E> Answered<E> {
    /// Before the first step on the field.
    pub fn still(text: Result<String, E>, field: Field) -> Answered<E>
        ensures identity { result.done.identity ≡ field }
        ensures text { result.text ≡ text }
        ensures still { IsStill result.done }
    {
        Answered {
            text,
            done: close_unused(field),
        }
    }
}

/// How a call ended, and the field that it was given, closed.
#[derive(Drop)]
pub struct Outcome<S> {
    pub status: S,
    pub done: Done,
}
