//! What the words and the source ask of a program.
ghost use Rattle.std.specs.Prelude.{◌≤◌, IfOk};
ghost use Rattle.program_edge.specs.Request.{IsInputOf};

use perp_base::{ReadError, Source, read_input};
use std::alloc::Global;

/// What a program is asked for, with all that was read for it.
#[derive(Drop)]
pub enum Request<C> {
    /// The words are no command.
    Misused,
    /// Memory ran out at the reading of the words.
    NoMemory,
    /// A command that reads no input.
    Alone(C),
    /// A command, and the whole input that was read for it, or why it was not read.
    Given(C, Result<Vec<u8>, ReadError>),
}

/// All that the source has left, at most `limit` bytes, or why that was not read: the input of a [`Request`].
pub fn input_of<S: Source>(
    alloc: Global,
    source: &mut S,
    limit: usize,
) -> Result<Vec<u8>, ReadError>
    ensures { IsInputOf (S.seen source.old) (S.seen source.new) limit result }
{
    read_input(alloc, source, limit)
}
