//! The request of the words and the source.
ghost use Rattle.std.specs.Prelude.{◌≡◌, None};
ghost use Rattle.perp_base.specs.declared.limits.TheConstants.{MOST_INPUT};
ghost use Rattle.program_edge.specs.Request.{HasInputWithin, IsRequestOf};
ghost use Rattle.program_edge.specs.View.{bytes_of};
ghost use Rattle.tool_core.specs.Due.{call_of};
ghost use Rattle.tool_core.specs.Answering.{AsksWithin};
ghost use Rattle.tool_core.specs.Words.{command_of};

use crate::words::{Command, read_words};
use command_words::WordsError;
use perp_base::{MOST_INPUT, Source};
use program_edge::{Request, input_of};
use std::alloc::Global;

/// What the words ask for. The source is read, to its end or to one byte past the limit, where they are a command.
pub fn read_request<S: Source>(alloc: Global, words: &[String], source: &mut S) -> Request<Command>
    ensures request { IsRequestOf (call_of (bytes_of words.now) (S.seen source.old) (S.seen source.new)) result }
    ensures short { HasInputWithin MOST_INPUT result }
    ensures within { AsksWithin result }
    ensures misused { command_of (bytes_of words.now) ≡ None → source.new ≡ source.old }
{
    match read_words(alloc, words) {
        Ok(command) => Request::Given(command, input_of(alloc, source, MOST_INPUT)),
        Err(WordsError::Usage) => Request::Misused,
        Err(WordsError::Memory) => Request::NoMemory,
    }
}
