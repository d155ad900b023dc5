//! What the words ask for, with the input that is read for it.
ghost use Rattle.std.specs.Prelude.{◌≡◌, None, Some};
ghost use Rattle.command_words.specs.Words.{command_of};
ghost use Rattle.program_edge.specs.Request.{HasInputWithin, IsRequestOf};
ghost use Rattle.program_edge.specs.View.{bytes_of};
ghost use Rattle.perple_core.specs.Due.{call_of, demo_number};
ghost use Rattle.perple_core.specs.Top.{IsDemo};
ghost use Rattle.perp_base.specs.declared.limits.TheConstants.{MOST_BYTES};

use command_words::{Command, WordsError, read_words};
use perp_base::{MOST_BYTES, Source};
use program_edge::{Request, input_of};
use std::alloc::Global;

fn demo_number_of(command: &Command) -> Option<u64>
    ensures { result ≡ demo_number command.now }
{
    match command {
        Command::Demo(k) => Some(*k),
        Command::Run(_) | Command::Replay(_) | Command::Convert => None,
    }
}

/// What the words ask for. The source is read, to its end or to one byte past the limit, where they are a command that
/// reads it; a demo comes alone.
pub fn read_request<S: Source>(alloc: Global, words: &[String], source: &mut S) -> Request<Command>
    ensures request { IsRequestOf (call_of (bytes_of words.now) (S.seen source.old) (S.seen source.new)) result }
    ensures within { HasInputWithin MOST_BYTES result }
    ensures demo { IsDemo (bytes_of words.now) → source.new ≡ source.old }
    ensures misused { command_of (bytes_of words.now) ≡ None → source.new ≡ source.old }
{
    let command = match read_words(alloc, words) {
        Ok(command) => command,
        Err(WordsError::Usage) => return Request::Misused,
        Err(WordsError::Memory) => return Request::NoMemory,
    };
    match demo_number_of(&command) {
        Some(_) => Request::Alone(command),
        None => Request::Given(command, input_of(alloc, source, MOST_BYTES)),
    }
}
