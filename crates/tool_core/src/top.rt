//! The second program's top call.
ghost use Rattle.std.specs.Prelude.{◌≡◌, None};
ghost use Rattle.program_edge.specs.View.{bytes_of, Wrote};
ghost use Rattle.tool_core.specs.Status.{tool_line};
ghost use Rattle.tool_core.specs.Top.{Ended, Completes, IsUsage, RunFits, WritesWhole, WritesPart, ReadsToEnd, KeepsSource, AnswersDue, AnswersTooLong, IsField, LeavesOutOfMemory, SuitsCommand};
ghost use Rattle.tool_core.specs.Words.{command_of};

use crate::answer::answer_text;
use crate::request::read_request;
use crate::status::ToolStatus;
use perp_base::{Sink, Source};
use perp_loop::Gate;
use program_edge::{Answered, Outcome, deliver, put_line};
use std::alloc::Global;
use std::thread::Threads;
use tso_words::Field;

/// Does what the words ask for: reads a litmus test and, where the command has one, a section from the source, and
/// writes the answer to `out`, or the line of a refusal to `err`.
///
/// The words are those after the program's name. The threads of a command that runs the test make all their steps on
/// `field`, which is new by its type, and call `gate` before each iteration. Each call returns.
pub fn tool<R: Threads + Sync, S: Source, O: Sink, E: Sink, G: Gate>(
    rt: &R,
    alloc: Global,
    words: &[String],
    source: &mut S,
    out: &mut O,
    err: &mut E,
    field: Field,
    gate: &G,
) -> Outcome<ToolStatus>
    // What was written, and what the threads did on the field.
    ensures whole { WritesWhole (bytes_of words.now) (S.seen source.old) result.done
        (O.seen out.old) (O.seen out.new) result.status }
    ensures part { WritesPart (bytes_of words.now) (S.seen source.old) result.done
        (O.seen out.old) (O.seen out.new) result.status }
    ensures fits { RunFits (bytes_of words.now) (S.seen source.old) result.done result.status }
    ensures identity { result.done.identity ≡ field }

    // Each status has its cause, and what it leaves on `out` and on the field.
    ensures ended { Ended (bytes_of words.now) (S.seen source.old) (S.seen source.new) result.done
        (O.seen out.old) (O.seen out.new) (out.new ≡ out.old) result.status }
    ensures usage { IsUsage (bytes_of words.now) result.status }
    ensures due { AnswersDue (bytes_of words.now) (S.seen source.old) (S.seen source.new) result.status }
    ensures too_long { AnswersTooLong (bytes_of words.now) (S.seen source.old) (S.seen source.new) result.status }
    ensures suits { SuitsCommand (bytes_of words.now) result.status }
    ensures complete { Completes (bytes_of words.now) (S.seen source.old) (S.seen source.new)
        (O.seen out.old) (O.seen out.new) result.status }

    // What every command leaves: the source, the field and `err`.
    ensures read { ReadsToEnd (S.seen source.new) result.status }
    ensures kept { KeepsSource (S.seen source.old) (S.seen source.new) result.status }
    ensures misused { command_of (bytes_of words.now) ≡ None → source.new ≡ source.old }
    ensures field { IsField (bytes_of words.now) result.done result.status }
    ensures memory { LeavesOutOfMemory (bytes_of words.now) (S.seen source.old) (S.seen source.new) result.done
        result.status }

    // The line of the status, which is empty for the whole answer.
    ensures line { Wrote (E.seen err.old) (E.seen err.new) (tool_line result.status) }
{
    let request = read_request(alloc, words, source);
    let Answered { text, done } = answer_text(rt, alloc, &request, field, gate);
    let status = deliver(&text, out);
    put_line(status.line().bytes(), err);
    Outcome { status, done }
}
