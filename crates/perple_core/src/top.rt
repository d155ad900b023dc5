//! The top call.
ghost use Rattle.std.specs.Prelude.{◌≡◌, None};
ghost use Rattle.command_words.specs.Words.{command_of};
ghost use Rattle.report_text.specs.Status.{line_of};
ghost use Rattle.program_edge.specs.View.{bytes_of, Wrote};
ghost use Rattle.perple_core.specs.Headline.{RunReads, RunFits, RunText};
ghost use Rattle.perple_core.specs.Top.{IsDemo, Ended, Completes, DemoCompletes, IsUsage, IsOutOfMemory, WritesWhole, WritesPart, ReadsToEnd, AnswersDue, AnswersTooLong, IsField};

use crate::answer::answer_text;
use crate::request::read_request;
use perp_base::{Sink, Source};
use perp_loop::Gate;
use program_edge::{Answered, Outcome, deliver, put_line};
use report_text::{Status, refusal_text};
use std::alloc::Global;
use std::thread::Threads;
use tso_words::Field;

/// Does what the words ask for: reads a litmus test from the source, writes the answer to `out`, or the line of a
/// refusal to `err`. It is [`read_request`], then [`answer_text`], and then the writing.
///
/// The words are those after the program's name. The threads of `run` make all their steps on `field`, which is new by
/// its type, and call `gate` before each iteration. Each call returns.
pub fn perple<R: Threads + Sync, S: Source, O: Sink, E: Sink, G: Gate>(
    rt: &R,
    alloc: Global,
    words: &[String],
    source: &mut S,
    out: &mut O,
    err: &mut E,
    field: Field,
    gate: &G,
) -> Outcome<Status>
    // The headline, for `run`: what was read, what the threads did on the field, and what was written.
    ensures reads { RunReads (bytes_of words.now) (S.seen source.old) result.status }
    ensures fits { RunFits (bytes_of words.now) (S.seen source.old) result.done result.status }
    ensures text { RunText (bytes_of words.now) (S.seen source.old) result.done
        (O.seen out.old) (O.seen out.new) result.status }
    ensures identity { result.done.identity ≡ field }

    // Each status has its cause, and what it leaves on `out` and on the field.
    ensures ended { Ended (bytes_of words.now) (S.seen source.old) (S.seen source.new) result.done
        (O.seen out.old) (O.seen out.new) (out.new ≡ out.old) result.status }
    ensures usage { IsUsage (bytes_of words.now) result.status }
    ensures memory { IsOutOfMemory (bytes_of words.now) (S.seen source.old) (S.seen source.new) result.done result.status }
    ensures due { AnswersDue (bytes_of words.now) (S.seen source.old) (S.seen source.new) result.status }
    ensures too_long { AnswersTooLong (bytes_of words.now) (S.seen source.old) (S.seen source.new) result.status }
    ensures complete { Completes (bytes_of words.now) (S.seen source.old) (S.seen source.new)
        (O.seen out.old) (O.seen out.new) result.status }
    ensures demo_complete { DemoCompletes (bytes_of words.now) (O.seen out.old) (O.seen out.new) result.status }

    // What every command leaves: the source, the field, `out` and `err`.
    ensures read { ReadsToEnd (bytes_of words.now) (S.seen source.new) result.status }
    ensures demo { IsDemo (bytes_of words.now) → source.new ≡ source.old }
    ensures misused { command_of (bytes_of words.now) ≡ None → source.new ≡ source.old }
    ensures field { IsField (bytes_of words.now) result.done result.status }
    ensures whole { WritesWhole (bytes_of words.now) (S.seen source.old) result.done
        (O.seen out.old) (O.seen out.new) result.status }
    ensures part { WritesPart (bytes_of words.now) (S.seen source.old) result.done
        (O.seen out.old) (O.seen out.new) result.status }

    // The line of the status, which is empty for the whole answer.
    ensures line { Wrote (E.seen err.old) (E.seen err.new) (line_of result.status) }
{
    let request = read_request(alloc, words, source);
    let Answered { text, done } = answer_text(rt, alloc, &request, field, gate);
    let status = deliver(&text, out);
    put_line(refusal_text(&status).bytes(), err);
    Outcome { status, done }
}
