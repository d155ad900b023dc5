//! An answer is written: its text, and the line of its status.
ghost use Rattle.std.specs.Prelude.{◌≡◌, IfOk, IfErr, string_bytes};
ghost use Rattle.report_text.specs.Status.{HasKind};
ghost use Rattle.program_edge.specs.View.{Wrote, WroteAs};

use perp_base::{Sink, write_whole};
use report_text::Status;

/// Writes the text of an answer to `out`.
fn put_text<O: Sink>(text: &str, out: &mut O) -> Status
    ensures kind { HasKind result }
    ensures wrote { WroteAs result (O.seen out.old) (O.seen out.new) text.now }
{
    match write_whole(out, text.as_bytes()) {
        Ok(()) => Status::Whole,
        Err(_) => Status::WriteFault,
    }
}

/// Writes the text of an answer to `out`. A refusal leaves `out` alone.
pub fn deliver<S: From<Status> + Copy, O: Sink>(text: &Result<String, S>, out: &mut O) -> S
    ensures refused { IfErr text.now (λ status. (result ≡ status) × (out.new ≡ out.old)) }
    ensures text { IfOk text.now (λ text. (wrote : Status) × S.from_gives wrote result
        × WroteAs wrote (O.seen out.old) (O.seen out.new) (string_bytes text)) }
{
    match text {
        Ok(text) => S::from(put_text(text.as_str(), out)),
        Err(status) => *status,
    }
}

/// Writes a line to `err`. A fault of `err` changes nothing else.
pub fn put_line<E: Sink>(line: &[u8], err: &mut E)
    ensures { Wrote (E.seen err.old) (E.seen err.new) line.now }
{
    let _ = write_whole(err, line);
}
