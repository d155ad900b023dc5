//! A sink of bytes that counts its faults, and the writing of a whole text.
ghost use Rattle.std.specs.Prelude.{◌≡◌, ◌<◌, ◌≤◌, ◌+◌, ℕ, List, length, IfOk, OnOk, OnErr};
ghost use Rattle.std.specs.Io.{WritesAtMost};
ghost use Rattle.std.specs.Io.KnownBytes.{WriteAppends, Appends};
ghost use Rattle.perp_base.specs.Causes.{HasCause};
ghost use Rattle.perp_base.specs.Bytes.{AppendsPart};
ghost use Rattle.perp_base.specs.Turns.{WritesInTurns};
ghost use Rattle.perp_base.specs.View.{View};
ghost use Rattle.perp_base.specs.declared.failure.Failed.{Failed};
ghost use Rattle.std.specs.declared.result.Result.{Result};

use crate::Failed;

/// Where bytes go. A sink may tell contracts which bytes were written, and then tells them after each call too.
pub trait Sink {
    /// The bytes that were written, where the sink tells them, how often a write has failed, and how often one was asked
    /// for. The count of faults stands still at the last value of its type.
    ghost seen: { Self → View };

    /// What a call does, from the state before it to the state after it, as far as the sink tells it.
    ghost goes: { Self → List ℕ → Result ℕ Failed → Self → Type 0 } = { λ _ _ _ _. Unit {0} };

    /// Appends bytes from the front of the piece, at least one, and says how many. Where it fails it appends nothing.
    fn write(&mut self, bytes: &[u8]) -> Result<usize, Failed>
        requires { 0 < length bytes.now }
        ensures some { IfOk result (λ n. 0 < n) }
        ensures bound { WritesAtMost result bytes.now }
        ensures bytes { WriteAppends (seen self.old).bytes (seen self.new).bytes result bytes.now }
        ensures cause { HasCause (seen self.old).faults (seen self.new).faults result }
        ensures called { (seen self.new).calls ≡ (seen self.old).calls + 1 }
        ensures goes { goes self.old bytes.now result self.new };
}

/// Writes all of the bytes.
pub fn write_whole<O: Sink>(sink: &mut O, bytes: &[u8]) -> Result<(), Failed>
    ensures ok { OnOk result (Appends (O.seen sink.old).bytes (O.seen sink.new).bytes bytes.now) }
    ensures err { OnErr result (AppendsPart (O.seen sink.old).bytes (O.seen sink.new).bytes bytes.now) }
    ensures cause { HasCause (O.seen sink.old).faults (O.seen sink.new).faults result }

    // Each turn hands the sink all bytes that are not yet appended, and it takes one of them at least.
    ensures turns { WritesInTurns O.goes sink.old bytes.now result sink.new }
    ensures calls { (O.seen sink.new).calls ≤ (O.seen sink.old).calls + length bytes.now }
{
    let mut rest = bytes;
    while !rest.is_empty() {
        let taken = sink.write(rest)?;
        rest = &rest[taken..];
    }
    Ok(())
}
