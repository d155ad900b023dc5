//! A source of bytes that counts its faults, and the reading of a whole input.
ghost use Rattle.std.specs.Prelude.{◌≡◌, ◌<◌, ◌≤◌, ◌+◌, length, vec_len, IfOk, OnErr, IfSome, IsErr, IsErrOf};
ghost use Rattle.std.specs.Io.{ReadsAtMost};
ghost use Rattle.std.specs.Io.KnownBytes.{ReadConsumes};
ghost use Rattle.perp_base.specs.Causes.{Rose, HasCause};
ghost use Rattle.perp_base.specs.Bytes.{GaveAll, GaveAtMost, IsOver};
ghost use Rattle.perp_base.specs.View.{View};
ghost use Rattle.perp_base.specs.declared.source.ReadError.TheVariants.{Memory};

use crate::Failed;
use std::alloc::{AllocError, Global};
use thiserror::Error;

/// Where bytes come from. A source may tell contracts which bytes it has left, and then tells them after each call too.
pub trait Source {
    /// The bytes that reads will give from here on, where the source tells them, how often a read has failed, and how
    /// often one was asked for. The count of faults stands still at the last value of its type.
    ghost seen: { Self → View };

    /// Puts the next bytes at the front of `buf`, and says how many. `Ok(0)` is the end of the input.
    fn read(&mut self, buf: &mut [u8]) -> Result<usize, Failed>
        requires { 0 < length buf.old }
        ensures bound { ReadsAtMost result buf.new }
        ensures bytes { ReadConsumes (seen self.old).bytes (seen self.new).bytes result buf.new }
        ensures cause { HasCause (seen self.old).faults (seen self.new).faults result }
        ensures called { (seen self.new).calls ≡ (seen self.old).calls + 1 };
}

/// Why an input was not read whole.
#[derive(Clone, Copy, Debug, Error, PartialEq, Eq)]
pub enum ReadError {
    /// A read failed.
    #[error("reading failed")]
    Fault,
    /// The source had more bytes left than the limit.
    #[error("the input is over the limit")]
    TooLong,
    /// Memory ran out.
    #[error("out of memory")]
    Memory,
}

/// So that `?` hands on a refusal of std's allocator.
impl From<AllocError> for ReadError {
    ghost from_gives = { λ _ e. e ≡ Memory };

    fn from(_: AllocError) -> Self {
        ReadError::Memory
    }
}

/// The most bytes that one call is asked for.
const PIECE: usize = 4096;

/// Reads to the end of the input, at most `limit` bytes, or until one byte more than that is read.
pub fn read_input<S: Source>(
    alloc: Global,
    source: &mut S,
    limit: usize,
) -> Result<Vec<u8>, ReadError>
    ensures whole { IfOk result (λ bytes. GaveAll (S.seen source.old).bytes (S.seen source.new).bytes bytes.items) }
    ensures within { IfOk result (λ bytes. vec_len bytes ≤ limit) }

    // `TooLong` comes exactly where more than `limit` bytes were left, and yields only to the two other errors.
    ensures too_long { IsErrOf result ReadError.TooLong
        → IsOver (S.seen source.old).bytes (S.seen source.new).bytes limit }
    ensures long { IfSome (S.seen source.old).bytes (λ left. limit < length left → IsErr result) }

    ensures fault { IsErrOf result ReadError.Fault → Rose (S.seen source.old).faults (S.seen source.new).faults }
    ensures later { (S.seen source.old).faults ≤ (S.seen source.new).faults }
    ensures taken { GaveAtMost (S.seen source.old).bytes (S.seen source.new).bytes (limit + 1) }

    // A call that gives bytes gives one at least, and none comes after the one that finds the end.
    ensures calls { (S.seen source.new).calls ≤ (S.seen source.old).calls + limit + 1 }
    ensures calls_whole { IfOk result (λ bytes. (S.seen source.new).calls
        ≤ (S.seen source.old).calls + vec_len bytes + 1) }
{
    let mut bytes = Vec::new(alloc);
    let mut piece = [0u8; PIECE];
    while bytes.len() <= limit {
        let room = (limit - bytes.len()).min(PIECE - 1) + 1;
        let Ok(count) = source.read(&mut piece[..room]) else {
            return Err(ReadError::Fault);
        };
        if count == 0 {
            return Ok(bytes);
        }
        bytes.extend_from_slice(&piece[..count])?;
    }
    Err(ReadError::TooLong)
}
