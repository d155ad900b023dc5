//! The adapters over std's readers and writers, the edge of what is proved. They tell no bytes, since no contract can
//! say what a file or a terminal holds.
ghost use Rattle.std.specs.Prelude.{◌≡◌, ◌<◌, ◌+◌, None, length, take, IfOk};
ghost use Rattle.std.specs.Io.{ReadsAtMost, WritesAtMost};
ghost use Rattle.std.specs.Io.KnownBytes.{Appends, ReadConsumes, WriteAppends};
ghost use Rattle.perp_base.specs.Causes.{CountsFaults, HasCause};
ghost use Rattle.perp_base.specs.Adapted.{adapted};

use crate::{Calls, Failed, Sink, Source};
use std::io::{Read, Write};
use std::marker::Model;

/// A reader of std as a source. It counts each error of the reader as a fault.
#[derive(Drop)]
pub struct StdSource<I> {
    reader: I,
    faults: u64,
    calls: Calls,
}

impl<I> Model for StdSource<I> {
    ghost use Rattle.perp_base.specs.Adapted.{Adapted};

    ghost Value = { Adapted I };

    ghost view = { λ s. record { inner = s.reader; faults = s.faults; calls = s.calls.made } };
}

impl<I: Read> StdSource<I> {
    /// A source over this reader, with no fault yet.
    pub fn new(reader: I) -> StdSource<I>
        ensures { result ≡ adapted reader }
    {
        StdSource {
            reader,
            faults: 0,
            calls: Calls::none(),
        }
    }
}

impl<I: Read> Source for StdSource<I> {
    ghost seen = { λ source. record { bytes = None; faults = source.faults; calls = source.calls } };

    fn read(&mut self, buf: &mut [u8]) -> Result<usize, Failed>
        requires { 0 < length buf.old }
        ensures bound { ReadsAtMost result buf.new }
        ensures bytes { ReadConsumes None None result buf.new }
        ensures cause { HasCause self.old.faults self.new.faults result }
        ensures called { self.new.calls ≡ self.old.calls + 1 }

        // It hands on what the reader gives, and counts.
        ensures reader { ReadConsumes (I.remaining self.old.inner) (I.remaining self.new.inner) result buf.new }
        ensures counts { CountsFaults self.old.faults self.new.faults result }
    {
        self.calls = self.calls.and_one();
        match self.reader.read(buf) {
            Ok(count) => Ok(count),
            Err(_) => {
                self.faults = self.faults.saturating_add(1);
                Err(Failed)
            }
        }
    }
}

/// A writer of std as a sink, flushed after each write. It counts as a fault each error of the writer, and that it
/// takes no byte.
#[derive(Drop)]
pub struct StdSink<W> {
    writer: W,
    faults: u64,
    calls: Calls,
}

impl<W> Model for StdSink<W> {
    ghost use Rattle.perp_base.specs.Adapted.{Adapted};

    ghost Value = { Adapted W };

    ghost view = { λ s. record { inner = s.writer; faults = s.faults; calls = s.calls.made } };
}

impl<W: Write> StdSink<W> {
    /// A sink over this writer, with no fault yet.
    pub fn new(writer: W) -> StdSink<W>
        ensures { result ≡ adapted writer }
    {
        StdSink {
            writer,
            faults: 0,
            calls: Calls::none(),
        }
    }
}

impl<W: Write> Sink for StdSink<W> {
    ghost seen = { λ sink. record { bytes = None; faults = sink.faults; calls = sink.calls } };

    fn write(&mut self, bytes: &[u8]) -> Result<usize, Failed>
        requires { 0 < length bytes.now }
        ensures some { IfOk result (λ n. 0 < n) }
        ensures bound { WritesAtMost result bytes.now }
        ensures bytes { WriteAppends None None result bytes.now }
        ensures cause { HasCause self.old.faults self.new.faults result }
        ensures called { self.new.calls ≡ self.old.calls + 1 }

        // It hands on what the writer took, and counts.
        ensures writer { IfOk result (λ n. Appends (W.contents self.old.inner) (W.contents self.new.inner)
            (take n bytes.now)) }
        ensures counts { CountsFaults self.old.faults self.new.faults result }
    {
        self.calls = self.calls.and_one();
        if let Ok(count) = self.writer.write(bytes) {
            if count > 0 && self.writer.flush().is_ok() {
                return Ok(count);
            }
        }
        self.faults = self.faults.saturating_add(1);
        Err(Failed)
    }
}
