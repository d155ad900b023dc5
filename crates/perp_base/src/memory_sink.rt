//! A sink over memory, for tests and for whoever wants the whole output.
ghost use Rattle.std.specs.Prelude.{◌≡◌, ◌⊎◌, ◌<◌, ◌≤◌, ◌+◌, ◌↔◌, length, Some, IfOk, IsErr, Contains};
ghost use Rattle.std.specs.Io.{WritesAtMost};
ghost use Rattle.std.specs.Io.KnownBytes.{WriteAppends};
ghost use Rattle.perp_base.specs.Causes.{next_count, HasCause};
ghost use Rattle.perp_base.specs.Memory.{new_sink, next_taken, SinkGoes};

use crate::{Calls, Failed, NoMemory, Sink};
use std::alloc::Global;
use std::marker::Model;

/// A sink that tells its bytes. Its calls are numbered from 1. Those whose numbers stand in a list fail, and so do
/// those that find no room.
#[derive(Drop)]
pub struct MemSink {
    bytes: Vec<u8>,
    room: usize,
    most: usize,
    failing: Vec<u64>,
    number: u64,
    faults: u64,
    calls: Calls,
}

impl Model for MemSink {
    ghost use Rattle.std.specs.Prelude.{◌≤◌, ◌<◌, ◌+◌, vec_len, vec_capacity};
    ghost use Rattle.perp_base.specs.Memory.{SinkState};

    ghost Value = { SinkState };

    ghost view = { λ s. record {
      written = s.bytes.items;
      room = s.room;
      most = s.most;
      failing = s.failing.items;
      number = s.number;
      faults = s.faults;
      calls = s.calls.made;
    } };

    ghost invariant = { λ s. (vec_len s.bytes + s.room ≤ vec_capacity s.bytes) × (0 < s.most) };
}

impl MemSink {
    /// An empty sink with room for so many bytes, which takes at most `most` of them in a call.
    pub fn new(
        alloc: Global,
        room: usize,
        most: usize,
        failing: &[u64],
    ) -> Result<MemSink, NoMemory>
        requires { 0 < most }
        ensures { IfOk result (λ sink. sink ≡ new_sink room most failing.now) }
    {
        let failing = failing.to_vec(alloc)?;
        let bytes = Vec::with_capacity(alloc, room)?;
        Ok(MemSink {
            bytes,
            room,
            most,
            failing,
            number: 0,
            faults: 0,
            calls: Calls::none(),
        })
    }

    /// The bytes that were written, in order.
    pub fn written(&self) -> &[u8]
        ensures { result.now ≡ self.now.written }
    {
        &self.bytes
    }
}

impl Sink for MemSink {
    ghost seen = { λ sink. record { bytes = Some sink.written; faults = sink.faults; calls = sink.calls } };

    ghost goes = { SinkGoes };

    fn write(&mut self, bytes: &[u8]) -> Result<usize, Failed>
        requires { 0 < length bytes.now }
        ensures some { IfOk result (λ n. 0 < n) }
        ensures bound { WritesAtMost result bytes.now }
        ensures bytes { WriteAppends (Some self.old.written) (Some self.new.written) result bytes.now }
        ensures cause { HasCause self.old.faults self.new.faults result }
        ensures called { self.new.calls ≡ self.old.calls + 1 }

        // The whole answer, and the whole state after it.
        ensures failing { IsErr result ↔ (Contains self.old.failing (next_count self.old.number) ⊎ (self.old.room ≡ 0)) }
        ensures taken { IfOk result (λ n. n ≡ next_taken self.old (length bytes.now)) }
        ensures goes { SinkGoes self.old bytes.now result self.new }
    {
        self.calls = self.calls.and_one();
        self.number = self.number.saturating_add(1);
        if self.failing.contains(&self.number) || self.room == 0 {
            self.faults = self.faults.saturating_add(1);
            return Err(Failed);
        }
        let count = self.most.min(bytes.len()).min(self.room);
        self.bytes.extend_from_slice(&bytes[..count]).unwrap();
        self.room -= count;
        Ok(count)
    }
}
