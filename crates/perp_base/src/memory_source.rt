//! A source over bytes in memory, for tests and for whoever has the whole input.
ghost use Rattle.std.specs.Prelude.{◌≡◌, ◌<◌, ◌≤◌, ◌+◌, ◌↔◌, length, Some, IfOk, IsErr, Contains};
ghost use Rattle.std.specs.Io.{ReadsAtMost};
ghost use Rattle.std.specs.Io.KnownBytes.{ReadConsumes};
ghost use Rattle.perp_base.specs.Causes.{next_count, HasCause};
ghost use Rattle.perp_base.specs.Memory.{new_source, next_given, SourceGoes};

use crate::{Calls, Failed, NoMemory, Source};
use std::alloc::Global;
use std::marker::Model;

/// A source that tells its bytes. Its calls are numbered from 1, and those whose numbers stand in a list fail.
#[derive(Drop)]
pub struct MemSource {
    bytes: Vec<u8>,
    place: usize,
    most: usize,
    failing: Vec<u64>,
    number: u64,
    faults: u64,
    calls: Calls,
}

impl Model for MemSource {
    ghost use Rattle.std.specs.Prelude.{◌≤◌, ◌<◌, drop, length};
    ghost use Rattle.perp_base.specs.Memory.{SourceState};

    ghost Value = { SourceState };

    ghost view = { λ s. record {
      left = drop s.place s.bytes.items;
      most = s.most;
      failing = s.failing.items;
      number = s.number;
      faults = s.faults;
      calls = s.calls.made;
    } };

    ghost invariant = { λ s. (s.place ≤ length s.bytes.items) × (0 < s.most) };
}

impl MemSource {
    /// A source of these bytes that gives at most `most` of them in a call.
    pub fn new(
        alloc: Global,
        bytes: &[u8],
        most: usize,
        failing: &[u64],
    ) -> Result<MemSource, NoMemory>
        requires { 0 < most }
        ensures { IfOk result (λ source. source ≡ new_source bytes.now most failing.now) }
    {
        let bytes = bytes.to_vec(alloc)?;
        let failing = failing.to_vec(alloc)?;
        Ok(MemSource {
            bytes,
            place: 0,
            most,
            failing,
            number: 0,
            faults: 0,
            calls: Calls::none(),
        })
    }
}

impl Source for MemSource {
    ghost seen = { λ source. record { bytes = Some source.left; faults = source.faults; calls = source.calls } };

    fn read(&mut self, buf: &mut [u8]) -> Result<usize, Failed>
        requires { 0 < length buf.old }
        ensures bound { ReadsAtMost result buf.new }
        ensures bytes { ReadConsumes (Some self.old.left) (Some self.new.left) result buf.new }
        ensures cause { HasCause self.old.faults self.new.faults result }
        ensures called { self.new.calls ≡ self.old.calls + 1 }

        // The whole answer, and the whole state after it.
        ensures failing { IsErr result ↔ Contains self.old.failing (next_count self.old.number) }
        ensures given { IfOk result (λ n. n ≡ next_given self.old (length buf.old)) }
        ensures goes { SourceGoes self.old result self.new }
    {
        self.calls = self.calls.and_one();
        self.number = self.number.saturating_add(1);
        if self.failing.contains(&self.number) {
            self.faults = self.faults.saturating_add(1);
            return Err(Failed);
        }
        let left = &self.bytes[self.place..];
        let count = self.most.min(buf.len()).min(left.len());
        buf[..count].copy_from_slice(&left[..count]);
        self.place += count;
        Ok(count)
    }
}
