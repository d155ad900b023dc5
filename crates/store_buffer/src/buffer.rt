//! The store buffer of one thread.
ghost use Rattle.std.specs.Prelude.{◌≡◌, ℕ, ◌+◌, ◌<◌, ◌≤◌, ◌↔◌, [], ◌∷◌, ◌++◌, length, drop, slice_get, Some, IsOk, OnOk, OnErr, IfErr, IsTrue, false};
ghost use Rattle.store_buffer.specs.Contents.{newest_value};

use crate::entry::Entry;
use arrayvec::ArrayVec;
use perp_base::MOST_WRITES;
use std::marker::Model;

/// The writes of one thread that memory has not seen yet, oldest first; at most as many as its capacity, which is 1 to
/// 16. They stand in a ring over the slots of an `ArrayVec`, so that no write moves when the oldest one leaves.
#[derive(Drop)]
pub struct Buffer {
    capacity: u32,
    /// The slot of the oldest write, and how many writes stand from there on; after the last slot comes the first.
    oldest: usize,
    len: usize,
    slots: ArrayVec<Entry, MOST_WRITES>,
}

impl Model for Buffer {
    ghost use Rattle.std.specs.Prelude.{ℕ};
    ghost use Rattle.store_buffer.specs.Contents.{Contents};
    ghost use Rattle.store_buffer.specs.Ring.{window, IsRing};

    ghost Value = { Contents };

    ghost view = { λ a. record { capacity = a.capacity; entries = window a.oldest a.len a.slots.items } };

    ghost invariant = { λ a. IsRing a.capacity a.oldest a.len a.slots.items };
}

impl Buffer {
    /// An empty buffer for so many writes.
    pub fn new(capacity: u32) -> Buffer
        requires low { 1 ≤ capacity }
        requires high { capacity ≤ MOST_WRITES }
        ensures { result ≡ record { capacity = capacity; entries = [] } }
    {
        Buffer {
            capacity,
            oldest: 0,
            len: 0,
            slots: ArrayVec::from([Entry::default(); MOST_WRITES]),
        }
    }

    /// Appends a write. Where the buffer is full it gives the write back, and nothing changes.
    pub fn push(&mut self, entry: Entry) -> Result<(), Entry>
        ensures room { IsOk result ↔ (length self.old.entries < self.old.capacity) }
        ensures ok { OnOk result (self.new ≡ record self.old { entries = self.old.entries ++ entry ∷ [] }) }
        ensures err { OnErr result (self.new ≡ self.old) }
        ensures full { OnErr result (length self.old.entries ≡ self.old.capacity) }
        ensures given_back { IfErr result (λ e. e ≡ entry) }
    {
        if self.len < self.capacity as usize {
            self.slots.as_mut_slice()[(self.oldest + self.len) % MOST_WRITES] = entry;
            self.len += 1;
            Ok(())
        } else {
            Err(entry)
        }
    }

    /// The write with this number, counted from the oldest.
    fn at(&self, i: usize) -> Entry
        requires there { i < length self.now.entries }
        ensures { slice_get self.now.entries i ≡ Some result }
    {
        self.slots.as_slice()[(self.oldest + i) % MOST_WRITES]
    }

    /// The oldest write; None where the buffer is empty.
    pub fn oldest(&self) -> Option<Entry>
        ensures { result ≡ slice_get self.now.entries 0 }
    {
        if self.len == 0 {
            None
        } else {
            Some(self.slots.as_slice()[self.oldest])
        }
    }

    /// Takes the oldest write out; None where the buffer is empty.
    pub fn drain_one(&mut self) -> Option<Entry>
        ensures oldest { result ≡ slice_get self.old.entries 0 }
        ensures rest { self.new ≡ record self.old { entries = drop 1 self.old.entries } }
    {
        let oldest = self.oldest()?;
        self.oldest = (self.oldest + 1) % MOST_WRITES;
        self.len -= 1;
        Some(oldest)
    }

    /// The value of the newest write to a location; None where no write to it waits.
    pub fn newest_for(&self, loc: u32) -> Option<u64>
        ensures { result ≡ newest_value loc self.now.entries }
    {
        for i in (0..self.len()).rev() {
            let entry = self.at(i);
            if entry.loc == loc {
                return Some(entry.value);
            }
        }
        None
    }

    /// How many writes there may be.
    pub fn capacity(&self) -> u32
        ensures value { result ≡ self.now.capacity }
        ensures low { 1 ≤ result }
        ensures high { result ≤ MOST_WRITES }
    {
        self.capacity
    }

    /// How many writes there are.
    pub fn len(&self) -> usize
        ensures value { result ≡ length self.now.entries }
        ensures fits { result ≤ self.now.capacity }
        ensures few { self.now.capacity ≤ MOST_WRITES }
    {
        self.len
    }

    /// Whether no write waits.
    pub fn is_empty(&self) -> bool
        ensures { IsTrue result ↔ (self.now.entries ≡ []) }
    {
        self.len() == 0
    }

    /// Whether a push would be refused.
    pub fn is_full(&self) -> bool
        ensures full { IsTrue result ↔ (length self.now.entries ≡ self.now.capacity) }
        ensures room { result ≡ false → length self.now.entries < self.now.capacity }
    {
        self.len() == self.capacity as usize
    }
}
