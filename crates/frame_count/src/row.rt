//! The count of a row: all iterations of the last thread, with those of the other threads fixed.
ghost use Rattle.std.specs.Prelude.{◌≡◌, ℕ, ◌+◌, ◌-◌, ◌^◌, ◌<◌, ◌≤◌, ◌==◌, length, count_by, true, false, All, List};
ghost use Rattle.std.specs.List.{list_all, range_with_len};
ghost use Rattle.load_log.specs.Values.{Values, value_at};
ghost use Rattle.outcome_conv.specs.Conds.{conds_hold};
ghost use Rattle.frame_count.specs.Count.{IsFrameOf, IsGood, IsOfLogs, with_last};
ghost use Rattle.frame_count.specs.Known.{IsKnown, Tells};
ghost use Rattle.frame_count.specs.declared.stretch.Stretch.{Stretch};
ghost use Rattle.frame_count.specs.Row.{Leaves, holds_along, left_along, mask_along};
ghost use Rattle.frame_count.specs.Rows.{IsRow, row_holds};
ghost use Rattle.perp_base.specs.declared.limits.TheConstants.{MOST_ITERATIONS};

use crate::at_frame::all_hold_at;
use crate::known::Known;
use crate::lanes::{bound, own_word, values_word};
use crate::reach::{hull, reaches};
use crate::stretch::Stretch;
use load_log::Logs;
use outcome_conv::{Cond, Conds};
use perp_base::{Frame, MOST_CONJUNCTIONS};

/// At which of sixty-four iterations a condition holds whose reader is the last thread.
#[inline(always)]
fn cond_word(cond: &Cond, logs: &Logs, frame: &Frame, at: usize) -> u64
    requires frame { (n : ℕ) × (at + 64 ≤ n) × IsFrameOf logs.now.logs n frame.now × IsGood logs.now.logs cond.now }
    requires at { at + 64 ≤ 2 ^ 32 }
    requires reader { (cond.now.reader == length frame.now - 1) ≡ true }
    ensures { result ≡ mask_along (λ m. holds_along logs.now.logs frame.now m cond.now) at 64 }
{
    let values = logs.at(cond.reader as usize).column(cond.column as usize);
    if cond.writer == cond.reader {
        own_word(cond.kind, values, at)
    } else {
        let bound = bound(cond.kind, frame.at(cond.writer as usize));
        values_word(cond.kind, values, bound, at)
    }
}

/// Whether a stretch leaves a condition to test.
#[inline(always)]
fn is_left(cond: &Cond, frame: &Frame, stretch: Stretch) -> bool
    requires { 1 ≤ length frame.now }
    ensures left { result ≡ true → (logs : List Values) (m : ℕ)
        → left_along logs frame.now stretch m cond.now ≡ holds_along logs frame.now m cond.now }
    ensures passed { result ≡ false → (logs : List Values) (m : ℕ)
        → left_along logs frame.now stretch m cond.now ≡ true }
    ensures reader { result ≡ true → (cond.now.reader == length frame.now - 1) ≡ true }
{
    let last = frame.len() - 1;
    if cond.reader as usize != last {
        false
    } else if cond.writer as usize == last {
        stretch.own
    } else {
        stretch.row
    }
}

/// At which of sixty-four iterations a condition holds, if its stretch leaves it to test; else all of them.
#[inline(always)]
fn one_word(cond: &Cond, logs: &Logs, frame: &Frame, stretch: Stretch, at: usize) -> u64
    requires frame { (n : ℕ) × (at + 64 ≤ n) × IsFrameOf logs.now.logs n frame.now × IsGood logs.now.logs cond.now }
    requires at { at + 64 ≤ 2 ^ 32 }
    ensures { result ≡ mask_along (λ m. left_along logs.now.logs frame.now stretch m cond.now) at 64 }
{
    if is_left(cond, frame, stretch) {
        cond_word(cond, logs, frame, at)
    } else {
        u64::MAX
    }
}

/// At which of sixty-four iterations the conditions that a stretch leaves to test hold.
fn left_word(conds: &[Cond], logs: &Logs, frame: &Frame, stretch: Stretch, at: usize) -> u64
    requires frame { (n : ℕ) × (at + 64 ≤ n) × IsFrameOf logs.now.logs n frame.now
        × All (IsGood logs.now.logs) conds.now }
    requires at { at + 64 ≤ 2 ^ 32 }
    ensures { result ≡ mask_along (λ m. list_all (left_along logs.now.logs frame.now stretch m) conds.now) at 64 }
{
    let mut word = u64::MAX;
    for cond in conds {
        word &= one_word(cond, logs, frame, stretch, at);
        if word == 0 {
            return 0;
        }
    }
    word
}

/// At which of sixty-four iterations the conditions of a conjunction hold that has this stretch.
fn all_word(conds: &[Cond], logs: &Logs, frame: &Frame, stretch: Stretch, at: usize) -> u64
    requires frame { (n : ℕ) × (at + 64 ≤ n) × IsFrameOf logs.now.logs n frame.now
        × All (IsGood logs.now.logs) conds.now }
    requires at { at + 64 ≤ 2 ^ 32 }
    requires stretch { Leaves (at + 64) logs.now.logs frame.now conds.now stretch }
    ensures { result ≡ mask_along (λ m. list_all (holds_along logs.now.logs frame.now m) conds.now) at 64 }
{
    let within = stretch.word(at);
    if within == 0 {
        0
    } else if stretch.is_settled() {
        within
    } else {
        within & left_word(conds, logs, frame, stretch, at)
    }
}

/// Whether the conditions of a conjunction hold in iteration `m` of the last thread: outside of its stretch nothing is
/// tested.
fn all_hold_in(conds: &[Cond], logs: &Logs, frame: &Frame, stretch: Stretch, m: usize) -> bool
    requires frame { (n : ℕ) × (m < n) × IsFrameOf logs.now.logs n frame.now × All (IsGood logs.now.logs) conds.now }
    requires few { m < 2 ^ 32 }
    requires stretch { (n : ℕ) × (m < n) × Leaves n logs.now.logs frame.now conds.now stretch }
    ensures { result ≡ list_all (holds_along logs.now.logs frame.now m) conds.now }
{
    if !stretch.has(m) {
        false
    } else if stretch.is_settled() {
        true
    } else {
        all_hold_at(conds, logs, frame, m as u32)
    }
}

/// A row of frames: the conditions, the logs, a frame with the iterations of all threads but the last, and the stretch
/// of each conjunction.
#[derive(Clone, Copy)]
pub(crate) struct Row<'a> {
    pub conds: &'a Conds,
    pub logs: &'a Logs,
    pub frame: &'a Frame,
    pub stretches: &'a [Stretch],
}

impl<'a> Row<'a> {
    /// At which of sixty-four iterations the conditions of some conjunction hold.
    fn some_word(&self, at: usize) -> u64
        requires { IsRow self.now (at + 64) }
        ensures { result ≡ mask_along (row_holds self.now) at 64 }
    {
        let mut word = 0u64;
        for c in 0..self.conds.conjunctions() {
            let (conds, stretch) = (self.conds.group(c), self.stretches[c]);
            word |= all_word(conds, self.logs, self.frame, stretch, at);
        }
        word
    }

    /// Whether the conditions of some conjunction hold in iteration `m` of the last thread.
    fn holds_in(&self, m: usize) -> bool
        requires { (to : ℕ) × (m < to) × IsRow self.now to }
        ensures { result ≡ row_holds self.now m }
    {
        for c in 0..self.conds.conjunctions() {
            let (conds, stretch) = (self.conds.group(c), self.stretches[c]);
            if all_hold_in(conds, self.logs, self.frame, stretch, m) {
                return true;
            }
        }
        false
    }

    /// At how many iterations from `from` up to and without `to` the conditions of some conjunction hold, one by one.
    fn count_singly(&self, from: usize, to: usize) -> u64
        requires row { (from ≤ to) × IsRow self.now to }
        ensures { result ≡ count_by (row_holds self.now) (range_with_len from (to - from)) }
    {
        let mut total = 0u64;
        let mut at = from;
        while at < to {
            total += self.holds_in(at) as u64;
            at += 1;
        }
        total
    }

    /// The same by words of sixty-four, and the rest one by one.
    fn count_between(&self, from: usize, to: usize) -> u64
        requires row { (from ≤ to) × IsRow self.now to }
        ensures { result ≡ count_by (row_holds self.now) (range_with_len from (to - from)) }
    {
        let mut total = 0u64;
        let mut at = from;
        while to - at >= 64 {
            total += self.some_word(at).count_ones() as u64;
            at += 64;
        }
        total + self.count_singly(at, to)
    }

    /// The same: where nothing is left to test of the one conjunction, those of its stretch, and else those between the
    /// first and the last that stand in a stretch.
    fn count_within(&self, from: usize, to: usize) -> u64
        requires row { (from ≤ to) × IsRow self.now to }
        ensures { result ≡ count_by (row_holds self.now) (range_with_len from (to - from)) }
    {
        if self.conds.conjunctions() == 1 && self.stretches[0].is_settled() {
            return self.stretches[0].count(from, to);
        }
        let hull = hull(&self.stretches[..self.conds.conjunctions()]);
        let first = hull.from.max(from);
        let end = hull.to.min(to);
        if first < end {
            self.count_between(first, end)
        } else {
            0
        }
    }

    /// The same where words of one condition's column are known: whole words of its stretch by what is known.
    fn count_known(&self, known: &Known, from: usize, to: usize) -> u64
        requires row { (from ≤ to) × IsRow self.now to }
        requires few { to ≤ MOST_ITERATIONS }
        requires known { IsKnown self.now.conds.now self.now.logs.now.logs known.now }
        ensures { result ≡ count_by (row_holds self.now) (range_with_len from (to - from)) }
    {
        let stretch = self.stretches[0];
        let first = stretch.from.max(from).div_ceil(64);
        let end = (stretch.to.min(to) / 64).min(known.words);
        if first >= end || !stretch.row {
            return self.count_within(from, to);
        }
        let cond = &known.cond;
        let values = self
            .logs
            .at(cond.reader as usize)
            .column(cond.column as usize);
        let bound = bound(cond.kind, self.frame.at(cond.writer as usize));
        let middle = known.count(values, bound, first, end);
        let front = self.count_within(from, 64 * first);
        let back = self.count_within(64 * end, to);
        front + middle + back
    }

    /// The same, by what is known if there is something.
    pub(crate) fn count(&self, known: &Known, from: usize, to: usize) -> u64
        requires row { (from ≤ to) × IsRow self.now to }
        requires few { to ≤ MOST_ITERATIONS }
        requires known { Tells self.now.conds.now self.now.logs.now.logs known.now }
        ensures { result ≡ count_by (row_holds self.now) (range_with_len from (to - from)) }
    {
        if known.words == 0 {
            self.count_within(from, to)
        } else {
            self.count_known(known, from, to)
        }
    }
}

/// At how many iterations of the last thread from `from` up to and without `to`, with the frame's iterations of the
/// others, the conditions of some conjunction hold.
pub fn row_count(conds: &Conds, logs: &Logs, frame: &Frame, from: u32, to: u32) -> u64
    requires frame { (n : ℕ) × (from ≤ to) × (to ≤ n) × IsFrameOf logs.now.logs n frame.now }
    requires names { All (IsOfLogs logs.now.logs) conds.now.conds }
    ensures { result ≡ count_by (λ m. conds_hold (value_at logs.now.logs) conds.now.ends conds.now.conds
        (with_last frame.now m)) (range_with_len from (to - from)) }
{
    let stretches = &reaches(conds, logs, frame, &[true; MOST_CONJUNCTIONS], to as usize);
    let row = Row {
        conds,
        logs,
        frame,
        stretches,
    };
    row.count_within(from as usize, to as usize)
}
