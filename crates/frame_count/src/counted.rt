//! A row that was counted, remembered for the rows after it.
ghost use Rattle.std.specs.Prelude.{◌≡◌, ℕ, ◌-◌, ◌<◌, ◌≤◌, All, List, count_by, false, length, slice_index_or, true};
ghost use Rattle.std.specs.List.{range_with_len};
ghost use Rattle.load_log.specs.Values.{Values};
ghost use Rattle.outcome_conv.specs.Conditions.{Conditions};
ghost use Rattle.frame_count.specs.Count.{IsFrameOf, IsOfLogs, frame_holds, with_last};
ghost use Rattle.frame_count.specs.Counted.{Counts};
ghost use Rattle.frame_count.specs.Known.{Tells};
ghost use Rattle.frame_count.specs.Rows.{OthersFail};
ghost use Rattle.frame_count.specs.declared.stretch.Stretch.{Stretch};
ghost use Rattle.perp_base.specs.declared.limits.TheConstants.{MOST_ITERATIONS};

use crate::known::Known;
use crate::reach::{hull, reaches};
use crate::row::Row;
use crate::stretch::Stretch;
use load_log::Logs;
use outcome_conv::Conds;
use perp_base::{Frame, MOST_CONJUNCTIONS};

/// The iterations of the last thread that were counted, the stretch of each conjunction, and the hits.
#[derive(Clone, Copy)]
pub(crate) struct Counted {
    pub from: usize,
    pub to: usize,
    pub stretches: [Stretch; MOST_CONJUNCTIONS],
    pub hits: u64,
}

/// Whether the stretches are the same and leave the same to test.
fn count_alike(before: &[Stretch], now: &[Stretch]) -> bool
    requires { length now.now ≤ length before.now }
    ensures { result ≡ true → (c : ℕ) (d : Stretch) → c < length now.now
        → (slice_index_or before.now c d ≡ slice_index_or now.now c d) × ((slice_index_or before.now c d).row ≡ false) }
{
    for c in 0..now.len() {
        if !before[c].counts_as(now[c]) {
            return false;
        }
    }
    true
}

impl Counted {
    /// No iterations of a row.
    pub(crate) fn nothing() -> Counted
        ensures { (conds : Conditions) (logs : List Values) → Counts conds logs result }
    {
        Counted {
            from: 0,
            to: 0,
            stretches: [Stretch::all_or_none(false, 0); MOST_CONJUNCTIONS],
            hits: 0,
        }
    }

    /// The hits of the next row, of which these conjunctions are left. One with the same bounds and stretches as the row that is remembered, where what they
    /// leave to test is the same in each row, has as many, and none of its frames is visited. Else it is the one to
    /// remember, if a stretch of it is not empty.
    pub(crate) fn next(
        &mut self,
        conds: &Conds,
        logs: &Logs,
        known: &Known,
        frame: &Frame,
        left: &[bool; MOST_CONJUNCTIONS],
        from: usize,
        to: usize,
    ) -> u64
        requires frame { (n : ℕ) × (from ≤ to) × (to ≤ n) × IsFrameOf logs.now.logs n frame.now }
        requires few { to ≤ MOST_ITERATIONS }
        requires names { All (IsOfLogs logs.now.logs) conds.now.conds }
        requires others { OthersFail conds.now logs.now.logs to frame.now left.now }
        requires known { Tells conds.now logs.now.logs known.now }
        requires counts { Counts conds.now logs.now.logs self.old }
        ensures hits { result ≡ count_by (λ m. frame_holds conds.now logs.now.logs (with_last frame.now m))
            (range_with_len from (to - from)) }
        ensures counts { Counts conds.now logs.now.logs self.new }
    {
        let stretches = reaches(conds, logs, frame, left, to);
        let some = &stretches[..conds.conjunctions()];
        if self.from == from && self.to == to && count_alike(&self.stretches, some) {
            return self.hits;
        }
        let row = Row {
            conds,
            logs,
            frame,
            stretches: &stretches,
        };
        let hits = row.count(known, from, to);
        if !hull(some).is_empty() {
            self.from = from;
            self.to = to;
            self.stretches = stretches;
            self.hits = hits;
        }
        hits
    }
}
