//! How far the conditions of a row reach: what does not depend on the last thread's iteration is tested here, once a
//! row.
ghost use Rattle.std.specs.Prelude.{◌≡◌, ℕ, ◌-◌, ◌<◌, ◌≤◌, ◌==◌, ◌&&◌, ◌||◌, All, false, length, not, slice_index_or, true};
ghost use Rattle.std.specs.List.{list_all};
ghost use Rattle.frame_count.specs.Count.{IsFrameOf, IsGood, IsOfLogs};
ghost use Rattle.frame_count.specs.Row.{IsToldBy, Leaves, holds_along, holds_with, is_within, left_along};
ghost use Rattle.frame_count.specs.Rows.{LeaveEach, OthersFail};
ghost use Rattle.frame_count.specs.declared.stretch.Stretch.{Stretch};

use crate::at_frame::logged;
use crate::lanes::bound;
use crate::stretch::Stretch;
use load_log::Logs;
use outcome_conv::{Cond, Conds};
use perp_base::{Frame, MOST_CONJUNCTIONS};

/// Where a condition holds whose reader is not thread `t`, by the iterations of thread `t`.
fn reader_stays(cond: &Cond, logs: &Logs, frame: &Frame, t: usize, n: usize) -> Stretch
    requires frame { (all : ℕ) × (n ≤ all) × IsFrameOf logs.now.logs all frame.now × IsGood logs.now.logs cond.now }
    requires thread { t < length frame.now }
    requires reader { (cond.now.reader == t) ≡ false }
    ensures within { (m : ℕ) → m < n → holds_with logs.now.logs frame.now t m cond.now ≡ is_within result m }
    ensures settled { (result.row ≡ false) × (result.own ≡ false) }
{
    let reader = cond.reader as usize;
    let writer = cond.writer as usize;
    let value = logged(logs, reader, cond.column as usize, frame.at(reader));
    if writer == t {
        Stretch::of_writer(cond.kind, value, n)
    } else {
        Stretch::all_or_none(cond.holds(value, frame.at(writer)), n)
    }
}

/// Where a condition can hold whose reader is thread `t`, and whose writer is not.
fn writer_stays(cond: &Cond, logs: &Logs, frame: &Frame, t: usize, n: usize) -> Stretch
    requires frame { (all : ℕ) × (n ≤ all) × IsFrameOf logs.now.logs all frame.now × IsGood logs.now.logs cond.now }
    requires thread { t < length frame.now }
    requires reader { (cond.now.reader == t) ≡ true }
    requires writer { (cond.now.writer == t) ≡ false }
    ensures tells { (m : ℕ) → m < n → holds_with logs.now.logs frame.now t m cond.now
        ≡ (is_within result m && (not result.row || holds_with logs.now.logs frame.now t m cond.now)) }
    ensures own { result.own ≡ false }
{
    let column = cond.column as usize;
    let log = logs.at(cond.reader as usize);
    if log.rises(column) {
        let bound = bound(cond.kind, frame.at(cond.writer as usize));
        Stretch::of_values(cond.kind, &log.column(column)[..n], bound)
    } else {
        Stretch::left(n, true)
    }
}

/// Where a condition can hold in the first `n` iterations of thread `t`.
pub(crate) fn cond_stretch(cond: &Cond, logs: &Logs, frame: &Frame, t: usize, n: usize) -> Stretch
    requires frame { (all : ℕ) × (n ≤ all) × IsFrameOf logs.now.logs all frame.now × IsGood logs.now.logs cond.now }
    requires thread { t < length frame.now }
    ensures tells { IsToldBy result n (λ m. holds_with logs.now.logs frame.now t m cond.now) }
    ensures row { t ≡ length frame.now - 1 → (m : ℕ) → m < n → holds_along logs.now.logs frame.now m cond.now
        ≡ (is_within result m && left_along logs.now.logs frame.now result m cond.now) }
{
    if cond.reader as usize != t {
        reader_stays(cond, logs, frame, t, n)
    } else if cond.writer as usize != t {
        writer_stays(cond, logs, frame, t, n)
    } else {
        Stretch::left(n, false)
    }
}

/// Where the conditions of a conjunction can hold in the first `n` iterations of the last thread.
fn reach(conds: &[Cond], logs: &Logs, frame: &Frame, n: usize) -> Stretch
    requires frame { (all : ℕ) × (n ≤ all) × IsFrameOf logs.now.logs all frame.now
        × All (IsGood logs.now.logs) conds.now }
    ensures { Leaves n logs.now.logs frame.now conds.now result }
{
    let mut stretch = Stretch::all_or_none(true, n);
    for cond in conds {
        stretch = stretch.meet(cond_stretch(cond, logs, frame, frame.len() - 1, n));
        if stretch.is_empty() {
            return Stretch::all_or_none(false, n);
        }
    }
    stretch
}

/// The stretch of a conjunction: the other threads may have ruled it out.
fn hold_in(left: bool, conds: &[Cond], logs: &Logs, frame: &Frame, n: usize) -> Stretch
    requires frame { (all : ℕ) × (n ≤ all) × IsFrameOf logs.now.logs all frame.now
        × All (IsGood logs.now.logs) conds.now }
    requires fails { left ≡ false → (m : ℕ) → m < n
        → list_all (holds_along logs.now.logs frame.now m) conds.now ≡ false }
    ensures { Leaves n logs.now.logs frame.now conds.now result }
{
    if left {
        reach(conds, logs, frame, n)
    } else {
        Stretch::all_or_none(false, n)
    }
}

/// The stretch of each conjunction, of which these are left.
pub(crate) fn reaches(
    conds: &Conds,
    logs: &Logs,
    frame: &Frame,
    left: &[bool; MOST_CONJUNCTIONS],
    n: usize,
) -> [Stretch; MOST_CONJUNCTIONS]
    requires frame { (all : ℕ) × (n ≤ all) × IsFrameOf logs.now.logs all frame.now }
    requires names { All (IsOfLogs logs.now.logs) conds.now.conds }
    requires others { OthersFail conds.now logs.now.logs n frame.now left.now }
    ensures each { length conds.now.ends ≤ length result }
    ensures leave { LeaveEach conds.now logs.now.logs n result frame.now }
{
    let mut stretches = [Stretch::all_or_none(false, n); MOST_CONJUNCTIONS];
    for c in 0..conds.conjunctions() {
        stretches[c] = hold_in(left[c], conds.group(c), logs, frame, n);
    }
    stretches
}

/// The iterations from the first to the last that stand in one of these.
pub(crate) fn hull(stretches: &[Stretch]) -> Stretch
    ensures { (c m : ℕ) (d : Stretch) → c < length stretches.now → is_within (slice_index_or stretches.now c d) m ≡ true
        → is_within result m ≡ true }
{
    let mut hull = Stretch {
        from: usize::MAX,
        to: 0,
        row: false,
        own: false,
    };
    for stretch in stretches {
        hull = hull.span(*stretch);
    }
    hull
}
