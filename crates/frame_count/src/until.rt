//! For how many iterations of a thread the count of a block stays as it is.
ghost use Rattle.std.specs.Prelude.{◌≡◌, ℕ, ◌+◌, ◌<◌, ◌≤◌, All, Bool, false, length, slice_index_or, slice_set, true};
ghost use Rattle.std.specs.List.{list_all};
ghost use Rattle.frame_count.specs.Block.{Alive, EndsAt, IsAlike, StayAlike, test_now};
ghost use Rattle.frame_count.specs.Count.{IsFrameOf, IsGood, IsOfLogs};
ghost use Rattle.outcome_conv.specs.declared.cond.Cond.{Cond};

use crate::reach::cond_stretch;
use crate::so_far::{passes_now, settled};
use load_log::Logs;
use outcome_conv::{Cond, Conds};
use perp_base::Frame;

/// Up to and without which iteration of thread `p` a condition passes or fails as in iteration `i`, where it speaks of
/// thread `p` and of none after it.
fn cond_until(cond: &Cond, logs: &Logs, frame: &Frame, p: usize, i: usize, n: usize) -> usize
    requires frame { (all : ℕ) × (n ≤ all) × IsFrameOf logs.now.logs all frame.now × IsGood logs.now.logs cond.now }
    requires thread { (p < length frame.now) × (length frame.now ≤ 8) }
    requires iteration { i < n }
    ensures more { i < result }
    ensures same { (m : ℕ) → i ≤ m → m < result → m < n
        → test_now logs.now.logs p (slice_set frame.now p m) cond.now
        ≡ test_now logs.now.logs p (slice_set frame.now p i) cond.now }
{
    if settled(cond, p) {
        return n;
    }
    if !settled(cond, p + 1) {
        return n;
    }
    cond_stretch(cond, logs, frame, p, n).until(i, n)
}

/// The same of all conditions of a conjunction.
fn group_until(conds: &[Cond], logs: &Logs, frame: &Frame, p: usize, i: usize, n: usize) -> usize
    requires frame { (all : ℕ) × (n ≤ all) × IsFrameOf logs.now.logs all frame.now
        × All (IsGood logs.now.logs) conds.now }
    requires thread { (p < length frame.now) × (length frame.now ≤ 8) }
    requires iteration { i < n }
    requires here { frame.now ≡ slice_set frame.now p i }
    ensures more { i < result }
    ensures same { (m : ℕ) → i ≤ m → m < result → m < n
        → list_all (test_now logs.now.logs p (slice_set frame.now p m)) conds.now
        ≡ list_all (test_now logs.now.logs p (slice_set frame.now p i)) conds.now }
{
    let mut least = n;
    for cond in conds {
        let until = cond_until(cond, logs, frame, p, i, n);
        if !passes_now(cond, logs, frame, p) {
            return until;
        }
        least = least.min(until);
    }
    least
}

/// Whether a condition speaks of thread `p` beside one after it.
fn speaks_on(conds: &[Cond], p: usize) -> bool
    ensures { result ≡ false → All (EndsAt p) conds.now }
{
    for cond in conds {
        let (reader, writer) = (cond.reader as usize, cond.writer as usize);
        if reader == p && writer > p || writer == p && reader > p {
            return true;
        }
    }
    false
}

/// Up to and without which iteration of thread `p` a conjunction is left, or not, as in iteration `i`, and what is left
/// of it does not speak of thread `p`.
fn stays_until(
    now: bool,
    conds: &[Cond],
    logs: &Logs,
    frame: &Frame,
    p: usize,
    i: usize,
    n: usize,
) -> usize
    requires frame { (all : ℕ) × (n ≤ all) × IsFrameOf logs.now.logs all frame.now
        × All (IsGood logs.now.logs) conds.now }
    requires thread { (p < length frame.now) × (length frame.now ≤ 8) }
    requires iteration { i < n }
    requires here { frame.now ≡ slice_set frame.now p i }
    ensures more { i < result }
    ensures same { (m : ℕ) → i ≤ m → m < result → m < n
        → list_all (test_now logs.now.logs p (slice_set frame.now p m)) conds.now
        ≡ list_all (test_now logs.now.logs p (slice_set frame.now p i)) conds.now }
    ensures alike { (m : ℕ) → i ≤ m → m < result → now ≡ true
        → All (IsAlike (p + 1) (slice_set frame.now p i) (slice_set frame.now p m)) conds.now }
{
    if now && speaks_on(conds, p) {
        i + 1
    } else {
        group_until(conds, logs, frame, p, i, n)
    }
}

/// Up to and without which iteration of thread `p` the same conjunctions are left as in iteration `i`, and what is left
/// does not speak of thread `p`. The conjunctions that were left `before` and those that are `now` are told.
pub(crate) fn all_until(
    conds: &Conds,
    logs: &Logs,
    frame: &Frame,
    p: usize,
    i: usize,
    n: usize,
    before: &[bool],
    now: &[bool],
) -> usize
    requires frame { (all : ℕ) × (n ≤ all) × IsFrameOf logs.now.logs all frame.now }
    requires names { All (IsOfLogs logs.now.logs) conds.now.conds }
    requires thread { (p < length frame.now) × (length frame.now ≤ 8) }
    requires iteration { i < n }
    requires here { frame.now ≡ slice_set frame.now p i }
    requires long { (length conds.now.ends ≤ length before.now) × (length conds.now.ends ≤ length now.now) }
    requires before { Alive conds.now logs.now.logs p frame.now before.now }
    requires now { Alive conds.now logs.now.logs (p + 1) frame.now now.now }
    ensures more { i < result }
    ensures alike { (m : ℕ) → i ≤ m → m < result → m < n
        → (j : ℕ) (d : Bool) → j < length conds.now.ends
        → StayAlike conds.now logs.now.logs p frame.now i m now.now j d }
{
    let mut until = n;
    for c in 0..conds.conjunctions() {
        if before[c] {
            until = until.min(stays_until(now[c], conds.group(c), logs, frame, p, i, n));
        }
    }
    until
}
