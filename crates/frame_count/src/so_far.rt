//! What the iterations of the first threads settle of the conditions.
ghost use Rattle.std.specs.Prelude.{◌≡◌, ℕ, ◌+◌, ◌<◌, ◌≤◌, ◌&&◌, All, length, true};
ghost use Rattle.std.specs.List.{list_all};
ghost use Rattle.frame_count.specs.Block.{Alive, AreAlike, IsAlike, is_settled, test_now};
ghost use Rattle.outcome_conv.specs.declared.cond.Cond.{Cond};
ghost use Rattle.frame_count.specs.Count.{IsFrameOf, IsGood, IsOfLogs};

use crate::at_frame::logged;
use load_log::Logs;
use outcome_conv::{Cond, Conds};
use perp_base::{Frame, MOST_CONJUNCTIONS};

/// Whether a condition speaks of the first `p` threads alone.
#[inline(always)]
pub(crate) fn settled(cond: &Cond, p: usize) -> bool
    ensures { result ≡ is_settled p cond.now }
{
    (cond.reader as usize) < p && (cond.writer as usize) < p
}

/// Whether a condition holds, where it speaks of thread `p` and of none after it.
#[inline(always)]
pub(crate) fn passes_now(cond: &Cond, logs: &Logs, frame: &Frame, p: usize) -> bool
    requires { (n : ℕ) × IsFrameOf logs.now.logs n frame.now × IsGood logs.now.logs cond.now }
    ensures { result ≡ test_now logs.now.logs p frame.now cond.now }
{
    if settled(cond, p) || !settled(cond, p + 1) {
        return true;
    }
    let reader = cond.reader as usize;
    let value = logged(logs, reader, cond.column as usize, frame.at(reader));
    cond.holds(value, frame.at(cond.writer as usize))
}

/// Whether the conditions of a conjunction hold that speak of thread `p` and of none after it.
fn pass_now(conds: &[Cond], logs: &Logs, frame: &Frame, p: usize) -> bool
    requires { (n : ℕ) × IsFrameOf logs.now.logs n frame.now × All (IsGood logs.now.logs) conds.now }
    ensures { result ≡ list_all (test_now logs.now.logs p frame.now) conds.now }
{
    for cond in conds {
        if !passes_now(cond, logs, frame, p) {
            return false;
        }
    }
    true
}

/// Whether a conjunction is left that was so before.
fn stays(before: bool, conds: &[Cond], logs: &Logs, frame: &Frame, p: usize) -> bool
    requires { (n : ℕ) × IsFrameOf logs.now.logs n frame.now × All (IsGood logs.now.logs) conds.now }
    ensures { result ≡ (before && list_all (test_now logs.now.logs p frame.now) conds.now) }
{
    before && pass_now(conds, logs, frame, p)
}

/// The conjunctions that thread `p`, too, leaves.
pub(crate) fn left(
    conds: &Conds,
    logs: &Logs,
    frame: &Frame,
    p: usize,
    before: [bool; MOST_CONJUNCTIONS],
) -> [bool; MOST_CONJUNCTIONS]
    requires frame { (n : ℕ) × IsFrameOf logs.now.logs n frame.now }
    requires names { All (IsOfLogs logs.now.logs) conds.now.conds }
    requires before { Alive conds.now logs.now.logs p frame.now before }
    ensures { Alive conds.now logs.now.logs (p + 1) frame.now result }
{
    let mut alive = before;
    for c in 0..conds.conjunctions() {
        alive[c] = stays(alive[c], conds.group(c), logs, frame, p);
    }
    alive
}

/// Whether both have the same iteration of the thread below `p` of which a condition speaks beside one that is not.
fn alike(cond: &Cond, p: usize, before: &[u32], frame: &Frame) -> bool
    requires before { length frame.now ≤ length before.now }
    requires names { (cond.now.reader < length frame.now) × (cond.now.writer < length frame.now) }
    ensures { result ≡ true → IsAlike p before.now frame.now cond.now }
{
    let (reader, writer) = (cond.reader as usize, cond.writer as usize);
    if reader < p {
        writer < p || before[reader] == frame.at(reader)
    } else {
        writer >= p || before[writer] == frame.at(writer)
    }
}

/// Whether that is so of each condition of a conjunction.
fn are_alike(conds: &[Cond], p: usize, before: &[u32], frame: &Frame) -> bool
    requires before { length frame.now ≤ length before.now }
    requires names { All (λ (c : Cond). (c.reader < length frame.now) × (c.writer < length frame.now)) conds.now }
    ensures { result ≡ true → All (IsAlike p before.now frame.now) conds.now }
{
    for cond in conds {
        if !alike(cond, p, before, frame) {
            return false;
        }
    }
    true
}

/// Whether a conjunction is left in both or in neither, and that is so of it if it is left.
fn is_alike(
    left: bool,
    alive: bool,
    conds: &[Cond],
    p: usize,
    before: &[u32],
    frame: &Frame,
) -> bool
    requires before { length frame.now ≤ length before.now }
    requires names { All (λ (c : Cond). (c.reader < length frame.now) × (c.writer < length frame.now)) conds.now }
    ensures { result ≡ true → (left ≡ alive) × (alive ≡ true → All (IsAlike p before.now frame.now) conds.now) }
{
    if alive {
        left && are_alike(conds, p, before, frame)
    } else {
        !left
    }
}

/// Whether the same conjunctions are left, and that is so of each of these.
pub(crate) fn all_alike(
    conds: &Conds,
    p: usize,
    left: &[bool],
    alive: &[bool],
    before: &[u32],
    frame: &Frame,
) -> bool
    requires before { length frame.now ≤ length before.now }
    requires left { length conds.now.ends ≤ length left.now }
    requires alive { length conds.now.ends ≤ length alive.now }
    requires names { All (λ (c : Cond). (c.reader < length frame.now) × (c.writer < length frame.now)) conds.now.conds }
    ensures { result ≡ true → AreAlike conds.now p left.now alive.now before.now frame.now }
{
    for c in 0..conds.conjunctions() {
        if !is_alike(left[c], alive[c], conds.group(c), p, before, frame) {
            return false;
        }
    }
    true
}
