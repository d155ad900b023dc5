//! Whether conditions hold at a frame.
ghost use Rattle.std.specs.Prelude.{◌≡◌, ℕ, ◌<◌, length, All};
ghost use Rattle.std.specs.List.{list_all};
ghost use Rattle.load_log.specs.Values.{AreWhole, log_at, value_at};
ghost use Rattle.outcome_conv.specs.Conds.{cond_holds, conds_hold};
ghost use Rattle.outcome_conv.specs.Holds.{iteration_in};
ghost use Rattle.frame_count.specs.Count.{IsFrameOf, IsGood, IsOfLogs, frame_holds, with_last};

use load_log::Logs;
use outcome_conv::{Cond, Conds};
use perp_base::Frame;

/// A thread's iteration, where the last thread is in iteration `m`.
#[inline(always)]
fn iteration(frame: &Frame, t: usize, m: u32) -> u32
    requires { t < length frame.now }
    ensures { result ≡ iteration_in (with_last frame.now m) t }
{
    if t == frame.len() - 1 { m } else { frame.at(t) }
}

/// The value that a thread logged.
#[inline(always)]
pub(crate) fn logged(logs: &Logs, t: usize, column: usize, m: u32) -> u64
    requires thread { t < length logs.now.logs }
    requires there { (n : ℕ) × (m < n) × AreWhole n logs.now.logs × (column < (log_at logs.now.logs t).columns) }
    ensures { result ≡ value_at logs.now.logs t column m }
{
    logs.at(t).get(m, column)
}

/// Whether a condition holds, where the last thread is in iteration `m`.
fn cond_holds_at(cond: &Cond, logs: &Logs, frame: &Frame, m: u32) -> bool
    requires { (n : ℕ) × (m < n) × IsFrameOf logs.now.logs n frame.now × IsGood logs.now.logs cond.now }
    ensures { result ≡ cond_holds (value_at logs.now.logs) (with_last frame.now m) cond.now }
{
    let reader = cond.reader as usize;
    let value = logged(
        logs,
        reader,
        cond.column as usize,
        iteration(frame, reader, m),
    );
    cond.holds(value, iteration(frame, cond.writer as usize, m))
}

/// Whether each condition holds, where the last thread is in iteration `m`.
pub(crate) fn all_hold_at(conds: &[Cond], logs: &Logs, frame: &Frame, m: u32) -> bool
    requires { (n : ℕ) × (m < n) × IsFrameOf logs.now.logs n frame.now × All (IsGood logs.now.logs) conds.now }
    ensures { result ≡ list_all (cond_holds (value_at logs.now.logs) (with_last frame.now m)) conds.now }
{
    for cond in conds {
        if !cond_holds_at(cond, logs, frame, m) {
            return false;
        }
    }
    true
}

/// Whether the conditions of some conjunction hold, where the last thread is in iteration `m`.
fn holds_at(conds: &Conds, logs: &Logs, frame: &Frame, m: u32) -> bool
    requires frame { (n : ℕ) × (m < n) × IsFrameOf logs.now.logs n frame.now }
    requires names { All (IsOfLogs logs.now.logs) conds.now.conds }
    ensures { result ≡ frame_holds conds.now logs.now.logs (with_last frame.now m) }
{
    for c in 0..conds.conjunctions() {
        if all_hold_at(conds.group(c), logs, frame, m) {
            return true;
        }
    }
    false
}

/// Whether at a frame the conditions of some conjunction hold, each of its reader's logged value and its writer's
/// iteration.
pub fn holds(conds: &Conds, logs: &Logs, frame: &Frame) -> bool
    requires frame { (n : ℕ) × IsFrameOf logs.now.logs n frame.now }
    requires names { All (IsOfLogs logs.now.logs) conds.now.conds }
    ensures { result ≡ conds_hold (value_at logs.now.logs) conds.now.ends conds.now.conds frame.now }
{
    holds_at(conds, logs, frame, frame.at(frame.len() - 1))
}
