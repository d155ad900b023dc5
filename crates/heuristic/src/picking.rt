//! The picked frame of a conjunction and an iteration.
ghost use Rattle.std.specs.Prelude.{◌≡◌, ℕ, ◌<◌, ◌≤◌, ◌-◌, All, IfSome, length, map, slice_index};
ghost use Rattle.std.specs.List.{list_all};
ghost use Rattle.x86_subset.specs.Conjunctions.{conjunction_of};
ghost use Rattle.load_log.specs.Values.{AreWhole, value_at};
ghost use Rattle.outcome_conv.specs.Conditions.{IsKind};
ghost use Rattle.outcome_conv.specs.Conds.{cond_holds};
ghost use Rattle.outcome_conv.specs.Choices.{choice_by, choice_of};
ghost use Rattle.outcome_conv.specs.Picks.{link_by, picked_frame};
ghost use Rattle.frame_count.specs.Count.{IsFrameOf, IsGood};
ghost use Rattle.heuristic.specs.Plan.{plan_of};
ghost use Rattle.heuristic.specs.Steps.{CanPick, frame_along};

use crate::plan::Plan;
use load_log::Logs;
use outcome_conv::{Cond, CondKind, Conds};
use perp_base::Frame;

/// The iteration below `n` that a condition of this kind chooses by a logged value: the one in which the named store
/// writes the value, or the least `m` with `value < k * m + 1`.
#[tactic(auto, using(crate::proofs::Rounding::rounded_up))]
fn choose(kind: CondKind, n: u32, value: u64) -> Option<u32>
    requires kind { IsKind kind }
    ensures value { result ≡ choice_by n kind value }
    ensures below { IfSome result (λ m. m < n) }
{
    match kind {
        CondKind::AtLeast { k, a } => owner(k, a, n, value),
        CondKind::Exact { k, a } => owner(k, a, n, value),
        CondKind::Below { k } => {
            let m = value.div_ceil(k);
            if m < n as u64 { Some(m as u32) } else { None }
        }
    }
}

/// The iteration below `n` in which the store of rank `a` of `k` writes the value.
fn owner(k: u64, a: u64, n: u32, value: u64) -> Option<u32>
    requires { 1 ≤ k }
    ensures value { result ≡ choice_by n (CondKind.Exact k a) value }
    ensures below { IfSome result (λ m. m < n) }
{
    if value == 0 {
        return None;
    }
    let m = (value - 1) / k;
    if (value - 1) % k + 1 == a && m < n as u64 {
        Some(m as u32)
    } else {
        None
    }
}

/// The value that a condition's reader logged in the frame's iteration.
fn logged(cond: &Cond, logs: &Logs, frame: &Frame) -> u64
    requires frame { (n : ℕ) × IsFrameOf logs.now.logs n frame.now }
    requires good { IsGood logs.now.logs cond.now }
    ensures { result ≡ value_at logs.now.logs cond.now.reader cond.now.column (slice_index frame.now cond.now.reader) }
{
    let reader = cond.reader as usize;
    logs.at(reader).get(frame.at(reader), cond.column as usize)
}

/// Whether a condition holds at the frame.
fn holds_at(cond: &Cond, logs: &Logs, frame: &Frame) -> bool
    requires frame { (n : ℕ) × IsFrameOf logs.now.logs n frame.now }
    requires good { IsGood logs.now.logs cond.now }
    ensures { result ≡ cond_holds (value_at logs.now.logs) frame.now cond.now }
{
    cond.holds(logged(cond, logs, frame), frame.at(cond.writer as usize))
}

/// Whether each condition holds at the frame.
pub(crate) fn all_hold(conds: &[Cond], logs: &Logs, frame: &Frame) -> bool
    requires frame { (n : ℕ) × IsFrameOf logs.now.logs n frame.now }
    requires good { All (IsGood logs.now.logs) conds.now }
    ensures { result ≡ list_all (cond_holds (value_at logs.now.logs) frame.now) conds.now }
{
    for cond in conds {
        if !holds_at(cond, logs, frame) {
            return false;
        }
    }
    true
}

/// The frame in which the conditions have set their writers' iterations, one after the other.
fn along(order: &[Cond], logs: &Logs, n: u32, frame: Frame) -> Option<Frame>
    requires frame { IsFrameOf logs.now.logs n frame }
    requires good { All (IsGood logs.now.logs) order.now }
    ensures value { result ≡ frame_along (value_at logs.now.logs) n order.now frame }
    ensures frame { IfSome result (IsFrameOf logs.now.logs n) }
{
    let mut frame = frame;
    for cond in order {
        match choose(cond.kind, n, logged(cond, logs, &frame)) {
            None => return None,
            Some(m) => frame.set(cond.writer as usize, m),
        }
    }
    Some(frame)
}

/// The picked frame of a conjunction and an iteration below `n`: its base thread takes the iteration, each condition in
/// the plan's order chooses its writer's, and a thread that is never chosen takes the given one too. None exactly where
/// one of them finds no iteration below `n`.
pub fn pick(
    plan: &Plan,
    conds: &Conds,
    logs: &Logs,
    n: u32,
    conjunction: u32,
    iteration: u32,
) -> Option<Frame>
    requires logs { CanPick conds.now logs.now.logs n }
    requires plan { plan.now ≡ plan_of (length logs.now.logs) conds.now }
    requires conjunction { conjunction < length conds.now.ends }
    requires iteration { iteration < n }
    ensures value { result
        ≡ picked_frame (length logs.now.logs)
        (conjunction_of conds.now.ends (map (link_by (value_at logs.now.logs) n) conds.now.conds) conjunction) iteration }
    ensures frame { IfSome result (IsFrameOf logs.now.logs n) }
{
    let choices = plan.at(conjunction as usize);
    match choices.base() {
        None => None,
        Some(_) => along(
            choices.order(),
            logs,
            n,
            Frame::filled(logs.len(), iteration),
        ),
    }
}
