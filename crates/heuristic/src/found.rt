//! The listed hits.
ghost use Rattle.std.specs.Prelude.{◌≡◌, ◌<◌, IfOk, IfSome, not, length};
ghost use Rattle.std.specs.List.{filter_map, range_with_len};
ghost use Rattle.load_log.specs.Values.{value_at};
ghost use Rattle.outcome_conv.specs.Picks.{finds_of, is_among, picked_hits_by};
ghost use Rattle.frame_count.specs.Count.{IsFrameOf};
ghost use Rattle.heuristic.specs.Plan.{plan_of};
ghost use Rattle.heuristic.specs.Steps.{CanPick, find_of, is_known, links_of, new_find_of};

use crate::picking::{all_hold, pick};
use crate::plan::Plan;
use load_log::Logs;
use outcome_conv::Conds;
use perp_base::{Frame, NoMemory};
use rayon::prelude::*;
use std::alloc::Global;
use std::thread::Threads;

/// The find of a conjunction and an iteration: the picked frame, if all conditions hold there.
fn find(plan: &Plan, conds: &Conds, logs: &Logs, n: u32, c: u32, iteration: u32) -> Option<Frame>
    requires logs { CanPick conds.now logs.now.logs n }
    requires plan { plan.now ≡ plan_of (length logs.now.logs) conds.now }
    requires conjunction { c < length conds.now.ends }
    requires iteration { iteration < n }
    ensures value { result ≡ find_of (length logs.now.logs) (links_of conds.now logs.now.logs n c) iteration }
    ensures frame { IfSome result (IsFrameOf logs.now.logs n) }
{
    match pick(plan, conds, logs, n, c, iteration) {
        None => None,
        Some(frame) => {
            if all_hold(conds.group(c as usize), logs, &frame) {
                Some(frame)
            } else {
                None
            }
        }
    }
}

/// Whether a frame is a find of a conjunction. If it is one, it is that of its own base's iteration, so one look is
/// enough.
fn is_find(plan: &Plan, conds: &Conds, logs: &Logs, n: u32, c: u32, frame: &Frame) -> bool
    requires logs { CanPick conds.now logs.now.logs n }
    requires plan { plan.now ≡ plan_of (length logs.now.logs) conds.now }
    requires conjunction { c < length conds.now.ends }
    requires frame { IsFrameOf logs.now.logs n frame.now }
    ensures { result ≡ is_among (finds_of (length logs.now.logs) n (links_of conds.now logs.now.logs n c)) frame.now }
{
    match plan.at(c as usize).base() {
        None => false,
        Some(base) => match find(plan, conds, logs, n, c, frame.at(base)) {
            None => false,
            Some(own) => frame.is(&own),
        },
    }
}

/// Whether a frame is a find of one of the first `c` conjunctions.
fn is_known(plan: &Plan, conds: &Conds, logs: &Logs, n: u32, c: u32, frame: &Frame) -> bool
    requires logs { CanPick conds.now logs.now.logs n }
    requires plan { plan.now ≡ plan_of (length logs.now.logs) conds.now }
    requires conjunction { c < length conds.now.ends }
    requires frame { IsFrameOf logs.now.logs n frame.now }
    ensures { result ≡ is_known conds.now logs.now.logs n c frame.now }
{
    for earlier in 0..c {
        if is_find(plan, conds, logs, n, earlier, frame) {
            return true;
        }
    }
    false
}

/// The find of a conjunction and an iteration, if it is none of an earlier conjunction.
fn new_find(
    plan: &Plan,
    conds: &Conds,
    logs: &Logs,
    n: u32,
    c: u32,
    iteration: u32,
) -> Option<Frame>
    requires logs { CanPick conds.now logs.now.logs n }
    requires plan { plan.now ≡ plan_of (length logs.now.logs) conds.now }
    requires conjunction { c < length conds.now.ends }
    requires iteration { iteration < n }
    ensures { result ≡ new_find_of conds.now logs.now.logs n c iteration }
{
    match find(plan, conds, logs, n, c, iteration) {
        None => None,
        Some(frame) => {
            if is_known(plan, conds, logs, n, c, &frame) {
                None
            } else {
                Some(frame)
            }
        }
    }
}

/// The finds of a conjunction that are none of an earlier one, in the order of the base's iterations.
fn new_finds<R: Threads + Sync>(
    rt: &R,
    alloc: Global,
    plan: &Plan,
    conds: &Conds,
    logs: &Logs,
    n: u32,
    c: u32,
) -> Result<Vec<Frame>, NoMemory>
    requires logs { CanPick conds.now logs.now.logs n }
    requires plan { plan.now ≡ plan_of (length logs.now.logs) conds.now }
    requires conjunction { c < length conds.now.ends }
    ensures { IfOk result (λ finds. finds.items ≡ filter_map (new_find_of conds.now logs.now.logs n c)
        (range_with_len 0 n)) }
{
    let finds = (0..n)
        .into_par_iter()
        .filter_map(
            |i: u32| -> Option<Frame>
                requires { CanPick conds.now logs.now.logs n × (plan.now ≡ plan_of (length logs.now.logs) conds.now)
                    × (c < length conds.now.ends) × (i < n) }
                ensures { result ≡ new_find_of conds.entry.now logs.entry.now.logs n c i }
            { new_find(plan, conds, logs, n, c, i) },
        )
        .collect(rt, alloc)?;
    Ok(finds)
}

/// The picked frames of `n` iterations at which a conjunction holds: those of the first conjunction in the order of the
/// base's iterations, then those of the second, and so on, each frame where it is found first.
pub fn hits<R: Threads + Sync>(
    rt: &R,
    alloc: Global,
    plan: &Plan,
    conds: &Conds,
    logs: &Logs,
    n: u32,
) -> Result<Vec<Frame>, NoMemory>
    requires logs { CanPick conds.now logs.now.logs n }
    requires plan { plan.now ≡ plan_of (length logs.now.logs) conds.now }
    ensures hits { IfOk result
        (λ hits. hits.items ≡ picked_hits_by (value_at logs.now.logs) (length logs.now.logs) n conds.now.ends conds.now.conds) }
{
    let mut all = Vec::new(alloc);
    for c in 0..conds.conjunctions() as u32 {
        let mut some = new_finds(rt, alloc, plan, conds, logs, n, c)?;
        all.append(&mut some)?;
    }
    Ok(all)
}
