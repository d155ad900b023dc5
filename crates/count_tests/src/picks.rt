//! Worked picks and listed hits over two logs.
ghost use Rattle.std.specs.Prelude.{◌≡◌, ◌-◌, ◌*◌, ◌<◌, ◌≤◌, [], ◌∷◌, All, IfOk, length};
ghost use Rattle.load_log.specs.Values.{Values};
ghost use Rattle.frame_count.specs.Count.{IsOfLogs};

use crate::fixtures::{JUST_ONE, ZERO, log};
use heuristic::{Plan, hits, pick};
use load_log::{Log, Logs};
use outcome_conv::{Cond, CondKind, Conds};
use perp_base::{Frame, NoMemory};
use std::alloc::Global;
use std::test::Fail;
use std::thread::Threads;

/// The value is that of the other thread's store, or of a later one of its iterations.
const ONE: CondKind = CondKind::AtLeast { k: 1, a: 1 };

/// What one of two threads reads in a column, of the other's stores.
fn reads(reader: u32, column: u32, kind: CondKind) -> Cond
    requires { reader < 2 }
    ensures { result ≡ record { reader = reader; column = column; loc = 0; writer = 1 - reader; kind = kind } }
{
    Cond {
        reader,
        column,
        loc: 0,
        writer: 1 - reader,
        kind,
    }
}

/// What is picked of the first conjunction, by iteration, and what is listed.
#[derive(Drop)]
struct Outcome {
    picks: Vec<Option<Frame>>,
    hits: Vec<Frame>,
}

fn worked<R: Threads + Sync>(
    rt: &R,
    alloc: Global,
    first: Log,
    second: Log,
    n: u32,
    conds: &Conds,
) -> Result<Outcome, NoMemory>
    requires few { n ≤ 1000 }
    requires first { length first.values ≡ n * first.columns }
    requires second { length second.values ≡ n * second.columns }
    requires names { All (IsOfLogs (first ∷ second ∷ [])) conds.now.conds }
    requires conjunction { 1 ≤ length conds.now.ends }
{
    let mut logs = Logs::reserve(alloc, 2)?;
    logs.add(first);
    logs.add(second);
    let plan = Plan::of(alloc, conds, 2)?;
    let mut picks = Vec::new(alloc);
    for iteration in 0..n {
        picks.push(pick(&plan, conds, &logs, n, 0, iteration))?;
    }
    let hits = hits(rt, alloc, &plan, conds, &logs, n)?;
    Ok(Outcome { picks, hits })
}

/// The same of two threads that log one value in an iteration, each as many.
fn of_columns<R: Threads + Sync>(
    rt: &R,
    alloc: Global,
    first: &[u64],
    second: &[u64],
    conds: &Conds,
) -> Result<Outcome, NoMemory>
    requires few { length first.now ≤ 1000 }
    requires same { length second.now ≡ length first.now }
    requires names { (a b : Values) → a.columns ≡ 1 → b.columns ≡ 1 → All (IsOfLogs (a ∷ b ∷ [])) conds.now.conds }
    requires conjunction { 1 ≤ length conds.now.ends }
{
    let n = first.len() as u32;
    let second = log(alloc, 1, n, second)?;
    worked(rt, alloc, log(alloc, 1, n, first)?, second, n, conds)
}

fn is_pair(frame: &Frame, pair: [u32; 2]) -> bool {
    frame.len() == 2 && frame.at(0) == pair[0] && frame.at(1) == pair[1]
}

impl Outcome {
    fn picked(&self, iteration: usize, pair: [u32; 2]) -> bool {
        match self.picks.get(iteration) {
            Some(Some(frame)) => is_pair(frame, pair),
            _ => false,
        }
    }

    fn picked_none(&self, iteration: usize) -> bool {
        matches!(self.picks.get(iteration), Some(None))
    }

    fn listed(&self, pairs: &[[u32; 2]]) -> bool {
        self.hits.len() == pairs.len()
            && self
                .hits
                .iter()
                .zip(pairs)
                .all(|(frame, pair)| is_pair(frame, *pair))
    }
}

#[test]
fn message_passing_picks_what_the_flag_names(rt: HostRuntime) -> Result<(), Fail> {
    let alloc = rt.alloc();
    for kind in [ONE, JUST_ONE] {
        let flag_first = vec![in alloc; reads(1, 0, kind), reads(1, 1, ZERO)]?;
        let conds = Conds::new(flag_first, vec![in alloc; 2]?);
        let found = worked(
            &rt,
            alloc,
            log(alloc, 0, 3, &[])?,
            log(alloc, 2, 3, &[0, 1, 2, 3, 3, 3])?,
            3,
            &conds,
        )?;
        assert!(rt; found.picked_none(0));
        assert!(rt; found.picked(1, [1, 1]));
        assert!(rt; found.picked(2, [2, 2]));
        assert!(rt; found.listed(&[]));
    }
    Ok(())
}

#[test]
fn store_buffering_picks_and_lists(rt: HostRuntime) -> Result<(), Fail> {
    let alloc = rt.alloc();
    let both = vec![in alloc; reads(0, 0, ZERO), reads(1, 0, ZERO)]?;
    let conds = Conds::new(both, vec![in alloc; 2]?);
    let late = of_columns(&rt, alloc, &[1, 2], &[0, 0], &conds)?;
    assert!(rt; late.picked(0, [0, 1]));
    assert!(rt; late.picked_none(1));
    let relaxed = of_columns(&rt, alloc, &[0, 0], &[0, 0], &conds)?;
    assert!(rt; relaxed.listed(&[[0, 0], [1, 0]]));
    let drained = of_columns(&rt, alloc, &[0, 1], &[1, 2], &conds)?;
    assert!(rt; drained.listed(&[]));
    Ok(())
}

#[test]
fn conjunctions_list_their_finds_in_turn(rt: HostRuntime) -> Result<(), Fail> {
    let alloc = rt.alloc();
    for kind in [ONE, JUST_ONE] {
        let either = vec![in alloc; reads(0, 0, kind), reads(1, 0, kind)]?;
        let conds = Conds::new(either, vec![in alloc; 1, 2]?);
        let drained = of_columns(&rt, alloc, &[0, 1], &[1, 2], &conds)?;
        assert!(rt; drained.listed(&[[1, 0], [0, 0], [1, 1]]));
    }
    let mixed = vec![in alloc; reads(0, 0, ZERO), reads(1, 0, ZERO), reads(0, 0, ONE)]?;
    let conds = Conds::new(mixed, vec![in alloc; 2, 3]?);
    let relaxed = of_columns(&rt, alloc, &[0, 0], &[0, 0], &conds)?;
    assert!(rt; relaxed.listed(&[[0, 0], [1, 0]]));
    let twice = vec![in alloc;
        reads(0, 0, ZERO),
        reads(1, 0, ZERO),
        reads(1, 0, ZERO),
        reads(0, 0, ZERO),
    ]?;
    let conds = Conds::new(twice, vec![in alloc; 2, 4]?);
    let once = of_columns(&rt, alloc, &[0], &[0], &conds)?;
    assert!(rt; once.listed(&[[0, 0]]));
    Ok(())
}
