//! The count over all frames, by pieces.
ghost use Rattle.std.specs.Prelude.{◌≡◌, ℕ, ◌+◌, ◌-◌, ◌*◌, ◌/◌, ◌<◌, ◌≤◌, ◌^◌, length, count_by, replicate, true, All};
ghost use Rattle.std.specs.List.{range_with_len};
ghost use Rattle.load_log.specs.Values.{AreWhole, value_at};
ghost use Rattle.outcome_conv.specs.Conds.{count_of};
ghost use Rattle.frame_count.specs.Block.{IsBlock, IsTask, block_count};
ghost use Rattle.frame_count.specs.Counted.{Counts};
ghost use Rattle.frame_count.specs.Known.{Tells};
ghost use Rattle.frame_count.specs.Count.{CanCount, IsOfLogs, number_holds, piece_by_turns, piece_count};
ghost use Rattle.perp_base.specs.declared.limits.TheConstants.{MOST_FRAMES, MOST_ITERATIONS, MOST_PIECES, MOST_THREADS};

use crate::block::{Block, MOST_BLOCKS, Place, Task};
use crate::counted::Counted;
use crate::known::Known;
use crate::numbers::{frame_of, power};
use load_log::Logs;
use outcome_conv::Conds;
use perp_base::MOST_CONJUNCTIONS;
use rayon::prelude::*;
use std::thread::Threads;

/// Of so many frames blocks are remembered.
const MANY_FRAMES: u64 = 65_536;

/// The row of the first frame, counted: each piece begins with it, since other rows may count alike.
fn first_row(conds: &Conds, logs: &Logs, known: &Known, n: u32) -> Counted
    requires iterations { (1 ≤ n) × (n ≤ MOST_ITERATIONS) }
    requires threads { (1 ≤ length logs.now.logs) × (length logs.now.logs ≤ 8) }
    requires few { n ^ length logs.now.logs ≤ MOST_FRAMES }
    requires whole { AreWhole n logs.now.logs }
    requires names { All (IsOfLogs logs.now.logs) conds.now.conds }
    requires known { Tells conds.now logs.now.logs known.now }
    ensures { Counts conds.now logs.now.logs result }
{
    let frame = frame_of(0, n, logs.len());
    let mut counted = Counted::nothing();
    let all = [true; MOST_CONJUNCTIONS];
    counted.next(conds, logs, known, &frame, &all, 0, n as usize);
    counted
}

/// The hits of the numbers from `from` up to and without `to` of all frames, where blocks are remembered.
fn count_remembering(task: &Task, place: &mut Place, size: u64, from: u64, to: u64) -> u64
    requires task { IsTask task.now }
    requires block { IsBlock task.now place.old (replicate 8 true) 0 size }
    requires numbers { (from ≤ to) × (to ≤ size) }
    ensures { result ≡ block_count task.now 0 place.old.frame from to }
{
    let mut blocks = [Block::nothing(); MOST_BLOCKS];
    let alive = [true; MOST_CONJUNCTIONS];
    place.count(task, &mut blocks, alive, 0, size, from, to)
}

/// The same, where blocks are remembered if that pays: to make room for them takes as long as some hundred rows.
fn count_in(task: &Task, place: &mut Place, size: u64, from: u64, to: u64) -> u64
    requires task { IsTask task.now }
    requires block { IsBlock task.now place.old (replicate 8 true) 0 size }
    requires numbers { (from ≤ to) × (to ≤ size) }
    ensures { result ≡ block_count task.now 0 place.old.frame from to }
{
    if task.threads > 2 && to - from >= MANY_FRAMES {
        return count_remembering(task, place, size, from, to);
    }
    let alive = [true; MOST_CONJUNCTIONS];
    place.count(task, &mut [], alive, 0, size, from, to)
}

/// At how many of the frames with the numbers from `from` up to and without `to` the conditions hold.
fn piece(
    conds: &Conds,
    logs: &Logs,
    known: &Known,
    first: &Counted,
    n: u32,
    from: u64,
    to: u64,
) -> u64
    requires iterations { (1 ≤ n) × (n ≤ MOST_ITERATIONS) }
    requires threads { (1 ≤ length logs.now.logs) × (length logs.now.logs ≤ 8) }
    requires numbers { (from ≤ to) × (to ≤ n ^ length logs.now.logs) }
    requires few { n ^ length logs.now.logs ≤ MOST_FRAMES }
    requires whole { AreWhole n logs.now.logs }
    requires names { All (IsOfLogs logs.now.logs) conds.now.conds }
    requires known { Tells conds.now logs.now.logs known.now }
    requires first { Counts conds.now logs.now.logs first.now }
    ensures { result ≡ count_by (number_holds conds.now logs.now.logs n) (range_with_len from (to - from)) }
{
    let task = Task::new(conds, logs, known, n);
    let mut place = Place::new(&task, *first);
    let size = power(n, logs.len());
    count_in(&task, &mut place, size, from, to)
}

/// At how many frames of piece `j` of the cut the conditions hold.
fn piece_at(
    conds: &Conds,
    logs: &Logs,
    known: &Known,
    first: &Counted,
    n: u32,
    all: u64,
    cut: u64,
    j: u64,
) -> u64
    requires piece { CanCount conds.now logs.now.logs n all cut × (j < cut) }
    requires known { Tells conds.now logs.now.logs known.now }
    requires first { Counts conds.now logs.now.logs first.now }
    ensures { result ≡ piece_count conds.now logs.now.logs n all cut j }
{
    piece(
        conds,
        logs,
        known,
        first,
        n,
        j * all / cut,
        (j + 1) * all / cut,
    )
}

/// The piece that is handed out as number `j`. Pieces near the front may take longer than those near the back, or the
/// other way round, and each processor gets neighbours in this order; so they come from the front and from the back by
/// turns.
fn by_turns(cut: u64, j: u64) -> u64
    requires { j < cut }
    ensures piece { result ≡ piece_by_turns cut j }
    ensures there { result < cut }
{
    if j % 2 == 0 { j / 2 } else { cut - 1 - j / 2 }
}

/// At how many frames of `n` iterations of `t` threads the conditions of some conjunction hold. The frame numbers are
/// cut into so many pieces of nearly the same size, which threads share. It takes no memory.
pub fn count<R: Threads + Sync>(
    rt: &R,
    conds: &Conds,
    logs: &Logs,
    n: u32,
    t: usize,
    cut: u32,
) -> u64
    requires iterations { (1 ≤ n) × (n ≤ MOST_ITERATIONS) }
    requires threads { (t ≡ length logs.now.logs) × (1 ≤ t) × (t ≤ MOST_THREADS) }
    requires few { n ^ t ≤ MOST_FRAMES }
    requires cut { (1 ≤ cut) × (cut ≤ MOST_PIECES) }
    requires whole { AreWhole n logs.now.logs }
    requires names { All (IsOfLogs logs.now.logs) conds.now.conds }
    ensures { result ≡ count_of (value_at logs.now.logs) conds.now.ends conds.now.conds n t }
{
    let all = power(n, t);
    let cut = cut as u64;
    let column = Known::of(conds, logs, n as usize);
    let known = &column;
    let row = first_row(conds, logs, known, n);
    let first = &row;
    (0..cut)
        .into_par_iter()
        .map(
            |j: u64| -> u64
                requires { CanCount conds.now logs.now.logs n all cut × (j < cut)
                    × Tells conds.now logs.now.logs known.now × Counts conds.now logs.now.logs first.now }
                ensures { result ≡ piece_count conds.entry.now logs.entry.now.logs n all cut (piece_by_turns cut j) }
            { piece_at(conds, logs, known, first, n, all, cut, by_turns(cut, j)) },
        )
        .with_min_len(1)
        .sum::<u64>(rt)
}
