//! Counts of rings of three to eight threads, and of threads that read their own writes.
//!
//! The expected values are from outside: `bench/rings` prints them, by visiting every frame.
ghost use Rattle.std.specs.Prelude.{◌≡◌, ◌<◌, ◌≤◌, length, All, IfOk};
ghost use Rattle.outcome_conv.specs.Conditions.{IsKind};
ghost use Rattle.count_tests.specs.RingLogs.{HasEach, IsOfEach};

use frame_count::{count, frames};
use load_log::{Log, Logs};
use outcome_conv::{Cond, CondKind, Conds};
use perp_base::NoMemory;
use std::alloc::Global;
use std::test::Fail;
use std::thread::Threads;

/// What thread `t` logs in iteration `i`.
fn logged(t: usize, i: u32, rising: bool) -> u64
    requires { t < 8 }
{
    let (t, i) = (t as u64, u64::from(i));
    if rising {
        i * (2 + t % 2) / 2
    } else {
        (5 * i + 3 * t) % 11
    }
}

fn ring_log(alloc: Global, t: usize, n: u32, rising: bool) -> Result<Log, NoMemory>
    requires { t < 8 }
    ensures { IfOk result (λ log. (log.columns ≡ 1) × (length log.values ≡ n)) }
{
    let mut log = Log::reserve(alloc, 1, n)?;
    for i in 0..n {
        log.put(logged(t, i, rising));
    }
    Ok(log)
}

fn ring_logs(alloc: Global, threads: usize, n: u32, rising: bool) -> Result<Logs, NoMemory>
    requires { threads ≤ 8 }
    ensures { IfOk result (λ logs. HasEach threads n logs.logs) }
{
    let mut logs = Logs::reserve(alloc, threads)?;
    for t in 0..threads {
        logs.add(ring_log(alloc, t, n, rising)?);
    }
    Ok(logs)
}

/// One conjunction: of each thread a condition on the iteration of the thread that is `step` after it.
fn ring_conds(alloc: Global, threads: usize, step: usize, kind: CondKind) -> Result<Conds, NoMemory>
    requires threads { (1 ≤ threads) × (threads ≤ 8) }
    requires step { step ≤ 1 }
    requires kind { IsKind kind }
    ensures { IfOk result (λ c. All (IsOfEach threads) c.conds) }
{
    let mut conds = Vec::new(alloc);
    for t in 0..threads {
        conds.push(Cond {
            reader: t as u32,
            column: 0,
            loc: 0,
            writer: ((t + step) % threads) as u32,
            kind,
        })?;
    }
    Ok(Conds::new(conds, vec![in alloc; threads as u32]?))
}

/// The hits of all frames, in one piece.
fn hits<R: Threads + Sync>(
    rt: &R,
    alloc: Global,
    logs: &Logs,
    n: u32,
    step: usize,
    kind: CondKind,
) -> Result<u64, NoMemory>
    requires n { (1 ≤ n) × (n ≤ 1000) }
    requires threads { (1 ≤ length logs.now.logs) × (length logs.now.logs ≤ 8) }
    requires logs { HasEach (length logs.now.logs) n logs.now.logs }
    requires step { step ≤ 1 }
    requires kind { IsKind kind }
{
    let threads = logs.len();
    let conds = ring_conds(alloc, threads, step, kind)?;
    match frames(n, threads) {
        Some(_) => Ok(count(rt, &conds, logs, n, threads, 1)),
        None => Ok(0),
    }
}

/// The hits by the kind of the conditions.
fn by_kind<R: Threads + Sync>(
    rt: &R,
    alloc: Global,
    logs: &Logs,
    n: u32,
    step: usize,
) -> Result<[u64; 4], NoMemory>
    requires n { (1 ≤ n) × (n ≤ 1000) }
    requires threads { (1 ≤ length logs.now.logs) × (length logs.now.logs ≤ 8) }
    requires logs { HasEach (length logs.now.logs) n logs.now.logs }
    requires step { step ≤ 1 }
{
    Ok([
        hits(rt, alloc, logs, n, step, CondKind::Below { k: 1 })?,
        hits(rt, alloc, logs, n, step, CondKind::AtLeast { k: 1, a: 1 })?,
        hits(rt, alloc, logs, n, step, CondKind::AtLeast { k: 2, a: 1 })?,
        hits(rt, alloc, logs, n, step, CondKind::Exact { k: 1, a: 1 })?,
    ])
}

/// Those of rings over values that rise and over others, and of own reads over both.
fn worked<R: Threads + Sync>(
    rt: &R,
    alloc: Global,
    threads: usize,
    n: u32,
) -> Result<[[u64; 4]; 4], NoMemory>
    requires threads { (1 ≤ threads) × (threads ≤ 8) }
    requires n { (1 ≤ n) × (n ≤ 1000) }
{
    let rising = ring_logs(alloc, threads, n, true)?;
    let others = ring_logs(alloc, threads, n, false)?;
    Ok([
        by_kind(rt, alloc, &rising, n, 1)?,
        by_kind(rt, alloc, &others, n, 1)?,
        by_kind(rt, alloc, &rising, n, 0)?,
        by_kind(rt, alloc, &others, n, 0)?,
    ])
}

#[test]
fn three_to_five_threads_count_as_frame_by_frame(rt: HostRuntime) -> Result<(), Fail> {
    let alloc = rt.alloc();
    let three = [
        [2, 858, 0, 2],
        [46660, 117, 0, 1],
        [3362, 0, 0, 0],
        [46656, 125, 4, 1],
    ];
    let four = [
        [2, 360, 0, 2],
        [20300, 589, 1, 0],
        [1156, 0, 0, 0],
        [20736, 625, 8, 1],
    ];
    let five = [
        [2, 8, 0, 0],
        [2872, 2612, 0, 0],
        [4000, 0, 0, 0],
        [3125, 3125, 8, 1],
    ];
    assert!(rt; worked(&rt, alloc, 3, 41)? == three);
    assert!(rt; worked(&rt, alloc, 4, 17)? == four);
    assert!(rt; worked(&rt, alloc, 5, 10)? == five);
    Ok(())
}

#[test]
fn six_to_eight_threads_count_as_frame_by_frame(rt: HostRuntime) -> Result<(), Fail> {
    let alloc = rt.alloc();
    let six = [
        [2, 2, 0, 2],
        [243, 6548, 1, 0],
        [2744, 0, 0, 0],
        [216, 8000, 8, 0],
    ];
    let seven = [
        [2, 0, 0, 0],
        [4, 5877, 0, 0],
        [5000, 0, 0, 0],
        [8, 6912, 8, 0],
    ];
    let eight = [
        [2, 0, 0, 0],
        [0, 6300, 0, 0],
        [4096, 0, 0, 0],
        [0, 5832, 4, 0],
    ];
    assert!(rt; worked(&rt, alloc, 6, 7)? == six);
    assert!(rt; worked(&rt, alloc, 7, 5)? == seven);
    assert!(rt; worked(&rt, alloc, 8, 4)? == eight);
    Ok(())
}
