//! Worked counts over two logs, and random logs counted plainly.
ghost use Rattle.std.specs.Prelude.{◌≡◌, ◌+◌, ◌*◌, ◌<◌, ◌≤◌, ℕ, [], ◌∷◌, length, All, IfOk};
ghost use Rattle.outcome_conv.specs.Conditions.{IsKind};
ghost use Rattle.outcome_conv.specs.declared.cond.Cond.{Cond};
ghost use Rattle.load_log.specs.Values.{Values};
ghost use Rattle.count_tests.specs.TwoLogs.{HasTwo, IsOfTwo};

use crate::fixtures::{JUST_ONE, ZERO, log};
use frame_count::{count, frame_of, frames, holds, row_count};
use load_log::{Log, Logs};
use outcome_conv::{Cond, CondKind, Conds};
use perp_base::{Frame, NoMemory};
use rand_core::{Rng, SeedableRng};
use rand_xoshiro::Xoshiro256PlusPlus;
use std::alloc::Global;
use std::test::Fail;
use std::thread::Threads;

/// What a thread of store buffering asks of the other's location.
fn reads(reader: u32, kind: CondKind) -> Cond
    requires { reader < 2 }
    ensures kind { result.kind ≡ kind }
    ensures two { IsOfTwo 1 result }
{
    Cond {
        reader,
        column: 0,
        loc: 1 - reader,
        writer: 1 - reader,
        kind,
    }
}

fn two_logs(
    alloc: Global,
    first: Log,
    second: Log,
    n: u32,
    columns: usize,
) -> Result<Logs, NoMemory>
    requires first { (first.columns ≡ columns) × (length first.values ≡ n * columns) }
    requires second { (second.columns ≡ columns) × (length second.values ≡ n * columns) }
    ensures { IfOk result (λ logs. HasTwo n columns logs.logs) }
{
    let mut logs = Logs::reserve(alloc, 2)?;
    logs.add(first);
    logs.add(second);
    Ok(logs)
}

fn counted<R: Threads + Sync>(
    rt: &R,
    conds: &Conds,
    logs: &Logs,
    n: u32,
    columns: usize,
    cut: u32,
) -> u64
    requires n { (1 ≤ n) × (n ≤ 1000) }
    requires cut { (1 ≤ cut) × (cut ≤ 65536) }
    requires logs { HasTwo n columns logs.now.logs }
    requires conds { All (IsOfTwo columns) conds.now.conds }
{
    match frames(n, 2) {
        Some(_) => count(rt, conds, logs, n, 2, cut),
        None => 0,
    }
}

/// The frame of the second thread's first iteration beside this one of the first thread.
fn pair(first: u32) -> Frame
    ensures { result ≡ first ∷ 0 ∷ [] }
{
    let mut frame = Frame::new();
    frame.add(first);
    frame.add(0);
    frame
}

/// How many iterations of the second thread pass beside this one of the first.
fn row(conds: &Conds, logs: &Logs, n: u32, first: u32, from: u32, to: u32) -> u64
    requires n { n ≤ 1000 }
    requires first { first < n }
    requires row { (from ≤ to) × (to ≤ n) }
    requires logs { HasTwo n 1 logs.now.logs }
    requires conds { All (IsOfTwo 1) conds.now.conds }
{
    let frame = pair(first);
    row_count(conds, logs, &frame, from, to)
}

/// Whether the frame of both threads' first iterations passes.
fn passes_first(conds: &Conds, logs: &Logs, n: u32) -> bool
    requires n { (1 ≤ n) × (n ≤ 1000) }
    requires logs { HasTwo n 1 logs.now.logs }
    requires conds { All (IsOfTwo 1) conds.now.conds }
{
    let frame = pair(0);
    holds(conds, logs, &frame)
}

#[test]
fn frames_up_to_the_limit_have_numbers(rt: HostRuntime) -> Result<(), Fail> {
    assert_eq!(rt; frames(65536, 2), Some(4294967296));
    assert_eq!(rt; frames(65537, 2), None);
    assert_eq!(rt; frames(16, 8), Some(4294967296));
    assert_eq!(rt; frames(17, 8), None);
    assert_eq!(rt; frames(100000, 8), None);
    let frame = frame_of(5, 3, 2);
    assert_eq!(rt; frame.len(), 2);
    assert_eq!(rt; frame.at(0), 1);
    assert_eq!(rt; frame.at(1), 2);
    Ok(())
}

/// Both threads read from before the other's store.
fn both_zero(alloc: Global) -> Result<Conds, NoMemory>
    ensures { IfOk result (λ c. All (IsOfTwo 1) c.conds) }
{
    let both = vec![in alloc; reads(0, ZERO), reads(1, ZERO)]?;
    Ok(Conds::new(both, vec![in alloc; 2]?))
}

/// One thread or the other reads the other's store.
fn either_one(alloc: Global) -> Result<Conds, NoMemory>
    ensures { IfOk result (λ c. All (IsOfTwo 1) c.conds) }
{
    let either = vec![in alloc; reads(0, JUST_ONE), reads(1, JUST_ONE)]?;
    Ok(Conds::new(either, vec![in alloc; 1, 2]?))
}

/// Both read from before the other's store, or the first reads the other's store.
fn both_zero_or_one(alloc: Global) -> Result<Conds, NoMemory>
    ensures { IfOk result (λ c. All (IsOfTwo 1) c.conds) }
{
    let three = vec![in alloc; reads(0, ZERO), reads(1, ZERO), reads(0, JUST_ONE)]?;
    Ok(Conds::new(three, vec![in alloc; 2, 3]?))
}

/// Both read from before the other's store, told twice.
fn both_zero_twice(alloc: Global) -> Result<Conds, NoMemory>
    ensures { IfOk result (λ c. All (IsOfTwo 1) c.conds) }
{
    let first = reads(0, ZERO);
    let second = reads(1, ZERO);
    let four = vec![in alloc; first, second, second, first]?;
    Ok(Conds::new(four, vec![in alloc; 2, 4]?))
}

/// The logs of two threads with a column each.
fn logs_of(alloc: Global, first: &[u64], second: &[u64], n: u32) -> Result<Logs, NoMemory>
    requires n { n ≤ 1000 }
    requires long { (length first.now ≡ n) × (length second.now ≡ n) }
    ensures { IfOk result (λ logs. HasTwo n 1 logs.logs) }
{
    let first = log(alloc, 1, n, first)?;
    two_logs(alloc, first, log(alloc, 1, n, second)?, n, 1)
}

/// Both threads read nothing of the other in eight iterations, then its first and its second store.
#[test]
fn ten_iterations_of_store_buffering(rt: HostRuntime) -> Result<(), Fail> {
    let values = [0, 0, 0, 0, 0, 0, 0, 0, 1, 2];
    let logs = logs_of(rt.alloc(), &values, &values, 10)?;
    let conds = both_zero(rt.alloc())?;
    assert_eq!(rt; row(&conds, &logs, 10, 9, 0, 10), 8);
    assert_eq!(rt; row(&conds, &logs, 10, 0, 0, 10), 8);
    assert_eq!(rt; row(&conds, &logs, 10, 0, 3, 9), 5);
    assert_eq!(rt; row(&conds, &logs, 10, 0, 4, 4), 0);
    assert_eq!(rt; row(&conds, &logs, 10, 8, 1, 10), 9);
    for cut in [1, 7, 100, 65536] {
        assert_eq!(rt; counted(&rt, &conds, &logs, 10, 1, cut), 94, "cut {cut}");
    }
    Ok(())
}

#[test]
fn two_iterations_of_store_buffering(rt: HostRuntime) -> Result<(), Fail> {
    let relaxed = logs_of(rt.alloc(), &[0, 0], &[0, 0], 2)?;
    let drained = logs_of(rt.alloc(), &[0, 1], &[1, 2], 2)?;
    let conds = both_zero(rt.alloc())?;
    for cut in [1, 3, 4, 65536] {
        assert_eq!(rt; counted(&rt, &conds, &relaxed, 2, 1, cut), 4, "cut {cut}");
    }
    assert_eq!(rt; counted(&rt, &conds, &drained, 2, 1, 1), 0);
    let conds = either_one(rt.alloc())?;
    assert_eq!(rt; counted(&rt, &conds, &drained, 2, 1, 3), 3);
    let conds = both_zero_or_one(rt.alloc())?;
    assert_eq!(rt; counted(&rt, &conds, &relaxed, 2, 1, 2), 4);
    Ok(())
}

#[test]
fn one_iteration_by_either_of_two_conjunctions(rt: HostRuntime) -> Result<(), Fail> {
    let logs = logs_of(rt.alloc(), &[0], &[0], 1)?;
    let conds = both_zero_twice(rt.alloc())?;
    assert_eq!(rt; counted(&rt, &conds, &logs, 1, 1, 1), 1);
    assert!(rt; passes_first(&conds, &logs, 1));
    Ok(())
}

/// A value of iteration `row`: any small one, or one that is not below those of the iterations before.
fn random_value(words: &mut Xoshiro256PlusPlus, row: u32, rising: bool) -> u64 {
    if rising {
        u64::from(row) * 2 + words.next_u64() % 3
    } else {
        words.next_u64() % (u64::from(row) * 2 + 9)
    }
}

fn random_log(
    alloc: Global,
    words: &mut Xoshiro256PlusPlus,
    n: u32,
    columns: usize,
    rising: bool,
) -> Result<Log, NoMemory>
    requires n { n ≤ 1000 }
    requires columns { (1 ≤ columns) × (columns ≤ 16) }
    ensures { IfOk result (λ log. (log.columns ≡ columns) × (length log.values ≡ n * columns)) }
{
    let mut log = Log::reserve(alloc, columns, n)?;
    let all = n * columns as u32;
    for i in 0..all {
        log.put(random_value(words, i / columns as u32, rising));
    }
    Ok(log)
}

fn random_cond(words: &mut Xoshiro256PlusPlus, columns: usize) -> Cond
    requires { (1 ≤ columns) × (columns ≤ 16) }
    ensures kind { IsKind result.kind }
    ensures two { IsOfTwo columns result }
{
    let k = words.next_u64() % 3 + 1;
    let a = words.next_u64() % k + 1;
    let kind = match words.next_u64() % 3 {
        0 => CondKind::AtLeast { k, a },
        1 => CondKind::Below { k },
        _ => CondKind::Exact { k, a },
    };
    Cond {
        reader: (words.next_u64() % 2) as u32,
        column: (words.next_u64() % columns as u64) as u32,
        loc: 0,
        writer: (words.next_u64() % 2) as u32,
        kind,
    }
}

/// The value of a column in iteration `i`; 0 where there is none.
fn value_in(log: &Log, column: usize, i: usize) -> u64 {
    if column < log.columns() {
        log.column(column).get(i).copied().unwrap_or(0)
    } else {
        0
    }
}

/// Whether a condition passes, told anew.
fn passes(cond: &Cond, logs: &Logs, frame: [u32; 2], columns: usize) -> bool
    requires kind { IsKind cond.now.kind }
    requires two { IsOfTwo columns cond.now × (columns ≤ 16) × (length logs.now.logs ≡ 2) }
    requires frame { All (λ i. i < 1000) frame }
{
    let i = frame[cond.reader as usize] as usize;
    let m = u64::from(frame[cond.writer as usize]);
    let value = value_in(logs.at(cond.reader as usize), cond.column as usize, i);
    match cond.kind {
        CondKind::AtLeast { k, a } => value >= k * m + a && value % k == a % k,
        CondKind::Below { k } => value <= k * m,
        CondKind::Exact { k, a } => value == k * m + a,
    }
}

/// Two conjunctions of random conditions over two logs.
fn random_conds(
    alloc: Global,
    words: &mut Xoshiro256PlusPlus,
    columns: usize,
) -> Result<Conds, NoMemory>
    requires { (1 ≤ columns) × (columns ≤ 16) }
    ensures { IfOk result (λ c. All (IsOfTwo columns) c.conds) }
{
    let a = random_cond(words, columns);
    let b = random_cond(words, columns);
    let c = random_cond(words, columns);
    Ok(Conds::new(vec![in alloc; a, b, c]?, vec![in alloc; 2, 3]?))
}

/// Whether each condition of a conjunction passes.
fn all_pass(conds: &[Cond], logs: &Logs, frame: [u32; 2], columns: usize) -> bool
    requires kinds { All (λ (c : Cond). IsKind c.kind) conds.now }
    requires two { All (IsOfTwo columns) conds.now × (columns ≤ 16) × (length logs.now.logs ≡ 2) }
    requires frame { All (λ i. i < 1000) frame }
{
    for cond in conds {
        if !passes(cond, logs, frame, columns) {
            return false;
        }
    }
    true
}

/// Whether one conjunction or another passes.
fn some_pass(conds: &Conds, logs: &Logs, i: u32, j: u32, columns: usize) -> bool
    requires two { All (IsOfTwo columns) conds.now.conds × (columns ≤ 16) × (length logs.now.logs ≡ 2) }
    requires frame { (i < 1000) × (j < 1000) }
{
    for c in 0..conds.conjunctions() {
        if all_pass(conds.group(c), logs, [i, j], columns) {
            return true;
        }
    }
    false
}

/// How many iterations of the second thread pass beside this one of the first.
fn plain_row(conds: &Conds, logs: &Logs, n: u32, i: u32, columns: usize) -> u64
    requires two { All (IsOfTwo columns) conds.now.conds × (columns ≤ 16) × (length logs.now.logs ≡ 2) }
    requires frame { (n ≤ 1000) × (i < 1000) }
{
    let mut total = 0u64;
    for j in 0..n {
        if some_pass(conds, logs, i, j, columns) {
            total = total.wrapping_add(1);
        }
    }
    total
}

/// How many frames pass, one by one.
fn plain_count(conds: &Conds, logs: &Logs, n: u32, columns: usize) -> u64
    requires two { All (IsOfTwo columns) conds.now.conds × (columns ≤ 16) × (length logs.now.logs ≡ 2) }
    requires n { n ≤ 1000 }
{
    let mut total = 0u64;
    for i in 0..n {
        total = total.wrapping_add(plain_row(conds, logs, n, i, columns));
    }
    total
}

#[test]
fn random_logs_count_as_frame_by_frame(rt: HostRuntime) -> Result<(), Fail> {
    let alloc = rt.alloc();
    let mut words = Xoshiro256PlusPlus::seed_from_u64(13);
    let mut hits = [0u64; 2];
    for round in 0..20 {
        let rising = round % 2 == 0;
        let first = random_log(alloc, &mut words, 150, 2, rising)?;
        let second = random_log(alloc, &mut words, 150, 2, rising)?;
        let logs = two_logs(alloc, first, second, 150, 2)?;
        let conds = random_conds(alloc, &mut words, 2)?;
        let want = plain_count(&conds, &logs, 150, 2);
        assert_eq!(rt; counted(&rt, &conds, &logs, 150, 2, 7), want);
        hits[rising as usize] = hits[rising as usize].wrapping_add(want);
    }
    assert!(rt; hits[0] > 0 && hits[1] > 0);
    Ok(())
}
