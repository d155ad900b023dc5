//! The rows of store buffering over given logs, and their lines.
ghost use Rattle.std.specs.Prelude.{◌≡◌, ◌<◌, ◌≤◌, All, IfOk, [], ◌∷◌, length};
ghost use Rattle.x86_subset.specs.Shape.{AreLocated, IsLocated};
ghost use Rattle.seq_conv.specs.Numbers.{AreOf};
ghost use Rattle.skew.specs.Logged.{CanTell};
ghost use Rattle.count_tests.specs.Tried.{IsLog, IsStoreBuffering, goes};

use load_log::{Log, Logs};
use perp_base::{Name, NoMemory};
use seq_conv::Sequences;
use skew::{SkewRow, skew, skew_line};
use std::alloc::Global;
use std::test::Fail;
use std::thread::Threads;
use x86_subset::{Atom, Body, Instr, Quantifier, Reg, Test};

/// `MOV [own],$1`, `MOV EAX,[other]`.
fn body(alloc: Global, own: u32, other: u32) -> Result<Body, NoMemory>
    requires { (own < 2) × (other < 2) }
    ensures located { IfOk result (λ body. IsLocated 2 body.actions) }
    ensures goes { IfOk result (λ body. body.actions ≡ goes own other) }
{
    let mut body = Body::new(alloc);
    body.add(Instr::Store {
        loc: own,
        written: 1,
    })?;
    body.add(Instr::Load {
        reg: Reg::Eax,
        loc: other,
    })?;
    Ok(body)
}

/// A test with these bodies over two locations.
fn with_bodies(alloc: Global, bodies: Vec<Body>) -> Result<Test, Fail>
    requires few { (1 ≤ length bodies.items) × (length bodies.items ≤ 8) }
    requires located { AreLocated 2 bodies.items }
    ensures { IfOk result (λ test. test.bodies ≡ bodies.items) }
{
    let atoms = vec![in alloc;
        Atom {
            thread: 0,
            reg: Reg::Eax,
            value: 0
        },
    ]?;
    let locations = vec![in alloc; Name::of(alloc, b"x")?, Name::of(alloc, b"y")?]?;
    let ends = vec![in alloc; 1]?;
    let name = Name::of(alloc, b"SB")?;
    match Test::new(name, locations, bodies, Quantifier::Exists, atoms, ends) {
        Ok(test) => Ok(test),
        Err(_) => Err("it is within the limits".into()),
    }
}

fn store_buffering(alloc: Global) -> Result<Test, Fail>
    ensures { IfOk result IsStoreBuffering }
{
    let first = body(alloc, 0, 1)?;
    let second = body(alloc, 1, 0)?;
    let bodies = vec![in alloc; first, second]?;
    with_bodies(alloc, bodies)
}

/// A log of one column with these values.
fn log(alloc: Global, n: u32, values: &[u64]) -> Result<Log, NoMemory>
    requires whole { length values.now ≡ n }
    requires small { All (λ v. v ≤ n) values.now }
    ensures { IfOk result (IsLog n) }
{
    let mut log = Log::reserve(alloc, 1, n)?;
    for value in values {
        log.put(*value);
    }
    Ok(log)
}

fn told<R: Threads + Sync>(
    rt: &R,
    alloc: Global,
    n: u32,
    first: Log,
    second: Log,
    cut: u32,
) -> Result<Vec<SkewRow>, Fail>
    requires n { (1 ≤ n) × (n ≤ 100000) }
    requires first { IsLog n first }
    requires second { IsLog n second }
    requires cut { (1 ≤ cut) × (cut ≤ 65536) }
{
    let test = store_buffering(alloc)?;
    let sequences = Sequences::of(alloc, &test)?;
    let mut logs = Logs::reserve(alloc, 2)?;
    logs.add(first);
    logs.add(second);
    let rows = skew(rt, alloc, &test, &sequences, &logs, n, cut)?;
    Ok(rows)
}

/// A log in which each iteration has the same value.
fn constant(alloc: Global, n: u32, value: u64) -> Result<Log, NoMemory>
    requires { value ≤ n }
    ensures { IfOk result (IsLog n) }
{
    let mut log = Log::reserve(alloc, 1, n)?;
    for _ in 0..n {
        log.put(value);
    }
    Ok(log)
}

/// A row of a thread of store buffering whose skews are all the same, if there is one.
fn row(thread: u32, initial: u64, skew: Option<i64>, buckets: [u64; 9]) -> SkewRow {
    SkewRow {
        thread,
        place: 1,
        initial,
        least: skew,
        greatest: skew,
        buckets,
    }
}

/// The replay of two iterations in which each write drains before the next action.
#[test]
fn threads_in_order(rt: HostRuntime) -> Result<(), Fail> {
    let alloc = rt.alloc();
    for cut in [1, 2, 5] {
        let rows = told(
            &rt,
            alloc,
            2,
            log(alloc, 2, &[0, 1])?,
            log(alloc, 2, &[1, 2])?,
            cut,
        )?;
        assert_eq!(rt; rows.len(), 2);
        assert!(rt; rows[0] == row(0, 1, Some(1), [0, 0, 0, 0, 0, 1, 0, 0, 0]));
        assert!(rt; rows[1] == row(1, 0, Some(0), [0, 0, 0, 0, 2, 0, 0, 0, 0]));
    }
    Ok(())
}

/// The replay in which no write drains before the end.
#[test]
fn threads_that_read_no_write(rt: HostRuntime) -> Result<(), Fail> {
    let alloc = rt.alloc();
    let rows = told(
        &rt,
        alloc,
        2,
        log(alloc, 2, &[0, 0])?,
        log(alloc, 2, &[0, 0])?,
        4096,
    )?;
    assert_eq!(rt; rows.len(), 2);
    assert!(rt; rows[0] == row(0, 2, None, [0; 9]));
    assert!(rt; rows[1] == row(1, 2, None, [0; 9]));
    Ok(())
}

/// The first thread reads iteration 1002 throughout, so its skews go from -1002 to 1002, one by one.
#[test]
fn each_bucket_to_its_borders(rt: HostRuntime) -> Result<(), Fail> {
    let alloc = rt.alloc();
    let rows = told(
        &rt,
        alloc,
        2005,
        constant(alloc, 2005, 1003)?,
        constant(alloc, 2005, 0)?,
        7,
    )?;
    assert_eq!(rt; rows.len(), 2);
    assert!(rt; rows[0].initial == 0);
    assert!(rt; rows[0].least == Some(-1002));
    assert!(rt; rows[0].greatest == Some(1002));
    assert!(rt; rows[0].buckets == [2, 900, 90, 10, 1, 10, 90, 900, 2]);
    assert!(rt; rows[1].initial == 2005);
    Ok(())
}

#[test]
fn lines_of_rows(rt: HostRuntime) -> Result<(), Fail> {
    let alloc = rt.alloc();
    let rows = [
        (
            row(0, 0, Some(0), [0, 0, 0, 0, 3, 0, 0, 0, 0]),
            "Skew P0 1 initial 0 least 0 greatest 0 buckets 0 0 0 0 3 0 0 0 0\n",
        ),
        (
            row(7, 100000, None, [0; 9]),
            "Skew P7 1 initial 100000 least none greatest none buckets 0 0 0 0 0 0 0 0 0\n",
        ),
        (
            row(1, 2, Some(-99999), [1, 0, 0, 0, 0, 0, 0, 0, 0]),
            "Skew P1 1 initial 2 least -99999 greatest -99999 buckets 1 0 0 0 0 0 0 0 0\n",
        ),
    ];
    for (row, line) in rows {
        assert_eq!(rt; skew_line(alloc, &row)?.as_str(), line);
    }
    Ok(())
}
