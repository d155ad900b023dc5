//! Worked reports, conversions and lines of statuses.
ghost use Rattle.std.specs.Prelude.{◌≡◌, ◌<◌, All, IfOk};
ghost use Rattle.std.specs.Str.{IsAscii};
ghost use Rattle.report_text.specs.Status.{HasKind};

use perp_base::{Frame, Name, NoMemory};
use report_text::{
    AtomForm, AtomRow, Conversion, CountReport, Over, ReadRow, Report, Status, StoreRow,
    convert_text, count_report, refusal_text, report,
};
use std::alloc::Global;
use std::process::Abort;
use std::test::Fail;

/// The report of store buffering, each thread's body performed once and both reads of 0.
const BOTH_COUNTS: &str =
    "Test SB\nThreads 2\nIterations 1\nCondition exists 2\nFrames 1\nExhaustive 1\nHeuristic 1\nHit 0 0\nSeen yes\n";

const HEURISTIC_ALONE: &str =
    "Test SB\nThreads 2\nIterations 1\nCondition exists 2\nHeuristic 1\nSeen yes\n";

const NEVER_SEEN: &str =
    "Test SB\nThreads 2\nIterations 300\nCondition ~exists 2\nFrames 90000\nExhaustive 0\nSeen no\n";

#[test]
fn a_report_has_the_lines_that_were_asked_for(rt: HostRuntime) -> Result<(), Fail> {
    let alloc = rt.alloc();
    let hits = Vec::from_array(alloc, [Frame::filled(2, 0)])?;
    let mut rows = Report {
        name: name(&rt, alloc, b"SB")?,
        threads: 2,
        iterations: 1,
        negated: false,
        atoms: 2,
        frames: Some(1),
        exhaustive: Some(1),
        hits: Some(hits),
        show_hits: true,
    };
    assert_eq!(rt; report(alloc, &rows)?.as_str(), BOTH_COUNTS);
    rows.show_hits = false;
    rows.frames = None;
    rows.exhaustive = None;
    assert_eq!(rt; report(alloc, &rows)?.as_str(), HEURISTIC_ALONE);
    rows.hits = None;
    rows.negated = true;
    rows.iterations = 300;
    rows.frames = Some(90000);
    rows.exhaustive = Some(0);
    assert_eq!(rt; report(alloc, &rows)?.as_str(), NEVER_SEEN);
    Ok(())
}

/// Two counts: of a test whose frames are none of its outcomes, and of one that was seen.
#[test]
fn a_count_has_its_seven_lines(rt: HostRuntime) -> Result<(), Fail> {
    let alloc = rt.alloc();
    let mut rows = CountReport {
        name: name(&rt, alloc, b"iwp2.6")?,
        threads: 4,
        iterations: 30,
        negated: false,
        atoms: 4,
        frames: 810000,
        within: 0,
    };
    let none =
        "Test iwp2.6\nThreads 4\nIterations 30\nCondition exists 4\nFrames 810000\nWithin 0\nSeen no\n";
    assert_eq!(rt; count_report(alloc, &rows)?.as_str(), none);
    rows.negated = true;
    rows.within = 1;
    let one =
        "Test iwp2.6\nThreads 4\nIterations 30\nCondition ~exists 4\nFrames 810000\nWithin 1\nSeen yes\n";
    assert_eq!(rt; count_report(alloc, &rows)?.as_str(), one);
    Ok(())
}

/// An ASCII name.
fn name(rt: &impl Abort, alloc: Global, bytes: &[u8]) -> Result<Name, NoMemory>
    ensures { IfOk result IsAscii }
{
    let name = Name::of(alloc, bytes)?;
    assert!(rt; name.bytes().is_ascii());
    Ok(name)
}

fn store(
    rt: &impl Abort,
    alloc: Global,
    at: (u32, u32),
    loc: &[u8],
    sequence: (u64, u64),
) -> Result<StoreRow, NoMemory>
    ensures { IfOk result (λ row. IsAscii row.loc) }
{
    let loc = name(rt, alloc, loc)?;
    Ok(StoreRow {
        thread: at.0,
        place: at.1,
        loc,
        k: sequence.0,
        a: sequence.1,
    })
}

fn read(
    rt: &impl Abort,
    alloc: Global,
    at: (u32, u32),
    loc: &[u8],
    column: u32,
) -> Result<ReadRow, NoMemory>
    ensures { IfOk result (λ row. IsAscii row.loc) }
{
    let loc = name(rt, alloc, loc)?;
    Ok(ReadRow {
        thread: at.0,
        place: at.1,
        loc,
        column,
    })
}

/// An atom on a location with one store.
fn atom(form: AtomForm, reader: u32, column: u32, writer: u32) -> AtomRow
    ensures { result.k ≡ 1 }
{
    AtomRow {
        form,
        reader,
        column,
        writer,
        k: 1,
        a: 1,
    }
}

/// The text of a conversion with these rows.
fn text_of(
    rt: &impl Abort,
    alloc: Global,
    test: &[u8],
    threads: u32,
    stores: Vec<StoreRow>,
    reads: Vec<ReadRow>,
    atoms: Vec<AtomRow>,
) -> Result<String, NoMemory>
    requires stores { All (λ row. IsAscii row.loc) stores.items }
    requires reads { All (λ row. IsAscii row.loc) reads.items }
    requires sequences { All (λ row. 0 < row.k) atoms.items }
{
    let rows = Conversion {
        name: name(rt, alloc, test)?,
        threads,
        stores,
        reads,
        atoms,
    };
    convert_text(alloc, &rows)
}

/// Two threads that store to one location, and one that reads it.
const TWO_WRITERS: &str =
    "Test W2\nThreads 3\nStore P0 0 x value 2*n+1\nStore P1 0 x value 2*n+2\nRead P2 0 x column 0\nAtom 1 rf P2 column 0 from P1: value >= 2*m+2, value mod 2 = 0\n";

#[test]
fn several_stores_to_a_location_have_their_ranks(rt: HostRuntime) -> Result<(), Fail> {
    let alloc = rt.alloc();
    let first = store(&rt, alloc, (0, 0), b"x", (2, 1))?;
    let second = store(&rt, alloc, (1, 0), b"x", (2, 2))?;
    let only = read(&rt, alloc, (2, 0), b"x", 0)?;
    let newest = AtomRow {
        form: AtomForm::Rf,
        reader: 2,
        column: 0,
        writer: 1,
        k: 2,
        a: 2,
    };
    let stores = vec![in alloc; first, second]?;
    let text = text_of(
        &rt,
        alloc,
        b"W2",
        3,
        stores,
        vec![in alloc; only]?,
        vec![in alloc; newest]?,
    )?;
    assert_eq!(rt; text.as_str(), TWO_WRITERS);
    Ok(())
}

/// Store buffering: each thread stores to one location and reads the other.
const STORE_BUFFERING: &str =
    "Test SB\nThreads 2\nStore P0 0 x value 1*n+1\nStore P1 0 y value 1*n+1\nRead P0 1 y column 0\nRead P1 1 x column 0\nAtom 1 fr P0 column 0 from P1: value < 1*m+1\nAtom 2 fr P1 column 0 from P0: value < 1*m+1\n";

/// Message passing: one thread stores to two locations, the other reads them in the other order.
const MESSAGE_PASSING: &str =
    "Test MP\nThreads 2\nStore P0 0 x value 1*n+1\nStore P0 1 y value 1*n+1\nRead P1 0 y column 0\nRead P1 1 x column 1\nAtom 1 exact P1 column 0 from P0: value = 1*m+1\nAtom 2 fr P1 column 1 from P0: value < 1*m+1\n";

#[test]
fn a_conversion_has_its_lines(rt: HostRuntime) -> Result<(), Fail> {
    let alloc = rt.alloc();
    let store_x = store(&rt, alloc, (0, 0), b"x", (1, 1))?;
    let store_y = store(&rt, alloc, (1, 0), b"y", (1, 1))?;
    let read_y = read(&rt, alloc, (0, 1), b"y", 0)?;
    let read_x = read(&rt, alloc, (1, 1), b"x", 0)?;
    let stores = vec![in alloc; store_x, store_y]?;
    let reads = vec![in alloc; read_y, read_x]?;
    let atoms = vec![in alloc; atom(AtomForm::Fr, 0, 0, 1), atom(AtomForm::Fr, 1, 0, 0)]?;
    let text = text_of(&rt, alloc, b"SB", 2, stores, reads, atoms)?;
    assert_eq!(rt; text.as_str(), STORE_BUFFERING);
    let store_x = store(&rt, alloc, (0, 0), b"x", (1, 1))?;
    let store_y = store(&rt, alloc, (0, 1), b"y", (1, 1))?;
    let read_y = read(&rt, alloc, (1, 0), b"y", 0)?;
    let read_x = read(&rt, alloc, (1, 1), b"x", 1)?;
    let stores = vec![in alloc; store_x, store_y]?;
    let reads = vec![in alloc; read_y, read_x]?;
    let atoms = vec![in alloc; atom(AtomForm::Exact, 1, 0, 0), atom(AtomForm::Fr, 1, 1, 0)]?;
    let text = text_of(&rt, alloc, b"MP", 2, stores, reads, atoms)?;
    assert_eq!(rt; text.as_str(), MESSAGE_PASSING);
    Ok(())
}

fn expect_line(rt: &impl Abort, status: Status, number: u8, line: &str)
    requires { HasKind status }
{
    assert_eq!(rt; status.number(), number);
    assert_eq!(rt; refusal_text(&status).bytes(), line.as_bytes());
}

#[test]
fn each_status_has_its_number_and_line(rt: HostRuntime) {
    expect_line(&rt, Status::Whole, 0, "");
    expect_line(&rt, Status::Memory, 1, "perple: out of memory\n");
    let usage = "perple: usage: perple COMMAND [N] [OPTIONS]\n";
    expect_line(&rt, Status::Usage, 2, usage);
    expect_line(&rt, Status::ReadFault, 3, "perple: reading failed\n");
    expect_line(&rt, Status::WriteFault, 4, "perple: writing failed\n");
    let limits = [
        (Over::Input, "perple: limit input 65536\n"),
        (Over::Threads, "perple: limit threads 8\n"),
        (Over::Locations, "perple: limit locations 16\n"),
        (Over::Instructions, "perple: limit instructions 16\n"),
        (Over::Atoms, "perple: limit atoms 32\n"),
        (Over::Frames, "perple: limit frames 4294967296\n"),
    ];
    for (over, line) in limits {
        expect_line(&rt, Status::Limit(over), 7, line);
    }
}

#[test]
fn each_kind_of_a_faulty_text_has_its_line(rt: HostRuntime) {
    let lines = [
        "perple: line 4294967295: kind 1 NotX86\n",
        "perple: line 4294967295: kind 2 Header\n",
        "perple: line 4294967295: kind 3 Initial\n",
        "perple: line 4294967295: kind 4 NonZeroInitial\n",
        "perple: line 4294967295: kind 5 Column\n",
        "perple: line 4294967295: kind 6 Instruction\n",
        "perple: line 4294967295: kind 7 NotConstant\n",
        "perple: line 4294967295: kind 8 Condition\n",
        "perple: line 4294967295: kind 9 Forall\n",
        "perple: line 4294967295: kind 10 MemoryCondition\n",
        "perple: line 4294967295: kind 11 Disjunction\n",
        "perple: line 4294967295: kind 12 Trailing\n",
    ];
    for kind in 1..13u8 {
        let status = Status::NotLitmus {
            kind,
            line: 4294967295,
        };
        expect_line(&rt, status, 5, lines[usize::from(kind) - 1]);
    }
}

#[test]
fn each_kind_of_an_atom_outside_has_its_line(rt: HostRuntime) {
    let lines = [
        "perple: atom 1: kind 1 NoSuchThread\n",
        "perple: atom 1: kind 2 NotLoaded\n",
        "perple: atom 1: kind 3 NoStore\n",
        "perple: atom 1: kind 4 Ambiguous\n",
        "perple: atom 1: kind 5 ZeroStored\n",
        "perple: atom 1: kind 6 NoWriter\n",
        "perple: atom 1: kind 7 SeveralWriters\n",
        "perple: atom 1: kind 8 OwnWriter\n",
    ];
    for kind in 1..9u8 {
        let status = Status::OutsideProfile { atom: 1, kind };
        expect_line(&rt, status, 6, lines[usize::from(kind) - 1]);
    }
}
