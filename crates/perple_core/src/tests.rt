//! Calls of the program over memory sources and sinks, row by row.
mod meeting;
mod refusals;
mod replays;

use super::*;
use perp_base::{MemSink, MemSource};
use std::alloc::Global;
use std::process::Abort;
use std::test::Fail;
use std::thread::Threads;

const SB: &str =
    "X86 SB\n{ x=0; y=0; }\n P0 | P1 ;\n MOV [x],$1 | MOV [y],$1 ;\n MOV EAX,[y] | MOV EAX,[x] ;\nexists (0:EAX=0 /\\ 1:EAX=0)\n";

const ONE: &str = "X86 ONE\n{ }\n P0 ;\n MOV [x],$1 ;\n MOV EAX,[x] ;\nexists (0:EAX=1)\n";

const OWN: &str =
    "X86 OWN\n{ }\n P0 | P1 ;\n MOV [x],$1 | MOV [y],$1 ;\n MOV EAX,[x] | MOV EAX,[y] ;\nexists (0:EAX=1 /\\ 1:EAX=1)\n";

const SBF: &str =
    "X86 SBF\n{ }\n P0 | P1 ;\n MOV [x],$1 | MOV [y],$1 ;\n MFENCE | MFENCE ;\n MOV EAX,[y] | MOV EAX,[x] ;\n~exists (0:EAX=0 /\\ 1:EAX=0)\n";

const MP: &str =
    "X86 MP\n{ }\n P0 | P1 ;\n MOV [x],$1 | MOV EAX,[y] ;\n MOV [y],$1 | MOV EBX,[x] ;\nexists (1:EAX=1 /\\ 1:EBX=0)\n";

const LB: &str =
    "X86 LB\n{ }\n P0 | P1 ;\n MOV EAX,[x] | MOV EAX,[y] ;\n MOV [y],$1 | MOV [x],$1 ;\nexists (0:EAX=1 /\\ 1:EAX=1)\n";

const IRIW: &str =
    "X86 IRIW\n{ }\n P0 | P1 | P2 | P3 ;\n MOV [x],$1 | MOV EAX,[x] | MOV [y],$1 | MOV EAX,[y] ;\n | MOV EBX,[y] | | MOV EBX,[x] ;\nexists (1:EAX=1 /\\ 1:EBX=0 /\\ 3:EAX=1 /\\ 3:EBX=0)\n";

const SBX: &str =
    "X86 SBX\n{ }\n P0 | P1 ;\n MOV EAX,$1 | mov eax,1 ;\n XCHG [x],EAX | xchg eax,[y] ;\n MOV EBX,[y] | MOV EBX,[x] ;\nexists (0:EBX=0 /\\ 1:EBX=0)\n";

const BUF: &str =
    "X86 BUF\n{ }\n P0 ;\n MOV [x],$1 ;\n MOV [y],$1 ;\n MOV EAX,[x] ;\nexists (0:EAX=1)\n";

const DIY: &str =
    "X86 SB\n\"Fre PodWR Fre PodWR\"\nPrefetch=0:x=F,0:y=T,1:y=F,1:x=T\nCom=Fr Fr\nOrig=Fre PodWR Fre PodWR\n{\n}\n P0          | P1          ;\n MOV [x],$1  | MOV [y],$1  ;\n             |             ;\n MOV EAX,[y] | MOV EAX,[x] ;\nlocations [x; y;]\nexists (0:EAX=0 /\\ 1:EAX=0)\n";

/// The words, the input, the number of the status, and what is written to both sinks.
const ROWS: [(&str, &str, u8, &str, &str); 24] = [
    (
        "replay 1 --rate 0 --count both",
        SB,
        0,
        "Test SB\nThreads 2\nIterations 1\nCondition exists 2\nFrames 1\nExhaustive 1\nHeuristic 1\nHit 0 0\nSeen yes\n",
        "",
    ),
    (
        "replay 2 --rate 0 --count both",
        SB,
        0,
        "Test SB\nThreads 2\nIterations 2\nCondition exists 2\nFrames 4\nExhaustive 4\nHeuristic 2\nHit 0 0\nHit 1 0\nSeen yes\n",
        "",
    ),
    (
        "replay 2 --rate 256 --count both",
        SB,
        0,
        "Test SB\nThreads 2\nIterations 2\nCondition exists 2\nFrames 4\nExhaustive 0\nHeuristic 0\nSeen no\n",
        "",
    ),
    (
        "replay 10 --rate 0",
        SB,
        0,
        "Test SB\nThreads 2\nIterations 10\nCondition exists 2\nFrames 100\nExhaustive 94\nSeen yes\n",
        "",
    ),
    (
        "run 1000 --seed 9",
        ONE,
        0,
        "Test ONE\nThreads 1\nIterations 1000\nCondition exists 1\nFrames 1000\nExhaustive 1000\nSeen yes\n",
        "",
    ),
    (
        "run 300",
        SBF,
        0,
        "Test SBF\nThreads 2\nIterations 300\nCondition ~exists 2\nFrames 90000\nExhaustive 0\nSeen no\n",
        "",
    ),
    (
        "run 3",
        MP,
        0,
        "Test MP\nThreads 2\nIterations 3\nCondition exists 2\nFrames 9\nExhaustive 0\nSeen no\n",
        "",
    ),
    (
        "run 3",
        LB,
        0,
        "Test LB\nThreads 2\nIterations 3\nCondition exists 2\nFrames 9\nExhaustive 0\nSeen no\n",
        "",
    ),
    (
        "run 300",
        MP,
        0,
        "Test MP\nThreads 2\nIterations 300\nCondition exists 2\nFrames 90000\nExhaustive 0\nSeen no\n",
        "",
    ),
    (
        "run 300",
        LB,
        0,
        "Test LB\nThreads 2\nIterations 300\nCondition exists 2\nFrames 90000\nExhaustive 0\nSeen no\n",
        "",
    ),
    (
        "run 12",
        IRIW,
        0,
        "Test IRIW\nThreads 4\nIterations 12\nCondition exists 4\nFrames 20736\nExhaustive 0\nSeen no\n",
        "",
    ),
    (
        "run 200",
        SBX,
        0,
        "Test SBX\nThreads 2\nIterations 200\nCondition exists 2\nFrames 40000\nExhaustive 0\nSeen no\n",
        "",
    ),
    (
        "replay 1 --rate 0 --buffer 1",
        BUF,
        0,
        "Test BUF\nThreads 1\nIterations 1\nCondition exists 1\nFrames 1\nExhaustive 1\nSeen yes\n",
        "",
    ),
    (
        "replay 1 --rate 0 --buffer 8",
        BUF,
        0,
        "Test BUF\nThreads 1\nIterations 1\nCondition exists 1\nFrames 1\nExhaustive 1\nSeen yes\n",
        "",
    ),
    (
        "run 1000 --count heuristic",
        IRIW,
        0,
        "Test IRIW\nThreads 4\nIterations 1000\nCondition exists 4\nHeuristic 0\nSeen no\n",
        "",
    ),
    (
        "convert",
        "X86 W2\n{ }\n P0 | P1 | P2 ;\n MOV [x],$1 | MOV [x],$2 | MOV EAX,[x] ;\nexists (2:EAX=2)\n",
        0,
        "Test W2\nThreads 3\nStore P0 0 x value 2*n+1\nStore P1 0 x value 2*n+2\nRead P2 0 x column 0\nAtom 1 rf P2 column 0 from P1: value >= 2*m+2, value mod 2 = 0\n",
        "",
    ),
    (
        "convert",
        SB,
        0,
        "Test SB\nThreads 2\nStore P0 0 x value 1*n+1\nStore P1 0 y value 1*n+1\nRead P0 1 y column 0\nRead P1 1 x column 0\nAtom 1 fr P0 column 0 from P1: value < 1*m+1\nAtom 2 fr P1 column 0 from P0: value < 1*m+1\n",
        "",
    ),
    (
        "convert",
        MP,
        0,
        "Test MP\nThreads 2\nStore P0 0 x value 1*n+1\nStore P0 1 y value 1*n+1\nRead P1 0 y column 0\nRead P1 1 x column 1\nAtom 1 exact P1 column 0 from P0: value = 1*m+1\nAtom 2 fr P1 column 1 from P0: value < 1*m+1\n",
        "",
    ),
    (
        "convert",
        OWN,
        0,
        "Test OWN\nThreads 2\nStore P0 0 x value 1*n+1\nStore P1 0 y value 1*n+1\nRead P0 1 x column 0\nRead P1 1 y column 0\nAtom 1 rf P0 column 0 from P0: value >= 1*m+1, value mod 1 = 0\nAtom 2 rf P1 column 0 from P1: value >= 1*m+1, value mod 1 = 0\n",
        "",
    ),
    ("run 1", "", 5, "", "perple: line 1: kind 1 NotX86\n"),
    (
        "run 1",
        "X86 T\n{ }\nP0 | P1 | P2 | P3 | P4 | P5 | P6 | P7 | P8 ;\nexists (0:EAX=0)\n",
        7,
        "",
        "perple: limit threads 8\n",
    ),
    (
        "replay 2 --rate 256 --count both",
        "X86 SB\n{ x=0; y=0; }\n P0 | P1 ;\n MOV [x],$1 | MOV [y],$1 ;\n MOV EAX,[y] | MOV EAX,[x] ;\nexists (0:EAX=1 \\/ 1:EAX=1)\n",
        0,
        "Test SB\nThreads 2\nIterations 2\nCondition exists 2\nFrames 4\nExhaustive 3\nHeuristic 3\nHit 1 0\nHit 0 0\nHit 1 1\nSeen yes\n",
        "",
    ),
    (
        "replay 2 --rate 0 --count both",
        "X86 SB\n{ x=0; y=0; }\n P0 | P1 ;\n MOV [x],$1 | MOV [y],$1 ;\n MOV EAX,[y] | MOV EAX,[x] ;\nexists (0:EAX=0 /\\ 1:EAX=0 \\/ 0:EAX=1)\n",
        0,
        "Test SB\nThreads 2\nIterations 2\nCondition exists 3\nFrames 4\nExhaustive 4\nHeuristic 2\nHit 0 0\nHit 1 0\nSeen yes\n",
        "",
    ),
    (
        "replay 1 --rate 0 --count both",
        "X86 SB\n{ x=0; y=0; }\n P0 | P1 ;\n MOV [x],$1 | MOV [y],$1 ;\n MOV EAX,[y] | MOV EAX,[x] ;\nexists (0:EAX=0 /\\ 1:EAX=0) \\/ (1:EAX=0 /\\ 0:EAX=0)\n",
        0,
        "Test SB\nThreads 2\nIterations 1\nCondition exists 4\nFrames 1\nExhaustive 1\nHeuristic 1\nHit 0 0\nSeen yes\n",
        "",
    ),
];

/// The most bytes that a call may write: 100,000 lines of hits of two threads.
const ROOM: usize = 2_097_152;

/// The number of the call of the source, of the output and of the error sink that fails. Calls are numbered from 1.
#[derive(Clone, Copy)]
struct Failing {
    read: u64,
    write: u64,
    line: u64,
}

const NEVER: Failing = Failing {
    read: 0,
    write: 0,
    line: 0,
};

/// How a call ended, what it wrote to both sinks, and the first two words of the field.
#[derive(Drop)]
struct Ran {
    status: Status,
    out: Vec<u8>,
    err: Vec<u8>,
    words: (u64, u64),
}

/// The words of a line, which stand between single spaces; an empty line has none.
fn words_of(alloc: Global, line: &str) -> Result<Vec<String>, Fail> {
    let mut words = Vec::new(alloc);
    if line.is_empty() {
        return Ok(words);
    }
    for word in line.split(' ') {
        words.push(String::from_str(alloc, word)?)?;
    }
    Ok(words)
}

/// A call over a source and sinks that move at most 16 bytes at a time.
fn call_at<R: Threads + Sync, G: Gate>(
    rt: &R,
    alloc: Global,
    line: &str,
    text: &[u8],
    failing: Failing,
    gate: &G,
) -> Result<Ran, Fail> {
    let words = words_of(alloc, line)?;
    let mut source = MemSource::new(alloc, text, 16, &[failing.read])?;
    let mut out = MemSink::new(alloc, ROOM, 16, &[failing.write])?;
    let mut err = MemSink::new(alloc, 128, 16, &[failing.line])?;
    let field = Field::new(alloc)?;
    let outcome = perple(
        rt,
        alloc,
        &words,
        &mut source,
        &mut out,
        &mut err,
        field,
        gate,
    );
    Ok(Ran {
        status: outcome.status,
        out: Vec::from_slice(alloc, out.written())?,
        err: Vec::from_slice(alloc, err.written())?,
        words: (outcome.done.word(0), outcome.done.word(1)),
    })
}

/// A call in which nothing fails.
fn call<R: Threads + Sync>(rt: &R, alloc: Global, line: &str, text: &[u8]) -> Result<Ran, Fail> {
    call_at(rt, alloc, line, text, NEVER, &NoGate)
}

/// The call ended so, and wrote this to its sinks.
fn assert_ended(rt: &impl Abort, ran: &Ran, at: &str, status: u8, out: &[u8], err: &str) {
    assert_eq!(rt; ran.status.number(), status, "status at {at}");
    assert_eq!(rt; ran.out.as_slice(), out, "output at {at}");
    assert_eq!(rt; ran.err.as_slice(), err.as_bytes(), "line at {at}");
}

#[test]
fn rows_are_answered(rt: HostRuntime) -> Result<(), Fail> {
    let alloc = rt.alloc();
    for (line, text, status, out, err) in ROWS {
        let ran = call(&rt, alloc, line, text.as_bytes())?;
        assert_ended(&rt, &ran, line, status, out.as_bytes(), err);
    }
    Ok(())
}

/// SB with this text in the place of its line of this number, or after its last line; or, where the number is 0, the
/// text itself.
fn changed(alloc: Global, at: usize, text: &str) -> Result<Vec<u8>, Fail> {
    if at == 0 {
        return Ok(Vec::from_slice(alloc, text.as_bytes())?);
    }
    let mut whole = Vec::new(alloc);
    for (i, line) in SB.split('\n').enumerate() {
        let line = if i + 1 == at { text } else { line };
        whole.extend_from_slice(line.as_bytes())?;
        if !line.is_empty() {
            whole.push(b'\n')?;
        }
    }
    Ok(whole)
}

const ONCE: &str = "Test SB\nThreads 2\nIterations 1\nCondition exists 2\nFrames 1\nExhaustive ";

/// The words, which line of SB stands otherwise, or 0 where the text stands whole, the new text, and how the report
/// begins, of which the rest is that of the run.
const STARTS: [(&str, usize, &str, &str); 8] = [
    (
        "run 1000",
        0,
        DIY,
        "Test SB\nThreads 2\nIterations 1000\nCondition exists 2\nFrames 1000000\nExhaustive ",
    ),
    (
        "run 100000 --count heuristic",
        0,
        DIY,
        "Test SB\nThreads 2\nIterations 100000\nCondition exists 2\nHeuristic ",
    ),
    ("run 1", 2, "{ int x=0; [y]=0; 0:EAX=0; }", ONCE),
    ("run 1", 4, "mov [x],1 | Mov [y],$1 ;", ONCE),
    ("run 1", 6, "exists 0:EAX=0 /\\ (1:eax=0)", ONCE),
    ("run 1", 6, "exists (0:EAX=0 \\/ 1:EAX=0)", ONCE),
    (
        "run 1",
        6,
        "exists 0:EAX=0 \\/ 0:EAX=0 \\/ 0:EAX=0 \\/ 0:EAX=0 \\/ 0:EAX=0 \\/ 0:EAX=0 \\/ 0:EAX=0 \\/ 0:EAX=0",
        "Test SB\nThreads 2\nIterations 1\nCondition exists 8\nFrames 1\nExhaustive ",
    ),
    ("run 1", 7, "(* end *)", ONCE),
];

/// The call ended so, its output begins so, or is empty where that is, and this is the line.
fn assert_begun(rt: &impl Abort, ran: &Ran, at: &str, status: u8, front: &str, err: &str) {
    let begun = ran.out.starts_with(front.as_bytes()) && ran.out.is_empty() == front.is_empty();
    assert_eq!(rt; (ran.status.number(), begun), (status, true), "at {at}");
    assert_eq!(rt; ran.err.as_slice(), err.as_bytes(), "line at {at}");
}

#[test]
fn reports_begin_with_what_was_asked(rt: HostRuntime) -> Result<(), Fail> {
    let alloc = rt.alloc();
    for (line, at, text, front) in STARTS {
        let ran = call(&rt, alloc, line, &changed(alloc, at, text)?)?;
        assert_begun(&rt, &ran, text, 0, front, "");
    }
    Ok(())
}

/// The most bytes of a prefix of SB, and the kind and the line with which it is refused.
const PREFIXES: [(usize, u8, u32); 14] = [
    (2, 1, 1),
    (7, 2, 1),
    (19, 3, 2),
    (21, 5, 2),
    (30, 5, 3),
    (32, 8, 3),
    (33, 8, 4),
    (57, 5, 4),
    (59, 8, 4),
    (60, 8, 5),
    (86, 5, 5),
    (88, 8, 5),
    (93, 5, 6),
    (114, 8, 6),
];

fn status_of_prefix(len: usize) -> Status {
    for (most, kind, line) in PREFIXES {
        if len <= most {
            return Status::NotLitmus { kind, line };
        }
    }
    Status::Whole
}

#[test]
fn prefixes_are_refused(rt: HostRuntime) -> Result<(), Fail> {
    let alloc = rt.alloc();
    let sb = SB.as_bytes();
    for len in 0..=sb.len() {
        let ran = call(&rt, alloc, "replay 1 --rate 0", &sb[..len])?;
        let answer = (ran.status, ran.out.is_empty());
        assert_eq!(rt; answer, (status_of_prefix(len), len < 115), "at {len}");
    }
    Ok(())
}

/// How many bytes SB has with a comment after it, the number of the status, how the output begins, and the line.
const LONG: [(usize, u8, &str, &str); 2] = [
    (65_536, 0, ONCE, ""),
    (65_537, 7, "", "perple: limit input 65536\n"),
];

#[test]
fn long_texts_are_refused(rt: HostRuntime) -> Result<(), Fail> {
    let alloc = rt.alloc();
    for (len, status, front, err) in LONG {
        let mut input = Vec::from_slice(alloc, SB.as_bytes())?;
        input.extend_from_slice(b"(*")?;
        input.resize(len - 2, b' ')?;
        input.extend_from_slice(b"*)")?;
        let ran = call(&rt, alloc, "run 1", &input)?;
        assert_begun(&rt, &ran, "a long text", status, front, err);
    }
    Ok(())
}

/// Which call of the source and of the output fails in a replay of SB, the number of the status, and how many bytes are
/// written.
const FAILING: [(u64, u64, u8, usize); 17] = [
    (1, 0, 3, 0),
    (2, 0, 3, 0),
    (3, 0, 3, 0),
    (4, 0, 3, 0),
    (5, 0, 3, 0),
    (6, 0, 3, 0),
    (7, 0, 3, 0),
    (8, 0, 3, 0),
    (9, 0, 3, 0),
    (118, 0, 0, 81),
    (0, 1, 4, 0),
    (0, 2, 4, 16),
    (0, 3, 4, 32),
    (0, 4, 4, 48),
    (0, 5, 4, 64),
    (0, 6, 4, 80),
    (0, 7, 0, 81),
];

#[test]
fn each_call_may_fail(rt: HostRuntime) -> Result<(), Fail> {
    let alloc = rt.alloc();
    for (read, write, status, written) in FAILING {
        let failing = Failing {
            read,
            write,
            line: 0,
        };
        let ran = call_at(
            &rt,
            alloc,
            "replay 1 --rate 0",
            SB.as_bytes(),
            failing,
            &NoGate,
        )?;
        let answer = (ran.status.number(), ran.out.len());
        assert_eq!(rt; answer, (status, written), "read {read} write {write}");
    }
    Ok(())
}

/// The words, the input, which call of the source, of the output and of the error sink fails, the number of the status,
/// what is written to both sinks, and the first two words of the field.
const LEAVES: [(&str, &str, (u64, u64, u64), u8, &str, &str, (u64, u64)); 6] = [
    (
        "run 3",
        OWN,
        (0, 0, 0),
        0,
        "Test OWN\nThreads 2\nIterations 3\nCondition exists 2\nFrames 9\nExhaustive 9\nSeen yes\n",
        "",
        (3, 3),
    ),
    (
        "run 1000",
        IRIW,
        (0, 0, 0),
        7,
        "",
        "perple: limit frames 4294967296\n",
        (0, 0),
    ),
    // no step is made
    (
        "run 1",
        SB,
        (2, 0, 0),
        3,
        "",
        "perple: reading failed\n",
        (0, 0),
    ),
    // two pieces stand there, and the run is whole
    (
        "run 1",
        SB,
        (0, 3, 0),
        4,
        "Test SB\nThreads 2\nIterations 1\nC",
        "perple: writing failed\n",
        (1, 1),
    ),
    // the line of a refusal cannot be written: the status stays
    ("", "", (0, 0, 1), 2, "", "", (0, 0)),
    ("run 1", "", (0, 0, 1), 5, "", "", (0, 0)),
];

/// What a call leaves on its sinks and on the field, also where one of its calls fails.
#[test]
fn calls_leave_a_field(rt: HostRuntime) -> Result<(), Fail> {
    let alloc = rt.alloc();
    for (line, text, (read, write, lost), status, out, err, words) in LEAVES {
        let failing = Failing {
            read,
            write,
            line: lost,
        };
        let ran = call_at(&rt, alloc, line, text.as_bytes(), failing, &NoGate)?;
        assert_ended(&rt, &ran, line, status, out.as_bytes(), err);
        assert_eq!(rt; ran.words, words, "field at {line}");
    }
    Ok(())
}
