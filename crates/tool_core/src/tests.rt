//! Calls of the second program over memory sources and sinks, row by row.
ghost use Rattle.std.specs.Prelude.{◌≡◌, ◌<◌, ◌+◌, None, length};
ghost use Rattle.std.specs.Io.{ReadsAtMost};
ghost use Rattle.std.specs.Io.KnownBytes.{ReadConsumes};
ghost use Rattle.perp_base.specs.Causes.{HasCause};

mod counts;
mod faiths;
mod meeting;
mod outcomes;
mod replays;
mod rows;
mod shown;

use super::*;
use counts::{COUNTS, FAILING_COUNTS, REFUSED, RUNS};
use faiths::FAITHS;
use outcomes::{OUTCOMES, REFUSED_OUTCOMES};
use perp_base::{Calls, Failed, MemSink, MemSource, Source};
use replays::{LEGAL_REPLAYS, REFUSED_REPLAYS, REPLAYS};
use rows::ROWS;
use std::alloc::Global;
use std::process::Abort;
use std::test::Fail;
use std::thread::Threads;

const SB: &str =
    "X86 SB\n{ x=0; y=0; }\n P0 | P1 ;\n MOV [x],$1 | MOV [y],$1 ;\n MOV EAX,[y] | MOV EAX,[x] ;\nexists (0:EAX=0 /\\ 1:EAX=0)\n";

const SBF: &str =
    "X86 SBF\n{ }\n P0 | P1 ;\n MOV [x],$1 | MOV [y],$1 ;\n MFENCE | MFENCE ;\n MOV EAX,[y] | MOV EAX,[x] ;\n~exists (0:EAX=0 /\\ 1:EAX=0)\n";

const MP: &str =
    "X86 MP\n{ }\n P0 | P1 ;\n MOV [x],$1 | MOV EAX,[y] ;\n MOV [y],$1 | MOV EBX,[x] ;\nexists (1:EAX=1 /\\ 1:EBX=0)\n";

const LB: &str =
    "X86 LB\n{ }\n P0 | P1 ;\n MOV EAX,[x] | MOV EAX,[y] ;\n MOV [y],$1 | MOV [x],$1 ;\nexists (0:EAX=1 /\\ 1:EAX=1)\n";

const IRIW: &str =
    "X86 IRIW\n{ }\n P0 | P1 | P2 | P3 ;\n MOV [x],$1 | MOV EAX,[x] | MOV [y],$1 | MOV EAX,[y] ;\n | MOV EBX,[y] | | MOV EBX,[x] ;\nexists (1:EAX=1 /\\ 1:EBX=0 /\\ 3:EAX=1 /\\ 3:EBX=0)\n";

const SBX: &str =
    "X86 SBX\n{ }\n P0 | P1 ;\n MOV EAX,$1 | mov eax,1 ;\n XCHG [x],EAX | xchg eax,[y] ;\n MOV EBX,[y] | MOV EBX,[x] ;\nexists (0:EBX=0 /\\ 1:EBX=0)\n";

const OWN: &str =
    "X86 OWN\n{ }\n P0 | P1 ;\n MOV [x],$1 | MOV [y],$1 ;\n MOV EAX,[x] | MOV EAX,[y] ;\nexists (0:EAX=1 /\\ 1:EAX=1)\n";

const EITHER: &str =
    "X86 SBF\n{ }\n P0 | P1 ;\n MOV [x],$1 | MOV [y],$1 ;\n MFENCE | MFENCE ;\n MOV EAX,[y] | MOV EAX,[x] ;\nexists (0:EAX=0 /\\ 1:EAX=0 \\/ 0:EAX=1)\n";

const TWO_WRITERS: &str =
    "X86 TWO\n{ }\n P0 | P1 | P2 ;\n MOV [x],$1 | MOV [x],$2 | MOV EAX,[x] ;\n";

/// The stores of the second location stand in two threads, and 100,000 iterations have 1,200,000 events.
const BUSY: &str =
    "X86 BUSY\n{ x=0; y=0; }\n P0 | P1 ;\n MOV [x],$1 | MOV EAX,[x] ;\n MOV [y],$1 | MOV [y],$2 ;\n MOV EAX,[y] | MOV EBX,[y] ;\nexists (0:EAX=0)\n";

const USAGE: &str = "perple: usage: perple COMMAND [N] [OPTIONS]\n";

const NO_SECTION: &str = "perple: no section\n";

const MANY_EVENTS: &str = "perple: limit events 1000000\n";

/// The first line of a section after `SB`.
const LINE_8: &str = "perple: section line 8\n";

/// The words of a line, which stand between single spaces; an empty line has none.
fn words_of(alloc: Global, line: &str) -> Result<Vec<String>, Fail> {
    let mut words = Vec::new(alloc);
    if line.is_empty() {
        return Ok(words);
    }
    for word in line.split(' ') {
        words.push(String::from_str(alloc, word)?)?;
    }
    Ok(words)
}

/// How a call ended, its sinks, and the first two words of the field.
#[derive(Drop)]
struct Called {
    status: ToolStatus,
    out: MemSink,
    err: MemSink,
    words: (u64, u64),
}

/// The number of the call of the source, of the output and of the error sink that fails. Calls are numbered from 1.
#[derive(Clone, Copy)]
struct Failing {
    read: u64,
    write: u64,
    line: u64,
}

const NEVER: Failing = Failing {
    read: 0,
    write: 0,
    line: 0,
};

/// A call with a gate over sinks that move at most 16 bytes at a time.
fn call_at<R: Threads + Sync, S: Source, G: Gate>(
    rt: &R,
    alloc: Global,
    line: &str,
    source: &mut S,
    failing: Failing,
    gate: &G,
) -> Result<Called, Fail> {
    let words = words_of(alloc, line)?;
    let mut out = MemSink::new(alloc, 65536, 16, &[failing.write])?;
    let mut err = MemSink::new(alloc, 128, 16, &[failing.line])?;
    let field = Field::new(alloc)?;
    let outcome = tool(rt, alloc, &words, source, &mut out, &mut err, field, gate);
    Ok(Called {
        status: outcome.status,
        out,
        err,
        words: (outcome.done.word(0), outcome.done.word(1)),
    })
}

/// The same without one.
fn call_on<R: Threads + Sync, S: Source>(
    rt: &R,
    alloc: Global,
    line: &str,
    source: &mut S,
    failing: Failing,
) -> Result<Called, Fail> {
    call_at(rt, alloc, line, source, failing, &NoGate)
}

/// A call over a source that gives at most 16 bytes at a time.
fn call<R: Threads + Sync>(
    rt: &R,
    alloc: Global,
    line: &str,
    text: &[u8],
    failing: Failing,
) -> Result<Called, Fail> {
    let mut source = MemSource::new(alloc, text, 16, &[failing.read])?;
    call_on(rt, alloc, line, &mut source, failing)
}

/// The call ended so, and wrote this to its sinks.
fn assert_ended(rt: &impl Abort, called: &Called, at: &str, status: u8, out: &[u8], err: &str) {
    assert_eq!(rt; called.status.number(), status, "status at {at}");
    assert_eq!(rt; called.out.written(), out, "output at {at}");
    assert_eq!(rt; called.err.written(), err.as_bytes(), "line at {at}");
}

/// The text with a section after it.
fn with_section(alloc: Global, text: &str, section: &str) -> Result<Vec<u8>, Fail> {
    let mut input = Vec::from_slice(alloc, text.as_bytes())?;
    input.extend_from_slice(section.as_bytes())?;
    Ok(input)
}

/// A call in which nothing fails ends so, writes this to its sinks, and makes no step on the field.
fn assert_answer<R: Threads + Sync + Abort>(
    rt: &R,
    alloc: Global,
    line: &str,
    input: &[u8],
    status: u8,
    out: &[u8],
    err: &str,
) -> Result<(), Fail> {
    let called = call(rt, alloc, line, input, NEVER)?;
    assert_ended(rt, &called, line, status, out, err);
    assert_eq!(rt; called.words, (0, 0), "field at {line}");
    Ok(())
}

/// The same of a text with a section after it.
fn assert_row<R: Threads + Sync + Abort>(
    rt: &R,
    alloc: Global,
    line: &str,
    text: &str,
    section: &str,
    status: u8,
    out: &str,
    err: &str,
) -> Result<(), Fail> {
    let input = with_section(alloc, text, section)?;
    assert_answer(rt, alloc, line, &input, status, out.as_bytes(), err)
}

#[test]
fn rows_are_answered(rt: HostRuntime) -> Result<(), Fail> {
    let alloc = rt.alloc();
    for (line, text, section, status, out, err) in ROWS {
        assert_row(&rt, alloc, line, text, section, status, out, err)?;
    }
    Ok(())
}

/// A test, and its verdict. Each forbidden test here has one cycle; with which node the text begins is free.
const VERDICTS: [(&str, &str); 8] = [
    (SBF, "Forbidden\nCycle 0 P0 0 P0 2 P1 0 P1 2\n"),
    (SBX, "Forbidden\nCycle 0 P0 0 P0 1 P1 0 P1 1\n"),
    (MP, "Forbidden\nCycle 0 P0 0 P0 1 P1 0 P1 1\n"),
    (LB, "Forbidden\nCycle 0 P0 0 P0 1 P1 0 P1 1\n"),
    (IRIW, "Forbidden\nCycle 0 P0 0 P1 0 P1 1 P2 0 P3 0 P3 1\n"),
    (SB, "Open 0\n"),
    (OWN, "Open 0\n"),
    (EITHER, "Open 1\n"),
];

#[test]
fn verdicts_are_given(rt: HostRuntime) -> Result<(), Fail> {
    let alloc = rt.alloc();
    for (text, verdict) in VERDICTS {
        assert_answer(
            &rt,
            alloc,
            "verdict",
            text.as_bytes(),
            0,
            verdict.as_bytes(),
            "",
        )?;
    }
    Ok(())
}

#[test]
fn faithful_tests_are_told(rt: HostRuntime) -> Result<(), Fail> {
    let alloc = rt.alloc();
    for (text, line) in FAITHS {
        assert_answer(
            &rt,
            alloc,
            "faithful",
            text.as_bytes(),
            0,
            line.as_bytes(),
            "",
        )?;
    }
    Ok(())
}

#[test]
fn outcomes_are_listed(rt: HostRuntime) -> Result<(), Fail> {
    let alloc = rt.alloc();
    for (text, listed) in OUTCOMES {
        let input = text.as_bytes();
        assert_answer(&rt, alloc, "outcomes", input, 0, listed.as_bytes(), "")?;
    }
    for (line, text, after, status, err) in REFUSED_OUTCOMES {
        let input = with_section(alloc, text, after)?;
        assert_answer(&rt, alloc, line, &input, status, b"", err)?;
    }
    let limits = [
        (ToolStatus::States, 15, "perple: limit states 10000\n"),
        (ToolStatus::Steps, 16, "perple: limit steps 20000\n"),
    ];
    for (status, number, text) in limits {
        let line = status.line();
        assert_eq!(rt; status.number(), number);
        assert_eq!(rt; line.bytes(), text.as_bytes());
    }
    Ok(())
}

/// A replay leaves the field untouched.
#[test]
fn counts_are_told(rt: HostRuntime) -> Result<(), Fail> {
    let alloc = rt.alloc();
    for (line, text, report) in COUNTS {
        let input = text.as_bytes();
        assert_answer(&rt, alloc, line, input, 0, report.as_bytes(), "")?;
    }
    for (line, text, report, words) in RUNS {
        let ran = call(&rt, alloc, line, text.as_bytes(), NEVER)?;
        assert_ended(&rt, &ran, line, 0, report.as_bytes(), "");
        assert_eq!(rt; ran.words, words, "field at {line}");
    }
    for (line, text, status, err) in REFUSED {
        assert_answer(&rt, alloc, line, text.as_bytes(), status, b"", err)?;
    }
    Ok(())
}

/// A replay leaves the field untouched, and after its text `judge` finds it legal.
#[test]
fn replays_are_told(rt: HostRuntime) -> Result<(), Fail> {
    let alloc = rt.alloc();
    for (line, text, section) in REPLAYS {
        let input = text.as_bytes();
        assert_answer(&rt, alloc, line, input, 0, section.as_bytes(), "")?;
    }
    for (line, text, legal) in LEGAL_REPLAYS {
        let found = call(&rt, alloc, line, text.as_bytes(), NEVER)?;
        let mut told = Vec::from_slice(alloc, text.as_bytes())?;
        told.extend_from_slice(found.out.written())?;
        assert_answer(&rt, alloc, "judge", &told, 0, legal.as_bytes(), "")?;
    }
    for (line, text, status, err) in REFUSED_REPLAYS {
        assert_answer(&rt, alloc, line, text.as_bytes(), status, b"", err)?;
    }
    Ok(())
}

#[test]
fn skews_are_told(rt: HostRuntime) -> Result<(), Fail> {
    let ran = call(&rt, rt.alloc(), "skew 3", OWN.as_bytes(), NEVER)?;
    let rows =
        "Skew P0 1 initial 0 least 0 greatest 0 buckets 0 0 0 0 3 0 0 0 0\nSkew P1 1 initial 0 least 0 greatest 0 buckets 0 0 0 0 3 0 0 0 0\n";
    assert_ended(&rt, &ran, "skew 3", 0, rows.as_bytes(), "");
    assert_eq!(rt; ran.words, (3, 3));
    Ok(())
}

#[test]
fn reads_of_several_writers_have_no_skew(rt: HostRuntime) -> Result<(), Fail> {
    let alloc = rt.alloc();
    let input = with_section(alloc, TWO_WRITERS, "exists (2:EAX=2)\n")?;
    let ran = call(&rt, alloc, "skew 5", &input, NEVER)?;
    assert_ended(&rt, &ran, "skew 5", 0, b"", "");
    Ok(())
}

/// The words, a test, the section after it, what `judge` says of the run that is written, and the field's first two
/// words. Of each iteration each store has two events, and each other action has one.
const FOUND: [(&str, &str, &str, &str, (u64, u64)); 5] = [
    ("order", SB, "%logs 1\nP0 0\nP1 0\n", "Legal 6\n", (0, 0)),
    (
        "order",
        MP,
        "%logs 2\nP0\nP1 0 0 2 2\n",
        "Legal 12\n",
        (0, 0),
    ),
    ("witness 300", SBF, "", "Legal 2400\n", (300, 300)),
    ("witness 7", OWN, "", "Legal 42\n", (7, 7)),
    ("witness 20", IRIW, "", "Legal 160\n", (20, 20)),
];

/// What `order` and `witness` write is a section that `judge` finds legal.
#[test]
fn found_runs_are_legal(rt: HostRuntime) -> Result<(), Fail> {
    let alloc = rt.alloc();
    for (line, text, section, legal, words) in FOUND {
        let input = with_section(alloc, text, section)?;
        let found = call(&rt, alloc, line, &input, NEVER)?;
        assert_eq!(rt; found.words, words, "field at {line}: {text}");
        let mut told = Vec::from_slice(alloc, text.as_bytes())?;
        told.extend_from_slice(found.out.written())?;
        assert_answer(&rt, alloc, "judge", &told, 0, legal.as_bytes(), "")?;
    }
    Ok(())
}

/// The lines of a section, how each is answered while it is cut, and what is written once it is whole.
const GROWING: [(&str, u8, &str, &str); 7] = [
    (
        "%events 1",
        9,
        "perple: no section\n",
        "Wrong 1 kind 6 Short\n",
    ),
    (
        "P0 0 0 push",
        10,
        "perple: section line 8\n",
        "Wrong 2 kind 6 Short\n",
    ),
    (
        "P0 0 1 read 0",
        10,
        "perple: section line 9\n",
        "Wrong 3 kind 6 Short\n",
    ),
    (
        "P0 0 0 drain",
        10,
        "perple: section line 10\n",
        "Wrong 4 kind 6 Short\n",
    ),
    (
        "P1 0 0 push",
        10,
        "perple: section line 11\n",
        "Wrong 5 kind 6 Short\n",
    ),
    (
        "P1 0 1 read 1",
        10,
        "perple: section line 12\n",
        "Wrong 6 kind 6 Short\n",
    ),
    ("P1 0 0 drain", 10, "perple: section line 13\n", "Legal 6\n"),
];

/// Each prefix of the text after the input is answered so.
fn assert_prefixes<R: Threads + Sync + Abort>(
    rt: &R,
    alloc: Global,
    input: &[u8],
    text: &[u8],
    status: u8,
    err: &str,
) -> Result<(), Fail> {
    for len in 1..text.len() {
        let mut cut = Vec::from_slice(alloc, input)?;
        cut.extend_from_slice(&text[..len])?;
        assert_answer(rt, alloc, "judge", &cut, status, b"", err)?;
    }
    Ok(())
}

/// Each prefix of a test with its section: up to the whole section line there is none, then a line that is cut is bad.
#[test]
fn prefixes_are_answered(rt: HostRuntime) -> Result<(), Fail> {
    let alloc = rt.alloc();
    let mut input = Vec::new(alloc);
    assert_answer(&rt, alloc, "judge", &input, 9, b"", "perple: no section\n")?;
    assert_prefixes(&rt, alloc, &input, SB.as_bytes(), 9, "perple: no section\n")?;
    input.extend_from_slice(SB.as_bytes())?;
    assert_answer(&rt, alloc, "judge", &input, 9, b"", "perple: no section\n")?;
    for (line, status, err, out) in GROWING {
        assert_prefixes(&rt, alloc, &input, line.as_bytes(), status, err)?;
        for end in [line, "\n"] {
            input.extend_from_slice(end.as_bytes())?;
            assert_answer(&rt, alloc, "judge", &input, 0, out.as_bytes(), "")?;
        }
    }
    Ok(())
}

/// A source of blanks without an end.
#[derive(Drop)]
struct Blanks {
    calls: Calls,
}

impl Source for Blanks {
    ghost seen = { λ blanks. record { bytes = None; faults = 0; calls = blanks.calls.made } };

    fn read(&mut self, buf: &mut [u8]) -> Result<usize, Failed>
        requires { 0 < length buf.old }
        ensures bound { ReadsAtMost result buf.new }
        ensures bytes { ReadConsumes None None result buf.new }
        ensures cause { HasCause 0 0 result }
        ensures called { self.new.calls.made ≡ self.old.calls.made + 1 }
    {
        self.calls = self.calls.and_one();
        buf.fill(b' ');
        Ok(buf.len())
    }
}

/// How many bytes the litmus part has before its last line feed, the number of the status, and what is written to both
/// sinks.
const LONG: [(usize, u8, &str, &str); 2] = [
    (65_535, 0, "Wrong 1 kind 6 Short\n", ""),
    (65_536, 7, "", "perple: limit input 65536\n"),
];

/// A litmus part of 65,536 bytes is taken, and one of a byte more is not.
#[test]
fn long_litmus_parts_are_refused(rt: HostRuntime) -> Result<(), Fail> {
    let alloc = rt.alloc();
    for (len, status, out, err) in LONG {
        let mut input = Vec::from_slice(alloc, SB.as_bytes())?;
        input.resize(len, b' ')?;
        input.extend_from_slice(b"\n%events 1\n")?;
        assert_answer(&rt, alloc, "judge", &input, status, out.as_bytes(), err)?;
    }
    Ok(())
}

#[test]
fn inputs_without_an_end_are_refused(rt: HostRuntime) -> Result<(), Fail> {
    let alloc = rt.alloc();
    for line in [
        "judge",
        "order",
        "witness 1",
        "verdict",
        "skew 1",
        "count 1",
    ] {
        let mut blanks = Blanks {
            calls: Calls::none(),
        };
        let called = call_on(&rt, alloc, line, &mut blanks, NEVER)?;
        assert_ended(
            &rt,
            &called,
            line,
            11,
            b"",
            "perple: limit section 16777216\n",
        );
    }
    Ok(())
}

/// Of `order` on SB with two logs: which call of the source and of the output fails, the number of the status, how many
/// bytes stand on the output, and the line. The input has 134 bytes, so its end is found by the tenth read, and each
/// write has 16 bytes.
const FAILING: [(u64, u64, u8, usize, &str); 18] = [
    (1, 0, 3, 0, "perple: reading failed\n"),
    (2, 0, 3, 0, "perple: reading failed\n"),
    (3, 0, 3, 0, "perple: reading failed\n"),
    (4, 0, 3, 0, "perple: reading failed\n"),
    (5, 0, 3, 0, "perple: reading failed\n"),
    (6, 0, 3, 0, "perple: reading failed\n"),
    (7, 0, 3, 0, "perple: reading failed\n"),
    (8, 0, 3, 0, "perple: reading failed\n"),
    (9, 0, 3, 0, "perple: reading failed\n"),
    (10, 0, 3, 0, "perple: reading failed\n"),
    (0, 1, 4, 0, "perple: writing failed\n"),
    (0, 2, 4, 16, "perple: writing failed\n"),
    (0, 3, 4, 32, "perple: writing failed\n"),
    (0, 4, 4, 48, "perple: writing failed\n"),
    (0, 5, 4, 64, "perple: writing failed\n"),
    (0, 6, 4, 80, "perple: writing failed\n"),
    (11, 7, 0, 88, ""),
    (0, 0, 0, 88, ""),
];

/// Each call of the source and of the output fails in turn, as the rows tell, and what stands on the output is a front
/// part of the whole answer.
fn assert_failing<R: Threads + Sync + Abort>(
    rt: &R,
    alloc: Global,
    line: &str,
    input: &[u8],
    rows: &[(u64, u64, u8, usize, &str)],
) -> Result<(), Fail> {
    let whole = call(rt, alloc, line, input, NEVER)?;
    for (read, write, status, written, err) in rows {
        let failing = Failing {
            read: *read,
            write: *write,
            line: 0,
        };
        let ran = call(rt, alloc, line, input, failing)?;
        let out = ran.out.written();
        assert_ended(rt, &ran, line, *status, out, *err);
        let front = out.len() == *written && whole.out.written().starts_with(out);
        assert!(rt; front, "output at read {read} write {write}");
    }
    Ok(())
}

#[test]
fn each_call_may_fail(rt: HostRuntime) -> Result<(), Fail> {
    let alloc = rt.alloc();
    let input = with_section(alloc, SB, "%logs 1\nP0 0\nP1 0\n")?;
    assert_failing(&rt, alloc, "order", &input, &FAILING)?;
    assert_failing(
        &rt,
        alloc,
        "count 20 --order turns",
        SB.as_bytes(),
        &FAILING_COUNTS,
    )
}

/// Which call of the error sink fails, and what stands there. The line has 23 bytes.
const LOST: [(u64, &str); 3] = [
    (1, ""),
    (2, "perple: section "),
    (3, "perple: section line 8\n"),
];

#[test]
fn a_line_may_be_lost(rt: HostRuntime) -> Result<(), Fail> {
    let alloc = rt.alloc();
    let input = with_section(alloc, SB, "%events 1\nP0 0 0 pull\n")?;
    for (line, err) in LOST {
        let called = call(&rt, alloc, "judge", &input, Failing { line, ..NEVER })?;
        assert_ended(&rt, &called, "a line", 10, b"", err);
    }
    Ok(())
}
