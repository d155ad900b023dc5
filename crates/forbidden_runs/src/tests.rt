//! Texts of examples/, by `verdict` and `hidden_read` and by `perple`.
use super::*;
use decision::hidden_read;
use litmus_reader::read_litmus;
use perp_base::{MemSink, MemSource};
use perple_core::{Field, NoGate, perple};
use profile_check::check;
use seq_conv::Sequences;
use std::alloc::Global;
use std::test::Fail;
use std::thread::Threads;
use verdict::{Verdict, verdict};

/// A text, and what `run 50 --count both` writes of it where its one conjunction has a cycle or a hidden read.
const ROWS: [(&str, Option<&str>); 12] = [
    (
        "X86 BUF\n{ }\n P0 ;\n MOV [x],$1 ;\n MOV [y],$1 ;\n MOV EAX,[x] ;\nexists (0:EAX=1)\n",
        None,
    ),
    (
        "X86 COWW\n{ }\n P0 ;\n MOV [x],$1 ;\n MOV [x],$2 ;\n MOV EAX,[x] ;\nexists (0:EAX=1)\n",
        Some(
            "Test COWW\nThreads 1\nIterations 50\nCondition exists 1\nFrames 50\nExhaustive 0\nHeuristic 0\nSeen no\n",
        ),
    ),
    (
        "X86 SB\n\"Fre PodWR Fre PodWR\"\nPrefetch=0:x=F,0:y=T,1:y=F,1:x=T\nCom=Fr Fr\nOrig=Fre PodWR Fre PodWR\n{\n}\n P0          | P1          ;\n MOV [x],$1  | MOV [y],$1  ;\n             |             ;\n MOV EAX,[y] | MOV EAX,[x] ;\nlocations [x; y;]\nexists (0:EAX=0 /\\ 1:EAX=0)\n",
        None,
    ),
    (
        "X86 IRIW\n{ }\n P0 | P1 | P2 | P3 ;\n MOV [x],$1 | MOV EAX,[x] | MOV [y],$1 | MOV EAX,[y] ;\n | MOV EBX,[y] | | MOV EBX,[x] ;\nexists (1:EAX=1 /\\ 1:EBX=0 /\\ 3:EAX=1 /\\ 3:EBX=0)\n",
        Some(
            "Test IRIW\nThreads 4\nIterations 50\nCondition exists 4\nFrames 6250000\nExhaustive 0\nHeuristic 0\nSeen no\n",
        ),
    ),
    (
        "X86 LB\n{ }\n P0 | P1 ;\n MOV EAX,[x] | MOV EAX,[y] ;\n MOV [y],$1 | MOV [x],$1 ;\nexists (0:EAX=1 /\\ 1:EAX=1)\n",
        Some(
            "Test LB\nThreads 2\nIterations 50\nCondition exists 2\nFrames 2500\nExhaustive 0\nHeuristic 0\nSeen no\n",
        ),
    ),
    (
        "X86 MP\n{ }\n P0 | P1 ;\n MOV [x],$1 | MOV EAX,[y] ;\n MOV [y],$1 | MOV EBX,[x] ;\nexists (1:EAX=1 /\\ 1:EBX=0)\n",
        Some(
            "Test MP\nThreads 2\nIterations 50\nCondition exists 2\nFrames 2500\nExhaustive 0\nHeuristic 0\nSeen no\n",
        ),
    ),
    (
        "X86 ONE\n{ }\n P0 ;\n MOV [x],$1 ;\n MOV EAX,[x] ;\nexists (0:EAX=1)\n",
        None,
    ),
    (
        "X86 OWN\n{ }\n P0 | P1 ;\n MOV [x],$1 | MOV [y],$1 ;\n MOV EAX,[x] | MOV EAX,[y] ;\nexists (0:EAX=1 /\\ 1:EAX=1)\n",
        None,
    ),
    (
        "X86 SB\n{ x=0; y=0; }\n P0 | P1 ;\n MOV [x],$1 | MOV [y],$1 ;\n MOV EAX,[y] | MOV EAX,[x] ;\nexists (0:EAX=0 /\\ 1:EAX=0)\n",
        None,
    ),
    (
        "X86 SBF\n{ }\n P0 | P1 ;\n MOV [x],$1 | MOV [y],$1 ;\n MFENCE | MFENCE ;\n MOV EAX,[y] | MOV EAX,[x] ;\n~exists (0:EAX=0 /\\ 1:EAX=0)\n",
        Some(
            "Test SBF\nThreads 2\nIterations 50\nCondition ~exists 2\nFrames 2500\nExhaustive 0\nHeuristic 0\nSeen no\n",
        ),
    ),
    (
        "X86 SBX\n{ }\n P0 | P1 ;\n MOV EAX,$1 | mov eax,1 ;\n XCHG [x],EAX | xchg eax,[y] ;\n MOV EBX,[y] | MOV EBX,[x] ;\nexists (0:EBX=0 /\\ 1:EBX=0)\n",
        Some(
            "Test SBX\nThreads 2\nIterations 50\nCondition exists 2\nFrames 2500\nExhaustive 0\nHeuristic 0\nSeen no\n",
        ),
    ),
    (
        "X86 WRF\n{ }\n P0 | P1 ;\n MOV [x],$1 | MOV EAX,[x] ;\n MFENCE | ;\nexists (1:EAX=0)\n",
        None,
    ),
];

/// Whether the one conjunction of a text has a cycle or a hidden read.
fn is_forbidden(alloc: Global, text: &[u8]) -> Result<bool, Fail> {
    if text.len() > 65536 {
        return Ok(false);
    }
    let test = read_litmus(alloc, text).ok().ok_or("the text is a test")?;
    let checked = check(alloc, test).ok().ok_or("each atom has a kind")?;
    let sequences = Sequences::of(alloc, checked.test())?;
    match verdict(alloc, &checked, &sequences)? {
        Verdict::Forbidden(_) => Ok(true),
        Verdict::Open { conjunction } => {
            Ok(hidden_read(&checked, &sequences, conjunction).is_some())
        }
    }
}

/// The number of the status of `run 50 --count both` on a text, and what it writes to both sinks.
fn ended<R: Threads + Sync>(
    rt: &R,
    alloc: Global,
    text: &[u8],
) -> Result<(u8, Vec<u8>, Vec<u8>), Fail> {
    let mut words = Vec::new(alloc);
    for word in ["run", "50", "--count", "both"] {
        words.push(String::from_str(alloc, word)?)?;
    }
    let mut source = MemSource::new(alloc, text, 1024, &[])?;
    let mut out = MemSink::new(alloc, 1024, 1024, &[])?;
    let mut err = MemSink::new(alloc, 128, 128, &[])?;
    let field = Field::new(alloc)?;
    let outcome = perple(
        rt,
        alloc,
        &words,
        &mut source,
        &mut out,
        &mut err,
        field,
        &NoGate,
    );
    Ok((
        outcome.status.number(),
        Vec::from_slice(alloc, out.written())?,
        Vec::from_slice(alloc, err.written())?,
    ))
}

#[test]
fn forbidden_examples_are_reported_empty(rt: HostRuntime) -> Result<(), Fail> {
    let alloc = rt.alloc();
    for (text, report) in ROWS {
        let bytes = text.as_bytes();
        assert_eq!(rt;
            is_forbidden(alloc, bytes)?,
            report.is_some(),
            "verdict on {text}"
        );
        if let Some(report) = report {
            let (status, out, err) = ended(&rt, alloc, bytes)?;
            assert_eq!(rt; (status, err.is_empty()), (0, true), "end of {text}");
            assert_eq!(rt; out.as_slice(), report.as_bytes(), "run of {text}");
        }
    }
    Ok(())
}
