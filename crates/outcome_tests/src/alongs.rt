//! Runs along edges of well-known litmus tests. Which reads can be so is what the x86-TSO machine says.
use choice_search::Pair;
use litmus_reader::read_litmus;
use order_run::run_along;
use run_judge::{Judgement, RunEvent, RunKind, judge};
use seq_conv::Sequences;
use std::alloc::{AllocError, Global};
use std::test::Fail;
use x86_subset::Test;

const SB: &str =
    "X86 SB\n{ }\n P0 | P1 ;\n MOV [x],$1 | MOV [y],$1 ;\n MOV EAX,[y] | MOV EAX,[x] ;\nexists (0:EAX=0 /\\ 1:EAX=0)\n";

const SBF: &str =
    "X86 SBF\n{ }\n P0 | P1 ;\n MOV [x],$1 | MOV [y],$1 ;\n MFENCE | MFENCE ;\n MOV EAX,[y] | MOV EAX,[x] ;\nexists (0:EAX=0 /\\ 1:EAX=0)\n";

const SBX: &str =
    "X86 SBX\n{ }\n P0 | P1 ;\n MOV EAX,$1 | MOV EAX,$1 ;\n XCHG [x],EAX | XCHG [y],EAX ;\n MOV EBX,[y] | MOV EBX,[x] ;\nexists (0:EBX=0 /\\ 1:EBX=0)\n";

/// Coherence of reads, with two writers.
const CORR: &str =
    "X86 CORR\n{ }\n P0 | P1 | P2 ;\n MOV [x],$1 | MOV [x],$2 | MOV EAX,[x] ;\n | | MOV EBX,[x] ;\nexists (2:EAX=1 /\\ 2:EBX=2)\n";

/// A read of the thread's own store, which waits.
const FWD2: &str =
    "X86 FWD2\n{ }\n P0 ;\n MOV [x],$1 ;\n MOV [x],$2 ;\n MOV EAX,[x] ;\nexists (0:EAX=2)\n";

/// Edges, 16 places to a thread, and the values that are read, by thread and then by place, or none where the edges
/// have a cycle.
#[derive(Clone, Copy)]
struct Case {
    text: &'static str,
    edges: &'static [(u32, u32)],
    reads: Option<&'static [u64]>,
}

fn case_of(
    text: &'static str,
    edges: &'static [(u32, u32)],
    reads: Option<&'static [u64]>,
) -> Case {
    Case { text, edges, reads }
}

fn read(alloc: Global, text: &str) -> Result<Test, Fail> {
    let bytes = text.as_bytes();
    if bytes.len() > 65536 {
        return Err(Fail::from("the text is short"));
    }
    let test = read_litmus(alloc, bytes).ok().ok_or("it is a test")?;
    Ok(test)
}

fn pairs(alloc: Global, edges: &[(u32, u32)]) -> Result<Vec<Pair>, AllocError> {
    let mut pairs = Vec::new(alloc);
    for (first, second) in edges {
        pairs.push(Pair {
            first: *first,
            second: *second,
        })?;
    }
    Ok(pairs)
}

/// The values that are read, by thread.
fn values(alloc: Global, run: &[RunEvent]) -> Result<Vec<u64>, AllocError> {
    let mut values = Vec::new(alloc);
    for thread in 0..8u32 {
        for event in run {
            if event.thread == thread {
                match event.kind {
                    RunKind::Read { value } | RunKind::Exchange { value } => values.push(value)?,
                    _ => {}
                }
            }
        }
    }
    Ok(values)
}

#[test]
fn runs(rt: HostRuntime) -> Result<(), Fail> {
    let cases = [
        case_of(SB, &[(1, 16), (17, 0)], Some(&[0, 0])),
        case_of(SB, &[(0, 17), (16, 1)], Some(&[1, 1])),
        case_of(SB, &[(1, 16), (0, 17)], Some(&[0, 1])),
        case_of(SBF, &[(0, 2), (16, 18), (2, 16), (18, 0)], None),
        case_of(SBF, &[(0, 2), (16, 18), (2, 16), (0, 18)], Some(&[0, 1])),
        case_of(SBX, &[(0, 1), (16, 17), (1, 16), (17, 0)], None),
        case_of(
            SBX,
            &[(0, 1), (16, 17), (1, 16), (0, 17)],
            Some(&[0, 0, 0, 1]),
        ),
        case_of(
            CORR,
            &[(32, 33), (0, 32), (32, 16), (16, 33), (0, 16)],
            Some(&[1, 2]),
        ),
        case_of(
            CORR,
            &[(32, 33), (0, 32), (32, 16), (16, 33), (16, 0)],
            None,
        ),
        case_of(FWD2, &[(0, 1)], Some(&[2])),
    ];
    for (k, case) in cases.iter().enumerate() {
        let test = read(rt.alloc(), case.text)?;
        let sequences = Sequences::of(rt.alloc(), &test)?;
        let edges = pairs(rt.alloc(), case.edges)?;
        match run_along(rt.alloc(), &test, &sequences, &edges)? {
            Some(run) => {
                let judged = judge(rt.alloc(), &test, &sequences, 1, &run)?;
                assert_eq!(rt; judged, Judgement::Legal, "case {k}");
                let read = values(rt.alloc(), &run)?;
                let wanted = case.reads.ok_or("there is a run")?;
                assert_eq!(rt; read.as_slice(), wanted, "case {k}");
            }
            None => assert_eq!(rt; case.reads.is_none(), true, "case {k}"),
        }
    }
    Ok(())
}
