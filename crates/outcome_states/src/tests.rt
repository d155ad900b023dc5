//! The states of well-known litmus tests, as `bench/axioms` tells them: by the axioms of x86-TSO over all candidate
//! executions.
use super::*;
use litmus_reader::read_litmus;
use profile_check::ProfileKind;
use std::alloc::Global;
use std::test::Fail;
use x86_subset::Test;

/// Store buffering.
const SB: &str =
    "X86 SB\n{ }\n P0 | P1 ;\n MOV [x],$1 | MOV [y],$1 ;\n MOV EAX,[y] | MOV EAX,[x] ;\nexists (0:EAX=0 /\\ 1:EAX=0)\n";

/// Store buffering with a fence in each thread, and `~exists`.
const SBF: &str =
    "X86 SBF\n{ }\n P0 | P1 ;\n MOV [x],$1 | MOV [y],$1 ;\n MFENCE | MFENCE ;\n MOV EAX,[y] | MOV EAX,[x] ;\n~exists (0:EAX=0 /\\ 1:EAX=0)\n";

/// Store buffering with exchanges for stores.
const SBX: &str =
    "X86 SBX\n{ }\n P0 | P1 ;\n MOV EBX,$1 | MOV EBX,$1 ;\n XCHG [x],EBX | XCHG [y],EBX ;\n MOV EAX,[y] | MOV EAX,[x] ;\nexists (0:EAX=0 /\\ 1:EAX=0)\n";

/// Message passing, with the condition's atoms in another order than the registers'.
const MP: &str =
    "X86 MP\n{ }\n P0 | P1 ;\n MOV [x],$1 | MOV EAX,[y] ;\n MOV [y],$1 | MOV EBX,[x] ;\nexists (1:EBX=0 /\\ 1:EAX=1)\n";

/// Load buffering.
const LB: &str =
    "X86 LB\n{ }\n P0 | P1 ;\n MOV EAX,[x] | MOV EAX,[y] ;\n MOV [y],$1 | MOV [x],$1 ;\nexists (0:EAX=1 /\\ 1:EAX=1)\n";

/// Independent reads of independent writes.
const IRIW: &str =
    "X86 IRIW\n{ }\n P0 | P1 | P2 | P3 ;\n MOV [x],$1 | MOV EAX,[x] | MOV [y],$1 | MOV EAX,[y] ;\n | MOV EBX,[y] | | MOV EBX,[x] ;\nexists (1:EAX=1 /\\ 1:EBX=0 /\\ 3:EAX=1 /\\ 3:EBX=0)\n";

/// Coherence of reads, with two writers.
const CORR: &str =
    "X86 CoRR\n{ }\n P0 | P1 | P2 ;\n MOV [x],$1 | MOV [x],$2 | MOV EAX,[x] ;\n | | MOV EBX,[x] ;\nexists (2:EAX=1 /\\ 2:EBX=2)\n";

/// Coherence of an own write and a read, with two writers.
const COWR: &str =
    "X86 CoWR\n{ }\n P0 | P1 ;\n MOV [x],$1 | MOV [x],$2 ;\n MOV EAX,[x] | MOV EDI,[x] ;\nexists (0:EAX=2 /\\ 1:EDI=1)\n";

/// Two readers that agree on the order of two writes.
const IWP26: &str =
    "X86 iwp2.6\n{ }\n P0 | P1 | P2 | P3 ;\n MOV [x],$1 | MOV [x],$2 | MOV EAX,[x] | MOV EAX,[x] ;\n | | MOV EBX,[x] | MOV EBX,[x] ;\nexists (2:EAX=1 /\\ 2:EBX=2 /\\ 3:EAX=2 /\\ 3:EBX=1)\n";

/// Two stores of one value.
const SAME: &str =
    "X86 SAME\n{ }\n P0 | P1 | P2 ;\n MOV [x],$7 | MOV [x],$7 | MOV EAX,[x] ;\n | | MOV EBX,[x] ;\nexists (2:EAX=7 /\\ 2:EBX=0)\n";

/// A store of 0, which is the initial value too.
const ZERO: &str =
    "X86 ZERO\n{ }\n P0 | P1 ;\n MOV [x],$0 | MOV EAX,[x] ;\n MOV [x],$3 | MOV EBX,[x] ;\nexists (1:EAX=3 /\\ 1:EBX=0)\n";

/// One state, which satisfies the expression behind `~exists`.
const ALWAYS: &str = "X86 ALWAYS\n{ }\n P0 ;\n MOV [x],$5 ;\n MOV EAX,[x] ;\n~exists (0:EAX=5)\n";

/// A store that a later one of its thread hides.
const OWN: &str =
    "X86 OWN\n{ }\n P0 | P1 ;\n MOV [x],$1 | MOV [x],$2 ;\n MOV [x],$3 | ;\n MOV EAX,[x] | ;\nexists (0:EAX=1 \\/ 0:EAX=2)\n";

/// Two conjunctions.
const EITHER: &str =
    "X86 EITHER\n{ }\n P0 | P1 ;\n MOV [x],$1 | MOV [y],$1 ;\n MOV EAX,[y] | MOV EAX,[x] ;\nexists (1:EAX=0 /\\ 0:EAX=1 \\/ 0:EAX=0 /\\ 1:EAX=1)\n";

/// A register that is loaded twice, and values of several digits.
const LAST: &str =
    "X86 LAST\n{ }\n P0 | P1 ;\n MOV EAX,[x] | MOV [x],$10 ;\n MOV EAX,[y] | MOV [y],$9 ;\n MOV ESI,[x] | ;\nexists (0:ESI=10 /\\ 0:EAX=0)\n";

/// The second atom's register holds a constant.
const CONSTANT: &str =
    "X86 CONSTANT\n{ }\n P0 | P1 ;\n MOV EBX,[x] | MOV [x],$1 ;\n MOV EAX,$1 | ;\nexists (0:EBX=1 /\\ 0:EAX=1)\n";

/// The first atom names no thread, and the second one's register holds a constant.
const NOTHREAD: &str =
    "X86 NOTHREAD\n{ }\n P0 | P1 ;\n MOV EBX,[x] | MOV [x],$1 ;\nexists (2:EBX=1 /\\ 0:EAX=1)\n";

/// The second atom's register was never loaded, and the third names no thread.
const UNUSED: &str =
    "X86 UNUSED\n{ }\n P0 | P1 ;\n MOV EBX,[x] | MOV [x],$1 ;\nexists (0:EBX=1 /\\ 1:ECX=0 \\/ 2:EAX=0)\n";

const SB_STATES: &str =
    "Test SB Allowed\nStates 4\n0:EAX=0; 1:EAX=0;\n0:EAX=0; 1:EAX=1;\n0:EAX=1; 1:EAX=0;\n0:EAX=1; 1:EAX=1;\nObservation SB Sometimes 1 3\n";

const SBF_STATES: &str =
    "Test SBF Forbidden\nStates 3\n0:EAX=0; 1:EAX=1;\n0:EAX=1; 1:EAX=0;\n0:EAX=1; 1:EAX=1;\nObservation SBF Never 0 3\n";

const SBX_STATES: &str =
    "Test SBX Allowed\nStates 3\n0:EAX=0; 1:EAX=1;\n0:EAX=1; 1:EAX=0;\n0:EAX=1; 1:EAX=1;\nObservation SBX Never 0 3\n";

const MP_STATES: &str =
    "Test MP Allowed\nStates 3\n1:EAX=0; 1:EBX=0;\n1:EAX=0; 1:EBX=1;\n1:EAX=1; 1:EBX=1;\nObservation MP Never 0 3\n";

const LB_STATES: &str =
    "Test LB Allowed\nStates 3\n0:EAX=0; 1:EAX=0;\n0:EAX=0; 1:EAX=1;\n0:EAX=1; 1:EAX=0;\nObservation LB Never 0 3\n";

const IRIW_STATES: &str =
    "Test IRIW Allowed\nStates 15\n1:EAX=0; 1:EBX=0; 3:EAX=0; 3:EBX=0;\n1:EAX=0; 1:EBX=0; 3:EAX=0; 3:EBX=1;\n1:EAX=0; 1:EBX=0; 3:EAX=1; 3:EBX=0;\n1:EAX=0; 1:EBX=0; 3:EAX=1; 3:EBX=1;\n1:EAX=0; 1:EBX=1; 3:EAX=0; 3:EBX=0;\n1:EAX=0; 1:EBX=1; 3:EAX=0; 3:EBX=1;\n1:EAX=0; 1:EBX=1; 3:EAX=1; 3:EBX=0;\n1:EAX=0; 1:EBX=1; 3:EAX=1; 3:EBX=1;\n1:EAX=1; 1:EBX=0; 3:EAX=0; 3:EBX=0;\n1:EAX=1; 1:EBX=0; 3:EAX=0; 3:EBX=1;\n1:EAX=1; 1:EBX=0; 3:EAX=1; 3:EBX=1;\n1:EAX=1; 1:EBX=1; 3:EAX=0; 3:EBX=0;\n1:EAX=1; 1:EBX=1; 3:EAX=0; 3:EBX=1;\n1:EAX=1; 1:EBX=1; 3:EAX=1; 3:EBX=0;\n1:EAX=1; 1:EBX=1; 3:EAX=1; 3:EBX=1;\nObservation IRIW Never 0 15\n";

const CORR_STATES: &str =
    "Test CoRR Allowed\nStates 7\n2:EAX=0; 2:EBX=0;\n2:EAX=0; 2:EBX=1;\n2:EAX=0; 2:EBX=2;\n2:EAX=1; 2:EBX=1;\n2:EAX=1; 2:EBX=2;\n2:EAX=2; 2:EBX=1;\n2:EAX=2; 2:EBX=2;\nObservation CoRR Sometimes 1 6\n";

const COWR_STATES: &str =
    "Test CoWR Allowed\nStates 3\n0:EAX=1; 1:EDI=1;\n0:EAX=1; 1:EDI=2;\n0:EAX=2; 1:EDI=2;\nObservation CoWR Never 0 3\n";

const SAME_STATES: &str =
    "Test SAME Allowed\nStates 3\n2:EAX=0; 2:EBX=0;\n2:EAX=0; 2:EBX=7;\n2:EAX=7; 2:EBX=7;\nObservation SAME Never 0 3\n";

const ZERO_STATES: &str =
    "Test ZERO Allowed\nStates 3\n1:EAX=0; 1:EBX=0;\n1:EAX=0; 1:EBX=3;\n1:EAX=3; 1:EBX=3;\nObservation ZERO Never 0 3\n";

const ALWAYS_STATES: &str =
    "Test ALWAYS Forbidden\nStates 1\n0:EAX=5;\nObservation ALWAYS Always 1 0\n";

const OWN_STATES: &str =
    "Test OWN Allowed\nStates 2\n0:EAX=2;\n0:EAX=3;\nObservation OWN Sometimes 1 1\n";

const EITHER_STATES: &str =
    "Test EITHER Allowed\nStates 4\n0:EAX=0; 1:EAX=0;\n0:EAX=0; 1:EAX=1;\n0:EAX=1; 1:EAX=0;\n0:EAX=1; 1:EAX=1;\nObservation EITHER Sometimes 2 2\n";

const LAST_STATES: &str =
    "Test LAST Allowed\nStates 3\n0:EAX=0; 0:ESI=0;\n0:EAX=0; 0:ESI=10;\n0:EAX=9; 0:ESI=10;\nObservation LAST Sometimes 1 2\n";

fn read(alloc: Global, text: &str) -> Result<Test, Fail> {
    let bytes = text.as_bytes();
    if bytes.len() > 65536 {
        return Err(Fail::from("the text is short"));
    }
    let test = read_litmus(alloc, bytes).ok().ok_or("it is a test")?;
    Ok(test)
}

/// What is answered of a text.
fn answered(alloc: Global, text: &str) -> Result<Result<String, Refused>, Fail> {
    let test = read(alloc, text)?;
    if !test.name().bytes().is_ascii() {
        return Err(Fail::from("its name is ASCII"));
    }
    let answer = outcomes_text(alloc, &test)?;
    Ok(answer)
}

#[test]
fn each_state_once(rt: HostRuntime) -> Result<(), Fail> {
    let tests = [
        (SB, SB_STATES),
        (SBF, SBF_STATES),
        (SBX, SBX_STATES),
        (MP, MP_STATES),
        (LB, LB_STATES),
        (IRIW, IRIW_STATES),
        (CORR, CORR_STATES),
        (COWR, COWR_STATES),
        (SAME, SAME_STATES),
        (ZERO, ZERO_STATES),
        (ALWAYS, ALWAYS_STATES),
        (OWN, OWN_STATES),
        (EITHER, EITHER_STATES),
        (LAST, LAST_STATES),
    ];
    for (text, states) in tests {
        match answered(rt.alloc(), text)? {
            Ok(answer) => assert_eq!(rt; answer.as_str(), states),
            Err(_) => return Err(Fail::from("its states are listed")),
        }
    }
    Ok(())
}

#[test]
fn states_of_four_reads(rt: HostRuntime) -> Result<(), Fail> {
    match answered(rt.alloc(), IWP26)? {
        Ok(answer) => {
            let first = "Test iwp2.6 Allowed\nStates 47\n2:EAX=0; 2:EBX=0; 3:EAX=0; 3:EBX=0;\n";
            assert!(rt; answer.as_str().starts_with(first));
            let last = "\n2:EAX=2; 2:EBX=2; 3:EAX=2; 3:EBX=2;\nObservation iwp2.6 Never 0 47\n";
            assert!(rt; answer.as_str().ends_with(last));
        }
        Err(_) => return Err(Fail::from("its states are listed")),
    }
    Ok(())
}

#[test]
fn registers_without_reads(rt: HostRuntime) -> Result<(), Fail> {
    let tests = [
        (CONSTANT, 2, ProfileKind::NotLoaded),
        (NOTHREAD, 1, ProfileKind::NoSuchThread),
        (UNUSED, 2, ProfileKind::NotLoaded),
    ];
    for (text, atom, kind) in tests {
        match answered(rt.alloc(), text)? {
            Ok(_) => return Err(Fail::from("it is refused")),
            Err(refused) => assert_eq!(rt; refused, Refused::Unread { atom, kind }),
        }
    }
    Ok(())
}
