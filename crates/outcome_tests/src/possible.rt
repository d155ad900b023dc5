//! Rows of well-known litmus tests. Which of them are possible is what `bench/axioms` says.
use row_decision::{Front, FrontAnswer, Register, decide_front, hold_reads};
use seq_conv::Sequences;
use std::alloc::Global;
use std::test::Fail;
use worked_texts::{COWW, MP, SB, SBF, test_of};
use x86_subset::Reg;

/// Coherence of reads, with two writers.
const CORR: &str =
    "X86 CORR\n{ }\n P0 | P1 | P2 ;\n MOV [x],$1 | MOV [x],$2 | MOV EAX,[x] ;\n | | MOV EBX,[x] ;\nexists (2:EAX=1 /\\ 2:EBX=2)\n";

const IWP26: &str =
    "X86 iwp2.6\n{ }\n P0 | P1 | P2 | P3 ;\n MOV [x],$1 | MOV [x],$2 | MOV EAX,[x] | MOV EAX,[x] ;\n | | MOV EBX,[x] | MOV EBX,[x] ;\nexists (2:EAX=1 /\\ 2:EBX=2 /\\ 3:EAX=2 /\\ 3:EBX=1)\n";

/// No cycle of what is forced refutes it: the search has to branch.
const BRANCH: &str =
    "X86 BRANCH\n{ }\n P0 | P1 | P2 | P3 | P4 | P5 ;\n MOV [x],$1 | MOV [z],$1 | MOV [y],$2 | MOV EAX,[d] | MOV [a],$1 | MOV [b],$2 ;\n MFENCE | MOV [y],$1 | MOV [z],$2 | MOV EBX,[e] | MOV [b],$1 | MOV [a],$2 ;\n MOV EAX,[y] | MOV EAX,[c] | MOV [c],$1 | MOV ECX,[x] | MOV [d],$1 | MOV [e],$1 ;\n MOV EBX,[z] | MOV [x],$2 | | | | ;\n | MFENCE | | | | ;\n | MOV EBX,[a] | | | | ;\n | MOV ECX,[b] | | | | ;\nexists (0:EAX=2 /\\ 0:EBX=1 /\\ 1:EAX=1 /\\ 1:EBX=1 /\\ 1:ECX=2 /\\ 3:EAX=1 /\\ 3:EBX=1 /\\ 3:ECX=1)\n";

/// A register that holds a constant at the end, and one that holds a read.
const CONSTANT: &str =
    "X86 CONSTANT\n{ }\n P0 ;\n MOV EBX,[x] ;\n MOV EAX,$1 ;\n MOV [x],$1 ;\nexists (0:EBX=0)\n";

/// The values that the registers of a test's condition have in a row, in the condition's order.
#[derive(Clone, Copy)]
struct Row {
    text: &'static str,
    values: &'static [u32],
    front: Front,
}

fn row_of(text: &'static str, values: &'static [u32], front: Front) -> Row {
    Row {
        text,
        values,
        front,
    }
}

/// What is decided of a row.
fn decided(alloc: Global, text: &str, values: &[u32], most: u64) -> Result<FrontAnswer, Fail> {
    let test = test_of(alloc, text).ok_or("it is a test")?;
    let sequences = Sequences::of(alloc, &test)?;
    let mut registers = Vec::new(alloc);
    for atom in test.atoms() {
        registers.push(Register {
            thread: atom.thread,
            reg: atom.reg,
        })?;
    }
    if !hold_reads(&test, &registers) {
        return Err(Fail::from("each register holds a read"));
    }
    let answer = decide_front(alloc, &test, &sequences, &registers, values, most)?;
    Ok(answer)
}

#[test]
fn rows(rt: HostRuntime) -> Result<(), Fail> {
    let rows = [
        row_of(SB, &[0, 0], Front::Possible),
        row_of(SB, &[1, 1], Front::Possible),
        row_of(SB, &[2, 0], Front::Impossible),
        row_of(SB, &[1], Front::Impossible),
        row_of(SBF, &[0, 0], Front::Impossible),
        row_of(SBF, &[0, 1], Front::Possible),
        row_of(MP, &[0, 1], Front::Possible),
        row_of(MP, &[1, 0], Front::Impossible),
        row_of(COWW, &[0], Front::Impossible),
        row_of(COWW, &[1], Front::Impossible),
        row_of(COWW, &[2], Front::Possible),
        row_of(CORR, &[0, 2], Front::Possible),
        row_of(CORR, &[2, 1], Front::Possible),
        row_of(CORR, &[2, 0], Front::Impossible),
        row_of(IWP26, &[1, 2, 2, 1], Front::Impossible),
        row_of(IWP26, &[0, 2, 2, 1], Front::Possible),
        row_of(IWP26, &[1, 2, 0, 2], Front::Possible),
        row_of(BRANCH, &[2, 1, 1, 1, 2, 1, 1, 1], Front::Impossible),
        row_of(BRANCH, &[2, 2, 1, 2, 2, 1, 1, 1], Front::Possible),
    ];
    for (k, row) in rows.iter().enumerate() {
        let answer = decided(rt.alloc(), row.text, row.values, 20_000)?;
        assert_eq!(rt; answer.front, row.front, "row {k}");
    }
    Ok(())
}

#[test]
fn steps_run_out(rt: HostRuntime) -> Result<(), Fail> {
    let answer = decided(rt.alloc(), BRANCH, &[2, 1, 1, 1, 2, 1, 1, 1], 2)?;
    assert_eq!(rt; answer.front, Front::GaveUp);
    assert_eq!(rt; answer.steps, 2);
    Ok(())
}

#[test]
fn constants_are_no_reads(rt: HostRuntime) -> Result<(), Fail> {
    let test = test_of(rt.alloc(), CONSTANT).ok_or("it is a test")?;
    for (thread, reg, want) in [
        (0, Reg::Ebx, true),
        (0, Reg::Eax, false),
        (0, Reg::Ecx, false),
        (1, Reg::Ebx, false),
    ] {
        assert_eq!(rt; hold_reads(&test, &[Register { thread, reg }]), want);
    }
    Ok(())
}
