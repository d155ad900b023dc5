//! Conjunctions of well-known litmus tests, shown or refuted. Which of them are possible is what `bench/axioms` says.
use litmus_reader::read_litmus;
use profile_check::{Checked, check};
use row_decision::{Shown, show_conjunction};
use run_judge::{Judgement, judge};
use seq_conv::Sequences;
use std::alloc::Global;
use std::test::Fail;

const SB: &str =
    "X86 SB\n{ }\n P0 | P1 ;\n MOV [x],$1 | MOV [y],$1 ;\n MOV EAX,[y] | MOV EAX,[x] ;\nexists (0:EAX=0 /\\ 1:EAX=0)\n";

const SBF: &str =
    "X86 SBF\n{ }\n P0 | P1 ;\n MOV [x],$1 | MOV [y],$1 ;\n MFENCE | MFENCE ;\n MOV EAX,[y] | MOV EAX,[x] ;\nexists (0:EAX=0 /\\ 1:EAX=0)\n";

/// Two threads store to a location, and each reads the other's store after its own.
const COW: &str =
    "X86 COW\n{ }\n P0 | P1 ;\n MOV [x],$1 | MOV [x],$2 ;\n MOV EAX,[x] | MOV EAX,[x] ;\nexists (0:EAX=2 /\\ 1:EAX=1)\n";

const FWD2: &str =
    "X86 FWD2\n{ }\n P0 ;\n MOV [x],$1 ;\n MOV [x],$2 ;\n MOV EAX,[x] ;\nexists (0:EAX=1)\n";

/// Coherence of reads, with two writers.
const CORR: &str =
    "X86 CORR\n{ }\n P0 | P1 | P2 ;\n MOV [x],$1 | MOV [x],$2 | MOV EAX,[x] ;\n | | MOV EBX,[x] ;\nexists (2:EAX=1 /\\ 2:EBX=2)\n";

const IWP26: &str =
    "X86 iwp2.6\n{ }\n P0 | P1 | P2 | P3 ;\n MOV [x],$1 | MOV [x],$2 | MOV EAX,[x] | MOV EAX,[x] ;\n | | MOV EBX,[x] | MOV EBX,[x] ;\nexists (2:EAX=1 /\\ 2:EBX=2 /\\ 3:EAX=2 /\\ 3:EBX=1)\n";

#[derive(Clone, Copy, Debug, PartialEq, Eq)]
enum Want {
    Legal,
    Wrong,
    Hidden(usize),
    Refuted,
    GaveUp,
}

fn read(alloc: Global, text: &str) -> Result<Checked, Fail> {
    let bytes = text.as_bytes();
    if bytes.len() > 65536 {
        return Err(Fail::from("the text is short"));
    }
    let test = read_litmus(alloc, bytes).ok().ok_or("it is a test")?;
    let checked = check(alloc, test).ok().ok_or("each atom has a kind")?;
    Ok(checked)
}

fn shown(alloc: Global, text: &str, most: u64) -> Result<Want, Fail> {
    let checked = read(alloc, text)?;
    let sequences = Sequences::of(alloc, checked.test())?;
    if checked.test().conjunctions() == 0 {
        return Err(Fail::from("it has a conjunction"));
    }
    let showing = show_conjunction(alloc, &checked, &sequences, 0, most)?;
    match &showing.shown {
        Shown::Run(run) => {
            let judgement = judge(alloc, checked.test(), &sequences, 1, run)?;
            if judgement == Judgement::Legal {
                Ok(Want::Legal)
            } else {
                Ok(Want::Wrong)
            }
        }
        Shown::Hidden(index) => Ok(Want::Hidden(*index)),
        Shown::Refuted(_) => Ok(Want::Refuted),
        Shown::GaveUp => Ok(Want::GaveUp),
    }
}

#[test]
fn conjunctions(rt: HostRuntime) -> Result<(), Fail> {
    let rows = [
        ("SB", SB, 20_000, Want::Legal),
        ("SBF", SBF, 20_000, Want::Refuted),
        ("COW", COW, 20_000, Want::Refuted),
        ("FWD2", FWD2, 20_000, Want::Hidden(0)),
        ("CORR", CORR, 20_000, Want::Legal),
        ("iwp2.6", IWP26, 20_000, Want::Refuted),
        ("iwp2.6 without steps", IWP26, 0, Want::GaveUp),
    ];
    for (name, text, most, want) in rows {
        assert_eq!(rt; shown(rt.alloc(), text, most)?, want, "{name}");
    }
    Ok(())
}
