//! Verdicts of well-known litmus tests.
use profile_check::{Checked, check};
use seq_conv::Sequences;
use std::alloc::Global;
use std::test::Fail;
use verdict::{Node, Verdict, is_cycle, verdict};
use worked_texts::{IRIW, LB, MP, OWN, SB, SBF, SBX, test_of};

/// Store buffering with fences, where another value is enough.
const SBF_OR_ONE: &str =
    "X86 SBF\n{ }\n P0 | P1 ;\n MOV [x],$1 | MOV [y],$1 ;\n MFENCE | MFENCE ;\n MOV EAX,[y] | MOV EAX,[x] ;\nexists (0:EAX=0 /\\ 1:EAX=0 \\/ 0:EAX=1)\n";

/// The test of a text, inside the profile.
fn checked(alloc: Global, text: &str) -> Result<Checked, Fail> {
    let test = test_of(alloc, text).ok_or("it is a test")?;
    let checked = check(alloc, test).ok().ok_or("each atom has a kind")?;
    Ok(checked)
}

/// The first conjunction that is open; None where each has a cycle.
fn open_at(alloc: Global, checked: &Checked) -> Result<Option<u32>, Fail> {
    let sequences = Sequences::of(alloc, checked.test())?;
    let cycles = match verdict(alloc, checked, &sequences)? {
        Verdict::Open { conjunction } => return Ok(Some(conjunction)),
        Verdict::Forbidden(cycles) => cycles,
    };
    for c in 0..checked.test().conjunctions() {
        let cycle = cycles.get(c).ok_or("each conjunction has a cycle")?;
        is_cycle(checked, &sequences, c as u32, cycle)
            .then_some(())
            .ok_or("the nodes are a cycle")?;
    }
    Ok(None)
}

#[test]
fn forbidden_and_open(rt: HostRuntime) -> Result<(), Fail> {
    let alloc = rt.alloc();
    let rows = [
        ("SB", SB, Some(0)),
        ("OWN", OWN, Some(0)),
        ("SBF", SBF, None),
        ("SBX", SBX, None),
        ("LB", LB, None),
        ("MP", MP, None),
        ("IRIW", IRIW, None),
        ("SBF, or another value", SBF_OR_ONE, Some(1)),
    ];
    for (name, text, want) in rows {
        assert_eq!(rt; open_at(alloc, &checked(alloc, text)?)?, want, "{name}");
    }
    Ok(())
}

fn at(thread: u32, place: u32) -> Node {
    Node { thread, place }
}

#[test]
fn cycles_are_closed(rt: HostRuntime) -> Result<(), Fail> {
    let alloc = rt.alloc();
    let checked = checked(alloc, SBF_OR_ONE)?;
    let sequences = Sequences::of(alloc, checked.test())?;
    let whole = [at(0, 0), at(0, 2), at(1, 0), at(1, 2)];
    let back = [at(1, 2), at(1, 0), at(0, 2), at(0, 0)];
    let over_a_fence = [at(0, 0), at(0, 1), at(0, 2), at(1, 0), at(1, 2)];
    let elsewhere = [at(9, 0), at(0, 99)];
    let rows: [(&[Node], bool); 7] = [
        (&whole, true),
        (&whole[1..], false),
        (&whole[..1], false),
        (&[], false),
        (&back, false),
        (&over_a_fence, false),
        (&elsewhere, false),
    ];
    for (i, (nodes, want)) in rows.iter().enumerate() {
        assert_eq!(rt; is_cycle(&checked, &sequences, 0, nodes), *want, "row {i}");
    }
    assert!(rt; checked.test().conjunctions() == 2);
    assert!(rt; !is_cycle(&checked, &sequences, 1, &whole));
    Ok(())
}
