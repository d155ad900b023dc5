//! The command `show`: the run that it writes, and what it says where it writes none.
use super::*;

/// Each thread reads the other's word after a fence, and then its own: the atoms of the first reads are exact or fr
/// atoms, and those of the second are rf atoms of the own newest store.
const TWICE: &str =
    "X86 TWICE\n{ }\n P0 | P1 ;\n MOV [x],$1 | MOV [y],$1 ;\n MFENCE | MFENCE ;\n MOV EAX,[y] | MOV EAX,[x] ;\n MOV EBX,[x] | MOV EBX,[y] ;\n";

/// Each thread stores to its own word twice, and reads it and the other's after a fence.
const HIDDEN: &str =
    "X86 HIDDEN\n{ }\n P0 | P1 ;\n MOV [x],$1 | MOV [y],$1 ;\n MOV [x],$2 | MOV [y],$2 ;\n MFENCE | MFENCE ;\n MOV EAX,[x] | MOV EAX,[y] ;\n MOV EBX,[y] | MOV EBX,[x] ;\n";

/// The own store is hidden by the next, whatever the other thread stores.
const HIDES: &str =
    "X86 HIDES\n{ }\n P0 | P1 ;\n MOV [x],$1 | MOV [x],$3 ;\n MOV [x],$2 | ;\n MOV EAX,[x] | ;\n";

const COWW: &str =
    "X86 COWW\n{ }\n P0 ;\n MOV [x],$1 ;\n MOV [x],$2 ;\n MOV EAX,[x] ;\nexists (0:EAX=1)\n";

const LATE: &str = "X86 LATE\n{ }\n P0 ;\n MOV EAX,[x] ;\n MOV [x],$1 ;\nexists (0:EAX=1)\n";

/// A test, its condition where the text has none, two lines of the run that is shown, and what `judge` says of that
/// run.
const SHOWN: [(&str, &str, [&str; 2], &str); 6] = [
    (
        SB,
        "",
        ["\nP0 0 1 read 0\n", "\nP1 0 1 read 0\n"],
        "Legal 6\n",
    ),
    // the first conjunction has a cycle
    (
        EITHER,
        "",
        ["%events 1\n", "\nP0 0 2 read 1\n"],
        "Legal 8\n",
    ),
    (
        TWICE,
        "exists (0:EAX=0 /\\ 1:EAX=0 \\/ 0:EAX=1 /\\ 1:EAX=1 \\/ 0:EAX=0)\n",
        ["\nP0 0 2 read 1\n", "\nP1 0 2 read 1\n"],
        "Legal 10\n",
    ),
    (
        OWN,
        "",
        ["\nP0 0 1 read 1\n", "\nP1 0 1 read 1\n"],
        "Legal 6\n",
    ),
    (
        TWICE,
        "exists (0:EAX=0 /\\ 1:EAX=0 \\/ 0:EAX=0 /\\ 0:EBX=1)\n",
        ["\nP0 0 2 read 0\n", "\nP0 0 3 read 1\n"],
        "Legal 10\n",
    ),
    // the first conjunction names a store that the next one hides
    (
        HIDDEN,
        "exists (0:EAX=1 \\/ 0:EAX=2 /\\ 0:EBX=0 \\/ 1:EAX=2)\n",
        ["\nP0 0 3 read 2\n", "\nP0 0 4 read 0\n"],
        "Legal 14\n",
    ),
];

/// The call wrote a section with these lines, and made no step on the field.
fn is_told(shown: &Called, lines: [&str; 2]) -> bool {
    let Ok(run) = str::from_utf8(shown.out.written()) else {
        return false;
    };
    shown.status.number() == 0
        && shown.words == (0, 0)
        && run.starts_with("%events 1\n")
        && run.find(lines[0]).is_some()
        && run.find(lines[1]).is_some()
}

/// What is shown is a run of the right conjunction, and `judge` finds it legal.
#[test]
fn shown_runs_are_legal(rt: HostRuntime) -> Result<(), Fail> {
    let alloc = rt.alloc();
    for (text, condition, lines, legal) in SHOWN {
        let mut told = with_section(alloc, text, condition)?;
        let shown = call(&rt, alloc, "show", &told, NEVER)?;
        assert!(rt; is_told(&shown, lines), "run at {condition}{text}");
        told.extend_from_slice(shown.out.written())?;
        assert_answer(&rt, alloc, "judge", &told, 0, legal.as_bytes(), "")?;
    }
    Ok(())
}

/// Where each conjunction has a cycle, what is written is the verdict.
#[test]
fn cycles_are_shown(rt: HostRuntime) -> Result<(), Fail> {
    let alloc = rt.alloc();
    for text in [SBF, MP] {
        let verdict = call(&rt, alloc, "verdict", text.as_bytes(), NEVER)?;
        assert_answer(
            &rt,
            alloc,
            "show",
            text.as_bytes(),
            0,
            verdict.out.written(),
            "",
        )?;
    }
    Ok(())
}

/// The words, a test, its condition where the text has none, the number of the status, and what is written to both
/// sinks.
const UNSHOWN: [(&str, &str, &str, u8, &str, &str); 11] = [
    (
        "show",
        TWO_WRITERS,
        "exists (2:EAX=1)\n",
        0,
        "Undecided 0\n",
        "",
    ),
    ("show", COWW, "", 0, "Forbidden\nHidden 0 P0 0 P0 2\n", ""),
    // the store stands after the read
    ("show", LATE, "", 0, "Forbidden\nHidden 0 P0 1 P0 0\n", ""),
    (
        "show",
        HIDES,
        "exists (0:EAX=1)\n",
        0,
        "Forbidden\nHidden 0 P0 0 P0 2\n",
        "",
    ),
    // the newest own store is read, or what the other thread stores after it
    (
        "show",
        HIDES,
        "exists (0:EAX=1 \\/ 0:EAX=2)\n",
        0,
        "Undecided 1\n",
        "",
    ),
    (
        "show",
        HIDDEN,
        "exists (0:EAX=1 \\/ 0:EBX=0 /\\ 1:EBX=0)\n",
        0,
        "Forbidden\nHidden 0 P0 0 P0 3\nCycle 1 P0 0 P0 1 P0 3 P0 4 P1 0 P1 1 P1 3 P1 4\n",
        "",
    ),
    (
        "show",
        HIDDEN,
        "exists (0:EBX=0 /\\ 1:EBX=0 \\/ 1:EAX=1)\n",
        0,
        "Forbidden\nCycle 0 P0 0 P0 1 P0 3 P0 4 P1 0 P1 1 P1 3 P1 4\nHidden 1 P1 0 P1 3\n",
        "",
    ),
    (
        "show",
        TWO_WRITERS,
        "exists (2:EAX=0)\n",
        6,
        "",
        "perple: atom 1: kind 7 SeveralWriters\n",
    ),
    (
        "show",
        SB,
        "%events 1\n",
        5,
        "",
        "perple: line 7: kind 12 Trailing\n",
    ),
    ("show x", SB, "", 2, "", USAGE),
    ("shows", SB, "", 2, "", USAGE),
];

#[test]
fn others_are_not_shown(rt: HostRuntime) -> Result<(), Fail> {
    let alloc = rt.alloc();
    for (words, text, condition, status, out, err) in UNSHOWN {
        assert_row(&rt, alloc, words, text, condition, status, out, err)?;
    }
    Ok(())
}
