//! Refusals, each with its number and its whole line: words that are no command, lines of SB that are changed, and atoms
//! of no kind.
use super::*;

const TWO_WRITERS: &str =
    "X86 W2\n{ }\n P0 | P1 | P2 ;\n MOV [x],$1 | MOV [x],$2 | MOV EAX,[x] ;\n";

const SAME_VALUE: &str = "X86 W2\n{ }\n P0 | P1 | P2 ;\n MOV [x],$1 | MOV [x],$1 | MOV EAX,[x] ;\n";

const ZERO: &str = "X86 ZERO\n{ }\n P0 | P1 ;\n MOV [x],$0 | MOV EAX,[x] ;\n";

const ALONE: &str = "X86 ALONE\n{ }\n P0 ;\n MOV [x],$1 ;\n MOV EAX,[x] ;\n";

const UNWRITTEN: &str = "X86 Z\n{ }\n P0 ;\n MOV EAX,[z] ;\n";

/// Words that are no command.
const FAULTY: [&str; 13] = [
    "",
    "run",
    "run 0",
    "run 100001",
    "run +5",
    "run 5 6",
    "run 5 --seed 1 --seed 2",
    "run 5 --rate 257",
    "run -- 5",
    "run 5 --order 1",
    "convert x",
    "demo",
    "walk 5",
];

#[test]
fn faulty_words_are_refused(rt: HostRuntime) -> Result<(), Fail> {
    let alloc = rt.alloc();
    for line in FAULTY {
        let ran = call(&rt, alloc, line, SB.as_bytes())?;
        let usage = "perple: usage: perple COMMAND [N] [OPTIONS]\n";
        assert_ended(&rt, &ran, line, 2, b"", usage);
    }
    Ok(())
}

/// Which line of SB stands otherwise, or 0 where the text stands whole; the new text; and what it is refused for.
const CHANGED: [(usize, &str, &str); 18] = [
    (1, "X86_64 SB", "perple: line 1: kind 1 NotX86\n"),
    (1, "X86", "perple: line 1: kind 2 Header\n"),
    (2, "nothing here", "perple: line 2: kind 2 Header\n"),
    (2, "{ x:0; }", "perple: line 2: kind 3 Initial\n"),
    (
        2,
        "{ int x=0; [y]=1; }",
        "perple: line 2: kind 4 NonZeroInitial\n",
    ),
    (3, "P0 | P2 ;", "perple: line 3: kind 5 Column\n"),
    (4, "MOV [x],$1 ;", "perple: line 4: kind 5 Column\n"),
    (
        0,
        "X86 SB\n{ }\nP0 | P1 ;\nMOV [x],$1 | MOV\n",
        "perple: line 4: kind 5 Column\n",
    ),
    (
        4,
        "INC [x] | MOV [y],$1 ;",
        "perple: line 4: kind 6 Instruction\n",
    ),
    (
        4,
        "MOV [x],$4294967296 | MOV [y],$1 ;",
        "perple: line 4: kind 6 Instruction\n",
    ),
    (
        5,
        "MOV EAX,[y] | MOV EAX,[x] ; MOV [x],EAX | ;",
        "perple: line 5: kind 7 NotConstant\n",
    ),
    (
        6,
        "exists (0:EAX=0 /\\ ",
        "perple: line 6: kind 8 Condition\n",
    ),
    (6, "forall (0:EAX=0)", "perple: line 6: kind 9 Forall\n"),
    (
        6,
        "exists (x=1)",
        "perple: line 6: kind 10 MemoryCondition\n",
    ),
    (
        6,
        "exists (0:EAX=0 /\\ (0:EAX=0 \\/ 1:EAX=0))",
        "perple: line 6: kind 11 Disjunction\n",
    ),
    (
        6,
        "exists ((0:EAX=0 \\/ 1:EAX=0) /\\ 0:EAX=0)",
        "perple: line 6: kind 11 Disjunction\n",
    ),
    (
        6,
        "exists 0:EAX=0 \\/ 0:EAX=0 \\/ 0:EAX=0 \\/ 0:EAX=0 \\/ 0:EAX=0 \\/ 0:EAX=0 \\/ 0:EAX=0 \\/ 0:EAX=0 \\/ 0:EAX=0",
        "perple: line 6: kind 11 Disjunction\n",
    ),
    (7, "extra", "perple: line 7: kind 12 Trailing\n"),
];

#[test]
fn changed_lines_are_refused(rt: HostRuntime) -> Result<(), Fail> {
    let alloc = rt.alloc();
    for (at, text, err) in CHANGED {
        let input = changed(alloc, at, text)?;
        for line in ["run 1", "convert"] {
            let ran = call(&rt, alloc, line, &input)?;
            assert_ended(&rt, &ran, text, 5, b"", err);
        }
    }
    Ok(())
}

/// A test, its condition, and what it is refused for.
const OUTSIDE: [(&str, &str, &str); 9] = [
    (
        TWO_WRITERS,
        "exists (3:EAX=1)\n",
        "perple: atom 1: kind 1 NoSuchThread\n",
    ),
    (
        TWO_WRITERS,
        "exists (2:EBX=0)\n",
        "perple: atom 1: kind 2 NotLoaded\n",
    ),
    (
        TWO_WRITERS,
        "exists (2:EAX=3)\n",
        "perple: atom 1: kind 3 NoStore\n",
    ),
    (
        SAME_VALUE,
        "exists (2:EAX=1)\n",
        "perple: atom 1: kind 4 Ambiguous\n",
    ),
    (
        ZERO,
        "exists (1:EAX=0)\n",
        "perple: atom 1: kind 5 ZeroStored\n",
    ),
    (
        UNWRITTEN,
        "exists (0:EAX=0)\n",
        "perple: atom 1: kind 6 NoWriter\n",
    ),
    (
        TWO_WRITERS,
        "exists (2:EAX=0)\n",
        "perple: atom 1: kind 7 SeveralWriters\n",
    ),
    (
        ALONE,
        "exists (0:EAX=0)\n",
        "perple: atom 1: kind 8 OwnWriter\n",
    ),
    (
        TWO_WRITERS,
        "exists (2:EAX=2 \\/ 2:EAX=1 /\\ 2:EAX=0 /\\ 9:EAX=0)\n",
        "perple: atom 3: kind 7 SeveralWriters\n",
    ),
];

#[test]
fn atoms_of_no_kind_are_refused(rt: HostRuntime) -> Result<(), Fail> {
    let alloc = rt.alloc();
    for (test, condition, err) in OUTSIDE {
        let mut input = Vec::from_slice(alloc, test.as_bytes())?;
        input.extend_from_slice(condition.as_bytes())?;
        for line in ["run 1", "convert"] {
            let ran = call(&rt, alloc, line, &input)?;
            assert_ended(&rt, &ran, condition, 6, b"", err);
        }
    }
    Ok(())
}
