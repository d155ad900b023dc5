//! Conditions at worked values, and those of message passing.
ghost use Rattle.std.specs.Prelude.{◌<◌};
ghost use Rattle.outcome_conv.specs.Conditions.{IsKind};

use outcome_conv::{Cond, CondKind, Conds};
use profile_check::check;
use seq_conv::Sequences;
use std::test::Fail;
use worked_texts::test_of;
use x86_subset::Span;

/// Which of the values 0 to 4 pass where the writer is in iteration m.
fn passing(kind: CondKind, m: u32) -> [bool; 5]
    requires kind { IsKind kind }
    requires iteration { m < 100000 }
{
    let cond = Cond {
        reader: 0,
        column: 0,
        loc: 0,
        writer: 1,
        kind,
    };
    [
        cond.holds(0, m),
        cond.holds(1, m),
        cond.holds(2, m),
        cond.holds(3, m),
        cond.holds(4, m),
    ]
}

#[test]
fn conditions_hold_of_values(rt: HostRuntime) -> Result<(), Fail> {
    let at_least = CondKind::AtLeast { k: 2, a: 1 };
    assert_eq!(rt; passing(at_least, 0), [false, true, false, true, false]);
    assert_eq!(rt; passing(at_least, 1), [false, false, false, true, false]);
    let below = CondKind::Below { k: 2 };
    assert_eq!(rt; passing(below, 0), [true, false, false, false, false]);
    assert_eq!(rt; passing(below, 1), [true, true, true, false, false]);
    let exact = CondKind::Exact { k: 2, a: 1 };
    assert_eq!(rt; passing(exact, 0), [false, true, false, false, false]);
    assert_eq!(rt; passing(exact, 1), [false, false, false, true, false]);
    Ok(())
}

/// Message passing, where either thing is enough.
const EITHER: &str =
    "X86 MP\n{ }\n P0 | P1 ;\n MOV [x],$1 | MOV EAX,[y] ;\n MOV [y],$1 | MOV EBX,[x] ;\nexists (1:EAX=1 \\/ 1:EBX=0)\n";

#[test]
fn message_passing_has_an_exact_and_an_fr_condition(rt: HostRuntime) -> Result<(), Fail> {
    let alloc = rt.alloc();
    let test = test_of(alloc, EITHER).ok_or("it is a test")?;
    let checked = check(alloc, test).ok().ok_or("each atom has a kind")?;
    let sequences = Sequences::of(alloc, checked.test())?;
    let conds = Conds::of(alloc, &checked, &sequences)?;
    let exact = Cond {
        reader: 1,
        column: 0,
        loc: 1,
        writer: 0,
        kind: CondKind::Exact { k: 1, a: 1 },
    };
    let below = Cond {
        reader: 1,
        column: 1,
        loc: 0,
        writer: 0,
        kind: CondKind::Below { k: 1 },
    };
    assert_eq!(rt; conds.all(), [exact, below].as_slice());
    assert_eq!(rt; conds.ends(), [1, 2].as_slice());
    assert!(rt; conds.len() == 2);
    assert_eq!(rt; conds.at(1), below);
    assert!(rt; conds.conjunctions() == 2);
    assert_eq!(rt; conds.conjunction(1), Span { from: 1, to: 2 });
    assert_eq!(rt; conds.group(1), [below].as_slice());
    Ok(())
}
