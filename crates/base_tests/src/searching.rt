//! Readers that see writers in different orders, by hand.
use choice_search::{Choice, Outcome, Pair, decide};
use std::test::Fail;

/// An answer, without its sides and its tree.
#[derive(Clone, Copy, Debug, PartialEq, Eq)]
enum Kind {
    Sides,
    Refuted,
    GaveUp,
}

fn kind_of(outcome: &Outcome) -> Kind {
    match outcome {
        Outcome::Sides(_) => Kind::Sides,
        Outcome::Refuted(_) => Kind::Refuted,
        Outcome::GaveUp => Kind::GaveUp,
    }
}

fn pair(first: u32, second: u32) -> Pair {
    Pair { first, second }
}

fn choice(reader: u32, source: u32, other: u32) -> Choice {
    Choice {
        reader,
        source,
        other,
    }
}

/// Two writers, 0 and 1, and two readers, 2 3 and 4 5, that see them in opposite orders; one of the readers alone, with
/// steps and without; a node that the closure does not know, with an edge to itself.
#[test]
fn orders(rt: HostRuntime) -> Result<(), Fail> {
    let one = [pair(2, 3), pair(0, 2), pair(1, 3)];
    let both = [
        pair(2, 3),
        pair(0, 2),
        pair(1, 3),
        pair(4, 5),
        pair(1, 4),
        pair(0, 5),
    ];
    let one_chooses = [choice(2, 0, 1), choice(3, 1, 0)];
    let both_choose = [
        choice(2, 0, 1),
        choice(3, 1, 0),
        choice(4, 1, 0),
        choice(5, 0, 1),
    ];
    let alone = [pair(300, 300)];
    let none = [];
    let rows = [
        (
            "opposite orders",
            both.as_slice(),
            both_choose.as_slice(),
            100,
            Kind::Refuted,
        ),
        (
            "one order",
            one.as_slice(),
            one_chooses.as_slice(),
            100,
            Kind::Sides,
        ),
        (
            "no steps",
            one.as_slice(),
            one_chooses.as_slice(),
            0,
            Kind::GaveUp,
        ),
        (
            "a node alone",
            alone.as_slice(),
            none.as_slice(),
            0,
            Kind::Refuted,
        ),
    ];
    for (name, edges, choices, most, want) in rows {
        let answer = decide(rt.alloc(), edges, choices, most)?;
        assert_eq!(rt; kind_of(&answer.outcome), want, "{name}");
    }
    Ok(())
}

/// The reader alone has 0 before 1: its first read stands before 1, and 0 before its second read's source.
#[test]
fn sides_of_one_order(rt: HostRuntime) -> Result<(), Fail> {
    let edges = [pair(2, 3), pair(0, 2), pair(1, 3)];
    let choices = [choice(2, 0, 1), choice(3, 1, 0)];
    let answer = decide(rt.alloc(), &edges, &choices, 100)?;
    let as_wanted = match &answer.outcome {
        Outcome::Sides(sides) => sides.as_slice() == [pair(2, 1), pair(0, 1)].as_slice(),
        Outcome::Refuted(_) => false,
        Outcome::GaveUp => false,
    };
    assert!(rt; as_wanted);
    assert_eq!(rt; answer.steps, 2);
    Ok(())
}
