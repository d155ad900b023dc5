//! Worked tests inside the profile, and outside of it.
use profile_check::{AtomKind, ProfileError, ProfileKind, check};
use std::alloc::Global;
use std::test::Fail;
use worked_texts::test_of;

/// What the profile says of the first atom of a text's condition.
fn answer(alloc: Global, text: &str) -> Result<Result<AtomKind, ProfileError>, Fail> {
    let test = test_of(alloc, text).ok_or("it is a test")?;
    match check(alloc, test) {
        Ok(checked) => Ok(Ok(checked.kind(0))),
        Err(e) => Ok(Err(e)),
    }
}

/// Texts whose condition says one thing twice that cannot be counted: its reason, and the reason's number.
const OUTSIDE: [(&str, ProfileKind, u8); 8] = [
    (
        "X86 T\n{ }\n P0 ;\n MOV [x],$1 ;\n MOV EAX,[x] ;\nexists (0:EAX=0 /\\ 0:EAX=0)\n",
        ProfileKind::OwnWriter,
        8,
    ),
    (
        "X86 T\n{ }\n P0 | P1 | P2 ;\n MOV [x],$1 | MOV [x],$2 | MOV EAX,[x] ;\nexists (2:EAX=0 /\\ 2:EAX=0)\n",
        ProfileKind::SeveralWriters,
        7,
    ),
    (
        "X86 T\n{ }\n P0 | P1 | P2 ;\n MOV [x],$1 | MOV [x],$2 | MOV EAX,[x] ;\nexists (2:EAX=3 /\\ 2:EAX=3)\n",
        ProfileKind::NoStore,
        3,
    ),
    (
        "X86 T\n{ }\n P0 | P1 | P2 ;\n MOV [x],$1 | MOV [x],$2 | MOV EAX,[x] ;\nexists (3:EAX=1 /\\ 3:EAX=1)\n",
        ProfileKind::NoSuchThread,
        1,
    ),
    (
        "X86 T\n{ }\n P0 | P1 | P2 ;\n MOV [x],$1 | MOV [x],$2 | MOV EAX,[x] ;\nexists (2:EBX=0 /\\ 2:EBX=0)\n",
        ProfileKind::NotLoaded,
        2,
    ),
    (
        "X86 T\n{ }\n P0 | P1 | P2 ;\n MOV [x],$1 | MOV [x],$1 | MOV EAX,[x] ;\nexists (2:EAX=1 /\\ 2:EAX=1)\n",
        ProfileKind::Ambiguous,
        4,
    ),
    (
        "X86 T\n{ }\n P0 ;\n MOV EAX,[y] ;\nexists (0:EAX=0 /\\ 0:EAX=0)\n",
        ProfileKind::NoWriter,
        6,
    ),
    (
        "X86 T\n{ }\n P0 | P1 ;\n MOV [x],$0 | MOV EAX,[x] ;\nexists (1:EAX=0 /\\ 1:EAX=0)\n",
        ProfileKind::ZeroStored,
        5,
    ),
];

#[test]
fn atoms_outside_have_the_reasons_of_the_table(rt: HostRuntime) -> Result<(), Fail> {
    for (text, kind, number) in OUTSIDE {
        let want = Err(ProfileError::Outside { atom: 1, kind });
        assert_eq!(rt; answer(rt.alloc(), text)?, want, "at {number}");
        assert_eq!(rt; kind.number(), number);
    }
    Ok(())
}

/// Texts whose condition can be counted, with the kind of its first atom.
const INSIDE: [(&str, AtomKind); 4] = [
    (
        "X86 T\n{ }\n P0 ;\n MOV [x],$1 ;\n MOV EAX,[x] ;\nexists (0:EAX=1 /\\ 0:EAX=1)\n",
        AtomKind::Rf {
            reader: 0,
            column: 0,
            writer: 0,
            place: 0,
        },
    ),
    (
        "X86 T\n{ }\n P0 | P1 | P2 ;\n MOV [x],$1 | MOV [x],$2 | MOV EAX,[x] ;\nexists (2:EAX=2 /\\ 2:EAX=2)\n",
        AtomKind::Rf {
            reader: 2,
            column: 0,
            writer: 1,
            place: 0,
        },
    ),
    (
        "X86 T\n{ }\n P0 | P1 ;\n MOV [x],$1 | MOV EAX,[y] ;\n MOV [x],$2 | MOV EAX,[x] ;\nexists (1:EAX=2 /\\ 1:EAX=2)\n",
        AtomKind::Exact {
            reader: 1,
            column: 1,
            writer: 0,
            place: 1,
        },
    ),
    (
        "X86 T\n{ }\n P0 | P1 ;\n MOV [x],$1 | MOV EAX,[y] ;\n MOV [x],$2 | MOV EAX,[x] ;\nexists (1:EAX=0 /\\ 1:EAX=0)\n",
        AtomKind::Fr {
            reader: 1,
            column: 1,
            writer: 0,
        },
    ),
];

#[test]
fn atoms_inside_have_the_kinds_of_the_table(rt: HostRuntime) -> Result<(), Fail> {
    for (text, want) in INSIDE {
        assert_eq!(rt; answer(rt.alloc(), text)?, Ok(want), "at {text}");
    }
    Ok(())
}

#[test]
fn the_first_atom_outside_is_named(rt: HostRuntime) -> Result<(), Fail> {
    let outside =
        "X86 T\n{ }\n P0 | P1 ;\n MOV [x],$1 | MOV EAX,[x] ;\nexists (1:EAX=0 /\\ 1:EBX=0)\n";
    let want = ProfileError::Outside {
        atom: 2,
        kind: ProfileKind::NotLoaded,
    };
    assert_eq!(rt; answer(rt.alloc(), outside)?, Err(want));
    let inside =
        "X86 T\n{ }\n P0 | P1 ;\n MOV [x],$1 | MOV EAX,[x] ;\nexists (1:EAX=0 /\\ 1:EAX=0)\n";
    let test = test_of(rt.alloc(), inside).ok_or("it is a test")?;
    let checked = check(rt.alloc(), test).ok().ok_or("it is inside")?;
    assert!(rt; checked.test().threads() == 2);
    Ok(())
}
