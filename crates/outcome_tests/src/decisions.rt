//! What is said of well-known litmus tests.
use decision::{Shown, hidden_read, is_ordered, show};
use profile_check::check;
use run_judge::{Judgement, RunEvent, RunKind, judge};
use seq_conv::Sequences;
use std::alloc::Global;
use std::test::Fail;
use verdict::is_cycle;
use worked_texts::{COWW, IRIW, LB, MP, OWN, SB, SBF, SBX, test_of};
use x86_subset::{Atom, Instr, Test};

const SBF_ONE: &str =
    "X86 SBF\n{ }\n P0 | P1 ;\n MOV [x],$1 | MOV [y],$1 ;\n MFENCE | MFENCE ;\n MOV EAX,[y] | MOV EAX,[x] ;\nexists (0:EAX=0 /\\ 1:EAX=1)\n";

const SBX1: &str =
    "X86 SBX1\n{ }\n P0 | P1 ;\n MOV EAX,$1 | MOV [y],$1 ;\n XCHG [x],EAX | MOV EAX,[x] ;\n MOV EBX,[y] | ;\nexists (0:EBX=0 /\\ 1:EAX=0)\n";

const MP_SEEN: &str =
    "X86 MP\n{ }\n P0 | P1 ;\n MOV [x],$1 | MOV EAX,[y] ;\n MOV [y],$1 | MOV EBX,[x] ;\nexists (1:EAX=0 /\\ 1:EBX=1)\n";

const LB_ONE: &str =
    "X86 LB\n{ }\n P0 | P1 ;\n MOV EAX,[x] | MOV EAX,[y] ;\n MOV [y],$1 | MOV [x],$1 ;\nexists (0:EAX=0 /\\ 1:EAX=1)\n";

const RWC: &str =
    "X86 RWC\n{ }\n P0 | P1 | P2 ;\n MOV [x],$1 | MOV EAX,[x] | MOV [y],$1 ;\n | MOV EBX,[y] | MOV EAX,[x] ;\nexists (1:EAX=1 /\\ 1:EBX=0 /\\ 2:EAX=0)\n";

const FENCED: &str =
    "X86 FENCED\n{ }\n P0 ;\n MOV [x],$1 ;\n MFENCE ;\n MOV EAX,[x] ;\nexists (0:EAX=1)\n";

const FWD2: &str =
    "X86 FWD2\n{ }\n P0 ;\n MOV [x],$1 ;\n MOV [x],$2 ;\n MOV EAX,[x] ;\nexists (0:EAX=2)\n";

const OWNX: &str =
    "X86 OWNX\n{ }\n P0 ;\n MOV [x],$1 ;\n MOV EAX,$2 ;\n XCHG [x],EAX ;\nexists (0:EAX=1)\n";

const SBFWD: &str =
    "X86 SBFWD\n{ }\n P0 | P1 ;\n MOV [x],$1 | MOV [y],$1 ;\n MOV EAX,[x] | MOV EAX,[y] ;\n MOV EBX,[y] | MOV EBX,[x] ;\nexists (0:EAX=1 /\\ 0:EBX=0 /\\ 1:EAX=1 /\\ 1:EBX=0)\n";

const SBFWDF: &str =
    "X86 SBFWDF\n{ }\n P0 | P1 ;\n MOV [x],$1 | MOV [y],$1 ;\n MOV EAX,[x] | MOV EAX,[y] ;\n MFENCE | MFENCE ;\n MOV EBX,[y] | MOV EBX,[x] ;\nexists (0:EAX=1 /\\ 0:EBX=0 /\\ 1:EAX=1 /\\ 1:EBX=0)\n";

const LATE: &str = "X86 LATE\n{ }\n P0 ;\n MOV EAX,[x] ;\n MOV [x],$1 ;\nexists (0:EAX=1)\n";

// The own store is hidden by the next, whatever the other thread stores.
const HIDES: &str =
    "X86 HIDES\n{ }\n P0 | P1 ;\n MOV [x],$1 | MOV [x],$3 ;\n MOV [x],$2 | ;\n MOV EAX,[x] | ;\nexists (0:EAX=1)\n";

// The exchange reads the store, and hides it from the load after it.
const HIDEX: &str =
    "X86 HIDEX\n{ }\n P0 ;\n MOV [x],$1 ;\n MOV EAX,$2 ;\n XCHG [x],EAX ;\n MOV EBX,[x] ;\nexists (0:EAX=1 /\\ 0:EBX=1)\n";

const COW: &str =
    "X86 COW\n{ }\n P0 | P1 ;\n MOV [x],$1 | MOV [x],$2 ;\n MOV EAX,[x] | ;\nexists (0:EAX=1)\n";

/// What is said of a condition of one conjunction.
#[derive(Clone, Copy, Debug, PartialEq, Eq)]
enum Seen {
    /// A run of so many events that is judged legal, and in which each register has its value.
    Run(usize),
    /// A cycle of so many nodes.
    Cycle(usize),
    /// Some atom leaves the order of its read and a store of its location open, or names a store that is never read.
    Unordered,
    Wrong,
}

/// Whether the event reads into the atom's register.
fn reads_into(test: &Test, event: &RunEvent, atom: &Atom) -> bool {
    let t = event.thread as usize;
    if event.thread != atom.thread || t >= test.threads() {
        return false;
    }
    match test.body(t).get(event.place as usize) {
        Some(Instr::Load { reg, .. }) => *reg == atom.reg,
        Some(Instr::Exchange { reg, .. }) => *reg == atom.reg,
        _ => false,
    }
}

/// The value that the run leaves in the atom's register; each value of these tests is that of the first iteration too.
fn value_left(test: &Test, events: &[RunEvent], atom: &Atom) -> Option<u64> {
    let mut left = None;
    for event in events {
        if reads_into(test, event, atom) {
            left = match event.kind {
                RunKind::Read { value } | RunKind::Exchange { value } => Some(value),
                _ => left,
            };
        }
    }
    left
}

fn have_values(test: &Test, events: &[RunEvent]) -> bool {
    for atom in test.atoms() {
        if value_left(test, events, atom) != Some(u64::from(atom.value)) {
            return false;
        }
    }
    true
}

fn look(alloc: Global, text: &str) -> Result<Seen, Fail> {
    let test = test_of(alloc, text).ok_or("it is a test")?;
    let checked = check(alloc, test).ok().ok_or("each atom has a kind")?;
    let sequences = Sequences::of(alloc, checked.test())?;
    if checked.test().conjunctions() == 0 || !is_ordered(&checked, &sequences, 0) {
        return Ok(Seen::Unordered);
    }
    match show(alloc, &checked, &sequences, 0)? {
        Shown::Run(events) => {
            let judgement = judge(alloc, checked.test(), &sequences, 1, &events)?;
            if judgement == Judgement::Legal && have_values(checked.test(), &events) {
                Ok(Seen::Run(events.len()))
            } else {
                Ok(Seen::Wrong)
            }
        }
        Shown::Forbidden(cycle) => {
            if is_cycle(&checked, &sequences, 0, &cycle) {
                Ok(Seen::Cycle(cycle.len()))
            } else {
                Ok(Seen::Wrong)
            }
        }
    }
}

/// A run has an event for each action, and one more for each store.
#[test]
fn forbidden_and_shown(rt: HostRuntime) -> Result<(), Fail> {
    let alloc = rt.alloc();
    let rows = [
        ("SB", SB, Seen::Run(6)),
        ("SBF", SBF, Seen::Cycle(4)),
        ("SBF, 0 and 1", SBF_ONE, Seen::Run(8)),
        ("SBX", SBX, Seen::Cycle(4)),
        ("SBX1", SBX1, Seen::Run(5)),
        ("MP", MP, Seen::Cycle(4)),
        ("MP, 0 and 1", MP_SEEN, Seen::Run(6)),
        ("LB", LB, Seen::Cycle(4)),
        ("LB, 0 and 1", LB_ONE, Seen::Run(6)),
        ("IRIW", IRIW, Seen::Cycle(6)),
        ("RWC", RWC, Seen::Run(7)),
        ("OWN", OWN, Seen::Run(6)),
        ("FENCED", FENCED, Seen::Run(4)),
        ("FWD2", FWD2, Seen::Run(5)),
        ("OWNX", OWNX, Seen::Run(3)),
        ("SBFWD", SBFWD, Seen::Run(8)),
        ("SBFWDF", SBFWDF, Seen::Cycle(4)),
        ("COWW", COWW, Seen::Unordered),
        ("LATE", LATE, Seen::Unordered),
        ("COW", COW, Seen::Unordered),
    ];
    for (name, text, want) in rows {
        assert_eq!(rt; look(alloc, text)?, want, "{name}");
    }
    Ok(())
}

// The hidden store that the first conjunction names, as the thread, the place of the store and the place of the read.
fn look_for_hidden(alloc: Global, text: &str) -> Result<Option<(u32, u32, u32)>, Fail> {
    let test = test_of(alloc, text).ok_or("it is a test")?;
    let checked = check(alloc, test).ok().ok_or("each atom has a kind")?;
    let sequences = Sequences::of(alloc, checked.test())?;
    if checked.test().conjunctions() == 0 {
        return Err(Fail::from("it has a conjunction"));
    }
    match hidden_read(&checked, &sequences, 0) {
        Some(hidden) if hidden.store.thread == hidden.read.thread => Ok(Some((
            hidden.read.thread,
            hidden.store.place,
            hidden.read.place,
        ))),
        Some(_) => Err(Fail::from("it is an own store")),
        None => Ok(None),
    }
}

#[test]
fn hidden_stores(rt: HostRuntime) -> Result<(), Fail> {
    let alloc = rt.alloc();
    let rows = [
        ("COWW", COWW, Some((0, 0, 2))),
        ("LATE", LATE, Some((0, 1, 0))),
        ("HIDES", HIDES, Some((0, 0, 2))),
        ("HIDEX", HIDEX, Some((0, 0, 2))),
        ("FWD2", FWD2, None),
        ("OWNX", OWNX, None),
        ("COW", COW, None),
        ("SB", SB, None),
        ("MP", MP, None),
    ];
    for (name, text, want) in rows {
        assert_eq!(rt; look_for_hidden(alloc, text)?, want, "{name}");
    }
    Ok(())
}
