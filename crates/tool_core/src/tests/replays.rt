//! What `replay` writes. The events were found by `tools/machine.py`, a computation apart from the program (`bench/events`
//! finds them again).
use super::counts::{COW, IWP, WRCOVER, XCHG3};
use super::{BUSY, IRIW, MANY_EVENTS, MP, OWN, SB, SBF, SBX, TWO_WRITERS, USAGE};

/// The words, a test, and the section that is written.
pub(super) const REPLAYS: [(&str, &str, &str); 9] = [
    (
        "replay 1",
        SB,
        "%events 1\nP0 0 0 push\nP1 0 0 push\nP0 0 0 drain\nP0 0 1 read 0\nP1 0 1 read 1\nP1 0 0 drain\n",
    ),
    (
        "replay 2 --rate 0 --order 3",
        SB,
        "%events 2\nP1 0 0 push\nP0 0 0 push\nP1 0 1 read 0\nP1 1 0 push\nP0 0 1 read 0\nP1 1 1 read 0\nP1 0 0 drain\nP1 1 0 drain\nP0 1 0 push\nP0 1 1 read 2\nP0 0 0 drain\nP0 1 0 drain\n",
    ),
    (
        "replay 2 --rate 256 --order 3",
        SB,
        "%events 2\nP1 0 0 push\nP0 0 0 push\nP1 0 0 drain\nP1 0 1 read 0\nP1 1 0 push\nP0 0 0 drain\nP0 0 1 read 1\nP1 1 0 drain\nP1 1 1 read 1\nP0 1 0 push\nP0 1 0 drain\nP0 1 1 read 2\n",
    ),
    (
        "replay 2 --seed 5 --rate 128 --buffer 1 --order 9",
        MP,
        "%events 2\nP1 0 0 read 0\nP0 0 0 push\nP1 0 1 read 0\nP1 1 0 read 0\nP1 1 1 read 0\nP0 0 0 drain\nP0 0 1 push\nP0 0 1 drain\nP0 1 0 push\nP0 1 0 drain\nP0 1 1 push\nP0 1 1 drain\n",
    ),
    (
        "replay 3 --buffer 2 --rate=0",
        OWN,
        "%events 3\nP0 0 0 push\nP1 0 0 push\nP0 0 1 read 1\nP1 0 1 read 1\nP0 1 0 push\nP1 1 0 push\nP0 1 1 read 2\nP1 1 1 read 2\nP0 0 0 drain\nP0 2 0 push\nP1 0 0 drain\nP1 2 0 push\nP0 2 1 read 3\nP1 2 1 read 3\nP0 1 0 drain\nP1 1 0 drain\nP0 2 0 drain\nP1 2 0 drain\n",
    ),
    (
        "replay 1 --order 0",
        SBX,
        "%events 1\nP1 0 0 exchange 0\nP1 0 1 read 0\nP0 0 0 exchange 0\nP0 0 1 read 1\n",
    ),
    (
        "replay 2 --order=18446744073709551615 --seed 1",
        COW,
        "%events 2\nP0 0 0 push\nP0 0 0 drain\nP0 0 1 fence\nP1 0 0 push\nP1 1 0 push\nP1 0 0 drain\nP0 0 2 read 2\nP0 1 0 push\nP1 1 0 drain\nP0 1 0 drain\nP0 1 1 fence\nP0 1 2 read 3\n",
    ),
    (
        "replay 1 --order 2",
        SBF,
        "%events 1\nP0 0 0 push\nP0 0 0 drain\nP0 0 1 fence\nP1 0 0 push\nP0 0 2 read 0\nP1 0 0 drain\nP1 0 1 fence\nP1 0 2 read 1\n",
    ),
    (
        "replay 2",
        XCHG3,
        "%events 2\nP0 0 0 push\nP1 0 0 exchange 0\nP0 0 0 drain\nP0 1 0 push\nP1 0 1 read 1\nP0 1 0 drain\nP1 1 0 exchange 3\nP1 1 1 read 4\n",
    ),
];

/// The words, a test, and what `judge` says of the section that is written.
pub(super) const LEGAL_REPLAYS: [(&str, &str, &str); 7] = [
    ("replay 300 --order 1", SB, "Legal 1800\n"),
    ("replay 250 --rate 3 --buffer 16", IRIW, "Legal 2000\n"),
    ("replay 100 --seed 9 --order 77", SBX, "Legal 400\n"),
    ("replay 200 --order 5", COW, "Legal 1200\n"),
    ("replay 200 --buffer 1 --order 8", BUSY, "Legal 1800\n"),
    ("replay 40 --rate 256", IWP, "Legal 320\n"),
    ("replay 60", WRCOVER, "Legal 660\n"),
];

/// The words, what is read, the number of the status, and the line.
pub(super) const REFUSED_REPLAYS: [(&str, &str, u8, &str); 8] = [
    ("replay", SB, 2, USAGE),
    ("replay 0", SB, 2, USAGE),
    ("replay 5 --count both", SB, 2, USAGE),
    ("replay 5 --cut 1", SB, 2, USAGE),
    ("replay 5 --order turns", SB, 2, USAGE),
    (
        "replay 5",
        TWO_WRITERS,
        5,
        "perple: line 4: kind 8 Condition\n",
    ),
    ("replay 100000", BUSY, 12, MANY_EVENTS),
    ("replay 83334 --order 1", BUSY, 12, MANY_EVENTS),
];
