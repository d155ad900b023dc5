//! What `count` writes. The numbers were found by `bench/within`, a computation apart from the program. Of each replay of
//! `N5F`, `XCHG3`, `WRCOVER` and `iwp2.6` here the exhaustive count finds hits, though x86-TSO forbids what they ask for.
use super::{EITHER, IRIW, OWN, SB, SBF, USAGE};

pub(super) const COW: &str =
    "X86 COW\n{ }\n P0          | P1         ;\n MOV [x],$1  | MOV [x],$2 ;\n MFENCE      |            ;\n MOV EAX,[x] |            ;\nexists (0:EAX=2)\n";

pub(super) const N5F: &str =
    "X86 N5F\n{ }\n P0          | P1          ;\n MOV [x],$1  | MOV [x],$2  ;\n MFENCE      | MFENCE      ;\n MOV EAX,[x] | MOV EAX,[x] ;\nexists (0:EAX=2 /\\ 1:EAX=1)\n";

pub(super) const WRCOVER: &str =
    "X86 WRCOVER\n{ }\n P0         | P1          | P2          ;\n MOV [x],$1 | MOV EAX,[y] | MOV EAX,[z] ;\n MOV [y],$1 | MOV [x],$2  | MOV EBX,[x] ;\n            | MOV [z],$1  |             ;\nexists (1:EAX=1 /\\ 2:EAX=1 /\\ 2:EBX=1)\n";

pub(super) const XCHG3: &str =
    "X86 XCHG3\n{ }\n P0         | P1           ;\n MOV [x],$1 | MOV EAX,$2   ;\n            | XCHG [x],EAX ;\n            | MOV EBX,[x]  ;\nexists (1:EAX=1 /\\ 1:EBX=1)\n";

pub(super) const IWP: &str =
    "X86 iwp2.6\n{ }\n P0         | P1         | P2          | P3          ;\n MOV [x],$1 | MOV [x],$2 | MOV EAX,[x] | MOV EAX,[x] ;\n            |            | MOV EBX,[x] | MOV EBX,[x] ;\nexists (2:EAX=1 /\\ 2:EBX=2 /\\ 3:EAX=2 /\\ 3:EBX=1)\n";

/// The words with a schedule, a test, and the report.
pub(super) const COUNTS: [(&str, &str, &str); 16] = [
    (
        "count 30 --order 1",
        IWP,
        "Test iwp2.6\nThreads 4\nIterations 30\nCondition exists 4\nFrames 810000\nWithin 0\nSeen no\n",
    ),
    (
        "count 10 --rate 0 --order 15",
        IWP,
        "Test iwp2.6\nThreads 4\nIterations 10\nCondition exists 4\nFrames 10000\nWithin 0\nSeen no\n",
    ),
    (
        "count 60 --order 3",
        N5F,
        "Test N5F\nThreads 2\nIterations 60\nCondition exists 2\nFrames 3600\nWithin 0\nSeen no\n",
    ),
    (
        "count 10 --rate 0 --order 0",
        N5F,
        "Test N5F\nThreads 2\nIterations 10\nCondition exists 2\nFrames 100\nWithin 0\nSeen no\n",
    ),
    (
        "count 2 --rate 0 --order turns",
        XCHG3,
        "Test XCHG3\nThreads 2\nIterations 2\nCondition exists 2\nFrames 4\nWithin 0\nSeen no\n",
    ),
    (
        "count 40 --order 2",
        XCHG3,
        "Test XCHG3\nThreads 2\nIterations 40\nCondition exists 2\nFrames 1600\nWithin 0\nSeen no\n",
    ),
    (
        "count 2 --rate 256 --order 10",
        WRCOVER,
        "Test WRCOVER\nThreads 3\nIterations 2\nCondition exists 3\nFrames 8\nWithin 0\nSeen no\n",
    ),
    (
        "count 40 --cut 1 --order 2",
        WRCOVER,
        "Test WRCOVER\nThreads 3\nIterations 40\nCondition exists 3\nFrames 64000\nWithin 0\nSeen no\n",
    ),
    (
        "count 1 --rate 0 --order turns",
        COW,
        "Test COW\nThreads 2\nIterations 1\nCondition exists 1\nFrames 1\nWithin 1\nSeen yes\n",
    ),
    (
        "count 60 --order 1",
        COW,
        "Test COW\nThreads 2\nIterations 60\nCondition exists 1\nFrames 3600\nWithin 8\nSeen yes\n",
    ),
    (
        "count 20 --seed 7 --rate 32 --buffer 2 --order 1",
        COW,
        "Test COW\nThreads 2\nIterations 20\nCondition exists 1\nFrames 400\nWithin 4\nSeen yes\n",
    ),
    (
        "count 300 --order 1",
        SB,
        "Test SB\nThreads 2\nIterations 300\nCondition exists 2\nFrames 90000\nWithin 4242\nSeen yes\n",
    ),
    (
        "count 20 --order turns",
        SB,
        "Test SB\nThreads 2\nIterations 20\nCondition exists 2\nFrames 400\nWithin 187\nSeen yes\n",
    ),
    (
        "count 20 --seed 9 --rate 200 --buffer 1 --cut 65536 --order 18446744073709551615",
        SB,
        "Test SB\nThreads 2\nIterations 20\nCondition exists 2\nFrames 400\nWithin 3\nSeen yes\n",
    ),
    (
        "count 60 --order 1",
        SBF,
        "Test SBF\nThreads 2\nIterations 60\nCondition ~exists 2\nFrames 3600\nWithin 0\nSeen no\n",
    ),
    (
        "count 20 --order turns",
        EITHER,
        "Test SBF\nThreads 2\nIterations 20\nCondition exists 3\nFrames 400\nWithin 20\nSeen yes\n",
    ),
];

/// The words without a schedule, a test, the report of each run of it, and the field's first two words after it. The
/// reads of `OWN` always take the own store of their iteration, and what the other tests ask for is forbidden, and none of
/// them is seen within a frame.
pub(super) const RUNS: [(&str, &str, &str, (u64, u64)); 3] = [
    (
        "count 7",
        OWN,
        "Test OWN\nThreads 2\nIterations 7\nCondition exists 2\nFrames 49\nWithin 49\nSeen yes\n",
        (7, 7),
    ),
    (
        "count 300 --seed 5 --rate 0 --buffer 16 --cut 1",
        SBF,
        "Test SBF\nThreads 2\nIterations 300\nCondition ~exists 2\nFrames 90000\nWithin 0\nSeen no\n",
        (300, 300),
    ),
    (
        "count 20",
        IRIW,
        "Test IRIW\nThreads 4\nIterations 20\nCondition exists 4\nFrames 160000\nWithin 0\nSeen no\n",
        (20, 20),
    ),
];

/// The first atom names a value that no store has.
const NO_STORE: &str =
    "X86 NOSTORE\n{ }\n P0 | P1 ;\n MOV [x],$1 | MOV EAX,[x] ;\nexists (1:EAX=3)\n";

const MANY_FRAMES: &str = "perple: limit frames 4294967296\n";

/// The words, a test, the number of the status, and the line. 65,536 squared is the limit of the frames, and so is 256
/// to the power of 4.
pub(super) const REFUSED: [(&str, &str, u8, &str); 11] = [
    ("count", SB, 2, USAGE),
    ("count 0", SB, 2, USAGE),
    ("count 5 --count both", SB, 2, USAGE),
    ("count 5 --order", SB, 2, USAGE),
    ("count 5 --order turns --order 1", SB, 2, USAGE),
    ("count 5", "", 5, "perple: line 1: kind 1 NotX86\n"),
    ("count 65537", SB, 7, MANY_FRAMES),
    ("count 65537 --order turns", SB, 7, MANY_FRAMES),
    ("count 257 --cut 1 --order 1", IWP, 7, MANY_FRAMES),
    ("count 5", NO_STORE, 6, "perple: atom 1: kind 3 NoStore\n"),
    (
        "count 100000",
        NO_STORE,
        6,
        "perple: atom 1: kind 3 NoStore\n",
    ),
];

/// Of `count 20 --order turns` on SB: which call of the source and of the output fails, the number of the status, how
/// many bytes stand on the output, and the line. The input has 116 bytes, so its end is found by the ninth read, and each
/// write has 16 bytes.
pub(super) const FAILING_COUNTS: [(u64, u64, u8, usize, &str); 16] = [
    (1, 0, 3, 0, "perple: reading failed\n"),
    (2, 0, 3, 0, "perple: reading failed\n"),
    (3, 0, 3, 0, "perple: reading failed\n"),
    (4, 0, 3, 0, "perple: reading failed\n"),
    (5, 0, 3, 0, "perple: reading failed\n"),
    (6, 0, 3, 0, "perple: reading failed\n"),
    (7, 0, 3, 0, "perple: reading failed\n"),
    (8, 0, 3, 0, "perple: reading failed\n"),
    (9, 0, 3, 0, "perple: reading failed\n"),
    (0, 1, 4, 0, "perple: writing failed\n"),
    (0, 2, 4, 16, "perple: writing failed\n"),
    (0, 3, 4, 32, "perple: writing failed\n"),
    (0, 4, 4, 48, "perple: writing failed\n"),
    (0, 5, 4, 64, "perple: writing failed\n"),
    (0, 6, 4, 80, "perple: writing failed\n"),
    (10, 7, 0, 82, ""),
];
