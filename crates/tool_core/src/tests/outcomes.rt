//! What `outcomes` writes, as `bench/axioms` has it: by the axioms of x86-TSO over all candidate executions. The whole
//! table of states is that of the tests of `outcome_states`; these are the text and each status.
use super::counts::COW;
use super::{SB, SBF, TWO_WRITERS, USAGE};

/// A test, and the text.
pub(super) const OUTCOMES: [(&str, &str); 3] = [
    (
        SB,
        "Test SB Allowed\nStates 4\n0:EAX=0; 1:EAX=0;\n0:EAX=0; 1:EAX=1;\n0:EAX=1; 1:EAX=0;\n0:EAX=1; 1:EAX=1;\nObservation SB Sometimes 1 3\n",
    ),
    (
        SBF,
        "Test SBF Forbidden\nStates 3\n0:EAX=0; 1:EAX=1;\n0:EAX=1; 1:EAX=0;\n0:EAX=1; 1:EAX=1;\nObservation SBF Never 0 3\n",
    ),
    (
        COW,
        "Test COW Allowed\nStates 2\n0:EAX=1;\n0:EAX=2;\nObservation COW Sometimes 1 1\n",
    ),
];

/// The words, a test and what stands after it, the status and its line.
pub(super) const REFUSED_OUTCOMES: [(&str, &str, &str, u8, &str); 4] = [
    ("outcomes 1", SB, "", 2, USAGE),
    (
        "outcomes",
        SB,
        "%events 1\n",
        5,
        "perple: line 7: kind 12 Trailing\n",
    ),
    (
        "outcomes",
        TWO_WRITERS,
        "exists (2:EAX=1 /\\ 3:EAX=1 /\\ 2:EBX=0)\n",
        6,
        "perple: atom 2: kind 1 NoSuchThread\n",
    ),
    (
        "outcomes",
        TWO_WRITERS,
        "exists (2:EBX=0 /\\ 3:EAX=1)\n",
        6,
        "perple: atom 1: kind 2 NotLoaded\n",
    ),
];
