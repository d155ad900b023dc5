//! What `faithful` says of tests. The answers were found by a computation of its own over the texts: an atom is loose where
//! several threads store to its location, and another thread's store has its value. The gallery has those of all
//! examples.

use super::counts::{COW, IWP, N5F, WRCOVER, XCHG3};

/// A test, and the line for it.
pub(super) const FAITHS: [(&str, &str); 14] = [
    (COW, "Loose 0 1\n"),
    (
        "X86 COWW\n{ }\n P0          ;\n MOV [x],$1  ;\n MOV [x],$2  ;\n MOV EAX,[x] ;\nexists (0:EAX=1)\n",
        "Faithful\n",
    ),
    (
        "X86 EITHER\n{ }\n P0          | P1          ;\n MOV [x],$1  | MOV [y],$1  ;\n MOV EAX,[y] | MOV EAX,[x] ;\nexists (0:EAX=0 /\\ 1:EAX=0 \\/ 0:EAX=1 /\\ 1:EAX=1)\n",
        "Faithful\n",
    ),
    (
        "X86 IRIW\n{ }\n P0 | P1 | P2 | P3 ;\n MOV [x],$1 | MOV EAX,[x] | MOV [y],$1 | MOV EAX,[y] ;\n | MOV EBX,[y] | | MOV EBX,[x] ;\nexists (1:EAX=1 /\\ 1:EBX=0 /\\ 3:EAX=1 /\\ 3:EBX=0)\n",
        "Faithful\n",
    ),
    (
        "X86 MP\n{ }\n P0 | P1 ;\n MOV [x],$1 | MOV EAX,[y] ;\n MOV [y],$1 | MOV EBX,[x] ;\nexists (1:EAX=1 /\\ 1:EBX=0)\n",
        "Faithful\n",
    ),
    (N5F, "Loose 0 1\n"),
    (
        "X86 OWN\n{ }\n P0 | P1 ;\n MOV [x],$1 | MOV [y],$1 ;\n MOV EAX,[x] | MOV EAX,[y] ;\nexists (0:EAX=1 /\\ 1:EAX=1)\n",
        "Faithful\n",
    ),
    (
        "X86 SBF\n{ }\n P0 | P1 ;\n MOV [x],$1 | MOV [y],$1 ;\n MFENCE | MFENCE ;\n MOV EAX,[y] | MOV EAX,[x] ;\n~exists (0:EAX=0 /\\ 1:EAX=0)\n",
        "Faithful\n",
    ),
    (
        "X86 SBX\n{ }\n P0 | P1 ;\n MOV EAX,$1 | mov eax,1 ;\n XCHG [x],EAX | xchg eax,[y] ;\n MOV EBX,[y] | MOV EBX,[x] ;\nexists (0:EBX=0 /\\ 1:EBX=0)\n",
        "Faithful\n",
    ),
    (
        "X86 TWOX\n{ }\n P0         | P1          ;\n MOV [x],$1 | MOV EAX,[y] ;\n MOV [y],$1 | MOV EBX,[x] ;\n MOV [x],$2 |             ;\nexists (1:EAX=1 /\\ 1:EBX=0)\n",
        "Faithful\n",
    ),
    (WRCOVER, "Loose 0 3\n"),
    (XCHG3, "Loose 0 1\n"),
    (IWP, "Loose 0 1\n"),
    (
        "X86 COW2\n{ }\n P0 | P1 ;\n MOV [x],$1 | MOV [x],$2 ;\n MOV EAX,[x] | ;\nexists (0:EAX=1 \\/ 0:EAX=2)\n",
        "Loose 1 2\n",
    ),
];
