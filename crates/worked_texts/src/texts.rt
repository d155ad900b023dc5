//! The texts.

/// Store buffering: each thread stores to one location and loads the other; both read 0.
pub const SB: &str =
    "X86 SB\n{ }\n P0 | P1 ;\n MOV [x],$1 | MOV [y],$1 ;\n MOV EAX,[y] | MOV EAX,[x] ;\nexists (0:EAX=0 /\\ 1:EAX=0)\n";

/// Store buffering with a fence in each thread.
pub const SBF: &str =
    "X86 SBF\n{ }\n P0 | P1 ;\n MOV [x],$1 | MOV [y],$1 ;\n MFENCE | MFENCE ;\n MOV EAX,[y] | MOV EAX,[x] ;\nexists (0:EAX=0 /\\ 1:EAX=0)\n";

/// Store buffering by exchanges.
pub const SBX: &str =
    "X86 SBX\n{ }\n P0 | P1 ;\n MOV EAX,$1 | MOV EAX,$1 ;\n XCHG [x],EAX | XCHG [y],EAX ;\n MOV EBX,[y] | MOV EBX,[x] ;\nexists (0:EBX=0 /\\ 1:EBX=0)\n";

/// Message passing: the second thread reads the later store, and the initial value of the earlier one.
pub const MP: &str =
    "X86 MP\n{ }\n P0 | P1 ;\n MOV [x],$1 | MOV EAX,[y] ;\n MOV [y],$1 | MOV EBX,[x] ;\nexists (1:EAX=1 /\\ 1:EBX=0)\n";

/// Load buffering: each thread loads, and then stores what the other loads; both read 1.
pub const LB: &str =
    "X86 LB\n{ }\n P0 | P1 ;\n MOV EAX,[x] | MOV EAX,[y] ;\n MOV [y],$1 | MOV [x],$1 ;\nexists (0:EAX=1 /\\ 1:EAX=1)\n";

/// Two readers that see two stores in different orders.
pub const IRIW: &str =
    "X86 IRIW\n{ }\n P0 | P1 | P2 | P3 ;\n MOV [x],$1 | MOV EAX,[x] | MOV [y],$1 | MOV EAX,[y] ;\n | MOV EBX,[y] | | MOV EBX,[x] ;\nexists (1:EAX=1 /\\ 1:EBX=0 /\\ 3:EAX=1 /\\ 3:EBX=0)\n";

/// Each thread reads its own store.
pub const OWN: &str =
    "X86 OWN\n{ }\n P0 | P1 ;\n MOV [x],$1 | MOV [y],$1 ;\n MOV EAX,[x] | MOV EAX,[y] ;\nexists (0:EAX=1 /\\ 1:EAX=1)\n";

/// Two stores of a thread to one location, of which it reads the first.
pub const COWW: &str =
    "X86 COWW\n{ }\n P0 ;\n MOV [x],$1 ;\n MOV [x],$2 ;\n MOV EAX,[x] ;\nexists (0:EAX=1)\n";

/// A thread that stores and fences, and another one that reads.
pub const WRF: &str =
    "X86 WRF\n{ }\n P0 | P1 ;\n MOV [x],$1 | MOV EAX,[x] ;\n MFENCE | ;\nexists (1:EAX=0)\n";
