//! Gates at which two threads meet: they show that the walkers run beside one another, and that their steps follow
//! their calls.
use super::*;
use std::sync::atomic::{AtomicBool, AtomicU64, Ordering};

const WRF: &str =
    "X86 WRF\n{ }\n P0 | P1 ;\n MOV [x],$1 | MOV EAX,[x] ;\n MFENCE | ;\nexists (1:EAX=0)\n";

/// How often a call looks for another one.
const MOST_LOOKS: u32 = 100_000_000;

/// Each of two threads' three calls sets its flag, and some then look for the flag of another call.
#[derive(Drop)]
struct Meeting {
    called: [AtomicBool; 6],
    awaited: [Option<usize>; 6],
    missed: AtomicU64,
}

impl Meeting {
    fn new(awaited: [Option<usize>; 6]) -> Meeting {
        Meeting {
            called: [
                AtomicBool::new(false),
                AtomicBool::new(false),
                AtomicBool::new(false),
                AtomicBool::new(false),
                AtomicBool::new(false),
                AtomicBool::new(false),
            ],
            awaited,
            missed: AtomicU64::new(0),
        }
    }

    fn is_called(&self, call: usize) -> bool {
        match self.called.get(call) {
            Some(flag) => flag.load(Ordering::SeqCst),
            None => false,
        }
    }

    /// All calls came, and none was missed.
    fn is_passed(&self) -> bool {
        for call in 0..6 {
            if !self.is_called(call) {
                return false;
            }
        }
        self.missed.load(Ordering::SeqCst) == 0
    }

    fn look_for(&self, call: usize) {
        for _ in 0..MOST_LOOKS {
            if self.is_called(call) {
                return;
            }
        }
        self.missed.fetch_add(1, Ordering::SeqCst);
    }
}

impl Gate for Meeting {
    fn before(&self, thread: u32, iteration: u32) {
        let call = thread as usize * 3 + iteration as usize;
        if let Some(flag) = self.called.get(call) {
            flag.store(true, Ordering::SeqCst);
        }
        if let Some(Some(other)) = self.awaited.get(call) {
            self.look_for(*other);
        }
    }
}

/// Which call each of the six looks for, and the two ways in which the report may end.
const MEETINGS: [([Option<usize>; 6], &str, &str); 2] = [
    // Two calls of each thread look for a call of the other one.
    (
        [Some(4), Some(5), None, None, Some(1), Some(2)],
        "Frames 9\nExhaustive 6\nSeen yes\n",
        "Frames 9\nExhaustive 5\nSeen yes\n",
    ),
    // The reader begins when the writer has done two iterations, and the writer ends when the reader has begun its last
    // one.
    (
        [None, None, Some(5), Some(2), None, None],
        "Frames 9\nExhaustive 3\nSeen yes\n",
        "Frames 9\nExhaustive 2\nSeen yes\n",
    ),
];

#[test]
fn threads_meet(rt: HostRuntime) -> Result<(), Fail> {
    let alloc = rt.alloc();
    for (awaited, one, other) in MEETINGS {
        let gate = Meeting::new(awaited);
        let ran = call_at(&rt, alloc, "run 3", WRF.as_bytes(), NEVER, &gate)?;
        let ends = ran.out.ends_with(one.as_bytes()) || ran.out.ends_with(other.as_bytes());
        assert!(rt;
            ran.status.number() == 0 && gate.is_passed() && ends,
            "{one}"
        );
    }
    Ok(())
}
