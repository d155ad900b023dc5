//! A gate at which the two threads of a run meet: it shows that they run beside one another, and that their steps follow
//! their calls of it.
use super::*;
use std::sync::atomic::{AtomicU64, Ordering};

/// The first thread stores the number of the iteration, from 1, and fences; the other one reads.
const WRF: &str =
    "X86 WRF\n{ }\n P0 | P1 ;\n MOV [x],$1 | MOV EAX,[x] ;\n MFENCE | ;\nexists (1:EAX=0)\n";

/// How often a call looks for another one.
const MOST_LOOKS: u32 = 100_000_000;

/// The bits of all six calls.
const ALL_CALLS: u64 = 0b11_1111;

/// Each of two threads' three calls sets its bit, and looks for the bit of another call where it awaits one.
#[derive(Drop)]
struct Meeting {
    awaited: [u64; 6],
    called: AtomicU64,
    missed: AtomicU64,
}

impl Meeting {
    fn new(awaited: [u64; 6]) -> Meeting {
        Meeting {
            awaited,
            called: AtomicU64::new(0),
            missed: AtomicU64::new(0),
        }
    }

    /// All calls came, and none was missed.
    fn is_passed(&self) -> bool {
        self.called.load(Ordering::SeqCst) == ALL_CALLS && self.missed.load(Ordering::SeqCst) == 0
    }

    fn look_for(&self, other: u64) {
        for _ in 0..MOST_LOOKS {
            if self.called.load(Ordering::SeqCst) & other == other {
                return;
            }
        }
        self.missed.fetch_add(1, Ordering::SeqCst);
    }
}

impl Gate for Meeting {
    fn before(&self, thread: u32, iteration: u32) {
        let call = thread as usize * 3 + iteration as usize;
        if let Some(other) = self.awaited.get(call) {
            self.called.fetch_or(1 << call, Ordering::SeqCst);
            self.look_for(*other);
        }
    }
}

/// The bit of the call that each of the six awaits, the two texts that `skew` may write, since the last read may come
/// before or after the last store, and a line of the run that `witness` finds.
const MEETINGS: [([u64; 6], [&str; 2], &str); 2] = [
    // Two calls of each thread await a call of the other one, so the reads find 0, 1, and 2 or 3.
    (
        [1 << 4, 1 << 5, 0, 0, 1 << 1, 1 << 2],
        [
            "Skew P1 0 initial 1 least 1 greatest 1 buckets 0 0 0 0 0 2 0 0 0\n",
            "Skew P1 0 initial 1 least 0 greatest 1 buckets 0 0 0 0 1 1 0 0 0\n",
        ],
        "\nP1 1 0 read 1\n",
    ),
    // The reader begins when the writer has done two iterations, and the writer ends when the reader has begun its last
    // one, so the reads find 2, 2, and 2 or 3.
    (
        [0, 0, 1 << 5, 1 << 2, 0, 0],
        [
            "Skew P1 0 initial 0 least -1 greatest 1 buckets 0 0 0 1 1 1 0 0 0\n",
            "Skew P1 0 initial 0 least -1 greatest 0 buckets 0 0 0 1 2 0 0 0 0\n",
        ],
        "\nP1 0 0 read 2\n",
    ),
];

/// What a whole call wrote in which the threads met.
fn met<R: Threads + Sync + Abort>(
    rt: &R,
    alloc: Global,
    line: &str,
    awaited: [u64; 6],
) -> Result<MemSink, Fail> {
    let gate = Meeting::new(awaited);
    let mut source = MemSource::new(alloc, WRF.as_bytes(), 16, &[0])?;
    let ran = call_at(rt, alloc, line, &mut source, NEVER, &gate)?;
    assert_eq!(rt; (ran.status.number(), ran.words), (0, (3, 0)), "{line}");
    assert!(rt; gate.is_passed(), "gate at {line}");
    Ok(ran.out)
}

#[test]
fn threads_meet(rt: HostRuntime) -> Result<(), Fail> {
    let alloc = rt.alloc();
    for (awaited, [early, late], read) in MEETINGS {
        let skew = met(&rt, alloc, "skew 3", awaited)?;
        let told = skew.written() == early.as_bytes() || skew.written() == late.as_bytes();
        assert!(rt; told, "{early}");
        let run = met(&rt, alloc, "witness 3", awaited)?;
        let finds = str::from_utf8(run.written()).is_ok_and(|text| text.contains(read));
        assert!(rt; finds, "{read}");
    }
    Ok(())
}
