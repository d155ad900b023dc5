//! Walkers, replays and threads over worked tests of the locations x and y.
ghost use Rattle.perp_base.specs.Options.{IsWithinLimits};

use load_log::Logs;
use perp_loop::{Crew, Gate, Options, Schedule, replay, run_threads};
use seq_conv::Sequences;
use std::alloc::Global;
use std::sync::atomic::{AtomicBool, AtomicU64, Ordering};
use std::test::Fail;
use std::thread::Threads;
use tso_words::{Field, Step, Traced, TracedStep};
use worked_texts::{SB, WRF, test_of};

const X: u32 = 0;

const Y: u32 = 1;

/// Two stores, and a load of the first.
const TWO_STORES: &str =
    "X86 TWO\n{ }\n P0 ;\n MOV [x],$1 ;\n MOV [y],$1 ;\n MOV EAX,[x] ;\nexists (0:EAX=0)\n";

/// A store and a load of another location.
const STORE_AND_LOAD: &str =
    "X86 ONE\n{ }\n P0 ;\n MOV [x],$1 ;\n MOV EAX,[y] ;\nexists (0:EAX=0)\n";

/// The same with a fence between them.
const STORE_FENCE_LOAD: &str =
    "X86 FENCED\n{ }\n P0 ;\n MOV [x],$1 ;\n MFENCE ;\n MOV EAX,[y] ;\nexists (0:EAX=0)\n";

/// The same with an exchange as the store.
const SWAP_AND_LOAD: &str =
    "X86 SWAP\n{ }\n P0 ;\n MOV EAX,$1 ;\n XCHG [x],EAX ;\n MOV EBX,[y] ;\nexists (0:EBX=0)\n";

/// How often bodies are performed, at which rate of drains and with which buffers.
const ONCE: Options = Options {
    iterations: 1,
    seed: 0,
    rate: 0,
    buffer: 8,
};

const ONCE_SHORT: Options = Options {
    iterations: 1,
    seed: 0,
    rate: 0,
    buffer: 1,
};

const ONCE_DRAINED: Options = Options {
    iterations: 1,
    seed: 0,
    rate: 256,
    buffer: 8,
};

const TWICE: Options = Options {
    iterations: 2,
    seed: 0,
    rate: 0,
    buffer: 8,
};

const TWICE_DRAINED: Options = Options {
    iterations: 2,
    seed: 0,
    rate: 256,
    buffer: 8,
};

const THRICE: Options = Options {
    iterations: 3,
    seed: 0,
    rate: 64,
    buffer: 8,
};

fn store(thread: u32, loc: u32, value: u64) -> TracedStep {
    let step = Step::Store { loc, value };
    TracedStep { thread, step }
}

fn load(thread: u32, loc: u32, value: u64) -> TracedStep {
    let step = Step::Load { loc, value };
    TracedStep { thread, step }
}

fn swap(thread: u32, loc: u32, new: u64, old: u64) -> TracedStep {
    let step = Step::Swap { loc, new, old };
    TracedStep { thread, step }
}

/// The history of a text's replay by turns, and its logs.
fn replayed(alloc: Global, text: &str, options: &Options) -> Result<(Traced, Logs), Fail>
    requires { IsWithinLimits options.now }
{
    let test = test_of(alloc, text).ok_or("it is a test")?;
    let sequences = Sequences::of(alloc, &test)?;
    let crew = Crew::new(alloc, &test, &sequences, options)?;
    let traced = Traced::reserve(alloc, crew.owed())?;
    Ok(replay(traced, crew, Schedule::Turns))
}

/// The history has these steps.
fn made(traced: &Traced, steps: &[TracedStep]) -> bool {
    traced.steps() == steps
}

/// Thread `t` has one column, and logged these values in it.
fn logged(logs: &Logs, t: usize, values: &[u64]) -> bool {
    if t >= logs.len() {
        return false;
    }
    let log = logs.at(t);
    log.columns() == 1 && log.len() == values.len() && log.column(0) == values
}

#[test]
fn walkers_make_the_steps_of_their_bodies(rt: HostRuntime) -> Result<(), Fail> {
    let alloc = rt.alloc();
    let (full, _) = replayed(alloc, TWO_STORES, &ONCE_SHORT)?;
    assert!(rt; made(&full, &[store(0, X, 1), load(0, X, 1), store(0, Y, 1)]));
    let (forwarded, _) = replayed(alloc, TWO_STORES, &ONCE)?;
    assert!(rt; made(&forwarded, &[store(0, X, 1), store(0, Y, 1)]));
    let (drained, _) = replayed(alloc, STORE_AND_LOAD, &ONCE_DRAINED)?;
    assert!(rt; made(&drained, &[store(0, X, 1), load(0, Y, 0)]));
    let (fenced, _) = replayed(alloc, STORE_FENCE_LOAD, &ONCE)?;
    assert!(rt; made(&fenced, &[store(0, X, 1), load(0, Y, 0)]));
    let (swapped, _) = replayed(alloc, SWAP_AND_LOAD, &ONCE)?;
    assert!(rt; made(&swapped, &[swap(0, X, 1, 0), load(0, Y, 0)]));
    Ok(())
}

#[test]
fn replays_store_buffering_by_turns(rt: HostRuntime) -> Result<(), Fail> {
    let alloc = rt.alloc();
    let (traced, logs) = replayed(alloc, SB, &ONCE)?;
    let steps = [load(0, Y, 0), load(1, X, 0), store(0, X, 1), store(1, Y, 1)];
    assert!(rt; made(&traced, &steps));
    assert!(rt; logged(&logs, 0, &[0]) && logged(&logs, 1, &[0]));

    let (_, logs) = replayed(alloc, SB, &TWICE)?;
    assert!(rt; logged(&logs, 0, &[0, 0]) && logged(&logs, 1, &[0, 0]));

    let (traced, logs) = replayed(alloc, SB, &TWICE_DRAINED)?;
    let steps = [
        store(0, X, 1),
        load(0, Y, 0),
        store(1, Y, 1),
        load(1, X, 1),
        store(0, X, 2),
        load(0, Y, 1),
        store(1, Y, 2),
        load(1, X, 2),
    ];
    assert!(rt; made(&traced, &steps));
    assert!(rt; logged(&logs, 0, &[0, 1]) && logged(&logs, 1, &[1, 2]));
    Ok(())
}

/// How often a call looks for another one.
const MOST_LOOKS: u32 = 100000000;

/// The iterations of two threads that meet: each call sets its flag, and some wait for the flag of another one.
#[derive(Drop)]
struct Meeting {
    called: [AtomicBool; 6],
    awaited: [Option<usize>; 6],
    missed: AtomicU64,
}

/// The number of a call's flag.
fn call(thread: u32, iteration: u32) -> usize {
    thread as usize * 3 + iteration as usize
}

impl Meeting {
    fn new(awaited: [Option<usize>; 6]) -> Meeting {
        Meeting {
            called: [
                AtomicBool::new(false),
                AtomicBool::new(false),
                AtomicBool::new(false),
                AtomicBool::new(false),
                AtomicBool::new(false),
                AtomicBool::new(false),
            ],
            awaited,
            missed: AtomicU64::new(0),
        }
    }

    fn is_called(&self, call: usize) -> bool {
        match self.called.get(call) {
            Some(flag) => flag.load(Ordering::SeqCst),
            None => false,
        }
    }

    /// All calls came, and none was missed.
    fn is_passed(&self) -> bool {
        for call in 0..6 {
            if !self.is_called(call) {
                return false;
            }
        }
        self.missed.load(Ordering::SeqCst) == 0
    }

    /// Looks for a call until it has come; a look that never finds it is counted.
    fn look_for(&self, call: usize) {
        for _ in 0..MOST_LOOKS {
            if self.is_called(call) {
                return;
            }
        }
        self.missed.fetch_add(1, Ordering::SeqCst);
    }
}

impl Gate for Meeting {
    fn before(&self, thread: u32, iteration: u32) {
        let call = call(thread, iteration);
        if let Some(flag) = self.called.get(call) {
            flag.store(true, Ordering::SeqCst);
        }
        if let Some(Some(other)) = self.awaited.get(call) {
            self.look_for(*other);
        }
    }
}

/// The logs of three iterations of two threads that meet.
fn met<R: Threads + Sync>(rt: &R, alloc: Global, gate: &Meeting) -> Result<Logs, Fail> {
    let test = test_of(alloc, WRF).ok_or("it is a test")?;
    let sequences = Sequences::of(alloc, &test)?;
    let crew = Crew::new(alloc, &test, &sequences, &THRICE)?;
    let (_, logs) = run_threads(rt, Field::new(alloc)?, crew, gate);
    Ok(logs)
}

#[test]
fn threads_run_beside_one_another(rt: HostRuntime) -> Result<(), Fail> {
    // The first thread awaits the next iteration of the second one, and the second one the same iteration of the first
    // one.
    let gate = Meeting::new([Some(4), Some(5), None, None, Some(1), Some(2)]);
    let logs = met(&rt, rt.alloc(), &gate)?;
    assert!(rt; logged(&logs, 1, &[0, 1, 2]) || logged(&logs, 1, &[0, 1, 3]));
    assert!(rt; gate.is_passed());

    // The second thread begins when the first one has done two iterations, and the first one awaits the last iteration
    // of the second.
    let gate = Meeting::new([None, None, Some(5), Some(2), None, None]);
    let logs = met(&rt, rt.alloc(), &gate)?;
    assert!(rt; logged(&logs, 1, &[2, 2, 2]) || logged(&logs, 1, &[2, 2, 3]));
    assert!(rt; gate.is_passed());
    Ok(())
}
