//! A test is run by threads on a field, or replayed by a schedule.
ghost use Rattle.std.specs.Prelude.{◌≡◌, IfErr, IfOk};
ghost use Rattle.seq_conv.specs.Numbers.{AreOf};
ghost use Rattle.perp_base.specs.Options.{IsWithinLimits};
ghost use Rattle.program_edge.specs.Field.{HasReplayed, HasRunOn, IsStill};

use crate::closing::close_unused;
use load_log::Logs;
use perp_base::NoMemory;
use perp_loop::{Crew, Gate, Options, Schedule, replay, run_threads};
use seq_conv::Sequences;
use std::alloc::Global;
use std::thread::Threads;
use tso_words::{Done, Field, Traced};
use x86_subset::Test;

/// The closed field, and the logs of the run; or want of memory before its first step.
#[derive(Drop)]
pub struct Ran {
    pub done: Done,
    pub logs: Result<Logs, NoMemory>,
}

/// Runs the threads of a test on the field, as the options say. All memory that they need is taken before their first
/// step.
pub fn run_test<R: Threads + Sync, G: Gate>(
    rt: &R,
    alloc: Global,
    test: &Test,
    sequences: &Sequences,
    options: &Options,
    field: Field,
    gate: &G,
) -> Ran
    requires sequences { AreOf test.now sequences.now }
    requires limits { IsWithinLimits options.now }
    ensures identity { result.done.identity ≡ field }
    ensures ran { IfOk result.logs (λ logs. HasRunOn test.now options.now result.done logs.logs) }
    ensures still { IfErr result.logs (λ error. IsStill result.done) }
{
    match Crew::new(alloc, test, sequences, options) {
        Ok(crew) => {
            let (done, logs) = run_threads(rt, field, crew, gate);
            Ran {
                done,
                logs: Ok(logs),
            }
        }
        Err(refused) => Ran {
            done: close_unused(field),
            logs: Err(refused),
        },
    }
}

/// The logs of the run of a schedule, which one thread makes with no field.
pub fn replay_test(
    alloc: Global,
    test: &Test,
    sequences: &Sequences,
    options: &Options,
    schedule: Schedule,
) -> Result<Logs, NoMemory>
    requires sequences { AreOf test.now sequences.now }
    requires limits { IsWithinLimits options.now }
    ensures { IfOk result (λ logs. HasReplayed test.now options.now schedule logs.logs) }
{
    let crew = Crew::new(alloc, test, sequences, options)?;
    let traced = Traced::reserve(alloc, crew.owed())?;
    let (traced, logs) = replay(traced, crew, schedule);
    drop(traced);
    Ok(logs)
}
