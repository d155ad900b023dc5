//! The run of a schedule.
ghost use Rattle.std.specs.Prelude.{◌≡◌, IfOk, List, map};
ghost use Rattle.perp_base.specs.Options.{IsWithinLimits};
ghost use Rattle.run_judge.specs.Judgement.{event_of, judgement_of};
ghost use Rattle.run_judge.specs.declared.judgement.Judgement.TheVariants.{Legal};
ghost use Rattle.seq_conv.specs.Numbers.{AreOf};
ghost use Rattle.tso_machine.specs.Event.{Event};
ghost use Rattle.tso_runs.specs.Schedule.{IsScheduled};

use crate::player::players_of;
use crate::turn::take_turn;
use perp_base::{MOST_LOCATIONS, MOST_THREADS, NoMemory, Options, Schedule};
use perp_loop::{first_words, pick};
use run_judge::RunEvent;
use seq_conv::Sequences;
use std::alloc::Global;
use x86_subset::Test;

/// The events of the run of a schedule, in order: the threads perform the test's bodies as the options say, drain their
/// store buffers by the seed, and take turns as the schedule says. It is refused for want of memory alone.
pub fn run_of_schedule(
    alloc: Global,
    test: &Test,
    sequences: &Sequences,
    options: &Options,
    schedule: Schedule,
) -> Result<Vec<RunEvent>, NoMemory>
    requires sequences { AreOf test.now sequences.now }
    requires limits { IsWithinLimits options.now }
    ensures run { IfOk result (λ events. IsScheduled test.now options.now schedule (map event_of events.items)) }
    ensures only { IfOk result (λ events. (run : List Event) → IsScheduled test.now options.now schedule run
        → run ≡ map event_of events.items) }
    ensures legal { IfOk result (λ events.
        judgement_of test.now options.now.iterations (map event_of events.items) ≡ Legal) }
{
    let mut players = players_of(alloc, test, options)?;
    let threads = test.threads();
    let mut words = [0u64; MOST_LOCATIONS];
    let mut events = Vec::new(alloc);
    let mut playing = [true; MOST_THREADS];
    let mut generator = first_words(schedule);
    let mut from = 0;
    while let Some(t) = pick(schedule, &mut generator, from, &playing, threads) {
        let player = &mut players[t as usize];
        let went = take_turn(player, test, sequences, options, &mut words, &mut events)?;
        playing[t as usize] = went.goes_on();
        from = t + 1;
    }
    Ok(events)
}
