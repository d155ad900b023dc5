//! All walkers by turns, on a history that is stored.
ghost use Rattle.std.specs.Prelude.{◌≡◌, ◌≤◌, List, []};
ghost use Rattle.seq_conv.specs.Numbers.{AreOf};
ghost use Rattle.tso_machine.specs.Event.{Event};
ghost use Rattle.perp_loop.specs.Crews.{HaveValuesOf, AreWholeFor};
ghost use Rattle.tso_runs.specs.Merging.{history_of};
ghost use Rattle.perp_loop.specs.Replaying.{owed_by};
ghost use Rattle.tso_runs.specs.Schedule.{IsScheduled};
ghost use Rattle.tso_words.specs.History.{IsFlat};

use crate::crew::{Crew, logs_of};
use crate::picks::{first_words, pick};
use load_log::Logs;
use perp_base::{MOST_THREADS, Schedule};
use tso_words::Traced;

/// Makes the run of a schedule: the walkers take turns as it says, until none has one left. The history is stored in
/// room that was reserved, at least `Crew::owed` steps. It cannot be refused and takes no memory. The crew's sequences
/// are those of the test.
pub fn replay(traced: Traced, crew: Crew<'_>, schedule: Schedule) -> (Traced, Logs)
    requires empty { traced.history ≡ [] }
    requires room { owed_by crew ≤ traced.room }
    ensures made { (run : List Event) × IsScheduled crew.entry.test crew.entry.options schedule run
        × (result.0.history ≡ history_of crew.entry.test run) × HaveValuesOf crew.entry.test run result.1.logs }
    ensures every { (run : List Event) → IsScheduled crew.entry.test crew.entry.options schedule run
        → (result.0.history ≡ history_of crew.entry.test run) × HaveValuesOf crew.entry.test run result.1.logs }
    ensures flat { IsFlat result.0.words result.0.history }
    ensures sequences { AreOf crew.entry.test crew.entry.sequences }
    ensures whole { AreWholeFor crew.entry.test crew.entry.options.iterations result.1.logs }
{
    prove!(traced.steps().is_empty());
    let (mut members, logs) = crew.parts();
    let threads = members.len();
    let mut traced = traced;
    let mut playing = [true; MOST_THREADS];
    let mut generator = first_words(schedule);
    let mut from = 0;
    while let Some(t) = pick(schedule, &mut generator, from, &playing, threads) {
        let member = &mut members[t as usize];
        let (went, after) = member.turn(traced);
        traced = after;
        playing[t as usize] = went.goes_on();
        from = t + 1;
    }
    (traced, logs_of(members, logs))
}
