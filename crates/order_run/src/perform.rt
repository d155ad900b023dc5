//! One event more.
ghost use Rattle.std.specs.Prelude.{◌≡◌, ◌<◌, ◌^◌, OnOk, length};
ghost use Rattle.seq_conv.specs.Numbers.{AreOf};
ghost use Rattle.tso_machine.specs.Source.{is_memory_kind};
ghost use Rattle.run_judge.specs.Judgement.{event_of, kind_of_run};
ghost use Rattle.run_orders.specs.Course.{mark_then, total};
ghost use Rattle.order_run.specs.Course.{IsCourse, IsNextIn, mark_of, marks_of};
ghost use Rattle.choice_search.specs.declared.graph.Pair.{Pair as PairSeen};

use crate::course::{Course, Progress, progress_of};
use crate::next::location;
use choice_search::Pair;
use perp_base::NoMemory;
use run_judge::{RunEvent, RunKind};
use seq_conv::Sequences;
use verdict::Node;
use x86_subset::Test;

/// How far a thread has come after an event.
fn progress_after(own: Progress, kind: RunKind, place: u32) -> Progress
    requires done { own.done < 2 ^ 31 }
    requires place { place < 2 ^ 31 }
    ensures { mark_of result ≡ mark_then (kind_of_run kind) place (mark_of own) }
{
    match kind {
        RunKind::Push | RunKind::Read { .. } | RunKind::Fence => Progress {
            done: own.done + 1,
            drained: own.drained,
        },
        RunKind::Drain => Progress {
            done: own.done,
            drained: place + 1,
        },
        RunKind::Exchange { .. } => Progress {
            done: own.done + 1,
            drained: own.done + 1,
        },
    }
}

/// Whether an event of this kind changes memory.
fn is_write(kind: RunKind) -> bool
    ensures { result ≡ is_memory_kind (kind_of_run kind) }
{
    matches!(kind, RunKind::Drain | RunKind::Exchange { .. })
}

/// Executes an event that can be next.
pub fn perform(
    test: &Test,
    sequences: &Sequences,
    edges: &[Pair],
    course: &mut Course,
    event: RunEvent,
) -> Result<(), NoMemory>
    requires same { AreOf test.now sequences.now }
    requires course { IsCourse test.now edges.now course.old }
    requires next { IsNextIn test.now edges.now course.old (event_of event) }
    ensures course { OnOk result (IsCourse test.now edges.now course.new) }
    ensures less { OnOk result (total test.now 1 (marks_of course.new.threads.items) (length test.now.bodies)
        < total test.now 1 (marks_of course.old.threads.items) (length test.now.bodies)) }
{
    let _threads = test.threads();
    let _count = edges.len();
    let (t, place) = (event.thread as usize, event.place as usize);
    let own = progress_after(progress_of(course, event.thread), event.kind, event.place);
    course.events.push(event)?;
    course.threads[t] = own;
    if is_write(event.kind) {
        let loc = location(
            test,
            Node {
                thread: event.thread,
                place: event.place,
            },
        );
        course.memory[loc as usize] = sequences.value(t, place, event.iteration);
    }
    Ok(())
}
