//! The run.
ghost use Rattle.std.specs.Prelude.{◌≡◌, ◌↔◌, IfOk, IsTrue, MatchOption, map};
ghost use Rattle.seq_conv.specs.Numbers.{AreOf};
ghost use Rattle.run_judge.specs.Judgement.{event_of};
ghost use Rattle.order_run.specs.Along.{HasCycle, IsRunAlong};
ghost use Rattle.order_run.specs.Course.{AreEnded, IsCourse, marks_of};

use crate::course::{Course, begin, progress_of};
use crate::next::next_event;
use crate::perform::perform;
use crate::waiting::oldest;
use choice_search::Pair;
use perp_base::NoMemory;
use run_judge::RunEvent;
use seq_conv::Sequences;
use std::alloc::Global;
use x86_subset::Test;

/// Whether each thread has done all of its actions, and none of its stores waits.
fn are_ended(test: &Test, edges: &[Pair], course: &Course) -> bool
    requires { IsCourse test.now edges.now course.now }
    ensures { IsTrue result ↔ AreEnded test.now (marks_of course.now.threads.items) }
{
    let _count = edges.len();
    for t in 0..test.threads() as u32 {
        let own = progress_of(course, t);
        if own.done as usize != test.body(t as usize).len() {
            return false;
        }
        if let Some(_) = oldest(test, t, own) {
            return false;
        }
    }
    true
}

/// The events of a run of one iteration in which what an edge leads to comes after what it leads from, or none where
/// the edges have a cycle. The edges lead between the places of the actions, 16 to a thread.
pub fn run_along(
    alloc: Global,
    test: &Test,
    sequences: &Sequences,
    edges: &[Pair],
) -> Result<Option<Vec<RunEvent>>, NoMemory>
    requires { AreOf test.now sequences.now }
    ensures { IfOk result (λ made. MatchOption made (HasCycle test.now edges.now)
        (λ run. IsRunAlong test.now edges.now (map event_of run.items))) }
{
    let _threads = test.threads();
    let mut course = begin(alloc, test)?;
    while let Some(event) = next_event(test, sequences, edges, &course) {
        perform(test, sequences, edges, &mut course, event)?;
    }
    if are_ended(test, edges, &course) {
        Ok(Some(course.events))
    } else {
        Ok(None)
    }
}
