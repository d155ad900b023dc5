//! The events that can be next.
ghost use Rattle.std.specs.Prelude.{◌≡◌, ℕ, ◌<◌, length, MatchOption, Some};
ghost use Rattle.seq_conv.specs.Numbers.{AreOf};
ghost use Rattle.seq_conv.specs.Sequence.{site_location};
ghost use Rattle.x86_subset.specs.Shape.{IsTest};
ghost use Rattle.x86_subset.specs.Test.{body_of};
ghost use Rattle.run_judge.specs.Judgement.{event_of, kind_of_run};
ghost use Rattle.order_run.specs.Course.{IsActHeld, IsCourse, IsDrainHeld, IsHeld, IsNextIn, IsWaiting, marks_of};

use crate::course::{Course, progress_of};
use crate::free::is_held;
use crate::waiting::{action_of, newest, oldest};
use choice_search::Pair;
use run_judge::{RunEvent, RunKind};
use seq_conv::Sequences;
use verdict::Node;
use x86_subset::{Instr, Test};

/// The location of an action; 0 at a fence.
pub fn location(test: &Test, n: Node) -> u32
    requires test { IsTest test.now }
    requires thread { n.thread < length test.now.bodies }
    requires place { n.place < length (body_of test.now n.thread) }
    ensures is { result ≡ site_location test.now (record { thread = n.thread; place = n.place }) }
    ensures limit { result < 16 }
{
    match action_of(test, n) {
        Instr::Store { loc, .. } => loc,
        Instr::Load { loc, .. } => loc,
        Instr::Exchange { loc, .. } => loc,
        Instr::Fence => 0,
    }
}

/// The Drain of a thread's oldest store, if no edge holds it back.
fn drain_of(test: &Test, edges: &[Pair], course: &Course, t: u32) -> Option<RunEvent>
    requires course { IsCourse test.now edges.now course.now }
    requires thread { t < length test.now.bodies }
    ensures { MatchOption result (IsDrainHeld test.now edges.now (marks_of course.now.threads.items) t)
        (λ e. IsNextIn test.now edges.now course.now (event_of e)) }
{
    let _threads = test.threads();
    match oldest(test, t, progress_of(course, t)) {
        Some(place) => {
            if is_held(test, edges, course, t * 16 + place) {
                return None;
            }
            Some(RunEvent {
                thread: t,
                iteration: 0,
                place,
                kind: RunKind::Drain,
            })
        }
        None => None,
    }
}

/// What a thread's next action does, if it need not wait.
fn deed_kind(
    test: &Test,
    sequences: &Sequences,
    edges: &[Pair],
    course: &Course,
    n: Node,
) -> Option<RunKind>
    requires same { AreOf test.now sequences.now }
    requires course { IsCourse test.now edges.now course.now }
    requires thread { n.thread < length test.now.bodies }
    requires here { n.place ≡ (marks_of course.now.threads.items n.thread).done }
    requires place { n.place < length (body_of test.now n.thread) }
    ensures { MatchOption result (IsWaiting test.now edges.now (marks_of course.now.threads.items) n.thread)
        (λ k. IsNextIn test.now edges.now course.now (record {
          thread = n.thread;
          iteration = 0;
          place = n.place;
          kind = kind_of_run k;
        })) }
{
    let _threads = test.threads();
    let own = progress_of(course, n.thread);
    let loc = location(test, n);
    let word = course.memory[loc as usize];
    let place = n.thread * 16 + n.place;
    match action_of(test, n) {
        Instr::Store { .. } => Some(RunKind::Push),
        Instr::Load { .. } => {
            if is_held(test, edges, course, place) {
                return None;
            }
            let value = newest(test, sequences, n.thread, own, loc).unwrap_or(word);
            Some(RunKind::Read { value })
        }
        Instr::Fence => match oldest(test, n.thread, own) {
            Some(_) => None,
            None => Some(RunKind::Fence),
        },
        Instr::Exchange { .. } => match oldest(test, n.thread, own) {
            Some(_) => None,
            None => {
                if is_held(test, edges, course, place) {
                    return None;
                }
                Some(RunKind::Exchange { value: word })
            }
        },
    }
}

/// A thread's next action, if it need not wait.
fn deed_of(
    test: &Test,
    sequences: &Sequences,
    edges: &[Pair],
    course: &Course,
    t: u32,
) -> Option<RunEvent>
    requires same { AreOf test.now sequences.now }
    requires course { IsCourse test.now edges.now course.now }
    requires thread { t < length test.now.bodies }
    ensures { MatchOption result (IsActHeld test.now edges.now (marks_of course.now.threads.items) t)
        (λ e. IsNextIn test.now edges.now course.now (event_of e)) }
{
    let place = progress_of(course, t).done;
    if place as usize == test.body(t as usize).len() {
        return None;
    }
    match deed_kind(test, sequences, edges, course, Node { thread: t, place }) {
        Some(kind) => Some(RunEvent {
            thread: t,
            iteration: 0,
            place,
            kind,
        }),
        None => None,
    }
}

/// An event that can be next, if there is one.
pub fn next_event(
    test: &Test,
    sequences: &Sequences,
    edges: &[Pair],
    course: &Course,
) -> Option<RunEvent>
    requires same { AreOf test.now sequences.now }
    requires course { IsCourse test.now edges.now course.now }
    ensures { MatchOption result ((t : ℕ) → t < length test.now.bodies
        → IsHeld test.now edges.now (marks_of course.now.threads.items) t)
        (λ e. IsNextIn test.now edges.now course.now (event_of e)) }
{
    for t in 0..test.threads() as u32 {
        if let Some(event) = drain_of(test, edges, course, t) {
            return Some(event);
        }
        if let Some(event) = deed_of(test, sequences, edges, course, t) {
            return Some(event);
        }
    }
    None
}
