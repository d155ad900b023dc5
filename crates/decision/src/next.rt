//! The events that can be next.
ghost use Rattle.std.specs.Prelude.{◌≡◌, ℕ, ◌<◌, length, MatchOption, Some};
ghost use Rattle.seq_conv.specs.Sequence.{action_at, site_location};
ghost use Rattle.x86_subset.specs.Shape.{IsTest};
ghost use Rattle.x86_subset.specs.Test.{body_of};
ghost use Rattle.run_judge.specs.Judgement.{event_of, kind_of_run};
ghost use Rattle.decision.specs.Course.{IsCase, IsCourse, IsDeedHeld, IsDrainHeld, IsHeld, IsNextIn, IsWaiting, marks_of};

use crate::course::{Course, progress_of};
use crate::early::{is_early, is_write_early};
use crate::waiting::{action_of, newest, oldest};
use profile_check::Checked;
use run_judge::{RunEvent, RunKind};
use seq_conv::Sequences;
use verdict::{Asked, Node};
use x86_subset::{Instr, Test};

/// The location of an action; 0 at a fence.
pub fn location(test: &Test, n: Node) -> u32
    requires test { IsTest test.now }
    requires thread { n.thread < length test.now.bodies }
    requires place { n.place < length (body_of test.now n.thread) }
    ensures is { result ≡ site_location test.now (record { thread = n.thread; place = n.place }) }
    ensures limit { result < 16 }
{
    match action_of(test, n) {
        Instr::Store { loc, .. } => loc,
        Instr::Load { loc, .. } => loc,
        Instr::Exchange { loc, .. } => loc,
        Instr::Fence => 0,
    }
}

/// The Drain of a thread's oldest write, if it is not too early.
fn drain_of(
    checked: &Checked,
    sequences: &Sequences,
    conjunction: u32,
    asked: &[Asked],
    course: &Course,
    t: u32,
) -> Option<RunEvent>
    requires case { IsCase checked.now sequences.now conjunction asked.now }
    requires course { IsCourse checked.now conjunction course.now }
    requires thread { t < length checked.now.test.bodies }
    ensures { MatchOption result (IsDrainHeld checked.now.test asked.now (marks_of course.now.threads.items) t)
        (λ e. IsNextIn checked.now conjunction course.now (event_of e)) }
{
    let test = checked.test();
    match oldest(test, t, progress_of(course, t)) {
        Some(place) => {
            if is_write_early(course, asked, Node { thread: t, place }) {
                return None;
            }
            Some(RunEvent {
                thread: t,
                iteration: 0,
                place,
                kind: RunKind::Drain,
            })
        }
        None => None,
    }
}

/// What a thread's next action does, if it need not wait.
fn deed_kind(
    checked: &Checked,
    sequences: &Sequences,
    conjunction: u32,
    asked: &[Asked],
    course: &Course,
    n: Node,
) -> Option<RunKind>
    requires case { IsCase checked.now sequences.now conjunction asked.now }
    requires course { IsCourse checked.now conjunction course.now }
    requires thread { n.thread < length checked.now.test.bodies }
    requires here { n.place ≡ (marks_of course.now.threads.items n.thread).done }
    requires place { n.place < length (body_of checked.now.test n.thread) }
    ensures { MatchOption result (IsWaiting checked.now.test asked.now (marks_of course.now.threads.items) n.thread)
        (λ k. IsNextIn checked.now conjunction course.now (record {
          thread = n.thread;
          iteration = 0;
          place = n.place;
          kind = kind_of_run k;
        })) }
{
    let test = checked.test();
    let action = action_of(test, n);
    if is_early(course, asked, n, action) {
        return None;
    }
    let own = progress_of(course, n.thread);
    let loc = location(test, n);
    let word = course.memory[loc as usize];
    match action {
        Instr::Store { .. } => Some(RunKind::Push),
        Instr::Load { .. } => {
            let value = newest(test, sequences, n.thread, own, loc).unwrap_or(word);
            Some(RunKind::Read { value })
        }
        Instr::Fence => match oldest(test, n.thread, own) {
            Some(_) => None,
            None => Some(RunKind::Fence),
        },
        Instr::Exchange { .. } => match oldest(test, n.thread, own) {
            Some(_) => None,
            None => Some(RunKind::Exchange { value: word }),
        },
    }
}

/// A thread's next action, if it need not wait.
fn deed_of(
    checked: &Checked,
    sequences: &Sequences,
    conjunction: u32,
    asked: &[Asked],
    course: &Course,
    t: u32,
) -> Option<RunEvent>
    requires case { IsCase checked.now sequences.now conjunction asked.now }
    requires course { IsCourse checked.now conjunction course.now }
    requires thread { t < length checked.now.test.bodies }
    ensures { MatchOption result (IsDeedHeld checked.now.test asked.now (marks_of course.now.threads.items) t)
        (λ e. IsNextIn checked.now conjunction course.now (event_of e)) }
{
    let place = progress_of(course, t).done;
    if place as usize == checked.test().body(t as usize).len() {
        return None;
    }
    match deed_kind(
        checked,
        sequences,
        conjunction,
        asked,
        course,
        Node { thread: t, place },
    ) {
        Some(kind) => Some(RunEvent {
            thread: t,
            iteration: 0,
            place,
            kind,
        }),
        None => None,
    }
}

/// An event that can be next, if there is one.
pub fn next_event(
    checked: &Checked,
    sequences: &Sequences,
    conjunction: u32,
    asked: &[Asked],
    course: &Course,
) -> Option<RunEvent>
    requires case { IsCase checked.now sequences.now conjunction asked.now }
    requires course { IsCourse checked.now conjunction course.now }
    ensures { MatchOption result ((t : ℕ) → t < length checked.now.test.bodies
        → IsHeld checked.now.test asked.now (marks_of course.now.threads.items) t)
        (λ e. IsNextIn checked.now conjunction course.now (event_of e)) }
{
    for t in 0..checked.test().threads() as u32 {
        if let Some(event) = drain_of(checked, sequences, conjunction, asked, course, t) {
            return Some(event);
        }
        if let Some(event) = deed_of(checked, sequences, conjunction, asked, course, t) {
            return Some(event);
        }
    }
    None
}
