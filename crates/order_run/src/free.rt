//! Which places edges hold back.
ghost use Rattle.std.specs.Prelude.{◌≡◌};
ghost use Rattle.seq_conv.specs.Sequence.{action_at};
ghost use Rattle.verdict.specs.Edges.{site};
ghost use Rattle.order_run.specs.Course.{holds_back, is_held, is_open, marks_of};

use crate::course::{Course, progress_of};
use choice_search::Pair;
use verdict::Node;
use x86_subset::{Instr, Test};

/// The action at a node, if there is one.
fn action_at(test: &Test, n: Node) -> Option<Instr>
    ensures { result ≡ action_at test.now (site n) }
{
    let t = n.thread as usize;
    if t < test.threads() {
        test.body(t).get(n.place as usize).copied()
    } else {
        None
    }
}

/// Whether the moment of what stands at a node is still to come: that of a store is when it reaches memory, and that
/// of a load or an exchange when it is done.
fn is_open(test: &Test, course: &Course, n: Node) -> bool
    ensures { result ≡ is_open test.now (marks_of course.now.threads.items) n.thread n.place }
{
    match action_at(test, n) {
        Some(Instr::Store { .. } | Instr::Exchange { .. }) => {
            progress_of(course, n.thread).drained <= n.place
        }
        Some(Instr::Load { .. }) => progress_of(course, n.thread).done <= n.place,
        Some(Instr::Fence) | None => false,
    }
}

/// Whether an edge leads to a place from one whose moment is still to come.
fn holds_back(test: &Test, course: &Course, place: u32, edge: Pair) -> bool
    ensures { result ≡ holds_back test.now (marks_of course.now.threads.items) place edge }
{
    edge.second == place
        && is_open(
            test,
            course,
            Node {
                thread: edge.first / 16,
                place: edge.first % 16,
            },
        )
}

/// Whether one of the edges does.
pub fn is_held(test: &Test, edges: &[Pair], course: &Course, place: u32) -> bool
    ensures { result ≡ is_held test.now edges.now (marks_of course.now.threads.items) place }
{
    edges
        .iter()
        .any(|edge| holds_back(test, course, place, *edge))
}
