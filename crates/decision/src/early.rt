//! What must not happen yet, for an atom's sake.
ghost use Rattle.std.specs.Prelude.{◌≡◌};
ghost use Rattle.std.specs.List.{list_any};
ghost use Rattle.decision.specs.Course.{is_early, marks_of, reads_early, source_open, writes_early};
ghost use Rattle.run_witness.specs.Marks.{is_storing};
ghost use Rattle.x86_subset.specs.Instr.{is_store_to};

use crate::course::{Course, progress_of};
use verdict::{Asked, Node, is_same};
use x86_subset::Instr;

/// Whether the action is a store or an exchange.
pub fn is_storing(action: Instr) -> bool
    ensures { result ≡ is_storing action }
{
    match action {
        Instr::Store { .. } | Instr::Exchange { .. } => true,
        _ => false,
    }
}

/// Whether the action is a store or an exchange of the location.
pub fn is_store_to(loc: u32, action: Instr) -> bool
    ensures { result ≡ is_store_to loc action }
{
    match action {
        Instr::Store { loc: other, .. } => other == loc,
        Instr::Exchange { loc: other, .. } => other == loc,
        _ => false,
    }
}

/// Whether the write that an atom's reader reads from is not in memory yet.
fn source_open(course: &Course, source: Option<Node>) -> bool
    ensures { result ≡ source_open (marks_of course.now.threads.items) source }
{
    match source {
        Some(write) => progress_of(course, write.thread).drained <= write.place,
        None => false,
    }
}

/// Whether an atom's reader, here, would read before its source is in memory.
fn reads_early(course: &Course, n: Node, atom: &Asked) -> bool
    ensures { result ≡ reads_early (marks_of course.now.threads.items) n atom.now }
{
    is_same(atom.reader, n) && source_open(course, atom.source)
}

/// Whether an atom's follower, here, would write before its reader has read.
fn writes_early(course: &Course, n: Node, atom: &Asked) -> bool
    ensures { result ≡ writes_early (marks_of course.now.threads.items) n atom.now }
{
    match atom.follower {
        Some(follower) => {
            is_same(follower, n)
                && progress_of(course, atom.reader.thread).done <= atom.reader.place
        }
        None => false,
    }
}

/// Whether a write to memory is too early for some atom.
pub fn is_write_early(course: &Course, asked: &[Asked], n: Node) -> bool
    ensures { result ≡ list_any (writes_early (marks_of course.now.threads.items) n) asked.now }
{
    asked.iter().any(|atom| writes_early(course, n, atom))
}

/// Whether a read is too early for some atom.
fn is_read_early(course: &Course, asked: &[Asked], n: Node) -> bool
    ensures { result ≡ list_any (reads_early (marks_of course.now.threads.items) n) asked.now }
{
    asked.iter().any(|atom| reads_early(course, n, atom))
}

/// Whether an action would read or write memory too early.
pub fn is_early(course: &Course, asked: &[Asked], n: Node, action: Instr) -> bool
    ensures { result ≡ is_early action asked.now (marks_of course.now.threads.items) n }
{
    match action {
        Instr::Store { .. } | Instr::Fence => false,
        Instr::Load { .. } => is_read_early(course, asked, n),
        Instr::Exchange { .. } => is_read_early(course, asked, n)
            || is_write_early(course, asked, n),
    }
}
