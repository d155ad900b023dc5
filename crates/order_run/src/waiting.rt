//! The actions of a test, and what waits in a thread's store buffer.
ghost use Rattle.std.specs.Prelude.{◌≡◌, ◌<◌, ◌≤◌, length, map, slice_get, MatchOption, Some};
ghost use Rattle.x86_subset.specs.Instr.{is_store_to};
ghost use Rattle.x86_subset.specs.Test.{body_of};
ghost use Rattle.tso_machine.specs.Machine.{newest};
ghost use Rattle.tso_machine.specs.Part.{Slot};
ghost use Rattle.seq_conv.specs.Numbers.{AreOf};
ghost use Rattle.run_witness.specs.Marks.{is_storing, loop_of, waiting};
ghost use Rattle.run_witness.specs.Stage.{slot_write};
ghost use Rattle.run_orders.specs.Course.{IsOldest, StoresNone};

use crate::course::Progress;
use seq_conv::Sequences;
use verdict::Node;
use x86_subset::{Instr, Test};

/// The action at a node.
pub fn action_of(test: &Test, n: Node) -> Instr
    requires thread { n.thread < length test.now.bodies }
    requires place { n.place < length (body_of test.now n.thread) }
    ensures { slice_get (body_of test.now n.thread) n.place ≡ Some result }
{
    test.body(n.thread as usize)[n.place as usize]
}

/// Whether the action is a store or an exchange.
pub fn is_storing(action: Instr) -> bool
    ensures { result ≡ is_storing action }
{
    matches!(action, Instr::Store { .. } | Instr::Exchange { .. })
}

/// Whether the action is a store or an exchange of the location.
fn is_store_to(loc: u32, action: Instr) -> bool
    ensures { result ≡ is_store_to loc action }
{
    match action {
        Instr::Store { loc: other, .. } => other == loc,
        Instr::Exchange { loc: other, .. } => other == loc,
        _ => false,
    }
}

/// The place of a thread's oldest store that waits.
pub fn oldest(test: &Test, t: u32, own: Progress) -> Option<u32>
    requires thread { t < length test.now.bodies }
    requires within { own.done ≤ length (body_of test.now t) }
    ensures { MatchOption result (StoresNone test.now 1 t own.drained own.done)
        (λ place. (s : Slot) × IsOldest test.now 1 t own.drained own.done place s) }
{
    for place in own.drained..own.done {
        if is_storing(action_of(test, Node { thread: t, place })) {
            return Some(place);
        }
    }
    None
}

/// The value of a thread's newest store to a location that waits.
pub fn newest(test: &Test, sequences: &Sequences, t: u32, own: Progress, loc: u32) -> Option<u64>
    requires same { AreOf test.now sequences.now }
    requires thread { t < length test.now.bodies }
    requires order { own.drained ≤ own.done }
    requires within { own.done ≤ length (body_of test.now t) }
    ensures { result ≡ newest loc (map (slot_write test.now t) (waiting (loop_of test.now 1 t) own.drained own.done)) }
{
    let mut found = None;
    for place in own.drained..own.done {
        if is_store_to(loc, action_of(test, Node { thread: t, place })) {
            found = Some(sequences.value(t as usize, place as usize, 0));
        }
    }
    found
}
