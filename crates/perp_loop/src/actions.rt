//! The actions of a thread, on its own buffer and log and on the shared words.
ghost use Rattle.std.specs.Prelude.{◌≡◌, ℕ, ◌+◌, ◌-◌, ◌<◌, ◌≤◌, List, [], ◌∷◌, ◌++◌, length, map, take, drop, ◌↔◌, IsTrue, IsSome, unwrap_or, ◌*◌, ◌⊎◌};
ghost use Rattle.seq_conv.specs.Numbers.{row_of, value_at};
ghost use Rattle.tso_words.specs.Appended.{Appends};
ghost use Rattle.x86_subset.specs.Instr.{is_reading};
ghost use Rattle.perp_loop.specs.Actions.{most_steps, AreInRange, IsInRange, store_step, entries_after, own_steps, logged, ReadsNewest, CanAct, due_before, Makes};
ghost use Rattle.tso_runs.specs.Drained.{drains_due, kind_as};
ghost use Rattle.perp_loop.specs.Sound.{IsPosition};
ghost use Rattle.perp_base.specs.declared.limits.TheConstants.{MOST_ACTIONS, MOST_ITERATIONS};

use load_log::Log;
use seq_conv::Sequences;
use store_buffer::{Buffer, Entry};
use tso_words::Port;
use x86_subset::Instr;

/// How many writes are drained before an action.
pub fn due(action: Instr, asks: bool, len: usize, capacity: u32) -> usize
    requires room { 1 ≤ capacity }
    ensures value { result ≡ drains_due (kind_as action 0) capacity asks len }
    ensures fits { result ≤ len }
{
    let asked = usize::from(asks && len > 0);
    match action {
        Instr::Store { .. } => {
            let full = len - asked == capacity as usize;
            asked + usize::from(full)
        }
        Instr::Load { .. } => asked,
        Instr::Fence | Instr::Exchange { .. } => len,
    }
}

/// Drains the oldest writes.
pub(crate) fn drain<P: Port>(buffer: &mut Buffer, count: usize, port: &mut P)
    requires there { count ≤ length buffer.old.entries }
    requires in_range { AreInRange buffer.old.entries }
    requires ready { P.ready port.old count }
    ensures rest { buffer.new ≡ record buffer.old { entries = drop count buffer.old.entries } }
    ensures steps { Appends P.steps P.ready P.kept port.old port.new (map store_step (take count buffer.old.entries)) }
{
    for _i in 0..count {
        let entry = buffer.drain_one().unwrap();
        port.drain(entry.loc, entry.value);
    }
}

/// Where an action stands, and in which iteration it is made.
#[derive(Clone, Copy)]
pub(crate) struct At {
    pub(crate) thread: usize,
    pub(crate) place: usize,
    pub(crate) iteration: u32,
}

/// Makes an action, after its drains, and answers the value that it reads.
pub(crate) fn act<P: Port>(
    action: Instr,
    at: At,
    sequences: &Sequences,
    buffer: &mut Buffer,
    port: &mut P,
) -> Option<u64>
    requires thread { at.thread < length sequences.now.rows }
    requires place { at.place < length (row_of sequences.now at.thread) }
    requires low_place { at.place < MOST_ACTIONS }
    requires iteration { at.iteration < MOST_ITERATIONS }
    requires in_range { IsInRange action }
    requires can { CanAct action buffer.old.capacity buffer.old.entries }
    requires ready { P.ready port.old 1 }

    ensures reads { IsSome result ↔ IsTrue (is_reading action) }
    ensures newest { ReadsNewest action (unwrap_or result 0) buffer.old.entries }
    ensures buffer { let w = value_at sequences.now at.thread at.place at.iteration in
        buffer.new ≡ record buffer.old { entries = entries_after action w at.iteration at.place buffer.old.entries } }
    ensures steps { let w = value_at sequences.now at.thread at.place at.iteration in
        Appends P.steps P.ready P.kept port.old port.new (own_steps action w (unwrap_or result 0) buffer.old.entries) }
{
    match action {
        Instr::Store { loc, .. } => {
            let entry = Entry {
                loc,
                value: sequences.value(at.thread, at.place, at.iteration),
                iteration: at.iteration,
                place: at.place as u32,
            };
            let _ = buffer.push(entry);
            None
        }
        Instr::Load { loc, .. } => match buffer.newest_for(loc) {
            Some(value) => Some(value),
            None => Some(port.load(loc)),
        },
        Instr::Fence => None,
        Instr::Exchange { loc, .. } => {
            let value = sequences.value(at.thread, at.place, at.iteration);
            Some(port.swap(loc, value))
        }
    }
}

/// Makes an action, with the drains before it.
pub(crate) fn take_turn<P: Port>(
    action: Instr,
    at: At,
    asks: bool,
    sequences: &Sequences,
    buffer: &mut Buffer,
    log: &mut Log,
    port: &mut P,
)
    requires thread { at.thread < length sequences.now.rows }
    requires place { at.place < length (row_of sequences.now at.thread) }
    requires low_place { at.place < MOST_ACTIONS }
    requires iteration { at.iteration < MOST_ITERATIONS }
    requires in_range { IsInRange action }
    requires entries_in_range { AreInRange buffer.old.entries }
    requires room { IsTrue (is_reading action) → 1 ≤ log.old.spare }
    requires ready { P.ready port.old (length buffer.old.entries + 1) ⊎ P.ready port.old most_steps }
    ensures { let w = value_at sequences.now at.thread at.place at.iteration in
        Makes P.steps P.ready P.kept action w at.iteration at.place asks buffer.old log.old port.old buffer.new log.new port.new }
{
    let count = due(action, asks, buffer.len(), buffer.capacity());
    drain(buffer, count, port);
    if let Some(value) = act(action, at, sequences, buffer, port) {
        log.put(value);
    }
}

/// The iteration of the first action, in a loop of a body of this length. A loop without actions is at its end.
pub fn first_iteration(len: usize, iterations: u32) -> u32
    ensures first { result * len ≡ 0 }
    ensures stands { IsPosition iterations len result 0 }
{
    if len == 0 { iterations } else { 0 }
}

/// Where the next action stands, by its iteration and place, in a body of this length.
pub fn next_position(iteration: u32, place: usize, len: usize) -> (u32, usize)
    requires place { place < len }
    requires short { len ≤ MOST_ACTIONS }
    requires iteration { iteration < MOST_ITERATIONS }
    ensures further { result.0 * len + result.1 ≡ iteration * len + place + 1 }
    ensures stands { (n : ℕ) → iteration < n → IsPosition n len result.0 result.1 }
{
    if place + 1 < len {
        (iteration, place + 1)
    } else {
        (iteration + 1, 0)
    }
}
