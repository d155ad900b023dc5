//! The next turn of a player.
ghost use Rattle.std.specs.Prelude.{◌≡◌, ◌<◌, ◌≤◌, ◌++◌, IfOk, length, map, take, drop};
ghost use Rattle.x86_subset.specs.Shape.{IsTest};
ghost use Rattle.seq_conv.specs.Numbers.{AreOf};
ghost use Rattle.perp_base.specs.Options.{IsWithinLimits};
ghost use Rattle.perp_loop.specs.Actions.{AreInRange};
ghost use Rattle.replay_run.specs.Players.{IsSound};
ghost use Rattle.replay_run.specs.Turns.{Took, drained, words_with};

use crate::player::{At, Player, act};
use perp_base::{NoMemory, Options};
use perp_loop::{Went, due, next_position};
use run_judge::{RunEvent, RunKind};
use seq_conv::Sequences;
use store_buffer::Buffer;
use x86_subset::Test;

/// Drains the oldest writes of a thread.
fn drain(
    thread: u32,
    count: usize,
    buffer: &mut Buffer,
    words: &mut [u64],
    events: &mut Vec<RunEvent>,
) -> Result<(), NoMemory>
    requires there { count ≤ length buffer.old.entries }
    requires in_range { AreInRange buffer.old.entries }
    requires words { length words.old ≡ 16 }
    ensures rest { IfOk result (λ _. buffer.new ≡ record buffer.old { entries = drop count buffer.old.entries }) }
    ensures words { IfOk result (λ _. words.new ≡ words_with words.old (take count buffer.old.entries)) }
    ensures events { IfOk result (λ _. events.new.items
        ≡ events.old.items ++ map (drained thread) (take count buffer.old.entries)) }
{
    for _i in 0..count {
        let entry = buffer.drain_one().unwrap();
        words[entry.loc as usize] = entry.value;
        events.push(RunEvent {
            thread,
            iteration: entry.iteration,
            place: entry.place,
            kind: RunKind::Drain,
        })?;
    }
    Ok(())
}

/// Makes the player's next action with the drains before it, or drains one write after the last action; `Finished`
/// where nothing is left to do, and then nothing changes.
pub(crate) fn take_turn(
    own: &mut Player,
    test: &Test,
    sequences: &Sequences,
    options: &Options,
    words: &mut [u64],
    events: &mut Vec<RunEvent>,
) -> Result<Went, NoMemory>
    requires test { IsTest test.now }
    requires sequences { AreOf test.now sequences.now }
    requires limits { IsWithinLimits options.now }
    requires sound { IsSound test.now options.now own.old.thread own.old }
    requires words { length words.old ≡ 16 }
    ensures sound { IfOk result (λ _. IsSound test.now options.now own.old.thread own.new) }
    ensures words { IfOk result (λ _. length words.new ≡ 16) }
    ensures took { IfOk result (λ went. Took went test.now sequences.now options.now own.old words.old events.old.items
        own.new words.new events.new.items) }
{
    if own.iteration < options.iterations {
        let body = test.body(own.thread as usize);
        let action = body[own.place];
        let asks = own.drains.next();
        let count = due(action, asks, own.buffer.len(), own.buffer.capacity());
        drain(own.thread, count, &mut own.buffer, words, events)?;
        let at = At {
            iteration: own.iteration,
            place: own.place as u32,
        };
        let written = sequences.value(own.thread as usize, own.place, own.iteration);
        let kind = act(action, at, written, &mut own.buffer, words);
        events.push(RunEvent {
            thread: own.thread,
            iteration: at.iteration,
            place: at.place,
            kind,
        })?;
        let next = next_position(own.iteration, own.place, body.len());
        own.iteration = next.0;
        own.place = next.1;
        Ok(Went::Action)
    } else if own.buffer.is_empty() {
        Ok(Went::Finished)
    } else {
        drain(own.thread, 1, &mut own.buffer, words, events)?;
        Ok(Went::Action)
    }
}
