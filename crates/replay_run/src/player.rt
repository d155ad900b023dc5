//! What one thread has come to, and its next action.
ghost use Rattle.std.specs.Prelude.{◌≡◌, ℕ, ◌<◌, ◌≤◌, length, IfOk, slice_index_or};
ghost use Rattle.perp_base.specs.Options.{IsWithinLimits};
ghost use Rattle.perp_loop.specs.Actions.{CanAct, IsInRange, entries_after};
ghost use Rattle.replay_run.specs.Players.{IsFresh};
ghost use Rattle.replay_run.specs.Turns.{kind_of, value_found, words_after};

use perp_base::{NoMemory, Options};
use perp_loop::first_iteration;
use run_judge::RunKind;
use std::alloc::Global;
use store_buffer::{Buffer, Drains, Entry};
use x86_subset::{Instr, Test};

/// A thread of a replay: where its next action stands, the words that ask for drains, and its store buffer.
#[derive(Drop)]
pub(crate) struct Player {
    pub(crate) thread: u32,
    pub(crate) iteration: u32,
    pub(crate) place: usize,
    pub(crate) drains: Drains,
    pub(crate) buffer: Buffer,
}

/// A player for each thread of a test, none of which has done anything yet.
pub(crate) fn players_of(
    alloc: Global,
    test: &Test,
    options: &Options,
) -> Result<Vec<Player>, NoMemory>
    requires limits { IsWithinLimits options.now }
    ensures count { IfOk result (λ v. length v.items ≡ length test.now.bodies) }
    ensures fresh { IfOk result (λ v. (t : ℕ) (d : Player) → t < length v.items
        → IsFresh test.now options.now t (slice_index_or v.items t d)) }
{
    let mut players = Vec::new(alloc);
    for t in 0..test.threads() {
        players.push(Player {
            thread: t as u32,
            iteration: first_iteration(test.body(t).len(), options.iterations),
            place: 0,
            drains: Drains::new(options.seed, t as u32, options.rate),
            buffer: Buffer::new(options.buffer),
        })?;
    }
    Ok(players)
}

/// Where an action stands in its thread, and in which iteration it is made.
#[derive(Clone, Copy)]
pub(crate) struct At {
    pub(crate) iteration: u32,
    pub(crate) place: u32,
}

/// Makes an action, after its drains, on a buffer and the words of memory; `written` is what a store or an exchange
/// writes.
pub(crate) fn act(
    action: Instr,
    at: At,
    written: u64,
    buffer: &mut Buffer,
    words: &mut [u64],
) -> RunKind
    requires words { length words.old ≡ 16 }
    requires in_range { IsInRange action }
    requires can { CanAct action buffer.old.capacity buffer.old.entries }
    ensures kind { result ≡ kind_of action (value_found action words.old buffer.old.entries) }
    ensures buffer { buffer.new ≡ record buffer.old {
      entries = entries_after action written at.iteration at.place buffer.old.entries;
    } }
    ensures words { words.new ≡ words_after action written words.old }
{
    match action {
        Instr::Store { loc, .. } => {
            let entry = Entry {
                loc,
                value: written,
                iteration: at.iteration,
                place: at.place,
            };
            let _ = buffer.push(entry);
            RunKind::Push
        }
        Instr::Load { loc, .. } => {
            let value = match buffer.newest_for(loc) {
                Some(value) => value,
                None => words[loc as usize],
            };
            RunKind::Read { value }
        }
        Instr::Fence => RunKind::Fence,
        Instr::Exchange { loc, .. } => {
            let value = words[loc as usize];
            words[loc as usize] = written;
            RunKind::Exchange { value }
        }
    }
}
