//! Whose turn it is.
ghost use Rattle.std.specs.Prelude.{◌≡◌, ℕ, ◌+◌, ◌≤◌, ◌%◌, ◌<◌, IsSome, length, slice_get, find, nat_le};
ghost use Rattle.std.specs.Option.{option_or};
ghost use Rattle.store_buffer.specs.Generator.{generator_word};
ghost use Rattle.tso_words.specs.History.{thread_count};
ghost use Rattle.perp_loop.specs.Replaying.{IsAtTurn, players_in};
ghost use Rattle.tso_runs.specs.Schedule.{named};

use arrayvec::ArrayVec;
use perp_base::{MOST_THREADS, Schedule};
use rand_core::{Rng, SeedableRng};
use rand_xoshiro::Xoshiro256PlusPlus;

/// The schedule's generator, before its first word.
pub fn first_words(schedule: Schedule) -> Xoshiro256PlusPlus
    ensures { IsAtTurn schedule 0 result }
{
    match schedule {
        Schedule::Turns => Xoshiro256PlusPlus::seed_from_u64(0),
        Schedule::Seeded(seed) => Xoshiro256PlusPlus::seed_from_u64(seed),
    }
}

/// The threads that are playing, in rising order.
fn list_playing(playing: &[bool; MOST_THREADS], threads: usize) -> ArrayVec<u32, MOST_THREADS>
    requires few { threads ≤ thread_count }
    ensures { result.items ≡ players_in playing.now threads }
{
    let mut left = ArrayVec::new();
    for t in 0..threads {
        if playing[t] {
            left.push(t as u32);
        }
    }
    left
}

/// The first thread from this one on, or else the first.
fn in_order(from: u32, left: &[u32]) -> Option<u32>
    ensures { result ≡ option_or (find (nat_le from) left.now) (slice_get left.now 0) }
{
    for i in 0..left.len() {
        if from <= left[i] {
            return Some(left[i]);
        }
    }
    left.first().copied()
}

/// The thread that the next word picks.
fn by_word(generator: &mut Xoshiro256PlusPlus, seed: u64, left: &[u32]) -> Option<u32>
    ensures named { (i : ℕ) → IsAtTurn (Schedule.Seeded seed) i generator.old
        → result ≡ slice_get left.now (generator_word seed i % length left.now) }
    ensures at { (i : ℕ) → IsAtTurn (Schedule.Seeded seed) i generator.old → IsSome result
        → IsAtTurn (Schedule.Seeded seed) (i + 1) generator.new }
{
    if left.is_empty() {
        None
    } else {
        let word = generator.next_u64();
        let index = (word % left.len() as u64) as usize;
        Some(left[index])
    }
}

/// The thread that takes the next turn, if any is playing.
pub fn pick(
    schedule: Schedule,
    generator: &mut Xoshiro256PlusPlus,
    from: u32,
    playing: &[bool; MOST_THREADS],
    threads: usize,
) -> Option<u32>
    requires few { threads ≤ thread_count }
    ensures named { (i : ℕ) → IsAtTurn schedule i generator.old
        → result ≡ named schedule i from (players_in playing.now threads) }
    ensures at { (i : ℕ) → IsAtTurn schedule i generator.old → IsSome result → IsAtTurn schedule (i + 1) generator.new }
{
    let left = list_playing(playing, threads);
    match schedule {
        Schedule::Turns => in_order(from, left.as_slice()),
        Schedule::Seeded(seed) => by_word(generator, seed, left.as_slice()),
    }
}
