//! When a buffer drains.
ghost use Rattle.std.specs.Prelude.{◌≡◌, ℕ, ◌+◌, ◌<◌, ◌≤◌, ◌^◌, ◌%◌};
ghost use Rattle.store_buffer.specs.Generator.{asks_drain};

use perp_base::WHOLE_RATE;
use rand_core::{Rng, SeedableRng};
use rand_xoshiro::Xoshiro256PlusPlus;
use std::marker::Model;

/// The seeded choice, before each action of a thread, of whether a write drains. Its rate is in 256ths: at 0 it never
/// asks, at 256 always.
#[derive(Drop)]
pub struct Drains {
    seed: u64,
    thread: u32,
    rate: u32,
    taken: u64,
    generator: Xoshiro256PlusPlus,
}

impl Model for Drains {
    ghost use Rattle.std.specs.Prelude.{ℕ, ◌≡◌, ◌≤◌};
    ghost use Rattle.store_buffer.specs.Asking.{Asking, IsAt};

    ghost Value = { Asking };

    ghost view = { λ a. record { seed = a.seed; thread = a.thread; rate = a.rate; taken = a.taken } };

    ghost invariant = { λ a. IsAt a.seed a.thread a.taken a.generator };
}

impl Drains {
    /// The choices of a thread, from the first. The generator is seeded by the sum of seed and thread, which wraps at
    /// 64 bits.
    pub fn new(seed: u64, thread: u32, rate: u32) -> Drains
        requires { rate ≤ WHOLE_RATE }
        ensures { result ≡ record { seed = seed; thread = thread; rate = rate; taken = 0 } }
    {
        Drains {
            seed,
            thread,
            rate,
            taken: 0,
            generator: Xoshiro256PlusPlus::seed_from_u64(seed.wrapping_add(u64::from(thread))),
        }
    }

    /// The next choice. It takes one word of the generator.
    pub fn next(&mut self) -> bool
        requires { self.old.taken + 1 < 2 ^ 64 }
        ensures asks { result ≡ asks_drain self.old.seed self.old.thread self.old.rate self.old.taken }
        ensures rest { self.new ≡ record self.old { taken = self.old.taken + 1 } }
    {
        self.taken += 1;
        self.generator.next_u64() % WHOLE_RATE < u64::from(self.rate)
    }
}
