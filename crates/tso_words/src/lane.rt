//! One number, which a thread steps with.
ghost use Rattle.std.specs.Prelude.{◌≡◌, ◌<◌, [], ◌∷◌, ◌++◌, refl};
ghost use Rattle.std.proofs.Common.{◌∙◌};
ghost use Rattle.tso_words.specs.History.{word_count};
ghost use Rattle.tso_words.specs.Views.{one_part};
ghost use Rattle.tso_words.specs.Seats.{IsSameLane};

use crate::field::Words;
use crate::port::Port;
use crate::rule::Parts;
use crate::step::Step;
use atomic_table::Seat;
use std::marker::Model;

/// A thread's number, lent with its list of steps. Contracts see the identity of the field too.
#[derive(Drop)]
pub struct Lane {
    pub(crate) thread: u32,
    pub(crate) seat: Seat<(), Parts>,
}

impl Model for Lane {
    ghost use Rattle.std.specs.Prelude.{◌≡◌, []};
    ghost use Rattle.tso_words.specs.Views.{one_part, first_steps};
    ghost use Rattle.tso_words.specs.Seats.{Lent};

    ghost Value = { Lent };

    ghost view = { λ l. record { identity = l.seat.table_id; thread = l.thread; steps = first_steps l.seat.me.0 } };

    ghost invariant = { λ l. l.seat.me ≡ (one_part l.thread (first_steps l.seat.me.0), []) };
}

impl Lane {
    pub(crate) fn into_seat(self) -> Seat<(), Parts>
        ensures { (result.table_id ≡ self.identity) × (result.me ≡ (one_part self.thread self.steps, [])) }
    {
        self.seat
    }

    fn load(&mut self, words: &Words, loc: u32) -> u64
        requires loc { loc < word_count }
        requires identity { self.old.identity ≡ words.now }
        ensures lane { IsSameLane self.old self.new }
        ensures steps { self.new.steps ≡ self.old.steps ++ Step.Load loc result ∷ [] }
    {
        words.load(self.thread, &mut self.seat, loc)
    }

    fn store(&mut self, words: &Words, loc: u32, value: u64)
        requires loc { loc < word_count }
        requires identity { self.old.identity ≡ words.now }
        ensures lane { IsSameLane self.old self.new }
        ensures steps { self.new.steps ≡ self.old.steps ++ Step.Store loc value ∷ [] }
    {
        words.store(self.thread, &mut self.seat, loc, value);
    }

    fn swap(&mut self, words: &Words, loc: u32, new: u64) -> u64
        requires loc { loc < word_count }
        requires identity { self.old.identity ≡ words.now }
        ensures lane { IsSameLane self.old self.new }
        ensures steps { self.new.steps ≡ self.old.steps ++ Step.Swap loc new result ∷ [] }
    {
        words.swap(self.thread, &mut self.seat, loc, new)
    }
}

/// A lent number over the shared words. Each call of `Port` is one atomic step, and any number of steps can be taken.
/// Contracts see it as its lane.
#[derive(Drop)]
pub struct Post<'a> {
    words: &'a Words,
    lane: Lane,
}

impl<'a> Model for Post<'a> {
    ghost use Rattle.std.specs.Prelude.{◌≡◌};
    ghost use Rattle.tso_words.specs.Seats.{Lent};

    ghost Value = { Lent };

    ghost view = { λ p. p.lane };

    ghost invariant = { λ p. p.lane.identity ≡ p.words.now };
}

impl<'a> Post<'a> {
    /// A port for the lane's number.
    pub fn new(words: &'a Words, lane: Lane) -> Post<'a>
        requires { lane.identity ≡ words.now }
        ensures { result ≡ lane }
    {
        Post { words, lane }
    }

    /// The lane again, with the steps that were taken.
    pub fn lane(self) -> Lane
        ensures { result ≡ self.entry }
    {
        self.lane
    }
}

impl Port for Post<'_> {
    ghost steps = { λ p. p.steps };

    ghost ready = { λ p k. Unit {0} };

    ghost kept = { IsSameLane };

    fn load(&mut self, loc: u32) -> u64 {
        self.lane.load(self.words, loc)
    }

    fn drain(&mut self, loc: u32, value: u64) {
        self.lane.store(self.words, loc, value);
    }

    fn swap(&mut self, loc: u32, new: u64) -> u64 {
        self.lane.swap(self.words, loc, new)
    }

    ghost ready_for_fewer = { λ p j k le ready. tt };

    ghost kept_at_once = { λ p. (refl, refl) };

    ghost kept_on = { λ p q r a b. (b.0 ∙ a.0, b.1 ∙ a.1) };
}
