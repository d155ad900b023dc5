//! A walker with its lane, which one thread works on.
ghost use Rattle.std.specs.Prelude.{◌≡◌, ◌+◌, ◌<◌, ◌≤◌, length, Some, None, IsSome};
ghost use Rattle.tso_words.specs.History.{IsFlat, thread_count};
ghost use Rattle.perp_loop.specs.Replaying.{SteppedOn};
ghost use Rattle.perp_loop.specs.Crews.{Claims, HasLane, IsFinishedAs, IsLogOf};
ghost use Rattle.perp_loop.specs.Walking.{IsFinished, owed};

use crate::gate::Gate;
use crate::resting::Resting;
use crate::walker::Walker;
use crate::went::Went;
use load_log::Log;
use std::marker::Model;
use tso_words::{Lane, Post, Traced, Words};

/// How many words keep the walkers of neighbours in different lines of a processor's cache, also where it fetches two.
const WORDS_APART: usize = 16;

/// One of a crew: a walker, and the lane with its number while that is lent. The lane's list is that of what the walker
/// stands for.
#[derive(Drop)]
pub(crate) struct Member<'a> {
    lane: Option<Lane>,
    walker: Walker<'a>,
    // Without it each thread's writes would slow its neighbour's.
    apart: [u64; WORDS_APART],
}

impl<'a> Model for Member<'a> {
    ghost use Rattle.perp_loop.specs.Crews.{Enrolled, FitsWalker};

    ghost Value = { Enrolled };

    ghost view = { λ p. record { lane = p.lane; walker = p.walker } };

    ghost invariant = { λ p. FitsWalker p.lane p.walker };
}

impl<'a> Member<'a> {
    pub(crate) fn new(walker: Walker<'a>) -> Member<'a>
        ensures { result ≡ record { lane = None; walker = walker.entry } }
    {
        Member {
            lane: None,
            walker,
            apart: [0; WORDS_APART],
        }
    }

    /// Puts the lane in.
    pub(crate) fn put(&mut self, lane: Lane)
        requires none { self.old.lane ≡ None }
        requires thread { lane.thread ≡ self.old.walker.thread }
        requires steps { Claims self.old.walker lane.steps }
        ensures { (self.new.lane ≡ Some lane) × (self.new.walker ≡ self.old.walker) }
    {
        self.lane = Some(lane);
    }

    /// Takes the lane out.
    pub(crate) fn take(&mut self) -> Lane
        requires there { IsSome self.old.lane }
        ensures lane { self.old.lane ≡ Some result }
        ensures fits { (result.thread ≡ self.old.walker.thread) × Claims self.old.walker result.steps }
        ensures left { (self.new.lane ≡ None) × (self.new.walker ≡ self.old.walker) }
    {
        self.lane.take().unwrap()
    }

    /// Takes all turns that are left, through a post of the lane.
    pub(crate) fn work<G: Gate>(&mut self, words: &Words, gate: &G)
        requires { HasLane words.now self.old }
        ensures lane { HasLane words.now self.new }
        ensures walker { IsFinishedAs self.old.walker self.new.walker }
    {
        let lane = self.lane.take().unwrap();
        let mut post = Post::new(words, lane);
        self.walker.walk(&mut post, &Resting::new(gate));
        self.lane = Some(post.lane());
    }

    /// Takes the next turn on a stored history.
    pub(crate) fn turn(&mut self, traced: Traced) -> (Went, Traced)
        requires none { self.old.lane ≡ None }
        requires thread { self.old.walker.thread < thread_count }
        requires room { owed self.old.walker + length traced.history ≤ traced.room }
        ensures none { self.new.lane ≡ None }
        ensures stepped { SteppedOn result.0 self.old.walker traced self.new.walker result.1 }
        ensures flat { IsFlat result.1.words result.1.history }
    {
        let mut port = traced.port(self.walker.thread());
        let went = self.walker.step(&mut port);
        (went, port.traced())
    }

    /// The values that the walker read.
    pub(crate) fn log(self) -> Log
        requires { IsFinished self.walker }
        ensures { IsLogOf self.entry.walker result }
    {
        let Member { lane, walker, .. } = self;
        drop(lane);
        walker.log()
    }
}
