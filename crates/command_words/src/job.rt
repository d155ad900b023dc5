//! Jobs, and the commands that ask for them.
ghost use Rattle.std.specs.Prelude.{◌≡◌};
ghost use Rattle.command_words.specs.Job.{schedule_by};

use perp_base::{Options, Schedule};
use std::marker::Model;

/// How the hits of a run are counted.
#[derive(Clone, Copy, Debug, PartialEq, Eq)]
pub enum Count {
    /// Each frame is looked at.
    Exhaustive,
    /// One frame is picked for each iteration of the base thread.
    Heuristic,
    /// Both counts are made.
    Both,
}

/// What `run` and `replay` are asked for. Each of its numbers lies within its limits (`IsWithin`).
#[derive(Clone, Copy, Debug, PartialEq, Eq)]
pub struct Job {
    /// How the run is made: 1 to 100,000 iterations, a rate of 0 to 256, a buffer of 1 to 16.
    pub options: Options,
    /// How hits are counted.
    pub count: Count,
    /// Into how many pieces the exhaustive count cuts the frames, 1 to 65,536.
    pub cut: u32,
    /// The seed of a replay's schedule. Where there is none a replay's threads take turns. A `run` has none.
    pub order: Option<u64>,
}

impl Model for Job {
    ghost use Rattle.command_words.specs.Job.{Asked, IsWithin};

    ghost Value = { Asked };

    ghost view = { λ j. record {
      options = j.options;
      count = j.count;
      cut = j.cut;
      order = j.order;
    } };

    ghost inverse = { λ a. record {
      options = a.options;
      count = a.count;
      cut = a.cut;
      order = a.order;
    } };

    ghost invariant = { λ j. IsWithin j.options j.cut };
}

/// What a count is asked for. Each of its numbers lies within its limits (`IsWithin`).
#[derive(Clone, Copy, Debug, PartialEq, Eq)]
pub struct CountJob {
    /// How the run is made: 1 to 100,000 iterations, a rate of 0 to 256, a buffer of 1 to 16.
    pub options: Options,
    /// Into how many pieces the count cuts the frames, 1 to 65,536.
    pub cut: u32,
    /// The schedule of a replay. Where there is none the test is run in threads.
    pub order: Option<Schedule>,
}

impl Model for CountJob {
    ghost use Rattle.command_words.specs.Job.{AskedCount, IsWithin};

    ghost Value = { AskedCount };

    ghost view = { λ j. record { options = j.options; cut = j.cut; order = j.order } };

    ghost inverse = { λ a. record { options = a.options; cut = a.cut; order = a.order } };

    ghost invariant = { λ j. IsWithin j.options j.cut };
}

/// What a replay of which nothing is counted is asked for. Each of its numbers lies within its limits
/// (`IsWithinLimits`).
#[derive(Clone, Copy, Debug, PartialEq, Eq)]
pub struct ReplayJob {
    /// How the run is made: 1 to 100,000 iterations, a rate of 0 to 256, a buffer of 1 to 16.
    pub options: Options,
    /// Whose turn it is.
    pub schedule: Schedule,
}

impl Model for ReplayJob {
    ghost use Rattle.perp_base.specs.Options.{IsWithinLimits};
    ghost use Rattle.command_words.specs.Job.{AskedReplay};

    ghost Value = { AskedReplay };

    ghost view = { λ j. record { options = j.options; schedule = j.schedule } };

    ghost inverse = { λ a. record { options = a.options; schedule = a.schedule } };

    ghost invariant = { λ j. IsWithinLimits j.options };
}

/// The schedule of a replay: the one of this seed, or turns where no seed is given.
pub fn schedule_for(order: Option<u64>) -> Schedule
    ensures { result ≡ schedule_by order }
{
    match order {
        None => Schedule::Turns,
        Some(seed) => Schedule::Seeded(seed),
    }
}

/// A command of the program.
#[derive(Clone, Copy, Debug, PartialEq, Eq)]
pub enum Command {
    /// Run the test that is read, in threads.
    Run(Job),
    /// Run the test that is read by a schedule, one thread at a time.
    Replay(Job),
    /// Show what the test that is read is converted to.
    Convert,
    /// Replay the text of this number.
    Demo(u64),
}
