//! The walkers of a test.
ghost use Rattle.std.specs.Prelude.{◌≡◌, ℕ, ◌<◌, ◌≤◌, [], length, IfOk};
ghost use Rattle.seq_conv.specs.Numbers.{AreOf};
ghost use Rattle.perp_loop.specs.Crews.{AllFinished, AreLogs, IsCrew};
ghost use Rattle.perp_loop.specs.Replaying.{owed_by};
ghost use Rattle.perp_base.specs.Options.{IsWithinLimits};

use crate::member::Member;
use crate::walker::Walker;
use load_log::Logs;
use perp_base::{NoMemory, Options};
use seq_conv::Sequences;
use std::alloc::Global;
use std::marker::Model;
use x86_subset::Test;

/// One walker for each thread of a test, none of which has done anything yet, and room for their logs. Contracts see
/// the test, its sequences and the options.
#[derive(Drop)]
pub struct Crew<'a> {
    test: &'a Test,
    sequences: &'a Sequences,
    options: Options,
    members: Vec<Member<'a>>,
    logs: Logs,
}

impl<'a> Model for Crew<'a> {
    ghost use Rattle.perp_loop.specs.Crews.{Job, IsCrew};

    ghost Value = { Job };

    ghost view = { λ a. record { test = a.test.now; sequences = a.sequences.now; options = a.options } };

    ghost invariant = { λ a.
        let job : Job = record { test = a.test.now; sequences = a.sequences.now; options = a.options } in
        IsCrew job a.members.items a.logs };
}

impl<'a> Crew<'a> {
    /// All walkers, with room for all that they will log. No later call of the crew takes memory.
    pub fn new(
        alloc: Global,
        test: &'a Test,
        sequences: &'a Sequences,
        options: &Options,
    ) -> Result<Crew<'a>, NoMemory>
        requires sequences { AreOf test.now sequences.now }
        requires limits { IsWithinLimits options.now }
        ensures { IfOk result (λ crew.
            crew ≡ record { test = test.now; sequences = sequences.now; options = options.now }) }
    {
        let mut members = Vec::new(alloc);
        for t in 0..test.threads() {
            let walker = Walker::new(alloc, test, sequences, t, options)?;
            members.push(Member::new(walker))?;
        }
        let logs = Logs::reserve(alloc, members.len())?;
        Ok(Crew {
            test,
            sequences,
            options: *options,
            members,
            logs,
        })
    }

    /// How many steps the crew takes on the words at most: the iterations times the lengths of all bodies.
    pub fn owed(&self) -> usize
        ensures { result ≡ owed_by self.now }
    {
        let mut steps = 0;
        for t in 0..self.test.threads() {
            steps += self.options.iterations as usize * self.test.body(t).len();
        }
        steps
    }

    /// The members in order, and room for their logs.
    pub(crate) fn parts(self) -> (Vec<Member<'a>>, Logs)
        ensures { IsCrew self.entry result.0.items result.1 }
    {
        (self.members, self.logs)
    }
}

/// The logs of finished walkers in order.
pub(crate) fn logs_of(members: Vec<Member<'_>>, mut logs: Logs) -> Logs
    requires finished { AllFinished members.items }
    requires none { logs.logs ≡ [] }
    requires room { length members.items ≤ logs.spare }
    ensures { AreLogs members.entry.items result.logs }
{
    for member in members {
        logs.add(member.log());
    }
    logs
}
