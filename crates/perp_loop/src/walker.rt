//! One thread's loop.
ghost use Rattle.std.specs.Prelude.{◌≡◌, ℕ, ◌+◌, ◌<◌, ◌≤◌, ◌⊎◌, List, [], ◌∷◌, ◌++◌, length, IfOk};
ghost use Rattle.seq_conv.specs.Numbers.{AreOf};
ghost use Rattle.perp_base.specs.Options.{IsWithinLimits};
ghost use Rattle.tso_runs.specs.Fits.{IsLawful};
ghost use Rattle.std.specs.List.{filter_map};
ghost use Rattle.x86_subset.specs.Test.{columns_of};
ghost use Rattle.tso_machine.specs.Event.{Event};
ghost use Rattle.tso_machine.specs.Log.{value_read};
ghost use Rattle.tso_runs.specs.SharedSteps.{shared_steps};
ghost use Rattle.perp_loop.specs.Actions.{most_steps};
ghost use Rattle.perp_loop.specs.Walking.{owed, Stepped, StandsFor, IsNew, IsFinished, Walks};

use crate::actions::{At, drain, first_iteration, next_position, take_turn};
use crate::gate::Gate;
use crate::went::Went;
use load_log::Log;
use perp_base::{NoMemory, Options};
use seq_conv::Sequences;
use std::alloc::Global;
use std::marker::Model;
use store_buffer::{Buffer, Drains};
use tso_words::Port;
use x86_subset::Test;

/// A thread that performs its body again and again through its own store buffer. Contracts see the test, its sequences,
/// the options, the thread's number, how many actions are made, the writes in the buffer, oldest first, and the values
/// that were logged.
#[derive(Drop)]
pub struct Walker<'a> {
    test: &'a Test,
    sequences: &'a Sequences,
    options: Options,
    thread: u32,
    iteration: u32,
    place: usize,
    drains: Drains,
    buffer: Buffer,
    log: Log,
}

impl<'a> Model for Walker<'a> {
    ghost use Rattle.std.specs.Prelude.{◌+◌, ◌*◌, length, map};
    ghost use Rattle.x86_subset.specs.Test.{body_of};
    ghost use Rattle.perp_loop.specs.Actions.{write_from};
    ghost use Rattle.perp_loop.specs.Sound.{IsSound};
    ghost use Rattle.perp_loop.specs.Actions.{most_steps};
    ghost use Rattle.perp_loop.specs.Walking.{Walking};

    ghost Value = { Walking };

    ghost view = { λ a. record {
      test = a.test.now;
      sequences = a.sequences.now;
      options = a.options;
      thread = a.thread;
      made = a.iteration * length (body_of a.test.now a.thread) + a.place;
      buffer = map write_from a.buffer.entries;
      log = a.log.values;
    } };

    ghost invariant = { λ a. IsSound a.test.now a.sequences.now a.options a.thread a.iteration a.place a.drains a.buffer
        a.log };
}

impl<'a> Walker<'a> {
    /// The walker of thread `t`, counted from 0, that has done nothing yet, with room for all that it will log.
    pub fn new(
        alloc: Global,
        test: &'a Test,
        sequences: &'a Sequences,
        t: usize,
        options: &Options,
    ) -> Result<Walker<'a>, NoMemory>
        requires sequences { AreOf test.now sequences.now }
        requires thread { t < length test.now.bodies }
        requires limits { IsWithinLimits options.now }
        ensures stands { IfOk result (λ w. StandsFor w []) }
        ensures made { IfOk result (λ w. w ≡ record {
          test = test.now;
          sequences = sequences.now;
          options = options.now;
          thread = t;
          made = 0;
          buffer = [];
          log = [];
        }) }
    {
        let threads = test.threads();
        prove!(t < threads);
        let body = test.body(t);
        let log = Log::reserve(alloc, test.columns(t), options.iterations)?;
        Ok(Walker {
            test,
            sequences,
            options: *options,
            thread: t as u32,
            iteration: first_iteration(body.len(), options.iterations),
            place: 0,
            drains: Drains::new(options.seed, t as u32, options.rate),
            buffer: Buffer::new(options.buffer),
            log,
        })
    }

    /// Makes the next action with the drains before it, or drains one write after the last action; `Finished` where
    /// nothing is left to do, and then nothing changes. Takes no memory.
    pub fn step<P: Port>(&mut self, port: &mut P) -> Went
        requires { P.ready port.old (owed self.old) ⊎ P.ready port.old most_steps }
        ensures { Stepped P.steps P.ready P.kept result self.old port.old self.new port.new }
    {
        if self.iteration < self.options.iterations {
            let body = self.test.body(self.thread as usize);
            let action = body[self.place];
            let asks = self.drains.next();
            let at = At {
                thread: self.thread as usize,
                place: self.place,
                iteration: self.iteration,
            };
            take_turn(
                action,
                at,
                asks,
                self.sequences,
                &mut self.buffer,
                &mut self.log,
                port,
            );
            let next = next_position(self.iteration, self.place, body.len());
            self.iteration = next.0;
            self.place = next.1;
            Went::Action
        } else if self.buffer.is_empty() {
            Went::Finished
        } else {
            drain(&mut self.buffer, 1, port);
            Went::Action
        }
    }

    /// Calls the gate where the next action is the first of its iteration.
    fn call<G: Gate>(&self, gate: &G) {
        if self.place == 0 && self.iteration < self.options.iterations {
            gate.before(self.thread, self.iteration);
        }
    }

    /// Takes all turns that are left, and calls the gate before the first action of each iteration. Takes no memory.
    pub fn walk<P: Port, G: Gate>(&mut self, port: &mut P, gate: &G)
        requires { P.ready port.old (owed self.old) }
        ensures finished { IsFinished self.new }
        ensures walks { Walks P.steps P.ready P.kept self.old port.old self.new port.new }

        // From a new walker it is a whole lawful part.
        ensures lawful { IsNew self.old →
            (part : List Event) × IsLawful self.old.test self.old.options self.old.thread part
            × (P.steps port.new ≡ P.steps port.old ++ shared_steps self.old.test [] part)
            × (self.new.log ≡ filter_map value_read part) }
    {
        self.call(gate);
        while let Went::Action = self.step(port) {
            self.call(gate);
        }
    }

    /// The thread's number.
    pub fn thread(&self) -> u32
        ensures { result ≡ self.now.thread }
    {
        self.thread
    }

    /// The values that were read, by iteration and then by column.
    pub fn log(self) -> Log
        requires { IsFinished self }
        ensures values { result.values ≡ self.entry.log }
        ensures columns { result.columns ≡ columns_of self.entry.test self.entry.thread }
    {
        self.log
    }
}
