//! A history that is stored, and a port that adds to it.
ghost use Rattle.std.specs.Prelude.{◌≡◌, ◌+◌, ◌<◌, ◌≤◌, [], ◌∷◌, ◌++◌, length, refl, slice_index, IfOk};
ghost use Rattle.std.proofs.Common.{◌∙◌, ap, append-nil, append_assoc, sym};
ghost use Rattle.std.proofs.Math.Nat.{add-le-add, le_refl, le_trans};
ghost use Rattle.std.proofs.lemmas.List.{map-append};
ghost use Rattle.tso_words.specs.History.{word_count, thread_count, zeros, history_part, memory_after_step, Finds, IsFlat};
ghost use Rattle.tso_words.specs.Traces.{HasRoom, Continues, entry, entries};

use crate::port::Port;
use crate::step::{Step, TracedStep, WORD_COUNT};
use perp_base::NoMemory;
use std::alloc::Global;
use std::marker::Model;

/// Sixteen words, and the history of all steps that were taken on them, the first step first. It never grows past its
/// room. The history is flat and its memory is the words.
#[derive(Drop)]
pub struct Traced {
    words: [u64; WORD_COUNT],
    steps: Vec<TracedStep>,
    room: usize,
}

impl Model for Traced {
    ghost use Rattle.std.specs.Prelude.{◌≤◌, vec_capacity, length};
    ghost use Rattle.tso_words.specs.History.{IsFlat};
    ghost use Rattle.tso_words.specs.Traces.{Trace};

    ghost Value = { Trace };

    ghost view = { λ t. record { history = t.steps.items; words = t.words; room = t.room } };

    ghost invariant = { λ t. IsFlat t.words t.steps.items × (length t.steps.items ≤ t.room)
        × (t.room ≤ vec_capacity t.steps) };
}

/// What a step writes.
fn write(words: &mut [u64; WORD_COUNT], step: Step)
    requires { Finds words.old step }
    ensures { words.new ≡ memory_after_step words.old step }
{
    match step {
        Step::Load { .. } => {}
        Step::Store { loc, value } => words[loc as usize] = value,
        Step::Swap { loc, new, .. } => words[loc as usize] = new,
    }
}

impl Traced {
    /// Words of 0, no steps, and room for so many.
    pub fn reserve(alloc: Global, room: usize) -> Result<Traced, NoMemory>
        ensures made { IfOk result (λ t. (t.history ≡ []) × (t.words ≡ zeros) × (t.room ≡ room)) }
    {
        let steps = Vec::with_capacity(alloc, room)?;
        Ok(Traced {
            words: [0; WORD_COUNT],
            steps,
            room,
        })
    }

    /// A port that adds steps of one thread.
    pub fn port(self, thread: u32) -> TracedPort
        requires { thread < thread_count }
        ensures { (result.thread ≡ thread) × (result.trace ≡ self) }
    {
        TracedPort {
            thread,
            traced: self,
        }
    }

    /// The history.
    pub fn steps(&self) -> &[TracedStep]
        ensures steps { result.now ≡ self.now.history }
        ensures flat { IsFlat self.now.words self.now.history }
    {
        self.steps.as_slice()
    }

    /// The value of word `loc`.
    pub fn word(&self, loc: u32) -> u64
        requires { loc < word_count }
        ensures word { result ≡ slice_index self.now.words loc }
        ensures flat { IsFlat self.now.words self.now.history }
    {
        self.words[loc as usize]
    }

    /// Takes a step that finds what the words hold.
    fn take(&mut self, thread: u32, step: Step)
        requires thread { thread < thread_count }
        requires finds { Finds self.old.words step }
        requires room { length self.old.history < self.old.room }
        ensures history { self.new.history ≡ self.old.history ++ record { thread = thread; step = step } ∷ [] }
        ensures room { self.new.room ≡ self.old.room }
        ensures flat { IsFlat self.new.words self.new.history }
    {
        write(&mut self.words, step);
        self.steps.push(TracedStep { thread, step }).unwrap();
    }

    fn load(&mut self, thread: u32, loc: u32) -> u64
        requires thread { thread < thread_count }
        requires loc { loc < word_count }
        requires room { length self.old.history < self.old.room }
        ensures history { self.new.history ≡ self.old.history ++ record { thread = thread; step = Step.Load loc result }
            ∷ [] }
        ensures room { self.new.room ≡ self.old.room }
        ensures flat { IsFlat self.new.words self.new.history }
    {
        let value = self.words[loc as usize];
        self.take(thread, Step::Load { loc, value });
        value
    }

    fn store(&mut self, thread: u32, loc: u32, value: u64)
        requires thread { thread < thread_count }
        requires loc { loc < word_count }
        requires room { length self.old.history < self.old.room }
        ensures history { self.new.history ≡ self.old.history ++ record { thread = thread; step = Step.Store loc value }
            ∷ [] }
        ensures room { self.new.room ≡ self.old.room }
        ensures flat { IsFlat self.new.words self.new.history }
    {
        self.take(thread, Step::Store { loc, value });
    }

    fn swap(&mut self, thread: u32, loc: u32, new: u64) -> u64
        requires thread { thread < thread_count }
        requires loc { loc < word_count }
        requires room { length self.old.history < self.old.room }
        ensures history { self.new.history ≡ self.old.history
            ++ record { thread = thread; step = Step.Swap loc new result } ∷ [] }
        ensures room { self.new.room ≡ self.old.room }
        ensures flat { IsFlat self.new.words self.new.history }
    {
        let old = self.words[loc as usize];
        self.take(thread, Step::Swap { loc, new, old });
        old
    }
}

/// Adds the steps of one thread to a stored history, as many as its room has free.
#[derive(Drop)]
pub struct TracedPort {
    thread: u32,
    traced: Traced,
}

impl Model for TracedPort {
    ghost use Rattle.std.specs.Prelude.{◌<◌};
    ghost use Rattle.tso_words.specs.History.{thread_count, IsFlat};
    ghost use Rattle.tso_words.specs.Traces.{Tracing};

    ghost Value = { Tracing };

    ghost view = { λ p. record { thread = p.thread; trace = p.traced } };

    ghost invariant = { λ p. (p.thread < thread_count) × IsFlat p.traced.words p.traced.history };
}

impl TracedPort {
    /// The history again, with the steps that were added.
    pub fn traced(self) -> Traced
        ensures same { result ≡ self.trace }
        ensures flat { IsFlat result.words result.history }
    {
        self.traced
    }
}

impl Port for TracedPort {
    ghost steps = { λ p. history_part p.thread p.trace.history };

    ghost ready = { HasRoom };

    ghost kept = { Continues };

    fn load(&mut self, loc: u32) -> u64 {
        self.traced.load(self.thread, loc)
    }

    fn drain(&mut self, loc: u32, value: u64) {
        self.traced.store(self.thread, loc, value);
    }

    fn swap(&mut self, loc: u32, new: u64) -> u64 {
        self.traced.swap(self.thread, loc, new)
    }

    ghost ready_for_fewer = { λ p j k fewer room. le_trans (add-le-add (le_refl (length p.trace.history)) fewer) room };

    ghost kept_at_once = { λ p. (refl, refl, ([], sym (append-nil p.trace.history))) };

    // What the second call gained stands after what the first one did.
    ghost kept_on = { λ p q r a b. (
      b.0 ∙ a.0,
      b.1 ∙ a.1,
      (
        a.2.0 ++ b.2.0,
        b.2.1
            ∙ ap (λ h. h ++ entries q.thread b.2.0) a.2.1
            ∙ ap (λ t. (p.trace.history ++ entries p.thread a.2.0) ++ entries t b.2.0) a.0
            ∙ append_assoc p.trace.history (entries p.thread a.2.0) (entries p.thread b.2.0)
            ∙ ap (λ l. p.trace.history ++ l) (sym (map-append (entry p.thread) a.2.0 b.2.0)),
      ),
    ) };
}
