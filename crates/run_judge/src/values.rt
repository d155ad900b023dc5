//! What stores write.
ghost use Rattle.std.specs.Prelude.{◌≡◌, ◌<◌, length};
ghost use Rattle.x86_subset.specs.Shape.{IsTest};
ghost use Rattle.x86_subset.specs.Test.{body_of};
ghost use Rattle.run_judge.specs.Written.{AreValuesOf, number_of, value_given};
ghost use Rattle.perp_base.specs.declared.limits.TheConstants.{MOST_ITERATIONS};

use crate::event::RunEvent;
use seq_conv::Sequences;
use x86_subset::{Instr, Test};

/// What the stores of a written run write.
#[derive(Clone, Copy)]
pub enum Values<'a> {
    /// The values `k*n + a` of perpetual loops.
    Loops(&'a Sequences),
    /// The numbers of the litmus text.
    Text,
}

/// The number that a store or an exchange has in the text.
fn number(action: Instr) -> u32
    ensures { result ≡ number_of action }
{
    match action {
        Instr::Store { written, .. } => written,
        Instr::Exchange { written, .. } => written,
        Instr::Load { .. } | Instr::Fence => 0,
    }
}

impl Values<'_> {
    /// What the store or exchange of an event writes.
    pub fn value(&self, test: &Test, event: &RunEvent) -> u64
        requires values { AreValuesOf test.now self.now }
        requires thread { event.now.thread < length test.now.bodies }
        requires early { event.now.iteration < MOST_ITERATIONS }
        requires place { event.now.place < length (body_of test.now event.now.thread) }
        ensures { result ≡ value_given test.now self.now event.now.thread event.now.place event.now.iteration }
    {
        let (t, p) = (event.thread as usize, event.place as usize);
        match self {
            Values::Loops(sequences) => sequences.value(t, p, event.iteration),
            Values::Text => u64::from(number(test.body(t)[p])),
        }
    }
}
