//! The conditions of a test, cut into conjunctions.
ghost use Rattle.std.specs.Prelude.{◌≡◌, ◌<◌, ◌≤◌, length, slice_get, All, IfOk, Some};
ghost use Rattle.seq_conv.specs.Numbers.{AreOf};
ghost use Rattle.outcome_conv.specs.Conditions.{IsKind};
ghost use Rattle.outcome_conv.specs.Conds.{conds_of};
ghost use Rattle.perp_base.specs.declared.limits.TheConstants.{MOST_CONJUNCTIONS};

use crate::cond::Cond;
use crate::convert::cond_of;
use perp_base::NoMemory;
use profile_check::Checked;
use seq_conv::Sequences;
use std::alloc::Global;
use std::marker::Model;
use x86_subset::{Span, Test};

/// One or more conditions, and where each conjunction of them ends.
#[derive(Drop)]
pub struct Conds {
    conds: Vec<Cond>,
    ends: Vec<u32>,
}

impl Model for Conds {
    ghost use Rattle.outcome_conv.specs.Conditions.{AreConditions, Conditions};

    ghost Value = { Conditions };

    ghost view = { λ c. record { conds = c.conds.items; ends = c.ends.items } };

    ghost invariant = { λ c. AreConditions (record { conds = c.conds.items; ends = c.ends.items }) };
}

/// The conditions of a checked test's atoms.
fn all_conds(alloc: Global, checked: &Checked, sequences: &Sequences) -> Result<Vec<Cond>, NoMemory>
    requires { AreOf checked.now.test sequences.now }
    ensures { IfOk result (λ v. v.items ≡ conds_of checked.now.test checked.now.kinds) }
{
    let test = checked.test();
    let mut conds = Vec::new(alloc);
    for i in 0..test.atoms().len() {
        conds.push(cond_of(test, sequences, checked.kind(i)))?;
    }
    Ok(conds)
}

/// Where the conjunctions of a test's atoms end.
fn all_ends(alloc: Global, test: &Test) -> Result<Vec<u32>, NoMemory>
    ensures { IfOk result (λ v. v.items ≡ test.now.ends) }
{
    let mut ends = Vec::new(alloc);
    for c in 0..test.conjunctions() {
        ends.push(test.conjunction(c).to)?;
    }
    Ok(ends)
}

impl Conds {
    ghost use Rattle.x86_subset.specs.Conjunctions.{conjunction_of, from_of, to_of};
    ghost use Rattle.outcome_conv.specs.declared.cond.Cond.{Cond};
    ghost use Rattle.outcome_conv.specs.Conditions.{AreConditions, IsOfTest};
    ghost use Rattle.perp_base.specs.declared.limits.TheConstants.{MOST_CONJUNCTIONS};

    /// The conditions of a checked test's atoms, cut as the atoms are. The sequences are those of the test.
    pub fn of(alloc: Global, checked: &Checked, sequences: &Sequences) -> Result<Conds, NoMemory>
        requires { AreOf checked.now.test sequences.now }
        ensures conds { IfOk result (λ c. c.conds ≡ conds_of checked.now.test checked.now.kinds) }
        ensures ends { IfOk result (λ c. c.ends ≡ checked.now.test.ends) }
        ensures names { IfOk result (λ c. All (IsOfTest checked.now.test) c.conds) }
    {
        let conds = all_conds(alloc, checked, sequences)?;
        let ends = all_ends(alloc, checked.test())?;
        Ok(Conds::new(conds, ends))
    }

    /// The conditions, cut at these ends.
    pub fn new(conds: Vec<Cond>, ends: Vec<u32>) -> Conds
        requires { AreConditions (record { conds = conds.items; ends = ends.items }) }
        ensures { result ≡ record { conds = conds.items; ends = ends.items } }
    {
        Conds { conds, ends }
    }

    /// How many conditions there are.
    pub fn len(&self) -> usize
        ensures { result ≡ length self.now.conds }
    {
        self.conds.len()
    }

    /// Condition `i` of all, in the order of the text.
    pub fn at(&self, i: usize) -> Cond
        requires { i < length self.now.conds }
        ensures value { slice_get self.now.conds i ≡ Some result }
        ensures kind { IsKind result.kind }
    {
        self.conds[i]
    }

    /// How many conjunctions there are.
    pub fn conjunctions(&self) -> usize
        ensures value { result ≡ length self.now.ends }
        ensures few { result ≤ MOST_CONJUNCTIONS }
    {
        self.ends.len()
    }

    /// The conditions of a conjunction, as places in the list of all.
    pub fn conjunction(&self, c: usize) -> Span
        requires { c < length self.now.ends }
        ensures from { result.from ≡ from_of self.now.ends c }
        ensures to { result.to ≡ to_of self.now.ends c }
        ensures rises { result.from < result.to }
        ensures within { result.to ≤ length self.now.conds }
    {
        Span::of_conjunction(&self.ends, c)
    }

    /// The conditions of a conjunction.
    pub fn group(&self, c: usize) -> &[Cond]
        requires { c < length self.now.ends }
        ensures value { result.now ≡ conjunction_of self.now.ends self.now.conds c }
        ensures kinds { All (λ (cond : Cond). IsKind cond.kind) result.now }
    {
        let span = self.conjunction(c);
        &self.conds[span.from as usize..span.to as usize]
    }

    /// All conditions, in the order of the text.
    pub fn all(&self) -> &[Cond]
        ensures value { result.now ≡ self.now.conds }
        // What holds of the conditions of each test holds of these.
        ensures conditions { AreConditions self.now }
    {
        self.conds.as_slice()
    }

    /// How many conditions stand up to the end of each conjunction.
    pub fn ends(&self) -> &[u32]
        ensures { result.now ≡ self.now.ends }
    {
        self.ends.as_slice()
    }
}
