//! The plan of the picks: where each conjunction begins, and which of its conditions choose, in order.
ghost use Rattle.std.specs.Prelude.{◌≡◌, ◌==◌, ◌<◌, All, IfOk, find, length, slice_index_or};
ghost use Rattle.std.specs.List.{list_any};
ghost use Rattle.outcome_conv.specs.declared.cond.Cond.{Cond};
ghost use Rattle.outcome_conv.specs.Conditions.{IsKind};
ghost use Rattle.outcome_conv.specs.Plans.{base_by, is_open, plan_from};
ghost use Rattle.heuristic.specs.Plan.{has_iteration};

use outcome_conv::{Cond, Conds};
use perp_base::NoMemory;
use std::alloc::Global;
use std::marker::Model;

/// The base thread of a conjunction, and its conditions that choose, in order. Only a conjunction without conditions
/// has no base.
#[derive(Drop)]
pub(crate) struct Choices {
    base: Option<usize>,
    order: Vec<Cond>,
}

impl Model for Choices {
    ghost use Rattle.std.specs.Prelude.{All};
    ghost use Rattle.outcome_conv.specs.declared.cond.Cond.{Cond};
    ghost use Rattle.outcome_conv.specs.Conditions.{IsKind};
    ghost use Rattle.heuristic.specs.Plan.{Planned};

    ghost Value = { Planned };

    ghost view = { λ c. record { base = c.base; order = c.order.items } };

    ghost invariant = { λ c. All (λ (cond : Cond). IsKind cond.kind) c.order.items };
}

impl Choices {
    ghost use Rattle.heuristic.specs.Plan.{choices_of};

    /// The choices of a conjunction among so many threads.
    fn of(alloc: Global, conds: &[Cond], t: usize) -> Result<Choices, NoMemory>
        requires { All (λ (c : Cond). IsKind c.kind) conds.now }
        ensures { IfOk result (λ choices. choices ≡ choices_of t conds.now) }
    {
        let base = base_of(conds, t);
        let order = match base {
            None => Vec::new(alloc),
            Some(thread) => order_from(alloc, conds, thread)?,
        };
        Ok(Choices { base, order })
    }

    /// The thread that a picked frame's iteration is given for.
    pub(crate) fn base(&self) -> Option<usize>
        ensures { result ≡ self.now.base }
    {
        self.base
    }

    /// The conditions that choose their writers' iterations, in order.
    pub(crate) fn order(&self) -> &[Cond]
        ensures value { result.now ≡ self.now.order }
        ensures kinds { All (λ (c : Cond). IsKind c.kind) result.now }
    {
        self.order.as_slice()
    }
}

/// Whether the thread is the reader of one of the conditions.
fn reads(conds: &[Cond], thread: usize) -> bool
    ensures { result ≡ list_any (λ (c : Cond). c.reader == thread) conds.now }
{
    conds.iter().any(|cond| cond.reader as usize == thread)
}

/// The first of so many threads that is the reader of one of the conditions.
fn base_of(conds: &[Cond], threads: usize) -> Option<usize>
    ensures { result ≡ base_by threads conds.now }
{
    for thread in 0..threads {
        if reads(conds, thread) {
            return Some(thread);
        }
    }
    None
}

/// Whether the thread is the writer of one of the conditions.
fn writes(conds: &[Cond], thread: u32) -> bool
    ensures { result ≡ list_any (λ (c : Cond). c.writer == thread) conds.now }
{
    conds.iter().any(|cond| cond.writer == thread)
}

/// Whether a thread has its iteration: it is the base, or a condition has chosen for it.
fn has_iteration(order: &[Cond], base: usize, thread: u32) -> bool
    ensures { result ≡ has_iteration base order.now thread }
{
    base == thread as usize || writes(order, thread)
}

/// The first condition whose reader has its iteration and whose writer has none.
fn first_open(conds: &[Cond], order: &[Cond], base: usize) -> Option<Cond>
    ensures { result ≡ find (is_open (has_iteration base order.now)) conds.now }
{
    for cond in conds {
        if has_iteration(order, base, cond.reader) && !has_iteration(order, base, cond.writer) {
            return Some(*cond);
        }
    }
    None
}

/// The conditions that choose where this thread is the base, in order.
fn order_from(alloc: Global, conds: &[Cond], base: usize) -> Result<Vec<Cond>, NoMemory>
    requires { All (λ (c : Cond). IsKind c.kind) conds.now }
    ensures order { IfOk result (λ order. order.items ≡ plan_from conds.now base) }
    ensures kinds { IfOk result (λ order. All (λ (c : Cond). IsKind c.kind) order.items) }
{
    let mut order = Vec::new(alloc);
    for _ in 0..conds.len() {
        match first_open(conds, &order, base) {
            None => return Ok(order),
            Some(cond) => order.push(cond)?,
        }
    }
    Ok(order)
}

/// For each conjunction its base thread, and the order in which its conditions choose. Contracts see a list of both.
#[derive(Drop)]
pub struct Plan {
    choices: Vec<Choices>,
}

impl Model for Plan {
    ghost use Rattle.std.specs.Prelude.{List};
    ghost use Rattle.heuristic.specs.Plan.{Planned};

    ghost Value = { List Planned };

    ghost view = { λ p. p.choices.items };
}

impl Plan {
    ghost use Rattle.heuristic.specs.Plan.{plan_of};

    /// The plan for conditions on `t` threads. It looks at no log.
    pub fn of(alloc: Global, conds: &Conds, t: usize) -> Result<Plan, NoMemory>
        ensures plan { IfOk result (λ plan. plan ≡ plan_of t conds.now) }
    {
        let mut choices = Vec::new(alloc);
        for c in 0..conds.conjunctions() {
            choices.push(Choices::of(alloc, conds.group(c), t)?)?;
        }
        Ok(Plan { choices })
    }

    /// The choices of a conjunction.
    pub(crate) fn at(&self, c: usize) -> &Choices
        requires { c < length self.now }
        ensures { result.now ≡ slice_index_or self.now c result.now }
    {
        &self.choices[c]
    }
}
