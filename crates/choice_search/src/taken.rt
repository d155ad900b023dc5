//! The sides that are taken, and the refutations under them.
ghost use Rattle.std.specs.Prelude.{◌≡◌, ◌≤◌, ◌&&◌, ◌||◌, ◌∷◌, ℕ, true, false, not, Contains, IfOk, List, MatchOption, Option, Some, length};
ghost use Rattle.std.specs.List.{list_all};
ghost use Rattle.choice_search.specs.Graph.{has_pair, is_pair};
ghost use Rattle.choice_search.specs.Trees.{Refutes};
ghost use Rattle.choice_search.specs.Search.{IsCounted, IsFound, IsRefutation, Within, is_open, opposite_of, side_of, taken_of};
ghost use Rattle.choice_search.specs.declared.graph.Pair.{Pair};
ghost use Rattle.choice_search.specs.declared.graph.Choice.{Choice};

use crate::closure::Closure;
use crate::cycles::{closes, find_cycle, has_pair};
use crate::found::{Found, Refutation};
use crate::graph::{Choice, Pair, Side, Tree};
use perp_base::NoMemory;
use std::alloc::Global;

/// The edges of the sides that are taken.
fn edges_of(
    alloc: Global,
    choices: &[Choice],
    sides: &[Option<Side>],
) -> Result<Vec<Pair>, NoMemory>
    requires { length sides.now ≡ length choices.now }
    ensures { IfOk result (λ v. v.items ≡ taken_of choices.now sides.now) }
{
    let mut edges = Vec::new(alloc);
    for i in 0..choices.len() {
        if let Some(side) = sides[i] {
            edges.push(choices[i].edge(side))?;
        }
    }
    Ok(edges)
}

/// Whether a side that is taken leads from one node to another.
fn is_taken(choices: &[Choice], sides: &[Option<Side>], a: u32, b: u32) -> bool
    requires { length sides.now ≡ length choices.now }
    ensures { result ≡ has_pair (taken_of choices.now sides.now) a b }
{
    for i in 0..choices.len() {
        if let Some(side) = sides[i] {
            if choices[i].edge(side).is(a, b) {
                return true;
            }
        }
    }
    false
}

/// The steps of a cycle that are none of the edges.
fn steps_of(alloc: Global, edges: &[Pair], cycle: &[u32]) -> Result<Vec<Pair>, NoMemory> {
    let mut used = Vec::new(alloc);
    if cycle.is_empty() {
        return Ok(used);
    }
    let mut first = cycle[cycle.len() - 1];
    for second in cycle {
        let second = *second;
        if !has_pair(edges, first, second) && !has_pair(&used, first, second) {
            used.push(Pair { first, second })?;
        }
        first = second;
    }
    Ok(used)
}

/// Whether each edge is that of a side that is taken, or this one.
fn are_taken(choices: &[Choice], sides: &[Option<Side>], edge: Pair, used: &[Pair]) -> bool
    requires { length sides.now ≡ length choices.now }
    ensures { result ≡ list_all (λ p. is_pair p.first p.second edge
        || has_pair (taken_of choices.now sides.now) p.first p.second) used.now }
{
    used.iter().all(|p| edge.is(p.first, p.second) || is_taken(choices, sides, p.first, p.second))
}

/// A cycle through an edge, beside the sides that are taken.
pub fn leaf(
    alloc: Global,
    edges: &[Pair],
    choices: &[Choice],
    sides: &[Option<Side>],
    closure: &Closure,
    edge: Pair,
) -> Result<Option<Refutation>, NoMemory>
    requires { length sides.now ≡ length choices.now }
    ensures { IfOk result (λ found. MatchOption found (Unit {0})
        (λ r. IsRefutation edges.now choices.now (edge ∷ taken_of choices.now sides.now) r)) }
{
    let cycle = closure.cycle_through(alloc, edge)?;
    let used = steps_of(alloc, edges, &cycle)?;
    if are_taken(choices, sides, edge, &used) && closes(edges, &used, &cycle) {
        let tree = Tree::Cycle(cycle);
        return Ok(Some(Refutation { tree, used }));
    }
    Ok(None)
}

/// All choices are taken: their sides, or a cycle.
pub fn finish(
    alloc: Global,
    edges: &[Pair],
    choices: &[Choice],
    sides: &[Option<Side>],
) -> Result<Found, NoMemory>
    requires length { length sides.now ≡ length choices.now }
    requires all { list_all (λ side. not (is_open side)) sides.now ≡ true }
    ensures found { IfOk result (λ found. IsFound edges.now choices.now (taken_of choices.now sides.now) found) }
    ensures counted { IfOk result (λ found. (most steps : ℕ) → steps ≤ most → IsCounted most steps found) }
{
    let used = edges_of(alloc, choices, sides)?;
    match find_cycle(alloc, edges, &used)? {
        None => Ok(Found::Sides(used)),
        Some(cycle) => {
            let tree = Tree::Cycle(cycle);
            Ok(Found::Refuted(Refutation { tree, used }))
        }
    }
}

/// The edges but one.
fn without(alloc: Global, used: &[Pair], edge: Pair) -> Result<Vec<Pair>, NoMemory>
    ensures { IfOk result (λ v. (a b : ℕ) → has_pair v.items a b ≡ (not (is_pair a b edge) && has_pair used.now a b)) }
{
    let mut rest = Vec::new(alloc);
    for p in used {
        if !edge.is(p.first, p.second) {
            rest.push(*p)?;
        }
    }
    Ok(rest)
}

/// The edges of both lists.
fn joined(used: Vec<Pair>, more: &[Pair]) -> Result<Vec<Pair>, NoMemory>
    ensures { IfOk result (λ v. (a b : ℕ) → has_pair v.items a b ≡ (has_pair used.items a b || has_pair more.now a b)) }
{
    let mut all = used;
    for p in more {
        if !has_pair(&all, p.first, p.second) {
            all.push(*p)?;
        }
    }
    Ok(all)
}

/// A tree for each side, as one.
pub fn split(
    alloc: Global,
    choice: Choice,
    first: Side,
    left: Refutation,
    right: Refutation,
) -> Result<Refutation, NoMemory>
    ensures { IfOk result (λ r. (edges : List Pair) (choices : List Choice) (taken : List Pair)
        → Contains choices choice
        → IsRefutation edges choices (side_of choice first ∷ taken) left
        → IsRefutation edges choices (side_of choice (opposite_of first) ∷ taken) right
        → IsRefutation edges choices taken r) }
{
    let rest = without(alloc, &left.used, choice.edge(first))?;
    let more = without(alloc, &right.used, choice.edge(first.opposite()))?;
    let used = joined(rest, &more)?;
    let left = Box::new(alloc, left.tree)?;
    let right = Box::new(alloc, right.tree)?;
    let tree = match first {
        Side::Before => Tree::Split(choice, left, right),
        Side::After => Tree::Split(choice, right, left),
    };
    Ok(Refutation { tree, used })
}
