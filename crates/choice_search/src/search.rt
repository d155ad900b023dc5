//! The search for sides without a cycle.
ghost use Rattle.std.specs.Prelude.{◌≡◌, ◌≤◌, ◌∷◌, ℕ, true, false, IfOk, List, [], MatchOption, None, Some, length, map, not, slice_set};
ghost use Rattle.std.specs.List.{AllZip, list_all};
ghost use Rattle.choice_search.specs.Graph.{HasNoCycle, IsSideOf};
ghost use Rattle.choice_search.specs.Answers.{IsAnswer, IsOutcome};
ghost use Rattle.choice_search.specs.declared.graph.Pair.{Pair};
ghost use Rattle.choice_search.specs.declared.graph.Choice.{Choice};
ghost use Rattle.choice_search.specs.Search.{IsCounted, IsFound, IsKept, IsOpenAt, is_open, side_of, taken_of};

use crate::answer::{Answer, Outcome};
use crate::closure::{Closure, MOST_NODES};
use crate::cycles::{find_cycle, has_pair};
use crate::found::Found;
use crate::graph::{Choice, Pair, Side, Tree};
use crate::taken::{finish, leaf, split};
use perp_base::NoMemory;
use std::alloc::Global;

/// What the search has done so far.
#[derive(Drop)]
struct Work {
    /// The steps taken.
    steps: u64,
    /// The number of the last tree that was found; that of the first is 2.
    trees: u64,
    /// For each edge, the number of the last tree that used it, or 1.
    last: Vec<u64>,
}

/// A choice that is open, and the side to be tried.
#[derive(Clone, Copy)]
struct Pick {
    index: usize,
    choice: Choice,
    side: Side,
}

/// The place of an edge in a table.
fn place(edge: Pair) -> usize {
    if edge.first < MOST_NODES && edge.second < MOST_NODES {
        (edge.first * MOST_NODES + edge.second) as usize
    } else {
        0
    }
}

/// The number of the last tree that used an edge.
fn last_use(last: &[u64], edge: Pair) -> u64 {
    match last.get(place(edge)) {
        Some(tree) => *tree,
        None => 1,
    }
}

/// The number of the last tree that used one of a choice's sides.
fn last_of(last: &[u64], choice: Choice) -> u64 {
    last_use(last, choice.edge(Side::Before)).max(last_use(last, choice.edge(Side::After)))
}

/// Numbers a tree, and notes the edges that it uses.
fn note(work: &mut Work, used: &[Pair])
    ensures { work.new.steps ≡ work.old.steps }
{
    if work.trees < u64::MAX {
        work.trees += 1;
    }
    for edge in used {
        if let Some(tree) = work.last.get_mut(place(*edge)) {
            *tree = work.trees;
        }
    }
}

/// Whether the edge of a side is met already.
fn is_met(closure: &Closure, edge: Pair) -> bool {
    closure.reaches(edge.first, edge.second)
}

/// Whether the edge of a side would close a cycle.
fn is_closed(closure: &Closure, edge: Pair) -> bool {
    closure.reaches(edge.second, edge.first)
}

/// Whether a side of a choice is met already.
fn has_met(closure: &Closure, choice: Choice) -> bool {
    is_met(closure, choice.edge(Side::Before)) || is_met(closure, choice.edge(Side::After))
}

/// The side of a choice that is forced, as the other would close a cycle.
fn forced(closure: &Closure, choice: Choice) -> Option<Side> {
    if is_closed(closure, choice.edge(Side::After)) {
        return Some(Side::Before);
    }
    if is_closed(closure, choice.edge(Side::Before)) {
        return Some(Side::After);
    }
    None
}

/// The side of a choice to be tried first: one that is met, or else that with the other node before the source.
fn first_side(closure: &Closure, choice: Choice) -> Side {
    if is_met(closure, choice.edge(Side::After)) && !is_met(closure, choice.edge(Side::Before)) {
        Side::After
    } else {
        Side::Before
    }
}

/// The first open choice that is forced and not met, with its side.
fn first_forced(closure: &Closure, choices: &[Choice], sides: &[Option<Side>]) -> Option<Pick>
    requires { length sides.now ≡ length choices.now }
    ensures { MatchOption result (Unit {0}) (λ at. IsOpenAt choices.now sides.now at.index at.choice) }
{
    for index in 0..choices.len() {
        if sides[index].is_none() {
            let choice = choices[index];
            if !has_met(closure, choice) {
                if let Some(side) = forced(closure, choice) {
                    return Some(Pick {
                        index,
                        choice,
                        side,
                    });
                }
            }
        }
    }
    None
}

/// How soon an open choice is tried: last those that are met, and first those that were used last.
fn rank(closure: &Closure, last: &[u64], choice: Choice) -> u64 {
    if has_met(closure, choice) {
        0
    } else {
        last_of(last, choice)
    }
}

/// The first of the open choices of the highest rank, with a side.
fn highest(
    closure: &Closure,
    choices: &[Choice],
    sides: &[Option<Side>],
    last: &[u64],
) -> Option<Pick>
    requires { length sides.now ≡ length choices.now }
    ensures { MatchOption result (list_all (λ side. not (is_open side)) sides.now ≡ true)
        (λ at. IsOpenAt choices.now sides.now at.index at.choice) }
{
    let mut best = None;
    let mut best_rank = 0;
    for index in 0..choices.len() {
        if sides[index].is_none() {
            let choice = choices[index];
            let rank_here = rank(closure, last, choice);
            if best.is_none() || rank_here > best_rank {
                let side = first_side(closure, choice);
                best = Some(Pick {
                    index,
                    choice,
                    side,
                });
                best_rank = rank_here;
            }
        }
    }
    best
}

/// An open choice, with the side to be tried first: one that is met only where all that are open are.
fn open_choice(
    closure: &Closure,
    choices: &[Choice],
    sides: &[Option<Side>],
    last: &[u64],
) -> Option<Pick>
    requires { length sides.now ≡ length choices.now }
    ensures { MatchOption result (list_all (λ side. not (is_open side)) sides.now ≡ true)
        (λ at. IsOpenAt choices.now sides.now at.index at.choice) }
{
    match first_forced(closure, choices, sides) {
        Some(at) => Some(at),
        None => highest(closure, choices, sides, last),
    }
}

/// The sides, with one for each choice that is open.
fn filled(
    alloc: Global,
    closure: &Closure,
    choices: &[Choice],
    sides: &[Option<Side>],
) -> Result<Vec<Option<Side>>, NoMemory>
    requires { length sides.now ≡ length choices.now }
    ensures length { IfOk result (λ v. length v.items ≡ length choices.now) }
    ensures all { IfOk result (λ v. list_all (λ side. not (is_open side)) v.items ≡ true) }
{
    let mut all = Vec::new(alloc);
    for i in 0..choices.len() {
        let side = match sides[i] {
            Some(side) => side,
            None => first_side(closure, choices[i]),
        };
        all.push(Some(side))?;
    }
    Ok(all)
}

/// The sides that are taken and those that are met, if they have no cycle.
fn met_sides(
    alloc: Global,
    edges: &[Pair],
    choices: &[Choice],
    closure: &Closure,
    sides: &[Option<Side>],
) -> Result<Option<Vec<Pair>>, NoMemory>
    requires { length sides.now ≡ length choices.now }
    ensures { IfOk result (λ met. MatchOption met (Unit {0})
        (λ v. AllZip IsSideOf choices.now v.items × HasNoCycle edges.now v.items)) }
{
    let all = filled(alloc, closure, choices, sides)?;
    match finish(alloc, edges, choices, &all)? {
        Found::Sides(met) => Ok(Some(met)),
        Found::Refuted(_) => Ok(None),
        Found::GaveUp => Ok(None),
    }
}

/// Adds the edge of a side to the closure, unless it is met already. Answers `false` where no step is left for it.
fn add_side(closure: &mut Closure, work: &mut Work, most: u64, edge: Pair) -> bool
    requires { work.old.steps ≤ most }
    ensures within { work.new.steps ≤ most }
    ensures full { result ≡ false → work.new.steps ≡ most }
{
    if is_met(closure, edge) {
        return true;
    }
    if work.steps == most {
        return false;
    }
    work.steps += 1;
    closure.add(edge);
    true
}

/// Takes a side of a choice, or opens it again.
fn set_side(sides: &mut [Option<Side>], index: usize, side: Option<Side>)
    ensures { sides.new ≡ slice_set sides.old index side }
{
    if index < sides.len() {
        sides[index] = side;
    }
}

/// What follows where a side of a choice is taken.
#[cycle(search)]
fn under(
    alloc: Global,
    edges: &[Pair],
    choices: &[Choice],
    most: u64,
    closure: Closure,
    sides: &mut [Option<Side>],
    work: &mut Work,
    at: Pick,
) -> Result<Found, NoMemory>
    requires length { length sides.old ≡ length choices.now }
    requires at { IsOpenAt choices.now sides.old at.index at.choice }
    requires steps { work.old.steps ≤ most }
    ensures found { IfOk result (λ found. IsFound edges.now choices.now
        (side_of at.choice at.side ∷ taken_of choices.now sides.old) found) }
    ensures steps { IfOk result (λ found. IsCounted most work.new.steps found) }
    ensures kept { IfOk result (λ found. IsKept sides.old sides.new found) }
{
    let edge = at.choice.edge(at.side);
    if is_closed(&closure, edge) {
        if let Some(found) = leaf(alloc, edges, choices, sides, &closure, edge)? {
            return Ok(Found::Refuted(found));
        }
    }
    let mut closure = closure;
    if !add_side(&mut closure, work, most, edge) {
        return Ok(Found::GaveUp);
    }
    set_side(sides, at.index, Some(at.side));
    let found = refute(alloc, edges, choices, most, closure, sides, work)?;
    set_side(sides, at.index, None);
    Ok(found)
}

/// Sides for the choices that are open, or a refutation of all of them.
#[cycle(search)]
fn refute(
    alloc: Global,
    edges: &[Pair],
    choices: &[Choice],
    most: u64,
    closure: Closure,
    sides: &mut [Option<Side>],
    work: &mut Work,
) -> Result<Found, NoMemory>
    requires length { length sides.old ≡ length choices.now }
    requires steps { work.old.steps ≤ most }
    ensures found { IfOk result (λ found. IsFound edges.now choices.now (taken_of choices.now sides.old) found) }
    ensures steps { IfOk result (λ found. IsCounted most work.new.steps found) }
    ensures kept { IfOk result (λ found. IsKept sides.old sides.new found) }
{
    match open_choice(&closure, choices, sides, &work.last) {
        None => {
            let found = finish(alloc, edges, choices, sides)?;
            Ok(found)
        }
        Some(at) => {
            if is_met(&closure, at.choice.edge(at.side)) {
                if let Some(met) = met_sides(alloc, edges, choices, &closure, sides)? {
                    return Ok(Found::Sides(met));
                }
            }
            let copy = closure.copy()?;
            let left = match under(alloc, edges, choices, most, copy, sides, work, at)? {
                Found::Refuted(left) => left,
                found => return Ok(found),
            };
            let edge = at.choice.edge(at.side);
            if !has_pair(&left.used, edge.first, edge.second) {
                return Ok(Found::Refuted(left));
            }
            note(work, &left.used);
            let back = Pick {
                index: at.index,
                choice: at.choice,
                side: at.side.opposite(),
            };
            let right = match under(alloc, edges, choices, most, closure, sides, work, back)? {
                Found::Refuted(right) => right,
                found => return Ok(found),
            };
            let edge = at.choice.edge(back.side);
            if !has_pair(&right.used, edge.first, edge.second) {
                return Ok(Found::Refuted(right));
            }
            note(work, &right.used);
            let both = split(alloc, at.choice, at.side, left, right)?;
            Ok(Found::Refuted(both))
        }
    }
}

/// The closure of the edges.
fn closure_of(alloc: Global, edges: &[Pair]) -> Result<Closure, NoMemory> {
    let mut closure = Closure::new(alloc)?;
    for edge in edges {
        closure.add(*edge);
    }
    Ok(closure)
}

/// Nothing done yet.
fn no_work(alloc: Global) -> Result<Work, NoMemory>
    ensures { IfOk result (λ work. work.steps ≡ 0) }
{
    let mut last = Vec::new(alloc);
    for _ in 0..MOST_NODES * MOST_NODES {
        last.push(1)?;
    }
    Ok(Work {
        steps: 0,
        trees: 1,
        last,
    })
}

/// No choice is taken yet.
fn no_sides(alloc: Global, choices: &[Choice]) -> Result<Vec<Option<Side>>, NoMemory>
    ensures { IfOk result (λ v. v.items ≡ map (λ _. None) choices.now) }
{
    let sides = choices.iter().map(|_| None).collect(alloc)?;
    Ok(sides)
}

/// What was found where no side is taken, as an answer.
fn outcome_of(found: Found) -> Outcome
    ensures { (edges : List Pair) (choices : List Choice) (most steps : ℕ) → IsFound edges choices [] found
        → IsCounted most steps found → IsOutcome edges choices most steps result }
{
    match found {
        Found::Sides(sides) => Outcome::Sides(sides),
        Found::Refuted(found) => Outcome::Refuted(found.tree),
        Found::GaveUp => Outcome::GaveUp,
    }
}

/// A side of each choice so that they and the edges have no cycle, or a tree of cases that refutes all such sides, or
/// neither where `most` steps were taken.
pub fn decide(
    alloc: Global,
    edges: &[Pair],
    choices: &[Choice],
    most: u64,
) -> Result<Answer, NoMemory>
    ensures { IfOk result (IsAnswer edges.now choices.now most) }
{
    if let Some(cycle) = find_cycle(alloc, edges, &[])? {
        let outcome = Outcome::Refuted(Tree::Cycle(cycle));
        return Ok(Answer { outcome, steps: 0 });
    }
    let closure = closure_of(alloc, edges)?;
    let mut sides = no_sides(alloc, choices)?;
    let mut work = no_work(alloc)?;
    let found = refute(alloc, edges, choices, most, closure, &mut sides, &mut work)?;
    Ok(Answer {
        outcome: outcome_of(found),
        steps: work.steps,
    })
}
