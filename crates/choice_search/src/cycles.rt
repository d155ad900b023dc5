//! Cycles of edges.
ghost use Rattle.std.specs.Prelude.{◌≡◌, ◌≤◌, ◌||◌, ℕ, true, false, All, Contains, IfOk, OnOk, MatchOption, Some, drop, filter, length, slice_get};
ghost use Rattle.choice_search.specs.Graph.{HasNoCycle, edge_among, has_pair, is_cycle_of};
ghost use Rattle.choice_search.specs.Search.{KeepsCycles, closed, has_next, is_among, leads};
ghost use Rattle.choice_search.specs.declared.graph.Pair.{Pair};

use crate::graph::Pair;
use perp_base::NoMemory;
use std::alloc::Global;

/// Whether one of the edges leads from one node to another.
pub fn has_pair(edges: &[Pair], a: u32, b: u32) -> bool
    ensures { result ≡ has_pair edges.now a b }
{
    edges.iter().any(|edge| edge.is(a, b))
}

/// Whether an edge leads from one node to another.
fn has_edge(edges: &[Pair], more: &[Pair], a: u32, b: u32) -> bool
    ensures { result ≡ edge_among edges.now more.now a b }
{
    has_pair(edges, a, b) || has_pair(more, a, b)
}

/// Whether the nodes are a cycle of edges.
pub fn closes(edges: &[Pair], more: &[Pair], nodes: &[u32]) -> bool
    ensures { result ≡ is_cycle_of (edge_among edges.now more.now) nodes.now }
{
    if nodes.len() < 2 {
        return false;
    }
    let first = nodes[0];
    let mut previous = first;
    let rest = &nodes[1..];
    for next in rest {
        if !has_edge(edges, more, previous, *next) {
            return false;
        }
        previous = *next;
    }
    has_edge(edges, more, previous, first)
}

/// Whether a node is among the nodes.
fn is_among(nodes: &[u32], n: u32) -> bool
    ensures { result ≡ is_among n nodes.now }
{
    nodes.iter().any(|x| *x == n)
}

/// Adds the nodes from which edges lead.
fn add_starts(nodes: &mut Vec<u32>, edges: &[Pair]) -> Result<(), NoMemory>
    ensures kept { OnOk result ((n : ℕ) → is_among n nodes.old.items ≡ true → is_among n nodes.new.items ≡ true) }
    ensures added { OnOk result ((a b : ℕ) → has_pair edges.now a b ≡ true → is_among a nodes.new.items ≡ true) }
{
    for edge in edges {
        if !is_among(nodes, edge.first) {
            nodes.push(edge.first)?;
        }
    }
    Ok(())
}

/// Whether one of the edges leads from a node to one of the nodes.
fn leads(edges: &[Pair], nodes: &[u32], a: u32) -> bool
    ensures { result ≡ leads edges.now nodes.now a }
{
    edges
        .iter()
        .any(|edge| edge.first == a && is_among(nodes, edge.second))
}

/// Whether an edge leads from a node to one of the nodes.
fn leads_on(edges: &[Pair], more: &[Pair], nodes: &[u32], a: u32) -> bool
    ensures { result ≡ has_next edges.now more.now nodes.now a }
{
    leads(edges, nodes, a) || leads(more, nodes, a)
}

/// Those of the nodes that have an edge to one of them.
fn with_next(
    alloc: Global,
    edges: &[Pair],
    more: &[Pair],
    nodes: &[u32],
) -> Result<Vec<u32>, NoMemory>
    ensures { IfOk result (λ v. v.items ≡ filter (λ a. has_next edges.now more.now nodes.now a) nodes.now) }
{
    let left = nodes
        .iter()
        .filter(|a| leads_on(edges, more, nodes, **a))
        .copied()
        .collect(alloc)?;
    Ok(left)
}

/// Leaves out the nodes from which no way leads on, until each has an edge to one that is left.
fn peeled(
    alloc: Global,
    edges: &[Pair],
    more: &[Pair],
    nodes: Vec<u32>,
) -> Result<Vec<u32>, NoMemory>
    ensures next { IfOk result (λ v. All (λ a. has_next edges.now more.now v.items a ≡ true) v.items) }
    ensures cycles { IfOk result (λ v. KeepsCycles (edge_among edges.now more.now) nodes.items v.items) }
{
    let mut left = nodes;
    loop {
        let next = with_next(alloc, edges, more, &left)?;
        if next.len() == left.len() {
            return Ok(left);
        }
        left = next;
    }
}

/// The end of the first of the edges that lead from a node to one of the nodes.
fn next_by(edges: &[Pair], nodes: &[u32], a: u32) -> Option<u32>
    ensures { MatchOption result (leads edges.now nodes.now a ≡ false)
        (λ b. (is_among b nodes.now ≡ true) × (has_pair edges.now a b ≡ true)) }
{
    for edge in edges {
        if edge.first == a && is_among(nodes, edge.second) {
            return Some(edge.second);
        }
    }
    None
}

/// One of the nodes to which an edge leads.
fn next_of(edges: &[Pair], more: &[Pair], nodes: &[u32], a: u32) -> Option<u32>
    ensures { MatchOption result (has_next edges.now more.now nodes.now a ≡ false)
        (λ b. (is_among b nodes.now ≡ true) × (edge_among edges.now more.now a b ≡ true)) }
{
    match next_by(edges, nodes, a) {
        Some(b) => Some(b),
        None => next_by(more, nodes, a),
    }
}

/// The place of a node among the nodes.
fn place_of(nodes: &[u32], n: u32) -> Option<usize>
    ensures { MatchOption result (is_among n nodes.now ≡ false) (λ i. slice_get nodes.now i ≡ Some n) }
{
    for (i, x) in nodes.iter().enumerate() {
        if *x == n {
            return Some(i);
        }
    }
    None
}

/// A node alone twice.
fn closed(nodes: Vec<u32>) -> Result<Vec<u32>, NoMemory>
    ensures { IfOk result (λ v. v.items ≡ closed nodes.items) }
{
    let mut nodes = nodes;
    if nodes.len() == 1 {
        let node = nodes[0];
        nodes.push(node)?;
    }
    Ok(nodes)
}

/// The nodes from a place on.
fn nodes_from(alloc: Global, nodes: &[u32], i: usize) -> Result<Vec<u32>, NoMemory>
    requires { i ≤ length nodes.now }
    ensures { IfOk result (λ v. v.items ≡ closed (drop i nodes.now)) }
{
    let rest = nodes[i..].iter().copied().collect(alloc)?;
    closed(rest)
}

/// Follows the edges from a node until a node comes again.
fn cycle_from(
    alloc: Global,
    edges: &[Pair],
    more: &[Pair],
    nodes: &[u32],
    start: u32,
) -> Result<Vec<u32>, NoMemory>
    requires next { All (λ a. has_next edges.now more.now nodes.now a ≡ true) nodes.now }
    requires starts { is_among start nodes.now ≡ true }
    ensures { IfOk result (λ v. is_cycle_of (edge_among edges.now more.now) v.items ≡ true) }
{
    let mut path = Vec::new(alloc);
    path.push(start)?;
    let mut last = start;
    loop {
        match next_of(edges, more, nodes, last) {
            Some(next) => match place_of(&path, next) {
                Some(i) => return nodes_from(alloc, &path, i),
                None => {
                    path.push(next)?;
                    last = next;
                }
            },
            None => unreachable!(),
        }
    }
}

/// A cycle of edges, if there is one.
pub fn find_cycle(
    alloc: Global,
    edges: &[Pair],
    more: &[Pair],
) -> Result<Option<Vec<u32>>, NoMemory>
    ensures { IfOk result (λ found. MatchOption found (HasNoCycle edges.now more.now)
        (λ v. is_cycle_of (edge_among edges.now more.now) v.items ≡ true)) }
{
    let mut nodes = Vec::new(alloc);
    add_starts(&mut nodes, edges)?;
    add_starts(&mut nodes, more)?;
    let left = peeled(alloc, edges, more, nodes)?;
    if left.is_empty() {
        return Ok(None);
    }
    let start = left[0];
    let cycle = cycle_from(alloc, edges, more, &left, start)?;
    Ok(Some(cycle))
}
