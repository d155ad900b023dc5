//! What is reached from each node, as bits. It is a guide to the search alone: nothing that is answered rests on it.
use crate::graph::Pair;
use perp_base::NoMemory;
use std::alloc::Global;

/// How many nodes the closure knows: those below this number.
pub const MOST_NODES: u32 = 128;

/// Edges between nodes, and their closure: a row of bits for each node.
#[derive(Drop)]
pub struct Closure {
    /// The nodes to which an edge leads.
    next: Vec<u128>,
    /// The nodes to which some way leads.
    reached: Vec<u128>,
}

/// The bit of a node.
fn bit(node: u32) -> u128 {
    if node < MOST_NODES { 1 << node } else { 0 }
}

/// The row of a node.
fn row(rows: &[u128], node: u32) -> u128 {
    match rows.get(node as usize) {
        Some(row) => *row,
        None => 0,
    }
}

/// All that these rows have of the nodes in a set.
fn rows_of(rows: &[u128], nodes: u128) -> u128 {
    let mut all = 0;
    for (node, row) in rows.iter().enumerate() {
        if node < MOST_NODES as usize && nodes & (1 << node) != 0 {
            all |= *row;
        }
    }
    all
}

/// A node of a set that has an edge to this one; the node itself where there is none.
fn before(rows: &[u128], nodes: u128, node: u32) -> u32 {
    let end = bit(node);
    for x in 0..MOST_NODES {
        if nodes & bit(x) != 0 && row(rows, x) & end != 0 {
            return x;
        }
    }
    node
}

impl Closure {
    /// No edges.
    pub fn new(alloc: Global) -> Result<Self, NoMemory> {
        let mut next = Vec::new(alloc);
        let mut reached = Vec::new(alloc);
        for _ in 0..MOST_NODES {
            next.push(0)?;
            reached.push(0)?;
        }
        Ok(Closure { next, reached })
    }

    /// The same edges.
    pub fn copy(&self) -> Result<Self, NoMemory> {
        let next = self.next.clone()?;
        let reached = self.reached.clone()?;
        Ok(Closure { next, reached })
    }

    /// Whether a way leads from one node to another, or they are one.
    pub fn reaches(&self, from: u32, to: u32) -> bool {
        from == to || row(&self.reached, from) & bit(to) != 0
    }

    /// Adds an edge.
    pub fn add(&mut self, edge: Pair) {
        let first = bit(edge.first);
        let ahead = row(&self.reached, edge.second) | bit(edge.second);
        for (node, row) in self.reached.iter_mut().enumerate() {
            if node == edge.first as usize || *row & first != 0 {
                *row |= ahead;
            }
        }
        if let Some(row) = self.next.get_mut(edge.first as usize) {
            *row |= bit(edge.second);
        }
    }

    /// The nodes that a walk meets for the first time at each step, up to the step that meets `to`.
    fn levels(&self, alloc: Global, from: u32, to: u32) -> Result<Vec<u128>, NoMemory> {
        let mut levels = Vec::new(alloc);
        let mut level = bit(from);
        let mut seen = level;
        for _ in 0..MOST_NODES {
            levels.push(level)?;
            if level & bit(to) != 0 {
                break;
            }
            level = rows_of(&self.next, level) & (seen ^ u128::MAX);
            seen |= level;
        }
        Ok(levels)
    }

    /// A shortest cycle through an edge, if a way leads back.
    pub fn cycle_through(&self, alloc: Global, edge: Pair) -> Result<Vec<u32>, NoMemory> {
        let levels = self.levels(alloc, edge.second, edge.first)?;
        let mut backward = Vec::new(alloc);
        let mut node = edge.first;
        backward.push(node)?;
        for level in levels.iter().rev().skip(1) {
            node = before(&self.next, *level, node);
            backward.push(node)?;
        }
        if levels.len() < 2 {
            backward.push(node)?;
        }
        let cycle = backward.iter().rev().copied().collect(alloc)?;
        Ok(cycle)
    }
}
