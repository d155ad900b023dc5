//! The graph of readings: nodes by number, edges and choices.
ghost use Rattle.std.specs.Prelude.{◌≡◌, ◌<◌, ◌++◌, ℕ, true, All, IfOk, List, OnOk, [], map, length};
ghost use Rattle.choice_search.specs.Graph.{has_pair};
ghost use Rattle.choice_search.specs.declared.graph.Pair.{Pair};
ghost use Rattle.seq_conv.specs.Numbers.{AreOf};
ghost use Rattle.once.specs.Edges.{choices_of, edge_among, is_third};
ghost use Rattle.once.specs.Sources.{AreReadings, IsReading};
ghost use Rattle.row_decision.specs.Seen.{AreChoices, AreEdges, choice_seen, node_at, number_of, seen};

use crate::edges::has_edge;
use crate::reading::Reading;
use choice_search::{Choice, Pair};
use perp_base::NoMemory;
use seq_conv::{Sequences, Site};
use std::alloc::Global;
use verdict::Node;
use x86_subset::Test;

/// How many places a thread has.
const PLACES: u32 = 16;

/// How many nodes a test has at most.
const NODES: u32 = 128;

/// The node of a number.
fn node_at(number: u32) -> Node
    ensures { result ≡ node_at number }
{
    Node {
        thread: number / PLACES,
        place: number % PLACES,
    }
}

/// The number of a node.
fn number_of(node: Node) -> u32
    requires thread { node.thread < 8 }
    requires place { node.place < 16 }
    ensures is { result ≡ number_of node }
    ensures back { node_at result ≡ node }
{
    node.thread * PLACES + node.place
}

/// Adds the edges from a node.
fn add_edges(
    test: &Test,
    readings: &[Reading],
    first: u32,
    edges: &mut Vec<Pair>,
) -> Result<(), NoMemory>
    ensures sound { OnOk result (
        All (λ (p : Pair).
        edge_among test.now (map seen readings.now) [] (node_at p.first) (node_at p.second) ≡ true) edges.old.items
        → All (λ (p : Pair).
        edge_among test.now (map seen readings.now) [] (node_at p.first) (node_at p.second) ≡ true) edges.new.items) }
    ensures kept { OnOk result ((a b : ℕ) → has_pair edges.old.items a b ≡ true → has_pair edges.new.items a b ≡ true) }
    ensures complete { OnOk result ((b : ℕ) → b < 128
        → edge_among test.now (map seen readings.now) [] (node_at first) (node_at b) ≡ true
        → has_pair edges.new.items first b ≡ true) }
{
    for second in 0..NODES {
        if has_edge(test, readings, node_at(first), node_at(second)) {
            edges.push(Pair { first, second })?;
        }
    }
    Ok(())
}

/// The edges of readings.
pub fn edges_of(alloc: Global, test: &Test, readings: &[Reading]) -> Result<Vec<Pair>, NoMemory>
    ensures { IfOk result (λ v. AreEdges test.now (map seen readings.now) v.items) }
{
    let _threads = test.threads();
    let mut edges = Vec::new(alloc);
    for first in 0..NODES {
        add_edges(test, readings, first, &mut edges)?;
    }
    Ok(edges)
}

/// Whether a site stands in a thread that is neither the reader's nor that of the source.
fn is_third(reader: Node, source: Node, site: Site) -> bool
    ensures { result ≡ is_third reader source site }
{
    site.thread != reader.thread && site.thread != source.thread
}

/// Adds the choices of a reading.
fn add_choices(
    test: &Test,
    sequences: &Sequences,
    reading: Reading,
    choices: &mut Vec<Choice>,
) -> Result<(), NoMemory>
    requires same { AreOf test.now sequences.now }
    requires reading { IsReading test.now (seen reading) }
    ensures { OnOk result (map choice_seen choices.new.items
        ≡ map choice_seen choices.old.items ++ choices_of test.now (seen reading)) }
{
    let _threads = test.threads();
    let Some(source) = reading.source else {
        return Ok(());
    };
    for site in sequences.sites(reading.location) {
        if is_third(reading.reader, source, *site) {
            choices.push(Choice {
                reader: number_of(reading.reader),
                source: number_of(source),
                other: number_of(Node {
                    thread: site.thread,
                    place: site.place,
                }),
            })?;
        }
    }
    Ok(())
}

/// The choices of readings, in order.
pub fn choices_of(
    alloc: Global,
    test: &Test,
    sequences: &Sequences,
    readings: &[Reading],
) -> Result<Vec<Choice>, NoMemory>
    requires same { AreOf test.now sequences.now }
    requires readings { AreReadings test.now (map seen readings.now) }
    ensures { IfOk result (λ v. AreChoices test.now (map seen readings.now) v.items) }
{
    let mut choices = Vec::new(alloc);
    for reading in readings {
        add_choices(test, sequences, *reading, &mut choices)?;
    }
    Ok(choices)
}
