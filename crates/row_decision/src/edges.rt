//! The edges that readings ask for, and those of kept order.
ghost use Rattle.std.specs.Prelude.{◌≡◌, Some, [], map};
ghost use Rattle.std.specs.List.{list_any};
ghost use Rattle.once.specs.Edges.{asks_by, asks_of, edge_among, is_later, is_own_before, writes_to};
ghost use Rattle.row_decision.specs.Seen.{seen};

use crate::kept::{action, is_node, keeps_order};
use crate::reading::Reading;
use verdict::{Node, is_same};
use x86_subset::{Instr, Test};

/// Whether a store or an exchange to the location stands at a node.
fn writes_to(test: &Test, location: u32, node: Node) -> bool
    ensures { result ≡ writes_to test.now location node }
{
    match action(test, node) {
        Some(Instr::Store { loc, .. }) => loc == location,
        Some(Instr::Exchange { loc, .. }) => loc == location,
        Some(Instr::Load { .. }) => false,
        Some(Instr::Fence) => false,
        None => false,
    }
}

/// Whether it is one of the reader's own stores to the location before the read.
fn is_own_before(test: &Test, r: Reading, o: Node) -> bool
    ensures { result ≡ is_own_before test.now (seen r) o }
{
    writes_to(test, r.location, o) && o.thread == r.reader.thread && o.place < r.reader.place
}

/// Whether it is a later store to the location of the thread of another.
fn is_later(test: &Test, r: Reading, s: Node, o: Node) -> bool
    ensures { result ≡ is_later test.now (seen r) s o }
{
    writes_to(test, r.location, o) && o.thread == s.thread && s.place < o.place
}

/// Whether a reading of a store asks for the edge from a to b.
fn asks_source(test: &Test, r: Reading, s: Node, a: Node, b: Node) -> bool
    ensures { result ≡ asks_by test.now (seen r) (Some s) a b }
{
    s.thread != r.reader.thread
        && (is_same(s, a) && is_same(r.reader, b)
            || is_own_before(test, r, a) && is_same(s, b)
            || is_same(r.reader, a) && is_later(test, r, s, b))
}

/// Whether a reading asks for the edge from a to b.
fn asks(test: &Test, r: Reading, a: Node, b: Node) -> bool
    ensures { result ≡ asks_of test.now a b (seen r) }
{
    match r.source {
        None => is_same(r.reader, a)
            && (writes_to(test, r.location, b) && b.thread != r.reader.thread),
        Some(s) => asks_source(test, r, s, a, b),
    }
}

/// Whether some reading does.
fn some_asks(test: &Test, readings: &[Reading], a: Node, b: Node) -> bool
    ensures { result ≡ list_any (λ r. asks_of test.now a b (seen r)) readings.now }
{
    readings.iter().any(|r| asks(test, *r, a, b))
}

/// So of the readings as the laws see them.
fn is_asked(test: &Test, readings: &[Reading], a: Node, b: Node) -> bool
    ensures { result ≡ list_any (asks_of test.now a b) (map seen readings.now) }
{
    some_asks(test, readings, a, b)
}

/// Whether an edge leads from a to b: kept order, or what a reading asks for.
pub fn has_edge(test: &Test, readings: &[Reading], a: Node, b: Node) -> bool
    ensures { result ≡ edge_among test.now (map seen readings.now) [] a b }
{
    is_node(test, a)
        && is_node(test, b)
        && (keeps_order(test, a, b) || is_asked(test, readings, a, b))
}
