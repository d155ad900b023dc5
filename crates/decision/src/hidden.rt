//! The reads of hidden stores: own stores that a thread cannot read.
ghost use Rattle.std.specs.Prelude.{◌≡◌, ◌<◌, Ok, length, IfSome};
ghost use Rattle.std.specs.List.{list_any};
ghost use Rattle.x86_subset.specs.Shape.{IsTest};
ghost use Rattle.x86_subset.specs.declared.test.Atom.{Atom};
ghost use Rattle.seq_conv.specs.Numbers.{AreOf};
ghost use Rattle.profile_check.specs.Kinds.{kind_of};
ghost use Rattle.decision.specs.Decisions.{NeverHolds};
ghost use Rattle.decision.specs.Hidden.{hidden_by, hidden_from, hidden_in, is_hidden_store, is_own_between};

use profile_check::{AtomKind, Checked};
use seq_conv::{Sequences, Site};
use verdict::{Node, location, reader_of};
use x86_subset::Test;

/// A store and a read of one thread, from which the store is hidden: it does not stand before the read, or a later one
/// of the thread to the location stands between them.
#[derive(Clone, Copy, Debug, PartialEq, Eq)]
pub struct HiddenRead {
    pub store: Node,
    pub read: Node,
}

/// Whether a store stands in the reader's thread, between `place` and the reader.
fn is_own_between(reader: Node, place: u32, store: &Site) -> bool
    ensures { result ≡ is_own_between reader.thread place reader.place store.now }
{
    store.thread == reader.thread && place < store.place && store.place < reader.place
}

/// Whether one of the stores does.
fn is_any_between(reader: Node, place: u32, stores: &[Site]) -> bool
    ensures { result ≡ list_any (is_own_between reader.thread place reader.place) stores.now }
{
    stores
        .iter()
        .any(|store| is_own_between(reader, place, store))
}

/// Whether the store at `place` of the reader's thread is hidden from it by one of these stores, or does not stand
/// before it.
fn is_hidden_store(reader: Node, place: u32, stores: &[Site]) -> bool
    ensures { result ≡ is_hidden_store reader.thread place reader.place stores.now }
{
    reader.place <= place || is_any_between(reader, place, stores)
}

/// The store and the read, where the store is the reader's own and hidden from the read by one of these stores.
fn hidden_from(read: Node, store: Node, stores: &[Site]) -> Option<HiddenRead>
    ensures { result ≡ hidden_from read store stores.now }
{
    if store.thread == read.thread && is_hidden_store(read, store.place, stores) {
        Some(HiddenRead { store, read })
    } else {
        None
    }
}

/// The hidden store that an atom names, with its read.
fn hidden_by(test: &Test, sequences: &Sequences, kind: AtomKind) -> Option<HiddenRead>
    requires test { IsTest test.now }
    requires same { AreOf test.now sequences.now }
    requires kind { (atom : Atom) × (kind_of test.now atom ≡ Ok kind) }
    ensures { result ≡ hidden_by test.now kind }
{
    match kind {
        AtomKind::Fr { .. } | AtomKind::Exact { .. } => None,
        AtomKind::Rf {
            reader,
            column,
            writer,
            place,
        } => {
            let read = reader_of(test, reader, column);
            let store = Node {
                thread: writer,
                place,
            };
            hidden_from(read, store, sequences.sites(location(test, read)))
        }
    }
}

/// The first hidden store that an atom of a conjunction names, with its read; then the conjunction never holds, in any
/// run. The sequences are those of the test.
pub fn hidden_read(checked: &Checked, sequences: &Sequences, conjunction: u32) -> Option<HiddenRead>
    requires same { AreOf checked.now.test sequences.now }
    requires there { conjunction < length checked.now.test.ends }
    ensures first { result ≡ hidden_in checked.now conjunction }
    ensures never { IfSome result (λ _. NeverHolds checked.now conjunction) }
{
    let test = checked.test();
    let span = test.conjunction(conjunction as usize);
    for i in span.from as usize..span.to as usize {
        if let Some(hidden) = hidden_by(test, sequences, checked.kind(i)) {
            return Some(hidden);
        }
    }
    None
}
