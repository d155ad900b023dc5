//! Readings decided.
ghost use Rattle.std.specs.Prelude.{◌≡◌, ◌<◌, ◌≤◌, ℕ, true, false, IfOk, List, MatchOption, Some, length, map, slice_get};
ghost use Rattle.std.specs.List.{list_any};
ghost use Rattle.x86_subset.specs.Shape.{IsTest};
ghost use Rattle.x86_subset.specs.Test.{LitmusTest};
ghost use Rattle.seq_conv.specs.Numbers.{AreOf};
ghost use Rattle.seq_conv.specs.Sequence.{stores_of};
ghost use Rattle.decision.specs.Hidden.{is_hidden_store, is_own_between};
ghost use Rattle.once.specs.Edges.{Reading as ReadingSeen};
ghost use Rattle.once.specs.Sources.{AreReadings, HidesNone, IsReading, is_hidden_by, is_hidden_source, is_own_earlier};
ghost use Rattle.choice_search.specs.Answers.{IsOutcome};
ghost use Rattle.choice_search.specs.declared.graph.Pair.{Pair};
ghost use Rattle.choice_search.specs.declared.graph.Choice.{Choice};
ghost use Rattle.row_decision.specs.Seen.{AreChoices, AreEdges, seen};
ghost use Rattle.row_decision.specs.Decided.{IsAnswerOf, IsDecision};

use crate::graph::{choices_of, edges_of};
use crate::reading::Reading;
use choice_search::{Outcome, Tree, decide};
use perp_base::NoMemory;
use seq_conv::{Sequences, Site};
use std::alloc::Global;
use verdict::Node;
use x86_subset::Test;

/// Whether a run of one iteration has all sources: it has; the reading with this index has a hidden source; a tree of
/// cases refutes them; or the steps did not suffice.
#[derive(Debug, Drop)]
pub enum Answer {
    Possible,
    Hidden(usize),
    Refuted(Tree),
    GaveUp,
}

/// The answer, and the steps that it took.
#[derive(Debug, Drop)]
pub struct Decision {
    pub answer: Answer,
    pub steps: u64,
}

/// Whether a store of the reader's thread stands before its read.
fn is_own_earlier(reader: Node, store: Site) -> bool
    ensures { result ≡ is_own_earlier reader.thread reader.place store }
{
    store.thread == reader.thread && store.place < reader.place
}

/// Whether a store of the reader's thread stands between a place and the reader.
fn is_own_between(reader: Node, place: u32, store: Site) -> bool
    ensures { result ≡ is_own_between reader.thread place reader.place store }
{
    store.thread == reader.thread && place < store.place && store.place < reader.place
}

/// Whether one of the stores stands before the read in its thread.
fn is_any_earlier(reader: Node, stores: &[Site]) -> bool
    ensures { result ≡ list_any (is_own_earlier reader.thread reader.place) stores.now }
{
    stores.iter().any(|store| is_own_earlier(reader, *store))
}

/// Whether one of the stores stands between a place and the reader.
fn is_any_between(reader: Node, place: u32, stores: &[Site]) -> bool
    ensures { result ≡ list_any (is_own_between reader.thread place reader.place) stores.now }
{
    stores
        .iter()
        .any(|store| is_own_between(reader, place, *store))
}

/// Whether the store at a place of the reader's thread is hidden from it by one of these stores, or does not stand
/// before it.
fn is_hidden_store(reader: Node, place: u32, stores: &[Site]) -> bool
    ensures { result ≡ is_hidden_store reader.thread place reader.place stores.now }
{
    reader.place <= place || is_any_between(reader, place, stores)
}

/// Whether these stores hide the source of a reading from it.
fn is_hidden_by(reading: Reading, stores: &[Site]) -> bool
    ensures { (test : LitmusTest) → stores.now ≡ stores_of test reading.location
        → result ≡ is_hidden_source test (seen reading) }
{
    match reading.source {
        None => is_any_earlier(reading.reader, stores),
        Some(s) => s.thread == reading.reader.thread
            && is_hidden_store(reading.reader, s.place, stores),
    }
}

/// Whether the source of a reading is hidden.
fn is_hidden(test: &Test, sequences: &Sequences, reading: Reading) -> bool
    requires same { AreOf test.now sequences.now }
    requires reading { IsReading test.now (seen reading) }
    ensures { result ≡ is_hidden_source test.now (seen reading) }
{
    let _threads = test.threads();
    is_hidden_by(reading, sequences.sites(reading.location))
}

/// The first reading whose source is hidden.
pub fn hidden(test: &Test, sequences: &Sequences, readings: &[Reading]) -> Option<usize>
    requires same { AreOf test.now sequences.now }
    requires readings { AreReadings test.now (map seen readings.now) }
    ensures { MatchOption result (HidesNone test.now (map seen readings.now))
        (λ index. (r : ReadingSeen) × (slice_get (map seen readings.now) index ≡ Some r)
        × (is_hidden_source test.now r ≡ true)) }
{
    for (index, reading) in readings.iter().enumerate() {
        if is_hidden(test, sequences, *reading) {
            return Some(index);
        }
    }
    None
}

/// What the search found, in the words of the test.
fn answer_of(outcome: Outcome) -> Answer
    ensures { (test : LitmusTest) (readings : List ReadingSeen) (edges : List Pair) (choices : List Choice)
        (most steps : ℕ) → IsTest test → AreReadings test readings → HidesNone test readings → AreEdges test readings edges
        → AreChoices test readings choices → IsOutcome edges choices most steps outcome
        → IsAnswerOf test readings most steps result }
{
    match outcome {
        Outcome::Sides(_) => Answer::Possible,
        Outcome::Refuted(tree) => Answer::Refuted(tree),
        Outcome::GaveUp => Answer::GaveUp,
    }
}

/// Whether some run of one iteration has all sources of the readings, in at most so many steps. The sequences are those
/// of the test.
pub fn decide_readings(
    alloc: Global,
    test: &Test,
    sequences: &Sequences,
    readings: &[Reading],
    most: u64,
) -> Result<Decision, NoMemory>
    requires same { AreOf test.now sequences.now }
    requires readings { AreReadings test.now (map seen readings.now) }
    ensures { IfOk result (IsDecision test.now (map seen readings.now) most) }
{
    let _threads = test.threads();
    if let Some(index) = hidden(test, sequences, readings) {
        return Ok(Decision {
            answer: Answer::Hidden(index),
            steps: 0,
        });
    }
    let edges = edges_of(alloc, test, readings)?;
    let choices = choices_of(alloc, test, sequences, readings)?;
    let found = decide(alloc, &edges, &choices, most)?;
    Ok(Decision {
        answer: answer_of(found.outcome),
        steps: found.steps,
    })
}
