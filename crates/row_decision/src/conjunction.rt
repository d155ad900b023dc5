//! The conjunctions of a checked test, decided and shown.
ghost use Rattle.std.specs.Prelude.{◌≡◌, ◌<◌, ℕ, IfOk, List, Option, length, map};
ghost use Rattle.seq_conv.specs.Numbers.{AreOf};
ghost use Rattle.outcome_conv.specs.Holds.{location_read, reading_site};
ghost use Rattle.verdict.specs.Edges.{node};
ghost use Rattle.once.specs.Edges.{readings_in, reading_of};
ghost use Rattle.row_decision.specs.Seen.{seen};
ghost use Rattle.row_decision.specs.Conjunctions.{IsConjunctionShown};

use crate::reading::Reading;
use crate::show::{Showing, show_readings};
use perp_base::NoMemory;
use profile_check::{AtomKind, Checked};
use seq_conv::Sequences;
use std::alloc::Global;
use verdict::{Node, location, reader_of};
use x86_subset::Test;

/// The read in a column of a thread, and this source.
fn reading_at(test: &Test, thread: u32, column: u32, source: Option<Node>) -> Reading
    ensures { seen result ≡ record {
      reader = node (reading_site test.now thread column);
      location = location_read test.now thread column;
      source = source;
    } }
{
    let reader = reader_of(test, thread, column);
    Reading {
        reader,
        location: location(test, reader),
        source,
    }
}

/// What an atom says.
fn reading_of(test: &Test, kind: AtomKind) -> Reading
    ensures { seen result ≡ reading_of test.now kind }
{
    match kind {
        AtomKind::Rf {
            reader,
            column,
            writer,
            place,
        } => {
            let source = Node {
                thread: writer,
                place,
            };
            reading_at(test, reader, column, Some(source))
        }
        AtomKind::Fr { reader, column, .. } => reading_at(test, reader, column, None),
        AtomKind::Exact {
            reader,
            column,
            writer,
            place,
        } => {
            let source = Node {
                thread: writer,
                place,
            };
            reading_at(test, reader, column, Some(source))
        }
    }
}

/// What the atoms of a conjunction say, in order.
fn readings_in(alloc: Global, checked: &Checked, conjunction: u32) -> Result<Vec<Reading>, NoMemory>
    requires { conjunction < length checked.now.test.ends }
    ensures { IfOk result (λ readings. map seen readings.items ≡ readings_in checked.now conjunction) }
{
    let test = checked.test();
    let span = test.conjunction(conjunction as usize);
    let mut readings = Vec::new(alloc);
    for i in span.from as usize..span.to as usize {
        readings.push(reading_of(test, checked.kind(i)))?;
    }
    Ok(readings)
}

/// A run of one iteration that shows a conjunction, or why there is none, or that so many steps did not suffice. The
/// sequences are those of the test.
pub fn show_conjunction(
    alloc: Global,
    checked: &Checked,
    sequences: &Sequences,
    conjunction: u32,
    most: u64,
) -> Result<Showing, NoMemory>
    requires same { AreOf checked.now.test sequences.now }
    requires there { conjunction < length checked.now.test.ends }
    ensures { IfOk result (IsConjunctionShown checked.now conjunction most) }
{
    let test = checked.test();
    let readings = readings_in(alloc, checked, conjunction)?;
    show_readings(alloc, test, sequences, &readings, most)
}
