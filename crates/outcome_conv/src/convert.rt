//! The condition of an atom.
ghost use Rattle.std.specs.Prelude.{◌≡◌, ◌<◌, length, slice_get, Ok};
ghost use Rattle.x86_subset.specs.Shape.{IsTest};
ghost use Rattle.x86_subset.specs.declared.test.Atom.{Atom};
ghost use Rattle.seq_conv.specs.Numbers.{AreOf};
ghost use Rattle.profile_check.specs.Kinds.{kind_of};
ghost use Rattle.outcome_conv.specs.Conds.{cond_of};
ghost use Rattle.outcome_conv.specs.Holds.{location_read, reading_places};

use crate::cond::{Cond, CondKind};
use profile_check::AtomKind;
use seq_conv::Sequences;
use x86_subset::{Instr, Test};

/// The place of the reading action in a column, if the body has that column.
fn place_read(body: &[Instr], column: u32) -> Option<usize>
    ensures { result ≡ slice_get (reading_places 0 body.now) column }
{
    let mut left = column;
    for place in 0..body.len() {
        if body[place].is_reading() {
            if left == 0 {
                return Some(place);
            }
            left -= 1;
        }
    }
    None
}

/// The location that a thread reads in a column.
fn location_read(test: &Test, reader: u32, column: u32) -> u32
    requires { reader < length test.now.bodies }
    ensures { result ≡ location_read test.now reader column }
{
    let body = test.body(reader as usize);
    let place = place_read(body, column).unwrap_or(0);
    match body.get(place) {
        Some(action) => action.location().unwrap_or(0),
        None => 0,
    }
}

/// A condition from its parts.
fn condition(reader: u32, column: u32, loc: u32, writer: u32, kind: CondKind) -> Cond
    ensures { result ≡ record { reader = reader; column = column; loc = loc; writer = writer; kind = kind } }
{
    Cond {
        reader,
        column,
        loc,
        writer,
        kind,
    }
}

/// The condition of an atom of this kind.
pub(crate) fn cond_of(test: &Test, sequences: &Sequences, kind: AtomKind) -> Cond
    requires test { IsTest test.now }
    requires sequences { AreOf test.now sequences.now }
    requires kind { (atom : Atom) × (kind_of test.now atom ≡ Ok kind) }
    ensures { result ≡ cond_of test.now kind }
{
    match kind {
        AtomKind::Rf {
            reader,
            column,
            writer,
            place,
        } => {
            let loc = location_read(test, reader, column);
            let k = sequences.stores(loc);
            let a = sequences.rank(writer as usize, place as usize);
            condition(reader, column, loc, writer, CondKind::AtLeast { k, a })
        }
        AtomKind::Fr {
            reader,
            column,
            writer,
        } => {
            let loc = location_read(test, reader, column);
            let k = sequences.stores(loc);
            condition(reader, column, loc, writer, CondKind::Below { k })
        }
        AtomKind::Exact {
            reader,
            column,
            writer,
            place,
        } => {
            let loc = location_read(test, reader, column);
            let k = sequences.stores(loc);
            let a = sequences.rank(writer as usize, place as usize);
            condition(reader, column, loc, writer, CondKind::Exact { k, a })
        }
    }
}
