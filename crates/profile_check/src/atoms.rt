//! The kind of an atom.
ghost use Rattle.std.specs.Prelude.{◌≡◌, ◌<◌, All, Some, filter, length};
ghost use Rattle.x86_subset.specs.Shape.{IsTest};
ghost use Rattle.x86_subset.specs.Test.{column_of, last_writer_of};
ghost use Rattle.seq_conv.specs.Numbers.{AreOf};
ghost use Rattle.seq_conv.specs.Sequence.{Site, site_location};
ghost use Rattle.profile_check.specs.Kinds.{kind_at, kind_of, kind_of_value, kind_of_zero, stand_in_one_other};
ghost use Rattle.profile_check.specs.Named.{named_of, writes};

use crate::kind::{AtomKind, ProfileKind};
use seq_conv::{Sequences, Site, stand_in};
use x86_subset::{Atom, Instr, Test};

/// How many stores there are.
#[derive(Clone, Copy)]
pub(crate) enum Named {
    Nobody,
    One(Site),
    Several,
}

/// Whether the store at a site was written with a value.
fn writes(test: &Test, value: u32, site: Site) -> bool
    requires { site.thread < length test.now.bodies }
    ensures { result ≡ writes test.now value site }
{
    match test.body(site.thread as usize).get(site.place as usize) {
        Some(Instr::Store { written, .. }) => *written == value,
        Some(Instr::Exchange { written, .. }) => *written == value,
        _ => false,
    }
}

/// The stores that were written with a value.
fn stores_named(test: &Test, value: u32, stores: &[Site]) -> Named
    requires { All (λ (s : Site). s.thread < length test.now.bodies) stores.now }
    ensures { result ≡ named_of (filter (writes test.now value) stores.now) }
{
    let mut found = Named::Nobody;
    for site in stores {
        if writes(test, value, *site) {
            found = match found {
                Named::Nobody => Named::One(*site),
                _ => Named::Several,
            };
        }
    }
    found
}

/// Whether there are stores, all by a single other thread.
fn stand_in_one_other(thread: u32, stores: &[Site]) -> bool
    ensures { result ≡ stand_in_one_other thread stores.now }
{
    match stores {
        [] => false,
        [first, others @ ..] => stand_in(first.thread, others) && first.thread != thread,
    }
}

/// The kind of an atom with a value other than 0, by the stores of its location.
fn kind_of_value(
    test: &Test,
    reader: u32,
    column: u32,
    stores: &[Site],
    value: u32,
) -> Result<AtomKind, ProfileKind>
    requires { All (λ (s : Site). s.thread < length test.now.bodies) stores.now }
    ensures { result ≡ kind_of_value reader column stores.now (filter (writes test.now value) stores.now) }
{
    match stores_named(test, value, stores) {
        Named::Nobody => Err(ProfileKind::NoStore),
        Named::Several => Err(ProfileKind::Ambiguous),
        Named::One(site) => if stand_in_one_other(reader, stores) {
            Ok(AtomKind::Exact {
                reader,
                column,
                writer: site.thread,
                place: site.place,
            })
        } else {
            Ok(AtomKind::Rf {
                reader,
                column,
                writer: site.thread,
                place: site.place,
            })
        },
    }
}

/// The kind of an atom with the value 0, which no store was written with, by the stores of its location.
fn kind_of_zero(reader: u32, column: u32, stores: &[Site]) -> Result<AtomKind, ProfileKind>
    ensures { result ≡ kind_of_zero reader column stores.now }
{
    match stores {
        [] => Err(ProfileKind::NoWriter),
        [first, others @ ..] => if !stand_in(first.thread, others) {
            Err(ProfileKind::SeveralWriters)
        } else if first.thread == reader {
            Err(ProfileKind::OwnWriter)
        } else {
            Ok(AtomKind::Fr {
                reader,
                column,
                writer: first.thread,
            })
        },
    }
}

/// The column and the location of the action at a place that a register was read by.
fn reader_of(test: &Test, atom: Atom, place: usize) -> (u32, u32)
    requires test { IsTest test.now }
    requires thread { atom.thread < length test.now.bodies }
    requires place { last_writer_of test.now atom.thread atom.reg ≡ Some place }
    ensures column { result.0 ≡ column_of test.now atom.thread place }
    ensures location { result.1 ≡ site_location test.now (record { thread = atom.thread; place = place }) }
    ensures within { result.1 < length test.now.locations }
{
    let thread = atom.thread as usize;
    let column = test.column(thread, place).unwrap_or(0);
    (
        column as u32,
        test.body(thread)[place].location().unwrap_or(0),
    )
}

/// The kind of an atom whose register was read by the action at a place.
fn kind_at(
    test: &Test,
    sequences: &Sequences,
    atom: Atom,
    place: usize,
) -> Result<AtomKind, ProfileKind>
    requires test { IsTest test.now }
    requires sequences { AreOf test.now sequences.now }
    requires thread { atom.thread < length test.now.bodies }
    requires place { last_writer_of test.now atom.thread atom.reg ≡ Some place }
    ensures { result ≡ kind_at test.now atom.thread place (site_location test.now
        (record { thread = atom.thread; place = place })) atom.value }
{
    let (column, loc) = reader_of(test, atom, place);
    let stores = sequences.sites(loc);
    if atom.value != 0 {
        return kind_of_value(test, atom.thread, column, stores, atom.value);
    }
    match stores_named(test, 0, stores) {
        Named::Nobody => kind_of_zero(atom.thread, column, stores),
        _ => Err(ProfileKind::ZeroStored),
    }
}

/// The kind of an atom, or the first reason why it has none.
pub(crate) fn kind_of(
    test: &Test,
    threads: usize,
    sequences: &Sequences,
    atom: Atom,
) -> Result<AtomKind, ProfileKind>
    requires test { IsTest test.now }
    requires threads { threads ≡ length test.now.bodies }
    requires sequences { AreOf test.now sequences.now }
    ensures { result ≡ kind_of test.now atom }
{
    let thread = atom.thread as usize;
    if thread >= threads {
        return Err(ProfileKind::NoSuchThread);
    }
    match test.last_writer(thread, atom.reg) {
        None => Err(ProfileKind::NotLoaded),
        Some(place) => kind_at(test, sequences, atom, place),
    }
}
