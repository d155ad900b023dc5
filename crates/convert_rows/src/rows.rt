//! The rows of a conversion.
ghost use Rattle.std.specs.Prelude.{◌≡◌, ◌<◌, ◌≤◌, ◌++◌, All, IfOk, IfSome, OnOk, Some, length, map};
ghost use Rattle.std.specs.Str.{IsAscii};
ghost use Rattle.x86_subset.specs.Instr.{location_of};
ghost use Rattle.x86_subset.specs.Shape.{IsTest};
ghost use Rattle.x86_subset.specs.Test.{body_of};
ghost use Rattle.seq_conv.specs.Numbers.{AreOf};
ghost use Rattle.seq_conv.specs.Sequence.{action_at};
ghost use Rattle.outcome_conv.specs.Conditions.{IsKind};
ghost use Rattle.outcome_conv.specs.Conds.{conds_of};
ghost use Rattle.report_text.specs.Conversion.{rows_of};
ghost use Rattle.convert_rows.specs.Rows.{atom_row, conversion_rows_of, location_taken, location_written, name_of, read_row, read_rows_at, rows_in_bodies, rows_in_body, store_row, store_rows_at};

use outcome_conv::{Cond, CondKind, Conds};
use perp_base::{Name, NoMemory};
use profile_check::Checked;
use report_text::{AtomForm, AtomRow, Conversion, ReadRow, StoreRow};
use seq_conv::{Sequences, Site};
use std::alloc::Global;
use x86_subset::{Instr, Test};

/// The location that an action writes.
fn location_written(action: Instr) -> Option<u32>
    ensures { result ≡ location_written action }
{
    match action {
        Instr::Store { loc, .. } => Some(loc),
        Instr::Exchange { loc, .. } => Some(loc),
        _ => None,
    }
}

/// The location that an action reads.
fn location_taken(action: Instr) -> Option<u32>
    ensures { result ≡ location_taken action }
{
    match action {
        Instr::Load { loc, .. } => Some(loc),
        Instr::Exchange { loc, .. } => Some(loc),
        _ => None,
    }
}

/// The name of a location.
fn name_of(alloc: Global, test: &Test, loc: u32) -> Result<Name, NoMemory>
    requires { loc < length test.now.locations }
    ensures { IfOk result (λ name. name ≡ name_of test.now loc) }
{
    Name::of(alloc, test.locations()[loc as usize].bytes())
}

/// The row of a store to a location.
fn store_row(
    alloc: Global,
    test: &Test,
    sequences: &Sequences,
    site: Site,
    loc: u32,
    action: Instr,
) -> Result<StoreRow, NoMemory>
    requires sequences { AreOf test.now sequences.now }
    requires located { loc < length test.now.locations }
    requires thread { site.thread < length test.now.bodies }
    requires place { site.place < length (body_of test.now site.thread) }
    requires site { action_at test.now site ≡ Some action }
    requires writes { location_written action ≡ Some loc }
    ensures { IfOk result (λ row. row ≡ store_row test.now site loc) }
{
    Ok(StoreRow {
        thread: site.thread,
        place: site.place,
        loc: name_of(alloc, test, loc)?,
        k: sequences.stores(loc),
        a: sequences.rank(site.thread as usize, site.place as usize),
    })
}

/// The row of an action that reads a location.
fn read_row(
    alloc: Global,
    test: &Test,
    site: Site,
    loc: u32,
    action: Instr,
) -> Result<ReadRow, NoMemory>
    requires test { IsTest test.now }
    requires located { loc < length test.now.locations }
    requires thread { site.thread < length test.now.bodies }
    requires place { site.place < length (body_of test.now site.thread) }
    requires site { action_at test.now site ≡ Some action }
    requires reads { location_taken action ≡ Some loc }
    ensures { IfOk result (λ row. row ≡ read_row test.now site loc) }
{
    let column = test.column(site.thread as usize, site.place as usize);
    Ok(ReadRow {
        thread: site.thread,
        place: site.place,
        loc: name_of(alloc, test, loc)?,
        column: column.unwrap_or(0) as u32,
    })
}

/// Adds the rows of a thread's stores.
fn add_stores(
    alloc: Global,
    rows: &mut Vec<StoreRow>,
    test: &Test,
    sequences: &Sequences,
    thread: usize,
) -> Result<(), NoMemory>
    requires test { IsTest test.now }
    requires sequences { AreOf test.now sequences.now }
    requires thread { thread < length test.now.bodies }
    ensures { OnOk result (rows.new.items ≡ rows.old.items
        ++ rows_in_body (store_rows_at test.now) thread 0 (body_of test.now thread)) }
{
    let body = test.body(thread);
    for place in 0..body.len() {
        let action = body[place];
        if let Some(loc) = location_written(action) {
            let site = Site {
                thread: thread as u32,
                place: place as u32,
            };
            rows.push(store_row(alloc, test, sequences, site, loc, action)?)?;
        }
    }
    Ok(())
}

/// Adds the rows of a thread's reading actions.
fn add_reads(
    alloc: Global,
    rows: &mut Vec<ReadRow>,
    test: &Test,
    thread: usize,
) -> Result<(), NoMemory>
    requires test { IsTest test.now }
    requires thread { thread < length test.now.bodies }
    ensures { OnOk result (rows.new.items ≡ rows.old.items
        ++ rows_in_body (read_rows_at test.now) thread 0 (body_of test.now thread)) }
{
    let body = test.body(thread);
    for place in 0..body.len() {
        let action = body[place];
        if let Some(loc) = location_taken(action) {
            let site = Site {
                thread: thread as u32,
                place: place as u32,
            };
            rows.push(read_row(alloc, test, site, loc, action)?)?;
        }
    }
    Ok(())
}

/// The rows of all stores, by thread and then by place.
fn store_rows(alloc: Global, test: &Test, sequences: &Sequences) -> Result<Vec<StoreRow>, NoMemory>
    requires { AreOf test.now sequences.now }
    ensures { IfOk result (λ v. v.items ≡ rows_in_bodies (store_rows_at test.now) 0 test.now.bodies) }
{
    let mut rows = Vec::new(alloc);
    for thread in 0..test.threads() {
        add_stores(alloc, &mut rows, test, sequences, thread)?;
    }
    Ok(rows)
}

/// The rows of all reading actions, by thread and then by place.
fn read_rows(alloc: Global, test: &Test) -> Result<Vec<ReadRow>, NoMemory>
    ensures { IfOk result (λ v. v.items ≡ rows_in_bodies (read_rows_at test.now) 0 test.now.bodies) }
{
    let mut rows = Vec::new(alloc);
    for thread in 0..test.threads() {
        add_reads(alloc, &mut rows, test, thread)?;
    }
    Ok(rows)
}

/// The row of a condition.
fn atom_row(cond: Cond) -> AtomRow
    requires { IsKind cond.kind }
    ensures is { result ≡ atom_row cond }
    ensures step { 0 < result.k }
{
    let (form, k, a) = match cond.kind {
        CondKind::AtLeast { k, a } => (AtomForm::Rf, k, a),
        CondKind::Below { k } => (AtomForm::Fr, k, 1),
        CondKind::Exact { k, a } => (AtomForm::Exact, k, a),
    };
    AtomRow {
        form,
        reader: cond.reader,
        column: cond.column,
        writer: cond.writer,
        k,
        a,
    }
}

/// The rows of conditions, in order.
fn atom_rows(alloc: Global, conds: &Conds) -> Result<Vec<AtomRow>, NoMemory>
    ensures is { IfOk result (λ v. v.items ≡ map atom_row conds.now.conds) }
    ensures steps { IfOk result (λ v. All (λ row. 0 < row.k) v.items) }
{
    let mut rows = Vec::new(alloc);
    for i in 0..conds.len() {
        rows.push(atom_row(conds.at(i)))?;
    }
    Ok(rows)
}

/// What a conversion says of a checked test: the sequence of each store and exchange, and the column of each load and
/// exchange, by thread and then by place; and what each atom asks of a logged value, in the order of the text.
pub fn conversion(
    alloc: Global,
    checked: &Checked,
    sequences: &Sequences,
) -> Result<Conversion, NoMemory>
    requires sequences { AreOf checked.now.test sequences.now }
    requires name { IsAscii checked.now.test.name }
    requires locations { All IsAscii checked.now.test.locations }
    ensures rows { IfOk result (λ rows. rows_of rows ≡ conversion_rows_of checked.now.test checked.now.kinds) }
    ensures name { IfOk result (λ rows. IsAscii rows.name) }
    ensures stores { IfOk result (λ rows. All (λ row. IsAscii row.loc) rows.stores.items) }
    ensures reads { IfOk result (λ rows. All (λ row. IsAscii row.loc) rows.reads.items) }
    ensures k { IfOk result (λ rows. All (λ row. 0 < row.k) rows.atoms.items) }
{
    let test = checked.test();
    let threads = test.threads() as u32;
    let name = Name::of(alloc, test.name().bytes())?;
    let stores = store_rows(alloc, test, sequences)?;
    let reads = read_rows(alloc, test)?;
    let conds = Conds::of(alloc, checked, sequences)?;
    let atoms = atom_rows(alloc, &conds)?;
    Ok(Conversion {
        name,
        threads,
        stores,
        reads,
        atoms,
    })
}
