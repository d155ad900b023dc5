//! The conversion of a test into sequences and demands on logged values.
ghost use Rattle.std.specs.Prelude.{◌≡◌, ◌<◌, ◌++◌, All, OnOk, IfOk, string_bytes};
ghost use Rattle.std.specs.Str.{IsAscii};
ghost use Rattle.std.specs.List.{flat_map};
ghost use Rattle.report_text.specs.Conversion.{rows_of, store_line, read_line, form_word, least_text, residue_text, demand_text, atom_line, atom_lines, conversion_of};

use crate::words::{push_bytes, push_number, push_test};
use perp_base::{Name, NoMemory};
use std::alloc::Global;
use std::fmt::Write;

/// A store or exchange of a body and the sequence `k*n+a` of its values.
#[derive(Drop)]
pub struct StoreRow {
    /// The thread, from 0.
    pub thread: u32,
    /// The place of the action in its body, from 0.
    pub place: u32,
    /// The location that it writes, all ASCII.
    pub loc: Name,
    /// The number of the location's stores and exchanges.
    pub k: u64,
    /// The position of this one among them, from 1.
    pub a: u64,
}

/// A load or exchange of a body and the column of its values in its thread's log.
#[derive(Drop)]
pub struct ReadRow {
    /// The thread, from 0.
    pub thread: u32,
    /// The place of the action in its body, from 0.
    pub place: u32,
    /// The location that it reads, all ASCII.
    pub loc: Name,
    /// Its position among the reading actions of its body, from 0.
    pub column: u32,
}

/// What an atom demands of the logged value, m being the writer's iteration.
#[derive(Clone, Copy, Debug, PartialEq, Eq)]
pub enum AtomForm {
    /// Reads-from: a value of the named store, from iteration m or a later one.
    Rf,
    /// From-read: a value older than all that the writer stores in iteration m.
    Fr,
    /// Reads-from: the value of the named store from iteration m itself.
    Exact,
}

/// An atom and the sequence `k*m+a` to which it holds the logged value.
#[derive(Clone, Copy, Debug, PartialEq, Eq)]
pub struct AtomRow {
    /// What it demands.
    pub form: AtomForm,
    /// The thread that reads.
    pub reader: u32,
    /// The column of the value in the reader's log.
    pub column: u32,
    /// The thread that writes.
    pub writer: u32,
    /// The number of the location's stores and exchanges, at least 1.
    pub k: u64,
    /// The position of the named store among them, from 1. A from-read atom has no use of it.
    pub a: u64,
}

/// What a conversion says, the rows in the order of their lines.
#[derive(Drop)]
pub struct Conversion {
    /// The test's name, all ASCII.
    pub name: Name,
    /// The number of the test's threads.
    pub threads: u32,
    /// The stores and exchanges, by thread and then by place.
    pub stores: Vec<StoreRow>,
    /// The loads and exchanges, by thread and then by place.
    pub reads: Vec<ReadRow>,
    /// The atoms in the order of the text.
    pub atoms: Vec<AtomRow>,
}

#[tactic(auto, unfolding(crate::specs::Conversion::store_line))]
fn push_store(out: &mut String, row: &StoreRow) -> Result<(), NoMemory>
    requires { IsAscii row.now.loc }
    ensures { OnOk result (string_bytes out.new ≡ string_bytes out.old ++ store_line row.now) }
{
    let (thread, place, k, a) = (row.thread, row.place, row.k, row.a);
    write!(out, "Store P{thread} {place} ")?;
    push_bytes(out, row.loc.bytes())?;
    write!(out, " value {k}*n+{a}\n")?;
    Ok(())
}

#[tactic(auto, unfolding(crate::specs::Conversion::read_line))]
fn push_read(out: &mut String, row: &ReadRow) -> Result<(), NoMemory>
    requires { IsAscii row.now.loc }
    ensures { OnOk result (string_bytes out.new ≡ string_bytes out.old ++ read_line row.now) }
{
    let (thread, place, column) = (row.thread, row.place, row.column);
    write!(out, "Read P{thread} {place} ")?;
    push_bytes(out, row.loc.bytes())?;
    write!(out, " column {column}\n")?;
    Ok(())
}

fn word_of(form: AtomForm) -> &'static str
    ensures { result.now ≡ form_word form }
{
    match form {
        AtomForm::Rf => "rf",
        AtomForm::Fr => "fr",
        AtomForm::Exact => "exact",
    }
}

#[tactic(auto, unfolding(crate::specs::Conversion::least_text))]
fn push_least(out: &mut String, k: u64, a: u64) -> Result<(), NoMemory>
    ensures { OnOk result (string_bytes out.new ≡ string_bytes out.old ++ least_text k a) }
{
    write!(out, "value >= {k}*m+{a}")?;
    Ok(())
}

#[tactic(auto, unfolding(crate::specs::Conversion::residue_text))]
fn push_residue(out: &mut String, k: u64, a: u64) -> Result<(), NoMemory>
    requires { 0 < k }
    ensures { OnOk result (string_bytes out.new ≡ string_bytes out.old ++ residue_text k a) }
{
    let residue = a % k;
    write!(out, "value mod {k} = {residue}")?;
    Ok(())
}

#[tactic(auto, unfolding(crate::specs::Conversion::demand_text))]
fn push_demand(out: &mut String, form: AtomForm, k: u64, a: u64) -> Result<(), NoMemory>
    requires { 0 < k }
    ensures { OnOk result (string_bytes out.new ≡ string_bytes out.old ++ demand_text form k a) }
{
    match form {
        AtomForm::Rf => {
            push_least(out, k, a)?;
            out.push_str(", ")?;
            push_residue(out, k, a)?;
        }
        AtomForm::Fr => write!(out, "value < {k}*m+1")?,
        AtomForm::Exact => write!(out, "value = {k}*m+{a}")?,
    }
    Ok(())
}

#[tactic(auto, unfolding(crate::specs::Conversion::atom_line))]
fn push_atom(out: &mut String, number: usize, row: &AtomRow) -> Result<(), NoMemory>
    requires { 0 < row.now.k }
    ensures { OnOk result (string_bytes out.new ≡ string_bytes out.old ++ atom_line number row.now) }
{
    let word = word_of(row.form);
    let (reader, column, writer) = (row.reader, row.column, row.writer);
    write!(out, "Atom {number} {word} P{reader} column ")?;
    write!(out, "{column} from P{writer}: ")?;
    push_demand(out, row.form, row.k, row.a)?;
    out.push_str("\n")?;
    Ok(())
}

fn push_stores(out: &mut String, rows: &[StoreRow]) -> Result<(), NoMemory>
    requires { All (λ row. IsAscii row.loc) rows.now }
    ensures { OnOk result (string_bytes out.new ≡ string_bytes out.old ++ flat_map store_line rows.now) }
{
    for row in rows {
        push_store(out, row)?;
    }
    Ok(())
}

fn push_reads(out: &mut String, rows: &[ReadRow]) -> Result<(), NoMemory>
    requires { All (λ row. IsAscii row.loc) rows.now }
    ensures { OnOk result (string_bytes out.new ≡ string_bytes out.old ++ flat_map read_line rows.now) }
{
    for row in rows {
        push_read(out, row)?;
    }
    Ok(())
}

fn push_atoms(out: &mut String, rows: &[AtomRow]) -> Result<(), NoMemory>
    requires { All (λ row. 0 < row.k) rows.now }
    ensures { OnOk result (string_bytes out.new ≡ string_bytes out.old ++ atom_lines 1 rows.now) }
{
    for (i, row) in rows.iter().enumerate() {
        push_atom(out, i + 1, row)?;
    }
    Ok(())
}

/// The text of a conversion. Its rows and its name are ASCII, and no atom has a sequence of step 0.
#[tactic(auto, unfolding(crate::specs::Conversion::conversion_of))]
pub fn convert_text(alloc: Global, rows: &Conversion) -> Result<String, NoMemory>
    requires name { IsAscii rows.now.name }
    requires stores { All (λ row. IsAscii row.loc) rows.now.stores.items }
    requires reads { All (λ row. IsAscii row.loc) rows.now.reads.items }
    requires sequences { All (λ row. 0 < row.k) rows.now.atoms.items }
    ensures { IfOk result (λ text. string_bytes text ≡ conversion_of (rows_of rows.now)) }
{
    let mut out = String::new(alloc);
    push_test(&mut out, &rows.name)?;
    push_number(&mut out, "Threads", u64::from(rows.threads))?;
    push_stores(&mut out, &rows.stores)?;
    push_reads(&mut out, &rows.reads)?;
    push_atoms(&mut out, &rows.atoms)?;
    Ok(out)
}
