//! How many states satisfy what the condition asks for.
ghost use Rattle.std.specs.Prelude.{◌≡◌, ◌<◌, length, map};
ghost use Rattle.std.specs.List.{count_by, list_all};
ghost use Rattle.outcome_rows.specs.Conditions.{value_in};
ghost use Rattle.row_decision.specs.Fronts.{register_seen};
ghost use Rattle.x86_subset.specs.Conjunctions.{conjunction_of};
ghost use Rattle.outcome_states.specs.Counting.{holds_in, is_met};

use crate::registers::names;
use row_decision::Register;
use x86_subset::{Atom, Test};

/// The value that a row has in the register that an atom names.
fn value_in(registers: &[Register], row: &[u32], atom: Atom) -> Option<u32>
    ensures { result ≡ value_in (map register_seen registers.now) row.now atom.thread atom.reg }
{
    for (k, register) in registers.iter().enumerate() {
        if k >= row.len() {
            return None;
        }
        if names(atom, *register) {
            return Some(row[k]);
        }
    }
    None
}

/// Whether a row has the value of an atom.
fn holds_in(registers: &[Register], row: &[u32], atom: Atom) -> bool
    ensures { result ≡ holds_in (map register_seen registers.now) row.now atom }
{
    match value_in(registers, row, atom) {
        None => false,
        Some(value) => value == atom.value,
    }
}

/// Whether a row has the values of all atoms of a conjunction.
fn is_met_by(test: &Test, conjunction: usize, registers: &[Register], row: &[u32]) -> bool
    requires { conjunction < length test.now.ends }
    ensures { result ≡ list_all (holds_in (map register_seen registers.now) row.now)
        (conjunction_of test.now.ends test.now.atoms conjunction) }
{
    let _threads = test.threads();
    let span = test.conjunction(conjunction);
    let atoms = &test.atoms()[span.from as usize..span.to as usize];
    atoms.iter().all(|atom| holds_in(registers, row, *atom))
}

/// Whether a row satisfies some conjunction.
fn is_met(test: &Test, registers: &[Register], row: &[u32]) -> bool
    ensures { result ≡ is_met test.now (map register_seen registers.now) row.now }
{
    for conjunction in 0..test.conjunctions() {
        if is_met_by(test, conjunction, registers, row) {
            return true;
        }
    }
    false
}

/// How many of the rows satisfy some conjunction.
pub(crate) fn count_met(test: &Test, registers: &[Register], rows: &[Vec<u32>]) -> usize
    ensures { result ≡ count_by (is_met test.now (map register_seen registers.now)) (map (λ row. row.items) rows.now) }
{
    let mut met = 0;
    for row in rows {
        if is_met(test, registers, row) {
            met += 1;
        }
    }
    met
}
