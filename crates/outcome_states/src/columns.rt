//! The values that can come in each register.
ghost use Rattle.std.specs.Prelude.{◌≡◌, IfOk, OnOk, map, nat_le};
ghost use Rattle.std.specs.List.{position};
ghost use Rattle.seq_conv.specs.Numbers.{AreOf};
ghost use Rattle.outcome_rows.specs.Listing.{columns_of_values, put_value, risen, values_stored};
ghost use Rattle.outcome_rows.specs.Rows.{HoldReads, HoldsRead};
ghost use Rattle.row_decision.specs.Fronts.{register_seen};

use perp_base::NoMemory;
use row_decision::{Register, read_of, value_of};
use seq_conv::Sequences;
use std::alloc::Global;
use verdict::{Node, location};
use x86_subset::Test;

/// The place of the first value that is no less than this one.
fn place_for(values: &[u32], value: u32) -> Option<usize>
    ensures { result ≡ position (λ other. nat_le value other) values.now }
{
    values.iter().position(|other| value <= *other)
}

/// Puts a value into values that rise, where it does not stand there.
fn put_value(values: &mut Vec<u32>, value: u32) -> Result<(), NoMemory>
    ensures { OnOk result (values.new.items ≡ put_value value values.old.items) }
{
    match place_for(values, value) {
        None => values.push(value)?,
        Some(place) => {
            if values[place] != value {
                values.insert(place, value)?;
            }
        }
    }
    Ok(())
}

/// 0 and the values of the stores of the location that a register's read is of, rising, each once.
fn column_of(
    alloc: Global,
    test: &Test,
    sequences: &Sequences,
    register: Register,
) -> Result<Vec<u32>, NoMemory>
    requires same { AreOf test.now sequences.now }
    requires read { HoldsRead test.now (register_seen register) }
    ensures { IfOk result (λ column. column.items ≡ risen (values_stored test.now (register_seen register))) }
{
    let _threads = test.threads();
    let sites = sequences.sites(location(test, read_of(test, register)));
    let mut column = Vec::new(alloc);
    for k in (0..sites.len()).rev() {
        let store = Node {
            thread: sites[k].thread,
            place: sites[k].place,
        };
        put_value(&mut column, value_of(test, store))?;
    }
    put_value(&mut column, 0)?;
    Ok(column)
}

/// The values that can come in each of the registers.
pub(crate) fn columns(
    alloc: Global,
    test: &Test,
    sequences: &Sequences,
    registers: &[Register],
) -> Result<Vec<Vec<u32>>, NoMemory>
    requires same { AreOf test.now sequences.now }
    requires reads { HoldReads test.now (map register_seen registers.now) }
    ensures { IfOk result (λ columns. map (λ column. column.items) columns.items
        ≡ columns_of_values test.now (map register_seen registers.now)) }
{
    let mut columns = Vec::new(alloc);
    for register in registers {
        let column = column_of(alloc, test, sequences, *register)?;
        columns.push(column)?;
    }
    Ok(columns)
}
