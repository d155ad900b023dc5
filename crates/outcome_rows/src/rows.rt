//! The rows of a test, register by register.
ghost use Rattle.std.specs.Prelude.{◌≡◌, ℕ, ◌+◌, ◌≤◌, ◌++◌, List, Bool, [], length, map, None, IfOk, MatchOption, MatchResult, Ok};
ghost use Rattle.std.specs.Fn.{FnReturnsAt};
ghost use Rattle.outcome_rows.specs.Limits.{GiveUp, GivesUp, HasMany, IsManyFront, IsManyFronts, IsStop, KeepsFront, KeepsFronts};
ghost use Rattle.outcome_rows.specs.Listing.{ListsRows};

use perp_base::NoMemory;
use std::alloc::Global;

/// Why not all rows were listed.
#[derive(Clone, Copy, Debug, PartialEq, Eq)]
pub enum Stop {
    /// There are more than the limit.
    TooMany,
    /// An answer was not given.
    GaveUp,
}

/// Of a front part with each value, those that are possible go to the rows.
fn go_on_front<F: Fn(&[u32]) -> Result<Option<bool>, NoMemory>>(
    alloc: Global,
    limit: usize,
    rows: &mut Vec<Vec<u32>>,
    front: &[u32],
    values: &[u32],
    decide: &F,
) -> Result<Option<Stop>, NoMemory>
    requires calls { F.IsAlwaysCallable decide.now }
    ensures { IfOk result (λ stop. MatchOption stop
        (KeepsFront (λ row r. FnReturnsAt F.Fn decide.now row (Ok r)) limit front.now values.now
        (map (λ row. row.items) rows.old.items) (map (λ row. row.items) rows.new.items))
        (IsStop (IsManyFront (λ row r. FnReturnsAt F.Fn decide.now row (Ok r)) limit front.now values.now
        (map (λ row. row.items) rows.old.items))
        (GivesUp (λ row r. FnReturnsAt F.Fn decide.now row (Ok r)) (length front.now + 1)))) }
{
    for value in values {
        let mut row = Vec::from_slice(alloc, front)?;
        row.push(*value)?;
        match decide(&row)? {
            Some(possible) => {
                if possible {
                    if rows.len() >= limit {
                        return Ok(Some(Stop::TooMany));
                    }
                    rows.push(row)?;
                }
            }
            None => return Ok(Some(Stop::GaveUp)),
        }
    }
    Ok(None)
}

/// Of the front parts, each gone on with each value, those that are possible.
fn go_on<F: Fn(&[u32]) -> Result<Option<bool>, NoMemory>>(
    alloc: Global,
    limit: usize,
    rows: &mut Vec<Vec<u32>>,
    fronts: &[Vec<u32>],
    values: &[u32],
    decide: &F,
) -> Result<Option<Stop>, NoMemory>
    requires calls { F.IsAlwaysCallable decide.now }
    requires empty { rows.old.items ≡ [] }
    ensures { IfOk result (λ stop. MatchOption stop
        (KeepsFronts (λ row r. FnReturnsAt F.Fn decide.now row (Ok r)) limit (map (λ row. row.items) fronts.now) values.now
        (map (λ row. row.items) rows.new.items))
        (IsStop (IsManyFronts (λ row r. FnReturnsAt F.Fn decide.now row (Ok r)) limit (map (λ row. row.items) fronts.now)
        values.now)
        (GiveUp (λ row r. FnReturnsAt F.Fn decide.now row (Ok r)) (map (λ row. row.items) fronts.now)))) }
{
    for front in fronts {
        match go_on_front(alloc, limit, rows, front, values, decide)? {
            Some(stop) => return Ok(Some(stop)),
            None => {}
        }
    }
    Ok(None)
}

/// All rows of a test, in order, by the values that can come in each register and what answers of each front part
/// whether some execution ends with it. Where that finds no memory, nothing is listed.
pub fn list_rows<F: Fn(&[u32]) -> Result<Option<bool>, NoMemory> + Drop>(
    alloc: Global,
    limit: usize,
    columns: &[Vec<u32>],
    decide: F,
) -> Result<Result<Vec<Vec<u32>>, Stop>, NoMemory>
    requires calls { F.IsAlwaysCallable decide }
    requires some { 1 ≤ limit }
    ensures { IfOk result (λ found. MatchResult found
        (λ rows. ListsRows (λ row r. FnReturnsAt F.Fn decide row (Ok r)) (map (λ row. row.items) columns.now)
        (map (λ row. row.items) rows.items) × (length (map (λ row. row.items) rows.items) ≤ limit))
        (IsStop (HasMany (λ row r. FnReturnsAt F.Fn decide row (Ok r)) limit (map (λ row. row.items) columns.now))
        ((row : List ℕ) × FnReturnsAt F.Fn decide row (Ok None)))) }
{
    let mut rows = Vec::new(alloc);
    rows.push(Vec::new(alloc))?;
    for column in columns {
        let mut next = Vec::new(alloc);
        match go_on(alloc, limit, &mut next, &rows, column, &decide)? {
            Some(stop) => return Ok(Err(stop)),
            None => {}
        }
        rows = next;
    }
    Ok(Ok(rows))
}
