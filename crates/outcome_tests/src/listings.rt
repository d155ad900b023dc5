//! Rows of well-known litmus tests, from answers that `bench/axioms` gives.
use outcome_rows::{Stop, list_rows};
use std::alloc::Global;
use std::test::Fail;

/// A test of two registers: the values that can come in each, and its rows.
#[derive(Clone, Copy)]
struct Listing {
    values: &'static [u32],
    rows: &'static [[u32; 2]],
}

fn test_of(values: &'static [u32], rows: &'static [[u32; 2]]) -> Listing {
    Listing { values, rows }
}

/// Whether a row begins with a front part.
fn begins(row: &[u32; 2], front: &[u32]) -> bool {
    row.iter().zip(front.iter()).all(|(a, b)| a == b)
}

/// Whether these are the rows.
fn are_rows(found: &[Vec<u32>], rows: &[[u32; 2]]) -> bool {
    found.len() == rows.len()
        && found
            .iter()
            .zip(rows.iter())
            .all(|(a, b)| a.as_slice() == b.as_slice())
}

/// The columns of a test.
fn columns(alloc: Global, listing: &Listing) -> Result<Vec<Vec<u32>>, Fail> {
    let mut columns = Vec::new(alloc);
    for _ in 0..2 {
        columns.push(Vec::from_slice(alloc, listing.values)?)?;
    }
    Ok(columns)
}

/// SB, SB with fences, MP, and coherence of reads with two writers.
#[test]
fn rows_and_limits(rt: HostRuntime) -> Result<(), Fail> {
    let alloc = rt.alloc();
    let tests = [
        test_of(&[0, 1], &[[0, 0], [0, 1], [1, 0], [1, 1]]),
        test_of(&[0, 1], &[[0, 1], [1, 0], [1, 1]]),
        test_of(&[0, 1], &[[0, 0], [0, 1], [1, 1]]),
        test_of(
            &[0, 1, 2],
            &[[0, 0], [0, 1], [0, 2], [1, 1], [1, 2], [2, 1], [2, 2]],
        ),
    ];
    for test in &tests {
        let columns = columns(alloc, test)?;
        let rows = test.rows;
        let possible = |front: &[u32]| Ok(Some(rows.iter().any(|row| begins(row, front))));
        let found = list_rows(alloc, 7, &columns, possible)?;
        let all = matches!(&found, Ok(found) if are_rows(found, rows));
        assert!(rt; all);
        let found = list_rows(alloc, 2, &columns, possible)?;
        let many = matches!(&found, Err(Stop::TooMany));
        assert!(rt; many);
        let found = list_rows(alloc, 7, &columns, |_: &[u32]| Ok(None))?;
        let gave_up = matches!(&found, Err(Stop::GaveUp));
        assert!(rt; gave_up);
    }
    Ok(())
}
