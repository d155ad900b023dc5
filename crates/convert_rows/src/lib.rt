//! What a conversion says of a checked test, in rows.
//!
//! `conversion` gives the sequence of each store, the column of each reading action and what each atom asks of a logged
//! value (its clause `rows`, by `conversion_rows_of` in specs/Rows), so that `convert_text` can write them (its other
//! clauses).
#![tactic(auto)]

mod rows;

pub use rows::conversion;
