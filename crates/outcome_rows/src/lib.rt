//! All outcomes of a litmus test, as rows: the final values of registers in an execution of the test as it is
//! written.
//!
//! `list_rows` lists them register by register: each front part of a row that is possible is gone on with each value
//! that can come in the next register. No execution is enumerated. The caller hands in these values, and a function
//! that answers of a front part whether it is possible, or gives no answer. Of each test and registers that have
//! these values, and of whose front parts the answers are right, the rows come out, each once, and rising as numbers;
//! or there are more than the limit; or an answer was not given (its clause, by `specs/Listing` and `specs/Limits`).
//!
//! `laws` has one public function for each law of `specs/Laws`, for registers that hold a read at the end. Rows are
//! told by the sources of the reads (`rows_are_sources`), so by edges and trees of cases (`rows_are_decided`), and it
//! can be told of any values whether they are a row (`rows_are_told`). Some execution there is (`some_execution`);
//! the front part of a row is a row (`rows_begin`), and each goes on with a value of its location (`rows_go_on`,
//! `rows_take_values`). So going from register to register lists them (`rows_are_listed`, `rising_are_once`,
//! `all_rows_are_one`), and one may stop where a level is past a limit (`fronts_are_fewer`). A conjunction of the
//! condition is possible exactly where some row has its values (`outcomes_are_rows`).
#![tactic(auto)]

mod laws;
mod rows;

pub use laws::{
    all_rows_are_one, fronts_are_fewer, outcomes_are_rows, rising_are_once, rows_are_decided,
    rows_are_listed, rows_are_sources, rows_are_told, rows_begin, rows_go_on, rows_take_values,
    some_execution,
};
pub use rows::{Stop, list_rows};
