//! The texts of the program: the report of a run, the conversion of a test, and the line of each status.
//!
//! The texts are definitions over bytes, and each call gives exactly the one that its rows define:
//!
//! - `report` gives `report_of` of its rows, and `count_report` `count_report_of` (`specs/Report`).
//! - `convert_text` gives `conversion_of` of its rows (`specs/Conversion`).
//! - `refusal_text` gives `line_of` of the status (`specs/Status`), and takes no memory for it.
//! - `Status::number` is `status_number`, one of the numbers 0 to 7.
//!
//! A definition names its parts, one for each kind of line, and each part has one function that writes it.
#![tactic(auto)]

mod conversion;
mod line;
mod report_lines;
mod rows;
mod status;
mod words;

pub use conversion::{AtomForm, AtomRow, Conversion, ReadRow, StoreRow, convert_text};
pub use line::{Line, refusal_text};
pub use report_lines::{count_report, report};
pub use rows::{CountReport, Report};
pub use status::{Over, Status};
pub use words::push_bytes;
