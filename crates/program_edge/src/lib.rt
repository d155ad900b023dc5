//! What the two programs have in common at their edges: the words, how a source and a sink are seen, the refusals of a
//! litmus text, the running of a test, and the writing of an answer.
//!
//! `read_test` reads a text of the litmus format, and refuses it with the status that is due for its form and its shape
//! (its clause `refuses`); `check_test` does so for its atoms. `deliver` writes a text and says whether all of it came
//! onto the sink, and leaves the sink alone at a refusal; `put_line` writes a line of which any part may be lost. How a
//! call ends stands in `specs/Ending`, for the commands and the statuses of any program. `run_test` runs the threads of
//! a test on a field: some run of x86-TSO fits what they did there, and each that fits has the logs (its clause `ran`,
//! by `HasRunOn`); where memory ran out they did nothing (`still`). `replay_test` makes the run of a schedule with no
//! field (`HasReplayed`). A field on which nothing is run is closed by `close_unused`. `is_negated` tells the quantifier
//! of a condition. A `Request` is what the words and the source ask of a program, with the bytes that were read by
//! `input_of`; what is said of its answer in `specs/Request` asks nothing of a source or a sink. An `Answered` is a
//! text, or why there is none, with the closed field. `words_of` gives the words of a program, or says why it gets none.
//! `ending` is the number with which a program ends: that of its call's status, or that of why the call was not made.
#![tactic(auto)]

mod answered;
mod closing;
mod numbered;
mod quantified;
mod reading;
mod request;
mod running;
mod unmade;
mod words;
mod writing;

pub use answered::{Answered, Outcome};
pub use closing::close_unused;
pub use numbered::{Numbered, ending};
pub use quantified::is_negated;
pub use reading::{check_test, read_test};
pub use request::{Request, input_of};
pub use running::{Ran, replay_test, run_test};
pub use unmade::Unmade;
pub use words::words_of;
pub use writing::{deliver, put_line};
