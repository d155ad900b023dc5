//! Litmus tests of the MOV, MFENCE and XCHG of x86, as data, and the tokens and cells of their texts.
//!
//! A `Test` is seen as a `LitmusTest` (`specs/Test`). `Test::new` says which parts make one: its clause is the test, or
//! the first limit passed. What holds of each test is `IsTest` (`specs/Shape`), and the clause `test` of
//! `Test::threads` tells it. Each method's clause is the word of `specs` that it computes, such as `body_of` or
//! `last_writer_of`.
//!
//! `tokens` gives the tokens of a text, and `parse_instr` what a cell says. Both are stated as relations (`Lexes`,
//! `Parses`), and the clauses of `one_cut` and `one_parse` say that each text is cut, and each cell read, in exactly
//! one way. `conjunctions_have_the_atoms` says that the conjunctions of a condition are its atoms in order, each once.
#![tactic(auto)]

mod body;
mod cell;
mod form;
mod instr;
mod laws;
mod lex;
mod test;
mod token;

pub use body::{Body, Held};
pub use cell::{InstrError, Raw, parse_instr};
pub use form::{Found, Keyword, Slot, Span, fit, text_at, whole};
pub use instr::{Instr, Reg};
pub use laws::{conjunctions_have_the_atoms, one_cut, one_parse};
pub use lex::{close_end, is_blank, is_next, line_behind, next_line, tokens};
pub use test::{Atom, Quantifier, Shape, Test};
pub use token::{Token, TokenKind};
