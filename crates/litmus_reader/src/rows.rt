//! The rows of the code.
ghost use Rattle.std.specs.Prelude.{ℕ, List, [], ◌≡◌, ◌==◌, ◌&&◌, ◌≤◌, ◌<◌, ◌+◌, length, map, position, bytes_eq, IfOk, OnOk, OnErr, Ok};
ghost use Rattle.x86_subset.specs.Form.{lexeme_of, lexemes};
ghost use Rattle.x86_subset.specs.Cell.{location_number, having};
ghost use Rattle.x86_subset.specs.Raw.{bytes_at, form_of};
ghost use Rattle.litmus_reader.specs.Rows.{act, column_code, cell_at, cells_at, row_of, rows_at, ends_code, is_column, are_columns, no_code, columns_in, columns_at};
ghost use Rattle.std.specs.List.{slice_split};
ghost use Rattle.litmus_reader.specs.Sheet.{names, sheet_of, Leaves, is_bar};
ghost use Rattle.litmus_reader.specs.Outcome.{Answers};
ghost use Rattle.perp_base.specs.declared.limits.TheConstants.{MOST_BYTES};

use crate::initial::line_at;
use crate::kind::{LitmusError, LitmusKind, bad};
use std::alloc::{AllocError, Global};
use x86_subset::{Body, Instr, Raw, Span, Token, TokenKind, parse_instr, text_at};

/// The threads, as far as they are read.
#[derive(Drop)]
pub struct Sheet {
    pub locations: Vec<Span>,
    pub bodies: Vec<Body>,
}

/// Where a location of these bytes stands among the others.
fn place_in(bytes: &[u8], locations: &[Span], x: &[u8]) -> Option<usize>
    ensures { result ≡ position (λ y. bytes_eq (bytes_at bytes.now y) x.now) locations.now }
{
    locations.iter().position(|y| text_at(bytes, *y) == x)
}

impl Sheet {
    /// The number of a location. A new one comes last.
    fn number(&mut self, bytes: &[u8], x: Span) -> Result<u32, AllocError>
        requires { length self.old.locations.items < MOST_BYTES }
        ensures number { IfOk result (λ n. n ≡ location_number (names bytes.now self.old.locations.items)
            (bytes_at bytes.now x)) }
        ensures locations { OnOk result (names bytes.now self.new.locations.items
            ≡ having (names bytes.now self.old.locations.items) (bytes_at bytes.now x)) }
        ensures bodies { self.new.bodies ≡ self.old.bodies }
        ensures room { length self.new.locations.items ≤ length self.old.locations.items + 1 }
    {
        match place_in(bytes, &self.locations, text_at(bytes, x)) {
            Some(i) => Ok(i as u32),
            None => {
                let n = self.locations.len();
                self.locations.push(x)?;
                Ok(n as u32)
            }
        }
    }

    /// What a form does in the column `i`.
    fn act(&mut self, bytes: &[u8], i: usize, raw: Raw, line: u32) -> Result<(), LitmusError>
        requires column { i < length self.old.bodies.items }
        requires room { length self.old.locations.items < MOST_BYTES }
        ensures is { Leaves result (sheet_of bytes.now self.new) (act i (sheet_of bytes.now self.old)
            (Ok (form_of bytes.now raw)) line) }
        ensures columns { length self.new.bodies.items ≡ length self.old.bodies.items }
        ensures room { length self.new.locations.items ≤ length self.old.locations.items + 1 }
    {
        match raw {
            Raw::Blank => Ok(()),
            Raw::Fence => {
                self.bodies[i].add(Instr::Fence)?;
                Ok(())
            }
            Raw::StoreNumber { loc, value } => {
                let loc = self.number(bytes, loc)?;
                self.bodies[i].add(Instr::Store {
                    loc,
                    written: value,
                })?;
                Ok(())
            }
            Raw::StoreReg { loc, reg } => match self.bodies[i].held(reg) {
                None => Err(bad(LitmusKind::NotConstant, line)),
                Some(written) => {
                    let loc = self.number(bytes, loc)?;
                    self.bodies[i].add(Instr::Store { loc, written })?;
                    Ok(())
                }
            },
            Raw::Load { reg, loc } => {
                let loc = self.number(bytes, loc)?;
                self.bodies[i].add(Instr::Load { reg, loc })?;
                Ok(())
            }
            Raw::Constant { reg, value } => {
                self.bodies[i].constant(reg, value);
                Ok(())
            }
            Raw::Exchange { loc, reg } => match self.bodies[i].held(reg) {
                None => Err(bad(LitmusKind::NotConstant, line)),
                Some(written) => {
                    let loc = self.number(bytes, loc)?;
                    self.bodies[i].add(Instr::Exchange { loc, written, reg })?;
                    Ok(())
                }
            },
        }
    }

    /// Reads a cell of the column `i`.
    #[tactic(auto, unfolding(crate::specs::Rows::cell_at))]
    fn cell(&mut self, bytes: &[u8], i: usize, cell: &[Token]) -> Result<(), LitmusError>
        requires column { i < length self.old.bodies.items }
        requires room { length self.old.locations.items < MOST_BYTES }
        ensures is { Leaves result (sheet_of bytes.now self.new) (cell_at i (sheet_of bytes.now self.old)
            (lexemes bytes.now cell.now)) }
        ensures columns { length self.new.bodies.items ≡ length self.old.bodies.items }
        ensures room { length self.new.locations.items ≤ length self.old.locations.items + 1 }
    {
        let line = line_at(0, cell);
        match parse_instr(bytes, cell) {
            Err(_) => Err(bad(LitmusKind::Instruction, line)),
            Ok(raw) => self.act(bytes, i, raw, line),
        }
    }

    /// Reads the cells of a row.
    fn cells(&mut self, bytes: &[u8], cells: &[&[Token]]) -> Result<(), LitmusError>
        requires columns { length cells.now ≤ length self.old.bodies.items }
        requires room { length self.old.locations.items + length cells.now ≤ MOST_BYTES }
        ensures is { Leaves result (sheet_of bytes.now self.new) (cells_at 0 (sheet_of bytes.now self.old)
            (map (λ c. lexemes bytes.now c.now) cells.now)) }
        ensures columns { length self.new.bodies.items ≡ length self.old.bodies.items }
        ensures room { length self.new.locations.items ≤ length self.old.locations.items + length cells.now }
    {
        for (i, c) in cells.iter().enumerate() {
            self.cell(bytes, i, c)?;
        }
        Ok(())
    }

    /// Reads a row whose `;` stands in this line.
    fn row(
        &mut self,
        alloc: Global,
        bytes: &[u8],
        line: u32,
        row: &[Token],
    ) -> Result<(), LitmusError>
        requires room { length self.old.locations.items + length row.now < MOST_BYTES }
        ensures is { Leaves result (sheet_of bytes.now self.new) (row_of line (sheet_of bytes.now self.old)
            (lexemes bytes.now row.now)) }
        ensures columns { length self.new.bodies.items ≡ length self.old.bodies.items }
        ensures room { length self.new.locations.items ≤ length self.old.locations.items + length row.now + 1 }
    {
        let cells = cells_of(alloc, row)?;
        if cells.len() == self.bodies.len() {
            self.cells(bytes, &cells)
        } else {
            Err(bad(LitmusKind::Column, line))
        }
    }

    /// Reads the rows up to the end of the code, and answers the tokens from there on.
    pub fn rows<'a>(
        &mut self,
        alloc: Global,
        bytes: &[u8],
        tokens: &'a [Token],
        last: u32,
    ) -> Result<&'a [Token], LitmusError>
        requires few { length tokens.now ≤ 65535 }
        requires new { self.old.locations.items ≡ [] }
        ensures is { Answers (λ ts. (sheet_of bytes.now self.new, lexemes bytes.now ts.now)) result
            (rows_at last (sheet_of bytes.now self.old) [] (lexemes bytes.now tokens.now)) }
        ensures few { IfOk result (λ ts. length ts.now ≤ length tokens.now) }
        ensures columns { length self.new.bodies.items ≡ length self.old.bodies.items }
    {
        let mut start = 0;
        for (i, t) in tokens.iter().enumerate() {
            if ends_here(bytes, start, i, t) {
                return Ok(&tokens[i..]);
            }
            if t.is(TokenKind::Semi) {
                self.row(alloc, bytes, t.line, &tokens[start..i])?;
                start = i + 1;
            }
        }
        if start == tokens.len() {
            Err(bad(LitmusKind::Condition, last))
        } else {
            Err(bad(LitmusKind::Column, last))
        }
    }
}

/// The parts of a row between bars.
fn cells_of<'a>(alloc: Global, row: &'a [Token]) -> Result<Vec<&'a [Token]>, AllocError>
    ensures { IfOk result (λ cs. map (λ c. c.now) cs.items ≡ slice_split is_bar row.now) }
{
    row.split(|t| t.is(TokenKind::Bar)).collect(alloc)
}

fn ends_code(bytes: &[u8], t: &Token) -> bool
    ensures { result ≡ ends_code (lexeme_of bytes.now t.now) }
{
    t.is(TokenKind::Tilde)
        || t.is_word(bytes, b"exists")
        || t.is_word(bytes, b"forall")
        || t.is_word(bytes, b"locations")
}

/// A row begins at this token, and the token ends the code.
fn ends_here(bytes: &[u8], start: usize, i: usize, t: &Token) -> bool
    ensures { result ≡ ((start == i) && ends_code (lexeme_of bytes.now t.now)) }
{
    start == i && ends_code(bytes, t)
}

/// The cell names the column.
fn is_column(alloc: Global, bytes: &[u8], i: usize, cell: &[Token]) -> Result<bool, AllocError>
    ensures { IfOk result (λ b. b ≡ is_column i (lexemes bytes.now cell.now)) }
{
    match cell {
        [t] => {
            let name = format!(in alloc; "P{i}")?;
            Ok(t.is_word(bytes, name.as_bytes()))
        }
        _ => Ok(false),
    }
}

/// The cells name the columns from the first on.
fn are_columns(alloc: Global, bytes: &[u8], cells: &[&[Token]]) -> Result<bool, AllocError>
    ensures { IfOk result (λ b. b ≡ are_columns 0 (map (λ c. lexemes bytes.now c.now) cells.now)) }
{
    for (i, c) in cells.iter().enumerate() {
        if !is_column(alloc, bytes, i, c)? {
            return Ok(false);
        }
    }
    Ok(true)
}

/// So many threads without code.
fn no_code(alloc: Global, threads: usize) -> Result<Sheet, AllocError>
    ensures sheet { IfOk result (λ s. (text : List ℕ) → sheet_of text s ≡ no_code threads) }
    ensures new { IfOk result (λ s. s.locations.items ≡ []) }
{
    let mut bodies = Vec::new(alloc);
    for _ in 0..threads {
        bodies.push(Body::new(alloc))?;
    }
    Ok(Sheet {
        locations: Vec::new(alloc),
        bodies,
    })
}

fn first_row<'a>(
    alloc: Global,
    bytes: &[u8],
    row: &[Token],
    t: &Token,
    rest: &'a [Token],
) -> Result<(Sheet, &'a [Token]), LitmusError>
    ensures is { Answers (λ x. (sheet_of bytes.now x.0, lexemes bytes.now x.1.now)) result
        (columns_in (lexemes bytes.now row.now) (lexeme_of bytes.now t.now) (lexemes bytes.now rest.now)) }
    ensures new { IfOk result (λ x. x.0.locations.items ≡ []) }
    ensures rest { IfOk result (λ x. x.1.now ≡ rest.now) }
{
    let cells = cells_of(alloc, row)?;
    if are_columns(alloc, bytes, &cells)? {
        Ok((no_code(alloc, cells.len())?, rest))
    } else {
        Err(bad(LitmusKind::Column, t.line))
    }
}

/// The threads that the first row names, without code, and the tokens after it.
pub fn columns<'a>(
    alloc: Global,
    bytes: &[u8],
    tokens: &'a [Token],
    last: u32,
) -> Result<(Sheet, &'a [Token]), LitmusError>
    ensures is { Answers (λ x. (sheet_of bytes.now x.0, lexemes bytes.now x.1.now)) result
        (columns_at last [] (lexemes bytes.now tokens.now)) }
    ensures new { IfOk result (λ x. x.0.locations.items ≡ []) }
    ensures rest { IfOk result (λ x. length x.1.now ≤ length tokens.now) }
{
    for (i, t) in tokens.iter().enumerate() {
        if t.is(TokenKind::Semi) {
            return first_row(alloc, bytes, &tokens[..i], t, &tokens[i + 1..]);
        }
    }
    Err(bad(LitmusKind::Column, last))
}
