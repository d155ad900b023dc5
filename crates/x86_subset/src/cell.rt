//! The cells of the code.
ghost use Rattle.std.specs.Prelude.{◌≡◌, ◌^◌, nat_lt, if◌then◌else◌, Ok, Err, option_map};
ghost use Rattle.x86_subset.specs.declared.cell.InstrError.TheVariants.{Number};
ghost use Rattle.x86_subset.specs.Form.{lexemes, meaning, Gives};
ghost use Rattle.x86_subset.specs.Cell.{begins_instr, exchange_rows, parse};
ghost use Rattle.x86_subset.specs.Raw.{form_of};

use crate::form::{Keyword, Slot, Span, whole};
use crate::instr::Reg;
use crate::token::{Token, TokenKind};
use thiserror::Error;

/// What a cell says, with locations by their bytes in the text. `value` is the number after `$` or without it.
#[derive(Clone, Copy, Debug, PartialEq, Eq)]
pub enum Raw {
    /// No token.
    Blank,
    /// `MFENCE`.
    Fence,
    /// `MOV [loc], value`.
    StoreNumber { loc: Span, value: u32 },
    /// `MOV [loc], reg`.
    StoreReg { loc: Span, reg: Reg },
    /// `MOV reg, [loc]`.
    Load { reg: Reg, loc: Span },
    /// `MOV reg, value`.
    Constant { reg: Reg, value: u32 },
    /// `XCHG [loc], reg`, or the other way round, which does the same.
    Exchange { loc: Span, reg: Reg },
}

/// Why a cell says nothing.
#[derive(Clone, Copy, Debug, Error, PartialEq, Eq)]
pub enum InstrError {
    /// The first token is not MOV, MFENCE or XCHG.
    #[error("not MOV, MFENCE or XCHG")]
    Unknown,
    /// The tokens after it have none of the forms.
    #[error("operands of none of the forms")]
    Operand,
    /// They have one, and its number is above 4,294,967,295.
    #[error("a number above 4294967295")]
    Number,
}

const STORE_NUMBER: [Slot; 7] = [
    Slot::Word(Keyword::Mov),
    Slot::Mark(TokenKind::LeftSquare),
    Slot::Location,
    Slot::Mark(TokenKind::RightSquare),
    Slot::Mark(TokenKind::Comma),
    Slot::Maybe(TokenKind::Dollar),
    Slot::Any,
];

const STORE_REG: [Slot; 6] = [
    Slot::Word(Keyword::Mov),
    Slot::Mark(TokenKind::LeftSquare),
    Slot::Location,
    Slot::Mark(TokenKind::RightSquare),
    Slot::Mark(TokenKind::Comma),
    Slot::Register,
];

const LOAD: [Slot; 6] = [
    Slot::Word(Keyword::Mov),
    Slot::Register,
    Slot::Mark(TokenKind::Comma),
    Slot::Mark(TokenKind::LeftSquare),
    Slot::Location,
    Slot::Mark(TokenKind::RightSquare),
];

const CONSTANT: [Slot; 5] = [
    Slot::Word(Keyword::Mov),
    Slot::Register,
    Slot::Mark(TokenKind::Comma),
    Slot::Maybe(TokenKind::Dollar),
    Slot::Any,
];

const FENCE: [Slot; 1] = [Slot::Word(Keyword::Mfence)];

const EXCHANGE: [Slot; 6] = [
    Slot::Word(Keyword::Xchg),
    Slot::Mark(TokenKind::LeftSquare),
    Slot::Location,
    Slot::Mark(TokenKind::RightSquare),
    Slot::Mark(TokenKind::Comma),
    Slot::Register,
];

const EXCHANGE_BACK: [Slot; 6] = [
    Slot::Word(Keyword::Xchg),
    Slot::Register,
    Slot::Mark(TokenKind::Comma),
    Slot::Mark(TokenKind::LeftSquare),
    Slot::Location,
    Slot::Mark(TokenKind::RightSquare),
];

fn begins_instr(bytes: &[u8], cell: &[Token]) -> bool
    ensures { result ≡ begins_instr (lexemes bytes.now cell.now) }
{
    match cell {
        [] => false,
        [t, ..] => {
            t.is_keyword(bytes, Keyword::Mov)
                || t.is_keyword(bytes, Keyword::Mfence)
                || t.is_keyword(bytes, Keyword::Xchg)
        }
    }
}

/// A number of 32 bits.
fn small(number: u64) -> Result<u32, InstrError>
    ensures { result ≡ (if nat_lt number (2 ^ 32) then Ok number else Err Number) }
{
    u32::try_from(number).map_err(|_| InstrError::Number)
}

/// What the tokens of a cell say that is an exchange, with its operands in either order.
#[tactic(auto, unfolding(crate::specs::Form::meaning))]
fn exchange(bytes: &[u8], cell: &[Token]) -> Option<Raw>
    ensures { option_map (form_of bytes.now) result ≡ meaning exchange_rows (lexemes bytes.now cell.now) }
{
    let found = match whole(bytes, &EXCHANGE, cell) {
        Some(found) => found,
        None => whole(bytes, &EXCHANGE_BACK, cell)?,
    };
    Some(Raw::Exchange {
        loc: found.location,
        reg: found.register,
    })
}

/// What the tokens of a cell of `bytes` say, or why they say nothing. Takes no memory.
#[tactic(auto, unfolding(crate::specs::Cell::parse, crate::specs::Form::meaning))]
pub fn parse_instr(bytes: &[u8], cell: &[Token]) -> Result<Raw, InstrError>
    ensures { Gives (form_of bytes.now) (λ e. e) result (parse (lexemes bytes.now cell.now)) }
{
    if whole(bytes, &[], cell).is_some() {
        return Ok(Raw::Blank);
    }
    if let Some(found) = whole(bytes, &STORE_NUMBER, cell) {
        return Ok(Raw::StoreNumber {
            loc: found.location,
            value: small(found.number)?,
        });
    }
    if let Some(found) = whole(bytes, &STORE_REG, cell) {
        return Ok(Raw::StoreReg {
            loc: found.location,
            reg: found.register,
        });
    }
    if let Some(found) = whole(bytes, &LOAD, cell) {
        return Ok(Raw::Load {
            reg: found.register,
            loc: found.location,
        });
    }
    if let Some(found) = whole(bytes, &CONSTANT, cell) {
        return Ok(Raw::Constant {
            reg: found.register,
            value: small(found.number)?,
        });
    }
    if whole(bytes, &FENCE, cell).is_some() {
        return Ok(Raw::Fence);
    }
    if let Some(raw) = exchange(bytes, cell) {
        return Ok(raw);
    }
    Err(if begins_instr(bytes, cell) {
        InstrError::Operand
    } else {
        InstrError::Unknown
    })
}
