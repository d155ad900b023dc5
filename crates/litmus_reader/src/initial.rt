//! The initial state.
ghost use Rattle.std.specs.Prelude.{ℕ, List, [], ◌≡◌, ◌≤◌, length, IfOk};
ghost use Rattle.x86_subset.specs.Form.{lexeme_of, lexemes, meaning};
ghost use Rattle.litmus_reader.specs.Answer.{line_at};
ghost use Rattle.litmus_reader.specs.Initial.{item_rows, ends_item, judge, items};
ghost use Rattle.litmus_reader.specs.Outcome.{Answers};

use crate::kind::{LitmusError, LitmusKind, bad};
use x86_subset::{Slot, Token, TokenKind, whole};

const LOCATION: [Slot; 4] = [
    Slot::Location,
    Slot::Mark(TokenKind::Equal),
    Slot::Maybe(TokenKind::Dollar),
    Slot::Any,
];

const BRACKETED: [Slot; 6] = [
    Slot::Mark(TokenKind::LeftSquare),
    Slot::Location,
    Slot::Mark(TokenKind::RightSquare),
    Slot::Mark(TokenKind::Equal),
    Slot::Maybe(TokenKind::Dollar),
    Slot::Any,
];

const TYPED: [Slot; 5] = [
    Slot::Mark(TokenKind::Name),
    Slot::Location,
    Slot::Mark(TokenKind::Equal),
    Slot::Maybe(TokenKind::Dollar),
    Slot::Any,
];

const DECLARED: [Slot; 2] = [Slot::Mark(TokenKind::Name), Slot::Location];

const REGISTER: [Slot; 6] = [
    Slot::Mark(TokenKind::Number),
    Slot::Mark(TokenKind::Colon),
    Slot::Register,
    Slot::Mark(TokenKind::Equal),
    Slot::Maybe(TokenKind::Dollar),
    Slot::Any,
];

/// The line of the first of the tokens, or the given one.
pub fn line_at(last: u32, tokens: &[Token]) -> u32
    ensures { (text : List ℕ) → result ≡ line_at last (lexemes text tokens.now) }
{
    match tokens {
        [] => last,
        [t, ..] => t.line,
    }
}

/// The numeral of an item, or 0 where it has none.
#[tactic(auto, unfolding(x86_subset::specs::Form::meaning))]
fn item_number(bytes: &[u8], item: &[Token]) -> Option<u64>
    ensures { result ≡ meaning item_rows (lexemes bytes.now item.now) }
{
    if let Some(found) = whole(bytes, &[], item) {
        return Some(found.number);
    }
    if let Some(found) = whole(bytes, &LOCATION, item) {
        return Some(found.number);
    }
    if let Some(found) = whole(bytes, &BRACKETED, item) {
        return Some(found.number);
    }
    if let Some(found) = whole(bytes, &TYPED, item) {
        return Some(found.number);
    }
    if let Some(found) = whole(bytes, &DECLARED, item) {
        return Some(found.number);
    }
    if let Some(found) = whole(bytes, &REGISTER, item) {
        return Some(found.number);
    }
    None
}

#[tactic(auto, unfolding(crate::specs::Initial::judge))]
fn judge(bytes: &[u8], item: &[Token]) -> Result<(), LitmusError>
    ensures { Answers (λ u. u) result (judge (lexemes bytes.now item.now)) }
{
    match item_number(bytes, item) {
        None => Err(bad(LitmusKind::Initial, line_at(0, item))),
        Some(0) => Ok(()),
        Some(_) => Err(bad(LitmusKind::NonZeroInitial, line_at(0, item))),
    }
}

fn ends_item(bytes: &[u8], t: &Token) -> bool
    ensures { result ≡ ends_item (lexeme_of bytes.now t.now) }
{
    t.is(TokenKind::Semi) || t.is(TokenKind::RightBrace)
}

/// The tokens after the closing brace of the initial state.
pub fn items<'a>(bytes: &[u8], tokens: &'a [Token], last: u32) -> Result<&'a [Token], LitmusError>
    ensures is { Answers (λ ts. lexemes bytes.now ts.now) result (items last [] (lexemes bytes.now tokens.now)) }
    ensures few { IfOk result (λ ts. length ts.now ≤ length tokens.now) }
{
    let mut start = 0;
    for (i, t) in tokens.iter().enumerate() {
        if ends_item(bytes, t) {
            judge(bytes, &tokens[start..i])?;
            if t.is(TokenKind::RightBrace) {
                return Ok(&tokens[i + 1..]);
            }
            start = i + 1;
        }
    }
    Err(bad(LitmusKind::Initial, last))
}
