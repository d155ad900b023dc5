//! The forms that tokens may have.
ghost use Rattle.std.specs.Prelude.{ℕ, List, ◌≡◌, ◌==◌, ◌≤◌, ◌<◌, ◌+◌, ◌-◌, ◌^◌, length, take, drop, map, min, Result, Ok, Err, Some, None, option_map, if◌then◌else◌};
ghost use Rattle.x86_subset.specs.Raw.{bytes_at};
ghost use Rattle.x86_subset.specs.Form.{is_keyword, is_location, is_word, register_named, number_in, small_number_in, span_of, kind_code, register_of, letters, value, capped_number, spells, fill, may_miss, fit, lexeme_of, lexemes, found_of, nothing_found, nothing_at, whole, Fills, fill_first, Gives};

use crate::instr::Reg;
use crate::token::{Token, TokenKind};

/// A run of neighbouring items, from `from` up to and without `to`: bytes of a text, or atoms of a condition.
#[derive(Clone, Copy, Debug, PartialEq, Eq)]
pub struct Span {
    pub from: u32,
    pub to: u32,
}

impl Span {
    ghost use Rattle.x86_subset.specs.Conjunctions.{from_of, to_of};

    /// The items of a conjunction. `ends` has for each conjunction the number of all items up to its end.
    pub fn of_conjunction(ends: &[u32], c: usize) -> Span
        requires { c < length ends.now }
        ensures from { result.from ≡ from_of ends.now c }
        ensures to { result.to ≡ to_of ends.now c }
    {
        let from = if c == 0 { 0 } else { ends[c - 1] };
        Span { from, to: ends[c] }
    }
}

/// A mnemonic.
#[derive(Clone, Copy, PartialEq, Eq)]
pub enum Keyword {
    Mov,
    Mfence,
    Xchg,
}

/// What one token may be.
#[derive(Clone, Copy, PartialEq, Eq)]
pub enum Slot {
    /// A token of this kind.
    Mark(TokenKind),
    /// A token of this kind, or nothing.
    Maybe(TokenKind),
    /// A word in letters of either case.
    Word(Keyword),
    /// A name that is no register's.
    Location,
    /// A register's name, in letters of either case.
    Register,
    /// A number of any size.
    Any,
    /// A number of 32 bits.
    Small,
    /// A number of 32 bits that names a thread.
    Thread,
}

/// What tokens name. A number of more than 32 bits stands as 2^32. What no slot has filled is 0, or `EAX`.
#[derive(Clone, Copy, PartialEq, Eq)]
pub struct Found {
    pub thread: u32,
    pub location: Span,
    pub register: Reg,
    /// The number of a slot `Any`, and that of a slot `Small`.
    pub number: u64,
    pub small: u32,
}

/// The bytes of a text from one place up to another.
pub fn text_at(bytes: &[u8], s: Span) -> &[u8]
    ensures { result.now ≡ bytes_at bytes.now s }
{
    let to = (s.to as usize).min(bytes.len());
    let from = (s.from as usize).min(to);
    &bytes[from..to]
}

/// The bytes are the word, in letters of either case.
fn spells(bytes: &[u8], word: &[u8]) -> bool
    ensures { result ≡ spells word.now bytes.now }
{
    bytes.eq_ignore_ascii_case(word)
}

impl Reg {
    /// The register whose name the bytes spell, in letters of either case; `None` exactly for any other bytes.
    #[tactic(auto, unfolding(crate::specs::Form::register_of))]
    pub fn of(bytes: &[u8]) -> Option<Reg>
        ensures { result ≡ register_of bytes.now }
    {
        if spells(bytes, b"EAX") {
            Some(Reg::Eax)
        } else if spells(bytes, b"EBX") {
            Some(Reg::Ebx)
        } else if spells(bytes, b"ECX") {
            Some(Reg::Ecx)
        } else if spells(bytes, b"EDX") {
            Some(Reg::Edx)
        } else if spells(bytes, b"ESI") {
            Some(Reg::Esi)
        } else if spells(bytes, b"EDI") {
            Some(Reg::Edi)
        } else {
            None
        }
    }
}

fn letters(word: Keyword) -> &'static [u8]
    ensures { result.now ≡ letters word }
{
    match word {
        Keyword::Mov => b"MOV",
        Keyword::Mfence => b"MFENCE",
        Keyword::Xchg => b"XCHG",
    }
}

/// The value of digits, or 2^32 for any larger one.
fn value(digits: &[u8]) -> u64
    ensures { result ≡ capped_number digits.now }
{
    let mut value = 0;
    for b in digits {
        value = (value * 10 + b.saturating_sub(b'0') as u64).min(1 << 32);
    }
    value
}

impl Token {
    /// Whether the token has this kind.
    pub fn is(&self, kind: TokenKind) -> bool
        ensures { result ≡ (kind_code self.now.kind == kind_code kind) }
    {
        self.kind as u8 == kind as u8
    }

    /// Where the token stands in the text.
    fn span(&self) -> Span
        ensures { result ≡ span_of self.now }
    {
        Span {
            from: self.from,
            to: self.to,
        }
    }

    /// The token's bytes in the text.
    pub fn spelled<'a>(&self, bytes: &'a [u8]) -> &'a [u8]
        ensures { result.now ≡ take (self.now.to - self.now.from) (drop self.now.from bytes.now) }
    {
        text_at(bytes, self.span())
    }

    /// Whether the token is this word, letter by letter.
    pub fn is_word(&self, bytes: &[u8], word: &[u8]) -> bool
        ensures { result ≡ is_word word.now (lexeme_of bytes.now self.now) }
    {
        self.is(TokenKind::Name) && self.spelled(bytes) == word
    }

    /// Whether the token is the mnemonic, in letters of either case.
    pub(crate) fn is_keyword(&self, bytes: &[u8], word: Keyword) -> bool
        ensures { result ≡ is_keyword word (lexeme_of bytes.now self.now) }
    {
        self.is(TokenKind::Name) && spells(self.spelled(bytes), letters(word))
    }

    /// The place of a name that is no register's; `None` exactly for any other token.
    fn location(&self, bytes: &[u8]) -> Option<Span>
        ensures { result ≡ (if is_location (lexeme_of bytes.now self.now) then Some (span_of self.now) else None) }
    {
        if self.is(TokenKind::Name) && Reg::of(self.spelled(bytes)).is_none() {
            Some(self.span())
        } else {
            None
        }
    }

    /// The register that the token names, in letters of either case; `None` exactly where it names none.
    fn register(&self, bytes: &[u8]) -> Option<Reg>
        ensures { result ≡ register_named (lexeme_of bytes.now self.now) }
    {
        if self.is(TokenKind::Name) {
            Reg::of(self.spelled(bytes))
        } else {
            None
        }
    }

    /// The value of a number, or 2^32 for any larger one; `None` exactly for any other token.
    fn number(&self, bytes: &[u8]) -> Option<u64>
        ensures { result ≡ number_in (lexeme_of bytes.now self.now) }
    {
        if self.is(TokenKind::Number) {
            Some(value(self.spelled(bytes)))
        } else {
            None
        }
    }

    /// The value of a number of 32 bits; `None` exactly for any other token.
    fn small_number(&self, bytes: &[u8]) -> Option<u32>
        ensures { result ≡ small_number_in (lexeme_of bytes.now self.now) }
    {
        u32::try_from(self.number(bytes)?).ok()
    }
}

impl Slot {
    /// What is found once the token fills the slot; `None` where it does not fit.
    #[tactic(auto, unfolding(crate::specs::Form::fill))]
    pub fn fill(self, bytes: &[u8], t: &Token, found: Found) -> Option<Found>
        ensures { Fills bytes.now result (fill self (lexeme_of bytes.now t.now) (found_of bytes.now found)) }
    {
        match self {
            Slot::Mark(kind) | Slot::Maybe(kind) => t.is(kind).then_some(found),
            Slot::Word(word) => t.is_keyword(bytes, word).then_some(found),
            Slot::Location => Some(Found {
                location: t.location(bytes)?,
                ..found
            }),
            Slot::Register => Some(Found {
                register: t.register(bytes)?,
                ..found
            }),
            Slot::Any => Some(Found {
                number: t.number(bytes)?,
                ..found
            }),
            Slot::Small => Some(Found {
                small: t.small_number(bytes)?,
                ..found
            }),
            Slot::Thread => Some(Found {
                thread: t.small_number(bytes)?,
                ..found
            }),
        }
    }

    /// Whether the slot may stay empty.
    pub fn may_miss(self) -> bool
        ensures { result ≡ may_miss self }
    {
        matches!(self, Slot::Maybe(_))
    }

    /// Fills the slot with the first of the tokens, if it fits.
    fn fill_first<'a>(
        self,
        bytes: &[u8],
        tokens: &'a [Token],
        found: Found,
    ) -> Option<(Found, &'a [Token])>
        ensures { fill_first self (lexemes bytes.now tokens.now) (found_of bytes.now found)
            ≡ option_map (λ x. (found_of bytes.now x.0, lexemes bytes.now x.1.now)) result }
    {
        match tokens {
            [] => None,
            [t, rest @ ..] => Some((self.fill(bytes, t, found)?, rest)),
        }
    }
}

impl Found {
    /// Nothing is found yet.
    pub fn nothing() -> Found
        ensures { result ≡ nothing_at }
    {
        Found {
            thread: 0,
            location: Span { from: 0, to: 0 },
            register: Reg::Eax,
            number: 0,
            small: 0,
        }
    }
}

/// Fills the slots with tokens in order. `Ok` is what was found, and the tokens after; `Err` is the tokens
/// from the first on that does not fit.
pub fn fit<'a>(
    bytes: &[u8],
    slots: &[Slot],
    tokens: &'a [Token],
) -> Result<(Found, &'a [Token]), &'a [Token]>
    ensures { Gives (λ x. (found_of bytes.now x.0, lexemes bytes.now x.1.now)) (λ e. lexemes bytes.now e.now) result
        (fit slots.now (lexemes bytes.now tokens.now) nothing_found) }
{
    let mut found = Found::nothing();
    let mut rest = tokens;
    for slot in slots {
        match slot.fill_first(bytes, rest, found) {
            Some((more, after)) => {
                found = more;
                rest = after;
            }
            None => {
                if !slot.may_miss() {
                    return Err(rest);
                }
            }
        }
    }
    Ok((found, rest))
}

/// What is found where all of the tokens fill the slots in order; `None` where they do not.
pub fn whole(bytes: &[u8], slots: &[Slot], tokens: &[Token]) -> Option<Found>
    ensures { Fills bytes.now result (whole (fit slots.now (lexemes bytes.now tokens.now) nothing_found)) }
{
    match fit(bytes, slots, tokens) {
        Ok((found, rest)) => if rest.is_empty() { Some(found) } else { None },
        Err(_) => None,
    }
}
