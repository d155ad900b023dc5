//! The section of locations, and the condition.
ghost use Rattle.std.specs.Prelude.{ℕ, List, ◌≡◌, ◌<◌, ◌≤◌, ◌+◌, ◌++◌, length, drop, false, IfOk, Ok, Err, if◌then◌else◌};
ghost use Rattle.litmus_reader.specs.declared.kind.LitmusKind.TheVariants.{Disjunction};
ghost use Rattle.x86_subset.specs.Form.{next_is, lexeme_of, lexemes, found_of, nothing_found};
ghost use Rattle.litmus_reader.specs.Condition.{after_close, opened_at, section_at, after_tilde, quantifier_at, is_memory, atom_slots};
ghost use Rattle.litmus_reader.specs.Expression.{in_atom, at_term, after_term, step, filled, is_done, expression_at, AtTerm, outermost, opened_in, closed_in, may_or, behind_or, Parts, Fails};
ghost use Rattle.litmus_reader.specs.Outcome.{Answers, place_of, step_of, joined_of};

use crate::kind::{LitmusError, LitmusKind, bad};
use std::alloc::Global;
use x86_subset::{Atom, Found, Quantifier, Slot, Token, TokenKind};

/// The tokens after the next closing bracket.
fn after_close<'a>(bytes: &[u8], tokens: &'a [Token], last: u32) -> Result<&'a [Token], LitmusError>
    ensures is { Answers (λ ts. lexemes bytes.now ts.now) result (after_close last (lexemes bytes.now tokens.now)) }
    ensures few { IfOk result (λ ts. length ts.now ≤ length tokens.now) }
{
    for (i, t) in tokens.iter().enumerate() {
        if t.is(TokenKind::RightSquare) {
            return Ok(&tokens[i + 1..]);
        }
    }
    Err(bad(LitmusKind::Condition, last))
}

fn opened<'a>(bytes: &[u8], tokens: &'a [Token], last: u32) -> Result<&'a [Token], LitmusError>
    ensures is { Answers (λ ts. lexemes bytes.now ts.now) result (opened_at last (lexemes bytes.now tokens.now)) }
    ensures few { IfOk result (λ ts. length ts.now ≤ length tokens.now) }
{
    match tokens {
        [] => Err(bad(LitmusKind::Condition, last)),
        [t, rest @ ..] => {
            if t.is(TokenKind::LeftSquare) {
                after_close(bytes, rest, last)
            } else {
                Err(bad(LitmusKind::Condition, t.line))
            }
        }
    }
}

/// The tokens after the section of locations, if there is one.
#[tactic(auto, unfolding(crate::specs::Condition::section_at))]
pub fn section<'a>(bytes: &[u8], tokens: &'a [Token], last: u32) -> Result<&'a [Token], LitmusError>
    ensures is { Answers (λ ts. lexemes bytes.now ts.now) result (section_at last (lexemes bytes.now tokens.now)) }
    ensures few { IfOk result (λ ts. length ts.now ≤ length tokens.now) }
{
    match tokens {
        [] => Ok(tokens),
        [t, rest @ ..] => {
            if t.is_word(bytes, b"locations") {
                opened(bytes, rest, last)
            } else {
                Ok(tokens)
            }
        }
    }
}

fn after_tilde<'a>(
    bytes: &[u8],
    tokens: &'a [Token],
    last: u32,
) -> Result<(Quantifier, &'a [Token]), LitmusError>
    ensures is { Answers (λ x. (x.0, lexemes bytes.now x.1.now)) result
        (after_tilde last (lexemes bytes.now tokens.now)) }
    ensures few { IfOk result (λ x. length x.1.now ≤ length tokens.now) }
{
    match tokens {
        [] => Err(bad(LitmusKind::Condition, last)),
        [t, rest @ ..] => {
            if t.is_word(bytes, b"exists") {
                Ok((Quantifier::NotExists, rest))
            } else {
                Err(bad(LitmusKind::Condition, t.line))
            }
        }
    }
}

/// The quantifier, and the tokens after it.
#[tactic(auto, unfolding(crate::specs::Condition::quantifier_at))]
pub fn quantifier<'a>(
    bytes: &[u8],
    tokens: &'a [Token],
    last: u32,
) -> Result<(Quantifier, &'a [Token]), LitmusError>
    ensures is { Answers (λ x. (x.0, lexemes bytes.now x.1.now)) result
        (quantifier_at last (lexemes bytes.now tokens.now)) }
    ensures few { IfOk result (λ x. length x.1.now ≤ length tokens.now) }
{
    match tokens {
        [] => Err(bad(LitmusKind::Condition, last)),
        [t, rest @ ..] => {
            if t.is(TokenKind::Tilde) {
                after_tilde(bytes, rest, last)
            } else if t.is_word(bytes, b"exists") {
                Ok((Quantifier::Exists, rest))
            } else if t.is_word(bytes, b"forall") {
                Err(bad(LitmusKind::Forall, t.line))
            } else {
                Err(bad(LitmusKind::Condition, t.line))
            }
        }
    }
}

/// Where a token stands among parentheses.
#[derive(Clone, Copy, PartialEq, Eq)]
pub struct Nest {
    /// So many parentheses are open.
    pub depth: u32,
    /// So many of them, from the outermost on, hold a `\/`.
    pub holding: u32,
    /// The outermost one that began directly after a `/\`, counted from 1; 0 where none did.
    pub barred: u32,
    /// So many `\/` stand before.
    pub ors: u32,
}

impl Nest {
    fn outermost() -> Nest
        ensures { result ≡ outermost }
    {
        Nest {
            depth: 0,
            holding: 0,
            barred: 0,
            ors: 0,
        }
    }

    /// Inside one more parenthesis, which began directly after a `/\` or not.
    fn opened(self, joined: bool) -> Nest
        requires { self.depth < 16 }
        ensures { result ≡ opened_in joined self }
    {
        Nest {
            depth: self.depth + 1,
            barred: if joined && self.barred == 0 {
                self.depth + 1
            } else {
                self.barred
            },
            ..self
        }
    }

    /// After the parenthesis that closes the innermost one.
    fn closed(self) -> Nest
        requires { 0 < self.depth }
        ensures { result ≡ closed_in self }
    {
        Nest {
            depth: self.depth - 1,
            holding: self.holding.min(self.depth - 1),
            barred: if self.barred < self.depth {
                self.barred
            } else {
                0
            },
            ..self
        }
    }

    /// A `\/` may stand here.
    fn may_or(self) -> bool
        ensures { result ≡ may_or self }
    {
        self.barred == 0 && self.ors < 7
    }

    /// After a `\/`.
    fn behind_or(self) -> Nest
        requires { self.ors < 7 }
        ensures { result ≡ behind_or self }
    {
        Nest {
            holding: self.depth,
            ors: self.ors + 1,
            ..self
        }
    }
}

/// Where the reading of an expression stands.
#[derive(Clone, Copy, PartialEq, Eq)]
pub enum Place {
    /// A term must stand here, directly after a `/\` or not.
    Term(bool),
    /// After a term, one in parentheses that holds a `\/` or not.
    Behind(bool),
    /// In an atom, of which so many slots are filled.
    Atom(usize, Found),
}

/// What a token leads to.
#[derive(Clone, Copy, PartialEq, Eq)]
pub enum Step {
    /// On to this place.
    Goes(Place, Nest),
    /// The next conjunction begins.
    Parts(Nest),
    /// An atom ends.
    Ends(Found),
    /// The reading stops.
    Fails(LitmusKind),
}

/// The atoms of a condition, and how many of them stand before the end of each conjunction.
#[derive(Drop)]
pub struct Joined {
    pub atoms: Vec<Atom>,
    pub ends: Vec<u32>,
}

/// An atom's tokens.
pub const ATOM: [Slot; 6] = [
    Slot::Thread,
    Slot::Mark(TokenKind::Colon),
    Slot::Register,
    Slot::Mark(TokenKind::Equal),
    Slot::Maybe(TokenKind::Dollar),
    Slot::Small,
];

fn next_is(bytes: &[u8], kind: TokenKind, next: &[Token]) -> bool
    ensures { result ≡ next_is kind (lexemes bytes.now next.now) }
{
    match next {
        [] => false,
        [t, ..] => t.is(kind),
    }
}

fn is_memory(bytes: &[u8], t: &Token, next: &[Token]) -> bool
    ensures { result ≡ is_memory (lexeme_of bytes.now t.now) (lexemes bytes.now next.now) }
{
    t.is(TokenKind::LeftSquare) || t.is(TokenKind::Name) && next_is(bytes, TokenKind::Equal, next)
}

/// What a `\/` leads to.
fn at_or(bytes: &[u8], nest: Nest) -> Step
    ensures { step_of bytes.now result ≡ (if may_or nest then Parts (behind_or nest) else Fails Disjunction) }
{
    if nest.may_or() {
        Step::Parts(nest.behind_or())
    } else {
        Step::Fails(LitmusKind::Disjunction)
    }
}

#[tactic(auto, unfolding(crate::specs::Expression::after_term))]
fn after_term(bytes: &[u8], mixed: bool, nest: Nest, t: &Token) -> Step
    ensures { step_of bytes.now result ≡ after_term mixed nest (lexeme_of bytes.now t.now) }
{
    if t.is(TokenKind::Both) {
        return if mixed {
            Step::Fails(LitmusKind::Disjunction)
        } else {
            Step::Goes(Place::Term(true), nest)
        };
    }
    if t.is(TokenKind::Either) {
        return at_or(bytes, nest);
    }
    if nest.depth == 0 {
        return Step::Fails(LitmusKind::Trailing);
    }
    if t.is(TokenKind::Right) {
        Step::Goes(Place::Behind(nest.depth <= nest.holding), nest.closed())
    } else {
        Step::Fails(LitmusKind::Condition)
    }
}

/// In an atom of which so many slots are filled.
fn in_atom(bytes: &[u8], nest: Nest, filled: usize, t: &Token, found: Found) -> Step
    ensures { step_of bytes.now result ≡ in_atom nest (drop filled atom_slots) (lexeme_of bytes.now t.now)
        (found_of bytes.now found) }
{
    for i in filled..ATOM.len() {
        match ATOM[i].fill(bytes, t, found) {
            Some(more) => {
                return if i + 1 < ATOM.len() {
                    Step::Goes(Place::Atom(i + 1, more), nest)
                } else {
                    Step::Ends(more)
                };
            }
            None => {
                if !ATOM[i].may_miss() {
                    return Step::Fails(LitmusKind::Condition);
                }
            }
        }
    }
    Step::Fails(LitmusKind::Condition)
}

#[tactic(auto, unfolding(crate::specs::Expression::at_term))]
fn at_term(bytes: &[u8], joined: bool, nest: Nest, t: &Token, next: &[Token]) -> Step
    ensures { step_of bytes.now result ≡ at_term joined nest (lexeme_of bytes.now t.now) (lexemes bytes.now next.now) }
{
    if t.is(TokenKind::Number) {
        return in_atom(bytes, nest, 0, t, Found::nothing());
    }
    if t.is(TokenKind::Left) {
        return if nest.depth < 16 {
            Step::Goes(Place::Term(false), nest.opened(joined))
        } else {
            Step::Fails(LitmusKind::Condition)
        };
    }
    if is_memory(bytes, t, next) {
        Step::Fails(LitmusKind::MemoryCondition)
    } else {
        Step::Fails(LitmusKind::Condition)
    }
}

fn step_at(bytes: &[u8], place: Place, nest: Nest, t: &Token, next: &[Token]) -> Step
    ensures { step_of bytes.now result ≡ step (place_of bytes.now place) nest (lexeme_of bytes.now t.now)
        (lexemes bytes.now next.now) }
{
    match place {
        Place::Term(joined) => at_term(bytes, joined, nest, t, next),
        Place::Behind(mixed) => after_term(bytes, mixed, nest, t),
        Place::Atom(filled, found) => in_atom(bytes, nest, filled, t, found),
    }
}

/// The text may end here.
fn is_done(place: Place, nest: Nest) -> bool
    ensures { (text : List ℕ) → result ≡ is_done (place_of text place) nest }
{
    match place {
        Place::Behind(_) => nest.depth == 0,
        _ => false,
    }
}

/// The atoms of a condition, whose tokens are all of these.
pub fn expression(
    alloc: Global,
    bytes: &[u8],
    tokens: &[Token],
    last: u32,
) -> Result<Joined, LitmusError>
    requires { length tokens.now ≤ 65535 }
    ensures { Answers joined_of result (expression_at last (AtTerm false) outermost (lexemes bytes.now tokens.now)) }
{
    let mut atoms = Vec::new(alloc);
    let mut ends = Vec::new(alloc);
    let mut place = Place::Term(false);
    let mut nest = Nest::outermost();
    for (i, t) in tokens.iter().enumerate() {
        match step_at(bytes, place, nest, t, &tokens[i + 1..]) {
            Step::Goes(next, n) => {
                place = next;
                nest = n;
            }
            Step::Parts(n) => {
                ends.push(atoms.len() as u32)?;
                place = Place::Term(false);
                nest = n;
            }
            Step::Ends(found) => {
                atoms.push(Atom {
                    thread: found.thread,
                    reg: found.register,
                    value: found.small,
                })?;
                place = Place::Behind(false);
            }
            Step::Fails(kind) => return Err(bad(kind, t.line)),
        }
    }
    if is_done(place, nest) {
        ends.push(atoms.len() as u32)?;
        Ok(Joined { atoms, ends })
    } else {
        Err(bad(LitmusKind::Condition, last))
    }
}
