//! Cuts a text into tokens.
ghost use Rattle.std.specs.Prelude.{◌≡◌, ◌≤◌, ◌<◌, ◌+◌, ◌==◌, ◌++◌, length, take, drop, slice_index, IfOk, IfSome, IsTrue};
ghost use Rattle.std.specs.Char.{is_ascii_digit};
ghost use Rattle.std.specs.List.{prefix_len};
ghost use Rattle.x86_subset.specs.Token.{is_blank, is_head, is_tail, begins, ends_comment, sign, is_pair, close_end, pair_cut, cut_at, NoEnd, spot, line_after, after_byte, after_bytes, start, tokens_from, tokens_of};
ghost use Rattle.perp_base.specs.declared.limits.TheConstants.{MOST_BYTES};

use crate::token::{Cut, Token, TokenKind};
use perp_base::NoMemory;
use std::alloc::Global;

/// Whether the byte is a space, a tab, a CR or an LF.
#[tactic(auto, unfolding(crate::specs::Token::is_blank))]
pub fn is_blank(b: u8) -> bool
    ensures { result ≡ is_blank b }
{
    b == b' ' || b == b'\t' || b == b'\r' || b == b'\n'
}

#[tactic(auto, unfolding(crate::specs::Token::is_head))]
fn is_head(b: u8) -> bool
    ensures { result ≡ is_head b }
{
    b.is_ascii_alphabetic() || b == b'_'
}

#[tactic(auto, unfolding(crate::specs::Token::is_tail))]
fn is_tail(b: u8) -> bool
    ensures { result ≡ is_tail b }
{
    is_head(b) || b.is_ascii_digit()
}

/// How many bytes at the front go on with a name.
fn name_len(bytes: &[u8]) -> usize
    ensures { result ≡ prefix_len is_tail bytes.now }
{
    bytes.iter().take_while(|b| is_tail(**b)).count()
}

/// How many bytes at the front are digits.
fn number_len(bytes: &[u8]) -> usize
    ensures { result ≡ prefix_len is_ascii_digit bytes.now }
{
    bytes.iter().take_while(|b| b.is_ascii_digit()).count()
}

/// Whether this byte is the next one.
pub fn is_next(b: u8, next: &[u8]) -> bool
    ensures is { result ≡ begins (λ c. c == b) next.now }
    ensures some { IsTrue result → 0 < length next.now }
{
    match next {
        [] => false,
        [c, ..] => *c == b,
    }
}

fn ends_comment(b: u8, next: &[u8]) -> bool
    ensures { result ≡ ends_comment b next.now }
{
    b == b'*' && is_next(b')', next)
}

/// How many bytes there are up to and with the first `*)`; `None` where there is none.
pub fn close_end(bytes: &[u8]) -> Option<usize>
    requires { length bytes.now ≤ MOST_BYTES }
    ensures within { IfSome result (λ n. n ≤ 65537) }
    ensures is { result ≡ close_end bytes.now }
{
    for (i, b) in bytes.iter().enumerate() {
        if ends_comment(*b, &bytes[i + 1..]) {
            return Some(i + 2);
        }
    }
    None
}

/// The same. `unclosed` keeps that none stands there, and then none is looked for again.
fn next_close(bytes: &[u8], unclosed: &mut bool) -> Option<usize>
    requires few { length bytes.now ≤ MOST_BYTES }
    requires known { NoEnd unclosed.old bytes.now }
    ensures within { IfSome result (λ n. n ≤ 65537) }
    ensures is { result ≡ close_end bytes.now }
    ensures known { NoEnd unclosed.new bytes.now }
{
    if *unclosed {
        return None;
    }
    let end = close_end(bytes);
    *unclosed = end.is_none();
    end
}

#[tactic(auto, unfolding(crate::specs::Token::sign))]
fn sign(b: u8) -> TokenKind
    ensures { result ≡ sign b }
{
    match b {
        b'(' => TokenKind::Left,
        b')' => TokenKind::Right,
        b'[' => TokenKind::LeftSquare,
        b']' => TokenKind::RightSquare,
        b'{' => TokenKind::LeftBrace,
        b'}' => TokenKind::RightBrace,
        b';' => TokenKind::Semi,
        b'|' => TokenKind::Bar,
        b',' => TokenKind::Comma,
        b':' => TokenKind::Colon,
        b'=' => TokenKind::Equal,
        b'$' => TokenKind::Dollar,
        b'~' => TokenKind::Tilde,
        _ => TokenKind::Other,
    }
}

#[tactic(auto, unfolding(crate::specs::Token::is_pair))]
fn is_pair(b: u8, next: &[u8]) -> bool
    ensures is { result ≡ is_pair b next.now }
    ensures some { IsTrue result → 0 < length next.now }
{
    b == b'(' && is_next(b'*', next)
        || b == b'/' && is_next(b'\\', next)
        || b == b'\\' && is_next(b'/', next)
}

#[tactic(auto, unfolding(crate::specs::Token::pair_cut))]
fn pair_cut(b: u8, next: &[u8], unclosed: &mut bool) -> Cut
    requires some { 0 < length next.now }
    requires few { length next.now ≤ MOST_BYTES }
    requires known { NoEnd unclosed.old (drop 1 next.now) }
    ensures is { result ≡ pair_cut b next.now }
    ensures known { NoEnd unclosed.new (drop 1 next.now) }
{
    if b == b'(' {
        match next_close(&next[1..], unclosed) {
            None => Cut {
                kind: Some(TokenKind::Other),
                more: 0,
            },
            Some(n) => Cut {
                kind: None,
                more: n + 1,
            },
        }
    } else {
        let kind = if b == b'/' {
            TokenKind::Both
        } else {
            TokenKind::Either
        };
        Cut {
            kind: Some(kind),
            more: 1,
        }
    }
}

/// What begins at a byte that these bytes follow.
#[tactic(auto, unfolding(crate::specs::Token::cut_at))]
fn cut_at(b: u8, next: &[u8], unclosed: &mut bool) -> Cut
    requires few { length next.now ≤ MOST_BYTES }
    requires known { NoEnd unclosed.old (drop 1 next.now) }
    ensures is { result ≡ cut_at b next.now }
    ensures known { NoEnd unclosed.new (drop 1 next.now) }
{
    if is_blank(b) {
        Cut {
            kind: None,
            more: 0,
        }
    } else if is_head(b) {
        Cut {
            kind: Some(TokenKind::Name),
            more: name_len(next),
        }
    } else if b.is_ascii_digit() {
        Cut {
            kind: Some(TokenKind::Number),
            more: number_len(next),
        }
    } else if is_pair(b, next) {
        pair_cut(b, next, unclosed)
    } else {
        Cut {
            kind: Some(sign(b)),
            more: 0,
        }
    }
}

/// The number of the line of the byte after `b`, which stands in this line.
pub fn next_line(line: u32, b: u8) -> u32
    requires { line ≤ MOST_BYTES }
    ensures { result ≡ line_after line b }
{
    if b == b'\n' { line + 1 } else { line }
}

/// The number of the line of the byte after these bytes at the front of a text, from 1.
pub fn line_behind(bytes: &[u8]) -> u32
    requires { length bytes.now ≤ MOST_BYTES }
    ensures { result ≡ (after_bytes start bytes.now).line }
{
    let mut line = 1;
    for b in bytes {
        line = next_line(line, *b);
    }
    line
}

/// Adds the token that begins at a place, if one does. The answer is how many bytes after the
/// place belong to what begins there, or before it. `unclosed` keeps that no comment ends after it.
fn put_token(
    tokens: &mut Vec<Token>,
    bytes: &[u8],
    place: usize,
    line: u32,
    skip: usize,
    unclosed: &mut bool,
) -> Result<usize, NoMemory>
    requires few { length bytes.now ≤ MOST_BYTES }
    requires within { place < length bytes.now }
    requires known { NoEnd unclosed.old (drop (place + 2) bytes.now) }
    ensures known { NoEnd unclosed.new (drop (place + 2) bytes.now) }
    ensures is { IfOk result (λ more. tokens.new.items ++ tokens_from more (after_byte (spot place line) (slice_index bytes.now place)) (drop (place + 1) bytes.now)
        ≡ tokens.old.items ++ tokens_from skip (spot place line) (drop place bytes.now)) }
{
    if skip > 0 {
        return Ok(skip - 1);
    }
    let cut = cut_at(bytes[place], &bytes[place + 1..], unclosed);
    match cut.kind {
        None => Ok(cut.more),
        Some(kind) => {
            tokens.push(Token {
                kind,
                from: place as u32,
                to: (place + 1 + cut.more) as u32,
                line,
            })?;
            Ok(cut.more)
        }
    }
}

/// The tokens of a text from a place on, in order; blanks and comments are left out. The work is linear in
/// the text: the search for a comment's end that fails is not made again.
pub fn tokens(alloc: Global, bytes: &[u8], from: usize) -> Result<Vec<Token>, NoMemory>
    requires few { length bytes.now ≤ MOST_BYTES }
    requires within { from ≤ length bytes.now }
    ensures { IfOk result (λ ts. ts.items ≡ tokens_of bytes.now from) }
{
    let mut tokens = Vec::new(alloc);
    let mut line = line_behind(&bytes[..from]);
    let mut skip = 0;
    let mut unclosed = false;
    for i in from..bytes.len() {
        skip = put_token(&mut tokens, bytes, i, line, skip, &mut unclosed)?;
        line = next_line(line, bytes[i]);
    }
    Ok(tokens)
}
