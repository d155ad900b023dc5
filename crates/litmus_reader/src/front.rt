//! The first line and the header.
ghost use Rattle.std.specs.Prelude.{ℕ, suc, List, [], ◌≡◌, ◌≤◌, ◌<◌, ◌+◌, ◌&&◌, ◌==◌, length, take, drop, map, option_map, IfOk, IfSome};
ghost use Rattle.std.specs.Char.{is_ascii_graphic};
ghost use Rattle.std.specs.List.{list_all, list_any, slice_split};
ghost use Rattle.x86_subset.specs.Token.{is_blank, close_end, begins, spot, start, after_bytes};
ghost use Rattle.litmus_reader.specs.Front.{line_len, words, is_x86, name_of, first_line, is_equal, is_key, is_star, quote_end, skip_to, item_at, rest_at, head};
ghost use Rattle.litmus_reader.specs.Outcome.{Answers};
ghost use Rattle.perp_base.specs.declared.limits.TheConstants.{MOST_BYTES};

use crate::kind::{LitmusError, LitmusKind, bad};
use perp_base::Name;
use std::alloc::{AllocError, Global};
use x86_subset::{close_end, is_blank, is_next, next_line};

/// How many bytes the line at the front has, its end among them.
pub fn line_len(bytes: &[u8]) -> usize
    ensures is { result ≡ line_len bytes.now }
    ensures within { result ≤ length bytes.now }
{
    for (i, b) in bytes.iter().enumerate() {
        if *b == b'\n' {
            return i + 1;
        }
    }
    bytes.len()
}

/// The parts of a line between blanks.
fn parts<'a>(alloc: Global, line: &'a [u8]) -> Result<Vec<&'a [u8]>, AllocError>
    ensures { IfOk result (λ ws. map (λ w. w.now) ws.items ≡ slice_split is_blank line.now) }
{
    line.split(|b| is_blank(*b)).collect(alloc)
}

/// The words of a line.
fn words<'a>(alloc: Global, line: &'a [u8]) -> Result<Vec<&'a [u8]>, AllocError>
    ensures { IfOk result (λ ws. map (λ w. w.now) ws.items ≡ words line.now) }
{
    let parts = parts(alloc, line)?;
    let mut words = Vec::new(alloc);
    for part in &parts {
        if !part.is_empty() {
            words.push(*part)?;
        }
    }
    Ok(words)
}

fn is_printed(bytes: &[u8]) -> bool
    ensures { result ≡ list_all is_ascii_graphic bytes.now }
{
    bytes.iter().all(|b| b.is_ascii_graphic())
}

fn is_x86(words: &[&[u8]]) -> bool
    ensures { result ≡ is_x86 (map (λ w. w.now) words.now) }
{
    match words {
        [] => false,
        [w, ..] => *w == b"X86".as_slice(),
    }
}

fn name_of<'a>(words: &[&'a [u8]]) -> Option<&'a [u8]>
    ensures { option_map (λ w. w.now) result ≡ name_of (map (λ w. w.now) words.now) }
{
    match words {
        [_, name] => if is_printed(name) { Some(*name) } else { None },
        _ => None,
    }
}

/// The test's name, and where the header begins.
#[tactic(auto, unfolding(crate::specs::Front::first_line))]
pub fn first_line(alloc: Global, bytes: &[u8]) -> Result<(Name, usize), LitmusError>
    ensures is { Answers (λ x. (x.0, rest_at (after_bytes start (take x.1 bytes.now)) (drop x.1 bytes.now))) result
        (first_line bytes.now) }
    ensures within { IfOk result (λ x. x.1 ≤ length bytes.now) }
{
    let len = line_len(bytes);
    let words = words(alloc, &bytes[..len])?;
    if !is_x86(&words) {
        return Err(bad(LitmusKind::NotX86, 1));
    }
    match name_of(&words) {
        None => Err(bad(LitmusKind::Header, 1)),
        Some(name) => Ok((Name::of(alloc, name)?, len)),
    }
}

/// What begins at a byte of the header: so many bytes after it are skipped, or the initial state
/// begins, or nothing that is known.
#[derive(Clone, Copy, PartialEq, Eq)]
pub enum Item {
    Skipped(usize),
    Opens,
    Unknown,
}

/// How many bytes there are up to and with the next quote.
fn quote_end(bytes: &[u8]) -> Option<usize>
    ensures { result ≡ quote_end bytes.now }
{
    for (i, b) in bytes.iter().enumerate() {
        if *b == b'"' {
            return Some(i + 1);
        }
    }
    None
}

fn has_equal(line: &[u8]) -> bool
    ensures { result ≡ list_any is_equal line.now }
{
    line.iter().any(|c| *c == b'=')
}

fn is_key(b: u8, line: &[u8]) -> bool
    ensures { result ≡ is_key b line.now }
{
    b.is_ascii_alphabetic() && has_equal(line)
}

fn comment_item(next: &[u8]) -> Item
    requires { length next.now ≤ MOST_BYTES }
    ensures { result ≡ skip_to (option_map suc (close_end next.now)) }
{
    match close_end(next) {
        None => Item::Unknown,
        Some(n) => Item::Skipped(n + 1),
    }
}

fn quote_item(next: &[u8]) -> Item
    ensures { result ≡ skip_to (quote_end next.now) }
{
    match quote_end(next) {
        None => Item::Unknown,
        Some(n) => Item::Skipped(n),
    }
}

#[tactic(auto, unfolding(crate::specs::Front::item_at))]
fn item_at(b: u8, next: &[u8]) -> Item
    requires { length next.now ≤ MOST_BYTES }
    ensures { result ≡ item_at b next.now }
{
    if is_blank(b) {
        return Item::Skipped(0);
    }
    if b == b'{' {
        return Item::Opens;
    }
    if b == b'"' {
        return quote_item(next);
    }
    if b == b'(' && is_next(b'*', next) {
        return comment_item(&next[1..]);
    }
    let len = line_len(next);
    if is_key(b, &next[..len]) {
        Item::Skipped(len)
    } else {
        Item::Unknown
    }
}

/// After the brace that ends the header, and its line.
pub fn head(bytes: &[u8], from: usize, line: u32, last: u32) -> Result<(usize, u32), LitmusError>
    requires few { length bytes.now ≤ MOST_BYTES }
    requires within { from ≤ length bytes.now }
    requires line { line ≤ from + 1 }
    requires spot { spot from line ≡ after_bytes start (take from bytes.now) }
    ensures is { Answers (λ x. rest_at (spot x.0 x.1) (drop x.0 bytes.now)) result
        (head last 0 (spot from line) (drop from bytes.now)) }
    ensures some { IfOk result (λ x. 0 < x.0) }
    ensures within { IfOk result (λ x. x.0 ≤ length bytes.now) }
    ensures spot { IfOk result (λ x. spot x.0 x.1 ≡ after_bytes start (take x.0 bytes.now)) }
{
    let mut line = line;
    let mut skip = 0;
    for i in from..bytes.len() {
        if skip > 0 {
            skip -= 1;
        } else {
            match item_at(bytes[i], &bytes[i + 1..]) {
                Item::Skipped(n) => skip = n,
                Item::Opens => return Ok((i + 1, next_line(line, bytes[i]))),
                Item::Unknown => return Err(bad(LitmusKind::Header, line)),
            }
        }
        line = next_line(line, bytes[i]);
    }
    Err(bad(LitmusKind::Header, last))
}
