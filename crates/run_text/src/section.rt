//! Where a section begins.
ghost use Rattle.std.specs.Prelude.{◌≡◌, ◌<◌, ◌≤◌, ◌+◌, ◌^◌, IfSome, length, option_map};
ghost use Rattle.litmus_reader.specs.Front.{words};
ghost use Rattle.run_text.specs.Numbers.{large_number};
ghost use Rattle.run_text.specs.Sections.{IsWithin, iterations_of, most_of, seen, split_of, within_iterations};

use crate::numbers::number_up_to;
use crate::words::{line_len, next_word};
use perp_base::MOST_ITERATIONS;

/// The first section line of an input parts it.
#[derive(Clone, Copy)]
pub struct Section<'a> {
    /// What stands in front of the section line.
    pub litmus: &'a [u8],
    /// The number that the section line tells, 1 to 100,000.
    pub iterations: u32,
    /// The number of the line after the section line, from 1 through the whole input.
    pub line: u32,
    /// What stands after the section line.
    pub lines: &'a [u8],
}

/// How many iterations a section of this heading may have: an execution has one.
fn most_iterations(heading: &[u8]) -> u32
    ensures is { result ≡ most_of heading.now }
    ensures within { result ≤ MOST_ITERATIONS }
{
    if heading == b"%execution".as_slice() {
        1
    } else {
        MOST_ITERATIONS
    }
}

/// The number of iterations that a word tells: 1 to this many.
fn iterations_in(most: u32, word: &[u8]) -> Option<u32>
    ensures is { result ≡ within_iterations most (large_number word.now) }
    ensures within { IfSome result (λ n. (1 ≤ n) × (n ≤ most)) }
{
    let iterations = number_up_to(u64::MAX, word)?;
    if 1 <= iterations && iterations <= u64::from(most) {
        Some(iterations as u32)
    } else {
        None
    }
}

/// The number of iterations that a section line of this heading tells, if the line is one.
fn iterations_of(heading: &[u8], line: &[u8]) -> Option<u32>
    ensures is { result ≡ iterations_of heading.now (words line.now) }
    ensures within { IfSome result (λ n. (1 ≤ n) × (n ≤ MOST_ITERATIONS)) }
{
    let first = next_word(line)?;
    let second = next_word(first.rest)?;
    if next_word(second.rest).is_some() || first.word != heading {
        return None;
    }
    iterations_in(most_iterations(heading), second.word)
}

/// The section of this heading, if a line begins one.
pub fn find_section<'a>(heading: &[u8], text: &'a [u8]) -> Option<Section<'a>>
    requires { length text.now < 2 ^ 31 }
    ensures is { option_map seen result ≡ split_of heading.now text.now }
    ensures within { IfSome result (IsWithin (length text.now)) }
{
    let mut at = 0;
    let mut line = 1;
    while at < text.len() {
        let len = line_len(&text[at..]);
        if let Some(iterations) = iterations_of(heading, &text[at..at + len]) {
            return Some(Section {
                litmus: &text[..at],
                iterations,
                line: line + 1,
                lines: &text[at + len..],
            });
        }
        at += len;
        line += 1;
    }
    None
}
