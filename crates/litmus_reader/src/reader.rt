//! The reading of a whole text.
ghost use Rattle.std.specs.Prelude.{ℕ, List, ◌≡◌, ◌≤◌, ◌<◌, ◌+◌, length, All, IfOk, IfErr};
ghost use Rattle.std.specs.Str.{IsAscii};
ghost use Rattle.x86_subset.specs.Form.{lexemes};
ghost use Rattle.litmus_reader.specs.Answer.{Answer, Accepted, last_line};
ghost use Rattle.litmus_reader.specs.Outcome.{Answers};
ghost use Rattle.litmus_reader.specs.Sheet.{names};
ghost use Rattle.x86_subset.specs.Shape.{if_within_limits};
ghost use Rattle.litmus_reader.specs.Reading.{Reads, tokens_at, sections_at, read_text};
ghost use Rattle.litmus_reader.specs.Draft.{draft_of, IsFit, IsMade};
ghost use Rattle.litmus_reader.specs.Answered.{IfAnswered, RefusesText};
ghost use Rattle.perp_base.specs.declared.limits.TheConstants.{MOST_BYTES};

use crate::condition::{Joined, expression, quantifier, section};
use crate::front::{first_line, head};
use crate::initial::items;
use crate::kind::LitmusError;
use crate::rows::{Sheet, columns};
use perp_base::{Name, NoMemory};
use std::alloc::Global;
use x86_subset::{Quantifier, Span, Test, Token, line_behind, text_at, tokens};

/// A test as it was read.
#[derive(Drop)]
pub struct Draft {
    pub name: Name,
    pub sheet: Sheet,
    pub quantifier: Quantifier,
    pub joined: Joined,
}

/// The number of the last line.
fn last_line(bytes: &[u8]) -> u32
    requires { length bytes.now ≤ MOST_BYTES }
    ensures { result ≡ last_line bytes.now }
{
    if bytes.is_empty() {
        return 1;
    }
    line_behind(&bytes[..bytes.len() - 1])
}

/// The sections of the tokens after the first brace.
#[tactic(auto, unfolding(crate::specs::Reading::tokens_at))]
fn sections(
    alloc: Global,
    bytes: &[u8],
    name: Name,
    tokens: &[Token],
    last: u32,
) -> Result<Draft, LitmusError>
    requires { length tokens.now ≤ 65535 }
    ensures { Answers (draft_of bytes.now) result (tokens_at last name (lexemes bytes.now tokens.now)) }
{
    let rest = items(bytes, tokens, last)?;
    let (mut sheet, rest) = columns(alloc, bytes, rest, last)?;
    let rest = sheet.rows(alloc, bytes, rest, last)?;
    let rest = section(bytes, rest, last)?;
    let (quantifier, rest) = quantifier(bytes, rest, last)?;
    let joined = expression(alloc, bytes, rest, last)?;
    Ok(Draft {
        name,
        sheet,
        quantifier,
        joined,
    })
}

/// The locations' names.
fn names(alloc: Global, bytes: &[u8], spans: &[Span]) -> Result<Vec<Name>, NoMemory>
    ensures { IfOk result (λ ns. ns.items ≡ names bytes.now spans.now) }
{
    let mut names = Vec::new(alloc);
    for s in spans {
        names.push(Name::of(alloc, text_at(bytes, *s))?)?;
    }
    Ok(names)
}

/// The test, or the first limit that it passes.
fn test_of(alloc: Global, bytes: &[u8], draft: Draft) -> Result<Test, LitmusError>
    requires { IsFit (draft_of bytes.now draft) }
    ensures { IsMade result (if_within_limits (draft_of bytes.now draft)) }
{
    let Draft {
        name,
        sheet,
        quantifier,
        joined,
    } = draft;
    let Sheet { locations, bodies } = sheet;
    let Joined { atoms, ends } = joined;
    let names = names(alloc, bytes, &locations)?;
    match Test::new(name, names, bodies, quantifier, atoms, ends) {
        Ok(test) => Ok(test),
        Err(limit) => Err(LitmusError::Over(limit)),
    }
}

/// The whole text, before its limits are tested.
#[tactic(auto, unfolding(crate::specs::Reading::sections_at))]
fn read(alloc: Global, bytes: &[u8]) -> Result<Draft, LitmusError>
    requires { length bytes.now ≤ MOST_BYTES }
    ensures { Answers (draft_of bytes.now) result (sections_at bytes.now) }
{
    let last = last_line(bytes);
    let (name, from) = first_line(alloc, bytes)?;
    let line = line_behind(&bytes[..from]);
    let (from, _) = head(bytes, from, line, last)?;
    let tokens = tokens(alloc, bytes, from)?;
    sections(alloc, bytes, name, &tokens, last)
}

/// The whole text, with its limits.
fn tested(alloc: Global, bytes: &[u8]) -> Result<Test, LitmusError>
    requires { length bytes.now ≤ MOST_BYTES }
    ensures { IfAnswered result (λ answer. read_text bytes.now ≡ answer) }
{
    let draft = read(alloc, bytes)?;
    test_of(alloc, bytes, draft)
}

/// Reads a litmus test of at most 65,536 bytes. `Bad` tells the first kind that reading from the front meets, with
/// the number of its line from 1; `Over` tells the first limit that a whole test passes.
pub fn read_litmus(alloc: Global, bytes: &[u8]) -> Result<Test, LitmusError>
    requires few { length bytes.now ≤ MOST_BYTES }
    ensures reads { IfOk result (λ test. Reads bytes.now (Accepted test)) }
    ensures refuses { IfErr result (RefusesText bytes.now) }
    // So each answer comes exactly where the text is read so, unless memory ran out.
    ensures only { IfAnswered result (λ answer. (other : Answer) → Reads bytes.now other → other ≡ answer) }

    ensures ascii_name { IfOk result (λ test. IsAscii test.name) }
    ensures ascii_locations { IfOk result (λ test. All IsAscii test.locations) }
{
    tested(alloc, bytes)
}
