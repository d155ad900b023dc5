//! The line that a status writes on the error sink. It takes no memory.
ghost use Rattle.std.specs.Prelude.{◌≡◌, ◌<◌, ◌≤◌, ◌+◌, ◌++◌, length, decimal};
ghost use Rattle.arrayvec.specs.ArrayString.{array_string_len};
ghost use Rattle.report_text.specs.Status.{HasKind, litmus_word, profile_word, limit_text, kind_text, refusal_of, line_of};

use crate::{Over, Status};
use arrayvec::ArrayString;
use itoa::Buffer;
use std::marker::Model;

/// A text of at most 128 bytes, which contracts see as the list of its bytes.
#[derive(Drop)]
pub struct Line {
    text: ArrayString<128>,
}

impl Model for Line {
    ghost use Rattle.std.specs.Prelude.{ℕ, List};

    ghost Value = { List ℕ };

    ghost view = { λ line. line.text.bytes };
}

impl Line {
    /// The line of a text, with its end.
    pub fn of_text(text: &str) -> Line
        requires { length text.now ≤ 128 }
        ensures { result ≡ text.now }
    {
        let mut line = ArrayString::new();
        line.push_str(text);
        Line { text: line }
    }

    /// The line of a number between two texts, the second with the line's end.
    pub fn of_number(before: &str, number: u32, after: &str) -> Line
        requires before { length before.now ≤ 40 }
        requires after { length after.now ≤ 40 }
        ensures { result ≡ before.now ++ decimal number ++ after.now }
    {
        let mut line = ArrayString::new();
        line.push_str(before);
        push_number(&mut line, number);
        line.push_str(after);
        Line { text: line }
    }

    /// The bytes of the line, at most 128.
    pub fn bytes(&self) -> &[u8]
        ensures value { result.now ≡ self.now }
        ensures most { length result.now ≤ 128 }
    {
        self.text.as_str().as_bytes()
    }
}

/// Adds a number, which has at most ten digits.
fn push_number(text: &mut ArrayString<128>, n: u32)
    requires { array_string_len text.old ≤ 118 }
    ensures bytes { text.new.bytes ≡ text.old.bytes ++ decimal n }
    ensures most { array_string_len text.new ≤ array_string_len text.old + 10 }
{
    text.push_str(Buffer::new().format(n));
}

fn litmus_word_of(kind: u8) -> &'static str
    requires low { 0 < kind }
    requires high { kind ≤ 12 }
    ensures word { result.now ≡ litmus_word kind }
    ensures most { length result.now ≤ 15 }
{
    match kind {
        1 => "NotX86",
        2 => "Header",
        3 => "Initial",
        4 => "NonZeroInitial",
        5 => "Column",
        6 => "Instruction",
        7 => "NotConstant",
        8 => "Condition",
        9 => "Forall",
        10 => "MemoryCondition",
        11 => "Disjunction",
        _ => "Trailing",
    }
}

fn profile_word_of(kind: u8) -> &'static str
    requires low { 0 < kind }
    requires high { kind ≤ 8 }
    ensures word { result.now ≡ profile_word kind }
    ensures most { length result.now ≤ 15 }
{
    match kind {
        1 => "NoSuchThread",
        2 => "NotLoaded",
        3 => "NoStore",
        4 => "Ambiguous",
        5 => "ZeroStored",
        6 => "NoWriter",
        7 => "SeveralWriters",
        _ => "OwnWriter",
    }
}

fn limit_text_of(over: Over) -> &'static str
    ensures text { result.now ≡ limit_text over }
    ensures most { length result.now ≤ 20 }
{
    match over {
        Over::Input => "input 65536",
        Over::Threads => "threads 8",
        Over::Locations => "locations 16",
        Over::Instructions => "instructions 16",
        Over::Atoms => "atoms 32",
        Over::Frames => "frames 4294967296",
    }
}

/// Adds a place, its number, a kind and the kind's word.
#[tactic(auto, unfolding(crate::specs::Status::kind_text))]
fn push_kind(text: &mut ArrayString<128>, place: &str, at: u32, kind: u8, word: &str)
    requires place { length place.now ≤ 20 }
    requires word { length word.now ≤ 15 }
    requires room { array_string_len text.old ≤ 20 }
    ensures bytes { text.new.bytes ≡ text.old.bytes ++ kind_text place.now at kind word.now }
    ensures most { array_string_len text.new ≤ 100 }
{
    text.push_str(place);
    push_number(text, at);
    text.push_str(": kind ");
    push_number(text, u32::from(kind));
    text.push_str(" ");
    text.push_str(word);
}

/// Adds what a status says.
fn push_refusal(text: &mut ArrayString<128>, status: &Status)
    requires kind { HasKind status.now }
    requires room { array_string_len text.old ≤ 20 }
    ensures bytes { text.new.bytes ≡ text.old.bytes ++ refusal_of status.now }
    ensures most { array_string_len text.new ≤ 100 }
{
    match status {
        Status::Whole => {}
        Status::Memory => text.push_str("out of memory"),
        Status::Usage => text.push_str("usage: perple COMMAND [N] [OPTIONS]"),
        Status::ReadFault => text.push_str("reading failed"),
        Status::WriteFault => text.push_str("writing failed"),
        Status::NotLitmus { kind, line } => {
            push_kind(text, "line ", *line, *kind, litmus_word_of(*kind));
        }
        Status::OutsideProfile { atom, kind } => {
            push_kind(text, "atom ", *atom, *kind, profile_word_of(*kind));
        }
        Status::Limit(over) => {
            text.push_str("limit ");
            text.push_str(limit_text_of(*over));
        }
    }
}

/// The line of a status for the error sink, with its end, or no byte for `Whole`. It takes no memory.
#[tactic(auto, unfolding(crate::specs::Status::line_of))]
pub fn refusal_text(status: &Status) -> Line
    requires { HasKind status.now }
    ensures { result ≡ line_of status.now }
{
    let mut text = ArrayString::new();
    if let Status::Whole = status {
        return Line { text };
    }
    text.push_str("perple: ");
    push_refusal(&mut text, status);
    text.push_str("\n");
    Line { text }
}
