//! What the values of options say.
ghost use Rattle.std.specs.Prelude.{◌≡◌, ◌≤◌, IfSome, option_map};
ghost use Rattle.std.specs.Char.{is_ascii_digit};
ghost use Rattle.std.specs.List.{list_all};
ghost use Rattle.command_words.specs.Words.{count_named, is_number, number_of, number_within, or_else, order_of, schedule_in, schedule_named};

use crate::job::Count;
use perp_base::Schedule;

fn are_digits(bytes: &[u8]) -> bool
    ensures { result ≡ list_all is_ascii_digit bytes.now }
{
    bytes.iter().all(|b| b.is_ascii_digit())
}

fn is_numeral(text: &str) -> bool
    ensures { result ≡ is_number text.now }
{
    !text.is_empty() && text.len() <= 20 && are_digits(text.as_bytes())
}

/// A number of 64 bits, as the words write it.
pub(crate) fn number(text: &str) -> Option<u64>
    ensures { result ≡ number_of text.now }
{
    if is_numeral(text) {
        text.parse::<u64>().ok()
    } else {
        None
    }
}

/// A number from `least` to `most`.
pub(crate) fn read_within(text: &str, least: u32, most: u32) -> Option<u32>
    ensures read { result ≡ number_within least most text.now }
    ensures least { IfSome result (λ n. least ≤ n) }
    ensures most { IfSome result (λ n. n ≤ most) }
{
    let n = number(text)?;
    if u64::from(least) <= n && n <= u64::from(most) {
        Some(n as u32)
    } else {
        None
    }
}

/// A way to count, by its name.
pub(crate) fn named_count(text: &str) -> Option<Count>
    ensures { result ≡ count_named text.now }
{
    match text {
        "exhaustive" => Some(Count::Exhaustive),
        "heuristic" => Some(Count::Heuristic),
        "both" => Some(Count::Both),
        _ => None,
    }
}

/// A number of 64 bits, or the default where no value is given.
pub(crate) fn number_or(text: Option<&str>, default: u64) -> Option<u64>
    ensures { result ≡ or_else default number_of (option_map (λ s. s.now) text.entry) }
{
    match text {
        None => Some(default),
        Some(text) => number(text),
    }
}

/// A number from `least` to `most`, or the default where no value is given.
pub(crate) fn within_or(text: Option<&str>, default: u32, least: u32, most: u32) -> Option<u32>
    requires least { least ≤ default }
    requires most { default ≤ most }
    ensures read { result ≡ or_else default (number_within least most) (option_map (λ s. s.now) text.entry) }
    ensures least { IfSome result (λ n. least ≤ n) }
    ensures most { IfSome result (λ n. n ≤ most) }
{
    match text {
        None => Some(default),
        Some(text) => read_within(text, least, most),
    }
}

/// A way to count, or the default where no value is given.
pub(crate) fn count_or(text: Option<&str>, default: Count) -> Option<Count>
    ensures { result ≡ or_else default count_named (option_map (λ s. s.now) text.entry) }
{
    match text {
        None => Some(default),
        Some(text) => named_count(text),
    }
}

/// The seed of a schedule, where a value is given.
pub(crate) fn order_in(text: Option<&str>) -> Option<Option<u64>>
    ensures { result ≡ order_of (option_map (λ s. s.now) text.entry) }
{
    match text {
        None => Some(None),
        Some(text) => Some(Some(number(text)?)),
    }
}

/// The schedule of a value: `turns`, or the seed of one.
fn named_schedule(text: &str) -> Option<Schedule>
    ensures { result ≡ schedule_named text.now }
{
    if text == "turns" {
        return Some(Schedule::Turns);
    }
    Some(Schedule::Seeded(number(text)?))
}

/// The schedule, where a value is given.
pub(crate) fn schedule_in(text: Option<&str>) -> Option<Option<Schedule>>
    ensures { result ≡ schedule_in (option_map (λ s. s.now) text.entry) }
{
    match text {
        None => Some(None),
        Some(text) => Some(Some(named_schedule(text)?)),
    }
}
