//! The report of a run or a replay, and that of a count, a function for each kind of line.
ghost use Rattle.std.specs.Prelude.{◌≡◌, ◌⊎◌, ◌↔◌, ◌++◌, OnOk, IfOk, IsSome, string_bytes, option_map};
ghost use Rattle.std.specs.Str.{IsAscii};
ghost use Rattle.report_text.specs.Report.{rows_of, condition_line, asked_line, entries_text, hit_line, hit_lines, heuristic_lines, is_seen, seen_line, head_lines, count_lines, report_of, count_report_of};

use crate::rows::{CountReport, Report};
use crate::words::{push_number, push_test};
use perp_base::{Frame, Name, NoMemory};
use std::alloc::Global;
use std::fmt::Write;

#[tactic(auto, unfolding(crate::specs::Report::condition_line))]
fn push_condition(out: &mut String, negated: bool, atoms: u32) -> Result<(), NoMemory>
    ensures { OnOk result (string_bytes out.new ≡ string_bytes out.old ++ condition_line negated atoms) }
{
    let word = if negated { "~exists" } else { "exists" };
    write!(out, "Condition {word} {atoms}\n")?;
    Ok(())
}

#[tactic(auto, unfolding(crate::specs::Report::asked_line))]
fn push_asked(out: &mut String, word: &str, count: Option<u64>) -> Result<(), NoMemory>
    ensures { OnOk result (string_bytes out.new ≡ string_bytes out.old ++ asked_line word.now count) }
{
    match count {
        None => Ok(()),
        Some(n) => push_number(out, word, n),
    }
}

#[tactic(auto, unfolding(crate::specs::Report::entries_text))]
fn push_entries(out: &mut String, frame: &Frame) -> Result<(), NoMemory>
    ensures { OnOk result (string_bytes out.new ≡ string_bytes out.old ++ entries_text frame.now) }
{
    for thread in 0..frame.len() {
        let n = frame.at(thread);
        write!(out, " {n}")?;
    }
    Ok(())
}

#[tactic(auto, unfolding(crate::specs::Report::hit_line))]
fn push_hit(out: &mut String, frame: &Frame) -> Result<(), NoMemory>
    ensures { OnOk result (string_bytes out.new ≡ string_bytes out.old ++ hit_line frame.now) }
{
    out.push_str("Hit")?;
    push_entries(out, frame)?;
    out.push_str("\n")?;
    Ok(())
}

#[tactic(auto, unfolding(crate::specs::Report::hit_lines))]
fn push_hits(out: &mut String, hits: &[Frame], show: bool) -> Result<(), NoMemory>
    ensures { OnOk result (string_bytes out.new ≡ string_bytes out.old ++ hit_lines show hits.now) }
{
    if show {
        for frame in hits {
            push_hit(out, frame)?;
        }
    }
    Ok(())
}

#[tactic(auto, unfolding(crate::specs::Report::heuristic_lines))]
fn push_heuristic(out: &mut String, hits: &Option<Vec<Frame>>, show: bool) -> Result<(), NoMemory>
    ensures { OnOk result (string_bytes out.new ≡ string_bytes out.old
        ++ heuristic_lines show (option_map (λ v. v.items) hits.now)) }
{
    match hits {
        None => Ok(()),
        Some(hits) => {
            push_number(out, "Heuristic", hits.len() as u64)?;
            push_hits(out, hits, show)
        }
    }
}

#[tactic(auto, unfolding(crate::specs::Report::seen_line))]
fn push_seen(out: &mut String, seen: bool) -> Result<(), NoMemory>
    ensures { OnOk result (string_bytes out.new ≡ string_bytes out.old ++ seen_line seen) }
{
    let word = if seen { "yes" } else { "no" };
    write!(out, "Seen {word}\n")?;
    Ok(())
}

#[tactic(auto, unfolding(crate::specs::Report::head_lines))]
fn push_head(
    out: &mut String,
    name: &Name,
    threads: u32,
    iterations: u32,
    negated: bool,
    atoms: u32,
) -> Result<(), NoMemory>
    requires { IsAscii name.now }
    ensures { OnOk result (string_bytes out.new ≡ string_bytes out.old
        ++ head_lines name.now threads iterations negated atoms) }
{
    push_test(out, name)?;
    push_number(out, "Threads", u64::from(threads))?;
    push_number(out, "Iterations", u64::from(iterations))?;
    push_condition(out, negated, atoms)
}

#[tactic(auto, unfolding(crate::specs::Report::count_lines))]
fn push_counts(out: &mut String, rows: &Report) -> Result<(), NoMemory>
    ensures { OnOk result (string_bytes out.new ≡ string_bytes out.old ++ count_lines (rows_of rows.now)) }
{
    push_asked(out, "Frames", rows.frames)?;
    push_asked(out, "Exhaustive", rows.exhaustive)?;
    push_heuristic(out, &rows.hits, rows.show_hits)
}

fn was_seen(rows: &Report) -> bool
    ensures { result ≡ is_seen rows.now.exhaustive (rows_of rows.now).hits }
{
    match (rows.exhaustive, &rows.hits) {
        (Some(count), _) => count > 0,
        (None, Some(hits)) => hits.len() > 0,
        (None, None) => false,
    }
}

/// The text of a report. The number of frames stands where the exhaustive count does, and at least one count stands.
#[tactic(auto, unfolding(crate::specs::Report::report_of))]
pub fn report(alloc: Global, rows: &Report) -> Result<String, NoMemory>
    requires ascii { IsAscii rows.now.name }
    requires frames { IsSome rows.now.frames ↔ IsSome rows.now.exhaustive }
    requires counted { IsSome rows.now.exhaustive ⊎ IsSome rows.now.hits }
    ensures { IfOk result (λ text. string_bytes text ≡ report_of (rows_of rows.now)) }
{
    let mut out = String::new(alloc);
    push_head(
        &mut out,
        &rows.name,
        rows.threads,
        rows.iterations,
        rows.negated,
        rows.atoms,
    )?;
    push_counts(&mut out, rows)?;
    push_seen(&mut out, was_seen(rows))?;
    Ok(out)
}

/// The text of the report of a count.
#[tactic(auto, unfolding(crate::specs::Report::count_report_of))]
pub fn count_report(alloc: Global, rows: &CountReport) -> Result<String, NoMemory>
    requires ascii { IsAscii rows.now.name }
    ensures { IfOk result (λ text. string_bytes text ≡ count_report_of rows.now) }
{
    let mut out = String::new(alloc);
    push_head(
        &mut out,
        &rows.name,
        rows.threads,
        rows.iterations,
        rows.negated,
        rows.atoms,
    )?;
    push_number(&mut out, "Frames", rows.frames)?;
    push_number(&mut out, "Within", rows.within)?;
    push_seen(&mut out, rows.within > 0)?;
    Ok(out)
}
