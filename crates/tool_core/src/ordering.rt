//! The command `order`: a run of x86-TSO that has the logs of a section, or why there is none.
ghost use Rattle.std.specs.Prelude.{◌≡◌, ◌+◌, ◌<◌, ◌≤◌, ◌^◌, ◌⊎◌, All, codes, length, map, IfOk, IfErr, None, Some, string_bytes};
ghost use Rattle.std.specs.List.{range_with_len};
ghost use Rattle.x86_subset.specs.Test.{columns_of};
ghost use Rattle.seq_conv.specs.Numbers.{AreOf};
ghost use Rattle.run_text.specs.Sections.{seen};
ghost use Rattle.run_witness.specs.Order.{AreLogsFor, HasWriters};
ghost use Rattle.tool_core.specs.Due.{due_for_test};
ghost use Rattle.tool_core.specs.Status.{HasToolKind};
ghost use Rattle.tool_core.specs.Texts.{IsOrderOf, IsOrdered, no_order_line, order_text_of, wrong_value_line};
ghost use Rattle.tool_core.specs.declared.words.Command.{Command};
ghost use Rattle.perp_base.specs.declared.limits.TheConstants.{MOST_ACTIONS, MOST_ITERATIONS};

use crate::status::ToolStatus;
use crate::witnessing::run_text;
use crate::writers::witness_refusal;
use load_log::Logs;
use perp_base::NoMemory;
use report_text::Status;
use run_text::{Section, SectionError, read_logs};
use run_witness::{Found, witness};
use seq_conv::Sequences;
use std::alloc::Global;
use std::fmt::Write;
use x86_subset::Test;

/// How many columns each thread's log has.
fn columns_in(alloc: Global, test: &Test) -> Result<Vec<usize>, NoMemory>
    ensures columns { IfOk result (λ v. v.items ≡ map (columns_of test.now)
        (range_with_len 0 (length test.now.bodies))) }
    ensures few { IfOk result (λ v. All (λ c. c ≤ MOST_ACTIONS) v.items) }
{
    let mut columns = Vec::new(alloc);
    for t in 0..test.threads() {
        columns.push(test.columns(t))?;
    }
    Ok(columns)
}

#[tactic(auto, unfolding(crate::specs::Texts::wrong_value_line))]
fn wrong_value_text(
    alloc: Global,
    thread: u32,
    iteration: u32,
    column: u32,
) -> Result<String, NoMemory>
    ensures { IfOk result (λ text. string_bytes text ≡ wrong_value_line thread iteration column) }
{
    let mut out = String::new(alloc);
    write!(out, "No order value {thread} {iteration}")?;
    write!(out, " {column}\n")?;
    Ok(out)
}

fn no_order_text(alloc: Global) -> Result<String, NoMemory>
    ensures { IfOk result (λ text. string_bytes text ≡ no_order_line) }
{
    let text = String::from_str(alloc, "No order cycle\n")?;
    Ok(text)
}

fn found_text(alloc: Global, n: u32, found: &Found) -> Result<String, NoMemory>
    ensures { IfOk result (λ text. string_bytes text ≡ order_text_of n found.now) }
{
    match found {
        Found::Run(events) => run_text(alloc, n, events),
        Found::WrongValue {
            thread,
            iteration,
            column,
        } => wrong_value_text(alloc, *thread, *iteration, *column),
        Found::Cycle(_) => no_order_text(alloc),
    }
}

/// What is found from logs.
fn order_text(
    alloc: Global,
    test: &Test,
    sequences: &Sequences,
    n: u32,
    logs: &Logs,
) -> Result<String, NoMemory>
    requires sequences { AreOf test.now sequences.now }
    requires writers { HasWriters test.now }
    requires logs { AreLogsFor test.now n logs.now.logs }
    requires few { n ≤ MOST_ITERATIONS }
    ensures { IfOk result (λ text. IsOrderOf test.now n logs.now.logs (string_bytes text)) }
{
    let found = witness(alloc, test, sequences, n, logs)?;
    found_text(alloc, n, &found)
}

/// A run that has the logs of a section, or why there is none; or the refusal that is due for the test and the section.
pub fn order_section(
    alloc: Global,
    test: &Test,
    section: &Section<'_>,
) -> Result<String, ToolStatus>
    requires iterations { section.now.iterations ≤ MOST_ITERATIONS }
    requires line { 1 ≤ section.now.line }
    requires short { section.now.line + length section.now.lines.now < 2 ^ 32 }
    ensures none_due { IfOk result (λ _. due_for_test Command.Order test.now (seen section.now) ≡ None) }
    ensures text { IfOk result (λ text. IsOrdered test.now (seen section.now) (string_bytes text)) }
    ensures err { IfErr result (λ status. (status ≡ ToolStatus.Core Status.Memory)
        ⊎ (due_for_test Command.Order test.now (seen section.now) ≡ Some status)) }
    ensures kind { IfErr result HasToolKind }
{
    let sequences = Sequences::of(alloc, test)?;
    if let Some(status) = witness_refusal(test, &sequences, section.iterations) {
        return Err(status);
    }
    let columns = columns_in(alloc, test)?;
    let logs = match read_logs(alloc, &columns, section) {
        Ok(logs) => logs,
        Err(SectionError::Bad { line }) => return Err(ToolStatus::BadLine { line }),
        Err(SectionError::Memory) => return Err(ToolStatus::Core(Status::Memory)),
    };
    let text = order_text(alloc, test, &sequences, section.iterations, &logs)?;
    Ok(text)
}
