//! The command `verdict`: a cycle for each conjunction of the condition, or the first conjunction that has none.
ghost use Rattle.std.specs.Prelude.{◌≡◌, ◌++◌, ◌⊎◌, map, IfOk, IfErr, OnOk, None, Some, option_map, string_bytes};
ghost use Rattle.std.specs.List.{flat_map};
ghost use Rattle.profile_check.specs.Profile.{profile_of};
ghost use Rattle.program_edge.specs.Form.{due_for_atoms};
ghost use Rattle.tool_core.specs.Status.{HasToolKind};
ghost use Rattle.tool_core.specs.Texts.{IsVerdictText, cycle_line, cycle_lines, forbidden_text, node_text, verdict_text_of};

use crate::number_text::number_text;
use crate::status::ToolStatus;
use perp_base::NoMemory;
use profile_check::Checked;
use program_edge::check_test;
use report_text::Status;
use seq_conv::Sequences;
use std::alloc::Global;
use std::fmt::Write;
use verdict::{Node, Verdict, verdict};
use x86_subset::Test;

/// A node's thread and place.
#[tactic(auto, unfolding(crate::specs::Texts::node_text))]
pub fn push_node(out: &mut String, node: Node) -> Result<(), NoMemory>
    ensures { OnOk result (string_bytes out.new ≡ string_bytes out.old ++ node_text node) }
{
    let thread = node.thread;
    let place = node.place;
    write!(out, " P{thread} {place}")?;
    Ok(())
}

fn push_nodes(out: &mut String, nodes: &[Node]) -> Result<(), NoMemory>
    ensures { OnOk result (string_bytes out.new ≡ string_bytes out.old ++ flat_map node_text nodes.now) }
{
    for node in nodes {
        push_node(out, *node)?;
    }
    Ok(())
}

/// The line of the cycle of a conjunction.
#[tactic(auto, unfolding(crate::specs::Texts::cycle_line))]
pub fn push_cycle(out: &mut String, conjunction: usize, nodes: &[Node]) -> Result<(), NoMemory>
    ensures { OnOk result (string_bytes out.new ≡ string_bytes out.old ++ cycle_line conjunction nodes.now) }
{
    write!(out, "Cycle {conjunction}")?;
    push_nodes(out, nodes)?;
    out.push_str("\n")?;
    Ok(())
}

fn push_cycles(out: &mut String, cycles: &[Vec<Node>]) -> Result<(), NoMemory>
    ensures { OnOk result (string_bytes out.new ≡ string_bytes out.old
        ++ cycle_lines 0 (map (λ c. c.items) cycles.now)) }
{
    for (i, nodes) in cycles.iter().enumerate() {
        push_cycle(out, i, nodes)?;
    }
    Ok(())
}

// The text where each conjunction has a cycle.
#[tactic(auto, unfolding(crate::specs::Texts::forbidden_text))]
fn cycles_text(alloc: Global, cycles: &[Vec<Node>]) -> Result<String, NoMemory>
    ensures { IfOk result (λ text. string_bytes text ≡ forbidden_text (map (λ c. c.items) cycles.now)) }
{
    let mut out = String::new(alloc);
    out.push_str("Forbidden\n")?;
    push_cycles(&mut out, cycles)?;
    Ok(out)
}

fn verdict_text(alloc: Global, verdict: &Verdict) -> Result<String, NoMemory>
    ensures { IfOk result (λ text. string_bytes text ≡ verdict_text_of verdict.now) }
{
    match verdict {
        Verdict::Forbidden(cycles) => cycles_text(alloc, cycles),
        Verdict::Open { conjunction } => number_text(alloc, "Open", u64::from(*conjunction)),
    }
}

/// The verdict on a test whose atoms have kinds.
fn said(alloc: Global, checked: &Checked) -> Result<String, NoMemory>
    ensures { IfOk result (λ text. IsVerdictText checked.now.test (string_bytes text)) }
{
    let sequences = Sequences::of(alloc, checked.test())?;
    let verdict = verdict(alloc, checked, &sequences)?;
    verdict_text(alloc, &verdict)
}

/// The verdict on a test; or the refusal that is due for its atoms.
pub fn verdict_on(alloc: Global, test: Test) -> Result<String, ToolStatus>
    ensures none_due { IfOk result (λ _. option_map ToolStatus.Core (due_for_atoms (profile_of test)) ≡ None) }
    ensures text { IfOk result (λ text. IsVerdictText test (string_bytes text)) }
    ensures err { IfErr result (λ status. (status ≡ ToolStatus.Core Status.Memory)
        ⊎ (option_map ToolStatus.Core (due_for_atoms (profile_of test)) ≡ Some status)) }
    ensures kind { IfErr result HasToolKind }
{
    let checked = check_test(alloc, test)?;
    let text = said(alloc, &checked)?;
    Ok(text)
}
