//! Why a conjunction of the condition never holds, for the command `show`.
ghost use Rattle.std.specs.Prelude.{◌≡◌, ◌++◌, ◌<◌, codes, length, IfOk, MatchOption, OnOk, string_bytes};
ghost use Rattle.seq_conv.specs.Numbers.{AreOf};
ghost use Rattle.tool_core.specs.Showing.{IsOpen, IsReason, IsUnshown, hidden_line, reason_line, reason_lines, reasons_text};

use crate::verdicts::{push_cycle, push_node};
use decision::{HiddenRead, hidden_read};
use perp_base::NoMemory;
use profile_check::Checked;
use seq_conv::Sequences;
use std::alloc::Global;
use std::fmt::Write;
use verdict::{Node, cycle_in};

/// Why a conjunction never holds.
#[derive(Drop)]
pub enum Reason {
    /// A cycle of its edges.
    Cycle(Vec<Node>),
    /// An atom names a store of the reader's own thread that is hidden from the read.
    Hidden(HiddenRead),
}

/// What is said where no run is shown.
#[derive(Drop)]
pub enum Unshown {
    /// A reason for each conjunction, in order.
    Forbidden(Vec<Reason>),
    /// The first conjunction, from 0, for which there is none.
    Undecided { conjunction: u32 },
}

// The reason for a conjunction: a cycle, or else a hidden store.
fn reason_for(
    alloc: Global,
    checked: &Checked,
    sequences: &Sequences,
    conjunction: u32,
) -> Result<Option<Reason>, NoMemory>
    requires same { AreOf checked.now.test sequences.now }
    requires there { conjunction < length checked.now.test.ends }
    ensures { IfOk result (λ found. MatchOption found (IsOpen checked.now conjunction)
        (IsReason checked.now conjunction)) }
{
    match cycle_in(alloc, checked, sequences, conjunction as usize)? {
        Some(cycle) => Ok(Some(Reason::Cycle(cycle))),
        None => match hidden_read(checked, sequences, conjunction) {
            Some(read) => Ok(Some(Reason::Hidden(read))),
            None => Ok(None),
        },
    }
}

/// A reason for each conjunction, or the first conjunction for which there is none. The sequences are those of the
/// test.
pub fn reasons_of(
    alloc: Global,
    checked: &Checked,
    sequences: &Sequences,
) -> Result<Unshown, NoMemory>
    requires { AreOf checked.now.test sequences.now }
    ensures { IfOk result (IsUnshown checked.now) }
{
    let mut reasons = Vec::new(alloc);
    for c in 0..checked.test().conjunctions() {
        match reason_for(alloc, checked, sequences, c as u32)? {
            Some(reason) => reasons.push(reason)?,
            None => {
                return Ok(Unshown::Undecided {
                    conjunction: c as u32,
                });
            }
        }
    }
    Ok(Unshown::Forbidden(reasons))
}

// The line of a hidden store and its read.
#[tactic(auto, unfolding(crate::specs::Showing::hidden_line))]
fn push_hidden(out: &mut String, conjunction: usize, hidden: HiddenRead) -> Result<(), NoMemory>
    ensures { OnOk result (string_bytes out.new ≡ string_bytes out.old ++ hidden_line conjunction hidden) }
{
    write!(out, "Hidden {conjunction}")?;
    push_node(out, hidden.store)?;
    push_node(out, hidden.read)?;
    out.push_str("\n")?;
    Ok(())
}

// The line of the reason of a conjunction.
fn push_reason(out: &mut String, conjunction: usize, reason: &Reason) -> Result<(), NoMemory>
    ensures { OnOk result (string_bytes out.new ≡ string_bytes out.old ++ reason_line conjunction reason.now) }
{
    match reason {
        Reason::Cycle(nodes) => push_cycle(out, conjunction, nodes),
        Reason::Hidden(hidden) => push_hidden(out, conjunction, *hidden),
    }
}

fn push_reasons(out: &mut String, reasons: &[Reason]) -> Result<(), NoMemory>
    ensures { OnOk result (string_bytes out.new ≡ string_bytes out.old ++ reason_lines 0 reasons.now) }
{
    for (i, reason) in reasons.iter().enumerate() {
        push_reason(out, i, reason)?;
    }
    Ok(())
}

/// The text where there is a reason for each conjunction.
#[tactic(auto, unfolding(crate::specs::Showing::reasons_text))]
pub fn reasons_text(alloc: Global, reasons: &[Reason]) -> Result<String, NoMemory>
    ensures { IfOk result (λ text. string_bytes text ≡ reasons_text reasons.now) }
{
    let mut out = String::new(alloc);
    out.push_str("Forbidden\n")?;
    push_reasons(&mut out, reasons)?;
    Ok(out)
}
