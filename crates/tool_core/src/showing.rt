//! The command `show`: a run in which a conjunction of the condition holds, or why none is given.
ghost use Rattle.std.specs.Prelude.{◌≡◌, ◌<◌, ◌⊎◌, length, IfOk, IfErr, MatchOption, None, Some, option_map, string_bytes};
ghost use Rattle.seq_conv.specs.Numbers.{AreOf};
ghost use Rattle.profile_check.specs.Profile.{profile_of};
ghost use Rattle.verdict.specs.Verdicts.{HasCycle};
ghost use Rattle.decision.specs.Shown.{IsOrdered};
ghost use Rattle.program_edge.specs.Form.{due_for_atoms};
ghost use Rattle.tool_core.specs.Status.{HasToolKind};
ghost use Rattle.tool_core.specs.Showing.{IsFirstShown, IsShowingText, IsShownBy, NoneIsShown, unshown_text_of};

use crate::number_text::number_text;
use crate::reasons::{Unshown, reasons_of, reasons_text};
use crate::status::ToolStatus;
use crate::witnessing::run_text;
use decision::{Shown, is_ordered, show};
use perp_base::NoMemory;
use profile_check::Checked;
use program_edge::check_test;
use report_text::Status;
use run_judge::RunEvent;
use seq_conv::Sequences;
use std::alloc::Global;
use x86_subset::Test;

/// The events that show a conjunction, where it is ordered and has no cycle.
fn events_at(
    alloc: Global,
    checked: &Checked,
    sequences: &Sequences,
    conjunction: u32,
) -> Result<Option<Vec<RunEvent>>, NoMemory>
    requires same { AreOf checked.now.test sequences.now }
    requires there { conjunction < length checked.now.test.ends }
    ensures { IfOk result (λ found. MatchOption found
        (IsOrdered checked.now conjunction → HasCycle checked.now conjunction)
        (λ events. IsShownBy checked.now conjunction events.items)) }
{
    let _test = checked.test();
    if !is_ordered(checked, sequences, conjunction) {
        return Ok(None);
    }
    match show(alloc, checked, sequences, conjunction)? {
        Shown::Run(events) => Ok(Some(events)),
        Shown::Forbidden(_) => Ok(None),
    }
}

/// The events that show the first conjunction that is ordered and has no cycle, if there is one.
fn first_shown(
    alloc: Global,
    checked: &Checked,
    sequences: &Sequences,
) -> Result<Option<Vec<RunEvent>>, NoMemory>
    requires { AreOf checked.now.test sequences.now }
    ensures { IfOk result (λ found. MatchOption found (NoneIsShown checked.now (length checked.now.test.ends))
        (λ events. IsFirstShown checked.now events.items)) }
{
    for c in 0..checked.test().conjunctions() {
        if let Some(events) = events_at(alloc, checked, sequences, c as u32)? {
            return Ok(Some(events));
        }
    }
    Ok(None)
}

fn unshown_text(alloc: Global, unshown: &Unshown) -> Result<String, NoMemory>
    ensures { IfOk result (λ text. string_bytes text ≡ unshown_text_of unshown.now) }
{
    match unshown {
        Unshown::Forbidden(reasons) => reasons_text(alloc, reasons),
        Unshown::Undecided { conjunction } => number_text(
            alloc,
            "Undecided",
            u64::from(*conjunction),
        ),
    }
}

/// The text where no run is shown.
fn none_shown(alloc: Global, checked: &Checked, sequences: &Sequences) -> Result<String, NoMemory>
    requires same { AreOf checked.now.test sequences.now }
    requires none { NoneIsShown checked.now (length checked.now.test.ends) }
    ensures { IfOk result (λ text. IsShowingText checked.now.test (string_bytes text)) }
{
    let _test = checked.test();
    let unshown = reasons_of(alloc, checked, sequences)?;
    unshown_text(alloc, &unshown)
}

/// What is shown of a test whose atoms have kinds.
fn shown(alloc: Global, checked: &Checked) -> Result<String, NoMemory>
    ensures { IfOk result (λ text. IsShowingText checked.now.test (string_bytes text)) }
{
    let sequences = Sequences::of(alloc, checked.test())?;
    match first_shown(alloc, checked, &sequences)? {
        Some(events) => run_text(alloc, 1, &events),
        None => none_shown(alloc, checked, &sequences),
    }
}

/// What is shown of a test; or the refusal that is due for its atoms.
pub fn show_on(alloc: Global, test: Test) -> Result<String, ToolStatus>
    ensures none_due { IfOk result (λ _. option_map ToolStatus.Core (due_for_atoms (profile_of test)) ≡ None) }
    ensures text { IfOk result (λ text. IsShowingText test (string_bytes text)) }
    ensures err { IfErr result (λ status. (status ≡ ToolStatus.Core Status.Memory)
        ⊎ (option_map ToolStatus.Core (due_for_atoms (profile_of test)) ≡ Some status)) }
    ensures kind { IfErr result HasToolKind }
{
    let checked = check_test(alloc, test)?;
    let text = shown(alloc, &checked)?;
    Ok(text)
}
