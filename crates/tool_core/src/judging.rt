//! The command `judge`: whether the events of a section are a legal run of the test.
ghost use Rattle.std.specs.Prelude.{◌≡◌, ◌+◌, ◌<◌, ◌≤◌, ◌^◌, ◌⊎◌, length, map, IfOk, IfErr, None, Some, string_bytes};
ghost use Rattle.run_judge.specs.Judgement.{event_of, judgement_of};
ghost use Rattle.run_text.specs.Events.{events_of};
ghost use Rattle.run_text.specs.Sections.{seen};
ghost use Rattle.tool_core.specs.Due.{due_for_lines};
ghost use Rattle.tool_core.specs.Texts.{IsJudged, fault_word, judgement_line, wrong_line};
ghost use Rattle.perp_base.specs.declared.limits.TheConstants.{MOST_ITERATIONS};

use crate::number_text::number_text;
use crate::status::ToolStatus;
use perp_base::NoMemory;
use report_text::Status;
use run_judge::{JudgeFault, Judgement, RunEvent, judge};
use run_text::{Section, SectionError, events};
use seq_conv::Sequences;
use std::alloc::Global;
use x86_subset::Test;

fn fault_word_of(fault: JudgeFault) -> &'static str
    ensures { result.now ≡ fault_word fault }
{
    match fault {
        JudgeFault::Names => "Names",
        JudgeFault::Order => "Order",
        JudgeFault::NotOldest => "NotOldest",
        JudgeFault::NotEmpty => "NotEmpty",
        JudgeFault::Value => "Value",
        JudgeFault::Short => "Short",
    }
}

#[tactic(auto, unfolding(crate::specs::Texts::wrong_line))]
fn wrong_text(alloc: Global, event: u64, fault: JudgeFault) -> Result<String, NoMemory>
    ensures { IfOk result (λ text. string_bytes text ≡ wrong_line event fault) }
{
    let number = fault.number();
    let word = fault_word_of(fault);
    let text = format!(in alloc; "Wrong {event} kind {number} {word}\n")?;
    Ok(text)
}

/// The line of a judgement of so many events.
fn judgement_text(alloc: Global, count: usize, judgement: &Judgement) -> Result<String, NoMemory>
    ensures { IfOk result (λ text. string_bytes text ≡ judgement_line count judgement.now) }
{
    match judgement {
        Judgement::Legal => number_text(alloc, "Legal", count as u64),
        Judgement::Wrong { event, fault } => wrong_text(alloc, *event, *fault),
    }
}

/// The judgement of events.
fn judged(alloc: Global, test: &Test, n: u32, events: &[RunEvent]) -> Result<String, NoMemory>
    requires { n ≤ MOST_ITERATIONS }
    ensures { IfOk result (λ text. string_bytes text
        ≡ judgement_line (length events.now) (judgement_of test.now n (map event_of events.now))) }
{
    let sequences = Sequences::of(alloc, test)?;
    let judgement = judge(alloc, test, &sequences, n, events)?;
    judgement_text(alloc, events.len(), &judgement)
}

/// The judgement of the events of a section; or the first line that is no event.
pub fn judge_section(
    alloc: Global,
    test: &Test,
    section: &Section<'_>,
) -> Result<String, ToolStatus>
    requires iterations { section.now.iterations ≤ MOST_ITERATIONS }
    requires short { section.now.line + length section.now.lines.now < 2 ^ 32 }
    ensures none_due { IfOk result (λ _. due_for_lines (events_of (seen section.now).line (seen section.now).lines)
        ≡ None) }
    ensures text { IfOk result (λ text. IsJudged test.now (seen section.now) (string_bytes text)) }
    ensures err { IfErr result (λ status. (status ≡ ToolStatus.Core Status.Memory)
        ⊎ (due_for_lines (events_of (seen section.now).line (seen section.now).lines) ≡ Some status)) }
{
    let events = match events(alloc, section) {
        Ok(events) => events,
        Err(SectionError::Bad { line }) => return Err(ToolStatus::BadLine { line }),
        Err(SectionError::Memory) => return Err(ToolStatus::Core(Status::Memory)),
    };
    let text = judged(alloc, test, section.iterations, &events)?;
    Ok(text)
}
