//! The command `replay`: the run of a schedule.
ghost use Rattle.std.specs.Prelude.{◌≡◌, ◌⊎◌, IfErr, IfOk, None, Some, string_bytes};
ghost use Rattle.tool_core.specs.Due.{due_for_events};
ghost use Rattle.tool_core.specs.Replaying.{AreOfSchedule, IsReplayText};
ghost use Rattle.tool_core.specs.Status.{HasToolKind};

use crate::status::ToolStatus;
use crate::witnessing::run_text;
use crate::writers::events_refusal;
use command_words::ReplayJob;
use perp_base::NoMemory;
use replay_run::run_of_schedule;
use report_text::Status;
use run_judge::RunEvent;
use seq_conv::Sequences;
use std::alloc::Global;
use x86_subset::Test;

/// The events of the run of the schedule.
fn events_of(alloc: Global, test: &Test, job: &ReplayJob) -> Result<Vec<RunEvent>, NoMemory>
    ensures { IfOk result (λ events. AreOfSchedule test.now job.now events.items) }
{
    let sequences = Sequences::of(alloc, test)?;
    run_of_schedule(alloc, test, &sequences, &job.options, job.schedule)
}

/// The text of the run of the schedule.
fn replay_text(alloc: Global, test: &Test, job: &ReplayJob) -> Result<String, NoMemory>
    ensures { IfOk result (λ text. IsReplayText test.now job.now (string_bytes text)) }
{
    let events = events_of(alloc, test, job)?;
    run_text(alloc, job.options.iterations, &events)
}

/// Tells the run of the schedule, which one thread makes with no field; or the refusal that is due for the test.
pub fn replay_on(alloc: Global, test: &Test, job: &ReplayJob) -> Result<String, ToolStatus>
    ensures none_due { IfOk result (λ _. due_for_events test.now job.now.options.iterations ≡ None) }
    ensures text { IfOk result (λ text. IsReplayText test.now job.now (string_bytes text)) }
    ensures err { IfErr result (λ status. (status ≡ ToolStatus.Core Status.Memory)
        ⊎ (due_for_events test.now job.now.options.iterations ≡ Some status)) }
    ensures kind { IfErr result HasToolKind }
{
    if let Some(status) = events_refusal(test, job.options.iterations) {
        return Err(status);
    }
    let text = replay_text(alloc, test, job)?;
    Ok(text)
}
