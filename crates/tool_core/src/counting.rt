//! The command `count`: in how many frames of a run the condition holds within the frame, so that each frame that is
//! counted is an outcome of the test.
ghost use Rattle.std.specs.Prelude.{◌≡◌, ◌≤◌, ◌⊎◌, IfErr, IfOk, IfSome, IsSome, List, None, OnErr, Some, string_bytes};
ghost use Rattle.std.specs.Str.{IsAscii};
ghost use Rattle.command_words.specs.Job.{IsWithin};
ghost use Rattle.perp_base.specs.declared.limits.TheConstants.{MOST_FRAMES};
ghost use Rattle.tso_machine.specs.Event.{Event};
ghost use Rattle.program_edge.specs.Field.{HasLogs, IsStill, SomeRunFits};
ghost use Rattle.tool_core.specs.Counters.{AreCountersOf, AreOfSomeRun};
ghost use Rattle.tool_core.specs.Counting.{IsCountText, RanAs, count_rows_of, count_text_of, frame_count_of, run_options, within_count_of};
ghost use Rattle.tool_core.specs.Due.{due_for_count, due_for_frames};
ghost use Rattle.tool_core.specs.Status.{HasToolKind};

use crate::counters::Counters;
use crate::status::ToolStatus;
use command_words::CountJob;
use frame_count::{count, frames};
use load_log::Logs;
use perp_base::{Name, NoMemory, Schedule};
use perp_loop::Gate;
use profile_check::Checked;
use program_edge::{Answered, Ran, check_test, is_negated, replay_test, run_test};
use report_text::{CountReport, Over, Status, count_report};
use std::alloc::Global;
use std::thread::Threads;
use tso_words::Field;
use x86_subset::Test;

/// In how many frames of each run that has these logs the condition holds within the frame.
fn within<R: Threads + Sync>(
    rt: &R,
    job: &CountJob,
    checked: &Checked,
    counters: &Counters,
    logs: &Logs,
) -> u64
    requires few { frame_count_of checked.now.test job.now.options ≤ MOST_FRAMES }
    requires counters { AreCountersOf checked.now counters.now }
    requires logs { AreOfSomeRun checked.now.test job.now.options logs.now.logs }
    ensures { (run : List Event) → HasLogs checked.now.test job.now.options.iterations run logs.now.logs
        → result ≡ within_count_of checked.now job.now.options run }
{
    let test = checked.test();
    count(
        rt,
        &counters.conds,
        logs,
        job.options.iterations,
        test.threads(),
        job.cut,
    )
}

/// What is reported of each run that has these logs.
fn rows<R: Threads + Sync>(
    rt: &R,
    alloc: Global,
    job: &CountJob,
    checked: &Checked,
    counters: &Counters,
    logs: &Logs,
    frames: u64,
) -> Result<CountReport, NoMemory>
    requires frames { frames ≡ frame_count_of checked.now.test job.now.options }
    requires few { frames ≤ MOST_FRAMES }
    requires counters { AreCountersOf checked.now counters.now }
    requires logs { AreOfSomeRun checked.now.test job.now.options logs.now.logs }
    ensures name { IfOk result (λ rows. rows.name ≡ checked.now.test.name) }
    ensures rows { IfOk result (λ rows. (run : List Event) → HasLogs checked.now.test job.now.options.iterations run logs.now.logs
        → rows ≡ count_rows_of checked.now.test job.now.options (within_count_of checked.now job.now.options run)) }
{
    let test = checked.test();
    let name = Name::of(alloc, test.name().bytes())?;
    Ok(CountReport {
        name,
        threads: test.threads() as u32,
        iterations: job.options.iterations,
        negated: is_negated(test.quantifier()),
        atoms: test.atoms().len() as u32,
        frames,
        within: within(rt, job, checked, counters, logs),
    })
}

/// The report of each run that has these logs.
fn report<R: Threads + Sync>(
    rt: &R,
    alloc: Global,
    job: &CountJob,
    checked: &Checked,
    counters: &Counters,
    logs: &Logs,
    frames: u64,
) -> Result<String, NoMemory>
    requires ascii { IsAscii checked.now.test.name }
    requires frames { frames ≡ frame_count_of checked.now.test job.now.options }
    requires few { frames ≤ MOST_FRAMES }
    requires counters { AreCountersOf checked.now counters.now }
    requires logs { AreOfSomeRun checked.now.test job.now.options logs.now.logs }
    ensures { IfOk result (λ text. (run : List Event) → HasLogs checked.now.test job.now.options.iterations run logs.now.logs
        → string_bytes text ≡ count_text_of checked.now job.now.options run) }
{
    let rows = rows(rt, alloc, job, checked, counters, logs, frames)?;
    count_report(alloc, &rows)
}

/// The text of a run that the threads make on the field. All memory that they need is taken before their first step.
fn run_text<R: Threads + Sync, G: Gate>(
    rt: &R,
    alloc: Global,
    job: &CountJob,
    checked: &Checked,
    frames: u64,
    field: Field,
    gate: &G,
) -> Answered<NoMemory>
    requires threads { job.now.order ≡ None }
    requires ascii { IsAscii checked.now.test.name }
    requires frames { frames ≡ frame_count_of checked.now.test job.now.options }
    requires few { frames ≤ MOST_FRAMES }
    ensures identity { result.done.identity ≡ field }
    ensures ok { IfOk result.text (λ text. IsCountText checked.now.test job.now result.done (string_bytes text)) }
    ensures err { OnErr result.text (IsStill result.done ⊎ SomeRunFits checked.now.test job.now.options result.done) }
{
    let counters = match Counters::of(alloc, checked) {
        Ok(counters) => counters,
        Err(refused) => return Answered::still(Err(refused), field),
    };
    let test = checked.test();
    let Ran { done, logs } = run_test(
        rt,
        alloc,
        test,
        &counters.sequences,
        &job.options,
        field,
        gate,
    );
    match logs {
        Ok(logs) => Answered {
            text: report(rt, alloc, job, checked, &counters, &logs, frames),
            done,
        },
        Err(refused) => Answered {
            text: Err(refused),
            done,
        },
    }
}

/// The text of the run of a schedule.
fn replay_text<R: Threads + Sync>(
    rt: &R,
    alloc: Global,
    job: &CountJob,
    schedule: Schedule,
    checked: &Checked,
    frames: u64,
) -> Result<String, NoMemory>
    requires order { job.now.order ≡ Some schedule }
    requires ascii { IsAscii checked.now.test.name }
    requires frames { frames ≡ frame_count_of checked.now.test job.now.options }
    requires few { frames ≤ MOST_FRAMES }
    ensures { IfOk result (λ text. (done : _) → IsStill done
        → IsCountText checked.now.test job.now done (string_bytes text)) }
{
    let counters = Counters::of(alloc, checked)?;
    let test = checked.test();
    let logs = replay_test(alloc, test, &counters.sequences, &job.options, schedule)?;
    report(rt, alloc, job, checked, &counters, &logs, frames)
}

/// The text of a count of so many frames.
fn text<R: Threads + Sync, G: Gate>(
    rt: &R,
    alloc: Global,
    job: &CountJob,
    checked: &Checked,
    frames: u64,
    field: Field,
    gate: &G,
) -> Answered<NoMemory>
    requires ascii { IsAscii checked.now.test.name }
    requires frames { frames ≡ frame_count_of checked.now.test job.now.options }
    requires few { frames ≤ MOST_FRAMES }
    ensures identity { result.done.identity ≡ field }
    ensures ok { IfOk result.text (λ text. IsCountText checked.now.test job.now result.done (string_bytes text)) }
    ensures err { OnErr result.text (IsStill result.done ⊎ RanAs (run_options job.now.order job.now.options)
        checked.now.test result.done) }
{
    match job.order {
        None => run_text(rt, alloc, job, checked, frames, field, gate),
        Some(schedule) => Answered::still(
            replay_text(rt, alloc, job, schedule, checked, frames),
            field,
        ),
    }
}

/// How many frames the run of a test has; or the refusal that is due where they are too many.
fn few_frames(job: &CountJob, checked: &Checked) -> Result<u64, ToolStatus>
    ensures none_due { IfOk result (λ _. due_for_frames checked.now.test job.now.options ≡ None) }
    ensures frames { IfOk result (λ frames. frames ≡ frame_count_of checked.now.test job.now.options) }
    ensures few { IfOk result (λ frames. frames ≤ MOST_FRAMES) }
    ensures err { IfErr result (λ status. due_for_frames checked.now.test job.now.options ≡ Some status) }
    ensures kind { IfErr result HasToolKind }
{
    let test = checked.test();
    match frames(job.options.iterations, test.threads()) {
        Some(frames) => Ok(frames),
        None => Err(ToolStatus::Core(Status::Limit(Over::Frames))),
    }
}

/// Counts the frames of a run of the test within which its condition holds; or the refusal that is due for the test.
/// All memory that the run needs is taken before its first step.
pub fn count_on<R: Threads + Sync, G: Gate>(
    rt: &R,
    alloc: Global,
    job: &CountJob,
    test: Test,
    field: Field,
    gate: &G,
) -> Answered<ToolStatus>
    requires ascii { IsAscii test.name }
    ensures identity { result.done.identity ≡ field }
    ensures none_due { IfOk result.text (λ _. due_for_count test job.now.options ≡ None) }
    ensures text { IfOk result.text (λ text. IsCountText test job.now result.done (string_bytes text)) }
    ensures err { IfErr result.text (λ status. (status ≡ ToolStatus.Core Status.Memory)
        ⊎ (due_for_count test job.now.options ≡ Some status)) }
    ensures done { IfErr result.text (λ status. IsStill result.done
        ⊎ ((status ≡ ToolStatus.Core Status.Memory) × (due_for_count test job.now.options ≡ None)
        × RanAs (run_options job.now.order job.now.options) test result.done)) }
    ensures kind { IfErr result.text HasToolKind }
{
    let checked = match check_test(alloc, test) {
        Ok(checked) => checked,
        Err(status) => return Answered::still(Err(ToolStatus::Core(status)), field),
    };
    let frames = match few_frames(job, &checked) {
        Ok(frames) => frames,
        Err(status) => return Answered::still(Err(status), field),
    };
    let Answered { text, done } = text(rt, alloc, job, &checked, frames, field, gate);
    Answered {
        text: text.map_err(|_| ToolStatus::Core(Status::Memory)),
        done,
    }
}
