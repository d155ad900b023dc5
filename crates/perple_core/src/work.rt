//! The work of a command on a test that was accepted: a text or want of memory, and the closed field.
ghost use Rattle.std.specs.Prelude.{◌≡◌, ◌⊎◌, ◌++◌, IfOk, IsErr, OnErr, None, true, false, codes, string_bytes};
ghost use Rattle.std.specs.Str.{IsAscii};
ghost use Rattle.command_words.specs.Job.{IsWithin};
ghost use Rattle.report_text.specs.Report.{report_of};
ghost use Rattle.report_text.specs.Words.{number_line};
ghost use Rattle.litmus_reader.specs.Answer.{Accepted};
ghost use Rattle.perple_core.specs.Counting.{CanCountFrames, IsWanted};
ghost use Rattle.perple_core.specs.Due.{due_for_reading, has_too_many_frames};
ghost use Rattle.perple_core.specs.Texts.{conversion_text_of, demo_options_of, demo_report_of, report_rows, schedule_of, text_of};
ghost use Rattle.perple_core.specs.Top.{IsNamedInAscii, IsStillCommand, IsText, IsTextOfRun, IsTextOfSchedule, RanFor};
ghost use Rattle.program_edge.specs.Field.{IsStill, SomeRunFits};

use crate::counters::Counters;
use crate::report_run::Wanted;
use command_words::{Command, Count, Job, schedule_for};
use convert_rows::conversion;
use demo_text::demo_iterations;
use perp_base::NoMemory;
use perp_loop::{Gate, Options, Schedule};
use profile_check::Checked;
use program_edge::{Answered, Ran, replay_test, run_test};
use report_text::convert_text;
use seq_conv::Sequences;
use std::alloc::Global;
use std::thread::Threads;
use tso_words::Field;

/// What is wanted of the run of a job.
fn wanted_by(job: &Job) -> Wanted
    ensures wanted { (result.options ≡ job.now.options) × (result.count ≡ job.now.count) × (result.show_hits ≡ true) }
    ensures within { IsWithin result.options result.cut }
{
    Wanted {
        options: job.options,
        count: job.count,
        cut: job.cut,
        show_hits: true,
    }
}

/// What is wanted of the run of a demo.
fn wanted_of_demo(k: u64, checked: &Checked) -> Wanted
    ensures wanted { (result.options ≡ demo_options_of k checked.now.test) × (result.count ≡ Count.Both)
        × (result.show_hits ≡ false) }
    ensures within { IsWithin result.options result.cut }
{
    Wanted {
        options: Options {
            iterations: demo_iterations(checked.test().threads()),
            seed: k,
            rate: 64,
            buffer: 8,
        },
        count: Count::Both,
        cut: 4096,
        show_hits: false,
    }
}

/// The text of a run that the threads make on the field. All memory that they need is taken before their first step.
#[tactic(auto, unfolding(crate::specs::Texts::text_of))]
fn run_job<R: Threads + Sync, G: Gate>(
    rt: &R,
    alloc: Global,
    job: &Job,
    checked: &Checked,
    field: Field,
    gate: &G,
) -> Answered<NoMemory>
    requires ascii { IsAscii checked.now.test.name }
    requires frames { CanCountFrames checked.now.test job.now.options job.now.count }
    ensures identity { result.done.identity ≡ field }
    ensures ok { IfOk result.text (λ text. IsTextOfRun checked.now.test job.now result.done (string_bytes text)) }
    ensures err { OnErr result.text (IsStill result.done ⊎ SomeRunFits checked.now.test job.now.options result.done) }
{
    let counters = match Counters::of(alloc, checked) {
        Ok(counters) => counters,
        Err(refused) => return Answered::still(Err(refused), field),
    };
    let wanted = wanted_by(job);
    let Ran { done, logs } = run_test(
        rt,
        alloc,
        checked.test(),
        &counters.sequences,
        &wanted.options,
        field,
        gate,
    );
    match logs {
        Ok(logs) => Answered {
            text: wanted.report(rt, alloc, checked, &counters, &logs),
            done,
        },
        Err(refused) => Answered {
            text: Err(refused),
            done,
        },
    }
}

/// The report of the run of a schedule.
fn replayed<R: Threads + Sync>(
    rt: &R,
    alloc: Global,
    wanted: &Wanted,
    schedule: Schedule,
    checked: &Checked,
) -> Result<String, NoMemory>
    requires ascii { IsAscii checked.now.test.name }
    requires wanted { IsWanted checked.now.test wanted.now }
    ensures { IfOk result (λ text. IsTextOfSchedule checked.now.test wanted.now.options schedule
        (λ run. report_of (report_rows checked.now.test wanted.now.options wanted.now.count wanted.now.show_hits run)) (string_bytes text)) }
{
    let counters = Counters::of(alloc, checked)?;
    let logs = replay_test(
        alloc,
        checked.test(),
        &counters.sequences,
        &wanted.options,
        schedule,
    )?;
    wanted.report(rt, alloc, checked, &counters, &logs)
}

#[tactic(auto, unfolding(crate::specs::Texts::text_of))]
fn replay_text<R: Threads + Sync>(
    rt: &R,
    alloc: Global,
    job: &Job,
    checked: &Checked,
) -> Result<String, NoMemory>
    requires ascii { IsAscii checked.now.test.name }
    requires frames { CanCountFrames checked.now.test job.now.options job.now.count }
    ensures { IfOk result (λ text. IsTextOfSchedule checked.now.test job.now.options (schedule_of job.now)
        (text_of checked.now.test job.now) (string_bytes text)) }
{
    replayed(rt, alloc, &wanted_by(job), schedule_for(job.order), checked)
}

/// The demo's number in front of its report.
#[tactic(auto, unfolding(report_text::specs::Words::number_line))]
fn with_number(alloc: Global, k: u64, report: &str) -> Result<String, NoMemory>
    ensures { IfOk result (λ text. string_bytes text ≡ number_line (codes "Demo") k ++ report.now) }
{
    let text = format!(in alloc; "Demo {k}\n{report}")?;
    Ok(text)
}

#[tactic(auto, unfolding(crate::specs::Texts::demo_report_of))]
fn demo_report<R: Threads + Sync>(
    rt: &R,
    alloc: Global,
    k: u64,
    checked: &Checked,
) -> Result<String, NoMemory>
    requires ascii { IsAscii checked.now.test.name }
    requires frames { CanCountFrames checked.now.test (demo_options_of k checked.now.test) Count.Both }
    ensures { IfOk result (λ text. IsTextOfSchedule checked.now.test (demo_options_of k checked.now.test)
        (Schedule.Seeded k) (demo_report_of k checked.now.test) (string_bytes text)) }
{
    let wanted = wanted_of_demo(k, checked);
    let report = replayed(rt, alloc, &wanted, Schedule::Seeded(k), checked)?;
    with_number(alloc, k, report.as_str())
}

#[tactic(auto, unfolding(crate::specs::Texts::conversion_text_of))]
fn conversion_text(alloc: Global, checked: &Checked) -> Result<String, NoMemory>
    requires ascii { IsNamedInAscii checked.now.test }
    ensures { IfOk result (λ text. string_bytes text ≡ conversion_text_of checked.now.test) }
{
    let sequences = Sequences::of(alloc, checked.test())?;
    let rows = conversion(alloc, checked, &sequences)?;
    convert_text(alloc, &rows)
}

fn still_text<R: Threads + Sync>(
    rt: &R,
    alloc: Global,
    command: &Command,
    checked: &Checked,
) -> Result<String, NoMemory>
    requires still { IsStillCommand command.now }
    requires ascii { IsNamedInAscii checked.now.test }
    requires frames { has_too_many_frames command.now checked.now.test ≡ false }
    ensures { IfOk result (λ text. (done : _) → IsStill done
        → IsText command.now checked.now.test done (string_bytes text)) }
{
    match command {
        Command::Run(_) => unreachable!(),
        Command::Replay(job) => replay_text(rt, alloc, job, checked),
        Command::Convert => conversion_text(alloc, checked),
        Command::Demo(k) => demo_report(rt, alloc, *k, checked),
    }
}

/// The work of a command on a test that was accepted.
pub fn work<R: Threads + Sync, G: Gate>(
    rt: &R,
    alloc: Global,
    command: &Command,
    checked: &Checked,
    field: Field,
    gate: &G,
) -> Answered<NoMemory>
    requires ascii { IsNamedInAscii checked.now.test }
    requires none_due { due_for_reading command.now (Accepted checked.now.test) ≡ None }
    ensures identity { result.done.identity ≡ field }
    ensures ok { IfOk result.text (λ text. IsText command.now checked.now.test result.done (string_bytes text)) }
    ensures err { OnErr result.text (IsStill result.done ⊎ RanFor command.now checked.now.test result.done) }
{
    if let Command::Run(job) = command {
        return run_job(rt, alloc, job, checked, field, gate);
    }
    Answered::still(still_text(rt, alloc, command, checked), field)
}
