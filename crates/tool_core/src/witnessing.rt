//! The command `witness`: a run of x86-TSO that has the logs of a run in threads.
ghost use Rattle.std.specs.Prelude.{◌≡◌, ◌≤◌, ◌++◌, ◌⊎◌, IfOk, IfErr, List, None, OnOk, Some, string_bytes};
ghost use Rattle.std.specs.List.{flat_map};
ghost use Rattle.tso_machine.specs.Event.{Event};
ghost use Rattle.seq_conv.specs.Numbers.{AreOf};
ghost use Rattle.tso_machine.specs.Run.{IsRunOf};
ghost use Rattle.run_judge.specs.Line.{line_of};
ghost use Rattle.run_witness.specs.Order.{AreLogsFor, HasLogs, HasWriters};
ghost use Rattle.program_edge.specs.Field.{IsStill, SomeRunFits};
ghost use Rattle.tool_core.specs.Due.{due_for_witness};
ghost use Rattle.tool_core.specs.Status.{HasToolKind};
ghost use Rattle.run_text.specs.Runs.{run_text_of};
ghost use Rattle.tool_core.specs.Texts.{IsWitnessed, IsWitnessOf, options_of};
ghost use Rattle.perp_base.specs.declared.limits.TheConstants.{MOST_ITERATIONS};

use crate::number_text::number_text;
use crate::running::options_of;
use crate::status::ToolStatus;
use crate::writers::witness_refusal;
use load_log::Logs;
use perp_base::NoMemory;
use perp_loop::Gate;
use program_edge::{Answered, Ran, run_test};
use report_text::Status;
use run_judge::{RunEvent, event_line};
use run_witness::{Found, witness};
use seq_conv::Sequences;
use std::alloc::Global;
use std::thread::Threads;
use tso_words::Field;
use x86_subset::Test;

fn push_events(out: &mut String, alloc: Global, events: &[RunEvent]) -> Result<(), NoMemory>
    ensures { OnOk result (string_bytes out.new ≡ string_bytes out.old ++ flat_map line_of events.now) }
{
    for event in events {
        let line = event_line(alloc, event)?;
        out.push_str(line.as_str())?;
    }
    Ok(())
}

/// A section that tells a run.
#[tactic(auto, unfolding(run_text::specs::Runs::run_text_of))]
pub fn run_text(alloc: Global, n: u32, events: &[RunEvent]) -> Result<String, NoMemory>
    ensures { IfOk result (λ text. string_bytes text ≡ run_text_of n events.now) }
{
    let mut out = number_text(alloc, "%events", u64::from(n))?;
    push_events(&mut out, alloc, events)?;
    Ok(out)
}

/// The text of a run that has the logs; there is such a run.
fn witness_text(
    alloc: Global,
    test: &Test,
    sequences: &Sequences,
    n: u32,
    logs: &Logs,
) -> Result<String, NoMemory>
    requires sequences { AreOf test.now sequences.now }
    requires writers { HasWriters test.now }
    requires logs { AreLogsFor test.now n logs.now.logs }
    requires few { n ≤ MOST_ITERATIONS }
    requires logged { (run : List Event) × IsRunOf test.now n run × HasLogs test.now logs.now.logs run }
    ensures { IfOk result (λ text. IsWitnessOf test.now n logs.now.logs (string_bytes text)) }
{
    match witness(alloc, test, sequences, n, logs)? {
        Found::Run(events) => run_text(alloc, n, &events),
        Found::WrongValue { .. } => unreachable!(),
        Found::Cycle(_) => unreachable!(),
    }
}

/// Runs the test in threads on the field, and finds a run that has its logs; or the refusal that is due for the test.
/// All memory that the run needs is taken before its first step.
pub fn witness_run<R: Threads + Sync, G: Gate>(
    rt: &R,
    alloc: Global,
    test: &Test,
    n: u32,
    field: Field,
    gate: &G,
) -> Answered<ToolStatus>
    requires some { 1 ≤ n }
    requires few { n ≤ MOST_ITERATIONS }
    ensures identity { result.done.identity ≡ field }
    ensures none_due { IfOk result.text (λ _. due_for_witness test.now n ≡ None) }
    ensures text { IfOk result.text (λ text. IsWitnessed test.now n result.done (string_bytes text)) }
    ensures err { IfErr result.text (λ status. (status ≡ ToolStatus.Core Status.Memory)
        ⊎ (due_for_witness test.now n ≡ Some status)) }
    ensures done { IfErr result.text (λ status. IsStill result.done
        ⊎ ((status ≡ ToolStatus.Core Status.Memory) × (due_for_witness test.now n ≡ None) × SomeRunFits test.now (options_of n) result.done)) }
    ensures kind { IfErr result.text HasToolKind }
{
    let Ok(sequences) = Sequences::of(alloc, test) else {
        return Answered::still(Err(ToolStatus::Core(Status::Memory)), field);
    };
    if let Some(status) = witness_refusal(test, &sequences, n) {
        return Answered::still(Err(status), field);
    }
    let Ran { done, logs } = run_test(rt, alloc, test, &sequences, &options_of(n), field, gate);
    let Ok(logs) = logs else {
        return Answered {
            text: Err(ToolStatus::Core(Status::Memory)),
            done,
        };
    };
    match witness_text(alloc, test, &sequences, n, &logs) {
        Ok(text) => Answered {
            text: Ok(text),
            done,
        },
        Err(_) => Answered {
            text: Err(ToolStatus::Core(Status::Memory)),
            done,
        },
    }
}
