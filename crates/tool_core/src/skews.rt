//! The command `skew`: how far apart the threads of a run were.
ghost use Rattle.std.specs.Prelude.{◌≡◌, ◌≤◌, ◌⊎◌, IfOk, IfErr, List, string_bytes};
ghost use Rattle.std.specs.List.{flat_map};
ghost use Rattle.tso_machine.specs.Event.{Event};
ghost use Rattle.seq_conv.specs.Numbers.{AreOf};
ghost use Rattle.skew.specs.Line.{line_of};
ghost use Rattle.skew.specs.Logged.{CanTell};
ghost use Rattle.program_edge.specs.Field.{HasLogs, IsStill, SomeRunFits};
ghost use Rattle.tool_core.specs.Texts.{IsSkewText, options_of, skew_text_of};
ghost use Rattle.perp_base.specs.declared.limits.TheConstants.{MOST_ITERATIONS};

use crate::running::{CUT, options_of};
use crate::status::ToolStatus;
use load_log::Logs;
use perp_base::NoMemory;
use perp_loop::Gate;
use program_edge::{Answered, Ran, run_test};
use report_text::Status;
use seq_conv::Sequences;
use skew::{SkewRow, skew, skew_line};
use std::alloc::Global;
use std::thread::Threads;
use tso_words::Field;
use x86_subset::Test;

/// The lines of rows.
fn rows_text(alloc: Global, rows: &[SkewRow]) -> Result<String, NoMemory>
    ensures { IfOk result (λ text. string_bytes text ≡ flat_map line_of rows.now) }
{
    let mut out = String::new(alloc);
    for row in rows {
        let line = skew_line(alloc, row)?;
        out.push_str(line.as_str())?;
    }
    Ok(out)
}

/// The text of each run that has these logs.
#[tactic(auto, unfolding(crate::specs::Texts::skew_text_of))]
fn logs_text<R: Threads + Sync>(
    rt: &R,
    alloc: Global,
    test: &Test,
    sequences: &Sequences,
    logs: &Logs,
    n: u32,
) -> Result<String, NoMemory>
    requires sequences { AreOf test.now sequences.now }
    requires some { 1 ≤ n }
    requires few { n ≤ MOST_ITERATIONS }
    requires logs { CanTell test.now n logs.now.logs }
    ensures { IfOk result (λ text. (run : List Event) → HasLogs test.now n run logs.now.logs
        → string_bytes text ≡ skew_text_of test.now n run) }
{
    let rows = skew(rt, alloc, test, sequences, logs, n, CUT)?;
    rows_text(alloc, &rows)
}

/// Runs the test in threads on the field, and tells how far apart they were. All memory that the run needs is taken
/// before its first step.
pub fn skew_run<R: Threads + Sync, G: Gate>(
    rt: &R,
    alloc: Global,
    test: &Test,
    n: u32,
    field: Field,
    gate: &G,
) -> Answered<ToolStatus>
    requires some { 1 ≤ n }
    requires few { n ≤ MOST_ITERATIONS }
    ensures identity { result.done.identity ≡ field }
    ensures text { IfOk result.text (λ text. IsSkewText test.now n result.done (string_bytes text)) }
    ensures err { IfErr result.text (λ status. status ≡ ToolStatus.Core Status.Memory) }
    ensures done { IfErr result.text (λ status. IsStill result.done ⊎ SomeRunFits test.now (options_of n) result.done) }
{
    let Ok(sequences) = Sequences::of(alloc, test) else {
        return Answered::still(Err(ToolStatus::Core(Status::Memory)), field);
    };
    let Ran { done, logs } = run_test(rt, alloc, test, &sequences, &options_of(n), field, gate);
    let Ok(logs) = logs else {
        return Answered {
            text: Err(ToolStatus::Core(Status::Memory)),
            done,
        };
    };
    let text = logs_text(rt, alloc, test, &sequences, &logs, n);
    Answered {
        text: text.map_err(|_| ToolStatus::Core(Status::Memory)),
        done,
    }
}
