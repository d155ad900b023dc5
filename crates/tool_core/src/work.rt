//! The work of a command on a test and a section: a text or a refusal, and the closed field.
ghost use Rattle.std.specs.Prelude.{◌≡◌, ◌+◌, ◌<◌, ◌≤◌, ◌^◌, ◌⊎◌, length, IfOk, IfErr, None, Some, Err, string_bytes};
ghost use Rattle.std.specs.Str.{IsAscii};
ghost use Rattle.run_text.specs.Sections.{seen};
ghost use Rattle.report_text.specs.declared.status.Status.TheVariants.{Memory};
ghost use Rattle.program_edge.specs.Field.{IsStill};
ghost use Rattle.tool_core.specs.Due.{StopsAt, due_for_test};
ghost use Rattle.tool_core.specs.Status.{HasToolKind};
ghost use Rattle.tool_core.specs.Top.{IsText, RanFor};
ghost use Rattle.tool_core.specs.Words.{IsWithinItsLimits};
ghost use Rattle.perp_base.specs.declared.limits.TheConstants.{MOST_ITERATIONS};

use crate::counting::count_on;
use crate::faithful::faithful_on;
use crate::judging::judge_section;
use crate::listing::outcomes_on;
use crate::ordering::order_section;
use crate::replaying::replay_on;
use crate::showing::show_on;
use crate::skews::skew_run;
use crate::status::ToolStatus;
use crate::verdicts::verdict_on;
use crate::witnessing::witness_run;
use crate::words::Command;
use perp_loop::Gate;
use program_edge::Answered;
use run_text::Section;
use std::alloc::Global;
use std::thread::Threads;
use tso_words::Field;
use x86_subset::Test;

/// The work of a command on a test and a section; or the refusal that is due for them.
pub fn work<R: Threads + Sync, G: Gate>(
    rt: &R,
    alloc: Global,
    command: &Command,
    test: Test,
    section: &Section<'_>,
    field: Field,
    gate: &G,
) -> Answered<ToolStatus>
    requires ascii { IsAscii test.name }
    requires within { IsWithinItsLimits command.now }
    requires iterations { section.now.iterations ≤ MOST_ITERATIONS }
    requires line { 1 ≤ section.now.line }
    requires short { section.now.line + length section.now.lines.now < 2 ^ 32 }
    ensures identity { result.done.identity ≡ field }
    ensures none_due { IfOk result.text (λ _. due_for_test command.now test (seen section.now) ≡ None) }
    ensures right { IfOk result.text (λ text. IsText command.now test (seen section.now) result.done
        (string_bytes text)) }
    ensures err { IfErr result.text (λ status. (status ≡ ToolStatus.Core Memory)
        ⊎ ((due_for_test command.now test (seen section.now) ≡ Some status)
        ⊎ ((due_for_test command.now test (seen section.now) ≡ None) × StopsAt command.now test status))) }
    ensures done { IfErr result.text (λ status. IsStill result.done
        ⊎ ((status ≡ ToolStatus.Core Memory) × (due_for_test command.now test (seen section.now) ≡ None) × RanFor command.now test result.done)) }
    ensures kind { IfErr result.text HasToolKind }
{
    match command {
        Command::Judge => Answered::still(judge_section(alloc, &test, section), field),
        Command::Verdict => Answered::still(verdict_on(alloc, test), field),
        Command::Show => Answered::still(show_on(alloc, test), field),
        Command::Outcomes => Answered::still(outcomes_on(alloc, &test), field),
        Command::Faithful => Answered::still(faithful_on(alloc, test), field),
        Command::Skew(n) => skew_run(rt, alloc, &test, *n, field, gate),
        Command::Witness(n) => witness_run(rt, alloc, &test, *n, field, gate),
        Command::Count(job) => count_on(rt, alloc, job, test, field, gate),
        Command::Order => Answered::still(order_section(alloc, &test, section), field),
        Command::Replay(job) => Answered::still(replay_on(alloc, &test, job), field),
    }
}
