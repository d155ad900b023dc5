//! The command `outcomes`: every outcome of the test as it is written.
ghost use Rattle.std.specs.Prelude.{◌≡◌, ◌⊎◌, IfErr, IfOk, None, Some, string_bytes};
ghost use Rattle.std.specs.Str.{IsAscii};
ghost use Rattle.outcome_states.specs.Outcomes.{IsOutcomesText, RefusesOutcomes};
ghost use Rattle.tool_core.specs.Due.{due_for_registers};
ghost use Rattle.tool_core.specs.Outcomes.{StopsOutcomes, status_of};
ghost use Rattle.tool_core.specs.Status.{HasToolKind};

use crate::status::ToolStatus;
use outcome_states::{Refused, outcomes_text};
use report_text::Status;
use std::alloc::Global;
use x86_subset::Test;

/// The status that a refusal of outcomes becomes.
fn status_of(refused: Refused) -> ToolStatus
    ensures is { result ≡ status_of refused }
    ensures kind { HasToolKind result }
{
    match refused {
        Refused::Unread { atom, kind } => ToolStatus::Core(Status::OutsideProfile {
            atom,
            kind: kind.number(),
        }),
        Refused::States => ToolStatus::States,
        Refused::Steps => ToolStatus::Steps,
    }
}

/// Lists every outcome of a test; or the refusal that is due for its condition, or the limit that was met.
pub fn outcomes_on(alloc: Global, test: &Test) -> Result<String, ToolStatus>
    requires ascii { IsAscii test.now.name }
    ensures none_due { IfOk result (λ _. due_for_registers test.now ≡ None) }
    ensures text { IfOk result (λ text. IsOutcomesText test.now (string_bytes text)) }
    ensures err { IfErr result (λ status. (status ≡ ToolStatus.Core Status.Memory)
        ⊎ ((due_for_registers test.now ≡ Some status)
        ⊎ ((due_for_registers test.now ≡ None) × StopsOutcomes test.now status))) }
    ensures kind { IfErr result HasToolKind }
{
    match outcomes_text(alloc, test)? {
        Ok(text) => Ok(text),
        Err(refused) => Err(status_of(refused)),
    }
}
