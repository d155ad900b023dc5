//! The answer to a request, before anything is written: a text or a refusal, and the closed field.
ghost use Rattle.std.specs.Prelude.{◌≡◌, ◌≤◌, length, IfOk, IfErr, Some, string_bytes};
ghost use Rattle.perp_base.specs.declared.limits.TheConstants.{MOST_INPUT};
ghost use Rattle.program_edge.specs.Request.{AnswersDue, HasInputWithin, IsComplete, IsRefusal, IsRefusalOfText, status_of_reading};
ghost use Rattle.tool_core.specs.Answering.{AnswerFits, AsksWithin, IsAnswerTo, IsLeftBy, IsUsageOf, MovesInRuns};
ghost use Rattle.tool_core.specs.Due.{tool_program};
ghost use Rattle.tool_core.specs.Status.{HasToolKind};
ghost use Rattle.tool_core.specs.Top.{IsAnswer, IsStillOrRan};
ghost use Rattle.tool_core.specs.Words.{IsWithinItsLimits};

use crate::parts::parts_in;
use crate::status::ToolStatus;
use crate::words::Command;
use crate::work::work;
use perp_base::{MOST_BYTES, ReadError};
use perp_loop::Gate;
use program_edge::{Answered, Request, read_test};
use report_text::{Over, Status};
use std::alloc::Global;
use std::thread::Threads;
use tso_words::Field;

/// The answer of a command to an input.
fn answer_input<R: Threads + Sync, G: Gate>(
    rt: &R,
    alloc: Global,
    command: &Command,
    input: &[u8],
    field: Field,
    gate: &G,
) -> Answered<ToolStatus>
    requires within { IsWithinItsLimits command.now }
    requires short { length input.now ≤ MOST_INPUT }
    ensures identity { result.done.identity ≡ field }
    ensures ok { IfOk result.text (λ text. IsAnswer command.now input.now result.done (string_bytes text)) }
    ensures refused { IfErr result.text (IsRefusalOfText tool_program command.now input.now) }
    ensures done { IfErr result.text (IsStillOrRan command.now input.now result.done) }
    ensures kind { IfErr result.text HasToolKind }
{
    let Some(section) = parts_in(command, input) else {
        return Answered::still(Err(ToolStatus::NoSection), field);
    };
    if section.litmus.len() > MOST_BYTES {
        return Answered::still(Err(ToolStatus::Core(Status::Limit(Over::Input))), field);
    }
    match read_test(alloc, section.litmus) {
        Ok(test) => work(rt, alloc, command, test, &section, field, gate),
        Err(status) => Answered::still(Err(ToolStatus::Core(status)), field),
    }
}

fn reading_status(why: ReadError) -> ToolStatus
    ensures value { result ≡ status_of_reading tool_program why }
    ensures kind { HasToolKind result }
{
    match why {
        ReadError::Fault => ToolStatus::Core(Status::ReadFault),
        ReadError::TooLong => ToolStatus::TooLong,
        ReadError::Memory => ToolStatus::Core(Status::Memory),
    }
}

/// The answer to a request.
fn answer_request<R: Threads + Sync, G: Gate>(
    rt: &R,
    alloc: Global,
    request: &Request<Command>,
    field: Field,
    gate: &G,
) -> Answered<ToolStatus>
    requires short { HasInputWithin MOST_INPUT request.now }
    requires within { AsksWithin request.now }
    ensures identity { result.done.identity ≡ field }
    ensures right { IfOk result.text (λ text. IsAnswerTo request.now result.done (string_bytes text)) }
    ensures refused { IfErr result.text (IsRefusal tool_program request.now) }
    ensures left { IfErr result.text (IsLeftBy request.now result.done) }
    ensures kind { IfErr result.text HasToolKind }
{
    match request {
        Request::Misused => Answered::still(Err(ToolStatus::Core(Status::Usage)), field),
        Request::NoMemory => Answered::still(Err(ToolStatus::Core(Status::Memory)), field),
        Request::Alone(command) => answer_input(rt, alloc, command, &[], field, gate),
        Request::Given(command, Ok(input)) => {
            answer_input(rt, alloc, command, input, field, gate)
        }
        Request::Given(_, Err(why)) => Answered::still(Err(reading_status(*why)), field),
    }
}

/// The text that answers a request, or its refusal, and the closed field. Nothing is read or written.
///
/// The threads of a command that runs the test make all their steps on `field`, which is new by its type, and call
/// `gate` before each iteration. Each call returns.
pub fn answer_text<R: Threads + Sync, G: Gate>(
    rt: &R,
    alloc: Global,
    request: &Request<Command>,
    field: Field,
    gate: &G,
) -> Answered<ToolStatus>
    requires short { HasInputWithin MOST_INPUT request.now }
    requires within { AsksWithin request.now }

    // The right answer, and what the threads did on the field.
    ensures right { IfOk result.text (λ text. IsAnswerTo request.now result.done (string_bytes text)) }
    ensures fits { AnswerFits request.now result.done result.text }
    ensures identity { result.done.identity ≡ field }

    // Each refusal with its cause, and each cause with its refusal.
    ensures refused { IfErr result.text (IsRefusal tool_program request.now) }
    ensures usage { IsUsageOf request.now result.text }
    ensures due { AnswersDue tool_program request.now result.text }
    ensures complete { IsComplete tool_program request.now result.text }
    ensures kind { IfErr result.text HasToolKind }

    // What is left on the field.
    ensures left { IfErr result.text (IsLeftBy request.now result.done) }
    ensures still { MovesInRuns request.now result.done }
{
    answer_request(rt, alloc, request, field, gate)
}
