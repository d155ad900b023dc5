//! The answer to a request, before any of it is written: a text or a refusal, and the closed field.
ghost use Rattle.std.specs.Prelude.{◌≡◌, ◌≤◌, length, IfOk, IfErr, string_bytes};
ghost use Rattle.report_text.specs.Status.{HasKind};
ghost use Rattle.program_edge.specs.Ending.{IsStillOr};
ghost use Rattle.program_edge.specs.Request.{AnswersDue, HasInputWithin, IsComplete, IsRefusal, IsRefusalOfText, status_of_reading};
ghost use Rattle.perple_core.specs.Due.{own_text_of, perple_program};
ghost use Rattle.perple_core.specs.Answering.{AnswerFits, AnswerReads, AnswerTells, Answers, IsAnswer, IsMade, Leaves, MovesInRuns};
ghost use Rattle.perp_base.specs.declared.limits.TheConstants.{MOST_BYTES};

use crate::accept::{accept, own_text};
use crate::work::work;
use command_words::Command;
use perp_base::ReadError;
use perp_loop::Gate;
use program_edge::{Answered, Request};
use report_text::{Over, Status};
use std::alloc::Global;
use std::thread::Threads;
use tso_words::Field;

fn reading_status(why: ReadError) -> Status
    ensures value { result ≡ status_of_reading perple_program why }
    ensures kind { HasKind result }
{
    match why {
        ReadError::Fault => Status::ReadFault,
        ReadError::TooLong => Status::Limit(Over::Input),
        ReadError::Memory => Status::Memory,
    }
}

/// The answer to a command on a text.
fn answer_command<R: Threads + Sync, G: Gate>(
    rt: &R,
    alloc: Global,
    command: &Command,
    text: &[u8],
    field: Field,
    gate: &G,
) -> Answered<Status>
    requires short { length text.now ≤ MOST_BYTES }
    ensures identity { result.done.identity ≡ field }
    ensures right { IfOk result.text (λ answer. IsAnswer command.now text.now result.done (string_bytes answer)) }
    ensures refused { IfErr result.text (IsRefusalOfText perple_program command.now text.now) }
    ensures left { IfErr result.text (IsStillOr (λ s. s) result.done (IsMade command.now text.now result.done)) }
    ensures kind { IfErr result.text HasKind }
{
    let checked = match accept(alloc, command, text) {
        Ok(checked) => checked,
        Err(status) => return Answered::still(Err(status), field),
    };
    let Answered { text, done } = work(rt, alloc, command, &checked, field, gate);
    match text {
        Ok(text) => Answered {
            text: Ok(text),
            done,
        },
        Err(_) => Answered {
            text: Err(Status::Memory),
            done,
        },
    }
}

/// The answer to a command that comes alone.
fn answer_alone<R: Threads + Sync, G: Gate>(
    rt: &R,
    alloc: Global,
    command: &Command,
    field: Field,
    gate: &G,
) -> Answered<Status>
    ensures identity { result.done.identity ≡ field }
    ensures right { IfOk result.text (λ answer. IsAnswer command.now (own_text_of command.now) result.done (string_bytes answer)) }
    ensures refused { IfErr result.text (IsRefusalOfText perple_program command.now (own_text_of command.now)) }
    ensures left { IfErr result.text (IsStillOr (λ s. s) result.done (IsMade command.now (own_text_of command.now) result.done)) }
    ensures kind { IfErr result.text HasKind }
{
    match own_text(alloc, command) {
        Ok(text) => answer_command(rt, alloc, command, &text, field, gate),
        Err(_) => Answered::still(Err(Status::Memory), field),
    }
}

/// The answer to a request.
fn answer_request<R: Threads + Sync, G: Gate>(
    rt: &R,
    alloc: Global,
    request: &Request<Command>,
    field: Field,
    gate: &G,
) -> Answered<Status>
    requires within { HasInputWithin MOST_BYTES request.now }
    ensures identity { result.done.identity ≡ field }
    ensures right { IfOk result.text (λ answer. Answers request.now result.done (string_bytes answer)) }
    ensures refused { IfErr result.text (IsRefusal perple_program request.now) }
    ensures left { IfErr result.text (Leaves request.now result.done) }
    ensures kind { IfErr result.text HasKind }
{
    match request {
        Request::Misused => Answered::still(Err(Status::Usage), field),
        Request::NoMemory => Answered::still(Err(Status::Memory), field),
        Request::Alone(command) => answer_alone(rt, alloc, command, field, gate),
        Request::Given(command, Ok(text)) => {
            answer_command(rt, alloc, command, text, field, gate)
        }
        Request::Given(_, Err(why)) => Answered::still(Err(reading_status(*why)), field),
    }
}

/// The text that answers a request, or its refusal, and the closed field. Nothing is read or written.
///
/// The threads of `run` make all their steps on `field`, which is new by its type, and call `gate` before each
/// iteration. Each call returns.
pub fn answer_text<R: Threads + Sync, G: Gate>(
    rt: &R,
    alloc: Global,
    request: &Request<Command>,
    field: Field,
    gate: &G,
) -> Answered<Status>
    requires within { HasInputWithin MOST_BYTES request.now }

    // The headline, for `run`: the bytes that were read, what the threads did on the field, and the text.
    ensures reads { AnswerReads request.now result.text }
    ensures fits { AnswerFits request.now result.done result.text }
    ensures tells { AnswerTells request.now result.done result.text }
    ensures identity { result.done.identity ≡ field }

    // The right answer, each refusal with its cause, and each cause with its refusal.
    ensures right { IfOk result.text (λ answer. Answers request.now result.done (string_bytes answer)) }
    ensures refused { IfErr result.text (IsRefusal perple_program request.now) }
    ensures due { AnswersDue perple_program request.now result.text }
    ensures complete { IsComplete perple_program request.now result.text }
    ensures kind { IfErr result.text HasKind }

    // What is left on the field.
    ensures left { IfErr result.text (Leaves request.now result.done) }
    ensures still { MovesInRuns request.now result.done }
{
    answer_request(rt, alloc, request, field, gate)
}
