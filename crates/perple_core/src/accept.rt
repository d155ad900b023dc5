//! All that comes between a request and a run: the text is read as a test, and checked.
ghost use Rattle.std.specs.Prelude.{◌≡◌, ◌≤◌, ◌⊎◌, ◌&&◌, ◌^◌, length, nat_lt, None, Some, IfOk, IfErr};
ghost use Rattle.demo_text.specs.Demo.{demo_text_of};
ghost use Rattle.litmus_reader.specs.Answer.{Accepted};
ghost use Rattle.litmus_reader.specs.Reading.{Reads};
ghost use Rattle.report_text.specs.Status.{HasKind};
ghost use Rattle.perple_core.specs.Texts.{asks_exhaustive, frame_count_of};
ghost use Rattle.perple_core.specs.Due.{IsDue, due_for_reading, has_too_many_frames, own_text_of};
ghost use Rattle.perple_core.specs.Top.{IsNamedInAscii};
ghost use Rattle.perp_base.specs.declared.limits.TheConstants.{MOST_FRAMES, MOST_ITERATIONS};

use command_words::{Command, Count, Job};
use demo_text::{demo_iterations, demo_text};
use frame_count::frames;
use perp_base::{MOST_BYTES, NoMemory};
use profile_check::Checked;
use program_edge::{check_test, read_test};
use report_text::{Over, Status};
use std::alloc::Global;
use x86_subset::Test;

/// There are more frames than are counted.
#[tactic(auto, unfolding(crate::specs::Texts::frame_count_of))]
fn are_too_many(iterations: u32, test: &Test) -> bool
    requires some { 1 ≤ iterations }
    requires few { iterations ≤ MOST_ITERATIONS }
    ensures { result ≡ nat_lt MOST_FRAMES (iterations ^ length test.now.bodies) }
{
    frames(iterations, test.threads()).is_none()
}

/// The frames of a run of this job are more than are counted, where they are to be counted.
#[tactic(auto, unfolding(crate::specs::Texts::frame_count_of))]
fn has_many_frames(job: &Job, test: &Test) -> bool
    ensures { result ≡ (asks_exhaustive job.now.count && nat_lt MOST_FRAMES (frame_count_of test.now job.now.options)) }
{
    job.count != Count::Heuristic && are_too_many(job.options.iterations, test)
}

#[tactic(auto, unfolding(crate::specs::Due::has_too_many_frames, crate::specs::Texts::frame_count_of))]
fn has_too_many(command: &Command, test: &Test) -> bool
    ensures { result ≡ has_too_many_frames command.now test.now }
{
    match command {
        Command::Run(job) => has_many_frames(job, test),
        Command::Replay(job) => has_many_frames(job, test),
        Command::Convert => false,
        Command::Demo(_) => are_too_many(demo_iterations(test.threads()), test),
    }
}

/// The text as a test whose atoms can be counted, or the refusal that is due.
pub fn accept(alloc: Global, command: &Command, bytes: &[u8]) -> Result<Checked, Status>
    requires { length bytes.now ≤ MOST_BYTES }
    ensures reads { IfOk result (λ checked. Reads bytes.now (Accepted checked.test)) }
    ensures none_due { IfOk result (λ checked. due_for_reading command.now (Accepted checked.test) ≡ None) }
    ensures err { IfErr result (λ status. (status ≡ Status.Memory) ⊎ IsDue command.now bytes.now (Some status)) }
    ensures kind { IfErr result HasKind }
    ensures ascii { IfOk result (λ checked. IsNamedInAscii checked.test) }
{
    let test = read_test(alloc, bytes)?;
    let checked = check_test(alloc, test)?;
    if has_too_many(command, checked.test()) {
        return Err(Status::Limit(Over::Frames));
    }
    Ok(checked)
}

/// The demo's text, which is short.
fn demo_input(alloc: Global, k: u64) -> Result<Vec<u8>, NoMemory>
    ensures text { IfOk result (λ bytes. bytes.items ≡ demo_text_of k) }
    ensures short { IfOk result (λ bytes. length bytes.items ≤ MOST_BYTES) }
{
    demo_text(alloc, k)
}

/// The text of a command that comes alone: the demo's own, and for a command that should read one the empty text.
pub fn own_text(alloc: Global, command: &Command) -> Result<Vec<u8>, NoMemory>
    ensures text { IfOk result (λ bytes. bytes.items ≡ own_text_of command.now) }
    ensures short { IfOk result (λ bytes. length bytes.items ≤ MOST_BYTES) }
{
    match command {
        Command::Demo(k) => demo_input(alloc, *k),
        Command::Run(_) | Command::Replay(_) | Command::Convert => Ok(Vec::new(alloc)),
    }
}
