//! For which tests a run is told: where it has not too many events; and is sought from logs: where also the stores of each
//! location stand in one thread.
ghost use Rattle.std.specs.Prelude.{◌≡◌, ◌≤◌, ◌*◌, length, nat_lt, IfSome, IsNone};
ghost use Rattle.x86_subset.specs.Test.{body_of};
ghost use Rattle.seq_conv.specs.Numbers.{AreOf};
ghost use Rattle.perp_loop.specs.Replaying.{sum_below};
ghost use Rattle.run_witness.specs.Order.{HasWriters};
ghost use Rattle.tool_core.specs.Status.{HasToolKind};
ghost use Rattle.tool_core.specs.Due.{due_for_events, due_for_witness, most_events_of};
ghost use Rattle.perp_base.specs.declared.limits.TheConstants.{MOST_ITERATIONS};

use crate::status::ToolStatus;
use run_witness::several_writers;
use seq_conv::Sequences;
use x86_subset::Test;

/// The most events of a run that is told.
const MOST_EVENTS: u64 = 1_000_000;

/// How many actions the bodies have.
fn action_count(test: &Test) -> u64
    ensures is { result ≡ sum_below (length test.now.bodies) (λ t. length (body_of test.now t)) }
    ensures most { result ≤ 128 }
{
    let mut actions = 0;
    for t in 0..test.threads() {
        actions += test.body(t).len() as u64;
    }
    actions
}

/// Whether a run has too many events.
fn has_many_events(test: &Test, n: u32) -> bool
    requires { n ≤ MOST_ITERATIONS }
    ensures { result ≡ nat_lt 1000000 (most_events_of test.now n) }
{
    2 * u64::from(n) * action_count(test) > MOST_EVENTS
}

/// The refusal that is due for a test whose run is to be told.
pub fn events_refusal(test: &Test, n: u32) -> Option<ToolStatus>
    requires { n ≤ MOST_ITERATIONS }
    ensures is { result ≡ due_for_events test.now n }
    ensures kind { IfSome result HasToolKind }
{
    if has_many_events(test, n) {
        return Some(ToolStatus::Events);
    }
    None
}

/// The refusal that is due for a test from whose logs a run is sought.
pub fn witness_refusal(test: &Test, sequences: &Sequences, n: u32) -> Option<ToolStatus>
    requires sequences { AreOf test.now sequences.now }
    requires few { n ≤ MOST_ITERATIONS }
    ensures is { result ≡ due_for_witness test.now n }
    ensures writers { IsNone result → HasWriters test.now }
    ensures kind { IfSome result HasToolKind }
{
    let _threads = test.threads();
    if let Some(location) = several_writers(test, sequences) {
        return Some(ToolStatus::SeveralWriters { location });
    }
    events_refusal(test, n)
}
