//! The states of a test.
ghost use Rattle.std.specs.Prelude.{◌≡◌, IfOk, MatchResult, map};
ghost use Rattle.seq_conv.specs.Numbers.{AreOf};
ghost use Rattle.outcome_rows.specs.Rows.{HoldReads};
ghost use Rattle.row_decision.specs.Fronts.{register_seen};
ghost use Rattle.outcome_states.specs.States.{AreFewStates, IsStopAt, IsTold, told};

use crate::columns::columns;
use outcome_rows::{Stop, list_rows};
use perp_base::{MOST_STATES, MOST_STEPS, NoMemory};
use row_decision::{Front, Register, decide_front};
use seq_conv::Sequences;
use std::alloc::Global;
use x86_subset::Test;

/// What is told of a front part of a row: whether some execution ends with it, or nothing.
fn told(front: Front) -> Option<bool>
    ensures { result ≡ told front }
{
    match front {
        Front::Possible => Some(true),
        Front::Impossible => Some(false),
        Front::GaveUp => None,
    }
}

/// Whether some execution ends with the front part of a row.
fn tell_front(
    alloc: Global,
    test: &Test,
    sequences: &Sequences,
    registers: &[Register],
    row: &[u32],
) -> Result<Option<bool>, NoMemory>
    requires same { AreOf test.now sequences.now }
    requires reads { HoldReads test.now (map register_seen registers.now) }
    ensures { IfOk result (IsTold test.now (map register_seen registers.now) row.now) }
{
    let first = &registers[..row.len().min(registers.len())];
    let answer = decide_front(alloc, test, sequences, first, row, MOST_STEPS)?;
    Ok(told(answer.front))
}

/// All final values of the registers over all executions of the test as it is written.
pub(crate) fn states_of(
    alloc: Global,
    test: &Test,
    registers: &[Register],
) -> Result<Result<Vec<Vec<u32>>, Stop>, NoMemory>
    requires reads { HoldReads test.now (map register_seen registers.now) }
    ensures { IfOk result (λ states. MatchResult states
        (λ rows. AreFewStates test.now (map register_seen registers.now) (map (λ row. row.items) rows.items))
        (IsStopAt test.now (map register_seen registers.now))) }
{
    let _threads = test.threads();
    let sequences = Sequences::of(alloc, test)?;
    let columns = columns(alloc, test, &sequences, registers)?;
    let sequences = &sequences;
    let tell = |row: &[u32]|
        requires same { AreOf test.now sequences.now }
        requires reads { HoldReads test.now (map register_seen registers.now) }
        ensures { IfOk result (IsTold test.entry.now (map register_seen registers.entry.now) row.now) }
    { tell_front(alloc, test, sequences, registers, row) };
    list_rows(alloc, MOST_STATES, &columns, tell)
}
