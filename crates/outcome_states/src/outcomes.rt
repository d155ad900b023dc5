//! The whole answer.
ghost use Rattle.std.specs.Prelude.{◌≡◌, IfOk, None};
ghost use Rattle.std.specs.Str.{IsAscii};
ghost use Rattle.outcome_states.specs.Outcomes.{IsOutcomes};
ghost use Rattle.outcome_states.specs.Registers.{first_unread};

use crate::registers::{Refused, first_unread, registers_of};
use crate::states::states_of;
use crate::text::text_of;
use outcome_rows::Stop;
use perp_base::NoMemory;
use std::alloc::Global;
use x86_subset::Test;

/// The states of a test whose condition names registers that hold reads.
fn listed(alloc: Global, test: &Test) -> Result<Result<String, Refused>, NoMemory>
    requires ascii { IsAscii test.now.name }
    requires read { first_unread test.now ≡ None }
    ensures { IfOk result (IsOutcomes test.now) }
{
    let registers = registers_of(alloc, test)?;
    match states_of(alloc, test, &registers)? {
        Ok(rows) => {
            let text = text_of(alloc, test, &registers, &rows)?;
            Ok(Ok(text))
        }
        Err(Stop::TooMany) => Ok(Err(Refused::States)),
        Err(Stop::GaveUp) => Ok(Err(Refused::Steps)),
    }
}

/// All final values of the registers that the condition names, over all executions of the test as it is written, as
/// herd7 prints them; or why they are not listed. The test's name is all ASCII.
pub fn outcomes_text(alloc: Global, test: &Test) -> Result<Result<String, Refused>, NoMemory>
    requires ascii { IsAscii test.now.name }
    ensures { IfOk result (IsOutcomes test.now) }
{
    match first_unread(test) {
        Some(refused) => Ok(Err(refused)),
        None => listed(alloc, test),
    }
}
