//! What the count of a test's frames needs, all of it made before a run.
ghost use Rattle.std.specs.Prelude.{IfOk};

use frames_within::conds_within;
use outcome_conv::Conds;
use perp_base::NoMemory;
use profile_check::Checked;
use seq_conv::Sequences;
use std::alloc::Global;

/// The sequences of a test, and its conditions in numbers within frames.
#[derive(Drop)]
pub struct Counters {
    pub sequences: Sequences,
    pub conds: Conds,
}

impl Counters {
    ghost use Rattle.tool_core.specs.Counters.{AreCountersOf};

    /// Those of a test whose atoms have kinds.
    pub fn of(alloc: Global, checked: &Checked) -> Result<Counters, NoMemory>
        ensures { IfOk result (AreCountersOf checked.now) }
    {
        let test = checked.test();
        let sequences = Sequences::of(alloc, test)?;
        let conds = conds_within(alloc, checked, &sequences)?;
        Ok(Counters { sequences, conds })
    }
}
