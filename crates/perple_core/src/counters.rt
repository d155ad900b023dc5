//! What the counting of a test's outcomes needs, all of it made before a run.
ghost use Rattle.std.specs.Prelude.{IfOk};

use heuristic::Plan;
use outcome_conv::Conds;
use perp_base::NoMemory;
use profile_check::Checked;
use seq_conv::Sequences;
use std::alloc::Global;

/// The sequences of a test, its conditions in numbers, and a plan of the heuristic's choices.
#[derive(Drop)]
pub struct Counters {
    pub sequences: Sequences,
    pub conds: Conds,
    pub plan: Plan,
}

impl Counters {
    ghost use Rattle.perple_core.specs.Counting.{AreCountersOf};

    /// Those of a test whose atoms can be counted.
    pub fn of(alloc: Global, checked: &Checked) -> Result<Counters, NoMemory>
        ensures { IfOk result (AreCountersOf checked.now) }
    {
        let test = checked.test();
        let sequences = Sequences::of(alloc, test)?;
        let conds = Conds::of(alloc, checked, &sequences)?;
        let plan = Plan::of(alloc, &conds, test.threads())?;
        Ok(Counters {
            sequences,
            conds,
            plan,
        })
    }
}
