//! Readings shown by a run.
ghost use Rattle.std.specs.Prelude.{◌++◌, IfOk, MatchOption, map};
ghost use Rattle.seq_conv.specs.Numbers.{AreOf};
ghost use Rattle.run_judge.specs.Judgement.{event_of};
ghost use Rattle.order_run.specs.Along.{HasCycle, IsRunAlong};
ghost use Rattle.once.specs.Sources.{AreReadings};
ghost use Rattle.row_decision.specs.Seen.{seen};
ghost use Rattle.row_decision.specs.Shown.{IsShowing};

use crate::decide::hidden;
use crate::graph::{choices_of, edges_of};
use crate::reading::Reading;
use choice_search::{Outcome, Pair, Tree, decide};
use order_run::run_along;
use perp_base::NoMemory;
use run_judge::RunEvent;
use seq_conv::Sequences;
use std::alloc::Global;
use x86_subset::Test;

/// The events of a run of one iteration that has all sources; or the reading with this index has a hidden source; or a
/// tree of cases refutes them; or the steps did not suffice.
#[derive(Debug, Drop)]
pub enum Shown {
    Run(Vec<RunEvent>),
    Hidden(usize),
    Refuted(Tree),
    GaveUp,
}

/// What is shown, and the steps that it took.
#[derive(Debug, Drop)]
pub struct Showing {
    pub shown: Shown,
    pub steps: u64,
}

/// The run along the edges of readings and the sides that the search took.
fn run_of(
    alloc: Global,
    test: &Test,
    sequences: &Sequences,
    mut edges: Vec<Pair>,
    sides: &[Pair],
) -> Result<Option<Vec<RunEvent>>, NoMemory>
    requires { AreOf test.now sequences.now }
    ensures { IfOk result (λ made. MatchOption made (HasCycle test.now (edges.items ++ sides.now))
        (λ run. IsRunAlong test.now (edges.items ++ sides.now) (map event_of run.items))) }
{
    edges.extend_from_slice(sides)?;
    run_along(alloc, test, sequences, &edges)
}

/// As `decide_readings`, with the run itself. The sequences are those of the test.
pub fn show_readings(
    alloc: Global,
    test: &Test,
    sequences: &Sequences,
    readings: &[Reading],
    most: u64,
) -> Result<Showing, NoMemory>
    requires same { AreOf test.now sequences.now }
    requires readings { AreReadings test.now (map seen readings.now) }
    ensures { IfOk result (IsShowing test.now (map seen readings.now) most) }
{
    let _threads = test.threads();
    if let Some(index) = hidden(test, sequences, readings) {
        return Ok(Showing {
            shown: Shown::Hidden(index),
            steps: 0,
        });
    }
    let edges = edges_of(alloc, test, readings)?;
    let choices = choices_of(alloc, test, sequences, readings)?;
    let found = decide(alloc, &edges, &choices, most)?;
    let steps = found.steps;
    match found.outcome {
        Outcome::Sides(sides) => match run_of(alloc, test, sequences, edges, &sides)? {
            Some(run) => Ok(Showing {
                shown: Shown::Run(run),
                steps,
            }),
            None => unreachable!(),
        },
        Outcome::Refuted(tree) => Ok(Showing {
            shown: Shown::Refuted(tree),
            steps,
        }),
        Outcome::GaveUp => Ok(Showing {
            shown: Shown::GaveUp,
            steps,
        }),
    }
}
