//! What is picked and listed over the logs of a run.
ghost use Rattle.heuristic.specs.RunPicks.{ListedAreHitsOfRuns, PicksAreThoseOfRuns, RunsCanBePicked};

/// The logs of a run meet what `pick` and `hits` ask of logs, and the conditions of its test name the test's threads
/// alone.
pub fn runs_can_be_picked()
    ensures { RunsCanBePicked }
{}

/// Over the logs of a run, what `pick` answers is the frame that the atoms pick in the run.
pub fn picks_are_those_of_runs()
    ensures { PicksAreThoseOfRuns }
{}

/// Over the logs of a run, what `hits` lists are the listed hits of the run, and each is a hit.
pub fn listed_are_hits_of_runs()
    ensures { ListedAreHitsOfRuns }
{}
