//! The laws of parts, runs and flat histories: which parts there are, how they merge into a run, and what each run
//! makes.
ghost use Rattle.tso_runs.specs.Fits.{FittingRunsPerformTheBodies, LawfulPartsAreOne};
ghost use Rattle.tso_runs.specs.Merging.{FittingRunsMakeHistories, HistoriesFit, LegalRunsMakeTheirHistories, PartsMerge};
ghost use Rattle.tso_runs.specs.Schedule.{EachScheduleHasOneRun, ScheduledRunsPerformTheBodies};

/// Each part of a legal run keeps its buffer, and the shared steps of the run are a flat history of its memory.
pub fn legal_runs_make_their_histories()
    ensures { LegalRunsMakeTheirHistories }
{}

/// Parts that keep their buffers, and whose shared steps are those of a flat history, merge into a legal run that makes
/// this history.
pub fn lawful_parts_merge()
    ensures { PartsMerge }
{}

/// The runs that fit the threads' lists make flat histories of them, each flat history of the lists of lawful parts is
/// made by such a run, and each such run performs the bodies.
pub fn fitting_runs_and_histories()
    ensures made { FittingRunsMakeHistories }
    ensures fit { HistoriesFit }
    ensures performs { FittingRunsPerformTheBodies }
{}

/// Its shared steps determine a thread's lawful part.
pub fn lawful_parts_are_one()
    ensures { LawfulPartsAreOne }
{}

/// Where buffers have room for a write, there is exactly one run of each schedule, and it performs the bodies.
pub fn each_schedule_has_one_run()
    ensures one { EachScheduleHasOneRun }
    ensures performs { ScheduledRunsPerformTheBodies }
{}
