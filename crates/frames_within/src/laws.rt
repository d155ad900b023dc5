//! What is counted within frames, and what that says of the test.
ghost use Rattle.frames_within.specs.Laws.{CountsAreWithin, FaithfulHitsAreOutcomes, FaithfulHitsAreWithin, LogsMeetTheConditionsWithin, WithinIsAllowed};

/// Over the logs of a run, the conditions in numbers count the frames within which the condition holds.
pub fn counts_are_within()
    ensures { CountsAreWithin }
{}

/// The conditions in numbers name threads and columns that the logs have.
pub fn logs_meet_the_conditions_within()
    ensures { LogsMeetTheConditionsWithin }
{}

/// Where the condition holds within a frame of a run, x86-TSO allows what it asks for.
pub fn within_is_allowed()
    ensures { WithinIsAllowed }
{}

/// Of a faithful test, what holds at a frame of a run is an outcome of the test.
pub fn faithful_hits_are_outcomes()
    ensures { FaithfulHitsAreOutcomes }
{}

/// Of a faithful test, the hits of a run are the frames within which the condition holds.
pub fn faithful_hits_are_within()
    ensures { FaithfulHitsAreWithin }
{}
