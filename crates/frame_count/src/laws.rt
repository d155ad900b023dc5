//! What is counted over the logs of a run.
ghost use Rattle.frame_count.specs.RunLogs.{CountsAreHits, LogsGiveTheValues, LogsMeetTheConditions, RowsCountHits};

/// The logs of a run give its logged values, of which the laws of conditions speak.
pub fn logs_give_the_values()
    ensures { LogsGiveTheValues }
{}

/// The logs of a run meet what the counts ask of logs.
pub fn logs_meet_the_conditions()
    ensures { LogsMeetTheConditions }
{}

/// Over the logs of a run the count of frames is the number of its hits.
pub fn counts_are_hits()
    ensures { CountsAreHits }
{}

/// Over the logs of a run the count of a row is the number of its frames that are hits.
pub fn rows_count_hits()
    ensures { RowsCountHits }
{}
