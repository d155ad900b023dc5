//! What `run` and `replay` report, what `show` and `verdict` tell, and whose report is that of a replay that is told.
ghost use Rattle.reported_outcomes.specs.Laws.{PerpleReportsWhatIsAllowed, RunsReportWhatIsAllowed};
ghost use Rattle.reported_outcomes.specs.Replayed.{ReplaysAreReported};
ghost use Rattle.reported_outcomes.specs.Told.{ForbiddenIsImpossible, ShownIsAllowed};

/// The text of a run is the report that nothing was seen, or x86-TSO allows the condition.
pub fn runs_report_what_is_allowed()
    ensures { RunsReportWhatIsAllowed }
{}

/// What the clause `whole` of `perple` says: its `run` and its `replay` write that report, or x86-TSO allows the
/// condition.
pub fn perple_reports_what_is_allowed()
    ensures { PerpleReportsWhatIsAllowed }
{}

/// What the clause `whole` of `tool` says of `show`: where it writes a run, x86-TSO allows the condition.
pub fn shown_is_allowed()
    ensures { ShownIsAllowed }
{}

/// And of `show` and `verdict`: where they write Forbidden, x86-TSO does not allow it, and no run has a hit.
pub fn forbidden_is_impossible()
    ensures { ForbiddenIsImpossible }
{}

/// Where `perple_tool` tells the run of a replay, the report of `perple replay` of the same words and text is that of
/// this run.
pub fn replays_are_reported()
    ensures { ReplaysAreReported }
{}
