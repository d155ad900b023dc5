//! What `run` and `replay` write of a forbidden test, and what forbids one.
ghost use Rattle.forbidden_runs.specs.Laws.{ForbiddenReplaysGiveNoOtherText, ForbiddenRunsGiveNoOtherText, ForbiddenRunsReportNothing, ForbiddenVerdictsForbid, PerpleReportsNothingForbidden, ReasonsForbid};

/// The text of each run is the report that nothing was seen.
pub fn forbidden_runs_report_nothing()
    ensures { ForbiddenRunsReportNothing }
{}

/// So a text that is right for what the threads of `run` did on a field is that report.
pub fn forbidden_runs_give_no_other_text()
    ensures { ForbiddenRunsGiveNoOtherText }
{}

/// And so is one that is right for the schedule of `replay`.
pub fn forbidden_replays_give_no_other_text()
    ensures { ForbiddenReplaysGiveNoOtherText }
{}

/// Where each conjunction of a test has a cycle or a hidden read, it is forbidden as a text that is read.
pub fn reasons_forbid()
    ensures { ReasonsForbid }
{}

/// So it is where `verdict` answers `Forbidden`.
pub fn forbidden_verdicts_forbid()
    ensures { ForbiddenVerdictsForbid }
{}

/// What the clauses `whole` and `part` of `perple` say: its `run` and its `replay` write that report, or with a fault
/// of writing a part of it.
pub fn perple_reports_nothing_forbidden()
    ensures { PerpleReportsNothingForbidden }
{}
