//! What Legal says of a written execution.
ghost use Rattle.execution_check.specs.Laws.{ExecutionsAreWrittenOnce, LegalIsExecution};

/// Legal is said exactly of written executions.
pub fn legal_is_execution()
    ensures { LegalIsExecution }
{}

/// Each execution is written by one list of events.
pub fn executions_are_written_once()
    ensures { ExecutionsAreWrittenOnce }
{}
