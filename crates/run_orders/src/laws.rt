//! What an order of the actions of loops decides.
ghost use Rattle.run_orders.specs.Laws.{LogsOrCycle, RunAlong};

/// Some run has the reads take what the edges say, or the edges have a cycle.
pub fn run_along()
    ensures { RunAlong }
{}

/// So some run has given logs, or the order that they ask for has a cycle.
pub fn logs_or_cycle()
    ensures { LogsOrCycle }
{}
