//! What sources, edges and trees of cases say of rows, and rows of the condition.
ghost use Rattle.outcome_rows.specs.Laws.{AllRowsAreOne, FrontsAreFewer, OutcomesAreRows, RisingAreOnce, RowsAreDecided, RowsAreListed, RowsAreSources, RowsAreTold, RowsBegin, RowsGoOn, RowsTakeValues, SomeExecution};

/// The rows of a test are the values of sources that a run of one iteration has.
pub fn rows_are_sources()
    ensures { RowsAreSources }
{}

/// So edges and trees of cases decide them.
pub fn rows_are_decided()
    ensures { RowsAreDecided }
{}

/// There is an execution.
pub fn some_execution()
    ensures { SomeExecution }
{}

/// The front part of a row is a row of the first registers.
pub fn rows_begin()
    ensures { RowsBegin }
{}

/// Each row of the first registers goes on in the next.
pub fn rows_go_on()
    ensures { RowsGoOn }
{}

/// No other value comes.
pub fn rows_take_values()
    ensures { RowsTakeValues }
{}

/// So going from register to register lists each row once.
pub fn rows_are_listed()
    ensures { RowsAreListed }
{}

/// It can be told of each row whether some execution ends with it.
pub fn rows_are_told()
    ensures { RowsAreTold }
{}

/// Rows that rise hold none twice.
pub fn rising_are_once()
    ensures { RisingAreOnce }
{}

/// All rows of a test are one list.
pub fn all_rows_are_one()
    ensures { AllRowsAreOne }
{}

/// There are no fewer rows than front parts.
pub fn fronts_are_fewer()
    ensures { FrontsAreFewer }
{}

/// A conjunction is possible exactly where some row satisfies it.
pub fn outcomes_are_rows()
    ensures { OutcomesAreRows }
{}
