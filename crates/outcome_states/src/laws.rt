//! What the text says of the executions of a test.
ghost use Rattle.outcome_states.specs.Laws.{CountedIsAllowed, CountedRowsSatisfy, LinesAreApart, OneText, OutcomesAreListed, TextsAreNotRefused};

/// A state stands there exactly where some execution of the test as it is written ends with it.
pub fn outcomes_are_listed()
    ensures { OutcomesAreListed }
{}

/// Two states have one line only where they are one state.
pub fn lines_are_apart()
    ensures { LinesAreApart }
{}

/// A test has one text, or none.
pub fn one_text()
    ensures { OneText }
{}

/// Where a test has a text, it is refused for want of steps alone.
pub fn texts_are_not_refused()
    ensures { TextsAreNotRefused }
{}

/// The states that are counted are those in which the atoms of some conjunction have their values.
pub fn counted_rows_satisfy()
    ensures { CountedRowsSatisfy }
{}

/// Some state is counted exactly where x86-TSO allows what the condition asks for.
pub fn counted_is_allowed()
    ensures { CountedIsAllowed }
{}
