//! What a counted frame says of the litmus test as it is written.
ghost use Rattle.litmus_outcomes.specs.Laws.{ConditionsAgreeWithin, FramesWithinAreOutcomes, HitsAreOutcomes, NeverIsImpossible, OnceIsTheTest, OrderIsNeeded, OrderedIsSteady, OutcomesAreCountable, OutcomesAreFramesWithin, SeenIsAllowed, SteadyHitsAreOutcomes, SteadyHoldsWithin};

/// Some run of one iteration shows a conjunction exactly where it is the outcome of an execution of the test.
pub fn once_is_the_test()
    ensures { OnceIsTheTest }
{}

/// A conjunction whose atoms hold within a frame, of however long a run, is an outcome of the test.
pub fn frames_within_are_outcomes()
    ensures { FramesWithinAreOutcomes }
{}

/// The outcomes of the test are the conjunctions that hold within frames of runs of any given number of iterations.
pub fn outcomes_are_frames_within()
    ensures { OutcomesAreFramesWithin }
{}

/// Whether an atom holds within a frame can be told from the logs.
pub fn conditions_agree_within()
    ensures { ConditionsAgreeWithin }
{}

/// A steady atom holds at a frame exactly where it holds within it.
pub fn steady_holds_within()
    ensures { SteadyHoldsWithin }
{}

/// A steady conjunction that holds at a frame, of however long a run, is an outcome of the test.
pub fn steady_hits_are_outcomes()
    ensures { SteadyHitsAreOutcomes }
{}

/// An ordered conjunction is steady.
pub fn ordered_is_steady()
    ensures { OrderedIsSteady }
{}

/// An ordered conjunction that holds at a frame, of however long a run, is an outcome of the test.
pub fn hits_are_outcomes()
    ensures { HitsAreOutcomes }
{}

/// A conjunction that is neither ordered nor steady can have a hit, and be no outcome of the test.
pub fn order_is_needed()
    ensures { OrderIsNeeded }
{}

/// Where each conjunction is steady or never holds and a run has a hit, x86-TSO allows what the condition asks for.
pub fn seen_is_allowed()
    ensures { SeenIsAllowed }
{}

/// Each outcome of the test can be counted, in a run of any given number of iterations.
pub fn outcomes_are_countable()
    ensures { OutcomesAreCountable }
{}

/// A conjunction that never holds is no outcome of the test.
pub fn never_is_impossible()
    ensures { NeverIsImpossible }
{}
