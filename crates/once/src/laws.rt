//! What the edges of a conjunction and its choices decide of one iteration.
ghost use Rattle.decision.specs.Laws.{NoCycleIsShown};
ghost use Rattle.once.specs.Moments.{RunsAreOrdered};
ghost use Rattle.once.specs.Laws.{CyclesAreTrees, HiddenIsImpossible, HiddenSourcesAreNotRead, NoCycleHasSources, NoCycleIsShownOnce, OrderedHasNoChoice, SourcesAreDecided, SourcesTreeOrRun, TreeOrRun, TreesAreNeeded, TreesDecide, TreesDecideSources, TreesForbid, TreesForbidSources, TreesForbidWithin};

/// A conjunction that a tree of cases refutes is shown by no run of one iteration.
pub fn trees_forbid()
    ensures { TreesForbid }
{}

/// Nor does it hold within any frame of any run.
pub fn trees_forbid_within()
    ensures { TreesForbidWithin }
{}

/// Where a side of each choice can be taken so that the edges have no cycle, a run of one iteration shows the
/// conjunction.
pub fn no_cycle_is_shown_once()
    ensures { NoCycleIsShownOnce }
{}

/// So a tree of cases refutes a conjunction, or a run of one iteration shows it.
pub fn tree_or_run()
    ensures { TreeOrRun }
{}

/// So a tree of cases refutes a conjunction exactly where it is no outcome of the test.
pub fn trees_decide()
    ensures { TreesDecide }
{}

/// A conjunction that names a hidden store is none.
pub fn hidden_is_impossible()
    ensures { HiddenIsImpossible }
{}

/// A cycle of the edges of verdicts is a tree of cases.
pub fn cycles_are_trees()
    ensures { CyclesAreTrees }
{}

/// An ordered conjunction has no choices.
pub fn ordered_has_no_choice()
    ensures { OrderedHasNoChoice }
{}

/// So the law of ordered conjunctions follows, without the proof that `decision` has of it.
pub fn ordered_is_shown()
    ensures { NoCycleIsShown }
{}

/// There is a conjunction that a tree refutes, and that has a hit over two iterations.
pub fn trees_are_needed()
    ensures { TreesAreNeeded }
{}

/// The moments of each run are an order that says where its reads take their values from.
pub fn runs_are_ordered()
    ensures { RunsAreOrdered }
{}

/// Where a tree of cases refutes readings, no run of one iteration has all of their sources.
pub fn trees_forbid_sources()
    ensures { TreesForbidSources }
{}

/// Nor where a source is hidden.
pub fn hidden_sources_are_not_read()
    ensures { HiddenSourcesAreNotRead }
{}

/// Where a side of each choice can be taken so that the edges have no cycle, a run of one iteration has all sources.
pub fn no_cycle_has_sources()
    ensures { NoCycleHasSources }
{}

/// So a tree of cases refutes the readings, or a run of one iteration has all sources.
pub fn sources_tree_or_run()
    ensures { SourcesTreeOrRun }
{}

/// So a tree of cases refutes readings exactly where no run of one iteration has all sources.
pub fn trees_decide_sources()
    ensures { TreesDecideSources }
{}

/// So a run has all sources exactly where none is hidden and no tree refutes the readings.
pub fn sources_are_decided()
    ensures { SourcesAreDecided }
{}
