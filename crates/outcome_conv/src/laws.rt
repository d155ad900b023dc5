//! What the conditions, the count and the picks in numbers mean in a run.
ghost use Rattle.outcome_conv.specs.Laws.{ChoicesAgree, ConditionsAgree, ConditionsNameTheTest, CountsAgree, HitsAgree, ListedAreHits, NothingFollowsTheLast, PicksAgree, PicksAreWhole};
ghost use Rattle.outcome_conv.specs.Plans.{PlansPick};

/// The condition of an atom holds of the logs of a run at a frame exactly where the atom holds in the run.
pub fn conditions_agree()
    ensures { ConditionsAgree }
{}

/// The conditions of a test's atoms name its threads, and columns of their readers.
pub fn conditions_name_the_test()
    ensures { ConditionsNameTheTest }
{}

/// As many frame numbers meet the conditions as there are hits.
pub fn counts_agree()
    ensures { CountsAgree }
{}

/// Where the reader is in an iteration, the condition chooses the writer's iteration that the atom chooses.
pub fn choices_agree()
    ensures { ChoicesAgree }
{}

/// The conditions of a conjunction pick the heuristic frame that its atoms pick.
pub fn picks_agree()
    ensures { PicksAgree }
{}

/// The conditions list the hits that the atoms list.
pub fn hits_agree()
    ensures { HitsAgree }
{}

/// Each listed hit is a hit.
pub fn listed_are_hits()
    ensures { ListedAreHits }
{}

/// Picks end only where no atom is to choose.
pub fn picks_are_whole()
    ensures { PicksAreWhole }
{}

/// After the last store of the last iteration no store is written.
pub fn nothing_follows_the_last()
    ensures { NothingFollowsTheLast }
{}

/// A plan, which is fixed by readers and writers alone, picks the heuristic frame.
pub fn plans_pick()
    ensures { PlansPick }
{}
