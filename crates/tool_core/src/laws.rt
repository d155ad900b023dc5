//! What the commands say of texts that are written for them.
ghost use Rattle.tool_core.specs.Laws.{FaithfulCountsAreHits, JudgementsAreRepeated, ReplaysAreLegal, SeenWithinIsAllowed, VerdictsAreRepeated, WrittenRunsAreLegal};

/// A legal run of a test that is written after the test's text is called legal.
pub fn written_runs_are_legal()
    ensures { WrittenRunsAreLegal }
{}

/// What `replay` writes of a text is called legal after that text.
pub fn replays_are_legal()
    ensures { ReplaysAreLegal }
{}

/// Two calls of `judge` with the same words on the same input, which both end with 0, write the same text.
pub fn judgements_are_repeated()
    ensures { JudgementsAreRepeated }
{}

/// Two such calls of `verdict` write the same text, but for which cycles they tell where each conjunction has one.
pub fn verdicts_are_repeated()
    ensures { VerdictsAreRepeated }
{}

/// Where `count` writes that the condition was seen, x86-TSO allows it, whatever the test is.
pub fn seen_within_is_allowed()
    ensures { SeenWithinIsAllowed }
{}

/// Of a faithful test it counts the hits of the run.
pub fn faithful_counts_are_hits()
    ensures { FaithfulCountsAreHits }
{}
