//! What a line of words stands for.
ghost use Rattle.command_words.specs.Lines.{CountsAreRead, LinesAreRead, LinesStandForOne, ReplaysAreOfJobs, ReplaysAreRead};

/// A line of words stands for the command that is read from it, and for no other: options in any order, each at most
/// once and in either spelling, and the number of iterations once. The words after `count` ask for a job by the same
/// rules, and so do those of a replay of which nothing is counted, which are words of `replay` with the same run.
pub fn lines_stand_for_their_commands()
    ensures read { LinesAreRead }
    ensures one { LinesStandForOne }
    ensures count { CountsAreRead }
    ensures replay { ReplaysAreRead }
    ensures job { ReplaysAreOfJobs }
{}
