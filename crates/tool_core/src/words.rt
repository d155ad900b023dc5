//! The words of the second program.
ghost use Rattle.std.specs.Prelude.{◌≡◌, ◌<◌, drop, length, IfOk, MatchResult};
ghost use Rattle.program_edge.specs.View.{bytes_of};
ghost use Rattle.tool_core.specs.Words.{IsWithinItsLimits, alone, command_of};

use command_words::{CountJob, ReplayJob, WordsError, read_count, read_iterations, read_replay};
use std::alloc::Global;

/// A command of the second program.
#[derive(Clone, Copy, Debug, PartialEq, Eq)]
pub enum Command {
    /// Judge the run that the section tells.
    Judge,
    /// Find a run that has the logs of the section.
    Order,
    /// Run the test so often, and find a run that has its logs.
    Witness(u32),
    /// Say whether the outcome is forbidden.
    Verdict,
    /// Show a run in which a conjunction of the condition holds.
    Show,
    /// List every outcome of the test.
    Outcomes,
    /// Say whether each frame that is counted is an outcome of the test.
    Faithful,
    /// Run the test so often, and tell how far apart the threads were.
    Skew(u32),
    /// Run or replay the test, and count the frames within which its condition holds.
    Count(CountJob),
    /// Tell the run of a schedule.
    Replay(ReplayJob),
}

/// The command, where no word follows its name.
fn alone(words: &[String], command: Command) -> Result<Command, WordsError>
    requires { 0 < length words.now }
    ensures same { IfOk result (λ c. c ≡ command) }
    ensures words { MatchResult result (λ c. alone command (drop 1 (bytes_of words.now)) ≡ Some c)
        (λ e. alone command (drop 1 (bytes_of words.now)) ≡ None) }
{
    if words.len() == 1 {
        Ok(command)
    } else {
        Err(WordsError::Usage)
    }
}

/// The command that the words name. `Usage` comes exactly where they name none; that memory is refused may come instead
/// of either answer.
pub fn read_words(alloc: Global, words: &[String]) -> Result<Command, WordsError>
    ensures ok { IfOk result (λ c. command_of (bytes_of words.now) ≡ Some c) }
    ensures usage { result ≡ Err WordsError.Usage → command_of (bytes_of words.now) ≡ None }
    ensures within { IfOk result IsWithinItsLimits }
{
    if words.is_empty() {
        return Err(WordsError::Usage);
    }
    match words[0].as_str() {
        "judge" => alone(words, Command::Judge),
        "order" => alone(words, Command::Order),
        "witness" => Ok(Command::Witness(read_iterations(alloc, words)?)),
        "verdict" => alone(words, Command::Verdict),
        "show" => alone(words, Command::Show),
        "outcomes" => alone(words, Command::Outcomes),
        "faithful" => alone(words, Command::Faithful),
        "skew" => Ok(Command::Skew(read_iterations(alloc, words)?)),
        "count" => Ok(Command::Count(read_count(alloc, words)?)),
        "replay" => Ok(Command::Replay(read_replay(alloc, words)?)),
        _ => Err(WordsError::Usage),
    }
}
