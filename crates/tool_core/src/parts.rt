//! The parts of an input: its litmus text and its section.
ghost use Rattle.std.specs.Prelude.{◌≡◌, ◌+◌, ◌<◌, ◌≤◌, ◌^◌, length, option_map, IfSome};
ghost use Rattle.run_text.specs.Sections.{seen};
ghost use Rattle.tool_core.specs.Due.{all_litmus, parts_of};
ghost use Rattle.perp_base.specs.declared.limits.TheConstants.{MOST_INPUT, MOST_ITERATIONS};

use crate::words::Command;
use run_text::{Section, find_section};

/// The whole input is the litmus part.
fn all_litmus<'a>(input: &'a [u8]) -> Section<'a>
    ensures parts { seen result ≡ all_litmus input.now }
    ensures iterations { result.iterations ≤ MOST_ITERATIONS }
    ensures line { 1 ≤ result.line }
    ensures short { result.line + length result.lines.now < 2 ^ 32 }
{
    Section {
        litmus: input,
        iterations: 0,
        line: 1,
        lines: &[],
    }
}

/// The litmus part and the section of an input; None where the command reads a section and there is none.
pub fn parts_in<'a>(command: &Command, input: &'a [u8]) -> Option<Section<'a>>
    requires { length input.now ≤ MOST_INPUT }
    ensures parts { option_map seen result ≡ parts_of command.now input.now }
    ensures iterations { IfSome result (λ s. s.iterations ≤ MOST_ITERATIONS) }
    ensures line { IfSome result (λ s. 1 ≤ s.line) }
    ensures short { IfSome result (λ s. s.line + length s.lines.now < 2 ^ 32) }
{
    match command {
        Command::Judge => find_section(b"%events", input),
        Command::Order => find_section(b"%logs", input),
        Command::Witness(_)
        | Command::Verdict
        | Command::Show
        | Command::Outcomes
        | Command::Faithful
        | Command::Skew(_)
        | Command::Count(_)
        | Command::Replay(_) => Some(all_litmus(input)),
    }
}
