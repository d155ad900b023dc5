//! How a call of the second program ends, and the line that says so.
ghost use Rattle.std.specs.Prelude.{◌≡◌};
ghost use Rattle.report_text.specs.declared.status.Status.TheVariants.{Memory};
ghost use Rattle.tool_core.specs.Status.{HasToolKind, tool_line, tool_number};
ghost use Rattle.tool_core.specs.declared.status.ToolStatus.TheVariants.{Core};

use perp_base::NoMemory;
use program_edge::Numbered;
use report_text::{Line, Status, refusal_text};

/// How a call of the second program ended.
#[derive(Clone, Copy, Debug, PartialEq, Eq)]
pub enum ToolStatus {
    /// As a call of the first program does.
    Core(Status),
    /// The command reads a section, and no line begins one.
    NoSection,
    /// This is the first line of the section that does not have its form.
    BadLine { line: u32 },
    /// The input is over its limit.
    TooLong,
    /// A run of the test would have too many events.
    Events,
    /// The stores of this location, the first such, stand in several threads.
    SeveralWriters { location: u32 },
    /// The test has more outcomes than are listed.
    States,
    /// The decision of one of the outcomes took all its steps.
    Steps,
}

/// So that `?` answers want of memory.
impl From<NoMemory> for ToolStatus {
    ghost from_gives = { λ _ status. status ≡ Core Memory };

    fn from(_: NoMemory) -> ToolStatus {
        ToolStatus::Core(Status::Memory)
    }
}

/// So that `?` answers a refusal of the litmus part.
impl From<Status> for ToolStatus {
    ghost from_gives = { λ refusal status. status ≡ Core refusal };

    fn from(refusal: Status) -> ToolStatus {
        ToolStatus::Core(refusal)
    }
}

impl Numbered for ToolStatus {
    ghost number_of = { tool_number };

    fn ending(&self) -> u8 {
        self.number()
    }
}

impl ToolStatus {
    /// The number with which the program ends.
    pub fn number(&self) -> u8
        ensures { result ≡ tool_number self.now }
    {
        match self {
            ToolStatus::Core(status) => status.number(),
            ToolStatus::NoSection => 9,
            ToolStatus::BadLine { .. } => 10,
            ToolStatus::TooLong => 11,
            ToolStatus::Events => 12,
            ToolStatus::SeveralWriters { .. } => 13,
            ToolStatus::States => 15,
            ToolStatus::Steps => 16,
        }
    }

    /// The line for the error sink, with its end, or no byte for the whole answer. It takes no memory.
    pub fn line(&self) -> Line
        requires { HasToolKind self.now }
        ensures { result ≡ tool_line self.now }
    {
        match self {
            ToolStatus::Core(status) => refusal_text(status),
            ToolStatus::NoSection => Line::of_text("perple: no section\n"),
            ToolStatus::BadLine { line } => Line::of_number("perple: section line ", *line, "\n"),
            ToolStatus::TooLong => Line::of_text("perple: limit section 16777216\n"),
            ToolStatus::Events => Line::of_text("perple: limit events 1000000\n"),
            ToolStatus::SeveralWriters { location } => {
                Line::of_number("perple: location ", *location, " has several writers\n")
            }
            ToolStatus::States => Line::of_text("perple: limit states 10000\n"),
            ToolStatus::Steps => Line::of_text("perple: limit steps 20000\n"),
        }
    }
}
