//! How a call of the program ends.
ghost use Rattle.std.specs.Prelude.{◌≡◌};
ghost use Rattle.report_text.specs.Status.{status_number};

/// The limit that an input is over.
#[derive(Clone, Copy, Debug, PartialEq, Eq)]
pub enum Over {
    /// The input's bytes, at most 65,536.
    Input,
    /// The threads, at most 8.
    Threads,
    /// The locations, at most 16.
    Locations,
    /// The actions of one body, at most 16.
    Instructions,
    /// The atoms of the condition, at most 32.
    Atoms,
    /// The frames to count, at most 4,294,967,296.
    Frames,
}

/// How a call of the program ended.
#[derive(Clone, Copy, Debug, PartialEq, Eq)]
pub enum Status {
    /// The whole text was written.
    Whole,
    /// Memory ran out.
    Memory,
    /// The words are no command.
    Usage,
    /// Reading failed.
    ReadFault,
    /// Writing failed.
    WriteFault,
    /// The text is no litmus test: why, a kind from 1 to 12, and at which line, from 1.
    NotLitmus { kind: u8, line: u32 },
    /// An atom is outside of the profile: which, from 1, and why, a kind from 1 to 8.
    OutsideProfile { atom: u32, kind: u8 },
    /// The input is over a limit.
    Limit(Over),
}

impl Status {
    /// The number with which the program ends, from 0 to 7 in the order above.
    pub fn number(&self) -> u8
        ensures { result ≡ status_number self.now }
    {
        match self {
            Status::Whole => 0,
            Status::Memory => 1,
            Status::Usage => 2,
            Status::ReadFault => 3,
            Status::WriteFault => 4,
            Status::NotLitmus { .. } => 5,
            Status::OutsideProfile { .. } => 6,
            Status::Limit(_) => 7,
        }
    }
}
