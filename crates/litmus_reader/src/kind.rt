//! Why a text is no litmus test.
ghost use Rattle.std.specs.Prelude.{◌≡◌, ◌≤◌};
ghost use Rattle.litmus_reader.specs.declared.kind.LitmusError.TheVariants.{Memory};
ghost use Rattle.litmus_reader.specs.Answer.{kind_number};

use perp_base::NoMemory;
use std::alloc::{AllocError, AllocFailed};
use std::error::Error;
use std::fmt;
use x86_subset::Shape;

/// What is met first in a text that has not the form. The lines are those that come with it.
#[derive(Clone, Copy, Debug, PartialEq, Eq)]
pub enum LitmusKind {
    /// The first line does not begin with the word `X86`: line 1.
    NotX86,
    /// The first line has no name after it that is one word of printed ASCII, or the header has something else than
    /// quoted texts, comments and lines with an `=`.
    Header,
    /// An item of the initial state has none of the forms, or the state is not closed.
    Initial,
    /// An item of the initial state has another value than 0.
    NonZeroInitial,
    /// The first row does not name the threads in order, or a row has another number of cells, or no end.
    Column,
    /// A cell has none of the forms, or its number is above 4,294,967,295.
    Instruction,
    /// A store or an exchange takes a register that holds a read.
    NotConstant,
    /// The section of locations or the condition has not the form, or the text ends before it does.
    Condition,
    /// The quantifier is `forall`.
    Forall,
    /// A term asks for the value of a location.
    MemoryCondition,
    /// A term that holds a `\/` has a `/\` beside it, or a ninth conjunction begins.
    Disjunction,
    /// Something stands after the condition.
    Trailing,
}

impl LitmusKind {
    /// The number by which the kind is told.
    pub fn number(&self) -> u8
        ensures is { result ≡ kind_number self.now }
        ensures least { 1 ≤ result }
        ensures most { result ≤ 12 }
    {
        match self {
            LitmusKind::NotX86 => 1,
            LitmusKind::Header => 2,
            LitmusKind::Initial => 3,
            LitmusKind::NonZeroInitial => 4,
            LitmusKind::Column => 5,
            LitmusKind::Instruction => 6,
            LitmusKind::NotConstant => 7,
            LitmusKind::Condition => 8,
            LitmusKind::Forall => 9,
            LitmusKind::MemoryCondition => 10,
            LitmusKind::Disjunction => 11,
            LitmusKind::Trailing => 12,
        }
    }
}

/// Why a text gave no test.
#[derive(Clone, Copy, Debug, PartialEq, Eq)]
pub enum LitmusError {
    /// The text has not the form: the first kind met, and the number of its line from 1.
    Bad { kind: LitmusKind, line: u32 },
    /// The text has the form, and passes this limit first.
    Over(Shape),
    /// Memory ran out.
    Memory,
}

/// As the programs tell it: `line 5: kind 6 Instruction`, `limit threads 8` or `out of memory`.
impl fmt::Display for LitmusError {
    fn fmt<W: fmt::Write>(&self, f: &mut fmt::Formatter<W>) -> fmt::Result {
        match self {
            LitmusError::Bad { kind, line } => {
                write!(f, "line {line}: kind {} {kind:?}", kind.number())
            }
            LitmusError::Over(shape) => write!(f, "{shape}"),
            LitmusError::Memory => write!(f, "out of memory"),
        }
    }
}

impl Error for LitmusError {}

impl From<NoMemory> for LitmusError {
    ghost from_gives = { λ _ e. e ≡ Memory };

    fn from(_e: NoMemory) -> LitmusError {
        LitmusError::Memory
    }
}

impl From<AllocError> for LitmusError {
    ghost from_gives = { λ _ e. e ≡ Memory };

    fn from(_e: AllocError) -> LitmusError {
        LitmusError::Memory
    }
}

impl<T: Drop> From<AllocFailed<T>> for LitmusError {
    ghost from_gives = { λ _ e. e ≡ Memory };

    fn from(_e: AllocFailed<T>) -> LitmusError {
        LitmusError::Memory
    }
}

/// A refusal at a line.
pub fn bad(kind: LitmusKind, line: u32) -> LitmusError
    ensures { result ≡ LitmusError.Bad kind line }
{
    LitmusError::Bad { kind, line }
}
