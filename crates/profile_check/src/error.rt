//! Why a test is refused.
ghost use Rattle.std.specs.Prelude.{◌≡◌};
ghost use Rattle.profile_check.specs.declared.error.ProfileError.TheVariants.{Memory};

use crate::kind::ProfileKind;
use perp_base::NoMemory;
use std::alloc::AllocFailed;
use std::error::Error;
use std::fmt;

/// Why `check` refuses a test.
#[derive(Clone, Copy, Debug, PartialEq, Eq)]
pub enum ProfileError {
    /// The first atom that has no kind, counted from 1 in the order of the text, and the reason.
    Outside { atom: u32, kind: ProfileKind },
    /// Memory ran out.
    Memory,
}

/// As the programs tell it: `atom 1: kind 3 NoStore` or `out of memory`.
impl fmt::Display for ProfileError {
    fn fmt<W: fmt::Write>(&self, f: &mut fmt::Formatter<W>) -> fmt::Result {
        match self {
            ProfileError::Outside { atom, kind } => {
                write!(f, "atom {atom}: kind {} {kind:?}", kind.number())
            }
            ProfileError::Memory => write!(f, "out of memory"),
        }
    }
}

impl Error for ProfileError {}

impl From<NoMemory> for ProfileError {
    ghost from_gives = { λ _ e. e ≡ Memory };

    fn from(_: NoMemory) -> ProfileError {
        ProfileError::Memory
    }
}

impl<T: Drop> From<AllocFailed<T>> for ProfileError {
    ghost from_gives = { λ _ e. e ≡ Memory };

    fn from(_: AllocFailed<T>) -> ProfileError {
        ProfileError::Memory
    }
}
