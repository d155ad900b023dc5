//! Why a program's call is not made.
ghost use Rattle.std.specs.Prelude.{◌≡◌};
ghost use Rattle.program_edge.specs.declared.unmade.Unmade.TheVariants.{Memory};

use perp_base::NoMemory;
use thiserror::Error;

/// Why a program's call is not made.
#[derive(Clone, Copy, Debug, Error, PartialEq, Eq)]
pub enum Unmade {
    /// Memory ran out.
    #[error("out of memory")]
    Memory,
    /// The system refuses the words, as where one is no UTF-8.
    #[error("the system refuses the words")]
    Words,
}

/// So that `?` hands on want of memory for the field.
impl From<NoMemory> for Unmade {
    ghost from_gives = { λ _ why. why ≡ Memory };

    fn from(_: NoMemory) -> Unmade {
        Unmade::Memory
    }
}
