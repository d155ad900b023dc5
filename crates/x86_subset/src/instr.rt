//! Registers and instructions.
ghost use Rattle.std.specs.Prelude.{◌≡◌};
ghost use Rattle.x86_subset.specs.Instr.{is_reading, location_of};

/// A 32-bit register of x86 that a test may name.
#[derive(Clone, Copy, Debug, PartialEq, Eq)]
pub enum Reg {
    Eax,
    Ebx,
    Ecx,
    Edx,
    Esi,
    Edi,
}

/// An action of a thread's body: a `MOV` to or from memory, an `MFENCE` or an `XCHG`. `loc` is the number
/// of a location from 0, `written` the value that goes to memory, `reg` the register that gets what is read.
#[derive(Clone, Copy, Debug, PartialEq, Eq)]
pub enum Instr {
    Store { loc: u32, written: u32 },
    Load { reg: Reg, loc: u32 },
    Fence,
    Exchange { loc: u32, written: u32, reg: Reg },
}

impl Instr {
    /// Whether the action reads: true for a load and an exchange.
    pub fn is_reading(self) -> bool
        ensures { result ≡ is_reading self }
    {
        matches!(self, Instr::Load { .. } | Instr::Exchange { .. })
    }

    /// The number of the location that the action names; `None` exactly for a fence.
    pub fn location(self) -> Option<u32>
        ensures { result ≡ location_of self }
    {
        match self {
            Instr::Store { loc, .. } | Instr::Load { loc, .. } | Instr::Exchange { loc, .. } =>
                Some(loc),
            Instr::Fence => None,
        }
    }
}
