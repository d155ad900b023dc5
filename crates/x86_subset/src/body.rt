//! The body of one thread.
use crate::instr::{Instr, Reg};
use perp_base::NoMemory;
use std::alloc::Global;
use std::marker::Model;

/// What a register holds at the end of a body.
#[derive(Clone, Copy, Debug, PartialEq, Eq)]
pub enum Held {
    /// This value, from an instruction or from the beginning.
    Constant(u32),
    /// What the action at this place of the body, counted from 0, read.
    Read(usize),
}

/// The actions of one thread in order, and what each register holds after them. It keeps that a register
/// that holds a read names a load or an exchange of the body.
#[derive(Drop)]
pub struct Body {
    actions: Vec<Instr>,
    registers: [Held; 6],
}

impl Model for Body {
    ghost use Rattle.x86_subset.specs.Registers.{AreHeld};
    ghost use Rattle.x86_subset.specs.Test.{Code};

    ghost Value = { Code };

    ghost view = { λ b. record { actions = b.actions.items; registers = b.registers } };

    ghost invariant = { λ b. AreHeld b.actions.items b.registers };
}

impl Body {
    ghost use Rattle.std.specs.Prelude.{◌≡◌, length, slice_get, OnOk, OnErr};
    ghost use Rattle.std.specs.Option.{option_and_then};
    ghost use Rattle.x86_subset.specs.declared.body.Held.TheVariants as holds;
    ghost use Rattle.x86_subset.specs.Registers.{AreHeld, place_held, register_number};
    ghost use Rattle.x86_subset.specs.Cell.{empty_code, held_by, holding, added, constant_of};

    /// A body with no actions, in which each register holds the constant 0. Takes no memory.
    pub fn new(alloc: Global) -> Body
        ensures { result ≡ empty_code }
    {
        Body {
            actions: Vec::new(alloc),
            registers: [Held::Constant(0); 6],
        }
    }

    /// How many actions there are.
    pub fn len(&self) -> usize
        ensures is { result ≡ length self.now.actions }
        ensures held { AreHeld self.now.actions self.now.registers }
    {
        self.actions.len()
    }

    /// The actions in order.
    pub fn actions(&self) -> &[Instr]
        ensures { result.now ≡ self.now.actions }
    {
        &self.actions
    }

    /// The place, from 0, of the action whose read a register holds; `None` exactly where it holds a constant.
    pub fn last_writer(&self, reg: Reg) -> Option<usize>
        ensures { result ≡ option_and_then place_held (slice_get self.now.registers (register_number reg)) }
    {
        match self.registers.get(reg as usize) {
            Some(Held::Read(place)) => Some(*place),
            _ => None,
        }
    }

    /// The constant that a register holds; `None` exactly where it holds a read.
    pub fn held(&self, reg: Reg) -> Option<u32>
        ensures { result ≡ constant_of (held_by self.now reg) }
    {
        match self.registers[reg as usize] {
            Held::Constant(value) => Some(value),
            Held::Read(_) => None,
        }
    }

    /// Makes a register hold a constant, and adds no action.
    pub fn constant(&mut self, reg: Reg, value: u32)
        ensures { self.new ≡ holding self.old reg (holds.Constant value) }
    {
        self.registers[reg as usize] = Held::Constant(value);
    }

    /// Adds an action after the others. A load or exchange makes its register hold what it reads.
    /// `NoMemory` leaves the body as it was.
    pub fn add(&mut self, instr: Instr) -> Result<(), NoMemory>
        ensures ok { OnOk result (self.new ≡ added self.old instr) }
        ensures err { OnErr result (self.new ≡ self.old) }
    {
        let place = self.actions.len();
        self.actions.push(instr)?;
        match instr {
            Instr::Load { reg, .. } => self.registers[reg as usize] = Held::Read(place),
            Instr::Exchange { reg, .. } => self.registers[reg as usize] = Held::Read(place),
            _ => {}
        }
        Ok(())
    }
}
