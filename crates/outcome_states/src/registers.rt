//! The registers that a condition names.
ghost use Rattle.std.specs.Prelude.{◌≡◌, ◌++◌, IfOk, OnOk, filter, map};
ghost use Rattle.outcome_rows.specs.Conditions.{is_register};
ghost use Rattle.row_decision.specs.Fronts.{register_seen};
ghost use Rattle.outcome_states.specs.Registers.{first_unread, is_named, registers_of, registers_of_thread, unread_kind};

use perp_base::NoMemory;
use profile_check::ProfileKind;
use row_decision::Register;
use std::alloc::Global;
use x86_subset::{Atom, Reg, Test};

/// Why no states are listed.
#[derive(Clone, Copy, Debug, PartialEq, Eq)]
pub enum Refused {
    /// This atom, counted from 1 in the order of the text, is the first that names no thread of the test, or a register
    /// that holds no read at the end.
    Unread { atom: u32, kind: ProfileKind },
    /// There are more states than `MOST_STATES`.
    States,
    /// The decision of a row took all its `MOST_STEPS` steps.
    Steps,
}

/// The registers of a thread, in order.
const REGISTERS: [Reg; 6] = [Reg::Eax, Reg::Ebx, Reg::Ecx, Reg::Edx, Reg::Esi, Reg::Edi];

/// Whether an atom names a register.
pub(crate) fn names(atom: Atom, register: Register) -> bool
    ensures { result ≡ is_register atom.thread atom.reg (register_seen register) }
{
    register.thread == atom.thread && register.reg as usize == atom.reg as usize
}

/// Whether the condition names a register.
fn is_named(test: &Test, register: Register) -> bool
    ensures { result ≡ is_named test.now (register_seen register) }
{
    test.atoms().iter().any(|atom| names(*atom, register))
}

/// Adds the registers of a thread that the condition names.
fn push_registers(registers: &mut Vec<Register>, test: &Test, thread: u32) -> Result<(), NoMemory>
    ensures { OnOk result (map register_seen registers.new.items
        ≡ map register_seen registers.old.items ++ filter (is_named test.now) (registers_of_thread thread)) }
{
    for reg in &REGISTERS {
        let reg = *reg;
        let register = Register { thread, reg };
        if is_named(test, register) {
            registers.push(register)?;
        }
    }
    Ok(())
}

/// The registers that the condition names, each once, by thread and then in order.
pub(crate) fn registers_of(alloc: Global, test: &Test) -> Result<Vec<Register>, NoMemory>
    ensures { IfOk result (λ registers. map register_seen registers.items ≡ registers_of test.now) }
{
    let mut registers = Vec::new(alloc);
    for thread in 0..test.threads() {
        push_registers(&mut registers, test, thread as u32)?;
    }
    Ok(registers)
}

/// Why the register of an atom holds no read at the end.
fn unread_kind(test: &Test, atom: Atom) -> Option<ProfileKind>
    ensures { result ≡ unread_kind test.now atom }
{
    let thread = atom.thread as usize;
    if thread >= test.threads() {
        Some(ProfileKind::NoSuchThread)
    } else if test.last_writer(thread, atom.reg).is_none() {
        Some(ProfileKind::NotLoaded)
    } else {
        None
    }
}

/// The first atom whose register holds no read at the end.
pub(crate) fn first_unread(test: &Test) -> Option<Refused>
    ensures { result ≡ first_unread test.now }
{
    let _threads = test.threads();
    let atoms = test.atoms();
    for (index, atom) in atoms.iter().enumerate() {
        if let Some(kind) = unread_kind(test, *atom) {
            let atom = index as u32 + 1;
            return Some(Refused::Unread { atom, kind });
        }
    }
    None
}
