//! Front parts of rows, decided.
ghost use Rattle.std.specs.Prelude.{◌≡◌, ◌<◌, ◌≤◌, ℕ, List, true, false, IfOk, OnOk, Some, length, map};
ghost use Rattle.std.specs.Option.{is_some};
ghost use Rattle.x86_subset.specs.Test.{LitmusTest, last_writer_of};
ghost use Rattle.once.specs.Edges.{Reading as ReadingSeen};
ghost use Rattle.row_decision.specs.Decided.{IsAnswerOf};
ghost use Rattle.seq_conv.specs.Numbers.{AreOf};
ghost use Rattle.once.specs.Sources.{AreReadings};
ghost use Rattle.outcome_rows.specs.Rows.{HoldReads, HoldsRead, read_of, text_value};
ghost use Rattle.row_decision.specs.Seen.{seen};
ghost use Rattle.row_decision.specs.declared.front.Front.TheVariants.{Impossible};
ghost use Rattle.row_decision.specs.Fronts.{IsFront, IsFrontFrom, IsAnswerTo, initial_source, register_seen, sources_with};

use crate::decide::{Answer, decide_readings};
use crate::kept::action;
use crate::reading::Reading;
use perp_base::NoMemory;
use seq_conv::Sequences;
use std::alloc::Global;
use verdict::{Node, location};
use x86_subset::{Instr, Reg, Test};

/// A register of a thread.
#[derive(Clone, Copy, Debug, PartialEq, Eq)]
pub struct Register {
    pub thread: u32,
    pub reg: Reg,
}

/// Whether some execution ends with values in the first registers: one does, none does, or the steps did not suffice.
#[derive(Clone, Copy, Debug, PartialEq, Eq)]
pub enum Front {
    Possible,
    Impossible,
    GaveUp,
}

/// The answer, and the steps that it took.
#[derive(Clone, Copy, Debug, PartialEq, Eq)]
pub struct FrontAnswer {
    pub front: Front,
    pub steps: u64,
}

/// The place of the read that a register holds at the end.
fn place_of(test: &Test, register: Register) -> usize
    requires { HoldsRead test.now (register_seen register) }
    ensures is { result ≡ (read_of test.now (register_seen register)).place }
    ensures small { result < 16 }
{
    let thread = register.thread as usize;
    if thread < test.threads() {
        match test.last_writer(thread, register.reg) {
            Some(place) => place,
            None => 0,
        }
    } else {
        0
    }
}

/// The read that a register holds at the end.
pub fn read_of(test: &Test, register: Register) -> Node
    requires { HoldsRead test.now (register_seen register) }
    ensures { result ≡ read_of test.now (register_seen register) }
{
    let place = place_of(test, register) as u32;
    let thread = register.thread;
    Node { thread, place }
}

/// The value of a store, as it stands in the text.
pub fn value_of(test: &Test, store: Node) -> u32
    ensures { result ≡ text_value test.now (Some store) }
{
    match action(test, store) {
        Some(Instr::Store { written, .. }) => written,
        Some(Instr::Exchange { written, .. }) => written,
        Some(Instr::Load { .. }) => 0,
        Some(Instr::Fence) => 0,
        None => 0,
    }
}

/// The initial value, where it is this one.
fn initial(alloc: Global, value: u32) -> Result<Vec<Option<Node>>, NoMemory>
    ensures { IfOk result (λ v. v.items ≡ initial_source value) }
{
    let mut sources = Vec::new(alloc);
    if value == 0 {
        sources.push(None)?;
    }
    Ok(sources)
}

/// The sources of a read of a location that have a value: the initial value where it is 0, and the stores that write
/// it.
fn sources_of(
    alloc: Global,
    test: &Test,
    sequences: &Sequences,
    location: u32,
    value: u32,
) -> Result<Vec<Option<Node>>, NoMemory>
    requires same { AreOf test.now sequences.now }
    requires location { location < length test.now.locations }
    ensures { IfOk result (λ v. v.items ≡ sources_with test.now location value) }
{
    let mut sources = initial(alloc, value)?;
    for site in sequences.sites(location) {
        let store = Node {
            thread: site.thread,
            place: site.place,
        };
        if value_of(test, store) == value {
            sources.push(Some(store))?;
        }
    }
    Ok(sources)
}

/// What is decided of readings, of the front part.
fn front_of(answer: &Answer) -> Front
    ensures { (test : LitmusTest) (readings : List ReadingSeen) (m s most steps : ℕ) → (s ≡ m → steps ≡ most)
        → IsAnswerOf test readings m s answer.now → IsAnswerTo test readings most steps result }
{
    match answer {
        Answer::Possible => Front::Possible,
        Answer::Hidden(_) => Front::Impossible,
        Answer::Refuted(_) => Front::Impossible,
        Answer::GaveUp => Front::GaveUp,
    }
}

/// Readings decided, in one step more than the search takes.
fn decide_whole(
    alloc: Global,
    test: &Test,
    sequences: &Sequences,
    readings: &[Reading],
    most: u64,
    steps: &mut u64,
) -> Result<Front, NoMemory>
    requires same { AreOf test.now sequences.now }
    requires readings { AreReadings test.now (map seen readings.now) }
    requires steps { steps.old ≤ most }
    ensures steps { OnOk result (steps.new ≤ most) }
    ensures front { IfOk result (IsAnswerTo test.now (map seen readings.now) most steps.new) }
{
    if *steps == most {
        return Ok(Front::GaveUp);
    }
    *steps += 1;
    let decision = decide_readings(alloc, test, sequences, readings, most - *steps)?;
    *steps += decision.steps;
    Ok(front_of(&decision.answer))
}

/// Whether none has.
fn is_impossible(front: Front) -> bool
    ensures yes { result ≡ true → front ≡ Impossible }
    ensures no { result ≡ false → front ≡ Impossible → ⊥ }
{
    match front {
        Front::Impossible => true,
        Front::Possible => false,
        Front::GaveUp => false,
    }
}

/// Whether the registers have the values in some run in which the readings have their sources.
fn decide_from(
    alloc: Global,
    test: &Test,
    sequences: &Sequences,
    registers: &[Register],
    values: &[u32],
    readings: &[Reading],
    most: u64,
    steps: &mut u64,
) -> Result<Front, NoMemory>
    requires same { AreOf test.now sequences.now }
    requires registers { HoldReads test.now (map register_seen registers.now) }
    requires readings { AreReadings test.now (map seen readings.now) }
    requires steps { steps.old ≤ most }
    ensures steps { OnOk result (steps.new ≤ most) }
    ensures front { IfOk result
        (IsFrontFrom test.now (map register_seen registers.now) values.now (map seen readings.now) most steps.new) }
{
    let _threads = test.threads();
    if registers.is_empty() {
        if !values.is_empty() {
            return Ok(Front::Impossible);
        }
        return decide_whole(alloc, test, sequences, readings, most, steps);
    }
    if values.is_empty() {
        return Ok(Front::Impossible);
    }
    let reader = read_of(test, registers[0]);
    let location = location(test, reader);
    let sources = sources_of(alloc, test, sequences, location, values[0])?;
    for source in &sources {
        let source = *source;
        let mut more = Vec::from_slice(alloc, readings)?;
        more.push(Reading {
            reader,
            location,
            source,
        })?;
        let later = &registers[1..];
        let front = decide_from(
            alloc,
            test,
            sequences,
            later,
            &values[1..],
            &more,
            most,
            steps,
        )?;
        if !is_impossible(front) {
            return Ok(front);
        }
    }
    Ok(Front::Impossible)
}

/// Whether some execution of the test as it is written ends with these values in these registers, in at most so many
/// steps. The sequences are those of the test.
pub fn decide_front(
    alloc: Global,
    test: &Test,
    sequences: &Sequences,
    registers: &[Register],
    values: &[u32],
    most: u64,
) -> Result<FrontAnswer, NoMemory>
    requires same { AreOf test.now sequences.now }
    requires registers { HoldReads test.now (map register_seen registers.now) }
    ensures { IfOk result (IsFront test.now (map register_seen registers.now) values.now most) }
{
    let _threads = test.threads();
    let mut steps = 0;
    let none = Vec::new(alloc);
    let front = decide_from(
        alloc, test, sequences, registers, values, &none, most, &mut steps,
    )?;
    Ok(FrontAnswer { front, steps })
}

/// Whether a register holds a read at the end.
fn holds_read(test: &Test, register: Register) -> bool
    ensures { result ≡ is_some (last_writer_of test.now register.thread register.reg) }
{
    let thread = register.thread as usize;
    if thread < test.threads() {
        test.last_writer(thread, register.reg).is_some()
    } else {
        false
    }
}

/// Whether each of the registers holds a read at the end.
pub fn hold_reads(test: &Test, registers: &[Register]) -> bool
    ensures yes { result ≡ true → HoldReads test.now (map register_seen registers.now) }
    ensures no { result ≡ false → HoldReads test.now (map register_seen registers.now) → ⊥ }
{
    for register in registers {
        if !holds_read(test, *register) {
            return false;
        }
    }
    true
}
