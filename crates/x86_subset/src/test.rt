//! A litmus test.
ghost use Rattle.std.specs.Prelude.{◌≡◌, ◌≤◌, ◌<◌, length, take, count_by, All, IsFalse};
ghost use Rattle.std.specs.List.{list_any};
ghost use Rattle.x86_subset.specs.Instr.{is_reading};
ghost use Rattle.x86_subset.specs.Registers.{AreHeld};
ghost use Rattle.x86_subset.specs.Test.{Code};
ghost use Rattle.x86_subset.specs.Shape.{is_long};

use crate::body::Body;
use crate::form::Span;
use crate::instr::{Instr, Reg};
use perp_base::{MOST_ACTIONS, MOST_ATOMS, MOST_LOCATIONS, MOST_THREADS, Name};
use std::marker::Model;
use thiserror::Error;

/// How a condition is asked for.
#[derive(Clone, Copy, Debug, PartialEq, Eq)]
pub enum Quantifier {
    /// `exists`.
    Exists,
    /// `~exists`.
    NotExists,
}

/// `thread:reg = value`: at the end of the thread, numbered from 0, the register holds the value.
#[derive(Clone, Copy, Debug, PartialEq, Eq)]
pub struct Atom {
    pub thread: u32,
    pub reg: Reg,
    pub value: u32,
}

/// A limit that a test passes, in the order in which they are tested.
#[derive(Clone, Copy, Debug, Error, PartialEq, Eq)]
pub enum Shape {
    /// More than 8 threads.
    #[error("limit threads 8")]
    Threads,
    /// More than 16 locations.
    #[error("limit locations 16")]
    Locations,
    /// More than 16 actions in one body.
    #[error("limit instructions 16")]
    Instrs,
    /// More than 32 atoms.
    #[error("limit atoms 32")]
    Atoms,
}

/// A litmus test within the limits: its name, its threads' bodies over numbered locations, and its condition,
/// which is atoms cut into conjunctions.
#[derive(Drop)]
pub struct Test {
    name: Name,
    locations: Vec<Name>,
    bodies: Vec<Body>,
    quantifier: Quantifier,
    atoms: Vec<Atom>,
    ends: Vec<u32>,
}

impl Model for Test {
    ghost use Rattle.x86_subset.specs.Test.{LitmusTest};
    ghost use Rattle.x86_subset.specs.Shape.{IsTest};

    ghost Value = { LitmusTest };

    ghost view = { λ t. record {
      name = t.name;
      locations = t.locations.items;
      bodies = t.bodies.items;
      quantifier = t.quantifier;
      atoms = t.atoms.items;
      ends = t.ends.items;
    } };

    ghost invariant = { λ t. IsTest (record {
      name = t.name;
      locations = t.locations.items;
      bodies = t.bodies.items;
      quantifier = t.quantifier;
      atoms = t.atoms.items;
      ends = t.ends.items;
    }) };
}

/// Whether a body has more than 16 actions. Where none has, the registers hold what the bodies read.
fn some_long(bodies: &[Body]) -> bool
    ensures is { result ≡ list_any is_long bodies.now }
    ensures held { IsFalse result → All (λ (code : Code). AreHeld code.actions code.registers) bodies.now }
{
    for b in bodies {
        if b.len() > MOST_ACTIONS {
            return true;
        }
    }
    false
}

/// How many of the actions read.
fn reads(actions: &[Instr]) -> usize
    ensures { result ≡ count_by is_reading actions.now }
{
    actions.iter().filter(|i| i.is_reading()).count()
}

impl Test {
    ghost use Rattle.std.specs.Prelude.{Ok, Err};
    ghost use Rattle.x86_subset.specs.Conjunctions.{AreEnds, from_of, to_of};
    ghost use Rattle.x86_subset.specs.Test.{body_of, columns_of, column_at, last_writer_of};
    ghost use Rattle.x86_subset.specs.Shape.{AreLocated, IsTest, if_within_limits};

    /// The test of these parts, or the first limit that they pass. `ends` has for each conjunction the number of
    /// all atoms up to its end. On refusal the parts are dropped. Takes no memory.
    #[tactic(auto, unfolding(crate::specs::Shape::limit_of))]
    pub fn new(
        name: Name,
        locations: Vec<Name>,
        bodies: Vec<Body>,
        quantifier: Quantifier,
        atoms: Vec<Atom>,
        ends: Vec<u32>,
    ) -> Result<Test, Shape>
        requires threads { 1 ≤ length bodies.items }
        requires atoms { 1 ≤ length atoms.items }
        requires located { AreLocated (length locations.items) bodies.items }
        requires ends { AreEnds ends.items (length atoms.items) }
        ensures { result ≡ if_within_limits (record {
          name = name;
          locations = locations.items;
          bodies = bodies.items;
          quantifier = quantifier;
          atoms = atoms.items;
          ends = ends.items;
        }) }
    {
        if bodies.len() > MOST_THREADS {
            return Err(Shape::Threads);
        }
        if locations.len() > MOST_LOCATIONS {
            return Err(Shape::Locations);
        }
        if some_long(&bodies) {
            return Err(Shape::Instrs);
        }
        if atoms.len() > MOST_ATOMS {
            return Err(Shape::Atoms);
        }
        Ok(Test {
            name,
            locations,
            bodies,
            quantifier,
            atoms,
            ends,
        })
    }

    /// The test's name.
    pub fn name(&self) -> &Name
        ensures { result.now ≡ self.now.name }
    {
        &self.name
    }

    /// How many threads there are: 1 to 8. Its second clause tells what holds of each test.
    pub fn threads(&self) -> usize
        ensures is { result ≡ length self.now.bodies }
        ensures test { IsTest self.now }
    {
        self.bodies.len()
    }

    /// The names of the locations, in the order of their numbers: at most 16.
    pub fn locations(&self) -> &[Name]
        ensures { result.now ≡ self.now.locations }
    {
        &self.locations
    }

    /// The actions of a thread in order: at most 16.
    pub fn body(&self, t: usize) -> &[Instr]
        requires { t < length self.now.bodies }
        ensures { result.now ≡ body_of self.now t }
    {
        self.bodies[t].actions()
    }

    /// How the condition is asked for.
    pub fn quantifier(&self) -> Quantifier
        ensures { result ≡ self.now.quantifier }
    {
        self.quantifier
    }

    /// The atoms of the condition in the order of the text: 1 to 32.
    pub fn atoms(&self) -> &[Atom]
        ensures { result.now ≡ self.now.atoms }
    {
        &self.atoms
    }

    /// How many actions of a thread read: the number of its columns.
    pub fn columns(&self, t: usize) -> usize
        requires { t < length self.now.bodies }
        ensures { result ≡ columns_of self.now t }
    {
        reads(self.body(t))
    }

    /// The column of the action at a place, which is how many actions before it read; `None` exactly where that
    /// action reads nothing.
    pub fn column(&self, t: usize, place: usize) -> Option<usize>
        requires thread { t < length self.now.bodies }
        requires place { place < length (body_of self.now t) }
        ensures { result ≡ column_at self.now t place }
    {
        let body = self.body(t);
        if body[place].is_reading() {
            Some(reads(&body[..place]))
        } else {
            None
        }
    }

    /// The place of the action whose read a register holds at the end of the body; `None` exactly where it holds
    /// a constant.
    pub fn last_writer(&self, t: usize, reg: Reg) -> Option<usize>
        requires { t < length self.now.bodies }
        ensures { result ≡ last_writer_of self.now t reg }
    {
        self.bodies[t].last_writer(reg)
    }

    /// How many conjunctions the condition has: 1 to 8.
    pub fn conjunctions(&self) -> usize
        ensures { result ≡ length self.now.ends }
    {
        self.ends.len()
    }

    /// The atoms of a conjunction, as places in the list of atoms.
    pub fn conjunction(&self, c: usize) -> Span
        requires { c < length self.now.ends }
        ensures from { result.from ≡ from_of self.now.ends c }
        ensures to { result.to ≡ to_of self.now.ends c }
    {
        Span::of_conjunction(&self.ends, c)
    }
}
