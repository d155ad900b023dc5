//! The store buffer of one thread of an x86 processor, and the seeded choice of when it drains.
//!
//! `Buffer` is a queue of at most 16 writes that only its own thread sees (Owens, Sarkar and Sewell, "A better x86
//! memory model: x86-TSO", 2009), in a ring over the slots of an `ArrayVec` (`window` of `specs/Ring`). Its clauses say
//! that it keeps order: `push` appends at the end or gives the write back (`room`, `ok`, `err`), `drain_one` takes the
//! oldest write (`oldest`, `rest`), and a load is forwarded the value of the newest write of its location
//! (`newest_for`, by `newest_value` of `specs/Contents`). `Drains` answers, before each action of its thread, whether a
//! write drains: its clause `asks` says that the answer is that of word j of Xoshiro256++ after a seeding by the seed
//! and the thread (`asks_drain` of `specs/Generator`). No call takes memory.
#![tactic(auto)]

mod buffer;
mod drains;
mod entry;

pub use buffer::Buffer;
pub use drains::Drains;
pub use entry::Entry;
