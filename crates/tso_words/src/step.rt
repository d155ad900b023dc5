//! One step on a word, and the lists of steps that proofs speak of.
use perp_base::{MOST_LOCATIONS, MOST_THREADS};
use std::collections::LinkedList;

/// How many shared words there are.
pub const WORD_COUNT: usize = MOST_LOCATIONS;

/// How many numbers of threads there are.
pub const THREAD_COUNT: u32 = MOST_THREADS as u32;

/// A step on the word `loc`, from 0. A load has the value that it found, and a swap the value that it found as `old`.
#[derive(Clone, Copy, PartialEq, Eq, Debug)]
pub enum Step {
    Load { loc: u32, value: u64 },
    Store { loc: u32, value: u64 },
    Swap { loc: u32, new: u64, old: u64 },
}

/// A step with the number of the thread that took it.
#[derive(Clone, Copy, PartialEq, Eq, Debug)]
pub struct TracedStep {
    pub thread: u32,
    pub step: Step,
}

/// A thread's number with the steps that it took. No value of it is made: seats know lists of these.
pub struct Part {
    pub thread: u32,
    pub steps: LinkedList<Step>,
}
