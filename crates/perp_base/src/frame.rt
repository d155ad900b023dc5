//! One iteration number for each thread of a test.
ghost use Rattle.std.specs.Prelude.{◌≡◌, ◌<◌, ◌≤◌, ◌++◌, [], ◌∷◌, length, nat_eq, replicate, slice_index, slice_set};
ghost use Rattle.std.specs.Cmp.Lexicographic.{pointwise};

use crate::limits::MOST_THREADS;
use arrayvec::ArrayVec;
use std::marker::Model;

/// At most eight iteration numbers, by thread from 0. Contracts see them as a list.
#[derive(Drop)]
pub struct Frame {
    iterations: ArrayVec<u32, MOST_THREADS>,
}

impl Model for Frame {
    ghost use Rattle.std.specs.Prelude.{ℕ, List};

    ghost Value = { List ℕ };

    ghost view = { λ frame. frame.iterations.items };
}

impl Frame {
    /// The frame of no threads.
    pub fn new() -> Frame
        ensures { result ≡ [] }
    {
        Frame {
            iterations: ArrayVec::new(),
        }
    }

    /// The frame that has the same iteration of each of so many threads, at most eight.
    pub fn filled(threads: usize, n: u32) -> Frame
        requires { threads ≤ MOST_THREADS }
        ensures { result ≡ replicate threads n }
    {
        let mut frame = Frame::new();
        for _ in 0..threads {
            frame.add(n);
        }
        frame
    }

    /// Adds the iteration of the next thread, which is at most the eighth.
    pub fn add(&mut self, n: u32)
        requires { length self.old < MOST_THREADS }
        ensures { self.new ≡ self.old ++ n ∷ [] }
    {
        self.iterations.push(n);
    }

    /// Changes the iteration of this thread.
    pub fn set(&mut self, thread: usize, n: u32)
        requires { thread < length self.old }
        ensures { self.new ≡ slice_set self.old thread n }
    {
        self.iterations.as_mut_slice()[thread] = n;
    }

    /// The iteration of this thread.
    #[inline(always)]
    pub fn at(&self, thread: usize) -> u32
        requires { thread < length self.now }
        ensures { result ≡ slice_index self.now thread }
    {
        self.iterations.as_slice()[thread]
    }

    /// The number of threads, at most eight.
    #[inline(always)]
    pub fn len(&self) -> usize
        ensures value { result ≡ length self.now }
        ensures most { result ≤ MOST_THREADS }
    {
        self.iterations.as_slice().len()
    }

    /// Whether both frames have the same iterations of the same number of threads.
    pub fn is(&self, other: &Frame) -> bool
        ensures { result ≡ pointwise nat_eq self.now other.now }
    {
        self.iterations.as_slice() == other.iterations.as_slice()
    }
}
