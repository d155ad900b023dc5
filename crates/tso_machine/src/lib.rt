//! The x86-TSO machine that all runs are stated on, and the frames that outcomes are counted over: definitions and
//! their laws.
//!
//! specs/Machine has the machine, specs/Run the runs: those in which each thread performs its body n times
//! (specs/Part). Of these definitions five laws are proved, each as the only clause of a function: what a read takes
//! names its source in the run (`values_name_their_source`); where one thread has all stores of a location its memory
//! counts up (`values_rise`); logs are whole (`logs_are_whole`); and the frames of `t` iterations below `n` and the
//! numbers below `n^t` stand for one another (`frames_have_numbers`, `numbers_have_frames`).
#![tactic(auto)]

mod laws;

pub use laws::{
    frames_have_numbers, logs_are_whole, numbers_have_frames, values_name_their_source, values_rise,
};
