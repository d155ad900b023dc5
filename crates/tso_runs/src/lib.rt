//! The runs of x86-TSO in which threads loop over their bodies without a barrier and drain their store buffers by a
//! seed, and what holds of them. There is no code; each law is the clause of a function with an empty body:
//!
//! - `lawful_parts_merge`: parts that keep their buffers, and whose shared steps are those of one flat history, merge
//!   into a legal run that makes this history. So the steps that threads made on shared words are explained by one run
//!   of the machine.
//! - `legal_runs_make_their_histories`: each legal run makes a flat history, of which the shared steps of its parts are
//!   the parts.
//! - `fitting_runs_and_histories`: both of these for runs that fit the threads' lists of steps (`Fits`), in which each
//!   thread performs its body as often as it is asked to.
//! - `lawful_parts_are_one`: its shared steps determine a thread's lawful part, and so what the thread read.
//! - `each_schedule_has_one_run`: each schedule has exactly one run (`IsScheduled`), which performs the bodies too.
#![tactic(auto)]

mod laws;

pub use laws::{
    each_schedule_has_one_run, fitting_runs_and_histories, lawful_parts_are_one,
    lawful_parts_merge, legal_runs_make_their_histories,
};
