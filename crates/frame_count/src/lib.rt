//! The exhaustive counter: at how many frames the conditions of a test hold of its logs.
//!
//! `count` goes through all frames, cut into pieces that `rayon` shares among threads. Its clause says that the result
//! is `count_of` of `outcome_conv` over the logged values, whatever the cut. `row_count` counts the frames of a row,
//! which differ in the last thread's iteration alone, and `holds` tells of one frame; theirs are counts and values of
//! `conds_hold`. `frames` and `frame_of` number the frames.
//!
//! Frames with the same iterations of the first threads are neighbours in the order of their numbers: a block (`block`,
//! whose definitions are `specs/Block`). A condition is tested once for a block, at the thread that settles it
//! (`so_far`). A block of which no conjunction is left has no hit, and one of which a conjunction is settled has no other
//! frames than hits. Where that pays, the hits of other blocks are remembered, in room that is lent to the count of a
//! piece (`pieces`): one that leaves the same conjunctions, and has the same iterations of those first threads of which
//! the conditions that are left speak, has as many. Else its blocks of one thread more are counted, and at the last
//! thread a row. Blocks of neighbouring iterations that leave the same conjunctions, of which none speaks of the thread
//! and one after it, are counted once for all (`until`).
//!
//! A conjunction that the other threads' iterations rule out is not looked at in a row. What they settle of the others is
//! tested once a row: each gets a stretch of the last thread's iterations outside of which it cannot hold (`reach`, its
//! clause `Leaves` of `specs/Row`). Where the last thread's values never fall, as where one thread writes, the bounds of
//! a stretch are searched for. What is left is tested eight iterations at once by lanes, sixty-four to a word, and in
//! fewer than sixty-four iterations one by one. Where the test has one conjunction, and one condition alone is on what the
//! last thread logged, each word of its column is known before (`known`, its clause `Tells` of `specs/Known`), and lanes
//! test those alone that the bound of a row cuts.
//!
//! The tests that are left of a row may be the same in every row. Where they are, a row with the bounds and stretches
//! of the remembered row has as many hits as that one: it is counted in one step (`Counted::next`). So what the last
//! thread reads of its own stores is tested in one row for many.
//!
//! What that means for the logs of a run is said by the laws of `specs/RunLogs`: the count is the number of hits of the
//! run (`counts_are_hits`), that of a row the number of its hits (`rows_count_hits`), and what `outcome_conv` says of
//! the values of a run holds of the logs (`logs_give_the_values`), which meet what the calls ask
//! (`logs_meet_the_conditions`).
#![tactic(auto)]

mod at_frame;
mod block;
mod counted;
mod known;
mod lanes;
mod laws;
mod numbers;
mod pieces;
mod reach;
mod row;
mod so_far;
mod stretch;
mod until;

pub use at_frame::holds;
pub use laws::{counts_are_hits, logs_give_the_values, logs_meet_the_conditions, rows_count_hits};
pub use numbers::{frame_of, frames};
pub use pieces::count;
pub use row::row_count;
