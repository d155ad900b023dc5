//! The run of a schedule as a list of events: what a replay does, told event by event.
//!
//! `run_of_schedule` takes the turns that `perp_loop::replay` takes, by the same rule (`due`, `next_position`, `pick`),
//! and keeps each event. Its clause `run` says that the events are those of a run of the schedule (`IsScheduled` of
//! `tso_runs`), its clause `only` that each run of the schedule has these events, and its clause `legal` that the judge
//! of `run_judge` calls them Legal. So the history and the logs of `replay`, which its clauses tie to that run, are
//! those of these events.
#![tactic(auto)]

mod player;
mod run;
mod turn;

pub use run::run_of_schedule;
