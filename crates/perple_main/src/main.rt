//! The program `perple`: hands the words, standard input, both outputs and a new field to [`perple_core::perple`],
//! whose contract has all that is promised, and ends with the number that [`program_edge::ending`] has for it.
#![tactic(auto)]

use perp_base::{Sink, Source, StdSink, StdSource};
use perple_core::{Field, NoGate, Outcome, perple};
use program_edge::{Unmade, ending, words_of};
use std::process::ExitCode;
use std::rt::Env;
use std::thread::Threads;

/// The program's one call; or why it is not made.
fn call<R: Threads + Sync + Env + AllocGlobal, S: Source, O: Sink, E: Sink>(
    rt: &R,
    source: &mut S,
    out: &mut O,
    err: &mut E,
) -> Result<Outcome, Unmade> {
    let words = words_of(rt)?;
    let field = Field::new(rt.alloc())?;
    Ok(perple(rt, rt.alloc(), &words, source, out, err, field, &NoGate))
}

fn main(rt: HostRuntime) -> ExitCode {
    let mut source = StdSource::new(rt.stdin());
    let mut out = StdSink::new(rt.stdout());
    let mut err = StdSink::new(rt.stderr());
    ExitCode::from(ending(&call(&rt, &mut source, &mut out, &mut err)))
}
