//! Store buffering with and without fences, and a thread that reads its own store.
use load_log::{Log, Logs};
use perp_base::NoMemory;
use run_judge::{Judgement, judge};
use run_witness::{Found, are_logs_for, several_writers, witness};
use seq_conv::Sequences;
use std::alloc::Global;
use std::test::Fail;
use worked_texts::{OWN, SB, SBF, test_of};
use x86_subset::Test;

fn logs_of(alloc: Global, first: u64, second: u64) -> Result<Logs, NoMemory> {
    let mut logs = Logs::reserve(alloc, 2)?;
    let mut log = Log::reserve(alloc, 1, 1)?;
    log.put(first);
    logs.add(log);
    let mut log = Log::reserve(alloc, 1, 1)?;
    log.put(second);
    logs.add(log);
    Ok(logs)
}

/// The run's length where there is one; the place of a wrong value; the cycle's length.
#[derive(Clone, Copy, Debug, PartialEq, Eq)]
enum Seen {
    Run(usize),
    Wrong(u32, u32, u32),
    Cycle(usize),
}

fn look(alloc: Global, test: &Test, first: u64, second: u64) -> Result<Seen, Fail> {
    let sequences = Sequences::of(alloc, test)?;
    let logs = logs_of(alloc, first, second)?;
    if several_writers(test, &sequences).is_some() || !are_logs_for(test, 1, &logs) {
        return Ok(Seen::Run(0));
    }
    let found = match witness(alloc, test, &sequences, 1, &logs)? {
        Found::Run(events) => {
            let legal = judge(alloc, test, &sequences, 1, &events)?;
            if legal == Judgement::Legal {
                Seen::Run(events.len())
            } else {
                Seen::Run(0)
            }
        }
        Found::WrongValue {
            thread,
            iteration,
            column,
        } => Seen::Wrong(thread, iteration, column),
        Found::Cycle(events) => Seen::Cycle(events.len()),
    };
    Ok(found)
}

/// A test, what each of its threads logs in the one iteration, and what is seen then.
const ROWS: [(&str, u64, u64, Seen); 11] = [
    (SB, 0, 0, Seen::Run(6)),
    (SB, 0, 1, Seen::Run(6)),
    (SB, 1, 1, Seen::Run(6)),
    (SB, 0, 2, Seen::Wrong(1, 0, 0)),
    (SB, 2, 2, Seen::Wrong(0, 0, 0)),
    (SBF, 0, 0, Seen::Cycle(6)),
    (SBF, 0, 1, Seen::Run(8)),
    (SBF, 1, 1, Seen::Run(8)),
    (OWN, 1, 1, Seen::Run(6)),
    (OWN, 0, 1, Seen::Wrong(0, 0, 0)),
    (OWN, 1, 0, Seen::Wrong(1, 0, 0)),
];

#[test]
fn logs_have_runs_wrong_values_or_cycles(rt: HostRuntime) -> Result<(), Fail> {
    let alloc = rt.alloc();
    for (text, first, second, want) in ROWS {
        let test = test_of(alloc, text).ok_or("it is a test")?;
        assert_eq!(rt;
            look(alloc, &test, first, second)?,
            want,
            "at {text}{first} {second}"
        );
    }
    Ok(())
}
