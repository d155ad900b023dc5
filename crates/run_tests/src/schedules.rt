//! Worked runs.
use perp_base::{MOST_ITERATIONS, MOST_WRITES, Options, Schedule, WHOLE_RATE};
use replay_run::run_of_schedule;
use run_judge::{RunEvent, event_line};
use seq_conv::Sequences;
use std::alloc::Global;
use std::test::Fail;
use worked_texts::{MP, OWN, SB, test_of};

/// A fence and an exchange after stores, and a reader.
const BARRIERS: &str =
    "X86 BARRIERS\n{ }\n P0 | P1 ;\n MOV [x],$1 | MOV EAX,[x] ;\n MFENCE | ;\n MOV [y],$1 | ;\n MOV EAX,$1 | ;\n XCHG [x],EAX | ;\nexists (1:EAX=0)\n";

/// A run: its test, what it is asked to do, and the lines of its events.
struct Row {
    text: &'static str,
    options: Options,
    schedule: Schedule,
    lines: &'static [&'static str],
}

// The lines are those of `events` in tools/machine.py, a machine that was written apart from this one; `bench/events`
// compares them anew.
const ROWS: [Row; 7] = [
    Row {
        text: SB,
        options: Options {
            iterations: 1,
            seed: 0,
            rate: 0,
            buffer: 8,
        },
        schedule: Schedule::Turns,
        lines: &[
            "P0 0 0 push\n",
            "P1 0 0 push\n",
            "P0 0 1 read 0\n",
            "P1 0 1 read 0\n",
            "P0 0 0 drain\n",
            "P1 0 0 drain\n",
        ],
    },
    Row {
        text: SB,
        options: Options {
            iterations: 2,
            seed: 3,
            rate: 128,
            buffer: 1,
        },
        schedule: Schedule::Seeded(5),
        lines: &[
            "P0 0 0 push\n",
            "P0 0 0 drain\n",
            "P0 0 1 read 0\n",
            "P1 0 0 push\n",
            "P0 1 0 push\n",
            "P1 0 0 drain\n",
            "P1 0 1 read 1\n",
            "P0 1 0 drain\n",
            "P0 1 1 read 1\n",
            "P1 1 0 push\n",
            "P1 1 1 read 2\n",
            "P1 1 0 drain\n",
        ],
    },
    Row {
        text: MP,
        options: Options {
            iterations: 1,
            seed: 0,
            rate: 0,
            buffer: 1,
        },
        schedule: Schedule::Turns,
        lines: &[
            "P0 0 0 push\n",
            "P1 0 0 read 0\n",
            "P0 0 0 drain\n",
            "P0 0 1 push\n",
            "P1 0 1 read 1\n",
            "P0 0 1 drain\n",
        ],
    },
    Row {
        text: MP,
        options: Options {
            iterations: 2,
            seed: 7,
            rate: 64,
            buffer: 8,
        },
        schedule: Schedule::Seeded(4),
        lines: &[
            "P1 0 0 read 0\n",
            "P0 0 0 push\n",
            "P0 0 0 drain\n",
            "P0 0 1 push\n",
            "P0 1 0 push\n",
            "P0 0 1 drain\n",
            "P0 1 1 push\n",
            "P0 1 0 drain\n",
            "P0 1 1 drain\n",
            "P1 0 1 read 2\n",
            "P1 1 0 read 2\n",
            "P1 1 1 read 2\n",
        ],
    },
    Row {
        text: OWN,
        options: Options {
            iterations: 1,
            seed: 0,
            rate: 0,
            buffer: 8,
        },
        schedule: Schedule::Seeded(2),
        lines: &[
            "P0 0 0 push\n",
            "P0 0 1 read 1\n",
            "P1 0 0 push\n",
            "P0 0 0 drain\n",
            "P1 0 1 read 1\n",
            "P1 0 0 drain\n",
        ],
    },
    Row {
        text: OWN,
        options: Options {
            iterations: 2,
            seed: 0,
            rate: 256,
            buffer: 8,
        },
        schedule: Schedule::Turns,
        lines: &[
            "P0 0 0 push\n",
            "P1 0 0 push\n",
            "P0 0 0 drain\n",
            "P0 0 1 read 1\n",
            "P1 0 0 drain\n",
            "P1 0 1 read 1\n",
            "P0 1 0 push\n",
            "P1 1 0 push\n",
            "P0 1 0 drain\n",
            "P0 1 1 read 2\n",
            "P1 1 0 drain\n",
            "P1 1 1 read 2\n",
        ],
    },
    Row {
        text: BARRIERS,
        options: Options {
            iterations: 1,
            seed: 0,
            rate: 0,
            buffer: 8,
        },
        schedule: Schedule::Turns,
        lines: &[
            "P0 0 0 push\n",
            "P1 0 0 read 0\n",
            "P0 0 0 drain\n",
            "P0 0 1 fence\n",
            "P0 0 2 push\n",
            "P0 0 2 drain\n",
            "P0 0 3 exchange 1\n",
        ],
    },
];

/// The events have these lines.
fn have_lines(alloc: Global, events: &[RunEvent], lines: &[&str]) -> Result<bool, Fail> {
    if events.len() != lines.len() {
        return Ok(false);
    }
    for (event, line) in events.iter().zip(lines) {
        if event_line(alloc, event)?.as_str() != *line {
            return Ok(false);
        }
    }
    Ok(true)
}

#[test]
fn runs_have_the_events_of_the_machine(rt: HostRuntime) -> Result<(), Fail> {
    let alloc = rt.alloc();
    for row in &ROWS {
        let options = row.options;
        let low = options.iterations >= 1 && options.buffer >= 1;
        let high = options.iterations <= MOST_ITERATIONS && options.buffer <= MOST_WRITES as u32;
        if !low || !high || u64::from(options.rate) > WHOLE_RATE {
            return Err("the options are within the limits".into());
        }
        let test = test_of(alloc, row.text).ok_or("it is a test")?;
        let sequences = Sequences::of(alloc, &test)?;
        let events = run_of_schedule(alloc, &test, &sequences, &options, row.schedule)?;
        assert!(rt; have_lines(alloc, &events, row.lines)?);
    }
    Ok(())
}
