//! Words that are commands, and words that are none.
ghost use Rattle.perp_base.specs.Options.{IsWithinLimits};
ghost use Rattle.command_words.specs.Job.{IsWithin};

use crate::{
    Command, Count, CountJob, Job, Options, ReplayJob, Schedule, WordsError, read_count,
    read_iterations, read_replay, read_words,
};
use std::alloc::{AllocError, Global};
use std::test::Fail;

/// The words of a line, which stand between single spaces.
fn words_of(alloc: Global, line: &str) -> Result<Vec<String>, AllocError> {
    let mut words = Vec::new(alloc);
    for word in line.split(' ') {
        words.push(String::from_str(alloc, word)?)?;
    }
    Ok(words)
}

fn read(alloc: Global, line: &str) -> Result<Command, WordsError> {
    match words_of(alloc, line) {
        Ok(words) => read_words(alloc, words.as_slice()),
        Err(_) => Err(WordsError::Memory),
    }
}

const USUAL: Options = Options {
    iterations: 5,
    seed: 0,
    rate: 64,
    buffer: 8,
};

/// Lines that name a command.
fn commands() -> [(&'static str, Command); 7] {
    let plain = Job {
        options: USUAL,
        count: Count::Exhaustive,
        cut: 4096,
        order: None,
    };
    let seeded = Job {
        options: Options { seed: 7, ..USUAL },
        count: Count::Exhaustive,
        cut: 1,
        order: None,
    };
    let ordered = Job {
        options: USUAL,
        count: Count::Heuristic,
        cut: 65536,
        order: Some(18446744073709551615),
    };
    let most = Job {
        options: Options {
            iterations: 100000,
            seed: 1,
            rate: 256,
            buffer: 16,
        },
        count: Count::Both,
        cut: 4096,
        order: None,
    };
    [
        ("run 005", Command::Run(plain)),
        ("replay 5 --count exhaustive", Command::Replay(plain)),
        ("run --seed=7 5 --cut 1", Command::Run(seeded)),
        (
            "replay 5 --order 18446744073709551615 --cut=65536 --count heuristic",
            Command::Replay(ordered),
        ),
        (
            "run --rate 256 --buffer=16 --count=both --seed 00000000000000000001 100000",
            Command::Run(most),
        ),
        ("convert", Command::Convert),
        ("demo 0", Command::Demo(0)),
    ]
}

/// Lines that name none.
static REFUSED: [&str; 33] = [
    "run",
    "run 0",
    "run 100001",
    "run +5",
    "run -5",
    "run 5 6",
    "run 5 --seed 1 --seed 2",
    "run 5 --seed 1 --seed=1",
    "run 5 --seed",
    "run 5 --seed=",
    "run 5 --seed=1=2",
    "run 5 --seed --cut 1",
    "run 5 --see=1",
    "run 5 --seed=000000000000000000001",
    "run 5 --seed 18446744073709551616",
    "run 5 --rate 257",
    "run 5 --buffer 0",
    "run 5 --buffer 17",
    "run 5 --cut 0",
    "run 5 --cut 65537",
    "run 5 --count all",
    "run 5 --order 1",
    "run -- 5",
    "run 5 --help",
    "run -h",
    "replay 5 --order x",
    "convert x",
    "convert --",
    "demo",
    "demo 1 2",
    "demo --",
    "walk 5",
    "--help",
];

#[test]
fn reads_lines(rt: HostRuntime) -> Result<(), Fail> {
    let alloc = rt.alloc();
    for (line, command) in commands() {
        assert_eq!(rt; read(alloc, line), Ok(command), "{line}");
    }
    for line in &REFUSED {
        assert_eq!(rt; read(alloc, *line), Err(WordsError::Usage), "{line}");
    }
    assert_eq!(rt; read_words(alloc, &[]), Err(WordsError::Usage));
    Ok(())
}

/// The number of iterations after the name that begins a line.
fn iterations(alloc: Global, line: &str) -> Result<u32, WordsError> {
    let Ok(words) = words_of(alloc, line) else {
        return Err(WordsError::Memory);
    };
    if words.is_empty() {
        return Err(WordsError::Usage);
    }
    read_iterations(alloc, &words)
}

/// A name, and after it the number of iterations alone.
#[test]
fn reads_iterations(rt: HostRuntime) -> Result<(), Fail> {
    let alloc = rt.alloc();
    for (line, count) in [("walk 1", 1), ("run 005", 5), ("walk 100000", 100000)] {
        assert_eq!(rt; iterations(alloc, line), Ok(count), "{line}");
    }
    for line in [
        "walk",
        "walk 0",
        "walk 100001",
        "walk -5",
        "walk 5 6",
        "walk 5 --seed 1",
        "walk -- 5",
        "walk x",
    ] {
        assert_eq!(rt; iterations(alloc, line), Err(WordsError::Usage), "{line}");
    }
    Ok(())
}

/// The job of a count after the name that begins a line.
fn count_job(alloc: Global, line: &str) -> Result<CountJob, WordsError> {
    let Ok(words) = words_of(alloc, line) else {
        return Err(WordsError::Memory);
    };
    if words.is_empty() {
        return Err(WordsError::Usage);
    }
    read_count(alloc, &words)
}

/// A job of a count: so many pieces, and this schedule.
fn counting(options: Options, cut: u32, order: Option<Schedule>) -> CountJob
    requires { IsWithin options cut }
{
    CountJob {
        options,
        cut,
        order,
    }
}

/// A name, and after it the number of iterations and the options of a run and a schedule, but not the way to count.
#[test]
fn reads_counts(rt: HostRuntime) -> Result<(), Fail> {
    let alloc = rt.alloc();
    let most = Options {
        iterations: 100000,
        seed: 18446744073709551615,
        rate: 256,
        buffer: 16,
    };
    for (line, job) in [
        ("count 5", counting(USUAL, 4096, None)),
        (
            "count --order=turns 005 --cut 1",
            counting(USUAL, 1, Some(Schedule::Turns)),
        ),
        (
            "count 5 --order 0 --cut=65536",
            counting(USUAL, 65536, Some(Schedule::Seeded(0))),
        ),
        (
            "count --buffer=16 --rate 256 --seed 18446744073709551615 100000",
            counting(most, 4096, None),
        ),
    ] {
        assert_eq!(rt; count_job(alloc, line), Ok(job), "{line}");
    }
    for line in [
        "count",
        "count 0",
        "count 100001",
        "count 5 --count exhaustive",
        "count 5 --order",
        "count 5 --order Turns",
        "count 5 --order 18446744073709551616",
        "count 5 --order turns --order 1",
        "count 5 --rate 257",
        "count 5 --buffer 0",
        "count 5 --cut 65537",
        "count 5 6",
        "count -- 5",
    ] {
        assert_eq!(rt; count_job(alloc, line), Err(WordsError::Usage), "{line}");
    }
    Ok(())
}

/// The replay of which nothing is counted, after the name that begins a line.
fn replay_job(alloc: Global, line: &str) -> Result<ReplayJob, WordsError> {
    let Ok(words) = words_of(alloc, line) else {
        return Err(WordsError::Memory);
    };
    if words.is_empty() {
        return Err(WordsError::Usage);
    }
    read_replay(alloc, &words)
}

fn replaying(options: Options, schedule: Schedule) -> ReplayJob
    requires { IsWithinLimits options }
{
    ReplayJob { options, schedule }
}

/// A name, and after it the number of iterations and the options of a replay, but none of how hits are counted.
#[test]
fn reads_replays(rt: HostRuntime) -> Result<(), Fail> {
    let alloc = rt.alloc();
    let most = Options {
        iterations: 100000,
        seed: 18446744073709551615,
        rate: 256,
        buffer: 16,
    };
    for (line, job) in [
        ("replay 5", replaying(USUAL, Schedule::Turns)),
        (
            "replay --order=0 005",
            replaying(USUAL, Schedule::Seeded(0)),
        ),
        (
            "replay --buffer=16 --rate 256 --seed 18446744073709551615 100000 --order 18446744073709551615",
            replaying(most, Schedule::Seeded(18446744073709551615)),
        ),
    ] {
        assert_eq!(rt; replay_job(alloc, line), Ok(job), "{line}");
    }
    for line in [
        "replay",
        "replay 0",
        "replay 100001",
        "replay 5 --count exhaustive",
        "replay 5 --cut 1",
        "replay 5 --order turns",
        "replay 5 --order 1 --order 1",
        "replay 5 --rate 257",
        "replay 5 --buffer 0",
        "replay 5 6",
        "replay -- 5",
    ] {
        assert_eq!(rt; replay_job(alloc, line), Err(WordsError::Usage), "{line}");
    }
    Ok(())
}
