//! The limits of both programs, each with one home. All are this project's own.

/// How often each body is performed in a run, at most.
pub const MOST_ITERATIONS: u32 = 100_000;

/// How many frames are counted over, at most.
pub const MOST_FRAMES: u64 = 4_294_967_296;

/// Into how many pieces frames or iterations are cut, at most.
pub const MOST_PIECES: u32 = 65_536;

/// How many bytes a litmus text has, at most.
pub const MOST_BYTES: usize = 65_536;

/// How many bytes a litmus text with a section after it has, at most.
pub const MOST_INPUT: usize = 16_777_216;

/// How many threads a test has, at most.
pub const MOST_THREADS: usize = 8;

/// How many locations a test has, at most.
pub const MOST_LOCATIONS: usize = 16;

/// How many actions a body has, at most.
pub const MOST_ACTIONS: usize = 16;

/// How many atoms a condition has, at most.
pub const MOST_ATOMS: usize = 32;

/// How many conjunctions a condition has, at most.
pub const MOST_CONJUNCTIONS: usize = 8;

/// How many writes a store buffer holds, at most.
pub const MOST_WRITES: usize = 16;

/// How many states of a test are listed, at most.
pub const MOST_STATES: usize = 10_000;

/// How many steps the decision of a row takes, at most.
pub const MOST_STEPS: u64 = 20_000;

/// A rate says how many of so many words ask for a drain.
pub const WHOLE_RATE: u64 = 256;
