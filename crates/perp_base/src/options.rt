//! What a run is asked to do.

/// How often each body is done, and how the store buffers drain. A run asks for 1 to 100,000 iterations, a rate of 0 to
/// 256 and a buffer of 1 to 16 writes; every seed will do.
#[derive(Clone, Copy, Debug, PartialEq, Eq)]
pub struct Options {
    /// How often each thread performs its body.
    pub iterations: u32,
    /// Where the words that decide on drains begin; each thread adds its number.
    pub seed: u64,
    /// How many of 256 words ask for a drain.
    pub rate: u32,
    /// How many writes a store buffer holds.
    pub buffer: u32,
}
