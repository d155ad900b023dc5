//! What a witness is asked for.

use load_log::Logs;
use seq_conv::Sequences;
use x86_subset::Test;

/// A test with its sequences, and logs of n iterations.
#[derive(Clone, Copy)]
pub struct Case<'a> {
    pub test: &'a Test,
    pub sequences: &'a Sequences,
    pub n: u32,
    pub logs: &'a Logs,
}
