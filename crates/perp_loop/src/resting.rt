//! A gate that lets other threads run.

use crate::gate::Gate;
use std::thread::yield_now;

/// Tells the gate after it of each iteration, and before some early ones lets another thread run. So where a processor
/// has more threads than one, they come to their first iterations in turn, while the buffers of the others hold writes.
/// It waits for nobody: where no other thread is ready, it goes on at once.
#[derive(Drop)]
pub(crate) struct Resting<'a, G: Gate> {
    gate: &'a G,
}

impl<'a, G: Gate> Resting<'a, G> {
    pub(crate) fn new(gate: &'a G) -> Resting<'a, G> {
        Resting { gate }
    }
}

impl<G: Gate> Gate for Resting<'_, G> {
    fn before(&self, thread: u32, iteration: u32) {
        if matches!(iteration, 8 | 16 | 32 | 64) {
            yield_now();
        }
        self.gate.before(thread, iteration);
    }
}
