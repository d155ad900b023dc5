//! What is told of each iteration.

/// Is told of each iteration by the thread that begins it. All threads share it.
pub trait Gate: Sync {
    /// Is called before the first action of an iteration; threads and iterations count from 0.
    fn before(&self, thread: u32, iteration: u32);
}

/// A gate that lets everything pass at once.
#[derive(Clone, Copy)]
pub struct NoGate;

impl Gate for NoGate {
    fn before(&self, _thread: u32, _iteration: u32) {}
}
