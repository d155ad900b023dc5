//! The two refusals that have nothing more to tell.
use std::alloc::{AllocError, AllocFailed};
use thiserror::Error;

/// A read or a write failed. It is answered only where the count of faults of the source or sink rose in the call.
#[derive(Clone, Copy, Debug, Error, PartialEq, Eq)]
#[error("reading or writing failed")]
pub struct Failed;

/// Memory ran out.
#[derive(Clone, Copy, Debug, Error, PartialEq, Eq)]
#[error("out of memory")]
pub struct NoMemory;

/// So that `?` hands on a refusal of std's allocator.
impl From<AllocError> for NoMemory {
    fn from(_: AllocError) -> Self {
        NoMemory
    }
}

/// So that `?` hands on a refusal that gives its value back, which is dropped.
impl<T: Drop> From<AllocFailed<T>> for NoMemory {
    fn from(_: AllocFailed<T>) -> Self {
        NoMemory
    }
}
