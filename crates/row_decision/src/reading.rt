//! A read and its source.
use verdict::Node;

/// A load or an exchange, the location that it reads, and the store that it takes its value from, or none where it
/// takes the initial value.
#[derive(Clone, Copy, Debug, PartialEq, Eq)]
pub struct Reading {
    pub reader: Node,
    pub location: u32,
    pub source: Option<Node>,
}
