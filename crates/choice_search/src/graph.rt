//! Edges, choices, and trees of cases.
ghost use Rattle.std.specs.Prelude.{◌≡◌};
ghost use Rattle.choice_search.specs.Graph.{is_pair};
ghost use Rattle.choice_search.specs.Search.{opposite_of, side_of};

/// An edge from one node to another.
#[derive(Clone, Copy, Debug, PartialEq, Eq)]
pub struct Pair {
    pub first: u32,
    pub second: u32,
}

/// A choice of two edges: the other node stands before the source, or after the reader.
#[derive(Clone, Copy, Debug, PartialEq, Eq)]
pub struct Choice {
    pub reader: u32,
    pub source: u32,
    pub other: u32,
}

/// A side of a choice.
#[derive(Clone, Copy, Debug, PartialEq, Eq)]
pub enum Side {
    /// The edge from the other node to the source.
    Before,
    /// The edge from the reader to the other node.
    After,
}

/// A tree of cases: a cycle, or a choice, what follows where its other node stands before the source, and what follows
/// where it stands after the reader.
#[derive(Debug, Drop)]
pub enum Tree {
    Cycle(Vec<u32>),
    Split(Choice, Box<Tree>, Box<Tree>),
}

impl Pair {
    /// Whether it leads from one node to another.
    pub fn is(self, a: u32, b: u32) -> bool
        ensures { result ≡ is_pair a b self }
    {
        self.first == a && self.second == b
    }
}

impl Side {
    /// The other side.
    pub fn opposite(self) -> Side
        ensures { result ≡ opposite_of self }
    {
        match self {
            Side::Before => Side::After,
            Side::After => Side::Before,
        }
    }
}

impl Choice {
    /// The edge of a side.
    pub fn edge(self, side: Side) -> Pair
        ensures { result ≡ side_of self side }
    {
        match side {
            Side::Before => Pair {
                first: self.other,
                second: self.source,
            },
            Side::After => Pair {
                first: self.reader,
                second: self.other,
            },
        }
    }
}
