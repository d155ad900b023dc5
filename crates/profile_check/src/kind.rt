//! The kinds of atoms.
ghost use Rattle.std.specs.Prelude.{◌≡◌, ◌≤◌};
ghost use Rattle.profile_check.specs.Kinds.{kind_number};

/// Why an atom has no kind: the first of these that is so, in this order.
#[derive(Clone, Copy, Debug, PartialEq, Eq)]
pub enum ProfileKind {
    /// The test has no thread of that number.
    NoSuchThread,
    /// The register holds a constant at the end of its thread.
    NotLoaded,
    /// The value is not 0, and no store to the location was written with it.
    NoStore,
    /// The value is not 0, and several stores to the location were written with it.
    Ambiguous,
    /// The value is 0, and a store to the location was written with it.
    ZeroStored,
    /// The value is 0, and the location has no store.
    NoWriter,
    /// The value is 0, and the location has stores by several threads.
    SeveralWriters,
    /// The value is 0, and the location has stores by the atom's own thread alone.
    OwnWriter,
}

impl ProfileKind {
    /// The number of the kind: 1 to 8, in the order above.
    pub fn number(&self) -> u8
        ensures is { result ≡ kind_number self.now }
        ensures least { 1 ≤ result }
        ensures most { result ≤ 8 }
    {
        match *self {
            ProfileKind::NoSuchThread => 1,
            ProfileKind::NotLoaded => 2,
            ProfileKind::NoStore => 3,
            ProfileKind::Ambiguous => 4,
            ProfileKind::ZeroStored => 5,
            ProfileKind::NoWriter => 6,
            ProfileKind::SeveralWriters => 7,
            ProfileKind::OwnWriter => 8,
        }
    }
}

/// What an atom asks of a run. Its reader is the thread whose register it names, and the column is that of the action
/// that the register was read by; the writer is a thread, and the place is that of its store. All count from 0.
#[derive(Clone, Copy, Debug, PartialEq, Eq)]
pub enum AtomKind {
    /// The value comes from this store, in the writer's iteration or a later one.
    Rf {
        reader: u32,
        column: u32,
        writer: u32,
        place: u32,
    },
    /// The value is older than the writer's first store to the location in its iteration.
    Fr {
        reader: u32,
        column: u32,
        writer: u32,
    },
    /// The value comes from this store, in the writer's iteration or a later one, and is older than the store that
    /// follows it.
    Exact {
        reader: u32,
        column: u32,
        writer: u32,
        place: u32,
    },
}
