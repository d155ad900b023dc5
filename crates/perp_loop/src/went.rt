//! What a step of a walker did.
ghost use Rattle.std.specs.Prelude.{◌≡◌};
ghost use Rattle.perp_loop.specs.Replaying.{goes_on_after};

/// Whether a step of a walker found something to do.
#[derive(Clone, Copy, PartialEq, Eq)]
pub enum Went {
    /// It made the next action, or drained a write after the last one.
    Action,
    /// Nothing was left to do.
    Finished,
}

impl Went {
    /// Whether a turn was taken.
    pub fn goes_on(self) -> bool
        ensures { result ≡ goes_on_after self }
    {
        match self {
            Went::Action => true,
            Went::Finished => false,
        }
    }
}
