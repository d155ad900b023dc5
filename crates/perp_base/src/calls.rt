//! A count of calls that only proofs read. It takes no memory, and its functions do nothing when they run.
ghost use Rattle.std.specs.Prelude.{◌≡◌, ℕ, ◌+◌};
ghost use Rattle.std.specs.Borrow.{ftrue};

use std::marker::Model;

/// How many calls were made: a natural number, which has no last value at which it would stand still.
#[derive(Drop)]
pub struct Calls {
    pub ghost made: { ℕ },
}

impl Model for Calls {
    ghost also_owns = { λ _. ftrue };
}

impl Calls {
    /// Before the first call.
    pub fn none() -> Calls
        ensures { result.made ≡ 0 }
    {
        Calls {}
    }

    /// After one call more.
    pub fn and_one(&self) -> Calls
        ensures { result.made ≡ self.now.made + 1 }
    {
        Calls {}
    }
}
