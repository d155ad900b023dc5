//! What a walker steps through.
ghost use Rattle.std.specs.Prelude.{◌≡◌, ℕ, ◌<◌, ◌≤◌, List, [], ◌∷◌};
ghost use Rattle.tso_words.specs.declared.step.Step.{Step};
ghost use Rattle.tso_words.specs.declared.step.Step.TheVariants.{Load, Store, Swap};
ghost use Rattle.tso_words.specs.History.{word_count};
ghost use Rattle.tso_words.specs.Appended.{Appends};

/// Takes steps on the words as one thread. No call fails and none takes memory. Each call appends exactly one step, its
/// own, with the value that it answers (`Appends` of `specs/Appended`).
pub trait Port {
    // The steps so far.
    ghost steps: { Self → List Step };

    // So many further steps can be taken.
    ghost ready: { Self → ℕ → Type 0 };

    // What the calls leave as it is, from an earlier port to a later one.
    ghost kept: { Self → Self → Type 0 };

    /// Reads word `loc`.
    fn load(&mut self, loc: u32) -> u64
        requires in_range { loc < word_count }
        requires ready { ready self.old 1 }
        ensures { Appends steps ready kept self.old self.new (Load loc result ∷ []) };

    /// Writes word `loc`.
    fn drain(&mut self, loc: u32, value: u64)
        requires in_range { loc < word_count }
        requires ready { ready self.old 1 }
        ensures { Appends steps ready kept self.old self.new (Store loc value ∷ []) };

    /// Writes word `loc`, and answers what was there.
    fn swap(&mut self, loc: u32, new: u64) -> u64
        requires in_range { loc < word_count }
        requires ready { ready self.old 1 }
        ensures { Appends steps ready kept self.old self.new (Swap loc new result ∷ []) };

    // Where k steps can be taken, fewer can.
    ghost ready_for_fewer: { (p : Self) (j k : ℕ) → j ≤ k → ready p k → ready p j };

    // A port is kept by no call, and by calls one after another.
    ghost kept_at_once: { (p : Self) → kept p p };

    ghost kept_on: { (p q r : Self) → kept p q → kept q r → kept p r };
}
