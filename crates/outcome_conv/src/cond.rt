//! One condition on a logged value and the writer's iteration.
ghost use Rattle.std.specs.Prelude.{◌≡◌};
ghost use Rattle.outcome_conv.specs.Conditions.{IsKind};
ghost use Rattle.outcome_conv.specs.Conds.{kind_holds};

/// What is asked of a value, where m is the writer's iteration: to be at least k*m + a and of its residue, to be below
/// k*m + 1, or to be k*m + a.
#[derive(Clone, Copy, Debug, PartialEq, Eq)]
pub enum CondKind {
    AtLeast { k: u64, a: u64 },
    Below { k: u64 },
    Exact { k: u64, a: u64 },
}

/// A condition on what the reader logged in a column, and on the writer's iteration.
#[derive(Clone, Copy, Debug, PartialEq, Eq)]
pub struct Cond {
    pub reader: u32,
    pub column: u32,
    pub loc: u32,
    pub writer: u32,
    pub kind: CondKind,
}

impl Cond {
    /// Whether the condition holds of a logged value where the writer is in iteration `m`.
    pub fn holds(&self, value: u64, m: u32) -> bool
        requires { IsKind self.now.kind }
        ensures { result ≡ kind_holds self.now.kind value m }
    {
        let m = m as u64;
        match self.kind {
            CondKind::AtLeast { k, a } => k * m + a <= value && value % k == a % k,
            CondKind::Below { k } => value < k * m + 1,
            CondKind::Exact { k, a } => value == k * m + a,
        }
    }
}
