//! The conditions in numbers of what holds within a frame.
ghost use Rattle.std.specs.Prelude.{◌≡◌, IfOk, map};
ghost use Rattle.seq_conv.specs.Numbers.{AreOf};
ghost use Rattle.frames_within.specs.Counting.{conds_within, narrowed, narrowed_kind};

use outcome_conv::{Cond, CondKind, Conds};
use perp_base::NoMemory;
use profile_check::Checked;
use seq_conv::Sequences;
use std::alloc::Global;

/// What is asked of a value, where no later iteration may give it.
fn narrowed_kind(kind: CondKind) -> CondKind
    ensures { result ≡ narrowed_kind kind }
{
    match kind {
        CondKind::AtLeast { k, a } => CondKind::Exact { k, a },
        CondKind::Below { k } => CondKind::Below { k },
        CondKind::Exact { k, a } => CondKind::Exact { k, a },
    }
}

/// A condition that takes no later iteration.
fn narrowed(cond: Cond) -> Cond
    ensures { result ≡ narrowed cond }
{
    Cond {
        kind: narrowed_kind(cond.kind),
        ..cond
    }
}

fn all_narrowed(alloc: Global, conds: &[Cond]) -> Result<Vec<Cond>, NoMemory>
    ensures { IfOk result (λ v. v.items ≡ map narrowed conds.now) }
{
    let mut all = Vec::new(alloc);
    for cond in conds {
        all.push(narrowed(*cond))?;
    }
    Ok(all)
}

/// The conditions of a checked test's atoms within frames, cut as the atoms are. The sequences are those of the test.
pub fn conds_within(
    alloc: Global,
    checked: &Checked,
    sequences: &Sequences,
) -> Result<Conds, NoMemory>
    requires { AreOf checked.now.test sequences.now }
    ensures conds { IfOk result (λ c. c.conds ≡ conds_within checked.now.test checked.now.kinds) }
    ensures ends { IfOk result (λ c. c.ends ≡ checked.now.test.ends) }
{
    let conds = Conds::of(alloc, checked, sequences)?;
    let narrow = all_narrowed(alloc, conds.all())?;
    let ends = conds.ends().to_vec(alloc)?;
    Ok(Conds::new(narrow, ends))
}
