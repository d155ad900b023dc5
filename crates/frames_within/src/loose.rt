//! The first loose atom of a test.
ghost use Rattle.std.specs.Prelude.{◌≡◌, ◌<◌, length, MatchOption};
ghost use Rattle.litmus_outcomes.specs.Within.{IsSteady, is_steady};
ghost use Rattle.frames_within.specs.Loose.{IsFaithful, IsFirstLoose, IsFirstLooseIn};

use profile_check::{AtomKind, Checked};

/// An atom that a later iteration of the writer can meet: an rf atom that names a store of another thread than the
/// reader's.
#[derive(Clone, Copy, Debug, PartialEq, Eq)]
pub struct LooseAtom {
    /// The conjunction that it stands in, from 0.
    pub conjunction: u32,
    /// Its place among all atoms, from 0 in the order of the text.
    pub atom: u32,
}

/// An atom of this kind holds at no frame but within it.
fn is_steady(kind: AtomKind) -> bool
    ensures { result ≡ is_steady kind }
{
    match kind {
        AtomKind::Rf { reader, writer, .. } => writer == reader,
        AtomKind::Fr { .. } | AtomKind::Exact { .. } => true,
    }
}

/// The first loose atom of a conjunction, by its place among all atoms.
fn first_in(checked: &Checked, conjunction: usize) -> Option<u32>
    requires { conjunction < length checked.now.test.ends }
    ensures { MatchOption result (IsSteady checked.now conjunction) (IsFirstLooseIn checked.now conjunction) }
{
    let span = checked.test().conjunction(conjunction);
    for i in span.from as usize..span.to as usize {
        if !is_steady(checked.kind(i)) {
            return Some(i as u32);
        }
    }
    None
}

/// The first loose atom of a test; none exactly where the test is faithful.
pub fn first_loose(checked: &Checked) -> Option<LooseAtom>
    ensures { MatchOption result (IsFaithful checked.now)
        (λ loose. IsFirstLoose checked.now loose.conjunction loose.atom) }
{
    for c in 0..checked.test().conjunctions() {
        if let Some(atom) = first_in(checked, c) {
            return Some(LooseAtom {
                conjunction: c as u32,
                atom,
            });
        }
    }
    None
}
