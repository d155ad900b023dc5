//! Tests inside the profile.
ghost use Rattle.std.specs.Prelude.{◌≡◌, IfOk, IfErr};
ghost use Rattle.profile_check.specs.Profile.{IsChecked, RefusesTest, profile_of};
ghost use Rattle.profile_check.specs.Profile.Profile.{inside};

use crate::atoms::kind_of;
use crate::error::ProfileError;
use crate::kind::AtomKind;
use seq_conv::Sequences;
use std::alloc::Global;
use std::marker::Model;
use x86_subset::Test;

/// A test inside the profile: each of its atoms has a kind, which is kept.
#[derive(Drop)]
pub struct Checked {
    test: Test,
    kinds: Vec<AtomKind>,
}

impl Model for Checked {
    ghost use Rattle.profile_check.specs.Profile.{CheckedTest, IsChecked};

    ghost Value = { CheckedTest };

    ghost view = { λ c. record { test = c.test; kinds = c.kinds.items } };

    ghost invariant = { λ c. IsChecked (record { test = c.test; kinds = c.kinds.items }) };
}

impl Checked {
    ghost use Rattle.std.specs.Prelude.{◌≡◌, ◌<◌, IfSome, Ok, Some, length, slice_get};
    ghost use Rattle.profile_check.specs.Kinds.{kind_of};
    ghost use Rattle.profile_check.specs.Profile.{IsChecked};

    /// The test. Its second clause tells what holds of each checked test: that its atoms have the kinds that are kept.
    pub fn test(&self) -> &Test
        ensures is { result.now ≡ self.now.test }
        ensures checked { IsChecked self.now }
    {
        &self.test
    }

    /// The kind of atom `i`, which counts from 0 in the order of the text.
    pub fn kind(&self, i: usize) -> AtomKind
        requires { i < length self.now.test.atoms }
        ensures kept { slice_get self.now.kinds i ≡ Some result }
        ensures is { IfSome (slice_get self.now.test.atoms i) (λ atom. kind_of self.now.test atom ≡ Ok result) }
    {
        self.kinds[i]
    }
}

/// The test with the kinds of its atoms, exactly where each atom has one. Else the first atom that has none; the test
/// is dropped then.
pub fn check(alloc: Global, test: Test) -> Result<Checked, ProfileError>
    ensures test { IfOk result (λ checked. checked.test ≡ test) }
    ensures inside { IfOk result (λ checked. profile_of test ≡ inside) }
    ensures checked { IfOk result (λ checked. IsChecked checked) }
    ensures outside { IfErr result (RefusesTest test) }
{
    let threads = test.threads();
    let sequences = Sequences::of(alloc, &test)?;
    let mut kinds = Vec::new(alloc);
    for i in 0..test.atoms().len() {
        match kind_of(&test, threads, &sequences, test.atoms()[i]) {
            Ok(kind) => kinds.push(kind)?,
            Err(kind) => {
                return Err(ProfileError::Outside {
                    atom: i as u32 + 1,
                    kind,
                });
            }
        }
    }
    Ok(Checked { test, kinds })
}
