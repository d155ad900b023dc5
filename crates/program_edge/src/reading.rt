//! The litmus test of a text, or the refusal that is due.
ghost use Rattle.std.specs.Prelude.{◌≡◌, ◌≤◌, ◌⊎◌, All, Some, length, IfOk, IfErr};
ghost use Rattle.std.specs.Str.{IsAscii};
ghost use Rattle.litmus_reader.specs.Answer.{Accepted};
ghost use Rattle.litmus_reader.specs.Reading.{Reads};
ghost use Rattle.profile_check.specs.Profile.{IsChecked, inside, profile_of};
ghost use Rattle.report_text.specs.Status.{HasKind};
ghost use Rattle.program_edge.specs.Form.{IsUnread, due_for_atoms, over_of, status_of_test, status_of_text};
ghost use Rattle.perp_base.specs.declared.limits.TheConstants.{MOST_BYTES};

use litmus_reader::{LitmusError, read_litmus};
use profile_check::{Checked, ProfileError, check};
use report_text::{Over, Status};
use std::alloc::Global;
use x86_subset::{Shape, Test};

fn limit_of(shape: Shape) -> Over
    ensures { result ≡ over_of shape }
{
    match shape {
        Shape::Threads => Over::Threads,
        Shape::Locations => Over::Locations,
        Shape::Instrs => Over::Instructions,
        Shape::Atoms => Over::Atoms,
    }
}

fn text_status(error: LitmusError) -> Status
    ensures { result ≡ status_of_text error }
{
    match error {
        LitmusError::Bad { kind, line } => Status::NotLitmus {
            kind: kind.number(),
            line,
        },
        LitmusError::Over(shape) => Status::Limit(limit_of(shape)),
        LitmusError::Memory => Status::Memory,
    }
}

fn test_status(error: ProfileError) -> Status
    ensures { result ≡ status_of_test error }
{
    match error {
        ProfileError::Outside { atom, kind } => Status::OutsideProfile {
            atom,
            kind: kind.number(),
        },
        ProfileError::Memory => Status::Memory,
    }
}

/// The test of a litmus text; or the refusal that is due for its form or its shape.
pub fn read_test(alloc: Global, bytes: &[u8]) -> Result<Test, Status>
    requires { length bytes.now ≤ MOST_BYTES }
    ensures reads { IfOk result (λ test. Reads bytes.now (Accepted test)) }
    ensures refuses { IfErr result (λ status. (status ≡ Status.Memory) ⊎ IsUnread bytes.now status) }
    ensures kind { IfErr result HasKind }

    ensures ascii_name { IfOk result (λ test. IsAscii test.name) }
    ensures ascii_locations { IfOk result (λ test. All IsAscii test.locations) }
{
    match read_litmus(alloc, bytes) {
        Ok(test) => Ok(test),
        Err(error) => Err(text_status(error)),
    }
}

/// The test with the kinds of its atoms; or the refusal that is due for its atoms.
pub fn check_test(alloc: Global, test: Test) -> Result<Checked, Status>
    ensures test { IfOk result (λ checked. checked.test ≡ test) }
    ensures inside { IfOk result (λ checked. profile_of test ≡ inside) }
    ensures checked { IfOk result IsChecked }
    ensures refuses { IfErr result (λ status. (status ≡ Status.Memory)
        ⊎ (due_for_atoms (profile_of test) ≡ Some status)) }
    ensures kind { IfErr result HasKind }
{
    match check(alloc, test) {
        Ok(checked) => Ok(checked),
        Err(error) => Err(test_status(error)),
    }
}
