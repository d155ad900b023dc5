//! The number with which a program ends.
ghost use Rattle.std.specs.Prelude.{◌≡◌, ℕ, IfOk, IfErr};
ghost use Rattle.report_text.specs.Status.{status_number};
ghost use Rattle.program_edge.specs.Number.{unmade_number};

use crate::answered::Outcome;
use crate::unmade::Unmade;
use report_text::Status;

/// A status of a call, which has a number.
pub trait Numbered {
    /// The number of the status.
    ghost number_of: { Self → ℕ };

    /// The number with which a program ends whose call answers the status.
    fn ending(&self) -> u8
        ensures { result ≡ number_of self.now };
}

impl Numbered for Status {
    ghost number_of = { status_number };

    fn ending(&self) -> u8 {
        self.number()
    }
}

/// The number with which a program ends: that of the status of its call, or that of why the call was not made.
pub fn ending<S: Numbered>(called: &Result<Outcome<S>, Unmade>) -> u8
    ensures made { IfOk called.now (λ outcome. result ≡ S.number_of outcome.status) }
    ensures unmade { IfErr called.now (λ why. result ≡ unmade_number why) }
{
    match called {
        Ok(outcome) => outcome.status.ending(),
        Err(Unmade::Memory) => 1,
        Err(Unmade::Words) => 14,
    }
}
