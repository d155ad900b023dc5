//! The quantifier of a condition, as reports tell it.
ghost use Rattle.std.specs.Prelude.{◌≡◌};
ghost use Rattle.program_edge.specs.Quantified.{is_negated};

use x86_subset::Quantifier;

/// Whether the quantifier is `~exists`.
pub fn is_negated(quantifier: Quantifier) -> bool
    ensures { result ≡ is_negated quantifier }
{
    quantifier == Quantifier::NotExists
}
