//! The test that a text is.
ghost use Rattle.std.specs.Prelude.{All, IfSome};
ghost use Rattle.std.specs.Str.{IsAscii};

use litmus_reader::read_litmus;
use perp_base::MOST_BYTES;
use std::alloc::Global;
use x86_subset::Test;

/// The test that a text is read as; none where it is refused, or longer than an input may be, or memory ran out.
pub fn test_of(alloc: Global, text: &str) -> Option<Test>
    ensures name { IfSome result (λ test. IsAscii test.name) }
    ensures locations { IfSome result (λ test. All IsAscii test.locations) }
{
    let bytes = text.as_bytes();
    if bytes.len() > MOST_BYTES {
        return None;
    }
    read_litmus(alloc, bytes).ok()
}
