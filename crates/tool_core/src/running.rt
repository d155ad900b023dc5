//! How a command runs a test.
ghost use Rattle.std.specs.Prelude.{◌≡◌};
ghost use Rattle.tool_core.specs.Texts.{options_of};

use perp_loop::Options;

/// Into how many pieces a command cuts the iterations of a run.
pub const CUT: u32 = 4096;

/// So often, with seed 0.
pub fn options_of(n: u32) -> Options
    ensures { result ≡ options_of n }
{
    Options {
        iterations: n,
        seed: 0,
        rate: 64,
        buffer: 8,
    }
}
