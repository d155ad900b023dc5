//! In which threads stores stand.
ghost use Rattle.std.specs.Prelude.{◌≡◌};
ghost use Rattle.seq_conv.specs.Writers.{stand_in};

use crate::site::Site;

/// Whether all these stores stand in a thread.
pub fn stand_in(thread: u32, stores: &[Site]) -> bool
    ensures { result ≡ stand_in thread stores.now }
{
    stores.iter().all(|site| site.thread == thread)
}
