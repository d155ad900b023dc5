//! Conditions and logs that several modules begin with.
ghost use Rattle.std.specs.Prelude.{◌≡◌, ◌*◌, ◌≤◌, IfOk, length};

use load_log::Log;
use outcome_conv::CondKind;
use perp_base::NoMemory;
use std::alloc::Global;

/// The value is from before the other thread's store.
pub const ZERO: CondKind = CondKind::Below { k: 1 };

/// The value is that of the other thread's store.
pub const JUST_ONE: CondKind = CondKind::Exact { k: 1, a: 1 };

/// A log of `n` iterations with these values, iteration after iteration.
pub fn log(alloc: Global, columns: usize, n: u32, values: &[u64]) -> Result<Log, NoMemory>
    requires few { columns ≤ 16 }
    requires whole { length values.now ≡ columns * n }
    ensures { IfOk result (λ log. (log.columns ≡ columns) × (length log.values ≡ length values.now)) }
{
    let mut log = Log::reserve(alloc, columns, n)?;
    for value in values {
        log.put(*value);
    }
    Ok(log)
}
