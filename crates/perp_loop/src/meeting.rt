//! Where threads meet before their first iteration.

use std::hint::spin_loop;
use std::sync::atomic::{AtomicUsize, Ordering};
use std::thread::yield_now;

/// How often a thread looks for the others: for one or two milliseconds, where nothing else keeps it from running.
const MOST_LOOKS: u32 = 5_000;

/// How many of the looks have no more than a pause after them. The others let another thread run.
const QUICK_LOOKS: u32 = 1_000;

/// How many threads have come, and how many of them have seen that all have.
#[derive(Drop)]
pub(crate) struct Meeting {
    threads: usize,
    came: AtomicUsize,
    saw: AtomicUsize,
}

impl Meeting {
    pub(crate) fn new(threads: usize) -> Meeting {
        Meeting {
            threads,
            came: AtomicUsize::new(0),
            saw: AtomicUsize::new(0),
        }
    }

    /// Lets threads that were started one after another begin at about the same time: one that has come looks for the
    /// others, and then looks whether all have seen that, since another may have been kept from running. It promises
    /// nothing: after so many looks a thread goes on without the others.
    pub(crate) fn come(&self) {
        self.look_for_all(&self.came);
        self.look_for_all(&self.saw);
    }

    /// Counts this thread, and looks until all are counted, but only so often.
    fn look_for_all(&self, count: &AtomicUsize) {
        count.fetch_add(1, Ordering::SeqCst);
        for look in 0..MOST_LOOKS {
            if count.load(Ordering::SeqCst) >= self.threads {
                return;
            }
            if look < QUICK_LOOKS {
                spin_loop();
            } else {
                yield_now();
            }
        }
    }
}
