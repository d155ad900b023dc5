//! The logs of all threads.
ghost use Rattle.std.specs.Prelude.{◌≡◌, ◌-◌, ◌<◌, ◌≤◌, [], ◌∷◌, ◌++◌, length, IfOk};

use crate::log::Log;
use perp_base::NoMemory;
use std::alloc::Global;
use std::marker::Model;

/// One log for each thread, in order of the threads. Their room is reserved when the list is made.
#[derive(Drop)]
pub struct Logs {
    items: Vec<Log>,
}

impl Model for Logs {
    ghost use Rattle.std.specs.Prelude.{◌-◌, vec_len};
    ghost use Rattle.std.specs.Vec.{vec_capacity};
    ghost use Rattle.load_log.specs.Values.{Lists};

    ghost Value = { Lists };

    ghost view = { λ a. record { logs = a.items.items; spare = vec_capacity a.items - vec_len a.items } };
}

impl Logs {
    ghost use Rattle.std.specs.Prelude.{slice_get, Some};
    ghost use Rattle.load_log.specs.Values.{log_at};

    /// No logs, with room for as many as there are threads.
    pub fn reserve(alloc: Global, threads: usize) -> Result<Logs, NoMemory>
        ensures made { IfOk result (λ logs. logs ≡ record { logs = []; spare = threads }) }
    {
        Ok(Logs {
            items: Vec::with_capacity(alloc, threads)?,
        })
    }

    /// Appends the next thread's log. It takes no memory.
    pub fn add(&mut self, log: Log)
        requires room { 1 ≤ self.old.spare }
        ensures appended { self.new ≡ record { logs = self.old.logs ++ log ∷ []; spare = self.old.spare - 1 } }
    {
        self.items.push_reserved(log);
    }

    /// The log of a thread.
    #[inline(always)]
    pub fn at(&self, t: usize) -> &Log
        requires there { t < length self.now.logs }
        ensures log { result.now ≡ log_at self.now.logs t }
        ensures found { slice_get self.now.logs t ≡ Some result.now }
    {
        &self.items[t]
    }

    /// How many logs there are.
    #[inline(always)]
    pub fn len(&self) -> usize
        ensures { result ≡ length self.now.logs }
    {
        self.items.len()
    }
}
