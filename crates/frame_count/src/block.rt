//! Blocks of frames: those with the same iterations of the first threads are neighbours in the order of their numbers.
ghost use Rattle.std.specs.Prelude.{◌≡◌, ℕ, ◌-◌, ◌+◌, ◌^◌, ◌*◌, ◌<◌, ◌≤◌, Bool, All, IfSome, List, false, length, slice_index, slice_index_or, slice_set, take, true};
ghost use Rattle.load_log.specs.Values.{AreWhole, Values};
ghost use Rattle.outcome_conv.specs.Conditions.{Conditions};
ghost use Rattle.perp_base.specs.declared.limits.TheConstants.{MOST_FRAMES, MOST_ITERATIONS};
ghost use Rattle.frame_count.specs.Block.{Alive, IsBlock, IsPlace, IsRemembered, IsTask, SettledBy, StayAlike, block_count};
ghost use Rattle.frame_count.specs.Count.{IsFrameOf, IsOfLogs};
ghost use Rattle.frame_count.specs.Counted.{Counts};
ghost use Rattle.frame_count.specs.Known.{Tells};

use crate::counted::Counted;
use crate::known::Known;
use crate::so_far::{all_alike, left};
use crate::until::all_until;
use load_log::Logs;
use outcome_conv::{Cond, Conds};
use perp_base::{Frame, MOST_CONJUNCTIONS, MOST_THREADS};

/// How many blocks are remembered where there is room for them: 256 for each number of threads that are fixed.
pub(crate) const MOST_BLOCKS: usize = 2048;

/// The iterations of the first threads, the conjunctions that they leave, and the hits of the block.
#[derive(Clone, Copy)]
pub(crate) struct Block {
    pub fixed: usize,
    pub iterations: [u32; MOST_THREADS],
    pub alive: [bool; MOST_CONJUNCTIONS],
    pub hits: u64,
}

impl Block {
    /// A block of which no thread is fixed: it tells nothing.
    pub(crate) fn nothing() -> Block
        ensures { (conds : Conditions) (logs : List Values) (n : ℕ) → IsRemembered conds logs n result }
    {
        Block {
            fixed: 0,
            iterations: [0; MOST_THREADS],
            alive: [false; MOST_CONJUNCTIONS],
            hits: 0,
        }
    }
}

/// What is counted, how many threads settle each conjunction, and by which thread's iteration a block is looked for.
#[derive(Clone, Copy)]
pub(crate) struct Task<'a> {
    pub conds: &'a Conds,
    pub logs: &'a Logs,
    pub known: &'a Known,
    pub n: u32,
    pub threads: usize,
    pub settled_by: [usize; MOST_CONJUNCTIONS],
    pub keys: [usize; MOST_THREADS],
}

/// How many threads settle a conjunction.
fn settles(conds: &[Cond]) -> usize
    ensures { All (λ (x : Cond). (x.reader < result) × (x.writer < result)) conds.now }
{
    let mut most = 0;
    for cond in conds {
        most = most
            .max(cond.reader as usize + 1)
            .max(cond.writer as usize + 1);
    }
    most
}

/// How many threads settle each conjunction.
fn settled_by(conds: &Conds) -> [usize; MOST_CONJUNCTIONS]
    ensures settled { SettledBy conds.now result }
    ensures few { length conds.now.ends ≤ 8 }
{
    let mut by = [0; MOST_CONJUNCTIONS];
    for c in 0..conds.conjunctions() {
        by[c] = settles(conds.group(c));
    }
    by
}

impl<'a> Task<'a> {
    /// The count over so many iterations.
    pub(crate) fn new(conds: &'a Conds, logs: &'a Logs, known: &'a Known, n: u32) -> Task<'a>
        requires iterations { (1 ≤ n) × (n ≤ MOST_ITERATIONS) }
        requires threads { length logs.now.logs ≤ 8 }
        requires few { n ^ length logs.now.logs ≤ MOST_FRAMES }
        requires names { All (IsOfLogs logs.now.logs) conds.now.conds }
        requires known { Tells conds.now logs.now.logs known.now }
        ensures task { IsTask result }
        ensures conds { result.conds.now ≡ conds.now }
        ensures logs { result.logs.now.logs ≡ logs.now.logs }
        ensures n { result.n ≡ n }
    {
        Task {
            conds,
            logs,
            known,
            n,
            threads: logs.len(),
            settled_by: settled_by(conds),
            keys: keys(conds),
        }
    }
}

/// Where the count has come to: the frame, and a row that is remembered.
#[derive(Drop)]
pub(crate) struct Place {
    pub frame: Frame,
    pub row: Counted,
}

/// Whether no conjunction is left.
fn none(conds: &Conds, alive: &[bool]) -> bool
    requires { length conds.now.ends ≤ length alive.now }
    ensures { result ≡ true → (j : ℕ) (d : Bool) → j < length conds.now.ends → slice_index_or alive.now j d ≡ false }
{
    for c in 0..conds.conjunctions() {
        if alive[c] {
            return false;
        }
    }
    true
}

/// Whether a conjunction that is left is settled.
fn is_whole(task: &Task, alive: &[bool], p: usize) -> bool
    requires { length task.now.conds.now.ends ≤ length alive.now }
    ensures { result ≡ true → (j : ℕ) × (j < length task.now.conds.now.ends) × (slice_index_or alive.now j false ≡ true)
        × (slice_index_or task.now.settled_by j 0 ≤ p) }
{
    for c in 0..task.conds.conjunctions() {
        if alive[c] && task.settled_by[c] <= p {
            return true;
        }
    }
    false
}

/// The last of the first `p` threads of which a condition speaks that they do not settle. This tells where a block is
/// looked for, and nothing of its hits.
fn last_spoken(conds: &[Cond], p: usize) -> usize {
    let mut last = 0;
    for cond in conds {
        let (reader, writer) = (cond.reader as usize, cond.writer as usize);
        if reader < p && writer >= p {
            last = last.max(reader);
        } else if writer < p && reader >= p {
            last = last.max(writer);
        }
    }
    last
}

/// The same for each number of threads.
fn keys(conds: &Conds) -> [usize; MOST_THREADS] {
    let mut keys = [0; MOST_THREADS];
    for p in 0..MOST_THREADS {
        keys[p] = last_spoken(conds.all(), p);
    }
    keys
}

/// The iterations of a frame.
fn iterations(frame: &Frame) -> [u32; MOST_THREADS]
    ensures long { length result ≡ 8 }
    ensures same { (q : ℕ) → q < length frame.now → slice_index result q ≡ slice_index frame.now q }
{
    let mut iterations = [0; MOST_THREADS];
    for t in 0..frame.len() {
        iterations[t] = frame.at(t);
    }
    iterations
}

/// How many blocks of thread `p` count as the one of its iteration `i`, from it on, where `room` numbers are left and
/// `start` of its `step` numbers are passed over. Only whole blocks count alike.
fn how_many_alike(
    task: &Task,
    frame: &Frame,
    p: usize,
    i: usize,
    before: &[bool; MOST_CONJUNCTIONS],
    now: &[bool; MOST_CONJUNCTIONS],
    start: u64,
    step: u64,
    room: u64,
) -> u64
    requires task { IsTask task.now }
    requires frame { IsFrameOf task.now.logs.now.logs task.now.n frame.now }
    requires thread { p < task.now.threads }
    requires iteration { i < task.now.n }
    requires here { frame.now ≡ slice_set frame.now p i }
    requires step { 0 < step }
    requires before { Alive task.now.conds.now task.now.logs.now.logs p frame.now before.now }
    requires now { Alive task.now.conds.now task.now.logs.now.logs (p + 1) frame.now now.now }
    ensures some { 1 ≤ result }
    ensures whole { 2 ≤ result → (start ≡ 0) × (result * step ≤ room) }
    ensures alike { (m : ℕ) → 1 ≤ m → m < result → i + m < task.now.n → (j : ℕ) (d : Bool)
        → j < length task.now.conds.now.ends
        → StayAlike task.now.conds.now task.now.logs.now.logs p frame.now i (i + m) now.now j d }
{
    let most = room / step;
    if start > 0 || most < 2 {
        return 1;
    }
    let n = task.n as usize;
    let until = all_until(task.conds, task.logs, frame, p, i, n, before, now);
    ((until - i) as u64).min(most)
}

impl Place {
    /// The first frame.
    pub(crate) fn new(task: &Task, row: Counted) -> Place
        requires threads { (1 ≤ length task.now.logs.now.logs) × (length task.now.logs.now.logs ≤ 8) }
        requires some { 1 ≤ task.now.n }
        requires whole { AreWhole task.now.n task.now.logs.now.logs }
        requires row { Counts task.now.conds.now task.now.logs.now.logs row }
        ensures { IsPlace task.now result }
    {
        Place {
            frame: Frame::filled(task.logs.len(), 0),
            row,
        }
    }

    /// Where a block is looked for: by the iteration of the last thread that a condition speaks of beside one that is not
    /// fixed.
    fn slot(&self, task: &Task, p: usize) -> usize {
        let key = task.keys[p % MOST_THREADS];
        let iteration = if key < self.frame.len() {
            self.frame.at(key)
        } else {
            0
        };
        p % MOST_THREADS * 256 + iteration as usize % 256
    }

    /// The hits of a whole block like this one, if it is remembered.
    fn remembered(
        &self,
        task: &Task,
        blocks: &[Block],
        alive: &[bool; MOST_CONJUNCTIONS],
        p: usize,
        size: u64,
    ) -> Option<u64>
        requires task { IsTask task.now }
        requires block { IsBlock task.now self.now alive.now p size }
        requires blocks { All (IsRemembered task.now.conds.now task.now.logs.now.logs task.now.n) blocks.now }
        ensures { IfSome result (λ hits. hits ≡ block_count task.now p self.now.frame 0 size) }
    {
        let slot = self.slot(task, p);
        if p == 0 || slot >= blocks.len() {
            return None;
        }
        let block = &blocks[slot];
        let (left, before) = (&block.alive, &block.iterations);
        if block.fixed == p && all_alike(task.conds, p, left, alive, before, &self.frame) {
            Some(block.hits)
        } else {
            None
        }
    }

    /// The hits of the numbers from `from` up to and without `to` of a block, where no frame of it need be visited.
    fn told(
        &self,
        task: &Task,
        blocks: &[Block],
        alive: &[bool; MOST_CONJUNCTIONS],
        p: usize,
        size: u64,
        from: u64,
        to: u64,
    ) -> Option<u64>
        requires task { IsTask task.now }
        requires block { IsBlock task.now self.now alive.now p size }
        requires blocks { All (IsRemembered task.now.conds.now task.now.logs.now.logs task.now.n) blocks.now }
        requires numbers { (from ≤ to) × (to ≤ size) }
        ensures { IfSome result (λ hits. hits ≡ block_count task.now p self.now.frame from to) }
    {
        if none(task.conds, alive) {
            Some(0)
        } else if is_whole(task, alive, p) {
            Some(to - from)
        } else if to - from == size {
            self.remembered(task, blocks, alive, p, size)
        } else {
            None
        }
    }

    /// Remembers the hits of a block, if it is whole and there is room.
    fn remember(
        &self,
        task: &Task,
        blocks: &mut [Block],
        alive: &[bool; MOST_CONJUNCTIONS],
        p: usize,
        size: u64,
        from: u64,
        to: u64,
        hits: u64,
    )
        requires task { IsTask task.now }
        requires block { IsBlock task.now self.now alive.now p size }
        requires blocks { All (IsRemembered task.now.conds.now task.now.logs.now.logs task.now.n) blocks.old }
        requires numbers { (from ≤ to) × (to ≤ size) }
        requires hits { hits ≡ block_count task.now p self.now.frame from to }
        ensures { All (IsRemembered task.now.conds.now task.now.logs.now.logs task.now.n) blocks.new }
    {
        let slot = self.slot(task, p);
        if p > 0 && to - from == size && slot < blocks.len() {
            blocks[slot] = Block {
                fixed: p,
                iterations: iterations(&self.frame),
                alive: *alive,
                hits,
            };
        }
    }

    /// The hits of the numbers from `from` up to and without `to` of a row.
    fn last(
        &mut self,
        task: &Task,
        alive: &[bool; MOST_CONJUNCTIONS],
        p: usize,
        from: u64,
        to: u64,
    ) -> u64
        requires task { IsTask task.now }
        requires place { IsPlace task.now self.old }
        requires alive { Alive task.now.conds.now task.now.logs.now.logs p self.old.frame alive.now }
        requires last { p + 1 ≡ task.now.threads }
        requires numbers { (from ≤ to) × (to ≤ task.now.n) }
        ensures hits { result ≡ block_count task.now p self.old.frame from to }
        ensures place { IsPlace task.now self.new }
        ensures frame { self.new.frame ≡ self.old.frame }
    {
        self.row.next(
            task.conds,
            task.logs,
            task.known,
            &self.frame,
            alive,
            from as usize,
            to as usize,
        )
    }

    /// The hits of the numbers from `from` up to and without `to` of the block of the first `p` iterations of the
    /// frame. Where there is room, blocks are remembered.
    pub(crate) fn count(
        &mut self,
        task: &Task,
        blocks: &mut [Block],
        alive: [bool; MOST_CONJUNCTIONS],
        p: usize,
        size: u64,
        from: u64,
        to: u64,
    ) -> u64
        requires task { IsTask task.now }
        requires block { IsBlock task.now self.old alive p size }
        requires blocks { All (IsRemembered task.now.conds.now task.now.logs.now.logs task.now.n) blocks.old }
        requires numbers { (from ≤ to) × (to ≤ size) }
        ensures hits { result ≡ block_count task.now p self.old.frame from to }
        ensures place { IsPlace task.now self.new }
        ensures blocks { All (IsRemembered task.now.conds.now task.now.logs.now.logs task.now.n) blocks.new }
        ensures front { take p self.new.frame ≡ take p self.old.frame }
    {
        if let Some(hits) = self.told(task, blocks, &alive, p, size, from, to) {
            return hits;
        }
        if p + 1 == task.threads {
            let hits = self.last(task, &alive, p, from, to);
            self.remember(task, blocks, &alive, p, size, from, to, hits);
            return hits;
        }
        let step = size / task.n as u64;
        let mut i = from / step;
        let mut start = from % step;
        let mut at = from;
        let mut total = 0u64;
        while at < to {
            let some = u64::min(step - start, to - at);
            self.frame.set(p, i as u32);
            let now = left(task.conds, task.logs, &self.frame, p, alive);
            let room = to - at;
            let times = how_many_alike(
                task,
                &self.frame,
                p,
                i as usize,
                &alive,
                &now,
                start,
                step,
                room,
            );
            let hits = self.count(task, blocks, now, p + 1, step, start, start + some);
            total += times * hits;
            at += times * some;
            i += times;
            start = 0;
        }
        self.remember(task, blocks, &alive, p, size, from, to, total);
        total
    }
}
