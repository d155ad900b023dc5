//! What is known of a column before rows are counted, so that most words of a row need no test of their values.
ghost use Rattle.std.specs.Prelude.{◌≡◌, ℕ, ◌+◌, ◌-◌, ◌*◌, ◌/◌, ◌<◌, ◌≤◌, ◌⊎◌, All, IfSome, List, count_by, length, slice_index, slice_index_or};
ghost use Rattle.std.specs.List.{range_with_len};
ghost use Rattle.load_log.specs.Values.{AreWhole, Values, value_at};
ghost use Rattle.outcome_conv.specs.Conditions.{Conditions, IsKind};
ghost use Rattle.frame_count.specs.Count.{IsGood, IsOfLogs};
ghost use Rattle.frame_count.specs.Known.{IsAlone, Knows, Tells};
ghost use Rattle.frame_count.specs.Row.{kind_test, mask_along};
ghost use Rattle.perp_base.specs.declared.limits.TheConstants.{MOST_ITERATIONS};

use crate::lanes::{fitting_word, values_word};
use load_log::Logs;
use outcome_conv::{Cond, CondKind, Conds};

/// How many words of sixty-four iterations there are at most.
const MOST_WORDS: usize = 1562;

/// Of sixty-four values the least and the greatest, and which have the residue that a condition asks.
#[derive(Clone, Copy)]
pub(crate) struct Word {
    pub least: u64,
    pub most: u64,
    pub fits: u64,
}

/// The least and the greatest of sixty-four values.
fn least_and_most(values: &[u64], at: usize) -> (u64, u64)
    requires room { at + 64 ≤ length values.now }
    ensures { (m : ℕ) → at ≤ m → m < at + 64 → (result.0 ≤ slice_index values.now m)
        × (slice_index values.now m ≤ result.1) }
{
    let mut least = u64::MAX;
    let mut most = 0u64;
    for i in at..at + 64 {
        least = least.min(values[i]);
        most = most.max(values[i]);
    }
    (least, most)
}

impl Word {
    /// Any values.
    fn any() -> Word {
        Word {
            least: 0,
            most: u64::MAX,
            fits: 0,
        }
    }

    /// What a condition wants to know of the sixty-four values of its column from `at` on.
    fn of(cond: &Cond, logs: &Logs, n: usize, at: usize) -> Word
        requires iterations { (n ≤ MOST_ITERATIONS) × (at + 64 ≤ n) }
        requires whole { AreWhole n logs.now.logs }
        requires names { IsGood logs.now.logs cond.now }
        ensures { Knows cond.now.kind (value_at logs.now.logs cond.now.reader cond.now.column) at result }
    {
        let values = logs.at(cond.reader as usize).column(cond.column as usize);
        let (least, most) = least_and_most(values, at);
        let fits = fitting_word(cond.kind, values, at);
        Word { least, most, fits }
    }

    /// The one or the other, where all values are below the bound, or all above it.
    #[inline(always)]
    fn by_side(self, bound: u64, below: u64, above: u64) -> Option<u64>
        ensures { IfSome result (λ w. ((self.most < bound) × (w ≡ below)) ⊎ ((bound < self.least) × (w ≡ above))) }
    {
        if self.most < bound {
            Some(below)
        } else if bound < self.least {
            Some(above)
        } else {
            None
        }
    }

    /// Which of the sixty-four values pass, where all are on one side of the bound.
    #[inline(always)]
    fn passing(self, kind: CondKind, bound: u64) -> Option<u64>
        ensures { IfSome result (λ w. (value : ℕ → ℕ) (at : ℕ) → Knows kind value at self
            → w ≡ mask_along (λ m. kind_test kind (value m) bound) at 64) }
    {
        match kind {
            CondKind::AtLeast { .. } => self.by_side(bound, 0, self.fits),
            CondKind::Below { .. } => self.by_side(bound, u64::MAX, 0),
            CondKind::Exact { .. } => self.by_side(bound, 0, 0),
        }
    }
}

/// The only condition on what the last thread logged, and what is known of its column, word by word.
#[derive(Drop)]
pub(crate) struct Known {
    pub cond: Cond,
    pub words: usize,
    pub of: [Word; MOST_WORDS],
}

/// The condition on what the last thread logged, if there is one alone, and another thread writes.
fn alone(conds: &[Cond], logs: &Logs) -> Option<Cond>
    requires threads { 1 ≤ length logs.now.logs }
    requires names { All (IsGood logs.now.logs) conds.now }
    ensures { IfSome result (λ c. IsAlone conds.now (length logs.now.logs - 1) c × IsGood logs.now.logs c) }
{
    let last = logs.len() - 1;
    let mut found = None;
    for cond in conds {
        if cond.reader as usize == last {
            if found.is_some() || cond.writer as usize == last {
                return None;
            }
            found = Some(*cond);
        }
    }
    found
}

/// What a condition wants to know of its column in the first `n` iterations, word by word.
fn words(cond: &Cond, logs: &Logs, n: usize) -> [Word; MOST_WORDS]
    requires iterations { n ≤ MOST_ITERATIONS }
    requires whole { AreWhole n logs.now.logs }
    requires names { IsGood logs.now.logs cond.now }
    ensures { (j : ℕ) (d : Word) → j < n / 64 → Knows cond.now.kind
        (value_at logs.now.logs cond.now.reader cond.now.column) (64 * j) (slice_index_or result j d) }
{
    let mut words = [Word::any(); MOST_WORDS];
    for j in 0..n / 64 {
        words[j] = Word::of(cond, logs, n, 64 * j);
    }
    words
}

impl Known {
    /// No word of any.
    fn nothing() -> Known
        ensures { (conds : Conditions) (logs : List Values) → Tells conds logs result }
    {
        Known {
            cond: Cond {
                reader: 0,
                column: 0,
                loc: 0,
                writer: 0,
                kind: CondKind::Below { k: 1 },
            },
            words: 0,
            of: [Word::any(); MOST_WORDS],
        }
    }

    /// What is known of the first `n` iterations.
    pub(crate) fn of(conds: &Conds, logs: &Logs, n: usize) -> Known
        requires iterations { n ≤ MOST_ITERATIONS }
        requires threads { 1 ≤ length logs.now.logs }
        requires whole { AreWhole n logs.now.logs }
        requires names { All (IsOfLogs logs.now.logs) conds.now.conds }
        ensures { Tells conds.now logs.now.logs result }
    {
        if conds.conjunctions() != 1 {
            return Known::nothing();
        }
        match alone(conds.group(0), logs) {
            Some(cond) => Known {
                cond,
                words: n / 64,
                of: words(&cond, logs, n),
            },
            None => Known::nothing(),
        }
    }

    /// Which of the sixty-four values of word `j` pass: by what is known, or by lanes.
    #[inline(always)]
    fn word(&self, values: &[u64], bound: u64, j: usize) -> u64
        requires kind { IsKind self.now.cond.kind }
        requires room { (64 * j + 64 ≤ length values.now) × (64 * j + 64 ≤ MOST_ITERATIONS) }
        requires known { (d : Word) → Knows self.now.cond.kind (slice_index values.now) (64 * j)
            (slice_index_or self.now.of j d) }
        ensures { result ≡ mask_along (λ m. kind_test self.now.cond.kind (slice_index values.now m) bound) (64 * j) 64 }
    {
        match self.of[j].passing(self.cond.kind, bound) {
            Some(word) => word,
            None => values_word(self.cond.kind, values, bound, 64 * j),
        }
    }

    /// How many values of the words from `from` up to and without `to` pass.
    pub(crate) fn count(&self, values: &[u64], bound: u64, from: usize, to: usize) -> u64
        requires kind { IsKind self.now.cond.kind }
        requires words { (from ≤ to) × (64 * to ≤ 99999) × (64 * to ≤ length values.now) }
        requires known { (j : ℕ) (d : Word) → j < to
            → Knows self.now.cond.kind (slice_index values.now) (64 * j) (slice_index_or self.now.of j d) }
        ensures { result ≡ count_by (λ m. kind_test self.now.cond.kind (slice_index values.now m) bound)
            (range_with_len (64 * from) (64 * to - 64 * from)) }
    {
        let mut total = 0u64;
        for j in from..to {
            total += self.word(values, bound, j).count_ones() as u64;
        }
        total
    }
}
