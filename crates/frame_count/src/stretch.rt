//! Stretches: the neighbouring iterations of the last thread to which a condition leaves a row of frames.
ghost use Rattle.std.specs.Prelude.{◌≡◌, ℕ, ◌+◌, ◌<◌, ◌≤◌, ◌^◌, ◌%◌, ◌==◌, ◌&&◌, ◌||◌, ◌*◌, ◌-◌, Bool, count_by, false, not, true, length, nat_le, nat_lt, slice_index};
ghost use Rattle.std.specs.List.{range_with_len};
ghost use Rattle.std.specs.List.Sorted.{IsNonDecreasing};
ghost use Rattle.outcome_conv.specs.Conditions.{IsKind};
ghost use Rattle.outcome_conv.specs.Conds.{kind_holds};
ghost use Rattle.frame_count.specs.Row.{IsToldBy, is_within, kind_test, mask_along, residue_fits};

use outcome_conv::CondKind;

/// The iterations from `from` up to and without `to`, and what is left to test at them: conditions on what the last
/// thread logged of the others' stores, whose tests change from row to row, or of its own, whose tests are the same in
/// each row.
#[derive(Clone, Copy)]
pub(crate) struct Stretch {
    pub from: usize,
    pub to: usize,
    pub row: bool,
    pub own: bool,
}

/// How many iterations `m` have `k * m + a` at most this value.
fn reached(value: u64, k: u64, a: u64) -> usize
    requires some { 1 ≤ k }
    requires room { 1 ≤ a }
    ensures { (m : ℕ) → nat_le (k * m + a) value ≡ nat_lt m result }
{
    if value < a {
        0
    } else {
        ((value - a) / k + 1) as usize
    }
}

/// Which of sixty-four iterations are below `end`.
fn below_word(end: usize, at: usize) -> u64
    requires at { at + 64 ≤ 2 ^ 32 }
    ensures { result ≡ mask_along (λ m. nat_lt m end) at 64 }
{
    if end <= at {
        0
    } else if end - at >= 64 {
        u64::MAX
    } else {
        (1 << (end - at) as u64) - 1
    }
}

/// How many of values that never fall are below a bound; they stand in front.
fn how_many_below(values: &[u64], bound: u64) -> usize
    requires order { IsNonDecreasing values.now }
    ensures { (m : ℕ) → m < length values.now → nat_lt (slice_index values.now m) bound ≡ nat_lt m result }
{
    values.partition_point(
        |value: &u64| -> bool
            ensures { result ≡ nat_lt value.now bound }
        { *value < bound },
    )
}

/// How many of values that never fall are at most a bound; they stand in front.
fn how_many_up_to(values: &[u64], bound: u64) -> usize
    requires order { IsNonDecreasing values.now }
    ensures { (m : ℕ) → m < length values.now → nat_le (slice_index values.now m) bound ≡ nat_lt m result }
{
    values.partition_point(
        |value: &u64| -> bool
            ensures { result ≡ nat_le value.now bound }
        { *value <= bound },
    )
}

impl Stretch {
    /// The first `n` iterations, left to a test that changes from row to row or to one that does not.
    pub(crate) fn left(n: usize, row: bool) -> Stretch
        ensures within { (m : ℕ) → m < n → is_within result m ≡ true }
        ensures row { result.row ≡ row }
        ensures own { result.own ≡ not row }
    {
        Stretch {
            from: 0,
            to: n,
            row,
            own: !row,
        }
    }

    /// The iterations from `from` up to and without `to`, at each of which the condition holds.
    fn settled(from: usize, to: usize) -> Stretch
        ensures { result ≡ record { from = from; to = to; row = false; own = false } }
    {
        Stretch {
            from,
            to,
            row: false,
            own: false,
        }
    }

    /// The first `n` iterations, or none of them.
    pub(crate) fn all_or_none(all: bool, n: usize) -> Stretch
        ensures within { (m : ℕ) → m < n → is_within result m ≡ all }
        ensures settled { (result.row ≡ false) × (result.own ≡ false) }
    {
        if all {
            Stretch::settled(0, n)
        } else {
            Stretch::settled(0, 0)
        }
    }

    /// Where a condition of this kind holds of a value that stays, by the writer's iteration.
    pub(crate) fn of_writer(kind: CondKind, value: u64, n: usize) -> Stretch
        requires kind { IsKind kind }
        ensures within { (m : ℕ) → m < n → kind_holds kind value m ≡ is_within result m }
        ensures settled { (result.row ≡ false) × (result.own ≡ false) }
    {
        match kind {
            CondKind::AtLeast { k, a } => {
                if value % k == a % k {
                    Stretch::settled(0, reached(value, k, a))
                } else {
                    Stretch::settled(0, 0)
                }
            }
            CondKind::Below { k } => Stretch::settled(reached(value, k, 1), n),
            CondKind::Exact { k, a } => {
                if value == 0 {
                    Stretch::settled(0, 0)
                } else {
                    Stretch::settled(reached(value - 1, k, a), reached(value, k, a))
                }
            }
        }
    }

    /// Where a condition of this kind can hold of values that never fall, by a bound that stays. A residue is left to
    /// test.
    pub(crate) fn of_values(kind: CondKind, values: &[u64], bound: u64) -> Stretch
        requires kind { IsKind kind }
        requires order { IsNonDecreasing values.now }
        ensures within { (m : ℕ) → m < length values.now
            → kind_test kind (slice_index values.now m) bound
            ≡ (is_within result m && residue_fits kind (slice_index values.now m)) }
        ensures settled { result.row ≡ false → (v : ℕ) → residue_fits kind v ≡ true }
        ensures own { result.own ≡ false }
    {
        match kind {
            CondKind::AtLeast { k, .. } => Stretch {
                from: how_many_below(values, bound),
                to: values.len(),
                row: k != 1,
                own: false,
            },
            CondKind::Below { .. } => Stretch::settled(0, how_many_below(values, bound)),
            CondKind::Exact { .. } => Stretch::settled(
                how_many_below(values, bound),
                how_many_up_to(values, bound),
            ),
        }
    }

    /// The iterations in both.
    pub(crate) fn meet(self, other: Stretch) -> Stretch
        ensures within { (m : ℕ) → is_within result m ≡ (is_within self m && is_within other m) }
        ensures row { result.row ≡ (self.row || other.row) }
        ensures own { result.own ≡ (self.own || other.own) }
    {
        Stretch {
            from: self.from.max(other.from),
            to: self.to.min(other.to),
            row: self.row || other.row,
            own: self.own || other.own,
        }
    }

    /// Whether both are the same, and what they leave to test is too, in each row.
    pub(crate) fn counts_as(self, other: Stretch) -> bool
        ensures { result ≡ true → (self ≡ other) × (self.row ≡ false) }
    {
        self.from == other.from
            && self.to == other.to
            && self.own == other.own
            && !self.row
            && !other.row
    }

    /// Whether nothing is left to test.
    pub(crate) fn is_settled(self) -> bool
        ensures { result ≡ true → (self.row ≡ false) × (self.own ≡ false) }
    {
        !self.row && !self.own
    }

    /// Up to and without which iteration a test that it tells of stays as it is in iteration `i`.
    pub(crate) fn until(self, i: usize, n: usize) -> usize
        requires { i < n }
        ensures more { i < result }
        ensures same { (test : ℕ → Bool) → IsToldBy self n test
            → (m : ℕ) → i ≤ m → m < result → m < n → test m ≡ test i }
    {
        if i < self.from {
            self.from
        } else if i >= self.to {
            n
        } else if self.is_settled() {
            self.to
        } else {
            i + 1
        }
    }

    /// Whether an iteration is in it.
    pub(crate) fn has(self, m: usize) -> bool
        ensures { result ≡ is_within self m }
    {
        self.from <= m && m < self.to
    }

    /// The iterations from the first to the last that stand in one of both. One that is empty has no say.
    pub(crate) fn span(self, other: Stretch) -> Stretch
        ensures mine { (m : ℕ) → is_within self m ≡ true → is_within result m ≡ true }
        ensures theirs { (m : ℕ) → is_within other m ≡ true → is_within result m ≡ true }
    {
        if other.is_empty() {
            return self;
        }
        Stretch {
            from: self.from.min(other.from),
            to: self.to.max(other.to),
            ..self
        }
    }

    /// How many of the iterations from `from` up to and without `to` are in it.
    pub(crate) fn count(self, from: usize, to: usize) -> u64
        requires { from ≤ to }
        ensures { result ≡ count_by (is_within self) (range_with_len from (to - from)) }
    {
        let first = self.from.max(from);
        let end = self.to.min(to);
        if first < end { (end - first) as u64 } else { 0 }
    }

    /// Whether no iteration is in it.
    pub(crate) fn is_empty(self) -> bool
        ensures { result ≡ true → (m : ℕ) → is_within self m ≡ false }
    {
        self.to <= self.from
    }

    /// Which of sixty-four iterations are in it.
    pub(crate) fn word(self, at: usize) -> u64
        requires at { at + 64 ≤ 2 ^ 32 }
        ensures { result ≡ mask_along (is_within self) at 64 }
    {
        below_word(self.to, at) & (u64::MAX - below_word(self.from, at))
    }
}
