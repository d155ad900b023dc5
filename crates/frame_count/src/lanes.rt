//! Eight and sixty-four iterations of the last thread at once, along a column of its log.
ghost use Rattle.std.specs.Prelude.{◌≡◌, ℕ, ◌+◌, ◌-◌, ◌*◌, ◌/◌, ◌<◌, ◌≤◌, ◌^◌, ◌%◌, ◌==◌, ◌&&◌, Bool, true, length, map, nat_eq, nat_le, nat_lt, slice_index};
ghost use Rattle.std.specs.List.{range_with_len};
ghost use Rattle.std.specs.Simd.Lanes.{Each1, mask_l, zip2};
ghost use Rattle.outcome_conv.specs.Conditions.{IsKind};
ghost use Rattle.outcome_conv.specs.Conds.{kind_holds};
ghost use Rattle.frame_count.specs.Row.{bound_of, kind_test, mask_along, residue_fits};

use outcome_conv::CondKind;
use std::simd::prelude::*;

/// The values in eight iterations.
#[inline(always)]
fn value_lanes(values: &[u64], at: usize) -> u64x8
    requires room { at + 8 ≤ length values.now }
    ensures { result ≡ map (slice_index values.now) (range_with_len at 8) }
{
    u64x8::from_slice(&values[at..])
}

/// `k * m + a` in eight iterations `m`.
#[inline(always)]
fn line_lanes(k: u64, a: u64, at: usize) -> u64x8
    requires { (1 ≤ k) × (1 ≤ a) × (k * (at + 8) + a < 2 ^ 64) }
    ensures { result ≡ map (λ m. k * m + a) (range_with_len at 8) }
{
    let steps = u64x8::from_array([0, k, 2 * k, 3 * k, 4 * k, 5 * k, 6 * k, 7 * k]);
    u64x8::splat(k * at as u64 + a) + steps
}

/// Which values are below their bounds, lane by lane.
#[inline(always)]
fn less_bits(value: u64x8, bound: u64x8) -> u64
    requires value { length value ≡ 8 }
    requires bound { length bound ≡ 8 }
    ensures { result ≡ mask_l (zip2 nat_lt value bound) }
{
    value.simd_lt(bound).to_bitmask()
}

/// Which values are at least their bounds, lane by lane.
#[inline(always)]
fn at_least_bits(value: u64x8, bound: u64x8) -> u64
    requires value { length value ≡ 8 }
    requires bound { length bound ≡ 8 }
    ensures { result ≡ mask_l (zip2 nat_le bound value) }
{
    bound.simd_le(value).to_bitmask()
}

/// Which values are their bounds, lane by lane.
#[inline(always)]
fn equal_bits(value: u64x8, bound: u64x8) -> u64
    requires value { length value ≡ 8 }
    requires bound { length bound ≡ 8 }
    ensures { result ≡ mask_l (zip2 nat_eq value bound) }
{
    value.simd_eq(bound).to_bitmask()
}

/// Which lanes of at most 48 bits have the residue `a` for `k`, where `gap` more is a multiple of `k`. A number is one
/// exactly where its product with `step`, modulo 2^64, is below `step`; so no lane is divided.
#[inline(always)]
fn multiple_bits(value: u64x8, k: u64, a: u64, gap: u64, step: u64) -> u64
    requires some { (2 ≤ k) × (k ≤ 128) }
    requires gap { gap ≡ k - a % k }
    requires step { step ≡ (2 ^ 64 - 1) / k + 1 }
    requires lanes { length value ≡ 8 }
    requires short { Each1 (λ v. nat_lt v (2 ^ 48) ≡ true) value }
    ensures { result ≡ mask_l (map (λ v. v % k == a % k) value) }
{
    less_bits(
        (value + u64x8::splat(gap)) * u64x8::splat(step),
        u64x8::splat(step),
    )
}

/// Which lanes have the residue `a` for `k`, a power of two, as where a location has two or four stores: by their low
/// digits.
#[inline(always)]
fn masked_bits(value: u64x8, k: u64, a: u64) -> u64
    requires power { (j : ℕ) × (j < 64) × (k ≡ 2 ^ j) }
    requires lanes { length value ≡ 8 }
    ensures { result ≡ mask_l (map (λ v. v % k == a % k) value) }
{
    let low = k - 1;
    (value & u64x8::splat(low))
        .simd_eq(u64x8::splat(a & low))
        .to_bitmask()
}

/// Which lanes have the residue `a` for another `k`. Where all values have at most 48 bits no lane is divided.
#[inline(always)]
fn residue_bits(value: u64x8, k: u64, a: u64, gap: u64, step: u64) -> u64
    requires some { (2 ≤ k) × (k ≤ 128) }
    requires gap { gap ≡ k - a % k }
    requires step { step ≡ (2 ^ 64 - 1) / k + 1 }
    requires lanes { length value ≡ 8 }
    ensures { result ≡ mask_l (map (λ v. v % k == a % k) value) }
{
    if less_bits(value, u64x8::splat(281474976710656)) == 255 {
        multiple_bits(value, k, a, gap, step)
    } else {
        (value % u64x8::splat(k))
            .simd_eq(u64x8::splat(a % k))
            .to_bitmask()
    }
}

/// The mask of sixty-four iterations, from those of eight.
#[inline(always)]
fn sixty_four<F: Fn(usize) -> u64>(at: usize, eight: F) -> u64
    requires at { at + 64 ≤ 2 ^ 32 }
    requires calls { (i : ℕ) → at ≤ i → i + 8 ≤ at + 64 → F.pre eight i }
    ensures { (p : ℕ → Bool) → ((i r : ℕ) → F.post eight i r → r ≡ mask_along p i 8) → result ≡ mask_along p at 64 }
{
    let mut word = 0u64;
    let mut i = 8usize;
    while i > 0 {
        i -= 1;
        word = word.wrapping_mul(256).wrapping_add(eight(at + 8 * i));
    }
    word
}

// A loop of its own for each comparison has no test in it.

/// Which of sixty-four values are below the bound.
fn less_word(values: &[u64], bound: u64, at: usize) -> u64
    requires at { at + 64 ≤ 2 ^ 32 }
    requires room { at + 64 ≤ length values.now }
    ensures { result ≡ mask_along (λ m. nat_lt (slice_index values.now m) bound) at 64 }
{
    sixty_four(
        at,
        |i: usize| -> u64
            requires { i + 8 ≤ length values.now }
            ensures { result ≡ mask_along (λ m. nat_lt (slice_index values.entry.now m) bound) i 8 }
        { less_bits(value_lanes(values, i), u64x8::splat(bound)) },
    )
}

/// Which of sixty-four values are at least the bound.
fn at_least_word(values: &[u64], bound: u64, at: usize) -> u64
    requires at { at + 64 ≤ 2 ^ 32 }
    requires room { at + 64 ≤ length values.now }
    ensures { result ≡ mask_along (λ m. nat_le bound (slice_index values.now m)) at 64 }
{
    sixty_four(
        at,
        |i: usize| -> u64
            requires { i + 8 ≤ length values.now }
            ensures { result ≡ mask_along (λ m. nat_le bound (slice_index values.entry.now m)) i 8 }
        { at_least_bits(value_lanes(values, i), u64x8::splat(bound)) },
    )
}

/// Which of sixty-four values are the bound.
fn equal_word(values: &[u64], bound: u64, at: usize) -> u64
    requires at { at + 64 ≤ 2 ^ 32 }
    requires room { at + 64 ≤ length values.now }
    ensures { result ≡ mask_along (λ m. nat_eq (slice_index values.now m) bound) at 64 }
{
    sixty_four(
        at,
        |i: usize| -> u64
            requires { i + 8 ≤ length values.now }
            ensures { result ≡ mask_along (λ m. nat_eq (slice_index values.entry.now m) bound) i 8 }
        { equal_bits(value_lanes(values, i), u64x8::splat(bound)) },
    )
}

/// Which of sixty-four values are below `k * m + a`, each by its own iteration `m`.
fn own_less_word(values: &[u64], k: u64, a: u64, at: usize) -> u64
    requires line { (1 ≤ k) × (k ≤ 128) × (1 ≤ a) × (a ≤ 128) }
    requires at { at + 64 ≤ 2 ^ 32 }
    requires room { at + 64 ≤ length values.now }
    ensures { result ≡ mask_along (λ m. nat_lt (slice_index values.now m) (k * m + a)) at 64 }
{
    sixty_four(
        at,
        |i: usize| -> u64
            requires { (1 ≤ k) × (1 ≤ a) × (k * (i + 8) + a < 2 ^ 64) × (i + 8 ≤ length values.now) }
            ensures { result ≡ mask_along (λ m. nat_lt (slice_index values.entry.now m) (k * m + a)) i 8 }
        { less_bits(value_lanes(values, i), line_lanes(k, a, i)) },
    )
}

/// Which of sixty-four values are at least `k * m + a`, each by its own iteration `m`.
fn own_at_least_word(values: &[u64], k: u64, a: u64, at: usize) -> u64
    requires line { (1 ≤ k) × (k ≤ 128) × (1 ≤ a) × (a ≤ 128) }
    requires at { at + 64 ≤ 2 ^ 32 }
    requires room { at + 64 ≤ length values.now }
    ensures { result ≡ mask_along (λ m. nat_le (k * m + a) (slice_index values.now m)) at 64 }
{
    sixty_four(
        at,
        |i: usize| -> u64
            requires { (1 ≤ k) × (1 ≤ a) × (k * (i + 8) + a < 2 ^ 64) × (i + 8 ≤ length values.now) }
            ensures { result ≡ mask_along (λ m. nat_le (k * m + a) (slice_index values.entry.now m)) i 8 }
        { at_least_bits(value_lanes(values, i), line_lanes(k, a, i)) },
    )
}

/// Which of sixty-four values are `k * m + a`, each by its own iteration `m`.
fn own_equal_word(values: &[u64], k: u64, a: u64, at: usize) -> u64
    requires line { (1 ≤ k) × (k ≤ 128) × (1 ≤ a) × (a ≤ 128) }
    requires at { at + 64 ≤ 2 ^ 32 }
    requires room { at + 64 ≤ length values.now }
    ensures { result ≡ mask_along (λ m. nat_eq (slice_index values.now m) (k * m + a)) at 64 }
{
    sixty_four(
        at,
        |i: usize| -> u64
            requires { (1 ≤ k) × (1 ≤ a) × (k * (i + 8) + a < 2 ^ 64) × (i + 8 ≤ length values.now) }
            ensures { result ≡ mask_along (λ m. nat_eq (slice_index values.entry.now m) (k * m + a)) i 8 }
        { equal_bits(value_lanes(values, i), line_lanes(k, a, i)) },
    )
}

/// Which of sixty-four values have the residue `a` for `k`, a power of two.
fn masked_word(values: &[u64], k: u64, a: u64, at: usize) -> u64
    requires power { (j : ℕ) × (j < 64) × (k ≡ 2 ^ j) }
    requires at { at + 64 ≤ 2 ^ 32 }
    requires room { at + 64 ≤ length values.now }
    ensures { result ≡ mask_along (λ m. slice_index values.now m % k == a % k) at 64 }
{
    sixty_four(
        at,
        |i: usize| -> u64
            requires { ((j : ℕ) × (j < 64) × (k ≡ 2 ^ j)) × (i + 8 ≤ length values.now) }
            ensures { result ≡ mask_along (λ m. slice_index values.entry.now m % k == a % k) i 8 }
        { masked_bits(value_lanes(values, i), k, a) },
    )
}

/// Which of sixty-four values have the residue `a` for `k`.
fn residue_word(values: &[u64], k: u64, a: u64, at: usize) -> u64
    requires some { (1 ≤ k) × (k ≤ 128) }
    requires at { at + 64 ≤ 2 ^ 32 }
    requires room { at + 64 ≤ length values.now }
    ensures { result ≡ mask_along (λ m. slice_index values.now m % k == a % k) at 64 }
{
    if k == 1 {
        return u64::MAX;
    }
    if k == 1 << k.trailing_zeros() {
        return masked_word(values, k, a, at);
    }
    let gap = k - a % k;
    let step = u64::MAX / k + 1;
    sixty_four(
        at,
        |i: usize| -> u64
            requires { (2 ≤ k) × (k ≤ 128) × (gap ≡ k - a % k) × (step ≡ (2 ^ 64 - 1) / k + 1)
                × (i + 8 ≤ length values.now) }
            ensures { result ≡ mask_along (λ m. slice_index values.entry.now m % k == a % k) i 8 }
        { residue_bits(value_lanes(values, i), k, a, gap, step) },
    )
}

/// Those of a word of sixty-four values that have the residue `a` for `k` too.
#[inline(always)]
fn with_residue(word: u64, values: &[u64], k: u64, a: u64, at: usize) -> u64
    requires some { (1 ≤ k) × (k ≤ 128) }
    requires at { at + 64 ≤ 2 ^ 32 }
    requires room { at + 64 ≤ length values.now }
    ensures { (p : ℕ → Bool) → word ≡ mask_along p at 64
        → result ≡ mask_along (λ m. p m && (slice_index values.now m % k == a % k)) at 64 }
{
    if word == 0 {
        0
    } else {
        word & residue_word(values, k, a, at)
    }
}

/// Which of sixty-four values have the residue that a condition of this kind asks.
pub(crate) fn fitting_word(kind: CondKind, values: &[u64], at: usize) -> u64
    requires kind { IsKind kind }
    requires at { at + 64 ≤ 2 ^ 32 }
    requires room { at + 64 ≤ length values.now }
    ensures { result ≡ mask_along (λ m. residue_fits kind (slice_index values.now m)) at 64 }
{
    match kind {
        CondKind::AtLeast { k, a } => residue_word(values, k, a, at),
        CondKind::Below { .. } => u64::MAX,
        CondKind::Exact { .. } => u64::MAX,
    }
}

/// Which of sixty-four values pass, by a bound that stays.
#[inline(always)]
pub(crate) fn values_word(kind: CondKind, values: &[u64], bound: u64, at: usize) -> u64
    requires kind { IsKind kind }
    requires at { at + 64 ≤ 2 ^ 32 }
    requires room { at + 64 ≤ length values.now }
    ensures { result ≡ mask_along (λ m. kind_test kind (slice_index values.now m) bound) at 64 }
{
    match kind {
        CondKind::AtLeast { k, a } => {
            with_residue(at_least_word(values, bound, at), values, k, a, at)
        }
        CondKind::Below { .. } => less_word(values, bound, at),
        CondKind::Exact { .. } => equal_word(values, bound, at),
    }
}

/// Which of sixty-four values pass, where the thread that logged them is the writer too.
pub(crate) fn own_word(kind: CondKind, values: &[u64], at: usize) -> u64
    requires kind { IsKind kind }
    requires at { at + 64 ≤ 2 ^ 32 }
    requires room { at + 64 ≤ length values.now }
    ensures { result ≡ mask_along (λ m. kind_holds kind (slice_index values.now m) m) at 64 }
{
    match kind {
        CondKind::AtLeast { k, a } => {
            with_residue(own_at_least_word(values, k, a, at), values, k, a, at)
        }
        CondKind::Below { k } => own_less_word(values, k, 1, at),
        CondKind::Exact { k, a } => own_equal_word(values, k, a, at),
    }
}

/// The line `k * m + a` of bounds, by the writer's iteration `m`.
fn line(kind: CondKind) -> (u64, u64)
    requires kind { IsKind kind }
    ensures same { (m : ℕ) → result.0 * m + result.1 ≡ bound_of kind m }
    ensures some { (1 ≤ result.0) × (1 ≤ result.1) }
    ensures few { (result.0 ≤ 128) × (result.1 ≤ 128) }
{
    match kind {
        CondKind::AtLeast { k, a } => (k, a),
        CondKind::Below { k } => (k, 1),
        CondKind::Exact { k, a } => (k, a),
    }
}

/// The bound of a writer's iteration.
pub(crate) fn bound(kind: CondKind, m: u32) -> u64
    requires kind { IsKind kind }
    ensures { result ≡ bound_of kind m }
{
    let (k, a) = line(kind);
    k * m as u64 + a
}
