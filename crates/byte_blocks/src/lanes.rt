//! Vectors of sixteen bytes, lane by lane.
ghost use Rattle.std.specs.Prelude.{◌≡◌, ◌≢◌, ◌↔◌, ℕ, ◌+◌, ◌-◌, ◌%◌, ◌/◌, ◌<◌, ◌≤◌, ◌++◌, min, true, length, slice_index, bit_and, bit_or};
ghost use Rattle.byte_blocks.specs.Lanes.{HasLanes};
ghost use Rattle.byte_blocks.specs.Sets.{in_set, is_in};

use crate::sets::{ByteSet, COLUMNS, HIGH_COLUMNS};
use std::simd::prelude::*;

/// Sixteen bytes from `at` on.
#[inline(always)]
pub(crate) fn load(bytes: &[u8], at: usize) -> u8x16
    requires { at + 16 ≤ length bytes.now }
    ensures { HasLanes result (λ k. slice_index bytes.now (at + k)) }
{
    u8x16::from_slice(&bytes[at..])
}

/// Not 0 in the lanes of bytes that are in a set of ASCII.
#[inline(always)]
pub(crate) fn members_of(set: &[u8; 16], here: u8x16) -> u8x16
    ensures { HasLanes result (λ k. in_set set.now (slice_index here k)) }
{
    members(set, here, columns(here))
}

/// The last lane of a vector, and all but the last one of another behind it.
#[inline(always)]
pub(crate) fn one_back(before: u8x16, here: u8x16) -> u8x16
    ensures { HasLanes result (λ k. slice_index (before ++ here) (15 + k)) }
{
    before.shuffle(
        here,
        [
            15, 16, 17, 18, 19, 20, 21, 22, 23, 24, 25, 26, 27, 28, 29, 30,
        ],
    )
}

/// Whether no byte is in a set.
#[inline(always)]
pub(crate) fn is_empty(set: &[u8; 16]) -> bool
    ensures { result ≡ true → (byte : ℕ) → in_set set.now byte ≡ 0 }
{
    is_zero(load(set, 0))
}

/// Not 0 in the lanes whose bytes are in a set of bytes of all kinds.
#[inline(always)]
pub(crate) fn members_of_both(set: &ByteSet, v: u8x16) -> u8x16
    ensures { HasLanes result (λ k. is_in set.now (slice_index v k)) }
{
    let ascii = members(&set.ascii, v, columns(v));
    let high = members(&set.high, v, high_halves(&HIGH_COLUMNS, v));
    either(ascii, high)
}

/// Not 0 in the lanes in which two vectors differ.
#[inline(always)]
pub(crate) fn unlike(a: u8x16, b: u8x16) -> u8x16
    ensures { (k : ℕ) → k < 16 → (slice_index result k ≡ 0)
        ↔ (slice_index a k ≡ slice_index b k) }
{
    a ^ b
}

/// The bits of either.
#[inline(always)]
pub(crate) fn either(a: u8x16, b: u8x16) -> u8x16
    ensures { HasLanes result (λ k. bit_or (slice_index a k) (slice_index b k)) }
{
    a | b
}

/// The lesser one in each lane.
#[inline(always)]
pub(crate) fn least(a: u8x16, b: u8x16) -> u8x16
    ensures { HasLanes result (λ k. min (slice_index a k) (slice_index b k)) }
{
    a.simd_min(b)
}

/// The bit of each lane that ASCII does not have.
#[inline(always)]
pub(crate) fn high_bits(v: u8x16) -> u8x16
    ensures { HasLanes result (λ k. bit_and (slice_index v k) 128) }
{
    v & u8x16::splat(128)
}

/// Whether all lanes are 0.
#[inline(always)]
pub(crate) fn is_zero(v: u8x16) -> bool
    ensures { (result ≡ true) ↔ ((k : ℕ) → k < 16 → slice_index v k ≡ 0) }
{
    v.simd_ne(u8x16::splat(0)).to_bitmask() == 0
}

/// Whether all lanes of both are 0.
#[inline(always)]
fn are_zero(a: u8x16, b: u8x16) -> bool
    ensures { result ≡ true → (k : ℕ) → k < 16 → (slice_index a k ≡ 0) × (slice_index b k ≡ 0) }
{
    is_zero(either(a, b))
}

/// How many lanes of two vectors, one behind the other, stand before the first one that is not 0.
#[inline(always)]
pub(crate) fn zeros_in_front_of_two(a: u8x16, b: u8x16) -> usize
    ensures within { result ≤ 32 }
    ensures first { (k : ℕ) → k < 16 → k < result → slice_index a k ≡ 0 }
    ensures second { (k : ℕ) → k < 16 → 16 + k < result → slice_index b k ≡ 0 }
    ensures in_first { result < 16 → slice_index a result ≢ 0 }
    ensures in_second { 16 ≤ result → result < 32 → slice_index b (result - 16) ≢ 0 }
{
    if are_zero(a, b) {
        return 32;
    }
    // both are counted, so that a place that can't be foreseen is no jump
    let first = zeros_in_front(a);
    let second = 16 + zeros_in_front(b);
    if first < 16 { first } else { second }
}

/// How many lanes stand before the first one that is not 0.
#[inline(always)]
pub(crate) fn zeros_in_front(v: u8x16) -> usize
    ensures within { result ≤ 16 }
    ensures zeros { (k : ℕ) → k < result → slice_index v k ≡ 0 }
    ensures stop { result < 16 → slice_index v result ≢ 0 }
{
    // a bit behind the lanes, so that there is one
    (v.simd_ne(u8x16::splat(0)).to_bitmask() | 65_536).trailing_zeros() as usize
}

/// The bit of each lane's high half.
#[inline(always)]
pub(crate) fn columns(v: u8x16) -> u8x16
    ensures { HasLanes result (λ k. slice_index COLUMNS (slice_index v k / 16)) }
{
    high_halves(&COLUMNS, v)
}

/// What each lane's high half has in a table.
#[inline(always)]
pub(crate) fn high_halves(table: &[u8; 16], v: u8x16) -> u8x16
    ensures { HasLanes result (λ k. slice_index table.now (slice_index v k / 16)) }
{
    u8x16::from_array(*table).swizzle_dyn_within::<16>(v >> u8x16::splat(4))
}

/// Not 0 in the lanes whose bytes are in a set.
#[inline(always)]
pub(crate) fn members(set: &[u8; 16], v: u8x16, columns: u8x16) -> u8x16
    ensures { HasLanes result (λ k.
        bit_and (slice_index set.now (slice_index v k % 16)) (slice_index columns k)) }
{
    u8x16::from_array(*set).swizzle_dyn_within::<16>(v & u8x16::splat(15)) & columns
}
