//! Text of ASCII sixteen bytes at a time, as long as no two neighbours stop it.
ghost use Rattle.std.specs.Prelude.{◌≡◌, ◌↔◌, ℕ, ◌+◌, ◌-◌, ◌<◌, ◌≤◌, ◌∷◌, length, true, slice_index};
ghost use Rattle.byte_blocks.specs.Ascii.{DoesNotPass, PassNoFurther, HaltsDecide, KeysDecide, MayPass, Passes, PassesBehind};
ghost use Rattle.byte_blocks.specs.Lanes.{HasLanes};
ghost use Rattle.byte_blocks.specs.Sets.{in_set as in_set_of};

use crate::lanes::{
    columns, either, high_bits, is_empty, is_zero, least, load, members, members_of, one_back,
    unlike, zeros_in_front, zeros_in_front_of_two,
};
use crate::sets::{AsciiSets, in_set};
use std::simd::prelude::*;

/// How many bytes at the front of a piece pass, up to `limit`: the first one, and blocks of sixteen behind it, the last of which may begin
/// amid the one before.
#[inline(never)]
pub fn passed_len(sets: &AsciiSets, piece: &[u8], limit: usize) -> usize
    requires { limit ≤ length piece.now }
    ensures passes { Passes sets.now piece.now result }
    ensures within { result ≤ limit }
    ensures most { result < limit → PassNoFurther sets.now piece.now result }
{
    if limit == 0 || piece[0] >= 128 || in_set(&sets.halt, piece[0]) != 0 {
        return 0;
    }
    let len = if keys_decide(sets) {
        pass_by_keys(sets, piece, limit)
    } else if halts_decide(sets) {
        pass_by_halts(sets, piece, limit)
    } else {
        return pass_by_blocks(sets, piece, 1, limit);
    };
    if limit - len >= 32 {
        return len;
    }
    pass_by_blocks(sets, piece, len, limit)
}

/// How many bytes at the front of a piece pass, up to `limit`, of which the first `from` do: block by block.
#[inline(always)]
fn pass_by_blocks(sets: &AsciiSets, piece: &[u8], from: usize, limit: usize) -> usize
    requires limit { limit ≤ length piece.now }
    requires from { (1 ≤ from) × (from ≤ limit) }
    requires passes { Passes sets.now piece.now from }
    ensures passes { Passes sets.now piece.now result }
    ensures within { result ≤ limit }
    ensures most { result < limit → PassNoFurther sets.now piece.now result }
{
    let mut len = from;
    while limit - len >= 16 && block_passes(sets, piece, len) {
        len += 16;
    }
    if limit - len < 16 {
        return pass_end(sets, piece, len, limit);
    }
    len + lanes_that_pass(sets, piece, len)
}

/// How many bytes at the front of a piece pass, of which the first one does, where keys alone decide it: two blocks at a time, each byte
/// of which is looked up once, to a byte that does not pass, or as long as there are two blocks.
#[inline(always)]
fn pass_by_keys(sets: &AsciiSets, piece: &[u8], limit: usize) -> usize
    requires keys { KeysDecide sets.now }
    requires limit { (1 ≤ limit) × (limit ≤ length piece.now) }
    requires passes { Passes sets.now piece.now 1 }
    ensures passes { Passes sets.now piece.now result }
    ensures within { (1 ≤ result) × (result ≤ limit) }
    ensures most { result + 32 ≤ limit → PassNoFurther sets.now piece.now result }
{
    let mut len = 1;
    let mut before = keys_behind(sets, piece[0]);
    while limit - len >= 32 {
        let (lanes, keys) = two_blocks_len_by_keys(sets, piece, len, before);
        if lanes < 32 {
            return len + lanes;
        }
        len += 32;
        before = keys;
    }
    len
}

/// The same where the bytes that halt decide it: then one set is looked up.
#[inline(always)]
fn pass_by_halts(sets: &AsciiSets, piece: &[u8], limit: usize) -> usize
    requires halts { HaltsDecide sets.now }
    requires limit { (1 ≤ limit) × (limit ≤ length piece.now) }
    requires passes { Passes sets.now piece.now 1 }
    ensures passes { Passes sets.now piece.now result }
    ensures within { (1 ≤ result) × (result ≤ limit) }
    ensures most { result + 32 ≤ limit → PassNoFurther sets.now piece.now result }
{
    let mut len = 1;
    while limit - len >= 32 {
        let lanes = two_blocks_len_by_halts(sets, piece, len);
        if lanes < 32 {
            return len + lanes;
        }
        len += 32;
    }
    len
}

/// How many bytes at the front of a piece pass, up to `limit`, of which the first `from` do, and fewer than sixteen are left: by the last
/// block, which begins amid those that pass, and one by one where the piece is too short for it.
#[inline(always)]
fn pass_end(sets: &AsciiSets, piece: &[u8], from: usize, limit: usize) -> usize
    requires limit { limit ≤ length piece.now }
    requires from { (1 ≤ from) × (from ≤ limit) }
    requires few { limit < from + 16 }
    requires passes { Passes sets.now piece.now from }
    ensures passes { Passes sets.now piece.now result }
    ensures within { result ≤ limit }
    ensures most { result < limit → PassNoFurther sets.now piece.now result }
{
    if limit < 17 {
        return pass_bytes(sets, piece, from, limit);
    }
    let at = limit - 16;
    from.max(at + lanes_that_pass(sets, piece, at))
}

/// How many bytes at the front of a piece pass, up to `limit`, of which the first `from` do.
#[inline(always)]
fn pass_bytes(sets: &AsciiSets, piece: &[u8], from: usize, limit: usize) -> usize
    requires limit { limit ≤ length piece.now }
    requires from { (1 ≤ from) × (from ≤ limit) }
    requires passes { Passes sets.now piece.now from }
    ensures passes { Passes sets.now piece.now result }
    ensures within { result ≤ limit }
    ensures most { result < limit → PassNoFurther sets.now piece.now result }
{
    let mut len = from;
    while len < limit && byte_passes(sets, piece[len - 1], piece[len]) {
        len += 1;
    }
    len
}

/// Whether a byte passes behind another.
#[inline(always)]
fn byte_passes(sets: &AsciiSets, before: u8, here: u8) -> bool
    ensures { (result ≡ true) ↔ PassesBehind sets.now before here }
{
    here < 128
        && in_set(&sets.halt, here) == 0
        && in_set(&sets.key, before).min(in_set(&sets.later, here)) == 0
        && in_set(&sets.joins, before).min(in_set(&sets.inner, here)) == 0
}

/// Whether the sixteen bytes from `at` on pass, behind the byte before them.
#[inline(always)]
pub fn block_passes(sets: &AsciiSets, bytes: &[u8], at: usize) -> bool
    requires behind { 1 ≤ at }
    requires within { at + 16 ≤ length bytes.now }
    ensures { (result ≡ true) ↔ ((k : ℕ) → k < 16
        → PassesBehind sets.now (slice_index bytes.now (at + k - 1))
        (slice_index bytes.now (at + k))) }
{
    is_zero(stops(sets, load(bytes, at - 1), load(bytes, at)))
}

/// How many of the thirty-two bytes from `at` on pass, behind the byte before them, up to the first one that does not, where keys alone
/// decide it, and the keys of the sixteen bytes before are known; and those of the last sixteen.
#[inline(always)]
fn two_blocks_len_by_keys(
    sets: &AsciiSets,
    bytes: &[u8],
    at: usize,
    before: u8x16,
) -> (usize, u8x16)
    requires keys { KeysDecide sets.now }
    requires behind { 1 ≤ at }
    requires within { at + 32 ≤ length bytes.now }
    requires before { in_set_of sets.now.key (slice_index bytes.now (at - 1))
        ≡ slice_index before 15 }
    ensures within { result.0 ≤ 32 }
    ensures passes { (k : ℕ) → k < result.0
        → PassesBehind sets.now (slice_index bytes.now (at + k - 1))
        (slice_index bytes.now (at + k)) }
    ensures stop { result.0 < 32
        → DoesNotPass sets.now (slice_index bytes.now (at + result.0 - 1))
        (slice_index bytes.now (at + result.0)) }
    ensures last { in_set_of sets.now.key (slice_index bytes.now (at + 31))
        ≡ slice_index result.1 15 }
{
    let first = load(bytes, at);
    let second = load(bytes, at + 16);
    let middle = members_of(&sets.key, first);
    let last = members_of(&sets.key, second);
    let stops_first = key_stops(sets, before, middle, first);
    let stops_second = key_stops(sets, middle, last, second);
    (zeros_in_front_of_two(stops_first, stops_second), last)
}

/// How many of the thirty-two bytes from `at` on can be passed, up to the first one that can't.
#[inline(always)]
fn two_blocks_len_by_halts(sets: &AsciiSets, bytes: &[u8], at: usize) -> usize
    requires within { at + 32 ≤ length bytes.now }
    ensures within { result ≤ 32 }
    ensures passes { (k : ℕ) → k < result
        → MayPass sets.now (slice_index bytes.now (at + k)) }
    ensures stop { result < 32 → MayPass sets.now (slice_index bytes.now (at + result)) → ⊥ }
{
    let first = halts_of(sets, load(bytes, at));
    let second = halts_of(sets, load(bytes, at + 16));
    zeros_in_front_of_two(first, second)
}

/// How many of the sixteen bytes from `at` on pass, behind the byte before them, up to the first one that does not.
#[inline(always)]
fn lanes_that_pass(sets: &AsciiSets, bytes: &[u8], at: usize) -> usize
    requires behind { 1 ≤ at }
    requires within { at + 16 ≤ length bytes.now }
    ensures within { result ≤ 16 }
    ensures passes { (k : ℕ) → k < result
        → PassesBehind sets.now (slice_index bytes.now (at + k - 1))
        (slice_index bytes.now (at + k)) }
    ensures stop { result < 16
        → DoesNotPass sets.now (slice_index bytes.now (at + result - 1))
        (slice_index bytes.now (at + result)) }
{
    zeros_in_front(stops(sets, load(bytes, at - 1), load(bytes, at)))
}

/// Not 0 in the lanes where a byte does not pass behind another.
#[inline(always)]
fn stops(sets: &AsciiSets, before: u8x16, here: u8x16) -> u8x16
    ensures { (k : ℕ) → k < 16 → (slice_index result k ≡ 0)
        ↔ PassesBehind sets.now (slice_index before k) (slice_index here k) }
{
    let columns_before = columns(before);
    let columns_here = columns(here);
    let key = members(&sets.key, before, columns_before);
    let later = members(&sets.later, here, columns_here);
    let joins = members(&sets.joins, before, columns_before);
    let inner = members(&sets.inner, here, columns_here);
    let halt = members(&sets.halt, here, columns_here);
    either(
        either(halt, least(key, later)),
        either(least(joins, inner), high_bits(here)),
    )
}

/// Where keys alone decide it, not 0 in the lanes where a byte does not pass behind another. `keys` are those of the bytes, and `before`
/// those of the sixteen bytes before them.
#[inline(always)]
fn key_stops(sets: &AsciiSets, before: u8x16, keys: u8x16, here: u8x16) -> u8x16
    requires { HasLanes keys (λ k. in_set_of sets.now.key (slice_index here k)) }
    ensures { KeysDecide sets.now → (byte : ℕ)
        → in_set_of sets.now.key byte ≡ slice_index before 15
        → (k : ℕ) → k < 16 → (slice_index result k ≡ 0)
        ↔ PassesBehind sets.now (slice_index (byte ∷ here) k) (slice_index here k) }
{
    let later = members(&sets.later, here, columns(here));
    either(least(one_back(before, keys), later), high_bits(here))
}

/// The keys of sixteen bytes, of which the last one is given.
#[inline(always)]
fn keys_behind(sets: &AsciiSets, byte: u8) -> u8x16
    ensures { in_set_of sets.now.key byte ≡ slice_index result 15 }
{
    u8x16::splat(in_set(&sets.key, byte))
}

/// Whether keys alone decide which bytes pass, as in a table without strings of letters of ASCII.
#[inline(always)]
fn keys_decide(sets: &AsciiSets) -> bool
    ensures { result ≡ true → KeysDecide sets.now }
{
    is_empty(&sets.inner) && is_empty(&sets.halt)
}

/// Not 0 in the lanes of bytes that can't be passed.
#[inline(always)]
fn halts_of(sets: &AsciiSets, here: u8x16) -> u8x16
    ensures { (k : ℕ) → k < 16 → (slice_index result k ≡ 0)
        ↔ MayPass sets.now (slice_index here k) }
{
    either(members(&sets.halt, here, columns(here)), high_bits(here))
}

/// Whether the bytes that halt decide alone which bytes pass, as for a pattern of one key in a table without strings of letters of ASCII.
#[inline(always)]
fn halts_decide(sets: &AsciiSets) -> bool
    ensures { result ≡ true → HaltsDecide sets.now }
{
    let halt = load(&sets.halt, 0);
    let key = load(&sets.key, 0);
    is_empty(&sets.inner) && is_zero(unlike(either(key, halt), halt))
}
