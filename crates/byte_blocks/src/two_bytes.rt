//! Text of characters of one and of two bytes sixteen bytes at a time, as long as no two neighbours stop it.
ghost use Rattle.std.specs.Prelude.{◌≡◌, ◌↔◌, ℕ, ◌+◌, ◌-◌, ◌<◌, ◌≤◌, length, true, slice_index};
ghost use Rattle.byte_blocks.specs.Sets.{is_in, trails};
ghost use Rattle.byte_blocks.specs.TwoBytes.{DoesNotGoOn, GoesOn, Pass, StopsAt};

use crate::lanes::{
    either, high_halves, is_zero, least, load, members_of_both, unlike, zeros_in_front,
};
use crate::sets::{LEADS, TRAILS, TwoByteSets};
use std::simd::prelude::*;

/// The fewest bytes for which blocks are begun.
const FEWEST_IN_BLOCKS: usize = 18;

/// How many bytes at the front of a piece pass, up to `limit`: two, and blocks of sixteen behind them, the last of which may begin amid
/// the one before; none where the piece is shorter.
#[inline(never)]
pub fn going_len(sets: &TwoByteSets, piece: &[u8], limit: usize) -> usize
    requires { limit ≤ length piece.now }
    ensures passes { Pass sets.now piece.now result }
    ensures within { result ≤ limit }
    ensures most { FEWEST_IN_BLOCKS ≤ limit → result < limit → StopsAt sets.now piece.now result }
{
    if limit < FEWEST_IN_BLOCKS
        || !begins(sets, piece[0])
        || !goes_on(sets, 0, piece[0], piece[1])
    {
        return 0;
    }
    let mut len = 2;
    while limit - len >= 16 && block_goes_on(sets, piece, len) {
        len += 16;
    }
    if limit - len >= 16 {
        return len + lanes_that_go_on(sets, piece, len);
    }
    let at = limit - 16;
    len.max(at + lanes_that_go_on(sets, piece, at))
}

/// Whether text that passes may begin with a byte.
#[inline(always)]
fn begins(sets: &TwoByteSets, byte: u8) -> bool
    ensures going { result ≡ true → is_in sets.now.halt byte ≡ 0 }
    ensures begins { result ≡ true → trails byte ≡ 0 }
    ensures others { is_in sets.now.halt byte ≡ 0 → trails byte ≡ 0 → result ≡ true }
{
    sets.halt.has(byte) == 0 && TRAILS[(byte / 16) as usize] == 0
}

/// Whether a byte goes on behind two others.
#[inline(always)]
fn goes_on(sets: &TwoByteSets, earlier: u8, before: u8, here: u8) -> bool
    ensures { (result ≡ true) ↔ GoesOn sets.now earlier before here }
{
    let lead = LEADS[(before / 16) as usize];
    if sets.halt.has(here) != 0 || TRAILS[(here / 16) as usize] != lead {
        return false;
    }
    if sets.later.has(here) == 0 {
        return true;
    }
    sets.key.has(before) == 0 && (lead == 0 || sets.key.has(earlier) == 0)
}

/// Whether the sixteen bytes from `at` on go on, behind the two before them.
#[inline(always)]
pub fn block_goes_on(sets: &TwoByteSets, bytes: &[u8], at: usize) -> bool
    requires behind { 2 ≤ at }
    requires within { at + 16 ≤ length bytes.now }
    ensures { (result ≡ true) ↔ ((k : ℕ) → k < 16
        → GoesOn sets.now (slice_index bytes.now (at - 2 + k)) (slice_index bytes.now (at - 1 + k))
        (slice_index bytes.now (at + k))) }
{
    is_zero(stops_of_two(
        sets,
        load(bytes, at - 2),
        load(bytes, at - 1),
        load(bytes, at),
    ))
}

/// How many of the sixteen bytes from `at` on go on, behind the two before them, up to the first one that does not.
#[inline(always)]
fn lanes_that_go_on(sets: &TwoByteSets, bytes: &[u8], at: usize) -> usize
    requires behind { 2 ≤ at }
    requires within { at + 16 ≤ length bytes.now }
    ensures within { result ≤ 16 }
    ensures passes { (k : ℕ) → k < result
        → GoesOn sets.now (slice_index bytes.now (at - 2 + k)) (slice_index bytes.now (at - 1 + k))
        (slice_index bytes.now (at + k)) }
    ensures stop { result < 16 → DoesNotGoOn sets.now (slice_index bytes.now (at - 2 + result))
        (slice_index bytes.now (at - 1 + result)) (slice_index bytes.now (at + result)) }
{
    zeros_in_front(stops_of_two(
        sets,
        load(bytes, at - 2),
        load(bytes, at - 1),
        load(bytes, at),
    ))
}

/// Not 0 in the lanes where a byte does not go on behind two others.
#[inline(always)]
fn stops_of_two(sets: &TwoByteSets, earlier: u8x16, before: u8x16, here: u8x16) -> u8x16
    ensures { (k : ℕ) → k < 16 → (slice_index result k ≡ 0)
        ↔ GoesOn sets.now (slice_index earlier k) (slice_index before k) (slice_index here k) }
{
    let lead = high_halves(&LEADS, before);
    let trail = high_halves(&TRAILS, here);
    let halt = members_of_both(&sets.halt, here);
    let later = members_of_both(&sets.later, here);
    let near = members_of_both(&sets.key, before);
    let far = members_of_both(&sets.key, earlier);
    let waiting = either(near, least(lead, far));
    either(either(halt, unlike(trail, lead)), least(waiting, later))
}
