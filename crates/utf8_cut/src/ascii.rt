// How far a slice is ASCII: blocks of bytes at once, then the rest byte by byte.
ghost use Rattle.std.specs.Prelude.{◌≡◌, ◌+◌, ◌≤◌, length, take, drop};
ghost use Rattle.std.specs.Str.{IsAscii};
ghost use Rattle.utf8_cut.specs.Characters.{ascii_prefix_len};

use std::simd::prelude::*;

/// How many bytes are looked at at once.
const BLOCK: usize = 32;

/// The length in bytes of the longest prefix whose bytes are all ASCII, below 80 hex.
pub fn ascii_len(bytes: &[u8]) -> usize
    ensures value { result ≡ ascii_prefix_len bytes.now }
    ensures within { result ≤ length bytes.now }
    ensures ascii { IsAscii (take result bytes.now) }
{
    let mut at = 0;
    while bytes.len() - at >= BLOCK {
        let run = ascii_in_block(bytes, at);
        at += run;
        if run < BLOCK {
            return at;
        }
    }
    at + ascii_one_by_one(&bytes[at..])
}

/// How many bytes of the block that begins at `at` come before its first one that is no ASCII.
#[inline(always)]
fn ascii_in_block(bytes: &[u8], at: usize) -> usize
    requires { at + BLOCK ≤ length bytes.now }
    ensures value { result ≡ ascii_prefix_len (take BLOCK (drop at bytes.now)) }
    ensures within { result ≤ BLOCK }
{
    let stops = u8x32::from_slice(&bytes[at..]).simd_ge(u8x32::splat(0x80));
    let mask = stops.to_bitmask();
    if mask == 0 {
        BLOCK
    } else {
        mask.trailing_zeros() as usize
    }
}

fn ascii_one_by_one(bytes: &[u8]) -> usize
    ensures value { result ≡ ascii_prefix_len bytes.now }
    ensures within { result ≤ length bytes.now }
{
    bytes.iter().take_while(|byte| **byte < 0x80).count()
}
