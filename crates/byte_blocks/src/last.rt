//! The last byte of a text that is in a set.
ghost use Rattle.std.specs.Prelude.{◌≡◌, ◌≢◌, ◌↔◌, ℕ, ◌+◌, ◌-◌, ◌<◌, ◌≤◌, length, true, slice_index};
ghost use Rattle.byte_blocks.specs.Sets.{HasNone, in_set as in_set_of};

use crate::lanes::{is_zero, load, members_of};
use crate::sets::in_set;

/// How many of the first `len` bytes there are up to the end of the last one in a set of ASCII; 0 where none is in it.
pub fn len_to_last(set: &[u8; 16], bytes: &[u8], len: usize) -> usize
    requires { len ≤ length bytes.now }
    ensures within { result ≤ len }
    ensures member { 0 < result → in_set_of set.now (slice_index bytes.now (result - 1)) ≢ 0 }
    ensures last { HasNone set.now bytes.now result len }
{
    let mut end = len;
    while end >= 16 && block_has_none(set, bytes, end - 16) {
        end -= 16;
    }
    while end > 0 && in_set(set, bytes[end - 1]) == 0 {
        end -= 1;
    }
    end
}

/// Whether none of the sixteen bytes from `at` on is in a set.
#[inline(always)]
fn block_has_none(set: &[u8; 16], bytes: &[u8], at: usize) -> bool
    requires { at + 16 ≤ length bytes.now }
    ensures { (result ≡ true) ↔ ((k : ℕ) → k < 16
        → in_set_of set.now (slice_index bytes.now (at + k)) ≡ 0) }
{
    is_zero(members_of(set, load(bytes, at)))
}
