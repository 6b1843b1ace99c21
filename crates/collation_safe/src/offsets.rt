//! The nearest safe offset, forth and back.
ghost use Rattle.std.specs.Prelude.{◌≡◌, ℕ, ◌<◌, ◌≤◌, true, length, IfSome};
ghost use Rattle.collation_safe.specs.Safe.{IsSafeOffset};
ghost use Rattle.collation_safe.specs.Found.{IsFoundFrom, IsFoundUpTo};

use crate::character::is_safe;
use collation_table::Strings;
use utf8_cut::first_character;

/// The nearest safe offset of these bytes at `from` or behind it, where a character stands that is safe ([`is_safe`]); `None` where there is
/// none before their end. `from` may lie within a character. Bytes that are ill-formed are passed over: of a text that has them from there on
/// a search says that they are a fault.
///
/// It looks at the bytes from `from` on up to the character that stands there.
pub fn next_safe<W: Strings>(table: &W, bytes: &[u8], from: usize) -> Option<usize>
    ensures safe { IfSome result (λ at. IsSafeOffset (W.table table.now) bytes.now at) }
    ensures behind { IfSome result (λ at. from ≤ at) }
    ensures nearest { (at : ℕ) → from ≤ at → IsSafeOffset (W.table table.now) bytes.now at
        → IsFoundUpTo at result }
{
    for at in from..bytes.len() {
        if is_safe_at(table, bytes, at) {
            return Some(at);
        }
    }
    None
}

/// The nearest safe offset of these bytes before `before`; `None` where there is none. `before` may lie within a character, or behind the
/// end.
///
/// It looks at the bytes before `before` down to the character that stands there, and at the rest of a character in which `before` lies.
pub fn previous_safe<W: Strings>(table: &W, bytes: &[u8], before: usize) -> Option<usize>
    ensures safe { IfSome result (λ at. IsSafeOffset (W.table table.now) bytes.now at) }
    ensures before { IfSome result (λ at. at < before) }
    ensures nearest { (at : ℕ) → at < before → IsSafeOffset (W.table table.now) bytes.now at
        → IsFoundFrom at result }
{
    let mut end = before.min(bytes.len());
    while end > 0 {
        end -= 1;
        if is_safe_at(table, bytes, end) {
            return Some(end);
        }
    }
    None
}

/// Whether a whole character that is safe stands at an offset of these bytes.
#[inline]
fn is_safe_at<W: Strings>(table: &W, bytes: &[u8], at: usize) -> bool
    requires { at ≤ length bytes.now }
    ensures safe { result ≡ true → IsSafeOffset (W.table table.now) bytes.now at }
    ensures known { IsSafeOffset (W.table table.now) bytes.now at → result ≡ true }
{
    let (_, rest) = bytes.split_at(at);
    match first_character(rest) {
        Some(c) => is_safe(table, c),
        None => false,
    }
}
