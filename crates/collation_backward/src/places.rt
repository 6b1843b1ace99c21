//! Where a search begins that goes back: at safe offsets, or at the beginning of the text.
ghost use Rattle.std.specs.Prelude.{◌≡◌, ◌⊎◌, ℕ, ◌+◌, ◌<◌, IfSome};
ghost use Rattle.collation_safe.specs.Found.{IsFoundUpTo};
ghost use Rattle.collation_safe.specs.Safe.{IsSafeOffset};

use collation_safe::{next_safe, previous_safe};
use collation_table::Strings;

/// The nearest place that stands more than so many bytes before an offset.
pub fn place_before<W: Strings>(table: &W, text: &[u8], end: usize, len: usize) -> usize
    ensures place { (result ≡ 0)
        ⊎ (IsSafeOffset (W.table table.now) text.now result × (result + len < end)) }
{
    if end <= len {
        return 0;
    }
    match previous_safe(table, text, end - len) {
        Some(place) => place,
        None => 0,
    }
}

/// The next safe offset behind a fault that stands before an offset, if it stands before that too.
pub fn place_behind<W: Strings>(table: &W, text: &[u8], fault: u64, at: usize) -> Option<usize>
    requires { fault < at }
    ensures safe { IfSome result (λ place. IsSafeOffset (W.table table.now) text.now place) }
    ensures behind { IfSome result (λ place. (fault < place) × (place < at)) }
    ensures nearest { (place : ℕ) → IsSafeOffset (W.table table.now) text.now place
        → fault < place → place < at → IsFoundUpTo place result }
{
    match next_safe(table, text, fault as usize + 1) {
        Some(place) => { if place < at { Some(place) } else { None } }
        None => None,
    }
}
