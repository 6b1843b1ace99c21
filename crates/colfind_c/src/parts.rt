//! What C asks of one part of a text: its ranges, which wait until C takes them.

ghost use Rattle.std.specs.Prelude.{Some};
ghost use Rattle.colfind_c.specs.Exports.{StatusSays, OfSearch};
ghost use Rattle.colfind_c.specs.Sessions.{PartInSession};

use crate::handle::{Handle, put, take};
use crate::outcome::{Outcome, Status};
use crate::owned::Owned;
use std::alloc::Global;

/// Searches the part of a text between two offsets with what a handle holds.
fn part_owned(owned: &mut Owned, text: &[u8], from: usize, to: usize) -> Outcome
    ensures part { OfSearch (λ old how new. PartInSession old text.now from to how new)
        (Some owned.old) result (Some owned.new) }
{
    match owned {
        Owned::Search(session) => session.search_part(text, from, to),
        _ => Outcome::WrongHandle,
    }
}

/// Searches the part of a text in memory between two offsets, by a search that was made before. Its ranges wait.
#[unsafe(no_mangle)]
pub extern "C" fn colfind_search_part(
    alloc: Global,
    search: &mut Handle,
    text: &[u8],
    from: usize,
    to: usize,
) -> Status
    ensures part { StatusSays result
        (λ outcome. OfSearch
        (λ old how new. PartInSession old text.now from to how new)
        search.old.value outcome search.new.value) }
{
    match take(alloc, search) {
        Some(mut owned) => {
            let outcome = part_owned(&mut *owned, text, from, to);
            put(alloc, search, owned);
            outcome.status()
        }
        None => Outcome::WrongHandle.status(),
    }
}
