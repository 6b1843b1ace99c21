//! Where in a text a search may begin, whatever stands before, as C asks for it.

ghost use Rattle.std.specs.Prelude.{◌≡◌};
ghost use Rattle.collation_table.specs.contracts.table.TableWeights.TheImpl.{ghosts as weights};
ghost use Rattle.colfind_c.specs.Exports.{Tells, AnswersNextSafe, AnswersPreviousSafe, table_under as table_of_owned, place_of};

use crate::handle::{Handle, put, take};
use crate::outcome::{Outcome, Status};
use crate::owned::Owned;
use collation_safe::{next_safe, previous_safe};
use collation_table::Table;
use std::alloc::Global;

/// A safe offset of a text, if one was found.
#[repr(C)]
#[derive(Clone, Copy)]
pub struct Place {
    pub status: Status,
    /// 1 if there is one, else 0.
    pub is_found: u32,
    /// In bytes from the beginning of the text.
    pub at: u64,
}

/// What C gets of an offset.
fn place_with(outcome: Outcome, found: Option<usize>) -> Place
    ensures { result ≡ place_of outcome found }
{
    let status = outcome.status();
    match found {
        Some(at) => Place {
            status,
            is_found: 1,
            at: at as u64,
        },
        None => Place {
            status,
            is_found: 0,
            at: 0,
        },
    }
}

/// The table that a handle holds, or with which its pattern was compiled, or that of its search.
fn table_under(owned: &Owned) -> &Table
    ensures { weights.table result.now ≡ table_of_owned owned.now }
{
    match owned {
        Owned::Table(table) => &**table,
        Owned::Pattern(query) => &*query.table,
        Owned::Search(session) => &*session.query.table,
    }
}

/// The nearest safe offset of some bytes, from an offset on.
#[unsafe(no_mangle)]
pub extern "C" fn colfind_next_safe(
    alloc: Global,
    handle: &mut Handle,
    bytes: &[u8],
    from: usize,
) -> Place
    ensures next { Tells place_of result
        (λ outcome place. AnswersNextSafe handle.old.value bytes.now from place outcome) }
    ensures same { handle.new.value ≡ handle.old.value }
{
    match take(alloc, handle) {
        Some(owned) => {
            let found = next_safe(table_under(&*owned), bytes, from);
            put(alloc, handle, owned);
            place_with(Outcome::Good, found)
        }
        None => place_with(Outcome::WrongHandle, None),
    }
}

/// The nearest safe offset of some bytes before an offset.
#[unsafe(no_mangle)]
pub extern "C" fn colfind_previous_safe(
    alloc: Global,
    handle: &mut Handle,
    bytes: &[u8],
    before: usize,
) -> Place
    ensures previous { Tells place_of result
        (λ outcome place. AnswersPreviousSafe handle.old.value bytes.now before place outcome) }
    ensures same { handle.new.value ≡ handle.old.value }
{
    match take(alloc, handle) {
        Some(owned) => {
            let found = previous_safe(table_under(&*owned), bytes, before);
            put(alloc, handle, owned);
            place_with(Outcome::Good, found)
        }
        None => place_with(Outcome::WrongHandle, None),
    }
}
