//! What C asks of a text from its beginning: whether all of it is equal to a pattern, and where a match ends that begins with it.

ghost use Rattle.std.specs.Prelude.{◌≡◌, ℕ, Option, Some, false, None, IfOk};
ghost use Rattle.std.specs.Arc.{arc_value};
ghost use Rattle.std.specs.Option.{ForSome};
ghost use Rattle.collation_anchored.specs.Answers.{no_memory};
ghost use Rattle.collation_anchored.specs.Parking.{IsForTable};
ghost use Rattle.colfind_c.specs.Exports.{Tells, AsksQuery, AnswersEqual, AnswersBegins, KeepsAll, equality_of, first_of, up_to};
ghost use Rattle.colfind_c.specs.Queries.{table_of};

use crate::exports::{First, first_with};
use crate::handle::{Handle, put, take};
use crate::outcome::{Outcome, Status};
use crate::owned::{Owned, Query};
use collation_anchored::{Anchored, Parked, TextFault};
use collation_table::Table;
use std::alloc::{AllocError, Global};
use std::mem::replace;

/// Whether a whole text is equal to a pattern.
#[repr(C)]
#[derive(Clone, Copy)]
pub struct Equality {
    pub status: Status,
    /// 1 if it is, else 0.
    pub is_equal: u32,
}

/// What asks texts: what was put away after the text before, or a new one.
fn asking<'a>(
    alloc: Global,
    query: &'a Query,
    room: Option<Parked>,
) -> Result<Anchored<'a, Table>, AllocError>
    requires fits { ForSome room (λ r. IsForTable (table_of query.now) r) }
    ensures table { IfOk result (λ asks. asks.table.now ≡ arc_value query.now.table) }
    ensures pattern { IfOk result (λ asks. asks.pattern.now ≡ query.now.pattern) }
{
    match room {
        Some(room) => Ok(room.unpark(&*query.table, &query.pattern)),
        None => Anchored::new(alloc, &*query.table, &query.pattern),
    }
}

/// That memory was refused.
fn refused() -> TextFault
    ensures { result ≡ no_memory }
{
    TextFault {
        kind: TextFault::NO_MEMORY,
        offset: 0,
    }
}

/// Whether a text is equal to a pattern, and what was put away for the next text.
fn equal_to(
    alloc: Global,
    query: &Query,
    text: &[u8],
    room: Option<Parked>,
) -> (Outcome, bool, Option<Parked>)
    requires fits { ForSome room (λ r. IsForTable (table_of query.now) r) }
    ensures answer { AnswersEqual query.now text.now result.1 result.0 }
    ensures fits { ForSome result.2 (λ r. IsForTable (table_of query.now) r) }
{
    let Ok(mut asks) = asking(alloc, query, room) else {
        return (Outcome::Text(refused()), false, None);
    };
    let said = asks.equals(text);
    let room = Some(asks.park());
    match said {
        Ok(answer) => (Outcome::Good, answer, room),
        Err(fault) => (Outcome::Text(fault), false, room),
    }
}

/// Whether a text is equal to the pattern that a handle holds, or for which its search is.
fn equal_owned(alloc: Global, owned: &mut Owned, text: &[u8]) -> (Outcome, bool)
    ensures answer { AsksQuery false (λ q is_equal how. AnswersEqual q text.now is_equal how)
        (Some owned.old) result.1 result.0 }
    ensures kept { KeepsAll (Some owned.old) (Some owned.new) }
{
    match owned {
        Owned::Pattern(query) => {
            let (outcome, answer, _) = equal_to(alloc, &**query, text, None);
            (outcome, answer)
        }
        Owned::Search(session) => {
            let room = replace(&mut session.asking, None);
            let (outcome, answer, room) = equal_to(alloc, &*session.query, text, room);
            session.asking = room;
            (outcome, answer)
        }
        _ => (Outcome::WrongHandle, false),
    }
}

/// What C gets of it.
fn equality_with(outcome: Outcome, answer: bool) -> Equality
    ensures { result ≡ equality_of outcome answer }
{
    let is_equal = if answer { 1 } else { 0 };
    Equality {
        status: outcome.status(),
        is_equal,
    }
}

/// Whether a text in memory is equal to a pattern, by their sort keys. A search keeps what is asked for the next text.
#[unsafe(no_mangle)]
pub extern "C" fn colfind_equal(alloc: Global, handle: &mut Handle, text: &[u8]) -> Equality
    ensures answer { Tells equality_of result
        (λ outcome answer. AsksQuery false
        (λ q is_equal how. AnswersEqual q text.now is_equal how)
        handle.old.value answer outcome) }
    ensures kept { KeepsAll handle.old.value handle.new.value }
{
    match take(alloc, handle) {
        Some(mut owned) => {
            let (outcome, answer) = equal_owned(alloc, &mut *owned, text);
            put(alloc, handle, owned);
            equality_with(outcome, answer)
        }
        None => equality_with(Outcome::WrongHandle, false),
    }
}

/// The range from the beginning of a text to an offset, where there is one.
fn range_to(end: Option<u64>) -> Option<(u64, u64)>
    ensures { result ≡ up_to end }
{
    match end {
        Some(end) => Some((0, end)),
        None => None,
    }
}

/// The least match that begins where a text begins, and what was put away for the next text.
fn begun_by(
    alloc: Global,
    query: &Query,
    text: &[u8],
    room: Option<Parked>,
) -> (Outcome, Option<(u64, u64)>, Option<Parked>)
    requires fits { ForSome room (λ r. IsForTable (table_of query.now) r) }
    ensures answer { AnswersBegins query.now text.now result.1 result.0 }
    ensures fits { ForSome result.2 (λ r. IsForTable (table_of query.now) r) }
{
    let Ok(mut asks) = asking(alloc, query, room) else {
        return (Outcome::Text(refused()), None, None);
    };
    let said = asks.begins(text);
    let room = Some(asks.park());
    match said {
        Ok(end) => (Outcome::Good, range_to(end), room),
        Err(fault) => (Outcome::Text(fault), None, room),
    }
}

/// The least match that begins where a text begins, of the pattern that a handle holds, or for which its search is.
fn begun_owned(alloc: Global, owned: &mut Owned, text: &[u8]) -> (Outcome, Option<(u64, u64)>)
    ensures answer { AsksQuery None (λ q first how. AnswersBegins q text.now first how)
        (Some owned.old) result.1 result.0 }
    ensures kept { KeepsAll (Some owned.old) (Some owned.new) }
{
    match owned {
        Owned::Pattern(query) => {
            let (outcome, range, _) = begun_by(alloc, &**query, text, None);
            (outcome, range)
        }
        Owned::Search(session) => {
            let room = replace(&mut session.asking, None);
            let (outcome, range, room) = begun_by(alloc, &*session.query, text, room);
            session.asking = room;
            (outcome, range)
        }
        _ => (Outcome::WrongHandle, None),
    }
}

/// The least match that begins where a text in memory begins. A search keeps what is asked for the next text.
#[unsafe(no_mangle)]
pub extern "C" fn colfind_begins(alloc: Global, handle: &mut Handle, text: &[u8]) -> First
    ensures answer { Tells first_of result
        (λ outcome range. AsksQuery None
        (λ q first how. AnswersBegins q text.now first how)
        handle.old.value range outcome) }
    ensures kept { KeepsAll handle.old.value handle.new.value }
{
    match take(alloc, handle) {
        Some(mut owned) => {
            let (outcome, range) = begun_owned(alloc, &mut *owned, text);
            put(alloc, handle, owned);
            first_with(outcome, range)
        }
        None => first_with(Outcome::WrongHandle, None),
    }
}
