//! What C asks of a text going back: the last match that ends before an offset, and the one that ends where the text ends.

ghost use Rattle.std.specs.Prelude.{◌≡◌, length, None};
ghost use Rattle.colfind_c.specs.Exports.{Tells, AsksPattern, AnswersLastBefore, AnswersEnds, first_of, up_from};

use crate::exports::{First, first_with, query_of};
use crate::handle::Handle;
use crate::outcome::Outcome;
use crate::owned::Query;
use collation_backward::{ends, last_before};
use std::alloc::Global;

/// The last range of a text that ends at an offset or before it, or the fault that going back meets first.
fn last_in(alloc: Global, query: &Query, text: &[u8], at: usize) -> (Outcome, Option<(u64, u64)>)
    ensures { AnswersLastBefore query.now text.now at result.1 result.0 }
{
    match last_before(alloc, &*query.table, &query.pattern, text, at) {
        Ok(found) => (Outcome::Good, found),
        Err(fault) => (Outcome::Text(fault), None),
    }
}

/// The last range of a text in memory that ends at an offset or before it.
#[unsafe(no_mangle)]
pub extern "C" fn colfind_last_before(
    alloc: Global,
    pattern: &mut Handle,
    text: &[u8],
    at: usize,
) -> First
    ensures last { Tells first_of result
        (λ outcome range. AsksPattern None
        (λ q last how. AnswersLastBefore q text.now at last how)
        pattern.old.value range outcome) }
    ensures same { pattern.new.value ≡ pattern.old.value }
{
    match query_of(alloc, pattern) {
        Ok(query) => {
            let (outcome, found) = last_in(alloc, &*query, text, at);
            first_with(outcome, found)
        }
        Err(outcome) => first_with(outcome, None),
    }
}

/// The range from an offset to the end of a text, where there is one.
fn range_from(start: Option<u64>, text: &[u8]) -> Option<(u64, u64)>
    ensures { result ≡ up_from (length text.now) start }
{
    match start {
        Some(start) => Some((start, text.len() as u64)),
        None => None,
    }
}

/// The shortest match that ends where a text ends, or the last fault, where what stands behind it does not decide.
fn ended_by(alloc: Global, query: &Query, text: &[u8]) -> (Outcome, Option<(u64, u64)>)
    ensures { AnswersEnds query.now text.now result.1 result.0 }
{
    match ends(alloc, &*query.table, &query.pattern, text) {
        Ok(start) => (Outcome::Good, range_from(start, text)),
        Err(fault) => (Outcome::Text(fault), None),
    }
}

/// The shortest match that ends where a text in memory ends.
#[unsafe(no_mangle)]
pub extern "C" fn colfind_ends(alloc: Global, pattern: &mut Handle, text: &[u8]) -> First
    ensures ends { Tells first_of result
        (λ outcome range. AsksPattern None
        (λ q last how. AnswersEnds q text.now last how)
        pattern.old.value range outcome) }
    ensures same { pattern.new.value ≡ pattern.old.value }
{
    match query_of(alloc, pattern) {
        Ok(query) => {
            let (outcome, range) = ended_by(alloc, &*query, text);
            first_with(outcome, range)
        }
        Err(outcome) => first_with(outcome, None),
    }
}
