//! What a search answers of a whole text, fed in pieces, byte by byte, and saved, dropped and resumed after each piece; and whether
//! pieces leave what steps leave.

ghost use Rattle.std.specs.Prelude.{◌<◌};

use super::Range;
use super::calls::{
    Query, begin, feed, feed_well, finish, put_all, resume, saved, step, step_well,
};
use super::checks::{fault_is, ranges_are, words_are};
use collation_search::{Found, Search, TextFault};
use collation_table::Weights;
use std::alloc::Global;
use std::process::Abort;

/// The ranges of a text, and its fault.
pub(super) type Answered = (Vec<Range>, Option<TextFault>);

/// Ends the text: all of its ranges, of which these were handed out before, and its fault.
pub(super) fn end<W: Weights>(
    rt: &impl Abort,
    search: Search<'_, W>,
    mut ranges: Vec<Range>,
) -> Answered {
    let mut found = Found::new();
    let fault = finish(search, &mut found).err();
    put_all(rt, &mut ranges, found.as_slice());
    (ranges, fault)
}

/// The answer of a row is this.
pub(super) fn answered_is(
    rt: &impl Abort,
    got: &Answered,
    ranges: &[Range],
    fault: Option<TextFault>,
    row: &str,
) {
    ranges_are(rt, &got.0, ranges, row);
    fault_is(rt, got.1, fault, row);
}

/// Feeds pieces of this many bytes, up to a fault: the ranges that are handed out are put behind the others. A loop stands in a function
/// that only borrows: a proof goes through all that it owns at each turn.
fn feed_on<W: Weights>(
    rt: &impl Abort,
    search: &mut Search<'_, W>,
    text: &[u8],
    size: usize,
    ranges: &mut Vec<Range>,
)
    requires { 0 < size }
{
    for piece in text.chunks(size) {
        if feed(rt, search, piece, ranges).is_err() {
            break;
        }
    }
}

/// What a search answers of a text that is fed in pieces of this many bytes.
pub(super) fn fed<W: Weights>(
    rt: &impl Abort,
    alloc: Global,
    query: &Query<'_, W>,
    text: &[u8],
    size: usize,
) -> Answered
    requires { 0 < size }
{
    let mut search = begin(rt, alloc, query);
    let mut ranges = Vec::new(alloc);
    feed_on(rt, &mut search, text, size, &mut ranges);
    end(rt, search, ranges)
}

/// Takes bytes one by one, up to a fault: the ranges that are handed out are put behind the others.
fn step_on<W: Weights>(
    rt: &impl Abort,
    search: &mut Search<'_, W>,
    bytes: &[u8],
    ranges: &mut Vec<Range>,
) {
    let mut found = Found::new();
    for byte in bytes {
        let taken = step(search, *byte, &mut found);
        put_all(rt, ranges, found.as_slice());
        if taken.is_err() {
            break;
        }
    }
}

/// What a search answers of a text whose bytes come one by one.
pub(super) fn stepped<W: Weights>(
    rt: &impl Abort,
    alloc: Global,
    query: &Query<'_, W>,
    text: &[u8],
) -> Answered {
    let mut search = begin(rt, alloc, query);
    let mut ranges = Vec::new(alloc);
    step_on(rt, &mut search, text, &mut ranges);
    end(rt, search, ranges)
}

/// What a search answers of a text in pieces of this size, saved, dropped and resumed after each, and how many words the greatest
/// state had.
pub(super) fn resumed<W: Weights>(
    rt: &impl Abort,
    alloc: Global,
    query: &Query<'_, W>,
    text: &[u8],
    size: usize,
) -> (Answered, usize)
    requires { 0 < size }
{
    let mut words = saved(rt, alloc, &begin(rt, alloc, query));
    let mut ranges = Vec::new(alloc);
    let most_words = resume_on(rt, alloc, query, text, size, &mut words, &mut ranges);
    let search = resume(rt, alloc, query, &words);
    (end(rt, search, ranges), most_words)
}

/// Goes on from these words by pieces of this size, saved, dropped and resumed after each: how many words the greatest state had.
fn resume_on<W: Weights>(
    rt: &impl Abort,
    alloc: Global,
    query: &Query<'_, W>,
    text: &[u8],
    size: usize,
    words: &mut Vec<u64>,
    ranges: &mut Vec<Range>,
) -> usize
    requires { 0 < size }
{
    let mut most_words = 0;
    for piece in text.chunks(size) {
        *words = words_after(rt, alloc, query, words.as_slice(), piece, ranges);
        most_words = most_words.max(words.len());
    }
    most_words
}

/// The words after a piece more, of a search that is resumed from those before it and dropped after it. Its fault is passed over, for
/// the end answers it again.
fn words_after<W: Weights>(
    rt: &impl Abort,
    alloc: Global,
    query: &Query<'_, W>,
    words: &[u64],
    piece: &[u8],
    ranges: &mut Vec<Range>,
) -> Vec<u64> {
    let mut search = resume(rt, alloc, query, words);
    let _fault = feed(rt, &mut search, piece, ranges);
    saved(rt, alloc, &search)
}

/// The words of the state of a search that was fed these bytes, whose faults are passed over.
fn state_fed<W: Weights>(
    rt: &impl Abort,
    alloc: Global,
    query: &Query<'_, W>,
    bytes: &[u8],
) -> Vec<u64> {
    let mut search = begin(rt, alloc, query);
    let mut ranges = Vec::new(alloc);
    let _fault = feed(rt, &mut search, bytes, &mut ranges);
    saved(rt, alloc, &search)
}

/// The words of the state of a search that took these bytes one by one, whose faults are passed over.
fn state_stepped<W: Weights>(
    rt: &impl Abort,
    alloc: Global,
    query: &Query<'_, W>,
    bytes: &[u8],
) -> Vec<u64> {
    let mut search = begin(rt, alloc, query);
    step_over(&mut search, bytes);
    saved(rt, alloc, &search)
}

/// Takes bytes one by one, whose faults are passed over.
fn step_over<W: Weights>(search: &mut Search<'_, W>, bytes: &[u8]) {
    let mut found = Found::new();
    for byte in bytes {
        let _fault = step(search, *byte, &mut found);
    }
}

/// The words of the state of a search after some bytes, whose faults are passed over: those that steps leave, and so does a feed.
pub(super) fn state_after<W: Weights>(
    rt: &impl Abort,
    alloc: Global,
    query: &Query<'_, W>,
    bytes: &[u8],
) -> Vec<u64> {
    let words = state_fed(rt, alloc, query, bytes);
    words_are(rt, &words, &state_stepped(rt, alloc, query, bytes));
    words
}

/// Takes bytes without a fault one by one: the ranges that are handed out are put behind the others.
fn step_well_on<W: Weights>(
    rt: &impl Abort,
    search: &mut Search<'_, W>,
    bytes: &[u8],
    ranges: &mut Vec<Range>,
) {
    let mut found = Found::new();
    for byte in bytes {
        step_well(rt, search, *byte, &mut found);
        put_all(rt, ranges, found.as_slice());
    }
}

/// Compares the words of two searches.
fn states_are<W: Weights>(
    rt: &impl Abort,
    alloc: Global,
    search: &Search<'_, W>,
    other: &Search<'_, W>,
) {
    words_are(rt, &saved(rt, alloc, search), &saved(rt, alloc, other));
}

/// Feeds a piece to one search, hands its bytes to the other one by one, and compares the ranges so far and the words of the states.
fn compare_piece<W: Weights>(
    rt: &impl Abort,
    alloc: Global,
    fed: &mut Search<'_, W>,
    stepped: &mut Search<'_, W>,
    piece: &[u8],
    ranges: &mut Vec<Range>,
    want: &mut Vec<Range>,
) {
    feed_well(rt, fed, piece, ranges);
    step_well_on(rt, stepped, piece, want);
    ranges_are(rt, ranges.as_slice(), want.as_slice(), "steps");
    states_are(rt, alloc, fed, stepped);
}

/// Compares what a search leaves that is fed pieces of this many bytes with what one leaves that takes a byte at a time: after each
/// piece the ranges so far and the words of the state. It answers how many ranges there are.
pub(super) fn compare_with_steps<W: Weights>(
    rt: &impl Abort,
    alloc: Global,
    query: &Query<'_, W>,
    text: &[u8],
    size: usize,
) -> usize
    requires { 0 < size }
{
    let mut fed = begin(rt, alloc, query);
    let mut stepped = begin(rt, alloc, query);
    compare_pieces(rt, alloc, &mut fed, &mut stepped, text, size)
}

/// The same of two searches.
fn compare_pieces<W: Weights>(
    rt: &impl Abort,
    alloc: Global,
    fed: &mut Search<'_, W>,
    stepped: &mut Search<'_, W>,
    text: &[u8],
    size: usize,
) -> usize
    requires { 0 < size }
{
    let mut ranges = Vec::new(alloc);
    let mut want = Vec::new(alloc);
    for piece in text.chunks(size) {
        compare_piece(rt, alloc, fed, stepped, piece, &mut ranges, &mut want);
    }
    want.len()
}
