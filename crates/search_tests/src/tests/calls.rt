//! The calls that the tests make, each in a function of its own that promises nothing, for any table. The contracts of a search are
//! long: so a proof meets each of them once, and not at each use. Where a test goes on only if a call succeeds, the function stops the
//! test itself: with each `?` a proof goes through everything that the caller has to drop there. What may be refused and is looked at
//! has a function whose name begins with `try`.

use super::Range;
use collation_elements::{Strength, Variable};
use collation_pattern::Pattern;
use collation_search::{
    Found, PiecesSearched, Search, Select, StateFault, TextFault, index, index_from,
    search_in_pieces,
};
use collation_table::{PlainTable, Table, Weights};
use std::alloc::{AllocError, Global};
use std::process::Abort;

/// What a search is made for.
#[derive(Drop)]
pub(super) struct Query<'a, W: Weights> {
    pub(super) table: &'a W,
    pub(super) pattern: &'a Pattern,
    pub(super) select: Select,
}

/// A query for all minimal matches.
pub(super) fn for_all<'a, W: Weights>(table: &'a W, pattern: &'a Pattern) -> Query<'a, W> {
    Query {
        table,
        pattern,
        select: Select::All,
    }
}

/// A query for these matches.
pub(super) fn query_for<'a, W: Weights>(
    table: &'a W,
    pattern: &'a Pattern,
    select: Select,
) -> Query<'a, W> {
    Query {
        table,
        pattern,
        select,
    }
}

/// The table of these lines.
pub(super) fn read(rt: &impl Abort, alloc: Global, lines: &str) -> Table {
    Table::read(alloc, lines.as_bytes()).expect(rt, "the table")
}

/// The same table, whose rows stand in an ordered map.
pub(super) fn read_plain(rt: &impl Abort, alloc: Global, lines: &str) -> PlainTable {
    PlainTable::read(alloc, lines.as_bytes()).expect(rt, "the plain table")
}

/// The pattern of these letters.
pub(super) fn compile<W: Weights>(
    rt: &impl Abort,
    alloc: Global,
    table: &W,
    letters: &str,
    strength: Strength,
    variable: Variable,
) -> Pattern {
    Pattern::compile(alloc, table, letters, strength, variable).expect(rt, "the pattern")
}

/// A new search, unless memory is refused.
pub(super) fn try_begin<'a, W: Weights>(
    alloc: Global,
    query: &Query<'a, W>,
) -> Result<Search<'a, W>, AllocError> {
    match query.select {
        Select::All => Search::new(alloc, query.table, query.pattern),
        Select::Chain => Search::new_with(alloc, query.table, query.pattern, query.select),
    }
}

/// A new search.
pub(super) fn begin<'a, W: Weights>(
    rt: &impl Abort,
    alloc: Global,
    query: &Query<'a, W>,
) -> Search<'a, W> {
    try_begin(alloc, query).expect(rt, "a search")
}

/// A search that goes on from the words of a state, unless they are refused.
pub(super) fn try_resume<'a, W: Weights>(
    alloc: Global,
    query: &Query<'a, W>,
    words: &[u64],
) -> Result<Search<'a, W>, StateFault> {
    match query.select {
        Select::All => Search::resume(alloc, query.table, query.pattern, words),
        Select::Chain => {
            Search::resume_with(alloc, query.table, query.pattern, query.select, words)
        }
    }
}

/// A search that goes on from the words of a state.
pub(super) fn resume<'a, W: Weights>(
    rt: &impl Abort,
    alloc: Global,
    query: &Query<'a, W>,
    words: &[u64],
) -> Search<'a, W> {
    try_resume(alloc, query, words).expect(rt, "a resumed search")
}

/// Feeds a piece, and puts the ranges that are handed out behind the others.
pub(super) fn feed<W: Weights>(
    rt: &impl Abort,
    search: &mut Search<'_, W>,
    piece: &[u8],
    ranges: &mut Vec<Range>,
) -> Result<(), TextFault> {
    search.feed(
        piece,
        &mut |start, end| {
            ranges.push((start, end)).expect(rt, "memory");
        },
    )
}

/// Feeds a piece without a fault.
pub(super) fn feed_well<W: Weights>(
    rt: &impl Abort,
    search: &mut Search<'_, W>,
    piece: &[u8],
    ranges: &mut Vec<Range>,
) {
    feed(rt, search, piece, ranges).expect(rt, "no fault of a piece");
}

/// Takes a byte: the ranges that are handed out.
pub(super) fn step<W: Weights>(
    search: &mut Search<'_, W>,
    byte: u8,
    found: &mut Found,
) -> Result<(), TextFault> {
    search.step(byte, found)
}

/// Takes a byte that is at no fault.
pub(super) fn step_well<W: Weights>(
    rt: &impl Abort,
    search: &mut Search<'_, W>,
    byte: u8,
    found: &mut Found,
) {
    step(search, byte, found).expect(rt, "no fault of a byte");
}

/// Ends the text: the ranges that are handed out.
pub(super) fn finish<W: Weights>(
    search: Search<'_, W>,
    found: &mut Found,
) -> Result<(), TextFault> {
    search.finish(found)
}

/// Gives the text up: the ranges that are handed out.
pub(super) fn stop<W: Weights>(search: Search<'_, W>, found: &mut Found) {
    search.stop(found);
}

/// The fault that the search has reported.
pub(super) fn reported<W: Weights>(search: &Search<'_, W>) -> Option<TextFault> {
    search.reported()
}

/// Puts the words of the state behind the others, unless memory is refused.
pub(super) fn try_save<W: Weights>(
    search: &Search<'_, W>,
    words: &mut Vec<u64>,
) -> Result<(), AllocError> {
    search.save(words)
}

/// The words of the state.
pub(super) fn saved<W: Weights>(
    rt: &impl Abort,
    alloc: Global,
    search: &Search<'_, W>,
) -> Vec<u64> {
    let mut words = Vec::new(alloc);
    try_save(search, &mut words).expect(rt, "the words");
    words
}

/// Puts ranges behind the others.
pub(super) fn put_all(rt: &impl Abort, ranges: &mut Vec<Range>, more: &[Range]) {
    ranges.extend_from_slice(more).expect(rt, "memory");
}

/// Puts bytes behind the others.
pub(super) fn put_bytes(rt: &impl Abort, bytes: &mut Vec<u8>, more: &[u8]) {
    bytes.extend_from_slice(more).expect(rt, "memory");
}

/// A text so many times in a row.
pub(super) fn repeated(rt: &impl Abort, alloc: Global, text: &str, count: usize) -> String {
    text.repeat(alloc, count).expect(rt, "memory")
}

/// These texts, one behind the other.
pub(super) fn joined(rt: &impl Abort, alloc: Global, texts: &[&str]) -> String {
    let mut all = String::new(alloc);
    for text in texts {
        all.push_str(*text).expect(rt, "memory");
    }
    all
}

/// The first range of a text that is held whole.
pub(super) fn first_range<W: Weights>(
    alloc: Global,
    query: &Query<'_, W>,
    text: &[u8],
) -> Result<Option<Range>, TextFault> {
    index(alloc, query.table, query.pattern, text)
}

/// The first range from an offset of that text on.
pub(super) fn first_range_from<W: Weights>(
    alloc: Global,
    query: &Query<'_, W>,
    text: &[u8],
    from: usize,
) -> Result<Option<Range>, TextFault> {
    index_from(alloc, query.table, query.pattern, text, from)
}

/// The first range by a search that was made before, which is then at the beginning of a text
/// again.
pub(super) fn first_in<W: Weights>(
    search: &mut Search<'_, W>,
    text: &[u8],
) -> Result<Option<Range>, TextFault> {
    search.first_in(text)
}

/// The same of what stands from an offset of that text on.
pub(super) fn first_from<W: Weights>(
    search: &mut Search<'_, W>,
    text: &[u8],
    from: usize,
) -> Result<Option<Range>, TextFault> {
    search.first_from(text, from)
}

/// Ends the text: the ranges that are handed out. The search is then at the beginning of another text.
pub(super) fn finish_text<W: Weights>(
    search: &mut Search<'_, W>,
    found: &mut Found,
) -> Result<(), TextFault> {
    search.finish_text(found)
}

/// Gives the text up, and goes to the beginning of another one.
pub(super) fn begin_again<W: Weights>(search: &mut Search<'_, W>) {
    search.begin_again();
}

/// Goes on from the words of a state: the kind of the fault for which they are refused.
pub(super) fn resume_from<W: Weights>(search: &mut Search<'_, W>, words: &[u64]) -> Option<u8> {
    search.resume_from(words).err().map(|fault| fault.kind)
}

/// The ranges of a text in pieces, and what is reported beside them, by a search that is saved and resumed after each.
pub(super) fn in_pieces<W: Weights>(
    rt: &impl Abort,
    alloc: Global,
    query: &Query<'_, W>,
    pieces: &[&[u8]],
) -> (Vec<Range>, PiecesSearched) {
    let mut ranges = Vec::new(alloc);
    let told = search_in_pieces(
        alloc,
        query.table,
        query.pattern,
        query.select,
        pieces,
        &mut |start, end| {
            ranges.push((start, end)).expect(rt, "memory");
        },
    )
    .expect(rt, "the pieces");
    (ranges, told)
}
