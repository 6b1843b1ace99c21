//! Memory that is refused: to be run with each allocation refused in turn. A refusal that meets the test itself stops it.

use super::answers::state_after;
use super::calls::{
    Query, compile, feed, finish, first_from, first_in, first_range, first_range_from, for_all,
    joined, put_all, query_for, read, repeated, try_begin, try_resume, try_save,
};
use super::checks::{
    answer_is, count_is, first_is, holds, kind_is, ranges_are, ranges_follow, same, words_are,
};
use super::{KEPT, ONE, Range, TABLE, THREE, TWO};
use collation_elements::Strength;
use collation_search::{Found, Search, Select, TextFault};
use collation_table::Table;
use std::alloc::Global;
use std::process::Abort;

/// A new search, asked for again where memory was refused.
fn begin_again<'a>(rt: &impl Abort, alloc: Global, query: &Query<'a, Table>) -> Search<'a, Table> {
    match try_begin(alloc, query) {
        Ok(search) => search,
        Err(_refused) => try_begin(alloc, query).expect(rt, "a search"),
    }
}

/// What the first range of a text is where memory was refused.
const REFUSED: TextFault = TextFault {
    kind: 36,
    offset: 0,
};

/// The first range of a text, asked for again where memory was refused.
fn first_range_again(
    alloc: Global,
    query: &Query<'_, Table>,
    text: &[u8],
) -> Result<Option<Range>, TextFault> {
    match first_range(alloc, query, text) {
        Err(fault) if fault == REFUSED => first_range(alloc, query, text),
        answer => answer,
    }
}

/// The same from an offset on, by the call that takes one.
fn first_range_from_again(
    alloc: Global,
    query: &Query<'_, Table>,
    text: &[u8],
    from: usize,
) -> Result<Option<Range>, TextFault> {
    match first_range_from(alloc, query, text, from) {
        Err(fault) if fault == REFUSED => first_range_from(alloc, query, text, from),
        answer => answer,
    }
}

/// A strength, a pattern, a text, its first range or fault, its ranges, and its fault.
type Row<'a> = (
    Strength,
    &'a str,
    &'a [u8],
    Result<Option<Range>, TextFault>,
    &'a [Range],
    Result<(), TextFault>,
);

const BAD: TextFault = TextFault {
    kind: 31,
    offset: 17,
};

const LETTERS: &[u8] = b"baae\xcc\x81\xea\xb0\x81 aaa ab \xff aa";

const JAMO: &[u8] = b"\xe1\x84\x80\xe1\x85\xa1\xe1\x86\xa8";

const ACCENTED: &[u8] = b"\xc3\xa9a\xc3\xa9";

const COMPOSED: &[u8] = b"r\xc3\xa9sum\xc3\xa9";

const MARKED: &[u8] = b"u\xcc\xa7\xcc\x81";

const OF_LETTERS: [Range; 3] = [(1, 3), (10, 12), (11, 13)];

const ROWS: [Row; 7] = [
    (
        THREE,
        "aa",
        LETTERS,
        Ok(Some((1, 3))),
        &OF_LETTERS,
        Err(BAD),
    ),
    (
        ONE,
        "e",
        ACCENTED,
        Ok(Some((0, 2))),
        &[(0, 2), (3, 5)],
        Ok(()),
    ),
    (ONE, "resume", COMPOSED, Ok(Some((0, 8))), &[(0, 8)], Ok(())),
    (ONE, "\u{fa}", MARKED, Ok(Some((0, 5))), &[(0, 5)], Ok(())),
    (TWO, "\u{fa}", MARKED, Ok(None), &[], Ok(())),
    (THREE, "\u{ac01}", JAMO, Ok(Some((0, 9))), &[(0, 9)], Ok(())),
    (THREE, "\u{1100}", b"\xea\xb0\x81", Ok(None), &[], Ok(())),
];

/// Feeds a text and ends it: what both answer, and all ranges.
fn feed_and_finish(
    rt: &impl Abort,
    alloc: Global,
    query: &Query<'_, Table>,
    text: &[u8],
    ended: Result<(), TextFault>,
    ranges: &mut Vec<Range>,
) {
    let mut search = begin_again(rt, alloc, query);
    let fed = feed(rt, &mut search, text, ranges);
    answer_is(rt, fed, ended);
    let mut found = Found::new();
    answer_is(rt, finish(search, &mut found), ended);
    holds(rt, fed.is_ok() || found.is_empty(), &fed);
    put_all(rt, ranges, found.as_slice());
}

/// Compares what a search for a row answers that is asked for again.
fn ask_row_again(rt: &impl Abort, alloc: Global, table: &Table, row: &Row<'_>) {
    let (strength, letters, text, first, ranges, ended) = *row;
    let pattern = compile(rt, alloc, table, letters, strength, KEPT);
    let query = for_all(table, &pattern);
    first_is(rt, first_range_again(alloc, &query, text), first, letters);
    let from_0 = first_range_from_again(alloc, &query, text, 0);
    first_is(rt, from_0, first, letters);
    let mut got = room(rt, alloc, 8);
    feed_and_finish(rt, alloc, &query, text, ended, &mut got);
    ranges_are(rt, &got, ranges, letters);
}

/// No ranges, and room for so many.
fn room(rt: &impl Abort, alloc: Global, count: usize) -> Vec<Range> {
    Vec::with_capacity(alloc, count).expect(rt, "memory")
}

/// A refused search is none, a refused first range is 36 at 0, and what is asked again is answered as with ample memory.
#[test]
fn refused_searches_are_asked_again(rt: HostRuntime) {
    let table = read(&rt, rt.alloc(), TABLE);
    for row in &ROWS {
        ask_row_again(&rt, rt.alloc(), &table, row);
    }
}

/// Compares the ranges of a text that is repeated so often, and has a range of so many bytes at its front. There is room for the ranges
/// before: once the search is there, memory is asked for what is cached of characters alone.
fn ranges_repeat(
    rt: &impl Abort,
    alloc: Global,
    table: &Table,
    row: (Strength, &str, &str),
    count: usize,
    len: u64,
) {
    let (strength, letters, text) = row;
    let pattern = compile(rt, alloc, table, letters, strength, KEPT);
    let whole = repeated(rt, alloc, text, count);
    let mut ranges = room(rt, alloc, count);
    let query = for_all(table, &pattern);
    feed_and_finish(rt, alloc, &query, whole.as_bytes(), Ok(()), &mut ranges);
    count_is(rt, ranges.len(), count);
    ranges_follow(rt, &ranges, len, text.len() as u64);
}

/// Where places for the letters of ASCII, or of composed letters past it, are refused, the ranges of a million are those of ample memory.
#[test]
fn refused_cache_changes_no_range_of_a_million_letters(rt: HostRuntime) {
    let table = read(&rt, rt.alloc(), TABLE);
    ranges_repeat(&rt, rt.alloc(), &table, (THREE, "ab", "ab"), 500_000, 2);
    ranges_repeat(&rt, rt.alloc(), &table, (ONE, "e", "\u{e9}"), 1_000_000, 2);
}

/// So many different ideographs.
fn ideographs(rt: &impl Abort, alloc: Global, count: u32) -> String {
    let mut text = String::new(alloc);
    for number in 0..count {
        let c = char::from_u32(0x4E00u32.wrapping_add(number)).expect(rt, "an ideograph");
        text.push(c).expect(rt, "memory");
    }
    text
}

/// Compares the first range of a text, and from behind its first character on, twice by one search.
fn first_twice(rt: &impl Abort, alloc: Global, query: &Query<'_, Table>, text: &[u8], want: Range) {
    let mut search = begin_again(rt, alloc, query);
    for _ in 0..2 {
        first_is(rt, first_in(&mut search, text), Ok(Some(want)), "whole");
        first_is(rt, first_from(&mut search, text, 3), Ok(Some(want)), "rest");
    }
}

/// The same where places for many letters, for pairs of them, or for the moves of text that is passed by, are refused: of ranges, and of the
/// first one by a search that was made before.
#[test]
fn refused_cache_changes_no_answer(rt: HostRuntime) {
    let alloc = rt.alloc();
    let table = read(&rt, alloc, TABLE);
    ranges_repeat(&rt, alloc, &table, (THREE, "ch", "ch"), 5_000, 2);
    let many = ideographs(&rt, alloc, 5_000);
    let behind = joined(&rt, alloc, &["e", many.as_str()]);
    ranges_repeat(&rt, alloc, &table, (ONE, "e", &behind), 10, 1);
    let pattern = compile(&rt, alloc, &table, "e", ONE, KEPT);
    let query = for_all(&table, &pattern);
    let before = joined(&rt, alloc, &[many.as_str(), "e"]);
    first_twice(&rt, alloc, &query, before.as_bytes(), (15_000, 15_001));
}

/// Saves a search behind other words; a refused save leaves the words, and what is asked again is answered.
fn save_again(rt: &impl Abort, search: &Search<'_, Table>, words: &mut Vec<u64>, before: &[u64]) {
    if try_save(search, words).is_err() {
        words_are(rt, words.as_slice(), before);
        try_save(search, words).expect(rt, "the words");
    }
}

/// Compares the words that a search is saved with, which is asked for again.
fn saved_again_is(rt: &impl Abort, alloc: Global, search: &Search<'_, Table>, want: &[u64]) {
    let mut words = Vec::new(alloc);
    save_again(rt, search, &mut words, &[]);
    words_are(rt, &words, want);
}

/// A search of a state, asked for again where memory was refused, which is fault 53.
fn resume_again<'a>(
    rt: &impl Abort,
    alloc: Global,
    query: &Query<'a, Table>,
    words: &[u64],
) -> Search<'a, Table> {
    match try_resume(alloc, query, words) {
        Ok(search) => search,
        Err(fault) => {
            kind_is(rt, Some(fault.kind), Some(53));
            try_resume(alloc, query, words).expect(rt, "a resumed search")
        }
    }
}

/// Feeds the rest of a text to a search that was saved or resumed, and compares the words that it is then saved with, and all of its
/// ranges, of which these were handed out before.
fn go_on(
    rt: &impl Abort,
    alloc: Global,
    mut search: Search<'_, Table>,
    before: &[Range],
    rest: &[u8],
    words: &[u64],
    want: &[Range],
) {
    let mut ranges = room(rt, alloc, 8);
    put_all(rt, &mut ranges, before);
    answer_is(rt, feed(rt, &mut search, rest, &mut ranges), Ok(()));
    saved_again_is(rt, alloc, &search, words);
    let mut found = Found::new();
    answer_is(rt, finish(search, &mut found), Ok(()));
    put_all(rt, &mut ranges, found.as_slice());
    ranges_are(rt, &ranges, want, "went on");
}

/// A strength, a pattern, a text, where it is cut, how many records the state has there without those that a chain adds, and the
/// ranges.
type Cut<'a> = (Strength, &'a str, &'a [u8], usize, usize, &'a [Range]);

const CUTS: [Cut; 3] = [
    (
        THREE,
        "aa",
        b"aae\xcc\x81aa",
        5,
        5 + 2 + 1 + 1,
        &[(0, 2), (5, 7)],
    ),
    (ONE, "e", ACCENTED, 3, 5 + 1 + 1, &[(0, 2), (3, 5)]),
    (THREE, "\u{ac01}", JAMO, 6, 5 + 1 + 1, &[(0, 9)]),
];

/// Puts a word behind the others.
fn put_word(rt: &impl Abort, words: &mut Vec<u64>, word: u64) {
    words.push(word).expect(rt, "memory");
}

/// The same words.
fn copy_of(rt: &impl Abort, alloc: Global, words: &[u64]) -> Vec<u64> {
    words.to_owned(alloc).expect(rt, "memory")
}

/// Compares the words behind another word, which is kept, and how many records they have: a copy of them.
fn state_behind(
    rt: &impl Abort,
    alloc: Global,
    search: &Search<'_, Table>,
    records: usize,
) -> Vec<u64> {
    let mut words = Vec::new(alloc);
    put_word(rt, &mut words, 7);
    save_again(rt, search, &mut words, &[7]);
    let (first, state) = words.split_first().expect(rt, "words");
    same(rt, &(*first, state.len() / 4), &(7, records));
    copy_of(rt, alloc, state)
}

/// A refused save leaves the words, a refused resume answers 53, and what is asked again is answered as with ample memory. The words
/// that stood before a state are kept. The search that was saved goes on as the one that is resumed, and is saved again with the words
/// of one that is saved once.
fn ask_cut_again(rt: &impl Abort, alloc: Global, query: &Query<'_, Table>, row: &Cut<'_>) {
    let (_strength, _letters, text, cut, records, want) = *row;
    let (before, rest) = text.split_at(cut.min(text.len()));
    let mut search = begin_again(rt, alloc, query);
    let mut ranges = room(rt, alloc, 8);
    answer_is(rt, feed(rt, &mut search, before, &mut ranges), Ok(()));
    let more = if query.select == Select::Chain { 1 } else { 0 };
    let state = state_behind(rt, alloc, &search, records.wrapping_add(more));
    let resumed = resume_again(rt, alloc, query, &state);
    saved_again_is(rt, alloc, &resumed, &state);
    let once = state_after(rt, alloc, query, text);
    go_on(rt, alloc, search, &ranges, rest, &once, want);
    go_on(rt, alloc, resumed, &ranges, rest, &once, want);
}

/// Asks again for each of some rows.
fn ask_each_again(rt: &impl Abort, alloc: Global, select: Select) {
    let table = read(rt, alloc, TABLE);
    for row in &CUTS {
        let pattern = compile(rt, alloc, &table, row.1, row.0, KEPT);
        ask_cut_again(rt, alloc, &query_for(&table, &pattern, select), row);
    }
}

#[test]
fn refused_saves_and_resumes_are_asked_again(rt: HostRuntime) {
    ask_each_again(&rt, rt.alloc(), Select::All);
}

#[test]
fn refused_saves_and_resumes_of_a_chain_are_asked_again(rt: HostRuntime) {
    ask_each_again(&rt, rt.alloc(), Select::Chain);
}
