//! Worked rows: what a search answers of small texts, by either table, however their bytes come.

use super::answers::{answered_is, fed, resumed, stepped};
use super::calls::{
    Query, begin, begin_again, compile, feed, finish_text, first_in, first_range, first_range_from,
    joined, put_all, query_for, read, read_plain, repeated, resume_from, saved,
};
use super::checks::{fault_is, first_is, kind_is, ranges_are};
use super::{KEPT, ONE, Range, SHIFTED, TABLE, THREE, TWO};
use collation_elements::{Strength, Variable};
use collation_pattern::Pattern;
use collation_search::{Found, Search, Select, TextFault};
use collation_table::{Table, Weights};
use std::alloc::Global;
use std::process::Abort;
use std::test::Fail;

/// Which matches are selected, a strength, a weighting, a pattern, a text, its ranges, and the kind and the offset of its fault.
type Row<'a> = (
    Select,
    Strength,
    Variable,
    &'a str,
    &'a [u8],
    &'a [Range],
    Option<(u8, u64)>,
);

const ALL: Select = Select::All;

const CHAIN: Select = Select::Chain;

const COMPOSED: &[u8] = b"r\xc3\xa9sum\xc3\xa9";

const DECOMPOSED: &[u8] = b"re\xcc\x81sume\xcc\x81";

/// Three jamo, which are the decomposition of a syllable.
const JAMO: &[u8] = b"\xe1\x84\x80\xe1\x85\xa1\xe1\x86\xa8";

/// A letter before each of two marks, in and out of the order of their classes.
const BLOCKED: &[u8] = b"u\xcc\x80\xcc\x81";

const OPEN: &[u8] = b"u\xcc\xa7\xcc\x81";

/// Rows of accents.
const ACCENTS: [Row; 10] = [
    (ALL, ONE, KEPT, "resume", COMPOSED, &[(0, 8)], None),
    (ALL, TWO, KEPT, "resume", COMPOSED, &[], None),
    (
        ALL,
        THREE,
        KEPT,
        "r\u{e9}sum\u{e9}",
        DECOMPOSED,
        &[(0, 10)],
        None,
    ),
    (ALL, TWO, KEPT, "\u{301}", b"\xcc\x81", &[(0, 2)], None),
    (ALL, TWO, KEPT, "\u{301}", b"e\xcc\x81", &[], None),
    (ALL, ONE, KEPT, "a", b"\xcc\x81a", &[(2, 3)], None),
    (ALL, ONE, KEPT, "a", b"a\xe2\x83\x9db", &[(0, 4)], None),
    (ALL, TWO, KEPT, "a", b"a\xe2\x83\x9db", &[], None),
    (ALL, TWO, SHIFTED, "a", b"a-\xe2\x83\x9d", &[(0, 1)], None),
    (ALL, TWO, SHIFTED, "a\u{20dd}", b"a-\xe2\x83\x9d", &[], None),
];

/// Rows of letters.
const LETTERS: [Row; 15] = [
    (ALL, THREE, KEPT, "a", b"", &[], None),
    (ALL, ONE, KEPT, "aab", b"aabaab", &[(0, 3), (3, 6)], None),
    (ALL, THREE, KEPT, "aa", b"aaa", &[(0, 2), (1, 3)], None),
    (ALL, THREE, KEPT, "aab", b"aabaab", &[(0, 3), (3, 6)], None),
    (ALL, THREE, SHIFTED, "ab", b"a - b", &[(0, 5)], None),
    (ALL, THREE, KEPT, "ab", b"a - b", &[], None),
    (ALL, THREE, SHIFTED, "a", b" a ", &[(1, 2)], None),
    (ALL, THREE, SHIFTED, "aa", b"aaa--", &[(0, 2), (1, 3)], None),
    (ALL, THREE, KEPT, "a", b"a\xc2\xad", &[(0, 3)], None),
    (ALL, THREE, KEPT, "a", b"aA", &[(0, 1)], None),
    (ALL, TWO, KEPT, "a", b"aA", &[(0, 1), (1, 2)], None),
    (ALL, THREE, KEPT, "a", b"abb", &[(0, 1)], None),
    (ALL, THREE, KEPT, "b", b"ab", &[(1, 2)], None),
    (ALL, THREE, KEPT, "c", b"ab", &[], None),
    (ALL, THREE, KEPT, "c", b"", &[], None),
];

/// Rows of contractions.
const CONTRACTIONS: [Row; 7] = [
    (ALL, THREE, KEPT, "c", b"ch", &[], None),
    (ALL, THREE, KEPT, "h", b"ch", &[], None),
    (ALL, ONE, KEPT, "ch", b"c\xc2\xadh", &[], None),
    (ALL, ONE, KEPT, "\u{fa}", OPEN, &[(0, 5)], None),
    (ALL, TWO, KEPT, "\u{fa}", OPEN, &[], None),
    (ALL, ONE, KEPT, "\u{fa}", BLOCKED, &[], None),
    (ALL, ONE, KEPT, "u", BLOCKED, &[(0, 5)], None),
];

/// Rows of syllables and ideographs.
const SYLLABLES: [Row; 5] = [
    (ALL, THREE, KEPT, "\u{ac01}", JAMO, &[(0, 9)], None),
    (ALL, THREE, KEPT, "\u{1100}", b"\xea\xb0\x81", &[], None),
    (
        ALL,
        THREE,
        KEPT,
        "\u{4e00}",
        b"\xe4\xb8\x80",
        &[(0, 3)],
        None,
    ),
    (ALL, TWO, KEPT, "\u{4e00}", b"\xe2\xbc\x80", &[(0, 3)], None),
    (ALL, THREE, KEPT, "\u{4e00}", b"\xe2\xbc\x80", &[], None),
];

/// Rows of faults of bytes.
const FAULTS: [Row; 4] = [
    (ALL, THREE, KEPT, "a", b"ab \xff", &[(0, 1)], Some((31, 3))),
    (ALL, THREE, KEPT, "b", b"ab\xc3", &[], Some((31, 2))),
    (ALL, THREE, KEPT, "a", b"a\xe2\x82", &[], Some((31, 1))),
    (
        ALL,
        THREE,
        KEPT,
        "a",
        b"ab\xe2\x28",
        &[(0, 1)],
        Some((31, 2)),
    ),
];

/// Rows of chains.
const CHAINS: [Row; 7] = [
    (CHAIN, THREE, KEPT, "aa", b"aaa", &[(0, 2)], None),
    (CHAIN, THREE, KEPT, "aa", b"aaaa", &[(0, 2), (2, 4)], None),
    (
        CHAIN,
        THREE,
        KEPT,
        "a",
        b"aaa",
        &[(0, 1), (1, 2), (2, 3)],
        None,
    ),
    (
        CHAIN,
        THREE,
        KEPT,
        "aa",
        b"aaaaa\xff",
        &[(0, 2), (2, 4)],
        Some((31, 5)),
    ),
    (
        CHAIN,
        THREE,
        KEPT,
        "aba",
        b"ababababa",
        &[(0, 3), (4, 7)],
        None,
    ),
    (CHAIN, THREE, KEPT, "aa", b"aabaaa", &[(0, 2), (3, 5)], None),
    (CHAIN, THREE, KEPT, "aa", b"", &[], None),
];

/// Compares what a search answers of a row, whose text comes whole, in pieces of one to three bytes, and byte by byte, and with the
/// search resumed after every byte. Of all matches the first one is found in the text as a whole too, or else the fault.
fn compare<W: Weights>(rt: &impl Abort, alloc: Global, table: &W, row: &Row<'_>) {
    let (select, strength, variable, letters, text, ranges, fault) = *row;
    let pattern = compile(rt, alloc, table, letters, strength, variable);
    let query = query_for(table, &pattern, select);
    let want = fault.map(|(kind, offset)| TextFault { kind, offset });
    for size in [1, 2, 3, usize::MAX] {
        let pieces = fed(rt, alloc, &query, text, size);
        answered_is(rt, &pieces, ranges, want, letters);
    }
    let bytes = stepped(rt, alloc, &query, text);
    answered_is(rt, &bytes, ranges, want, letters);
    let (again, _most_words) = resumed(rt, alloc, &query, text, 1);
    answered_is(rt, &again, ranges, want, letters);
    match select {
        Select::All => {
            let first = first_of(ranges, want);
            first_is(rt, first_range(alloc, &query, text), first, letters);
        }
        Select::Chain => ask_from_each_end(rt, alloc, &query, row),
    }
}

/// Compares what is found from the end of each range on, which is the next range of the chain, or
/// else the fault; and behind the end.
fn ask_from_each_end<W: Weights>(
    rt: &impl Abort,
    alloc: Global,
    query: &Query<'_, W>,
    row: &Row<'_>,
) {
    let (_select, _strength, _variable, letters, text, ranges, fault) = *row;
    let mut from = 0;
    for range in ranges {
        let next = first_range_from(alloc, query, text, from);
        first_is(rt, next, Ok(Some(*range)), letters);
        from = range.1 as usize;
    }
    let end = first_of(&[], fault.map(|(kind, offset)| TextFault { kind, offset }));
    first_is(rt, first_range_from(alloc, query, text, from), end, letters);
    let nothing = first_range_from(alloc, query, text, usize::MAX);
    first_is(rt, nothing, Ok(None), letters);
}

/// The first of these ranges, or else this fault.
fn first_of(ranges: &[Range], fault: Option<TextFault>) -> Result<Option<Range>, TextFault> {
    match (ranges.first(), fault) {
        (Some(range), _) => Ok(Some(*range)),
        (None, Some(fault)) => Err(fault),
        (None, None) => Ok(None),
    }
}

/// Compares what one search answers of a row, asked for the first range, then for all ranges, then amid the text from its words, each
/// twice, so that it begins again after a range, at the end, after a fault and amid a text.
fn compare_again<W: Weights>(rt: &impl Abort, alloc: Global, table: &W, row: &Row<'_>) {
    let (select, strength, variable, letters, text, ranges, fault) = *row;
    let pattern = compile(rt, alloc, table, letters, strength, variable);
    let mut search = begin(rt, alloc, &query_for(table, &pattern, select));
    let first = first_of(
        ranges,
        fault.map(|(kind, offset)| TextFault { kind, offset }),
    );
    for _ in 0..2 {
        first_is(rt, first_in(&mut search, text), first, letters);
        ask_again(rt, alloc, &mut search, row);
        ask_amid(rt, alloc, &mut search, row);
    }
}

/// Compares all ranges of a row by a search that is at the beginning of a text, and is then at the beginning of one again.
fn ask_again<W: Weights>(
    rt: &impl Abort,
    alloc: Global,
    search: &mut Search<'_, W>,
    row: &Row<'_>,
) {
    let mut got = Vec::new(alloc);
    let _fault = feed(rt, search, row.4, &mut got);
    end_again(rt, search, &mut got, row);
}

/// The same, where the search gives the text up in its middle and goes on there from its words. Words that are no state leave it as it is.
fn ask_amid<W: Weights>(rt: &impl Abort, alloc: Global, search: &mut Search<'_, W>, row: &Row<'_>) {
    let (before, behind) = row.4.split_at(row.4.len() / 2);
    let mut got = Vec::new(alloc);
    let _fault = feed(rt, search, before, &mut got);
    let words = saved(rt, alloc, search);
    begin_again(search);
    kind_is(rt, resume_from(search, &[1]), Some(51));
    kind_is(rt, resume_from(search, &words), None);
    let _fault = feed(rt, search, behind, &mut got);
    end_again(rt, search, &mut got, row);
}

/// Ends the text of a row, of which these ranges were handed out: the ranges and the fault are those of the row.
fn end_again<W: Weights>(
    rt: &impl Abort,
    search: &mut Search<'_, W>,
    got: &mut Vec<Range>,
    row: &Row<'_>,
) {
    let (_select, _strength, _variable, letters, _text, ranges, fault) = *row;
    let mut found = Found::new();
    let ended = finish_text(search, &mut found);
    put_all(rt, got, found.as_slice());
    let want = fault.map(|(kind, offset)| TextFault { kind, offset });
    ranges_are(rt, got, ranges, letters);
    fault_is(rt, ended.err(), want, letters);
}

/// Compares each of some rows.
fn compare_each<W: Weights>(rt: &impl Abort, alloc: Global, table: &W, rows: &[Row<'_>]) {
    for row in rows {
        compare(rt, alloc, table, row);
        compare_again(rt, alloc, table, row);
    }
}

/// Compares each of some rows, by either table.
fn compare_all(rt: &impl Abort, alloc: Global, rows: &[Row<'_>]) {
    compare_each(rt, alloc, &read(rt, alloc, TABLE), rows);
    compare_each(rt, alloc, &read_plain(rt, alloc, TABLE), rows);
}

/// Compares the rows of letters and accents. Each list stands in a function with few others, for a proof goes through its rows.
fn compare_letters(rt: &impl Abort, alloc: Global) {
    compare_all(rt, alloc, &LETTERS);
}

fn compare_accents(rt: &impl Abort, alloc: Global) {
    compare_all(rt, alloc, &ACCENTS);
}

fn compare_contractions(rt: &impl Abort, alloc: Global) {
    compare_all(rt, alloc, &CONTRACTIONS);
}

fn compare_syllables(rt: &impl Abort, alloc: Global) {
    compare_all(rt, alloc, &SYLLABLES);
}

fn compare_faults(rt: &impl Abort, alloc: Global) {
    compare_all(rt, alloc, &FAULTS);
}

fn compare_chains(rt: &impl Abort, alloc: Global) {
    compare_all(rt, alloc, &CHAINS);
}

#[test]
fn worked_rows(rt: HostRuntime) {
    compare_accents(&rt, rt.alloc());
    compare_letters(&rt, rt.alloc());
    compare_contractions(&rt, rt.alloc());
    compare_syllables(&rt, rt.alloc());
    compare_faults(&rt, rt.alloc());
    compare_chains(&rt, rt.alloc());
}

/// Letters and so many marks after them, a strength, a pattern, the ranges, and the kind and the offset of the fault.
type Marked<'a> = (
    &'a str,
    &'a str,
    usize,
    Strength,
    &'a str,
    &'a [Range],
    Option<(u8, u64)>,
);

const MARKED: [Marked; 5] = [
    ("e", "\u{301}", 30, ONE, "e", &[(0, 61)], None),
    ("e", "\u{301}", 31, ONE, "e", &[], Some((32, 61))),
    ("a", "\u{f73}", 15, THREE, "a", &[], None),
    ("a", "\u{f73}", 16, THREE, "a", &[], Some((32, 46))),
    (
        "aaae",
        "\u{301}",
        31,
        THREE,
        "aa",
        &[(0, 2), (1, 3)],
        Some((32, 64)),
    ),
];

/// Compares a row of letters and marks after them.
fn compare_marked(rt: &impl Abort, alloc: Global, row: &Marked<'_>) {
    let (letters, mark, marks, strength, pattern, ranges, fault) = *row;
    let marks = repeated(rt, alloc, mark, marks);
    let text = joined(rt, alloc, &[letters, marks.as_str()]);
    let row = (ALL, strength, KEPT, pattern, text.as_bytes(), ranges, fault);
    compare_all(rt, alloc, &[row]);
}

#[test]
fn runs_of_non_starters(rt: HostRuntime) {
    for row in &MARKED {
        compare_marked(&rt, rt.alloc(), row);
    }
}

/// Compares the kind of the fault of a pattern.
fn compare_refused(
    rt: &impl Abort,
    alloc: Global,
    table: &Table,
    strength: Strength,
    variable: Variable,
    letters: &str,
    kind: u8,
) {
    let compiled = Pattern::compile(alloc, table, letters, strength, variable);
    kind_is(rt, compiled.err().map(|fault| fault.kind), Some(kind));
}

#[test]
fn patterns_that_are_refused(rt: HostRuntime) {
    let alloc = rt.alloc();
    let table = read(&rt, alloc, TABLE);
    let marks = repeated(&rt, alloc, "\u{301}", 31);
    let letters = repeated(&rt, alloc, "a", 65_537);
    compare_refused(&rt, alloc, &table, THREE, SHIFTED, " ", 22);
    compare_refused(&rt, alloc, &table, THREE, KEPT, "", 22);
    compare_refused(&rt, alloc, &table, ONE, KEPT, "\u{301}", 22);
    compare_refused(&rt, alloc, &table, THREE, KEPT, &marks, 23);
    compare_refused(&rt, alloc, &table, THREE, KEPT, &letters, 21);
}

#[test]
fn prints_a_fault(rt: HostRuntime) -> Result<(), Fail> {
    let fault = TextFault {
        kind: TextFault::ILL_FORMED,
        offset: 3,
    };
    let want = "fault 31 at byte 3 of the text";
    assert_eq!(rt; fault.to_string(rt.alloc())?.as_str(), want);
    Ok(())
}
