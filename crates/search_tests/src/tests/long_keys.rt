//! Strings of many code points that a table maps: of 17, and of 64, the most that one may have.

use super::answers::{answered_is, fed};
use super::calls::{
    Query, begin, compile, feed_well, for_all, joined, query_for, read, repeated, saved, step_well,
};
use super::checks::{count_is, ranges_are};
use super::{KEPT, ONE, Range, TABLE, THREE};
use collation_elements::Strength;
use collation_search::{Found, Search, Select};
use collation_table::{Table, Weights};
use std::alloc::Global;
use std::process::Abort;

/// A table that also maps so many letters `b` in a row.
fn table_with(rt: &impl Abort, alloc: Global, letters: usize) -> Table {
    let string = repeated(rt, alloc, "0062 ", letters);
    let lines = joined(
        rt,
        alloc,
        &[TABLE, string.as_str(), "; [.1C18.0020.0002]\n"],
    );
    read(rt, alloc, &lines)
}

/// Compares the ranges of so many letters `b` in a text of such letters.
fn compare(
    rt: &impl Abort,
    alloc: Global,
    table: &Table,
    strength: Strength,
    row: &(usize, usize, &[Range]),
) {
    let (letters, of_text, want) = *row;
    let letters = repeated(rt, alloc, "b", letters);
    let text = repeated(rt, alloc, "b", of_text);
    let pattern = compile(rt, alloc, table, &letters, strength, KEPT);
    let answer = fed(rt, alloc, &for_all(table, &pattern), text.as_bytes(), 3);
    answered_is(rt, &answer, want, None, &letters);
}

/// The ranges of the first 16 letters, each by itself.
const EACH: [Range; 16] = [
    (0, 1),
    (1, 2),
    (2, 3),
    (3, 4),
    (4, 5),
    (5, 6),
    (6, 7),
    (7, 8),
    (8, 9),
    (9, 10),
    (10, 11),
    (11, 12),
    (12, 13),
    (13, 14),
    (14, 15),
    (15, 16),
];

/// How many letters a pattern has, how many a text, and the ranges.
const CASES: [(usize, usize, &[Range]); 4] = [
    (17, 17, &[(0, 17)]),
    (1, 17, &[]),
    (1, 18, &[(17, 18)]),
    (1, 16, &EACH),
];

#[test]
fn string_of_seventeen(rt: HostRuntime) {
    let table = table_with(&rt, rt.alloc(), 17);
    for row in &CASES {
        compare(&rt, rt.alloc(), &table, ONE, row);
        compare(&rt, rt.alloc(), &table, THREE, row);
    }
}

/// Feeds pieces with which nothing is handed out.
fn feed_each<W: Weights>(
    rt: &impl Abort,
    alloc: Global,
    search: &mut Search<'_, W>,
    pieces: &[&str],
) {
    let mut ranges = Vec::new(alloc);
    for piece in pieces {
        feed_well(rt, search, piece.as_bytes(), &mut ranges);
    }
    ranges_are(rt, &ranges, &[], "waits");
}

/// Compares when the match of `aa` is handed out, and how many records the greatest state has.
fn compare_waiting<W: Weights>(
    rt: &impl Abort,
    alloc: Global,
    query: &Query<'_, W>,
    pieces: &[&str],
    records: usize,
) {
    let mut search = begin(rt, alloc, query);
    feed_each(rt, alloc, &mut search, pieces);
    let words = saved(rt, alloc, &search).len();
    count_is(rt, words % 4, 0);
    count_is(rt, words / 4, records);
    let mut found = Found::new();
    step_well(rt, &mut search, b'a', &mut found);
    ranges_are(rt, found.as_slice(), &[(0, 2)], "handed out");
}

/// A match waits while the string of 64 letters and 30 accents after it are undecided, 94 code points; that is also the greatest
/// state, which has a record more where a chain is handed out. One code point more, and the match is handed out.
#[test]
fn string_of_sixty_four(rt: HostRuntime) {
    let alloc = rt.alloc();
    let table = table_with(&rt, alloc, 64);
    let pattern = compile(&rt, alloc, &table, "aa", THREE, KEPT);
    let letters = repeated(&rt, alloc, "b", 64);
    let accents = repeated(&rt, alloc, "\u{301}", 30);
    let pieces = ["aa", letters.as_str(), accents.as_str()];
    let all = query_for(&table, &pattern, Select::All);
    compare_waiting(&rt, alloc, &all, &pieces, 101);
    let chain = query_for(&table, &pattern, Select::Chain);
    compare_waiting(&rt, alloc, &chain, &pieces, 102);
}
