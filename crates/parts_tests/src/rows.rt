//! Worked rows: a part of a text, which need not begin or end at a boundary, its ranges and its fault; and parts of a long text.

use crate::asking::{
    Range, Ranges, begin, compile, ranges_are, read, repeated, same_at, search_one,
};
use collation_elements::{Strength, Variable};
use collation_search::{Search, Select, TextFault};
use collation_table::Table;
use std::process::Abort;

/// A pattern, a text, where the part begins and ends, its ranges, and its fault.
type Row<'a> = (
    &'a str,
    &'a [u8],
    usize,
    usize,
    &'a [Range],
    Option<TextFault>,
);

const AT_TWO: Option<TextFault> = Some(TextFault {
    kind: 31,
    offset: 2,
});

const AT_ONE: Option<TextFault> = Some(TextFault {
    kind: 31,
    offset: 1,
});

const BAD: &[u8] = b"aa\xffaa";

const ROWS: [Row; 19] = [
    ("aa", b"aaaa", 0, 2, &[(0, 2), (1, 3)], None),
    ("aa", b"aaaa", 2, 4, &[(2, 4)], None),
    ("aa", b"aaaa", 0, 4, &[(0, 2), (1, 3), (2, 4)], None),
    ("aa", b"aaaa", 3, 4, &[], None),
    // behind the end, and backwards
    ("aa", b"aaaa", 1, 9, &[(1, 3), (2, 4)], None),
    ("aa", b"aaaa", 4, 9, &[], None),
    ("aa", b"aaaa", 7, 9, &[], None),
    ("aa", b"aaaa", 2, 1, &[], None),
    ("aa", b"aaaa", usize::MAX, usize::MAX, &[], None),
    (
        "aa",
        b"aaaa",
        0,
        usize::MAX,
        &[(0, 2), (1, 3), (2, 4)],
        None,
    ),
    ("aa", b"", 0, 0, &[], None),
    // a bad byte behind the part, where it ends, and within it
    ("a", BAD, 0, 1, &[(0, 1)], None),
    ("a", BAD, 0, 2, &[(0, 1)], AT_TWO),
    ("a", BAD, 0, 5, &[(0, 1)], AT_TWO),
    ("a", BAD, 2, 2, &[], AT_TWO),
    ("a", BAD, 3, 5, &[(3, 4), (4, 5)], None),
    // a part that ends amid a letter with its mark, and one that begins within a character
    ("a", b"ea\xcc\x81\xcc\x81a", 0, 3, &[], None),
    ("a", b"\xc3\xa9a", 1, 3, &[], AT_ONE),
    // a range that a contraction behind the part takes away
    ("c", b"ac\xc2\xadh", 0, 2, &[(1, 4)], None),
];

/// Compares a row, twice by the same search.
fn compare(rt: &impl Abort, search: &mut Search<'_, Table>, row: &Row<'_>) {
    let (_letters, text, from, to, ranges, fault) = *row;
    for _turn in 0..2 {
        let mut got = Ranges::new();
        let ended = search_one(search, text, from, to, &mut got);
        ranges_are(rt, got.as_slice(), ranges, &(from, to));
        same_at(rt, &ended.err(), &fault, &(from, to));
    }
}

#[test]
fn worked_parts(rt: HostRuntime) {
    let alloc = rt.alloc();
    let table = read(&rt, alloc);
    for row in &ROWS {
        let (letters, ..) = *row;
        let pattern = compile(
            &rt,
            alloc,
            &table,
            letters,
            Strength::Three,
            Variable::NonIgnorable,
        );
        let mut search = begin(&rt, alloc, &table, &pattern, Select::All);
        compare(&rt, &mut search, row);
    }
}

/// How often the long text has its three letters, how many parts are searched, and how far these are from each other: to read all behind each
/// would take minutes.
const LONG: usize = 1_400_000;

const PARTS: usize = 4_000;

const APART: usize = 1_000;

/// Searches parts of three bytes of a text that has a range at each third byte.
fn count_of_parts(rt: &impl Abort, search: &mut Search<'_, Table>, text: &[u8]) {
    for at in 0..PARTS {
        let from = at.saturating_mul(APART);
        let mut got = Ranges::new();
        let ended = search_one(search, text, from, from.saturating_add(3), &mut got);
        same_at(rt, &ended.is_ok(), &true, &from);
        same_at(rt, &got.len(), &1, &from);
    }
}

#[test]
fn parts_of_a_long_text(rt: HostRuntime) {
    let alloc = rt.alloc();
    let table = read(&rt, alloc);
    let pattern = compile(
        &rt,
        alloc,
        &table,
        "b a",
        Strength::Three,
        Variable::NonIgnorable,
    );
    let mut search = begin(&rt, alloc, &table, &pattern, Select::All);
    let text = repeated(&rt, alloc, "ab ", LONG);
    count_of_parts(&rt, &mut search, text.as_bytes());
}
