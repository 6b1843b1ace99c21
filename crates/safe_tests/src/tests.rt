//! Which offsets of worked texts are found, forth and back, by either table.

use collation_safe::{is_safe, next_safe, previous_safe};
use collation_table::{PlainTable, Strings, Table};
use std::alloc::Global;
use std::fmt::Debug;
use std::process::Abort;

const TABLE: &str = "@version 0.0.0
0020 ; [*0201.0020.0002]
0061 ; [.1C00.0020.0002]
0062 ; [.1C10.0020.0002]
0063 ; [.1C20.0020.0002]
0063 0068 ; [.1C28.0020.0002]
0065 ; [.1C40.0020.0002]
0068 ; [.1C50.0020.0002]
0301 ; [.0000.0024.0002]
00AD ; [.0000.0000.0000]
0E01 ; [.1D00.0020.0002]
0E32 ; [.1D20.0020.0002]
0E40 ; [.1D10.0020.0002]
0E40 0E01 ; [.1D08.0020.0002]
";

/// Letters of CLDR's table with which contractions begin, and what stands behind them there. The weights are made up.
const FIRST_LETTERS: &str = "@version 0.0.0
0020 ; [*0201.0020.0002]
00B7 ; [*0202.0020.0002]
0061 ; [.1C00.0020.0002]
0065 ; [.1C01.0020.0002]
006B ; [.1C02.0020.0002]
006C ; [.1C03.0020.0002]
006C 00B7 ; [.1C03.0020.0002][.0000.0110.0002]
0438 ; [.1C04.0020.0002]
0438 0306 ; [.1C05.0020.0002]
0627 ; [.1C06.0020.0002]
0627 0653 ; [.1C07.0020.0002]
064A ; [.1C08.0020.0002]
064A 0654 ; [.1C09.0020.0002]
0E01 ; [.1C0A.0020.0002]
0E44 ; [.1C0B.0020.0002]
0E44 0E01 ; [.1C0A.0020.0002][.1C0B.0020.0002]
0E81 ; [.1C0C.0020.0002]
0EC3 ; [.1C0D.0020.0002]
0EC3 0E81 ; [.1C0C.0020.0002][.1C0D.0020.0002]
0306 ; [.0000.0111.0002]
0653 ; [.0000.0112.0002]
0654 ; [.0000.0113.0002]
";

/// The same without contractions.
const LETTERS: &str = "@version 0.0.0
0061 ; [.1C00.0020.0002]
0063 ; [.1C20.0020.0002]
0068 ; [.1C50.0020.0002]
0301 ; [.0000.0024.0002]
";

/// A text, and its safe offsets.
type Row<'a> = (&'a [u8], &'a [usize]);

const ROWS: [Row; 10] = [
    (b"", &[]),
    (b"abe", &[0, 1, 2]),
    // `c` begins a contraction, and `h` may end one
    (b"achb", &[0, 1, 3]),
    (b"a b", &[0, 1, 2]),
    // a mark, and a soft hyphen
    (b"a\xcc\x81b\xc2\xade", &[0, 3, 6]),
    // a letter with its mark, a syllable, jamo, an ideograph
    (b"\xc3\xa9\xea\xb0\x81", &[0, 2]),
    (b"\xe1\x84\x80\xe1\x85\xa1\xe4\xb8\x80", &[0, 3, 6]),
    // vowels of Thai before and behind their consonant
    (b"\xe0\xb9\x80\xe0\xb8\x81\xe0\xb8\xb2", &[0, 6]),
    // bytes that are no UTF-8: a byte that continues nothing, an overlong sequence, a surrogate, a sequence that is cut
    (b"\x80a\xc0\x80b\xed\xa0\x80e\xe4\xb8", &[1, 4, 8]),
    (b"\xff\xfe", &[]),
];

/// Texts of letters with which contractions begin: by their characters, with the places of those that are safe.
const FIRST_LETTER_ROWS: [(&str, &[usize]); 6] = [
    ("lake", &[0, 1, 2, 3]),
    // the dot may belong to the letter
    ("al\u{b7}la", &[0, 1, 4, 5]),
    ("\u{438}\u{438}\u{439}\u{438}", &[0, 2, 4, 6]),
    // Arabic: alef, a blank, alef with madda, yeh, yeh with a hamza above it
    ("\u{627} \u{622}\u{64a}\u{626}", &[0, 2, 3, 5, 7]),
    // Thai and Lao: a vowel, its consonant, a blank, a consonant that no vowel stands before
    ("\u{e44}\u{e01} \u{e01}", &[0, 6]),
    ("\u{ec3}\u{e81} \u{e81}", &[0, 6]),
];

/// The table of these lines, read again where memory was refused.
fn read(rt: &impl Abort, alloc: Global, lines: &str) -> Table {
    match Table::read(alloc, lines.as_bytes()) {
        Ok(table) => table,
        Err(_refused) => Table::read(alloc, lines.as_bytes()).expect(rt, "the table"),
    }
}

/// The same table, whose rows stand in an ordered map.
fn read_plain(rt: &impl Abort, alloc: Global, lines: &str) -> PlainTable {
    match PlainTable::read(alloc, lines.as_bytes()) {
        Ok(table) => table,
        Err(_refused) => PlainTable::read(alloc, lines.as_bytes()).expect(rt, "the plain table"),
    }
}

/// The first of these offsets at `from` or behind it.
fn first_from(offsets: &[usize], from: usize) -> Option<usize> {
    for offset in offsets {
        if *offset >= from {
            return Some(*offset);
        }
    }
    None
}

/// The last of them before `before`.
fn last_before(offsets: &[usize], before: usize) -> Option<usize> {
    let mut last = None;
    for offset in offsets {
        if *offset < before {
            last = Some(*offset);
        }
    }
    last
}

/// Two values are the same. A proof goes through what a comparison prints once, for any type.
pub(crate) fn same_at<T: PartialEq + Debug>(rt: &impl Abort, got: &T, want: &T, at: usize) {
    assert_eq!(rt; *got, *want, "at {at}");
}

/// Asks from each offset of a text, and from behind its end, in both directions.
fn compare<W: Strings>(rt: &impl Abort, table: &W, text: &[u8], offsets: &[usize]) {
    for at in 0..text.len().saturating_add(3) {
        same_at(
            rt,
            &next_safe(table, text, at),
            &first_from(offsets, at),
            at,
        );
        same_at(
            rt,
            &previous_safe(table, text, at),
            &last_before(offsets, at),
            at,
        );
    }
    same_at(rt, &next_safe(table, text, usize::MAX), &None, usize::MAX);
    same_at(
        rt,
        &previous_safe(table, text, usize::MAX),
        &offsets.last().copied(),
        usize::MAX,
    );
}

/// Asks in turn whether these characters are safe.
fn compare_characters<W: Strings>(rt: &impl Abort, table: &W, letters: &str, want: bool) {
    for (at, c) in letters.chars().enumerate() {
        same_at(rt, &is_safe(table, c), &want, at);
    }
}

#[test]
fn offsets_of_texts(rt: HostRuntime) {
    let table = read(&rt, rt.alloc(), TABLE);
    for row in &ROWS {
        let (text, offsets) = *row;
        compare(&rt, &table, text, offsets);
    }
}

#[test]
fn offsets_by_a_plain_table(rt: HostRuntime) {
    let table = read_plain(&rt, rt.alloc(), TABLE);
    for row in &ROWS {
        let (text, offsets) = *row;
        compare(&rt, &table, text, offsets);
    }
}

#[test]
fn no_contractions(rt: HostRuntime) {
    let alloc = rt.alloc();
    let text = b"ach\xcc\x81\xe4\xb8\x80";
    compare(&rt, &read(&rt, alloc, LETTERS), text, &[0, 1, 2, 5]);
    compare(&rt, &read_plain(&rt, alloc, LETTERS), text, &[0, 1, 2, 5]);
}

#[test]
fn characters(rt: HostRuntime) {
    let table = read(&rt, rt.alloc(), TABLE);
    compare_characters(
        &rt,
        &table,
        "abce \u{e9}\u{ac01}\u{4e00}\u{e32}\u{e40}",
        true,
    );
    compare_characters(&rt, &table, "h\u{301}\u{ad}\u{e01}", false);
}

#[test]
fn letters_with_which_contractions_begin(rt: HostRuntime) {
    let alloc = rt.alloc();
    let table = read(&rt, alloc, FIRST_LETTERS);
    let plain = read_plain(&rt, alloc, FIRST_LETTERS);
    for row in &FIRST_LETTER_ROWS {
        let (text, offsets) = *row;
        compare(&rt, &table, text.as_bytes(), offsets);
        compare(&rt, &plain, text.as_bytes(), offsets);
    }
}
