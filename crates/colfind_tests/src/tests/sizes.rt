//! Tables, texts and lists of matches of some size.

use super::{MAX, TABLE, joined, outcome_of, outcome_with, repeated, run_is, same};
use crate::tests::devices::FailingSource;
use colfind_io::Output::{Count, Ranges};
use colfind_io::{MemorySource, MemoryTarget};
use colfind_run::run::Outcome::{self, Done, Read};
use collation_search::TextFault;
use std::alloc::Global;
use std::process::Abort;

/// The first code point of a table with many rows, for private use, of three bytes in UTF-8.
const FIRST: u32 = 0xE000;

/// How many rows it has.
const ROWS: u32 = 5_000;

/// Writes the row of a code point.
fn put_row(rt: &impl Abort, rows: &mut String, point: u32, weight: u32) {
    writeln!(rows, "{point:04X} ; [.{weight:04X}.0020.0002]").expect(rt, "memory");
}

/// A table of a row for each of `ROWS` code points, with rising primary weights.
fn many_rows(rt: &impl Abort, alloc: Global) -> String {
    let mut rows = String::new(alloc);
    for number in 0..ROWS {
        put_row(rt, &mut rows, FIRST + number, 0x1000 + number);
    }
    rows
}

/// Writes a letter.
fn put_letter(rt: &impl Abort, text: &mut String, letter: char) {
    text.push(letter).expect(rt, "memory");
}

/// So many code points of that table, from the one with this number on.
fn letters(rt: &impl Abort, alloc: Global, first: u32, count: u32) -> String {
    let mut text = String::new(alloc);
    for number in 0..count {
        let point = FIRST.saturating_add(first).saturating_add(number);
        put_letter(rt, &mut text, char::from_u32(point).expect(rt, "a letter"));
    }
    text
}

/// Writes the line of a range.
fn put_line(rt: &impl Abort, lines: &mut String, start: u64, end: u64) {
    writeln!(lines, "{start}:{end}").expect(rt, "memory");
}

/// The lines for `ab` in a text of `ab` alone, for the first `count` matches.
fn lines(rt: &impl Abort, alloc: Global, count: u32) -> String {
    let mut lines = String::new(alloc);
    for number in 0..count {
        let start = 2 * u64::from(number);
        put_line(rt, &mut lines, start, start + 2);
    }
    lines
}

/// Compares the line of two letters of a table with many rows.
fn compare_two(rt: &impl Abort, alloc: Global, rows: &str, text: &str, number: u32, line: &str) {
    let two = letters(rt, alloc, number, 2);
    let mut reader = MemorySource::new(text.as_bytes(), 1_000);
    let mut out = MemoryTarget::new(alloc);
    let outcome = outcome_with(rt, alloc, rows, &two, Ranges, &mut reader, &mut out);
    run_is(rt, outcome, out.bytes(), Done(1), line.as_bytes());
}

#[test]
fn a_table_of_many_rows(rt: HostRuntime) {
    let rows = many_rows(&rt, rt.alloc());
    let text = letters(&rt, rt.alloc(), 0, ROWS);
    for (number, line) in [
        (0, "0:6\n"),
        (1, "3:9\n"),
        (2_499, "7497:7503\n"),
        (4_998, "14994:15000\n"),
    ] {
        compare_two(&rt, rt.alloc(), &rows, &text, number, line);
    }
}

#[test]
fn a_text_of_some_megabytes(rt: HostRuntime) {
    let alloc = rt.alloc();
    let text = repeated(&rt, alloc, "ab", 1_000_000);
    let mut reader = MemorySource::new(text.as_bytes(), usize::MAX);
    let mut out = MemoryTarget::new(alloc);
    let outcome = outcome_of(&rt, alloc, "ab", Count, &mut reader, &mut out);
    run_is(&rt, outcome, out.bytes(), Done(1_000_000), b"1000000\n");
}

/// Compares the lines of `ab` in a text that comes 11 bytes a read and whose reads fail after so many.
fn compare_many(
    rt: &impl Abort,
    alloc: Global,
    text: &[u8],
    reads: u64,
    outcome: Outcome,
    count: u32,
) {
    let mut reader = FailingSource::new(text, 11, reads);
    let mut out = MemoryTarget::new(alloc);
    let reported = outcome_of(rt, alloc, "ab", Ranges, &mut reader, &mut out);
    let printed = lines(rt, alloc, count);
    run_is(rt, reported, out.bytes(), outcome, printed.as_bytes());
}

/// The last match ends where the fault stands.
#[test]
fn many_matches_before_a_bad_byte(rt: HostRuntime) {
    let mut text = Vec::new(rt.alloc());
    let letters = repeated(&rt, rt.alloc(), "ab", 700);
    for piece in [letters.as_bytes(), b"\xffab".as_slice()] {
        text.extend_from_slice(piece).expect(&rt, "memory");
    }
    let fault = TextFault {
        kind: 31,
        offset: 1_400,
    };
    compare_many(&rt, rt.alloc(), &text, MAX, Outcome::Text(fault), 699);
}

#[test]
fn many_matches_before_a_long_run(rt: HostRuntime) {
    let letters = repeated(&rt, rt.alloc(), "ab", 700);
    let accents = repeated(&rt, rt.alloc(), "\u{301}", 31);
    let text = joined(&rt, rt.alloc(), &[&letters, "e", &accents, "ab"]);
    let fault = TextFault {
        kind: 32,
        offset: 1_461,
    };
    let outcome = Outcome::Text(fault);
    compare_many(&rt, rt.alloc(), text.as_bytes(), MAX, outcome, 700);
}

/// The match that ends at the last byte read is not settled.
#[test]
fn many_matches_before_a_read_that_fails(rt: HostRuntime) {
    let text = repeated(&rt, rt.alloc(), "ab", 700);
    compare_many(&rt, rt.alloc(), text.as_bytes(), 100, Read(1_100), 549);
}

/// Compares the number of matches in a text, with a table of one more row.
fn compare_with_row(
    rt: &impl Abort,
    alloc: Global,
    row: &str,
    letters: &str,
    text: &str,
    matches: u64,
) {
    let rows = joined(rt, alloc, &[TABLE, row]);
    let mut reader = MemorySource::new(text.as_bytes(), 1_000);
    let mut out = MemoryTarget::new(alloc);
    let outcome = outcome_with(rt, alloc, &rows, letters, Count, &mut reader, &mut out);
    same(rt, &outcome, &Done(matches));
}

/// Alone no letter of the text is a unit.
#[test]
fn the_longest_string_in_its_repetition(rt: HostRuntime) {
    let string = repeated(&rt, rt.alloc(), "0062 ", 64);
    let row = joined(&rt, rt.alloc(), &[&string, "; [.1C18.0020.0002]\n"]);
    let letters = repeated(&rt, rt.alloc(), "b", 64);
    let text = repeated(&rt, rt.alloc(), &letters, 1_000);
    compare_with_row(&rt, rt.alloc(), &row, &letters, &text, 1_000);
    compare_with_row(&rt, rt.alloc(), &row, "b", &text, 0);
}

#[test]
fn the_largest_row_at_each_letter(rt: HostRuntime) {
    let elements = repeated(&rt, rt.alloc(), "[.1E00.0020.0002]", 128);
    let row = joined(&rt, rt.alloc(), &["0078 ; ", &elements, "\n"]);
    let text = repeated(&rt, rt.alloc(), "x", 10_000);
    for (letters, matches) in [("x", 10_000), ("xx", 9_999), ("xb", 0)] {
        compare_with_row(&rt, rt.alloc(), &row, letters, &text, matches);
    }
}
