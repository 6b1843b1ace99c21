//! Memory that is refused: with any one allocation refused, the program answers as with ample memory or reports the refusal.
//! To be run with each allocation refused in turn. A refusal that meets the test itself stops it.

use super::{Row, TABLE, file_with, joined, remove_file, same_at, status_of, words_of, write_file};
use crate::tests::devices::FailingTarget;
use colfind_io::MemorySource;
use std::process::Abort;

/// The lines that report that memory was refused: for the table, for the pattern, and for the words or the search.
const REFUSALS: [&str; 3] = [
    "colfind: fault 14 at 0\n",
    "colfind: fault 24 at 0\n",
    "colfind: fault 36 at 0\n",
];

/// Asks the program, with a table in the file at `path` and over outputs that need no memory, and compares.
fn ask(rt: &impl Abort, host: &HostRuntime, path: &str, row: &Row) {
    let words = words_of(rt, host.alloc(), path, row);
    let mut input = MemorySource::new(row.2, 4);
    let mut out = FailingTarget::with_room(host.alloc(), 64, 7).expect(rt, "memory");
    let mut err = FailingTarget::with_room(host.alloc(), 64, 7).expect(rt, "memory");
    let status = status_of(host, &words, &mut input, &mut out, &mut err);
    compare(rt, (status, out.bytes(), err.bytes()), row);
}

/// The answer is that of ample memory, or of a refusal.
fn compare(rt: &impl Abort, answer: (u8, &[u8], &[u8]), row: &Row) {
    let (status, printed, reported) = answer;
    let is_ample = status == row.3 && printed == row.4.as_bytes() && reported == row.5.as_bytes();
    let is_refusal = status == 2
        && printed.is_empty()
        && REFUSALS.iter().any(|line| reported == line.as_bytes());
    same_at(rt, &(is_ample || is_refusal), &true, &row.1);
}

/// Asks for each row.
fn ask_each(rt: &impl Abort, host: &HostRuntime, name: &str, rows: &[Row]) {
    let path = file_with(rt, host, name, TABLE);
    for row in rows {
        ask(rt, host, path.as_str(), row);
    }
    remove_file(rt, host, path.as_str());
}

const ONE: &[&str] = &["--strength", "1", "--"];

const TWO: &[&str] = &["--strength", "2", "--"];

const THREE: &[&str] = &["--strength", "3", "--"];

const JAMO: &[u8] = b"\xe1\x84\x80\xe1\x85\xa1\xe1\x86\xa8";

const OPEN: &[u8] = b"u\xcc\xa7\xcc\x81";

const ROWS: [Row; 8] = [
    (ONE, "resume", b"r\xc3\xa9sum\xc3\xa9", 0, "0:8\n", ""),
    (THREE, "aa", b"aaa", 0, "0:2\n1:3\n", ""),
    (ONE, "\u{fa}", OPEN, 0, "0:5\n", ""),
    (TWO, "\u{fa}", OPEN, 1, "", ""),
    (ONE, "e", b"\xc3\xa9a\xc3\xa9", 0, "0:2\n3:5\n", ""),
    (THREE, "\u{ac01}", JAMO, 0, "0:9\n", ""),
    (THREE, "\u{1100}", b"\xea\xb0\x81", 1, "", ""),
    (&[], "a", b"ab \xff", 2, "0:1\n", "colfind: fault 31 at 3\n"),
];

#[test]
fn refused_allocations_are_reported(rt: HostRuntime) {
    ask_each(&rt, &rt, "refusals", &ROWS);
}

const TAILOR: &str =
    "0062 ; [.1C00.0020.0008]\n0061 0061 ; [.1C05.0020.0002]\n@implicitweights 17000..17005; FB00";

/// What a tailor holds, a pattern, a text, the status, and what goes to the two outputs.
type Tailored<'a> = (&'a str, &'a str, &'a [u8], u8, &'a str, &'a str);

const TAILORED: [Tailored; 3] = [
    ("", "aa", b"aaa", 0, "0:2\n1:3\n", ""),
    (TAILOR, "a", b"ab", 0, "0:1\n1:2\n", ""),
    ("0061 ; x", "a", b"a", 2, "", "colfind: fault 61 at 1\n"),
];

/// Asks for a row, with a table file and a tailor file at these paths.
fn ask_tailored(rt: &impl Abort, host: &HostRuntime, table: &str, tailor: &str, row: &Tailored) {
    let (contents, letters, text, status, printed, reported) = *row;
    write_file(rt, host, tailor, contents.as_bytes());
    let options = ["--tailor", tailor, "--strength", "2", "--"];
    let row: Row = (&options, letters, text, status, printed, reported);
    ask(rt, host, table, &row);
}

#[test]
fn refused_allocations_of_a_tailor_are_reported(rt: HostRuntime) {
    let table = file_with(&rt, &rt, "tailor-refusals", TABLE);
    let tailor = joined(&rt, rt.alloc(), &[&table, ".tailor"]);
    for row in &TAILORED {
        ask_tailored(&rt, &rt, &table, &tailor, row);
    }
    remove_file(&rt, &rt, &table);
    remove_file(&rt, &rt, &tailor);
}

const CHAIN: &[&str] = &["--select", "chain", "--strength", "3", "--"];

const COUNT: &[&str] = &["--output", "count", "--strength", "3", "--"];

const BOTH: &[&str] = &["--select=chain", "--output", "count", "--"];

const FAULT: &str = "colfind: fault 31 at 5\n";

const SELECTED: [Row; 7] = [
    (CHAIN, "aa", b"aaa", 0, "0:2\n", ""),
    (CHAIN, "aa", b"aaaa", 0, "0:2\n2:4\n", ""),
    (CHAIN, "aa", b"aaaaa\xff", 2, "0:2\n2:4\n", FAULT),
    (CHAIN, "aa", b"a", 1, "", ""),
    (COUNT, "aa", b"aaa", 0, "2\n", ""),
    (COUNT, "a", b"", 1, "0\n", ""),
    (BOTH, "aa", b"aaa", 0, "1\n", ""),
];

/// Of a chain, and of the number of matches, nothing is printed where memory was refused.
#[test]
fn refused_allocations_of_a_selection_are_reported(rt: HostRuntime) {
    ask_each(&rt, &rt, "selection-refusals", &SELECTED);
}
