//! A second table file, which tailors the first: what the program prints and answers with it.

use super::{
    Row as ProgramRow, TABLE, compare_row, compare_unasked, file_with, joined, remove_file,
    repeated, write_file,
};
use std::env;
use std::process::Abort;

/// What a tailor holds, a strength, a pattern, a text, the status, and what goes to the two outputs.
type Row<'a> = (&'a str, &'a str, &'a str, &'a [u8], u8, &'a str, &'a str);

/// Compares what the program answers of a row, with a table file and a tailor file at these paths.
fn compare_tailored(rt: &impl Abort, host: &HostRuntime, table: &str, tailor: &str, row: &Row) {
    let (contents, strength, letters, text, status, printed, reported) = *row;
    write_file(rt, host, tailor, contents.as_bytes());
    let options = ["--tailor", tailor, "--strength", strength, "--"];
    let row: ProgramRow = (&options, letters, text, status, printed, reported);
    compare_row(rt, host, table, 1, &row);
}

/// Compares what the program answers of each row.
fn compare(rt: &impl Abort, host: &HostRuntime, name: &str, rows: &[Row]) {
    let table = file_with(rt, host, name, TABLE);
    let tailor = joined(rt, host.alloc(), &[table.as_str(), ".tailor"]);
    for row in rows {
        compare_tailored(rt, host, table.as_str(), tailor.as_str(), row);
    }
    remove_file(rt, host, table.as_str());
    remove_file(rt, host, tailor.as_str());
}

const DOUBLED: &str = "0061 0061 ; [.1C05.0020.0002]";

const REPLACED: &str = "0062 ; [.1C00.0020.0008]\n";

const LONGER: &str = "0065 0327 0301 ; [.1C48.0020.0002]\n";

const WITH_PREFIX: &str = "0065 0327 0301 ; [.1C48.0020.0002]\r\n0065 0327 ; [.1C46.0020.0002]\r\n";

/// Accents out of canonical order, of a discontiguous contraction of three code points.
const ACCENTED: &[u8] = b"ae\xcc\x81\xcc\xa7";

const TAILORED: [Row; 9] = [
    ("# none", "3", "aa", b"aaa", 0, "0:2\n1:3\n", ""),
    ("", "3", "aa", b"aaa", 0, "0:2\n1:3\n", ""),
    (DOUBLED, "3", "aa", b"aaa", 0, "0:2\n", ""),
    (DOUBLED, "3", "a", b"aaa", 0, "2:3\n", ""),
    (REPLACED, "2", "a", b"ab", 0, "0:1\n1:2\n", ""),
    (REPLACED, "3", "a", b"ab", 0, "0:1\n", ""),
    (
        WITH_PREFIX,
        "3",
        "e\u{327}\u{301}",
        ACCENTED,
        0,
        "1:6\n",
        "",
    ),
    (WITH_PREFIX, "1", "e", b"e\xcc\xa7\xcc\x81", 1, "", ""),
    (TABLE, "3", "aa", b"aaa", 0, "0:2\n1:3\n", ""),
];

#[test]
fn a_tailor_adds_and_replaces_rows(rt: HostRuntime) {
    compare(&rt, &rt, "tailored", &TAILORED);
}

const SHORT: &str = "61 ; [.1C00.0020.0002]";

const TWICE: &str = "0062 ; [.1C10.0020.0002]\n0062 ; [.1C10.0020.0002]\n";

const LEAD: &str = "4E00 ; [.FB40.0020.0002]";

const BETWEEN: &str = "007A ; [.0201.0020.0002]";

const LIGHT: &str = "0301 ; [.0000.0020.0002]";

const FAULTS: [Row; 6] = [
    (BETWEEN, "3", "a", b"a", 2, "", "colfind: fault 8 at 0\n"),
    (LIGHT, "3", "a", b"a", 2, "", "colfind: fault 6 at 0\n"),
    (LONGER, "3", "a", b"a", 2, "", "colfind: fault 9 at 0\n"),
    (SHORT, "3", "a", b"a", 2, "", "colfind: fault 61 at 1\n"),
    (TWICE, "3", "a", b"a", 2, "", "colfind: fault 63 at 2\n"),
    (LEAD, "3", "a", b"a", 2, "", "colfind: fault 70 at 1\n"),
];

#[test]
fn reports_the_fault_of_a_tailor(rt: HostRuntime) {
    let alloc = rt.alloc();
    let code_points = repeated(&rt, alloc, "0062 ", 65);
    let string = joined(&rt, alloc, &[&code_points, "; [.1C18.0020.0002]"]);
    let elements = repeated(&rt, alloc, "[.1E00.0020.0002]", 129);
    let row = joined(&rt, alloc, &["0078 ; ", &elements]);
    let long = "colfind: fault 64 at 1\n";
    let too_long: [Row; 2] = [
        (&string, "3", "a", b"a", 2, "", long),
        (&row, "3", "a", b"a", 2, "", long),
    ];
    compare(&rt, &rt, "long-tailor", &too_long);
    compare(&rt, &rt, "bad-tailor", &FAULTS);
}

/// A table file, a tailor file, a pattern, and what is reported.
type UnaskedRow<'a> = (&'a str, &'a str, &'a str, &'a str);

/// Compares what the program reports of a row, and that it asks its input for nothing.
fn compare_files(rt: &impl Abort, host: &HostRuntime, row: &UnaskedRow) {
    let (table, tailor, letters, reported) = *row;
    let words = ["--table", table, "--tailor", tailor, "--", letters];
    compare_unasked(rt, host, &words, (2, "", reported));
}

/// The tailor file comes after the table file, before what either holds, and before the pattern.
#[test]
fn a_tailor_file_that_is_none_or_a_folder(rt: HostRuntime) {
    let good = file_with(&rt, &rt, "tailored-good", TABLE);
    let bad = file_with(&rt, &rt, "tailored-bad", "61\n");
    let folder = env::temp_dir(&rt).expect(&rt, "the folder");
    let unread = "colfind: fault 44 at 0\n";
    for tailor in ["no such tailor", folder.as_path().as_str()] {
        let rows: [UnaskedRow; 4] = [
            (&good, tailor, "a", unread),
            (&good, tailor, "", unread),
            (&bad, tailor, "a", unread),
            ("no such table", tailor, "a", "colfind: fault 43 at 0\n"),
        ];
        for row in &rows {
            compare_files(&rt, &rt, row);
        }
    }
    compare_files(&rt, &rt, &(&bad, &bad, "", "colfind: fault 1 at 1\n"));
    compare_files(&rt, &rt, &(&good, &bad, "", "colfind: fault 61 at 1\n"));
    remove_file(&rt, &rt, &good);
    remove_file(&rt, &rt, &bad);
}
