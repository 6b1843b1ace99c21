//! The words of the whole command: its forms of output and its text file.

use super::{Row, TABLE, compare_rows, compare_unasked, file_with, remove_file, write_file};
use std::env;
use std::process::Abort;

const CUT: &str = "colfind: fault 31 at 2\n";

const MARKS: &[&str] = &["--output=marks", "--strength=2"];

const FORMS: [Row; 8] = [
    (&["--output", "count"], "aa", b"aaa", 0, "2\n", ""),
    (&["--output", "count"], "b", b"ab\xc3", 2, "0\n", CUT),
    (&["--output", "count"], "a", b"", 1, "0\n", ""),
    (MARKS, "a", b"aA", 0, "[0\n]1\n[1\n]2\n", ""),
    (&["--output", "marks"], "b", b"a", 1, "", ""),
    (
        &["--output", "marks"],
        "aa",
        b"aaa",
        0,
        "[0\n]2\n[1\n]3\n",
        "",
    ),
    (&["--output", "ranges"], "aa", b"aaa", 0, "0:2\n1:3\n", ""),
    (&[], "aa", b"aaa", 0, "0:2\n1:3\n", ""),
];

#[test]
fn each_form_of_output(rt: HostRuntime) {
    compare_rows(&rt, &rt, "forms", &FORMS);
}

#[test]
fn a_text_file_is_read_in_place_of_the_input(rt: HostRuntime) {
    let table = file_with(&rt, &rt, "of-file", TABLE);
    let text = file_with(&rt, &rt, "text", "ab aA");
    let words = ["--table", &table, "a", &text];
    compare_unasked(&rt, &rt, &words, (0, "0:1\n3:4\n", ""));
    let words = ["--table", &table, "--output=count", "--", "a", &text];
    compare_unasked(&rt, &rt, &words, (0, "2\n", ""));
    let words = ["--table", &table, "c", &text, "--output", "count"];
    compare_unasked(&rt, &rt, &words, (1, "0\n", ""));
    write_file(&rt, &rt, &text, b"ab \xff");
    let words = ["--table", &table, "a", &text];
    let fault = (2, "0:1\n", "colfind: fault 31 at 3\n");
    compare_unasked(&rt, &rt, &words, fault);
    remove_file(&rt, &rt, &table);
    remove_file(&rt, &rt, &text);
}

/// A form of output, a pattern, a path, and what goes to the two outputs.
type FaultRow<'a> = (&'a str, &'a str, &'a str, &'a str, &'a str);

/// Compares what the program answers of a row at status 2, with the paths of a table file and, in the row, of a text file.
fn compare_fault(rt: &impl Abort, host: &HostRuntime, table: &str, row: &FaultRow) {
    let (form, letters, text, printed, reported) = *row;
    let words = ["--table", table, "--output", form, letters, text];
    compare_unasked(rt, host, &words, (2, printed, reported));
}

/// What is written where there is no text file, or where its first byte cannot be read.
const UNREAD: &str = "colfind: fault 41 at 0\n";

/// The table and the pattern come before the text file.
const NO_TEXT: [FaultRow; 4] = [
    ("ranges", "a", "no such text", "", UNREAD),
    ("count", "a", "no such text", "", UNREAD),
    ("marks", "a", "no such text", "", UNREAD),
    ("count", "", "no such text", "", "colfind: fault 22 at 0\n"),
];

const NO_TABLE: FaultRow = ("count", "a", "no such text", "", "colfind: fault 43 at 0\n");

/// A folder can be opened as a text file, but not be read.
#[test]
fn a_text_file_that_is_none_or_a_folder(rt: HostRuntime) {
    let table = file_with(&rt, &rt, "of-none", TABLE);
    let folder = env::temp_dir(&rt).expect(&rt, "the folder");
    let folder = folder.as_path().as_str();
    for row in &NO_TEXT {
        compare_fault(&rt, &rt, &table, row);
    }
    compare_fault(&rt, &rt, "no such table", &NO_TABLE);
    compare_fault(&rt, &rt, folder, &NO_TABLE);
    compare_fault(&rt, &rt, &table, &("ranges", "a", folder, "", UNREAD));
    compare_fault(&rt, &rt, &table, &("count", "a", folder, "0\n", UNREAD));
    remove_file(&rt, &rt, &table);
}

/// Words that are no command, for which nothing is read.
const OTHER: [&[&str]; 5] = [
    &["--table", "t", "--output", "lines", "a"],
    &["--table", "t", "a", "one", "two"],
    &["--table", "t", "--output", "count"],
    &["--help"],
    &["--version"],
];

#[test]
fn other_words_are_no_command(rt: HostRuntime) {
    for words in OTHER {
        compare_unasked(&rt, &rt, words, (2, "", "colfind: usage\n"));
    }
}
