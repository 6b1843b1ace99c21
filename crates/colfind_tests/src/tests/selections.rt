//! All matches, or a chain of them that do not overlap: what a run prints and reports of each, and what the program does by its
//! words.

use super::{
    FOUR, MAX, Row, TABLE, compare_rows, compare_run, compare_unasked, file_with, plain_table_of,
    remove_file, table_of,
};
use colfind_io::Output::{self, Count, Marks, Ranges};
use colfind_run::run::Outcome::{self, Done, Read};
use collation_search::{Select, TextFault};
use collation_table::Weights;
use std::alloc::Global;
use std::process::Abort;

const AT_FIVE: Outcome = Outcome::Text(TextFault {
    kind: 31,
    offset: 5,
});

const BAD: &[u8] = b"aaaaa\xff";

const TWO: &str = "0:2\n2:4\n";

/// A pattern, a text, a form of output, what is printed of the chain of its matches, and what is reported.
const CHAINS: [(&str, &[u8], Output, &str, Outcome); 10] = [
    ("aa", b"aaa", Ranges, "0:2\n", Done(1)),
    ("aa", b"aaa", Count, "1\n", Done(1)),
    ("aa", b"aaaa", Ranges, TWO, Done(2)),
    ("a", b"aaa", Ranges, "0:1\n1:2\n2:3\n", Done(3)),
    ("aa", BAD, Ranges, TWO, AT_FIVE),
    ("aa", BAD, Count, "2\n", AT_FIVE),
    ("aa", BAD, Marks, "[0\n]2\n[2\n]4\n", AT_FIVE),
    ("aa", b"aaa", Marks, "[0\n]2\n", Done(1)),
    ("aa", b"a", Count, "0\n", Done(0)),
    ("aa", b"", Ranges, "", Done(0)),
];

/// Compares what a run for a chain reports and prints of each row, over devices that move so many bytes at a time.
fn compare<W: Weights>(rt: &impl Abort, alloc: Global, table: &W, most: usize) {
    for row in &CHAINS {
        let (letters, text, form, printed, outcome) = *row;
        let row = (
            letters,
            text,
            form,
            (most, MAX, most, MAX),
            printed,
            outcome,
        );
        compare_run(rt, alloc, table, Select::Chain, &row);
    }
}

#[test]
fn a_chain_of_matches(rt: HostRuntime) {
    let table = table_of(&rt, rt.alloc(), TABLE);
    let plain = plain_table_of(&rt, rt.alloc(), TABLE);
    for most in [1, 3, usize::MAX] {
        compare(&rt, rt.alloc(), &table, most);
    }
    compare(&rt, rt.alloc(), &plain, 1);
}

const SIX: &[u8] = b"aaaaaa";

/// Of five letters that were read the matches that end before the last one are settled: three, of which the second overlaps
/// the others.
#[test]
fn a_chain_of_what_is_settled(rt: HostRuntime) {
    let table = table_of(&rt, rt.alloc(), TABLE);
    for (select, printed) in [(Select::All, "0:2\n1:3\n2:4\n"), (Select::Chain, TWO)] {
        let row = ("aa", SIX, Ranges, (1, 5, 5, MAX), printed, Read(5));
        compare_run(&rt, rt.alloc(), &table, select, &row);
    }
}

#[test]
fn each_write_of_a_chain_fails_in_turn(rt: HostRuntime) {
    let table = table_of(&rt, rt.alloc(), TABLE);
    for writes in 0..8usize {
        let printed = TWO.get(..writes).expect(&rt, "some lines");
        let devices = (4, MAX, 1, writes as u64);
        let row = ("aa", FOUR, Ranges, devices, printed, Outcome::Write);
        compare_run(&rt, rt.alloc(), &table, Select::Chain, &row);
    }
}

const CHAIN: &[&str] = &["--select", "chain"];

const COUNT: &[&str] = &["--output", "count", "--select=chain"];

const MARKS: &[&str] = &["--select=chain", "--output", "marks"];

const SELECTED: [Row; 12] = [
    (CHAIN, "aa", b"aaa", 0, "0:2\n", ""),
    (COUNT, "aa", b"aaa", 0, "1\n", ""),
    (CHAIN, "aa", b"aaaa", 0, TWO, ""),
    (CHAIN, "a", b"aaa", 0, "0:1\n1:2\n2:3\n", ""),
    (CHAIN, "aa", BAD, 2, TWO, "colfind: fault 31 at 5\n"),
    (MARKS, "aa", b"aaaa", 0, "[0\n]2\n[2\n]4\n", ""),
    (CHAIN, "aa", b"a", 1, "", ""),
    (COUNT, "aa", b"a", 1, "0\n", ""),
    (&["--select", "all"], "aa", b"aaa", 0, "0:2\n1:3\n", ""),
    (&["--select=all"], "aa", b"aaa", 0, "0:2\n1:3\n", ""),
    (&[], "aa", b"aaa", 0, "0:2\n1:3\n", ""),
    (&["--output", "count"], "aa", b"aaa", 0, "2\n", ""),
];

#[test]
fn the_words_select_all_or_a_chain(rt: HostRuntime) {
    compare_rows(&rt, &rt, "selections", &SELECTED);
}

/// A text file is searched for a chain too.
#[test]
fn a_chain_of_the_matches_in_a_text_file(rt: HostRuntime) {
    let table = file_with(&rt, &rt, "selection-of-file", TABLE);
    let text = file_with(&rt, &rt, "selection-text", "aaaa");
    let words = ["--table", &table, "--select", "chain", "aa", &text];
    compare_unasked(&rt, &rt, &words, (0, TWO, ""));
    remove_file(&rt, &rt, table.as_str());
    remove_file(&rt, &rt, text.as_str());
}

const USAGE: &str = "colfind: usage\n";

const TWICE: &[&str] = &["--select", "chain", "--select", "chain"];

const BOTH: &[&str] = &["--select=all", "--select=chain"];

const UNSELECTED: [Row; 7] = [
    (&["--select", "chains"], "aa", b"aaa", 2, "", USAGE),
    (&["--select", "Chain"], "aa", b"aaa", 2, "", USAGE),
    (&["--select", ""], "aa", b"aaa", 2, "", USAGE),
    (&["--select="], "aa", b"aaa", 2, "", USAGE),
    (&["--select"], "aa", b"aaa", 2, "", USAGE),
    (TWICE, "aa", b"aaa", 2, "", USAGE),
    (BOTH, "aa", b"aaa", 2, "", USAGE),
];

#[test]
fn other_words_select_nothing(rt: HostRuntime) {
    compare_rows(&rt, &rt, "no-selection", &UNSELECTED);
}
