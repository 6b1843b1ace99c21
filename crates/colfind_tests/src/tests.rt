//! What no clause says of a run, of the words and of the program: what small texts give, over devices that give and take a few
//! bytes at a time and fail too; files; memory that is refused; and sizes.
//!
//! A call whose contract is long stands in a function that promises nothing, so that a proof meets the contract once. What has to
//! succeed stops the test itself: with each `?` a proof goes through everything that is dropped there.
ghost use Rattle.std.specs.Prelude.{◌<◌, ◌^◌};

use crate::tests::devices::{FailingSource, FailingTarget};
use colfind_io::Output::{self, Count, Marks, Ranges};
use colfind_io::{
    FileFault, Lines, MemorySource, MemoryTarget, Source, Target, read_all, write_all,
};
use colfind_run::process::ended;
use colfind_run::program::program;
use colfind_run::run::Outcome::{self, Done, Read};
use colfind_run::run::{run, run_with};
use collation_elements::{Strength, Variable};
use collation_pattern::Pattern;
use collation_search::{Select, TextFault};
use collation_table::{PlainTable, Table, Weights};
use std::alloc::Global;
use std::fmt::Debug;
use std::process::{Abort, ExitCode, Termination};
use std::{env, fs, process};

mod asked;
mod devices;
mod folders;
mod pieces;
mod refusals;
mod rows;
mod selections;
mod sizes;
mod streams;
mod tailors;
mod words;

const TABLE: &str = "@version 0.0.0
0020 ; [*0201.0020.0002]
002D ; [*0202.0020.0002]
0061 ; [.1C00.0020.0002]
0041 ; [.1C00.0020.0008]
0062 ; [.1C10.0020.0002]
0063 ; [.1C20.0020.0002]
0063 0068 ; [.1C28.0020.0002]
0065 ; [.1C40.0020.0002]
0068 ; [.1C50.0020.0002]
006D ; [.1C60.0020.0002]
0072 ; [.1C70.0020.0002]
0073 ; [.1C80.0020.0002]
0075 ; [.1C90.0020.0002]
0075 0301 ; [.1C98.0020.0002]
0300 ; [.0000.0025.0002]
0301 ; [.0000.0024.0002]
0327 ; [.0000.0030.0002]
20DD ; [.0000.0040.0002]
00AD ; [.0000.0000.0000]
2F00 ; [.FB40.0020.0004][.CE00.0000.0000]
";

const MAX: u64 = u64::MAX;

/// Two values are the same. A proof goes through what a comparison prints once, for any type, and not at each use.
fn same<T: PartialEq + Debug>(rt: &impl Abort, got: &T, want: &T) {
    assert_eq!(rt; *got, *want);
}

/// The same of a row, which is told.
fn same_at<T: PartialEq + Debug, A: Debug>(rt: &impl Abort, got: &T, want: &T, row: &A) {
    assert_eq!(rt; *got, *want, "{row:?}");
}

/// The bytes are these.
fn bytes_are(rt: &impl Abort, got: &[u8], want: &[u8]) {
    same(rt, &got, &want);
}

/// What a run reports and prints is this.
fn run_is(rt: &impl Abort, got: Outcome, printed: &[u8], want: Outcome, wanted: &[u8]) {
    same(rt, &(got, printed), &(want, wanted));
}

/// The table of these lines.
fn table_of(rt: &impl Abort, alloc: Global, lines: &str) -> Table {
    Table::read(alloc, lines.as_bytes()).expect(rt, "the table")
}

/// The same table, whose rows stand in an ordered map.
fn plain_table_of(rt: &impl Abort, alloc: Global, lines: &str) -> PlainTable {
    PlainTable::read(alloc, lines.as_bytes()).expect(rt, "the table")
}

/// The pattern of these letters, at strength three.
fn compiled<W: Weights>(rt: &impl Abort, alloc: Global, table: &W, letters: &str) -> Pattern {
    let (strength, variable) = (Strength::Three, Variable::NonIgnorable);
    Pattern::compile(alloc, table, letters, strength, variable).expect(rt, "the pattern")
}

/// What a run reports, over any two devices whose counts of failures are small.
fn reported_of<W: Weights, R: Source, O: Target>(
    alloc: Global,
    table: &W,
    pattern: &Pattern,
    form: Output,
    select: Select,
    reader: &mut R,
    out: &mut O,
) -> Outcome
    requires reads { R.failures reader.old < 2 ^ 63 }
    requires writes { O.failures out.old < 2 ^ 63 }
{
    match select {
        Select::All => run(alloc, table, pattern, form, reader, out),
        Select::Chain => run_with(alloc, table, pattern, form, select, reader, out),
    }
}

/// What a run for all matches reports, with the table of these lines.
fn outcome_with<R: Source, O: Target>(
    rt: &impl Abort,
    alloc: Global,
    lines: &str,
    letters: &str,
    form: Output,
    reader: &mut R,
    out: &mut O,
) -> Outcome
    requires reads { R.failures reader.old < 2 ^ 63 }
    requires writes { O.failures out.old < 2 ^ 63 }
{
    let table = table_of(rt, alloc, lines);
    let pattern = compiled(rt, alloc, &table, letters);
    reported_of(alloc, &table, &pattern, form, Select::All, reader, out)
}

/// The same with the table `TABLE`.
fn outcome_of<R: Source, O: Target>(
    rt: &impl Abort,
    alloc: Global,
    letters: &str,
    form: Output,
    reader: &mut R,
    out: &mut O,
) -> Outcome
    requires reads { R.failures reader.old < 2 ^ 63 }
    requires writes { O.failures out.old < 2 ^ 63 }
{
    outcome_with(rt, alloc, TABLE, letters, form, reader, out)
}

/// A text so many times in a row.
fn repeated(rt: &impl Abort, alloc: Global, text: &str, count: usize) -> String {
    text.repeat(alloc, count).expect(rt, "memory")
}

/// These texts, one behind the other.
fn joined(rt: &impl Abort, alloc: Global, texts: &[&str]) -> String {
    let mut all = String::new(alloc);
    for text in texts {
        all.push_str(*text).expect(rt, "memory");
    }
    all
}

/// How many bytes a reader gives at a time and how often before it fails, and the same of a writer.
type Devices = (usize, u64, usize, u64);

/// A byte at a time, without a failure.
const BYTES: Devices = (1, MAX, 1, MAX);

/// A pattern, a text, a form of output, the devices, what is printed, and what is reported.
type RunRow<'a> = (&'a str, &'a [u8], Output, Devices, &'a str, Outcome);

/// Compares what a run reports and prints of a row.
fn compare_run<W: Weights>(
    rt: &impl Abort,
    alloc: Global,
    table: &W,
    select: Select,
    row: &RunRow,
) {
    let (letters, text, form, (gives, reads, takes, writes), printed, outcome) = *row;
    let pattern = compiled(rt, alloc, table, letters);
    let mut reader = FailingSource::new(text, gives.max(1), reads);
    let mut out = FailingTarget::new(alloc, takes.max(1), writes);
    let reported = reported_of(alloc, table, &pattern, form, select, &mut reader, &mut out);
    run_is(rt, reported, out.bytes(), outcome, printed.as_bytes());
}

/// Ill-formed sequences at these offsets.
const AT_TWO: Outcome = Outcome::Text(TextFault {
    kind: 31,
    offset: 2,
});

const AT_THREE: Outcome = Outcome::Text(TextFault {
    kind: 31,
    offset: 3,
});

const FOUR: &[u8] = b"aaaa";

const RUNS: [RunRow; 16] = [
    // A byte at a time, also to a fault.
    ("aa", b"aaa", Ranges, BYTES, "0:2\n1:3\n", Done(2)),
    ("aa", b"aaa", Count, BYTES, "2\n", Done(2)),
    ("aa", b"aaa", Marks, BYTES, "[0\n]2\n[1\n]3\n", Done(2)),
    ("a", b"", Ranges, BYTES, "", Done(0)),
    ("a", b"", Count, BYTES, "0\n", Done(0)),
    ("a", b"ab \xff", Ranges, BYTES, "0:1\n", AT_THREE),
    ("b", b"ab\xff", Count, BYTES, "0\n", AT_TWO),
    // A writer that takes three bytes and then fails, and a reader that gives two and then fails.
    ("aa", b"aaa", Ranges, (4, MAX, 3, 1), "0:2", Outcome::Write),
    ("a", b"ab", Ranges, (2, 1, 3, MAX), "0:1\n", Read(2)),
    // A read fails.
    ("aa", FOUR, Ranges, (1, 3, 5, MAX), "0:2\n", Read(3)),
    ("aa", FOUR, Count, (1, 3, 5, MAX), "1\n", Read(3)),
    ("aa", FOUR, Marks, (1, 3, 5, MAX), "[0\n]2\n", Read(3)),
    ("aa", FOUR, Count, (1, 0, 5, MAX), "0\n", Read(0)),
    ("aa", b"\xc3\xa9", Ranges, (1, 1, 5, MAX), "", Read(1)),
    // A failed write is reported in place of anything else.
    ("aa", FOUR, Ranges, (1, 3, 5, 0), "", Outcome::Write),
    ("a", b"ab \xff", Ranges, (1, MAX, 5, 0), "", Outcome::Write),
];

/// By either table.
#[test]
fn runs_over_devices(rt: HostRuntime) {
    let table = table_of(&rt, rt.alloc(), TABLE);
    let plain = plain_table_of(&rt, rt.alloc(), TABLE);
    for row in &RUNS {
        compare_run(&rt, rt.alloc(), &table, Select::All, row);
        compare_run(&rt, rt.alloc(), &plain, Select::All, row);
    }
}

#[test]
fn a_text_longer_than_one_read(rt: HostRuntime) {
    let alloc = rt.alloc();
    let text = repeated(&rt, alloc, "a", 100_000);
    let mut reader = MemorySource::new(text.as_bytes(), usize::MAX);
    let mut out = MemoryTarget::new(alloc);
    let outcome = outcome_of(&rt, alloc, "aa", Count, &mut reader, &mut out);
    run_is(&rt, outcome, out.bytes(), Done(99_999), b"99999\n");
}

/// Writes the marks of a range.
fn put_marks(rt: &impl Abort, printed: &mut String, start: u64, end: u64) {
    write!(printed, "[{start}\n]{end}\n").expect(rt, "memory");
}

/// The marks of 5,000 letters, each by itself.
fn marks_of_letters(rt: &impl Abort, alloc: Global) -> String {
    let mut printed = String::new(alloc);
    for start in 0..5_000u64 {
        put_marks(rt, &mut printed, start, start + 1);
    }
    printed
}

/// More lines than are gathered at once.
#[test]
fn many_lines(rt: HostRuntime) {
    let alloc = rt.alloc();
    let text = repeated(&rt, alloc, "a", 5_000);
    let mut reader = MemorySource::new(text.as_bytes(), usize::MAX);
    let mut out = MemoryTarget::new(alloc);
    let outcome = outcome_of(&rt, alloc, "a", Marks, &mut reader, &mut out);
    let printed = marks_of_letters(&rt, alloc);
    run_is(&rt, outcome, out.bytes(), Done(5_000), printed.as_bytes());
}

/// The first range is known with the fourth byte: the cluster after it then has its first unit.
#[test]
fn nothing_is_read_after_a_failed_write(rt: HostRuntime) {
    let alloc = rt.alloc();
    let mut reader = FailingSource::new(b"aaaaaaaa", 1, MAX);
    let mut out = FailingTarget::new(alloc, 5, 0);
    let outcome = outcome_of(&rt, alloc, "aa", Ranges, &mut reader, &mut out);
    run_is(&rt, outcome, out.bytes(), Outcome::Write, b"");
    same(&rt, &reader.asked(), &4);
}

/// Compares what is printed where a write fails after so many, by an error or by taking nothing.
fn compare_failed_write(rt: &impl Abort, alloc: Global, writes: u64, takes_nothing: bool) {
    let mut reader = MemorySource::new(b"aaa", 4);
    let mut out = FailingTarget::new(alloc, 1, writes).taking_nothing(takes_nothing);
    let outcome = outcome_of(rt, alloc, "aa", Ranges, &mut reader, &mut out);
    let lines = b"0:2\n1:3\n".get(..writes as usize).expect(rt, "lines");
    run_is(rt, outcome, out.bytes(), Outcome::Write, lines);
    same(rt, &out.failures(), &1);
}

#[test]
fn each_write_fails_in_turn(rt: HostRuntime) {
    for writes in 0..8u64 {
        compare_failed_write(&rt, rt.alloc(), writes, false);
        compare_failed_write(&rt, rt.alloc(), writes, true);
    }
}

/// Compares what is printed where a read fails after so many: so many bytes of these lines.
fn compare_failed_read(rt: &impl Abort, alloc: Global, reads: u64, len: usize) {
    let mut reader = FailingSource::new(b"aaaaaaaa", 1, reads);
    let mut out = FailingTarget::new(alloc, 5, MAX);
    let outcome = outcome_of(rt, alloc, "aa", Ranges, &mut reader, &mut out);
    let all = b"0:2\n1:3\n2:4\n3:5\n4:6\n";
    let lines = all.get(..len).expect(rt, "lines");
    run_is(rt, outcome, out.bytes(), Read(reads), lines);
}

/// Of the letters that were read the matches that end before the last one are settled.
#[test]
fn each_read_fails_in_turn(rt: HostRuntime) {
    let lines = [0usize, 0, 0, 4, 8, 12, 16, 20];
    for (reads, line) in lines.iter().enumerate() {
        compare_failed_read(&rt, rt.alloc(), reads as u64, *line);
    }
}

#[test]
fn a_flush_fails(rt: HostRuntime) {
    let alloc = rt.alloc();
    let mut reader = MemorySource::new(b"aaa", 4);
    let mut out = FailingTarget::new(alloc, 3, MAX).failing_to_flush();
    let outcome = outcome_of(&rt, alloc, "aa", Ranges, &mut reader, &mut out);
    run_is(&rt, outcome, out.bytes(), Outcome::Write, b"0:2\n1:3\n");
}

#[test]
fn nothing_is_read_after_a_fault_of_the_text(rt: HostRuntime) {
    let alloc = rt.alloc();
    let mut reader = FailingSource::new(b"ab \xffab", 1, 4);
    let mut out = FailingTarget::new(alloc, 5, MAX);
    let outcome = outcome_of(&rt, alloc, "a", Ranges, &mut reader, &mut out);
    run_is(&rt, outcome, out.bytes(), AT_THREE, b"0:1\n");
}

#[test]
fn reads_whole_lists(rt: HostRuntime) {
    let bytes = read_all(rt.alloc(), &mut MemorySource::new(b"abcdefg", 2)).ok();
    bytes_are(&rt, &bytes.expect(&rt, "the bytes"), b"abcdefg");
    let failed = read_all(rt.alloc(), &mut FailingSource::new(b"abcdefg", 2, 2));
    same(&rt, &failed.err(), &Some(FileFault::Device));
}

#[test]
fn writes_whole_lists(rt: HostRuntime) {
    let mut out = MemoryTarget::new(rt.alloc());
    same(&rt, &write_all(&mut out, b"ab").is_ok(), &true);
    let mut lines = Lines::new(Ranges);
    lines.put_all(&mut out, &[(0, MAX)]);
    same(&rt, &lines.finish(&mut out).is_ok(), &true);
    bytes_are(&rt, out.bytes(), b"ab0:18446744073709551615\n");
}

/// The status of the program.
fn status_of<R: Source>(
    host: &HostRuntime,
    words: &[&str],
    input: &mut R,
    out: &mut FailingTarget,
    err: &mut FailingTarget,
) -> u8
    requires reads { R.failures input.old < 2 ^ 63 }
    requires writes { ⟦<FailingTarget as Target>⟧.failures out.old < 2 ^ 63 }
    requires reports { ⟦<FailingTarget as Target>⟧.failures err.old < 2 ^ 63 }
{
    program(host, host.alloc(), words, input, out, err)
}

/// A status, and what goes to the two outputs.
type Answer<'a> = (u8, &'a str, &'a str);

/// The answer to these words is this.
fn answered_is(rt: &impl Abort, got: (u8, &[u8], &[u8]), want: (u8, &[u8], &[u8]), words: &[&str]) {
    same_at(rt, &got, &want, &words);
}

/// Compares what the program answers of these words over an input.
fn compare_answer<R: Source>(
    rt: &impl Abort,
    host: &HostRuntime,
    words: &[&str],
    input: &mut R,
    answer: Answer,
)
    requires { R.failures input.old < 2 ^ 63 }
{
    let mut out = FailingTarget::new(host.alloc(), 7, MAX);
    let mut err = FailingTarget::new(host.alloc(), 7, MAX);
    let status = status_of(host, words, input, &mut out, &mut err);
    let (wanted, printed, reported) = answer;
    answered_is(
        rt,
        (status, out.bytes(), err.bytes()),
        (wanted, printed.as_bytes(), reported.as_bytes()),
        words,
    );
}

/// The same, and that the program asks its input for nothing.
fn compare_unasked(rt: &impl Abort, host: &HostRuntime, words: &[&str], answer: Answer) {
    let mut input = FailingSource::new(b"ab", 2, MAX);
    compare_answer(rt, host, words, &mut input, answer);
    same(rt, &input.asked(), &0);
}

/// The path of a file with this name and contents, in the folder for files of tests. No other
/// process that runs now gives a file this path.
fn file_with(rt: &impl Abort, host: &HostRuntime, name: &str, contents: &str) -> String {
    let folder = env::temp_dir(host).expect(rt, "the folder");
    let id = process::id(host.process());
    let path = format!(in host.alloc();
        "{}/colfind-{id}-{name}.table",
        folder.as_path().as_str()
    ).expect(rt, "memory");
    write_file(rt, host, path.as_str(), contents.as_bytes());
    path
}

fn write_file(rt: &impl Abort, host: &HostRuntime, path: &str, contents: &[u8]) {
    fs::write(host, path, contents).expect(rt, "a file");
}

fn remove_file(rt: &impl Abort, host: &HostRuntime, path: &str) {
    fs::remove_file(host, path).expect(rt, "a file");
}

/// The words of a test are none of the command.
#[test]
fn other_words_end_with_status_two(rt: HostRuntime) {
    let alloc = rt.alloc();
    let mut input = MemorySource::new(b"aaa", 2);
    let mut out = MemoryTarget::new(alloc);
    let mut err = MemoryTarget::new(alloc);
    let status = ended(&rt, &mut input, &mut out, &mut err);
    bytes_are(&rt, err.bytes(), b"colfind: usage\n");
    bytes_are(&rt, out.bytes(), b"");
    same(&rt, &(status.report(&rt) == ExitCode::from(2)), &true);
}

/// Words between the table file and the pattern, the pattern, a text, the status, and what goes to the two outputs.
type Row<'a> = (&'a [&'a str], &'a str, &'a [u8], u8, &'a str, &'a str);

/// Puts a word behind the others.
fn put_word<'a>(rt: &impl Abort, words: &mut Vec<&'a str>, word: &'a str) {
    words.push(word).expect(rt, "memory");
}

/// The words of a row, with a table in the file at `path`.
fn words_of<'a>(rt: &impl Abort, alloc: Global, path: &'a str, row: &Row<'a>) -> Vec<&'a str> {
    let mut words = Vec::new(alloc);
    put_word(rt, &mut words, "--table");
    put_word(rt, &mut words, path);
    for word in row.0 {
        put_word(rt, &mut words, *word);
    }
    put_word(rt, &mut words, row.1);
    words
}

/// Compares what the program answers of a row whose text comes so many bytes at a time.
fn compare_row(rt: &impl Abort, host: &HostRuntime, path: &str, most: usize, row: &Row)
    requires { 0 < most }
{
    let words = words_of(rt, host.alloc(), path, row);
    let mut input = MemorySource::new(row.2, most);
    compare_answer(rt, host, &words, &mut input, (row.3, row.4, row.5));
}

/// Compares what the program answers of each row, whose text comes a byte at a time, with the table `TABLE` in a file of this name.
fn compare_rows(rt: &impl Abort, host: &HostRuntime, name: &str, rows: &[Row]) {
    let path = file_with(rt, host, name, TABLE);
    for row in rows {
        compare_row(rt, host, path.as_str(), 1, row);
    }
    remove_file(rt, host, path.as_str());
}

const STATUSES: [Row; 4] = [
    (&["--"], "aa", b"aaa", 0, "0:2\n1:3\n", ""),
    (&["--"], "b", b"aaa", 1, "", ""),
    (&["--"], "", b"aaa", 2, "", "colfind: fault 22 at 0\n"),
    (&[], "a", b"ab \xff", 2, "0:1\n", "colfind: fault 31 at 3\n"),
];

#[test]
fn answers_a_status(rt: HostRuntime) {
    compare_rows(&rt, &rt, "status", &STATUSES);
}

const UNOPENED: Row = (&[], "a", b"a", 2, "", "colfind: fault 43 at 0\n");

const EMPTY: Row = (&[], "a", b"a", 2, "", "colfind: fault 12 at 0\n");

#[test]
fn reports_a_bad_table_file(rt: HostRuntime) {
    let folder = env::temp_dir(&rt).expect(&rt, "the folder");
    compare_row(&rt, &rt, "no such file", 2, &UNOPENED);
    compare_row(&rt, &rt, folder.as_path().as_str(), 2, &UNOPENED);
    let empty = file_with(&rt, &rt, "empty", "");
    compare_row(&rt, &rt, empty.as_str(), 2, &EMPTY);
    remove_file(&rt, &rt, empty.as_str());
}

/// Words, a table or a pattern at fault: the input is then asked for nothing, and nothing is written to the output.
#[test]
fn the_first_fault_in_the_order_of_work_is_reported(rt: HostRuntime) {
    let good = file_with(&rt, &rt, "good", TABLE);
    let bad = file_with(&rt, &rt, "bad", "0061 ; [.1C00.0020.0002]\n61\n");
    let long = repeated(&rt, rt.alloc(), "a", 65_537);
    let cases: [(&str, &str, &str, &str); 4] = [
        ("--tables", "no such file", "", "colfind: usage\n"),
        ("--table", "no such file", &long, "colfind: fault 43 at 0\n"),
        ("--table", &bad, &long, "colfind: fault 1 at 2\n"),
        ("--table", &good, &long, "colfind: fault 21 at 0\n"),
    ];
    for (option, path, letters, reported) in cases {
        compare_unasked(&rt, &rt, &[option, path, "--", letters], (2, "", reported));
    }
    remove_file(&rt, &rt, good.as_str());
    remove_file(&rt, &rt, bad.as_str());
}

/// Compares what is reported where nothing can be printed, and only so many bytes be reported.
fn compare_unwritten(
    rt: &impl Abort,
    host: &HostRuntime,
    words: &[&str],
    reports: u64,
    reported: &str,
) {
    let mut input = MemorySource::new(b"ab", 2);
    let mut out = FailingTarget::new(host.alloc(), 7, 0);
    let mut err = FailingTarget::new(host.alloc(), 1, reports);
    let status = status_of(host, words, &mut input, &mut out, &mut err);
    answered_is(
        rt,
        (status, out.bytes(), err.bytes()),
        (2, b"", reported.as_bytes()),
        words,
    );
}

#[test]
fn reports_devices_that_fail(rt: HostRuntime) {
    let path = file_with(&rt, &rt, "devices", TABLE);
    let words = ["--table", path.as_str(), "a"];
    let mut input = FailingSource::new(b"ab", 2, 1);
    let unread = (2, "0:1\n", "colfind: fault 41 at 2\n");
    compare_answer(&rt, &rt, &words, &mut input, unread);
    for (reports, reported) in [(MAX, "colfind: fault 42 at 0\n"), (9, "colfind: ")] {
        compare_unwritten(&rt, &rt, &words, reports, reported);
    }
    remove_file(&rt, &rt, path.as_str());
}
