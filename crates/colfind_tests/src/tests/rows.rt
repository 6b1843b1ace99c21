//! Worked rows: what the program prints and answers for small texts, read whole and a byte at a time, and with an empty
//! tailor; and what a run over a plain table prints.

ghost use Rattle.std.specs.Prelude.{◌<◌, ◌^◌};

use super::{
    MAX, Row as ProgramRow, TABLE, compare_row, file_with, joined, plain_table_of, remove_file,
    repeated, reported_of, same_at, write_file,
};
use crate::tests::devices::FailingTarget;
use colfind_io::{MemorySource, Output, Target};
use colfind_run::faults::Fault;
use colfind_run::run::Outcome;
use collation_elements::{Strength, Variable};
use collation_pattern::Pattern;
use collation_search::Select;
use collation_table::PlainTable;
use std::alloc::Global;
use std::process::Abort;

/// A table without accents, in which a hyphen has no weight.
const LETTERS: &str = "0020 ; [*0201.0020.0002]
002D ; [.0000.0000.0000]
0041 ; [.1C00.0020.0008]
0061 ; [.1C00.0020.0002]
0062 ; [.1C10.0020.0002]
0063 ; [.1C20.0020.0002]
0063 0068 ; [.1C28.0020.0002]
0068 ; [.1C50.0020.0002]
";

/// The weighting that the program takes where none is named.
const KEPT: &str = "non-ignorable";

const SHIFTED: &str = "shifted";

const NO_KEY: &str = "colfind: fault 22 at 0\n";

const AT_ONE: &str = "colfind: fault 31 at 1\n";

const AT_TWO: &str = "colfind: fault 31 at 2\n";

const AT_THREE: &str = "colfind: fault 31 at 3\n";

const COMPOSED: &[u8] = b"r\xc3\xa9sum\xc3\xa9";

const DECOMPOSED: &[u8] = b"re\xcc\x81sume\xcc\x81";

/// Three jamo, which are the decomposition of a syllable.
const JAMO: &[u8] = b"\xe1\x84\x80\xe1\x85\xa1\xe1\x86\xa8";

/// A letter before each of two marks, in and out of the order of their classes.
const BLOCKED: &[u8] = b"u\xcc\x80\xcc\x81";

const OPEN: &[u8] = b"u\xcc\xa7\xcc\x81";

/// A strength, a weighting, a pattern, a text, the status, and what goes to the two outputs.
type Row<'a> = (&'a str, &'a str, &'a str, &'a [u8], u8, &'a str, &'a str);

/// How many matches a run over a plain table has printed, or the kind and the place of the fault of the pattern or the text.
fn run_plainly(
    alloc: Global,
    table: &PlainTable,
    row: &Row,
    out: &mut FailingTarget,
) -> Result<u64, (u8, u64)>
    requires { ⟦<FailingTarget as Target>⟧.failures out.old < 2 ^ 63 }
{
    let strength = match row.0 {
        "1" => Strength::One,
        "2" => Strength::Two,
        _ => Strength::Three,
    };
    let variable = if row.1 == SHIFTED {
        Variable::Shifted
    } else {
        Variable::NonIgnorable
    };
    let pattern = match Pattern::compile(alloc, table, row.2, strength, variable) {
        Ok(pattern) => pattern,
        Err(fault) => return Err((fault.kind, 0)),
    };
    let mut reader = MemorySource::new(row.3, 1);
    let (form, select) = (Output::Ranges, Select::All);
    match reported_of(alloc, table, &pattern, form, select, &mut reader, out) {
        Outcome::Done(count) => Ok(count),
        Outcome::Text(fault) => Err((fault.kind, fault.offset)),
        Outcome::Read(_) | Outcome::Write | Outcome::Memory => Err((0, 0)),
    }
}

/// The status of a row, and what goes to the two outputs, is this.
fn row_is(rt: &impl Abort, row: &Row, status: u8, printed: &[u8], reported: &[u8]) {
    let (_strength, _variable, letters, _text, wanted, to_print, to_report) = *row;
    let want = (wanted, to_print.as_bytes(), to_report.as_bytes());
    same_at(rt, &(status, printed, reported), &want, &letters);
}

/// Compares what a run over a plain table answers of a row.
fn compare_plainly(rt: &impl Abort, alloc: Global, table: &PlainTable, row: &Row) {
    let mut out = FailingTarget::new(alloc, 7, MAX);
    let answer = run_plainly(alloc, table, row, &mut out);
    match answer {
        Ok(count) => row_is(rt, row, u8::from(count == 0), out.bytes(), b""),
        Err((kind, place)) => {
            let line = Fault::At(kind, place).line();
            row_is(rt, row, 2, out.bytes(), line.as_bytes());
        }
    }
}

/// Compares what the program answers of a row whose text comes whole and a byte at a time, and with an empty tailor.
fn compare_program(rt: &impl Abort, host: &HostRuntime, table: &str, tailor: &str, row: &Row) {
    let (strength, variable, letters, text, status, printed, reported) = *row;
    let plain = ["--strength", strength, "--variable", variable, "--"];
    let row: ProgramRow = (&plain, letters, text, status, printed, reported);
    compare_row(rt, host, table, 4096, &row);
    compare_row(rt, host, table, 1, &row);
    let tailored = [
        "--tailor",
        tailor,
        "--strength",
        strength,
        "--variable",
        variable,
        "--",
    ];
    let row: ProgramRow = (&tailored, letters, text, status, printed, reported);
    compare_row(rt, host, table, 4096, &row);
}

/// Compares each row, by a plain table and by the program with the table in a file of this name.
fn compare(rt: &impl Abort, host: &HostRuntime, table: &str, name: &str, rows: &[Row]) {
    let plain = plain_table_of(rt, host.alloc(), table);
    let path = file_with(rt, host, name, table);
    let tailor = joined(rt, host.alloc(), &[path.as_str(), ".tailor"]);
    write_file(rt, host, tailor.as_str(), b"");
    for row in rows {
        compare_plainly(rt, host.alloc(), &plain, row);
        compare_program(rt, host, path.as_str(), tailor.as_str(), row);
    }
    remove_file(rt, host, path.as_str());
    remove_file(rt, host, tailor.as_str());
}

const OF_LETTERS: [Row; 12] = [
    ("1", KEPT, "aa", b"aaa", 0, "0:2\n1:3\n", ""),
    ("1", KEPT, "a", b"", 1, "", ""),
    ("1", KEPT, "ab", b"a-b", 0, "0:3\n", ""),
    ("1", KEPT, "a", b"-a", 0, "1:2\n", ""),
    ("1", KEPT, "a", b"a-", 0, "0:2\n", ""),
    ("1", KEPT, "c", b"ch", 1, "", ""),
    ("1", KEPT, "ch", b"c-h", 1, "", ""),
    ("1", KEPT, "a", b"aA", 0, "0:1\n1:2\n", ""),
    ("1", KEPT, "x", b"axa", 0, "1:2\n", ""),
    ("1", KEPT, "a", b"ab\xff", 2, "0:1\n", AT_TWO),
    ("1", KEPT, "b", b"ab\xff", 2, "", AT_TWO),
    ("1", KEPT, "-", b"a-b", 2, "", NO_KEY),
];

#[test]
fn letters_at_strength_one(rt: HostRuntime) {
    compare(&rt, &rt, LETTERS, "letters", &OF_LETTERS);
}

const ACCENTS: [Row; 10] = [
    ("1", KEPT, "resume", COMPOSED, 0, "0:8\n", ""),
    ("1", KEPT, "resume", DECOMPOSED, 0, "0:10\n", ""),
    ("2", KEPT, "resume", COMPOSED, 1, "", ""),
    ("2", KEPT, "resume", DECOMPOSED, 1, "", ""),
    ("3", KEPT, "r\u{e9}sum\u{e9}", DECOMPOSED, 0, "0:10\n", ""),
    ("2", KEPT, "\u{301}", b"\xcc\x81", 0, "0:2\n", ""),
    ("2", KEPT, "\u{301}", b"e\xcc\x81", 1, "", ""),
    ("1", KEPT, "a", b"\xcc\x81a", 0, "2:3\n", ""),
    ("1", KEPT, "a", b"a\xe2\x83\x9db", 0, "0:4\n", ""),
    ("2", KEPT, "a", b"a\xe2\x83\x9db", 1, "", ""),
];

#[test]
fn accents(rt: HostRuntime) {
    compare(&rt, &rt, TABLE, "accents", &ACCENTS);
}

const CONTRACTIONS: [Row; 11] = [
    ("3", KEPT, "c", b"ch", 1, "", ""),
    ("3", KEPT, "h", b"ch", 1, "", ""),
    ("1", KEPT, "c", b"ch", 1, "", ""),
    ("1", KEPT, "h", b"ch", 1, "", ""),
    ("1", KEPT, "ch", b"c\xc2\xadh", 1, "", ""),
    ("3", KEPT, "a", b"a\xc2\xad", 0, "0:3\n", ""),
    ("1", KEPT, "a", b"a\xc2\xad", 0, "0:3\n", ""),
    ("1", KEPT, "\u{fa}", OPEN, 0, "0:5\n", ""),
    ("2", KEPT, "\u{fa}", OPEN, 1, "", ""),
    ("1", KEPT, "\u{fa}", BLOCKED, 1, "", ""),
    ("1", KEPT, "u", BLOCKED, 0, "0:5\n", ""),
];

#[test]
fn contractions(rt: HostRuntime) {
    compare(&rt, &rt, TABLE, "contractions", &CONTRACTIONS);
}

const SYLLABLES: [Row; 7] = [
    ("1", KEPT, "\u{ac01}", JAMO, 0, "0:9\n", ""),
    ("3", KEPT, "\u{ac01}", JAMO, 0, "0:9\n", ""),
    ("1", KEPT, "\u{1100}", b"\xea\xb0\x81", 1, "", ""),
    ("3", KEPT, "\u{1100}", b"\xea\xb0\x81", 1, "", ""),
    ("3", KEPT, "\u{4e00}", b"\xe4\xb8\x80", 0, "0:3\n", ""),
    ("2", KEPT, "\u{4e00}", b"\xe2\xbc\x80", 0, "0:3\n", ""),
    ("3", KEPT, "\u{4e00}", b"\xe2\xbc\x80", 1, "", ""),
];

#[test]
fn syllables_and_ideographs(rt: HostRuntime) {
    compare(&rt, &rt, TABLE, "syllables", &SYLLABLES);
}

const WEIGHTINGS: [Row; 8] = [
    ("3", SHIFTED, "ab", b"a - b", 0, "0:5\n", ""),
    ("3", KEPT, "ab", b"a - b", 1, "", ""),
    ("3", SHIFTED, "a", b" a ", 0, "1:2\n", ""),
    ("2", SHIFTED, "a", b"a-\xe2\x83\x9d", 0, "0:1\n", ""),
    ("2", SHIFTED, "a\u{20dd}", b"a-\xe2\x83\x9d", 1, "", ""),
    ("3", KEPT, "a", b"aA", 0, "0:1\n", ""),
    ("2", KEPT, "a", b"aA", 0, "0:1\n1:2\n", ""),
    ("3", KEPT, "a", b"", 1, "", ""),
];

#[test]
fn weightings_and_strengths(rt: HostRuntime) {
    compare(&rt, &rt, TABLE, "weightings", &WEIGHTINGS);
}

const ILL_FORMED: [Row; 8] = [
    ("3", KEPT, "a", b"ab \xff", 2, "0:1\n", AT_THREE),
    ("3", KEPT, "b", b"ab\xc3", 2, "", AT_TWO),
    ("3", KEPT, "a", b"a\xe2\x82", 2, "", AT_ONE),
    ("3", KEPT, "a", b"ab\xe2\x28", 2, "0:1\n", AT_TWO),
    ("1", KEPT, "a", b"ab \xff", 2, "0:1\n", AT_THREE),
    ("1", KEPT, "b", b"ab\xc3", 2, "", AT_TWO),
    ("1", KEPT, "a", b"a\xe2\x82", 2, "", AT_ONE),
    ("1", KEPT, "a", b"ab\xe2\x28", 2, "0:1\n", AT_TWO),
];

#[test]
fn ill_formed_texts(rt: HostRuntime) {
    compare(&rt, &rt, TABLE, "ill-formed", &ILL_FORMED);
}

const NO_PATTERNS: [Row; 3] = [
    ("3", SHIFTED, " ", b"a", 2, "", NO_KEY),
    ("3", KEPT, "", b"a", 2, "", NO_KEY),
    ("1", KEPT, "\u{301}", b"a", 2, "", NO_KEY),
];

/// A code point, how often it stands in a pattern, the status, and what is reported.
const LONG: [(&str, usize, u8, &str); 3] = [
    ("\u{301}", 31, 2, "colfind: fault 23 at 0\n"),
    ("a", 65_537, 2, "colfind: fault 21 at 0\n"),
    ("a", 65_536, 1, ""),
];

#[test]
fn texts_that_are_no_patterns(rt: HostRuntime) {
    compare(&rt, &rt, TABLE, "patterns", &NO_PATTERNS);
    for (point, count, status, reported) in &LONG {
        let letters = repeated(&rt, rt.alloc(), *point, *count);
        let row: Row = ("3", KEPT, &letters, b"a", *status, "", *reported);
        compare(&rt, &rt, TABLE, "long-patterns", &[row]);
    }
}

/// A strength, a letter, a mark and how often it stands after the letter, the status, and what goes to the two outputs.
type Marked<'a> = (&'a str, &'a str, &'a str, usize, u8, &'a str, &'a str);

const AT_46: &str = "colfind: fault 32 at 46\n";

const MARKED: [Marked; 6] = [
    ("1", "e", "\u{301}", 30, 0, "0:61\n", ""),
    ("1", "e", "\u{301}", 31, 2, "", "colfind: fault 32 at 61\n"),
    ("1", "a", "\u{f73}", 15, 1, "", ""),
    ("1", "a", "\u{f73}", 16, 2, "", AT_46),
    ("3", "a", "\u{f73}", 15, 1, "", ""),
    ("3", "a", "\u{f73}", 16, 2, "", AT_46),
];

/// A letter and so many marks.
fn marked(rt: &impl Abort, alloc: Global, letter: &str, mark: &str, count: usize) -> String {
    let marks = repeated(rt, alloc, mark, count);
    joined(rt, alloc, &[letter, marks.as_str()])
}

#[test]
fn runs_of_non_starters(rt: HostRuntime) {
    for row in &MARKED {
        let (strength, letter, mark, count, status, printed, reported) = *row;
        let text = marked(&rt, rt.alloc(), letter, mark, count);
        let text = text.as_bytes();
        let row: Row = (strength, KEPT, letter, text, status, printed, reported);
        compare(&rt, &rt, TABLE, "runs", &[row]);
    }
}
