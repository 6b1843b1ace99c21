//! Letters, which are taken at once: what a search leaves is what steps leave.

use super::answers::{answered_is, compare_with_steps, fed, stepped};
use super::calls::{Query, compile, for_all, joined, put_bytes, query_for, read, repeated};
use super::checks::{count_is, fault_is, holds};
use super::{KEPT, ONE, SHIFTED, TABLE, THREE, TWO};
use collation_elements::{Strength, Variable};
use collation_search::Select;
use collation_table::{Table, Weights};
use std::alloc::Global;
use std::process::Abort;

/// Letters, a contraction, a variable element and characters without a row.
const LETTERS: [u8; 12] = *b"ach aA-bu\na\0";

/// Runs of 0 to 200 characters in turn, with a letter and a mark that are no ASCII after each.
fn runs_of_each_length(rt: &impl Abort, alloc: Global) -> Vec<u8> {
    let mut runs = Vec::new(alloc);
    for len in 0..=200usize {
        for i in 0..len {
            runs.push(LETTERS[i % 12]).expect(rt, "memory");
        }
        put_bytes(rt, &mut runs, b"\xc3\xa9a\xcc\x81");
    }
    runs
}

/// Compares the ranges of a text that is fed as one piece with those of steps.
fn compare_whole(rt: &impl Abort, alloc: Global, query: &Query<'_, Table>, text: &[u8]) {
    let whole = fed(rt, alloc, query, text, usize::MAX);
    let steps = stepped(rt, alloc, query, text);
    holds(rt, whole.0.len() > 1_600, &whole.0.len());
    answered_is(rt, &whole, &steps.0, None, "whole");
    fault_is(rt, steps.1, None, "steps");
}

/// Runs of 0 to 200 characters, the first of them at each offset of a block.
#[test]
fn runs_of_each_length_at_each_offset(rt: HostRuntime) {
    let table = read(&rt, rt.alloc(), TABLE);
    let pattern = compile(&rt, rt.alloc(), &table, "aa", ONE, SHIFTED);
    let query = for_all(&table, &pattern);
    let runs = runs_of_each_length(&rt, rt.alloc());
    for before in 0..32usize {
        let letters = repeated(&rt, rt.alloc(), "a", before);
        let mut text = Vec::new(rt.alloc());
        put_bytes(&rt, &mut text, letters.as_bytes());
        put_bytes(&rt, &mut text, &runs);
        compare_whole(&rt, rt.alloc(), &query, &text);
    }
}

/// Rows with a string of three code points, so that two points stay in the window.
const LONGER_ROWS: &str = "0073 0074 ; [.1C84.0020.0002]
0073 0074 0072 ; [.1C88.0020.0002]
";

/// Rows of which none has two code points, so that one point stays in the window.
const LONE_ROWS: &str = "@version 0.0.0
0020 ; [*0201.0020.0002]
0061 ; [.1C00.0020.0002]
0062 ; [.1C10.0020.0002]
0063 ; [.1C20.0020.0002]
0065 ; [.1C40.0020.0002]
0068 ; [.1C50.0020.0002]
0301 ; [.0000.0024.0002]
";

/// A line with runs of letters and spaces, repeated letters, and contractions at an end of a run.
const LINE: &str =
    "astra ast chha-b e\u{301}au\u{327}\u{301} aAb\u{e9}hc str-ast\u{301} a - a\u{301}chs b a  aaab bacch\n";

/// Rows of marks, jamo and Greek, and strings of two characters past ASCII.
const MORE_ROWS: &str = "0308 ; [.0000.0028.0002]
0313 ; [.0000.0026.0002]
0342 ; [.0000.0029.0002]
0345 ; [.0000.0031.0002]
0F71 ; [.0000.0050.0002]
0F72 ; [.0000.0051.0002]
1100 ; [.2C00.0020.0002]
1161 ; [.2C10.0020.0002]
11A8 ; [.2C20.0020.0002]
00E6 ; [.1CA0.0020.0002]
00E6 00F0 ; [.1CA8.0020.0002]
03B1 ; [.1D00.0020.0002]
03B1 0345 ; [.1D08.0020.0002]
03B7 ; [.1D10.0020.0002]
";

/// Composed and decomposed letters, marks in and out of order, a discontiguous string, a mark that is two, syllables and jamo,
/// ideographs without a row, contractions, a long run of ASCII and a character of four bytes; then, on a line that begins with a mark,
/// letters with three marks in and out of order, marks that are two, and Greek letters with two and three marks.
const LINES: &str =
    "\u{e9}a\u{e9}e\u{301}\u{e1}a\u{301}\u{327}e u\u{327}\u{301}\u{fa}u\u{301}\u{327}a\u{f73}\u{e9}\
    \u{ac01}\u{ac00}\u{1100}\u{1161}\u{11a8}\u{ac00}\u{11a8}\u{4e00}\u{4e8c}\u{4e00}ch\u{e9}c-h\u{ad}a\u{ad} \u{e6}\u{f0}\u{e6}\u{e9}\
    aab bach sum a - a resume a b c e m r s u aaba abba ch sea bees ache came here \u{20000}\u{e1}a\u{301}\u{e9}\u{4e00}c\u{ad}h\u{e9}\n\
    \u{301}a\u{327}\u{308}\u{301}e e\u{301}\u{308}\u{327}a\u{308}\u{327}\u{301}e\u{300}\u{301}\u{308}u\u{327}\u{308}\u{301}u\u{301}\u{308}\u{327}b \
    a\u{344}e\u{344}\u{327}\u{e9}\u{344}\u{3b1}\u{1f84}\u{1f80}\u{3b1}\u{345}\u{3b1}\u{345}\u{313}\u{3b1}\u{313}\u{301}\u{345}\u{1fb7}\
    \u{3b7}\u{1f97}\u{1f91}\u{3b1}\u{1f80}\u{301}e\u{3b1}\u{f73}\u{345}a\n";

/// Letters with circles, starters that begin no cluster and have a key from strength two on: behind marks and before them, behind what
/// begins a contraction, behind a variable element, one that is ignored, and none at all.
const CIRCLES: &str =
    "a\u{20DD}b e\u{301}\u{20DD}a\u{20DD}\u{327}u\u{20DD}\u{301}c\u{20DD}h ch\u{20DD}\u{20DD}e-\u{20DD}a \u{20DD}b\u{AD}\u{20DD}\
    a\u{20DD}\u{E9}\u{20DD}\u{327}\u{301}a\u{327}\u{20DD}\u{301}b \u{4E00}\u{20DD}a-a\u{20DD}b a\u{301}\u{20DD}a\u{20DD} \
    b\u{20DD}\u{20DD}\u{20DD}\u{20DD}a\u{20DD}aab\u{20DD}\nmm mm\n";

/// A pattern, a strength, a weighting, which matches are selected, and how many ranges there are before the end, as
/// `tools/compare/states.py` says.
type Case<'a> = (&'a str, Strength, Variable, Select, usize);

/// However a text is cut into pieces, at the end of each the ranges so far and the words of the state are those of steps.
fn compare_case<W: Weights>(
    rt: &impl Abort,
    alloc: Global,
    table: &W,
    text: &[u8],
    case: &Case<'_>,
) {
    let (letters, strength, variable, select, want) = *case;
    let pattern = compile(rt, alloc, table, letters, strength, variable);
    let query = query_for(table, &pattern, select);
    for size in 1..=99usize {
        let size = if size == 99 { usize::MAX } else { size };
        count_is(rt, compare_with_steps(rt, alloc, &query, text, size), want);
    }
}

/// Compares each case. The table has these lines and then those.
fn compare(rt: &impl Abort, alloc: Global, lines: [&str; 2], text: &str, cases: &[Case<'_>]) {
    let table = read(rt, alloc, &joined(rt, alloc, &lines));
    for case in cases {
        compare_case(rt, alloc, &table, text.as_bytes(), case);
    }
}

const OF_ASCII: [Case; 5] = [
    ("a", THREE, KEPT, Select::All, 39),
    ("a a", ONE, SHIFTED, Select::All, 18),
    ("aab", ONE, KEPT, Select::All, 6),
    ("ch", ONE, KEPT, Select::All, 8),
    ("b a", THREE, SHIFTED, Select::All, 6),
];

const OF_LONE_ROWS: [Case; 5] = [
    ("a", THREE, KEPT, Select::All, 39),
    ("a a", ONE, SHIFTED, Select::All, 12),
    ("aab", ONE, KEPT, Select::All, 3),
    ("ch", ONE, KEPT, Select::All, 8),
    ("b a", THREE, SHIFTED, Select::All, 6),
];

const PAST_ASCII: [Case; 9] = [
    ("e", ONE, KEPT, Select::All, 25),
    ("\u{e9}", THREE, KEPT, Select::All, 8),
    ("ae", ONE, SHIFTED, Select::All, 7),
    ("a", ONE, KEPT, Select::Chain, 24),
    ("\u{3b1}", ONE, KEPT, Select::All, 2),
    ("\u{1f80}", ONE, KEPT, Select::All, 8),
    ("a\u{327}\u{308}\u{301}", THREE, KEPT, Select::All, 2),
    ("resume", ONE, KEPT, Select::All, 1),
    ("bees", ONE, KEPT, Select::All, 1),
];

const OF_CIRCLES: [Case; 8] = [
    ("a", TWO, KEPT, Select::All, 4),
    ("a\u{20DD}", TWO, KEPT, Select::All, 5),
    ("a\u{20DD}b", THREE, KEPT, Select::All, 2),
    ("e\u{301}\u{20DD}", TWO, KEPT, Select::All, 1),
    ("ch\u{20DD}\u{20DD}", TWO, KEPT, Select::All, 1),
    ("-\u{20DD}", TWO, KEPT, Select::All, 1),
    ("a\u{20DD}", TWO, SHIFTED, Select::Chain, 5),
    ("u\u{20DD}\u{301}", THREE, SHIFTED, Select::All, 1),
];

/// Patterns of one key and of several, with letters that begin a contraction and with none, in tables whose longest string has three
/// code points, two, and one.
#[test]
fn pieces_of_ascii_leave_what_steps_leave(rt: HostRuntime) {
    let text = repeated(&rt, rt.alloc(), LINE, 3);
    compare(&rt, rt.alloc(), [TABLE, LONGER_ROWS], &text, &OF_ASCII);
    compare(&rt, rt.alloc(), [TABLE, ""], &text, &OF_ASCII);
    compare(&rt, rt.alloc(), [LONE_ROWS, ""], &text, &OF_LONE_ROWS);
}

#[test]
fn pieces_past_ascii_leave_what_steps_leave(rt: HostRuntime) {
    compare(&rt, rt.alloc(), [TABLE, MORE_ROWS], LINES, &PAST_ASCII);
    compare(&rt, rt.alloc(), [TABLE, ""], CIRCLES, &OF_CIRCLES);
}
