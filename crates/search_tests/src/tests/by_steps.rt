//! Text that goes by steps alone, text that letters walk over, and text that is passed by: on both sides of what decides between them the
//! answers are those of steps.

ghost use Rattle.std.specs.Prelude.{◌<◌};

use super::answers::{answered_is, fed, resumed, stepped};
use super::calls::{
    Query, begin, compile, first_in, first_range, first_range_from, for_all, joined, put_bytes,
    read, repeated,
};
use super::checks::{count_is, first_is, holds};
use super::{KEPT, ONE, Range, TABLE};
use collation_search::TextFault;
use collation_table::Table;
use std::alloc::Global;
use std::process::Abort;

/// How many letters `a` patterns have, on both sides of the most for which text is passed by from its first byte on, and how many ranges
/// there are in `runs`.
const LENGTHS: [(usize, usize); 3] = [(1_024, 33_131), (1_025, 33_128), (3_000, 27_203)];

/// Sizes of pieces, on both sides of the 3,072 bytes of Han that go by steps first where the pattern has more keys, and of the 4,096 that are
/// walked over first; a search is resumed after each piece of the last size.
const SIZES: [usize; 5] = [64, 3_072, 3_073, 4_096, 4_097];

/// Runs of letters `a`, of which the second stands across the first 4,096 bytes.
fn runs(rt: &impl Abort, alloc: Global) -> String {
    let some = repeated(rt, alloc, "a", 3_100);
    let many = repeated(rt, alloc, "a", 30_000);
    joined(
        rt,
        alloc,
        &[some.as_str(), "b", many.as_str(), "e", some.as_str(), "bbb"],
    )
}

/// Compares the ranges of a text that is fed in pieces of each size, and of one whose search is resumed after each piece of the last, with
/// those of steps.
fn compare_sizes(
    rt: &impl Abort,
    alloc: Global,
    query: &Query<'_, Table>,
    text: &[u8],
    want: usize,
) {
    let (ranges, fault) = stepped(rt, alloc, query, text);
    count_is(rt, ranges.len(), want);
    let mut last = 1;
    for size in SIZES {
        last = size;
        compare_fed(rt, alloc, query, text, last.max(1), &ranges, fault);
    }
    let (again, _most) = resumed(rt, alloc, query, text, last.max(1));
    answered_is(rt, &again, &ranges, fault, "resumed");
}

/// Compares the ranges of a text that is fed in pieces of this size.
fn compare_fed(
    rt: &impl Abort,
    alloc: Global,
    query: &Query<'_, Table>,
    text: &[u8],
    size: usize,
    ranges: &[Range],
    fault: Option<TextFault>,
)
    requires { 0 < size }
{
    let whole = fed(rt, alloc, query, text, size);
    answered_is(rt, &whole, ranges, fault, "fed");
}

/// Compares the ranges of so many letters.
fn compare_length(
    rt: &impl Abort,
    alloc: Global,
    table: &Table,
    text: &[u8],
    len: usize,
    want: usize,
) {
    let letters = repeated(rt, alloc, "a", len);
    let pattern = compile(rt, alloc, table, &letters, ONE, KEPT);
    compare_sizes(rt, alloc, &for_all(table, &pattern), text, want);
}

/// Patterns and pieces of each length.
#[test]
fn long_patterns_answer_as_steps(rt: HostRuntime) {
    let alloc = rt.alloc();
    let table = read(&rt, alloc, TABLE);
    let text = runs(&rt, alloc);
    for (len, want) in LENGTHS {
        compare_length(&rt, alloc, &table, text.as_bytes(), len, want);
    }
}

/// A pattern of Han: as many ranges as there are places for 1,025 characters in 12,000.
#[test]
fn long_pattern_of_han_answers_as_steps(rt: HostRuntime) {
    let alloc = rt.alloc();
    let table = read(&rt, alloc, TABLE);
    let sought = repeated(&rt, alloc, "一", 1_025);
    let pattern = compile(&rt, alloc, &table, &sought, ONE, KEPT);
    let text = repeated(&rt, alloc, "一", 12_000);
    let query = for_all(&table, &pattern);
    compare_sizes(&rt, alloc, &query, text.as_bytes(), 10_976);
}

/// Compares the first range of a text, again and again, by one search.
fn first_of_many(rt: &impl Abort, alloc: Global, query: &Query<'_, Table>, text: &[u8]) {
    let mut search = begin(rt, alloc, query);
    for _ in 0..40 {
        let first = first_in(&mut search, text);
        first_is(rt, first, Ok(Some((1, 1_026))), "one search");
    }
}

/// The first range of each of many texts, which together have more bytes than are walked over first, by one search; and so by one for each.
#[test]
fn first_range_of_many_texts(rt: HostRuntime) {
    let alloc = rt.alloc();
    let table = read(&rt, alloc, TABLE);
    let letters = repeated(&rt, alloc, "a", 1_025);
    let pattern = compile(&rt, alloc, &table, &letters, ONE, KEPT);
    let query = for_all(&table, &pattern);
    let many = repeated(&rt, alloc, "a", 1_100);
    let text = joined(&rt, alloc, &["b", many.as_str(), "b"]);
    first_of_many(&rt, alloc, &query, text.as_bytes());
    let first = first_range(alloc, &query, text.as_bytes());
    first_is(&rt, first, Ok(Some((1, 1_026))), "a search for it");
}

/// Characters, of which short texts have some.
const CHARACTERS: [char; 20] = [
    'a', 's', 'é', '一', 'r', 'b', 'c', 'e', 'h', 'm', 'u', ' ', '-', 'A', 'ü', '二', 'ก', '?', '!',
    '.',
];

/// A text of so many characters, of which so many are different.
fn varied(rt: &impl Abort, alloc: Global, len: usize, different: usize) -> String {
    let mut text = String::new(alloc);
    for i in 0..len {
        let turn = i.wrapping_mul(i).wrapping_add(i / 3);
        let place = if i < different {
            i
        } else {
            turn % 20 % different.max(1)
        };
        text.push(CHARACTERS[place % 20]).expect(rt, "memory");
    }
    text
}

/// A range so many bytes further on.
fn moved(range: Range, by: u64) -> Range {
    (range.0.wrapping_add(by), range.1.wrapping_add(by))
}

/// Compares the first range of a text, also where it stands behind other bytes, with that of steps. It answers whether there is one.
fn compare_first(rt: &impl Abort, alloc: Global, query: &Query<'_, Table>, text: &[u8]) -> bool {
    let (ranges, _fault) = stepped(rt, alloc, query, text);
    let want = ranges.first().copied();
    first_is(rt, first_range(alloc, query, text), Ok(want), "index");
    let mut behind = Vec::new(alloc);
    put_bytes(rt, &mut behind, b"sr-");
    put_bytes(rt, &mut behind, text);
    let from = first_range_from(alloc, query, &behind, 3);
    first_is(
        rt,
        from,
        Ok(want.map(|range| moved(range, 3))),
        "index_from",
    );
    want.is_some()
}

/// Texts of 1 to 66 characters, and of 171 to 191, which are some 170 to 335 bytes; 1 to 20 of them are different.
#[test]
fn first_range_of_short_texts(rt: HostRuntime) {
    let alloc = rt.alloc();
    let table = read(&rt, alloc, TABLE);
    let pattern = compile(&rt, alloc, &table, "sa", ONE, KEPT);
    let query = for_all(&table, &pattern);
    let mut found = 0usize;
    for turn in 1..=87usize {
        let len = if turn <= 66 {
            turn
        } else {
            turn.wrapping_add(104)
        };
        for different in 1..=20usize {
            let text = varied(&rt, alloc, len, different);
            if compare_first(&rt, alloc, &query, text.as_bytes()) {
                found = found.wrapping_add(1);
            }
        }
    }
    holds(&rt, 100 < found && found < 1_640, &found);
}

/// The front of a text of ASCII with many different bytes: a search for such a text alone chooses a place by it.
const FRONT: &[u8] = b"the mace: hubba! ca-ch, 12? (bAe) Jukv ";

/// What follows it, so many times: bytes that the front has, others, letters that a match begins with, and bytes past ASCII.
const PARTS: [&str; 5] = ["the cache ", "45 6789 ", "sur su ", "rsu", "bé "];

const TIMES: [usize; 4] = [25, 120, 600, 900];

/// What it ends with: a match, what is nearly one, and a match across a character of two bytes.
const ENDS: [&str; 5] = ["sur", "sr-", "x, sure", "us-", "s\u{ad}ur"];

/// Compares the first range of a text of these parts, which begins with `FRONT`.
fn compare_behind_front(
    rt: &impl Abort,
    alloc: Global,
    query: &Query<'_, Table>,
    part: &str,
    times: usize,
    end: &str,
) -> bool {
    let mut text = Vec::new(alloc);
    put_bytes(rt, &mut text, FRONT);
    for _ in 0..times {
        put_bytes(rt, &mut text, part.as_bytes());
    }
    put_bytes(rt, &mut text, end.as_bytes());
    compare_first(rt, alloc, query, &text)
}

/// Texts of 117 to 9,046 bytes of ASCII, and some that are not ASCII behind their front.
#[test]
fn first_range_of_texts_of_ascii(rt: HostRuntime) {
    let alloc = rt.alloc();
    let table = read(&rt, alloc, TABLE);
    let pattern = compile(&rt, alloc, &table, "sur", ONE, KEPT);
    let query = for_all(&table, &pattern);
    let mut found = 0usize;
    for part in PARTS {
        for times in TIMES {
            for end in ENDS {
                if compare_behind_front(&rt, alloc, &query, part, times, end) {
                    found = found.wrapping_add(1);
                }
            }
        }
    }
    count_is(&rt, found, 76);
}
