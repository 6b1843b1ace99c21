//! When a search hands out a range, and what its calls answer after a fault.

use super::answers::fed;
use super::calls::{
    Query, begin, compile, feed, feed_well, finish, for_all, joined, query_for, read, read_plain,
    repeated, reported, step, step_well, stop,
};
use super::checks::{answer_is, count_is, fault_is, ranges_are, ranges_follow, same};
use super::{KEPT, ONE, Range, TABLE, THREE};
use collation_search::{Found, Search, Select, TextFault};
use collation_table::{Table, Weights};
use std::alloc::Global;
use std::process::Abort;

/// A range that is handed out with a byte, after so many bytes before it.
type Handed = (usize, u64, u64);

/// A pattern, a text, the ranges that are handed out with each byte, and those at the end of the text.
type Steps<'a> = (&'a str, &'a [u8], &'a [Handed], &'a [Range]);

/// A range is handed out where the next unit is decided.
const STEPS: [Steps; 3] = [
    ("a", b"", &[], &[]),
    ("a", b"abb", &[(2, 0, 1)], &[]),
    ("aa", b"aaa", &[], &[(0, 2), (1, 3)]),
];

/// Puts a range behind the others.
fn put_one(rt: &impl Abort, handed: &mut Vec<Handed>, one: Handed) {
    handed.push(one).expect(rt, "memory");
}

/// Puts the ranges behind the others, each with how many bytes came before the one with which it is handed out.
fn put_handed(rt: &impl Abort, handed: &mut Vec<Handed>, before: usize, ranges: &[Range]) {
    for (start, end) in ranges {
        put_one(rt, handed, (before, *start, *end));
    }
}

/// The ranges that are handed out are these.
fn handed_are(rt: &impl Abort, got: &[Handed], want: &[Handed]) {
    same(rt, &got, &want);
}

/// Compares which ranges are handed out with each byte of a text, and at its end.
fn compare_each_byte<W: Weights>(
    rt: &impl Abort,
    alloc: Global,
    query: &Query<'_, W>,
    row: &Steps<'_>,
) {
    let (letters, text, steps, last) = *row;
    let mut search = begin(rt, alloc, query);
    let mut found = Found::new();
    let mut got = Vec::new(alloc);
    for (before, byte) in text.iter().enumerate() {
        step_well(rt, &mut search, *byte, &mut found);
        put_handed(rt, &mut got, before, found.as_slice());
    }
    handed_are(rt, &got, steps);
    answer_is(rt, finish(search, &mut found), Ok(()));
    ranges_are(rt, found.as_slice(), last, letters);
}

/// Compares which ranges are handed out with each byte.
fn compare_steps<W: Weights>(rt: &impl Abort, alloc: Global, table: &W) {
    for row in &STEPS {
        let pattern = compile(rt, alloc, table, row.0, THREE, KEPT);
        compare_each_byte(rt, alloc, &for_all(table, &pattern), row);
    }
}

#[test]
fn ranges_of_each_byte(rt: HostRuntime) {
    compare_steps(&rt, rt.alloc(), &read(&rt, rt.alloc(), TABLE));
    compare_steps(&rt, rt.alloc(), &read_plain(&rt, rt.alloc(), TABLE));
}

/// The chain of 100,000 letters is each second pair of them.
#[test]
fn chain_of_a_long_text(rt: HostRuntime) {
    let table = read(&rt, rt.alloc(), TABLE);
    let pattern = compile(&rt, rt.alloc(), &table, "aa", ONE, KEPT);
    let query = query_for(&table, &pattern, Select::Chain);
    let text = repeated(&rt, rt.alloc(), "aA", 50_000);
    let (got, fault) = fed(&rt, rt.alloc(), &query, text.as_bytes(), 4096);
    count_is(&rt, got.len(), 50_000);
    ranges_follow(&rt, &got, 2, 2);
    fault_is(&rt, fault, None, "a long chain");
}

/// What comes after `aa`: a letter, a mark so many times, and the last letters.
type After<'a> = (&'a str, &'a str, usize, &'a str);

const AFTER: [After; 4] = [
    ("u", "\u{327}", 30, "ub"),
    ("c", "\u{327}", 30, "hc"),
    ("c", "\u{f73}", 15, "hchchchchchchchch"),
    ("b", "", 0, "bbbbbbbbbbbbbbbbbbbbbbbbbbbbbbbb"),
];

/// Compares what is handed out of `aa` and 33 code points after it.
fn compare_in_time(rt: &impl Abort, alloc: Global, query: &Query<'_, Table>, row: &After<'_>) {
    let (first, mark, marks, last) = *row;
    let marks = repeated(rt, alloc, mark, marks);
    let text = joined(rt, alloc, &["aa", first, marks.as_str(), last]);
    count_is(rt, text.chars().count(), 2 + 33);
    let mut search = begin(rt, alloc, query);
    let mut ranges = Vec::new(alloc);
    feed_well(rt, &mut search, text.as_bytes(), &mut ranges);
    ranges_are(rt, &ranges, &[(0, 2)], &text);
}

/// A range is handed out once 31 code points more than the longest key has, which has 2 here, stand at or after its end.
#[test]
fn ranges_are_handed_out_in_time(rt: HostRuntime) {
    let table = read(&rt, rt.alloc(), TABLE);
    let pattern = compile(&rt, rt.alloc(), &table, "aa", THREE, KEPT);
    let query = for_all(&table, &pattern);
    for row in &AFTER {
        compare_in_time(&rt, rt.alloc(), &query, row);
    }
}

/// Feeds `ab` to a new search, steps to this fault, and then on.
fn step_to(rt: &impl Abort, alloc: Global, search: &mut Search<'_, Table>, fault: TextFault) {
    fault_is(rt, reported(search), None, "none");
    let mut ranges = Vec::new(alloc);
    feed_well(rt, search, b"ab", &mut ranges);
    ranges_are(rt, &ranges, &[], "fed");
    let mut found = Found::new();
    answer_is(rt, step(search, 0xff, &mut found), Err(fault));
    ranges_are(rt, found.as_slice(), &[(0, 1)], "at the fault");
    fault_is(rt, reported(search), Some(fault), "reported");
    answer_is(rt, step(search, b'a', &mut found), Err(fault));
    ranges_are(rt, found.as_slice(), &[], "after the fault");
}

/// Feeds pieces to a search that has reported this fault.
fn feed_after(rt: &impl Abort, alloc: Global, search: &mut Search<'_, Table>, fault: TextFault) {
    let mut ranges = Vec::new(alloc);
    for piece in [b"aaaa".as_slice(), b""] {
        answer_is(rt, feed(rt, search, piece, &mut ranges), Err(fault));
        ranges_are(rt, &ranges, &[], "fed after the fault");
    }
}

#[test]
fn fault_is_answered_again(rt: HostRuntime) {
    let table = read(&rt, rt.alloc(), TABLE);
    let pattern = compile(&rt, rt.alloc(), &table, "a", THREE, KEPT);
    let fault = TextFault {
        kind: 31,
        offset: 2,
    };
    let mut search = begin(&rt, rt.alloc(), &for_all(&table, &pattern));
    step_to(&rt, rt.alloc(), &mut search, fault);
    feed_after(&rt, rt.alloc(), &mut search, fault);
    let mut found = Found::new();
    found.push((7, 8));
    answer_is(&rt, finish(search, &mut found), Err(fault));
    ranges_are(&rt, found.as_slice(), &[], "at the end");
}

/// Which matches are selected, a text, what a feed of it answers, and the ranges that the feed and the stop hand out.
type Stop<'a> = (
    Select,
    &'a [u8],
    Result<(), TextFault>,
    &'a [Range],
    &'a [Range],
);

const AT_THREE: TextFault = TextFault {
    kind: 31,
    offset: 3,
};

const STOPS: [Stop; 3] = [
    (Select::All, b"aaa\xe2\x82", Ok(()), &[], &[(0, 2)]),
    (Select::All, b"aaa\xff", Err(AT_THREE), &[(0, 2)], &[]),
    (Select::Chain, b"aaaaa", Ok(()), &[(0, 2)], &[(2, 4)]),
];

/// Compares what a feed hands out, and what a stop after it.
fn compare_stop<W: Weights>(rt: &impl Abort, alloc: Global, query: &Query<'_, W>, row: &Stop<'_>) {
    let (_select, text, want, before, after) = *row;
    let mut search = begin(rt, alloc, query);
    let mut ranges = Vec::new(alloc);
    answer_is(rt, feed(rt, &mut search, b"", &mut ranges), Ok(()));
    answer_is(rt, feed(rt, &mut search, text, &mut ranges), want);
    ranges_are(rt, &ranges, before, "before");
    let mut found = Found::new();
    stop(search, &mut found);
    ranges_are(rt, found.as_slice(), after, "after");
}

/// Where the text is given up, the settled ranges are handed out, those of the chain too; after a fault they were.
#[test]
fn stop_hands_out_the_settled_ranges(rt: HostRuntime) {
    let table = read(&rt, rt.alloc(), TABLE);
    let pattern = compile(&rt, rt.alloc(), &table, "aa", THREE, KEPT);
    for row in &STOPS {
        let query = query_for(&table, &pattern, row.0);
        compare_stop(&rt, rt.alloc(), &query, row);
    }
}
