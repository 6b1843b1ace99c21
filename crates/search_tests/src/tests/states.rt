//! The words of worked states, number by number, and how searches go on from them.

use super::answers::{Answered, answered_is, end, state_after};
use super::calls::{Query, compile, feed, for_all, query_for, read, reported, resume, step, stop};
use super::checks::{answer_is, fault_is, ranges_are, same, words_are};
use super::{KEPT, Range, SHIFTED, TABLE, THREE};
use collation_search::{Found, Search, Select, TextFault};
use collation_table::Table;
use std::alloc::Global;
use std::process::Abort;

/// The ranges that a search has still to hand out after a state and some bytes, and its fault.
fn rest_after(
    rt: &impl Abort,
    alloc: Global,
    query: &Query<'_, Table>,
    words: &[u64],
    bytes: &[u8],
) -> Answered {
    let mut search = resume(rt, alloc, query, words);
    let mut ranges = Vec::new(alloc);
    let _fault = feed(rt, &mut search, bytes, &mut ranges);
    end(rt, search, ranges)
}

/// Which matches are selected, the bytes that were taken, and the words.
type State<'a> = (Select, &'a [u8], &'a [u64]);

/// States of searches for `aa`. After `aaaa` a chain has handed out the range from 0 to 2.
const STATES: [State; 9] = [
    (
        Select::All,
        b"",
        &[1, 2, 2, 2, 3, 0, 0, 0, 0, 0, 0, 0, 0, 0, 0, 0, 0, 0, 0, 0],
    ),
    (
        Select::All,
        b"a",
        &[
            1, 2, 2, 2, 3, 0, 1, 0, 0, 0, 0, 0, 0, 0, 0, 0, 1, 0, 0, 0, 97, 0, 1, 0,
        ],
    ),
    (
        Select::All,
        b"aa",
        &[
            1, 2, 2, 2, 3, 0, 2, 0, 0, 0, 0, 0, 0, 1, 0, 1, 1, 0, 0, 0, 0, 1, 0, 0, 97, 1, 1, 0,
        ],
    ),
    (
        Select::All,
        b"aaa",
        &[
            1, 2, 2, 2, 3, 0, 3, 0, 0, 0, 0, 0, 1, 1, 1, 2, 1, 0, 0, 0, 0, 1, 0, 0, 1, 1, 0, 0, 97,
            2, 1, 0,
        ],
    ),
    (
        Select::All,
        b"\xc3",
        &[1, 2, 2, 2, 3, 0, 1, 0, 0, 1, 195, 0, 0, 0, 0, 0, 0, 0, 0, 0],
    ),
    (
        Select::All,
        b"\xc3\xa9",
        &[
            1, 2, 2, 2, 3, 0, 2, 0, 0, 0, 0, 0, 0, 0, 0, 0, 1, 1, 0, 0, 101, 0, 1, 0, 769, 0, 0, 0,
        ],
    ),
    (
        Select::All,
        b"\xff",
        &[1, 2, 2, 2, 3, 0, 0, 31, 0, 0, 0, 0, 0, 0, 0, 0, 0, 0, 0, 0],
    ),
    (
        Select::Chain,
        b"aaaa",
        &[
            2, 2, 2, 2, 3, 0, 4, 0, 0, 0, 0, 0, 2, 1, 1, 2, 1, 0, 0, 0, 2, 0, 0, 0, 1, 1, 0, 0, 2,
            1, 0, 0, 97, 3, 1, 0,
        ],
    ),
    (
        Select::Chain,
        b"\xff",
        &[
            2, 2, 2, 2, 3, 0, 0, 31, 0, 0, 0, 0, 0, 0, 0, 0, 0, 0, 0, 0, 0, 0, 0, 0,
        ],
    ),
];

/// Compares the words of a state.
fn compare_state(rt: &impl Abort, alloc: Global, query: &Query<'_, Table>, row: &State<'_>) {
    let (_select, bytes, want) = *row;
    words_are(rt, &state_after(rt, alloc, query, bytes), want);
}

#[test]
fn worked_states(rt: HostRuntime) {
    let table = read(&rt, rt.alloc(), TABLE);
    let pattern = compile(&rt, rt.alloc(), &table, "aa", THREE, KEPT);
    for row in &STATES {
        let query = query_for(&table, &pattern, row.0);
        compare_state(&rt, rt.alloc(), &query, row);
    }
}

/// Compares the sixth and the twelfth word of the state after some bytes.
fn compare_shifted(
    rt: &impl Abort,
    alloc: Global,
    query: &Query<'_, Table>,
    bytes: &[u8],
    after_variable: u64,
) {
    let words = state_after(rt, alloc, query, bytes);
    let two = (words.get(5).copied(), words.get(11).copied());
    same(rt, &two, &(Some(1), Some(after_variable)));
}

/// The sixth word says that the weighting is shifted, the twelfth that a variable element was cut and no letter after it.
#[test]
fn shifted_states(rt: HostRuntime) {
    let table = read(&rt, rt.alloc(), TABLE);
    let pattern = compile(&rt, rt.alloc(), &table, "aa", THREE, SHIFTED);
    let query = for_all(&table, &pattern);
    compare_shifted(&rt, rt.alloc(), &query, b" ab", 0);
    compare_shifted(&rt, rt.alloc(), &query, b"a b", 1);
}

const BAD: TextFault = TextFault {
    kind: 31,
    offset: 0,
};

/// Which matches are selected, the bytes before a state and those after it, the ranges that are then handed out, and the fault.
type Resumed<'a> = (Select, &'a [u8], &'a [u8], &'a [Range], Option<TextFault>);

const RESUMED: [Resumed; 11] = [
    (Select::All, b"aaa", b"", &[(0, 2), (1, 3)], None),
    (Select::All, b"aa", b"a", &[(0, 2), (1, 3)], None),
    (Select::All, b"a", b"a", &[(0, 2)], None),
    (Select::All, b"\xc3", b"\xa9", &[], None),
    (Select::All, b"\xc3", b"", &[], Some(BAD)),
    (Select::All, b"\xc3\xa9", b"\xcc\x81aa", &[(4, 6)], None),
    (Select::All, b"\xff", b"aa", &[], Some(BAD)),
    (Select::Chain, b"aaaa", b"", &[(2, 4)], None),
    (Select::Chain, b"aaaa", b"a", &[(2, 4)], None),
    (Select::Chain, b"aaaa", b"aa", &[(2, 4), (4, 6)], None),
    (Select::Chain, b"\xff", b"aa", &[], Some(BAD)),
];

/// Compares what a search that is resumed from a state answers.
fn compare_resumed(rt: &impl Abort, alloc: Global, query: &Query<'_, Table>, row: &Resumed<'_>) {
    let (_select, before, after, ranges, fault) = *row;
    let words = state_after(rt, alloc, query, before);
    let rest = rest_after(rt, alloc, query, &words, after);
    answered_is(rt, &rest, ranges, fault, "resumed");
}

#[test]
fn worked_states_are_resumed(rt: HostRuntime) {
    let table = read(&rt, rt.alloc(), TABLE);
    let pattern = compile(&rt, rt.alloc(), &table, "aa", THREE, KEPT);
    for row in &RESUMED {
        let query = query_for(&table, &pattern, row.0);
        compare_resumed(&rt, rt.alloc(), &query, row);
    }
}

/// Compares what the calls of a search answer that has reported this fault.
fn compare_reported(rt: &impl Abort, alloc: Global, mut search: Search<'_, Table>, bad: TextFault) {
    let mut found = Found::new();
    answer_is(rt, step(&mut search, b'a', &mut found), Err(bad));
    fault_is(rt, reported(&search), Some(bad), "reported");
    let mut ranges = Vec::new(alloc);
    answer_is(rt, feed(rt, &mut search, b"aaaa", &mut ranges), Err(bad));
    ranges_are(rt, &ranges, &[], "fed");
    stop(search, &mut found);
    ranges_are(rt, found.as_slice(), &[], "stopped");
}

#[test]
fn reported_fault_is_resumed(rt: HostRuntime) {
    let table = read(&rt, rt.alloc(), TABLE);
    let pattern = compile(&rt, rt.alloc(), &table, "aa", THREE, KEPT);
    let query = for_all(&table, &pattern);
    let words = state_after(&rt, rt.alloc(), &query, b"\xff");
    let search = resume(&rt, rt.alloc(), &query, &words);
    compare_reported(&rt, rt.alloc(), search, BAD);
}

/// Steps on from the state of the most bytes.
fn step_from_the_most(rt: &impl Abort, alloc: Global, query: &Query<'_, Table>) {
    let mut words = state_after(rt, alloc, query, b"a");
    if let Some(place) = words.get_mut(6) {
        *place = 1 << 62;
    }
    let mut search = resume(rt, alloc, query, &words);
    let too_long = TextFault {
        kind: 34,
        offset: 4_611_686_018_427_387_904,
    };
    let mut found = Found::new();
    answer_is(rt, step(&mut search, b'a', &mut found), Err(too_long));
}

#[test]
fn text_of_the_most_bytes_goes_no_further(rt: HostRuntime) {
    let table = read(&rt, rt.alloc(), TABLE);
    let pattern = compile(&rt, rt.alloc(), &table, "aa", THREE, KEPT);
    step_from_the_most(&rt, rt.alloc(), &for_all(&table, &pattern));
}
