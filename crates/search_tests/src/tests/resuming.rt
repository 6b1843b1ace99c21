//! Searches that are saved, dropped and resumed: which words are refused, which other words are taken without harm, and how many records
//! a state has. Each letter of a million is in `long_texts.rt`.

use super::answers::state_after;
use super::calls::{Query, compile, feed, finish, in_pieces, query_for, read, try_resume};
use super::checks::{count_is, fault_is, holds, kind_is, ranges_are};
use super::{KEPT, Range, TABLE, THREE};
use collation_pattern::Pattern;
use collation_search::{Found, Search, Select, TextFault};
use collation_table::Table;
use std::alloc::Global;
use std::process::Abort;

/// Texts that leave states: nothing, letters, a byte that begins a character, a letter whose accent waits, and a fault.
const WORKED: [&[u8]; 7] = [b"", b"a", b"aa", b"aaa", b"\xc3", b"\xc3\xa9", b"\xff"];

/// The kind of the fault of words that are resumed.
fn kind_of(alloc: Global, query: &Query<'_, Table>, words: &[u64]) -> Option<u8> {
    try_resume(alloc, query, words)
        .err()
        .map(|fault| fault.kind)
}

/// Compares that the state after some bytes is taken for the search that it is of, and refused for the other one.
fn compare_forms(
    rt: &impl Abort,
    alloc: Global,
    saved: &Query<'_, Table>,
    other: &Query<'_, Table>,
    bytes: &[u8],
) {
    let words = state_after(rt, alloc, saved, bytes);
    kind_is(rt, kind_of(alloc, saved, &words), None);
    kind_is(rt, kind_of(alloc, other, &words), Some(51));
}

#[test]
fn states_of_the_other_form_are_refused(rt: HostRuntime) {
    let table = read(&rt, rt.alloc(), TABLE);
    let pattern = compile(&rt, rt.alloc(), &table, "aa", THREE, KEPT);
    let all = query_for(&table, &pattern, Select::All);
    let chain = query_for(&table, &pattern, Select::Chain);
    for bytes in &WORKED {
        compare_forms(&rt, rt.alloc(), &all, &chain, *bytes);
        compare_forms(&rt, rt.alloc(), &chain, &all, *bytes);
    }
}

/// Which matches are selected, the bytes before a state, which of its words is changed, to what, and the kind of the fault.
type Changed<'a> = (Select, &'a [u8], usize, u64, Option<u8>);

const CHANGED: [Changed; 22] = [
    (Select::All, b"a", 0, 2, Some(51)),
    (Select::All, b"a", 1, 3, Some(52)),
    (Select::All, b"a", 4, 4, Some(52)),
    (Select::All, b"a", 6, (1 << 62) + 1, Some(51)),
    (Select::All, b"a", 6, 1 << 62, None),
    (Select::All, b"a", 7, 31, Some(51)),
    (Select::All, b"a", 16, 2, Some(51)),
    (Select::All, b"a", 20, 769, Some(51)),
    (Select::All, b"a", 20, 55_296, Some(51)),
    (Select::All, b"a", 20, 98, None),
    (Select::All, b"a", 20, 836, None),
    (Select::All, b"a", 21, 1, Some(51)),
    (Select::All, b"a", 23, 1, Some(51)),
    (Select::Chain, b"aaaa", 0, 1, Some(51)),
    (Select::Chain, b"aaaa", 0, 2, None),
    (Select::Chain, b"aaaa", 1, 3, Some(52)),
    (Select::Chain, b"aaaa", 20, 3, Some(51)),
    (Select::Chain, b"aaaa", 21, 1, Some(51)),
    (Select::Chain, b"aaaa", 22, 1, Some(51)),
    (Select::Chain, b"aaaa", 23, 1, Some(51)),
    (Select::Chain, b"\xff", 20, 0, None),
    (Select::Chain, b"\xff", 20, 1, Some(51)),
];

/// Compares the fault of a state with one word changed.
fn compare_changed(rt: &impl Abort, alloc: Global, query: &Query<'_, Table>, row: &Changed<'_>) {
    let (_select, bytes, at, word, kind) = *row;
    let mut words = state_after(rt, alloc, query, bytes);
    if let Some(place) = words.get_mut(at) {
        *place = word;
    }
    kind_is(rt, kind_of(alloc, query, &words), kind);
}

/// States with one word changed.
#[test]
fn changed_states_are_refused(rt: HostRuntime) {
    let table = read(&rt, rt.alloc(), TABLE);
    let pattern = compile(&rt, rt.alloc(), &table, "aa", THREE, KEPT);
    for row in &CHANGED {
        let query = query_for(&table, &pattern, row.0);
        compare_changed(&rt, rt.alloc(), &query, row);
    }
}

/// Compares how many words the state after some bytes has, and that its first words are refused.
fn compare_shortened(
    rt: &impl Abort,
    alloc: Global,
    query: &Query<'_, Table>,
    bytes: &[u8],
    len: usize,
    short: usize,
) {
    let words = state_after(rt, alloc, query, bytes);
    count_is(rt, words.len(), len);
    let words = words.get(0..short).expect(rt, "words");
    kind_is(rt, kind_of(alloc, query, words), Some(51));
}

/// The last word of a state left out, and the record of the last range's end.
#[test]
fn shortened_states_are_refused(rt: HostRuntime) {
    let table = read(&rt, rt.alloc(), TABLE);
    let pattern = compile(&rt, rt.alloc(), &table, "aa", THREE, KEPT);
    let all = query_for(&table, &pattern, Select::All);
    compare_shortened(&rt, rt.alloc(), &all, b"a", 24, 23);
    let chain = query_for(&table, &pattern, Select::Chain);
    compare_shortened(&rt, rt.alloc(), &chain, b"", 24, 20);
}

/// Takes more bytes and ends: a fault of the bytes is answered again at the end.
fn go_on(rt: &impl Abort, alloc: Global, mut search: Search<'_, Table>) {
    let mut ranges = Vec::new(alloc);
    let mut found = Found::new();
    let fed = feed(rt, &mut search, b"aaa", &mut ranges);
    let ended = finish(search, &mut found);
    holds(rt, fed.is_ok() || ended == fed, &fed);
}

/// Resumes words that may be no state: a fault, or a search that takes more bytes and ends. Whether they are taken.
fn is_taken(rt: &impl Abort, alloc: Global, query: &Query<'_, Table>, words: &[u64]) -> bool {
    match try_resume(alloc, query, words) {
        Ok(search) => {
            go_on(rt, alloc, search);
            true
        }
        Err(fault) => {
            holds(rt, fault.kind == 51 || fault.kind == 52, &fault.kind);
            false
        }
    }
}

/// Whether a state is taken where one of its words is changed to this one.
fn is_taken_with(
    rt: &impl Abort,
    alloc: Global,
    query: &Query<'_, Table>,
    words: &[u64],
    at: usize,
    change: u64,
) -> bool {
    let mut changed = words.to_owned(alloc).expect(rt, "memory");
    if let Some(place) = changed.get_mut(at) {
        *place = change;
    }
    is_taken(rt, alloc, query, &changed)
}

/// How many states are refused, and how many are taken.
#[derive(Clone, Copy)]
struct Counts {
    refused: u32,
    taken: u32,
}

impl Counts {
    fn count(&mut self, is_taken: bool) {
        if is_taken {
            self.taken = self.taken.saturating_add(1);
        } else {
            self.refused = self.refused.saturating_add(1);
        }
    }
}

/// Counts each word of the state after a text, changed to small and great numbers.
fn change_words(
    rt: &impl Abort,
    alloc: Global,
    query: &Query<'_, Table>,
    text: &[u8],
    counts: &mut Counts,
) {
    let words = state_after(rt, alloc, query, text);
    for (at, word) in words.iter().enumerate() {
        for change in [0, 1, word.saturating_add(1), u64::MAX] {
            counts.count(is_taken_with(rt, alloc, query, &words, at, change));
        }
    }
}

/// Compares that of changed states after these texts more than so many are refused, and more than so many taken.
fn compare_counts(
    rt: &impl Abort,
    alloc: Global,
    query: &Query<'_, Table>,
    texts: &[&[u8]],
    least: Counts,
) {
    let mut counts = Counts {
        refused: 0,
        taken: 0,
    };
    for text in texts {
        change_words(rt, alloc, query, *text, &mut counts);
    }
    let are_more = counts.refused > least.refused && counts.taken > least.taken;
    holds(rt, are_more, &(counts.refused, counts.taken));
}

#[test]
fn any_changed_word_is_taken_without_harm(rt: HostRuntime) {
    let table = read(&rt, rt.alloc(), TABLE);
    let pattern = compile(&rt, rt.alloc(), &table, "aa", THREE, KEPT);
    let all = query_for(&table, &pattern, Select::All);
    let chain = query_for(&table, &pattern, Select::Chain);
    let many = Counts {
        refused: 400,
        taken: 100,
    };
    let few = Counts {
        refused: 50,
        taken: 10,
    };
    compare_counts(&rt, rt.alloc(), &all, &WORKED, many);
    compare_counts(&rt, rt.alloc(), &chain, &WORKED, many);
    compare_counts(&rt, rt.alloc(), &chain, &[b"aaaa"], few);
}

/// Which matches are selected, the pieces of a text, the ranges, the fault, and how many records the greatest state between two has.
type Pieces<'a> = (
    Select,
    &'a [&'a [u8]],
    &'a [Range],
    Option<TextFault>,
    usize,
);

const CUT: TextFault = TextFault {
    kind: 31,
    offset: 3,
};

const BAD: TextFault = TextFault {
    kind: 31,
    offset: 5,
};

const PAIRS: [Range; 2] = [(0, 2), (2, 4)];

const BOTH: [Range; 2] = [(0, 2), (1, 3)];

const PIECES: [Pieces; 7] = [
    (Select::All, &[], &[], None, 0),
    (Select::All, &[b"aaa"], &BOTH, None, 8),
    (
        Select::All,
        &[b"a", b"", b"a", b"ae\xcc", b"\x81"],
        &BOTH,
        None,
        9,
    ),
    (
        Select::All,
        &[b"aaa\xc3", b"\xc3a", b"aa"],
        &[(0, 2)],
        Some(CUT),
        8,
    ),
    (Select::Chain, &[b"aa", b"a"], &[(0, 2)], None, 9),
    (Select::Chain, &[b"aa", b"aa"], &PAIRS, None, 9),
    (Select::Chain, &[b"aa", b"aaa\xff"], &PAIRS, Some(BAD), 8),
];

/// Compares what a search in pieces answers.
fn compare_pieces(
    rt: &impl Abort,
    alloc: Global,
    table: &Table,
    pattern: &Pattern,
    row: &Pieces<'_>,
) {
    let (select, pieces, want, fault, most_records) = *row;
    let query = query_for(table, pattern, select);
    let (ranges, told) = in_pieces(rt, alloc, &query, pieces);
    ranges_are(rt, &ranges, want, "in pieces");
    fault_is(rt, told.fault, fault, "in pieces");
    count_is(rt, told.most_records, most_records);
}

#[test]
fn searches_in_pieces(rt: HostRuntime) {
    let table = read(&rt, rt.alloc(), TABLE);
    let pattern = compile(&rt, rt.alloc(), &table, "aa", THREE, KEPT);
    for row in &PIECES {
        compare_pieces(&rt, rt.alloc(), &table, &pattern, row);
    }
}
