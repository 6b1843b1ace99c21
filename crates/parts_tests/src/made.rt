//! Made texts, cut at safe offsets: their parts together have the ranges and the fault of the whole.

use crate::asking::{
    Bytes, Ranges, begin, compile, ranges_are, read, read_paired, read_plain, same_at, search_one,
    search_whole,
};
use collation_elements::{Strength, Variable};
use collation_safe::next_safe;
use collation_search::{Search, Select, TextFault};
use collation_table::Strings;
use std::alloc::Global;
use std::process::Abort;

/// What texts are made of: letters, contractions and their front, marks, what is ignorable or variable, a syllable, its jamo.
const SPELLED: [&[u8]; 16] = [
    b"a",
    b"b",
    b"a",
    b"c",
    b"h",
    b"ch",
    b"e",
    b"\xcc\x81",
    b"\xcc\xa7",
    b"a\xcc\xa7\xcc\x81",
    b" ",
    b"-",
    b"\xc2\xad",
    b"\xc3\xa9",
    b"\xea\xb0\x81",
    b"\xe1\x84\x80",
];

/// What is at fault: a byte that begins no character, a character that is cut.
const BAD: [&[u8]; 2] = [b"\xff", b"\xe1\x84"];

/// A strength, a weighting, and a pattern.
type Sought<'a> = (Strength, Variable, &'a str);

const PATTERNS: [Sought; 8] = [
    (Strength::Three, Variable::NonIgnorable, "a"),
    (Strength::Three, Variable::NonIgnorable, "aba"),
    (Strength::One, Variable::NonIgnorable, "aa"),
    (Strength::One, Variable::Shifted, "ab"),
    (Strength::Three, Variable::Shifted, "aca"),
    (Strength::Two, Variable::NonIgnorable, "\u{e9}"),
    (Strength::Three, Variable::NonIgnorable, "ch"),
    (Strength::One, Variable::Shifted, "aaba"),
];

/// How many texts each pattern is sought in.
const TEXTS: u64 = 48;

/// The next of some numbers that repeat late.
fn next(seed: &mut u64) -> usize {
    *seed = seed
        .wrapping_mul(6_364_136_223_846_793_005)
        .wrapping_add(1_442_695_040_888_963_407);
    (*seed / (1 << 33)) as usize
}

/// Puts bytes behind others, as far as there is room.
fn put(text: &mut Bytes, bytes: &[u8]) {
    for byte in bytes {
        let _full = text.try_push(*byte);
    }
}

/// A text of up to 90 of these, of which every fourth one has a fault somewhere.
fn make(seed: &mut u64, text: &mut Bytes) {
    text.clear();
    let count = next(seed) % 91;
    let bad = next(seed) % 360;
    for at in 0..count {
        if at == bad {
            put(text, BAD[next(seed) % 2]);
        }
        put(text, SPELLED[next(seed) % 16]);
    }
}

/// Searches parts that begin at safe offsets, up to the first that has a fault, and puts their ranges one behind another. It answers how
/// many parts there were too.
fn search_parts<W: Strings>(
    search: &mut Search<'_, W>,
    table: &W,
    text: &[u8],
    seed: &mut u64,
    ranges: &mut Ranges,
) -> (Result<(), TextFault>, usize) {
    let mut from = 0usize;
    for count in 1..9usize {
        let next_from = from.saturating_add(next(seed) % 40);
        let to = match next_safe(table, text, next_from) {
            Some(to) if count < 8 => to,
            _ => text.len(),
        };
        let ended = search_one(search, text, from, to, ranges);
        if ended.is_err() || to >= text.len() {
            return (ended, count);
        }
        from = to;
    }
    (Ok(()), 0)
}

/// Compares parts with the whole, over some texts. It answers how many parts there were.
fn compare<W: Strings>(
    rt: &impl Abort,
    alloc: Global,
    table: &W,
    sought: &Sought<'_>,
    seed: &mut u64,
) -> usize {
    let (strength, variable, letters) = *sought;
    let pattern = compile(rt, alloc, table, letters, strength, variable);
    let mut whole = begin(rt, alloc, table, &pattern, Select::All);
    let mut parts = begin(rt, alloc, table, &pattern, Select::All);
    let mut text = Bytes::new();
    let mut total = 0usize;
    for _turn in 0..TEXTS {
        make(seed, &mut text);
        let mut want = Ranges::new();
        let fault = search_whole(&mut whole, text.as_slice(), &mut want);
        let mut got = Ranges::new();
        let (ended, count) = search_parts(&mut parts, table, text.as_slice(), seed, &mut got);
        ranges_are(rt, got.as_slice(), want.as_slice(), &text.as_slice());
        same_at(rt, &ended.err(), &fault.err(), &text.as_slice());
        total = total.saturating_add(count);
    }
    total
}

/// Compares parts with the whole for each pattern. It answers how many parts there were.
fn compare_all<W: Strings>(rt: &impl Abort, alloc: Global, table: &W) -> usize {
    let mut seed = 20_261_129u64;
    let mut parts = 0usize;
    for sought in &PATTERNS {
        parts = parts.saturating_add(compare(rt, alloc, table, sought, &mut seed));
    }
    parts
}

#[test]
fn parts_of_made_texts(rt: HostRuntime) {
    let alloc = rt.alloc();
    let parts = compare_all(&rt, alloc, &read(&rt, alloc));
    same_at(&rt, &(parts > 800), &true, &parts);
}

#[test]
fn parts_by_a_plain_table(rt: HostRuntime) {
    let alloc = rt.alloc();
    let parts = compare_all(&rt, alloc, &read_plain(&rt, alloc));
    same_at(&rt, &(parts > 800), &true, &parts);
}

#[test]
fn one_part_without_safe_offsets(rt: HostRuntime) {
    let alloc = rt.alloc();
    let parts = compare_all(&rt, alloc, &read_paired(&rt, alloc));
    same_at(
        &rt,
        &parts,
        &(PATTERNS.len().saturating_mul(TEXTS as usize)),
        &parts,
    );
}
