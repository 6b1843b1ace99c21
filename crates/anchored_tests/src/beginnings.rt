//! Matches that begin where a text begins: worked rows, asked one after the other of one value, and each by itself, by either table.

use crate::asking::{
    COMPOSED, DECOMPOSED, JAMO, KEPT, ONE, SHIFTED, THREE, TWO, begin, compile, ill_formed, read,
    read_plain, same_at,
};
use collation_anchored::{Anchored, TextFault, begins};
use collation_elements::{Strength, Variable};
use collation_pattern::Pattern;
use collation_table::Weights;
use std::alloc::Global;
use std::process::Abort;

/// A text, and where the least match ends that begins with it, or at which offset an ill-formed sequence stands, or one that the end cuts.
type Asked<'a> = (&'a [u8], Result<Option<u64>, u64>);

/// A strength, a weighting, a pattern, and what is asked of it.
type Row<'a> = (Strength, Variable, &'a str, &'a [Asked<'a>]);

const ACCENTS: [Row; 5] = [
    (
        ONE,
        KEPT,
        "resume",
        &[
            (COMPOSED, Ok(Some(8))),
            (DECOMPOSED, Ok(Some(10))),
            (b"r\xc3\xa9sum\xc3\xa9s", Ok(Some(8))),
            (b"resumes", Ok(Some(6))),
            (b"resum", Ok(None)),
            (b"a resume", Ok(None)),
        ],
    ),
    (
        TWO,
        KEPT,
        "resume",
        &[(COMPOSED, Ok(None)), (b"resume", Ok(Some(6)))],
    ),
    (
        THREE,
        KEPT,
        "r\u{e9}sum\u{e9}",
        &[(DECOMPOSED, Ok(Some(10))), (b"resume", Ok(None))],
    ),
    (
        ONE,
        KEPT,
        "a",
        &[
            (b"\xcc\x81a", Ok(Some(3))),
            (b"\xcc\x81ab", Ok(Some(3))),
            (b"A\xcc\x81b", Ok(Some(3))),
            (b"ba", Ok(None)),
            (b"", Ok(None)),
            (b"\xcc\x81", Ok(None)),
        ],
    ),
    (
        TWO,
        KEPT,
        "a",
        &[(b"\xcc\x81a", Ok(None)), (b"a\xcc\x81", Ok(None))],
    ),
];

const OTHERS: [Row; 6] = [
    (
        THREE,
        KEPT,
        "c",
        &[
            (b"ch", Ok(None)),
            (b"cah", Ok(Some(1))),
            (b"c\xc2\xada", Ok(Some(3))),
        ],
    ),
    (
        THREE,
        KEPT,
        "ch",
        &[(b"cha", Ok(Some(2))), (b"ca", Ok(None))],
    ),
    (
        THREE,
        SHIFTED,
        "ab",
        &[
            (b"-a - b c", Ok(Some(6))),
            (b"ab - -", Ok(Some(2))),
            (b"a-", Ok(None)),
            (b"ab-\xff", Ok(Some(2))),
        ],
    ),
    (
        THREE,
        KEPT,
        "\u{ac00}",
        &[(JAMO, Ok(Some(6))), (b"\xea\xb0\x81", Ok(None))],
    ),
    (
        THREE,
        KEPT,
        "aa",
        &[(b"aaa", Ok(Some(2))), (b"a", Ok(None))],
    ),
    (
        THREE,
        KEPT,
        "ab",
        &[
            (b"a\xff", Err(1)),
            (b"ab\xff", Err(2)),
            (b"ab\xc3", Err(2)),
            (b"aba\xff", Ok(Some(2))),
            (b"b\xff", Ok(None)),
        ],
    ),
];

/// Where the least match ends that begins with a text, by a value that was made before.
fn begins_so<W: Weights>(
    anchored: &mut Anchored<'_, W>,
    text: &[u8],
) -> Result<Option<u64>, TextFault> {
    anchored.begins(text)
}

/// The same by itself, asked for again where memory was refused.
fn begins_again<W: Weights>(
    alloc: Global,
    table: &W,
    pattern: &Pattern,
    text: &[u8],
) -> Result<Option<u64>, TextFault> {
    match begins(alloc, table, pattern, text) {
        Err(fault) if fault.kind == TextFault::NO_MEMORY => begins(alloc, table, pattern, text),
        answer => answer,
    }
}

/// What is answered of a text with which a match begins or none, or which has its first fault at this offset.
fn answer_of(end: Result<Option<u64>, u64>) -> Result<Option<u64>, TextFault> {
    match end {
        Ok(end) => Ok(end),
        Err(offset) => Err(ill_formed(offset)),
    }
}

/// Compares what is answered of a row, of each text twice.
fn compare<W: Weights>(rt: &impl Abort, alloc: Global, table: &W, row: &Row<'_>) {
    let (strength, variable, letters, asked) = *row;
    let pattern = compile(rt, alloc, table, letters, strength, variable);
    let mut anchored = begin(rt, alloc, table, &pattern);
    for one in asked {
        let (text, end) = *one;
        let want = answer_of(end);
        same_at(rt, &begins_so(&mut anchored, text), &want, &letters);
        same_at(
            rt,
            &begins_again(alloc, table, &pattern, text),
            &want,
            &letters,
        );
    }
}

/// Compares each of some rows.
fn compare_each<W: Weights>(rt: &impl Abort, alloc: Global, table: &W, rows: &[Row<'_>]) {
    for row in rows {
        compare(rt, alloc, table, row);
    }
}

/// Compares each of some rows, by either table.
fn compare_all(rt: &impl Abort, alloc: Global, rows: &[Row<'_>]) {
    compare_each(rt, alloc, &read(rt, alloc), rows);
    compare_each(rt, alloc, &read_plain(rt, alloc), rows);
}

#[test]
fn begins_with_accents(rt: HostRuntime) {
    compare_all(&rt, rt.alloc(), &ACCENTS);
}

#[test]
fn begins_with_others(rt: HostRuntime) {
    compare_all(&rt, rt.alloc(), &OTHERS);
}
