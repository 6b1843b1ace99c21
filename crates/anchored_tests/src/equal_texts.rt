//! Whole texts that are matches: worked rows, asked one after the other of one value, and each by itself, by either table.

use crate::asking::{
    COMPOSED, DECOMPOSED, JAMO, KEPT, ONE, SHIFTED, THREE, TWO, begin, compile, ill_formed, read,
    read_plain, same_at,
};
use collation_anchored::{Anchored, TextFault, equal};
use collation_elements::{Strength, Variable};
use collation_pattern::Pattern;
use collation_table::Weights;
use std::alloc::Global;
use std::process::Abort;

/// A text, and whether it is equal, or at which offset an ill-formed sequence stands, or one that the end cuts.
type Asked<'a> = (&'a [u8], Result<bool, u64>);

/// A strength, a weighting, a pattern, and what is asked of it.
type Row<'a> = (Strength, Variable, &'a str, &'a [Asked<'a>]);

const ACCENTS: [Row; 4] = [
    (
        ONE,
        KEPT,
        "resume",
        &[
            (COMPOSED, Ok(true)),
            (DECOMPOSED, Ok(true)),
            (b"resumes", Ok(false)),
            (b"resum", Ok(false)),
        ],
    ),
    (
        TWO,
        KEPT,
        "resume",
        &[(COMPOSED, Ok(false)), (b"resume", Ok(true))],
    ),
    (
        THREE,
        KEPT,
        "r\u{e9}sum\u{e9}",
        &[(DECOMPOSED, Ok(true)), (b"resume", Ok(false))],
    ),
    (
        ONE,
        KEPT,
        "a",
        &[
            (b"\xcc\x81a", Ok(true)),
            (b"A\xcc\x81", Ok(true)),
            (b"", Ok(false)),
            (b"\xcc\x81", Ok(false)),
        ],
    ),
];

const OTHERS: [Row; 4] = [
    (
        THREE,
        KEPT,
        "c",
        &[(b"ch", Ok(false)), (b"c\xc2\xad", Ok(true))],
    ),
    (
        THREE,
        SHIFTED,
        "ab",
        &[(b"-a - b ", Ok(true)), (b"a-", Ok(false))],
    ),
    (
        THREE,
        KEPT,
        "\u{ac01}",
        &[(JAMO, Ok(true)), (b"\xe1\x84\x80", Ok(false))],
    ),
    (
        THREE,
        KEPT,
        "ab",
        &[
            (b"a\xff", Err(1)),
            (b"ab\xc3", Err(2)),
            (b"b\xff", Ok(false)),
            (b"aba\xff", Ok(false)),
        ],
    ),
];

/// Whether a text is equal, by a value that was made before.
fn equals<W: Weights>(anchored: &mut Anchored<'_, W>, text: &[u8]) -> Result<bool, TextFault> {
    anchored.equals(text)
}

/// Whether a text is equal, asked for again where memory was refused.
fn equal_again<W: Weights>(
    alloc: Global,
    table: &W,
    pattern: &Pattern,
    text: &[u8],
) -> Result<bool, TextFault> {
    match equal(alloc, table, pattern, text) {
        Err(fault) if fault.kind == TextFault::NO_MEMORY => equal(alloc, table, pattern, text),
        answer => answer,
    }
}

/// What is answered of a text that is equal or not, or has its first fault at this offset.
fn answer_of(is_equal: Result<bool, u64>) -> Result<bool, TextFault> {
    match is_equal {
        Ok(is_so) => Ok(is_so),
        Err(offset) => Err(ill_formed(offset)),
    }
}

/// Compares what is answered of a row, of each text twice.
fn compare<W: Weights>(rt: &impl Abort, alloc: Global, table: &W, row: &Row<'_>) {
    let (strength, variable, letters, asked) = *row;
    let pattern = compile(rt, alloc, table, letters, strength, variable);
    let mut anchored = begin(rt, alloc, table, &pattern);
    for one in asked {
        let (text, is_equal) = *one;
        let want = answer_of(is_equal);
        same_at(rt, &equals(&mut anchored, text), &want, &letters);
        same_at(
            rt,
            &equal_again(alloc, table, &pattern, text),
            &want,
            &letters,
        );
    }
}

/// Compares each of some rows.
fn compare_each<W: Weights>(rt: &impl Abort, alloc: Global, table: &W, rows: &[Row<'_>]) {
    for row in rows {
        compare(rt, alloc, table, row);
    }
}

/// Compares each of some rows, by either table.
fn compare_all(rt: &impl Abort, alloc: Global, rows: &[Row<'_>]) {
    compare_each(rt, alloc, &read(rt, alloc), rows);
    compare_each(rt, alloc, &read_plain(rt, alloc), rows);
}

#[test]
fn equal_accents(rt: HostRuntime) {
    compare_all(&rt, rt.alloc(), &ACCENTS);
}

#[test]
fn equal_texts(rt: HostRuntime) {
    compare_all(&rt, rt.alloc(), &OTHERS);
}
