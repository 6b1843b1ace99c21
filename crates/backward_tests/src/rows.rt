//! Worked rows: what is told before some offsets of small texts, by either table.

use crate::asking::{
    Start, Told, begin, compile, ends_at_once, ill_formed, last_at_once, read, read_plain, same_at,
};
use collation_backward::TextFault;
use collation_elements::{Strength, Variable};
use collation_table::Strings;
use std::alloc::Global;
use std::process::Abort;

/// A pattern, a text, and what is told before offsets of it.
type Row<'a> = (&'a str, &'a [u8], &'a [(usize, Told)]);

const ROWS: [Row; 8] = [
    (
        "aa",
        b"aaa",
        &[
            (0, Ok(None)),
            (1, Ok(None)),
            (2, Ok(Some((0, 2)))),
            (3, Ok(Some((1, 3)))),
            (9, Ok(Some((1, 3)))),
        ],
    ),
    // a match before a fault is not met from behind the fault, one behind it is
    (
        "a",
        b"ab\xffba",
        &[
            (1, Ok(Some((0, 1)))),
            (2, Ok(Some((0, 1)))),
            (5, Ok(Some((4, 5)))),
        ],
    ),
    // a contraction is one letter
    ("h", b"hch", &[(3, Ok(Some((0, 1)))), (2, Ok(Some((0, 1))))]),
    // an accent belongs to the letter before it
    (
        "e",
        b"e\xcc\x81 e",
        &[(5, Ok(Some((4, 5)))), (4, Ok(None)), (1, Ok(None))],
    ),
    // the text has no fault, and ends within a vowel with its consonant
    (
        "\u{e40}\u{e01}",
        b"\xe0\xb9\x80\xe0\xb8\x81a",
        &[(7, Ok(Some((0, 6)))), (5, Ok(None))],
    ),
    // jamo and the syllable that they make
    (
        "\u{ac00}",
        b"\xea\xb0\x80a\xe1\x84\x80\xe1\x85\xa1",
        &[(10, Ok(Some((4, 10)))), (9, Ok(Some((0, 3))))],
    ),
    ("b", b"", &[(0, Ok(None)), (1, Ok(None))]),
    ("b", b"ba\xc3\xa9a", &[(5, Ok(Some((0, 1))))]),
];

/// The same where a fault is met.
const FAULTS: [(&str, &[u8], usize, u64); 4] = [
    // the end cuts a character
    ("a", b"ab\xe4\xb8", 4, 2),
    ("a", b"a\xffb", 3, 1),
    // the last of two faults
    ("a", b"a\xffb\xfebb", 6, 3),
    ("a", b"\xff", 1, 0),
];

/// A pattern, its strength, whether it is shifted, a text, and where the match starts that ends with the text.
type End<'a> = (&'a str, Strength, Variable, &'a [u8], Start);

const KEPT: Variable = Variable::NonIgnorable;

const ENDS: [End; 20] = [
    ("aa", Strength::Three, KEPT, b"aaa", Ok(Some(1))),
    ("ab", Strength::Three, KEPT, b"aba", Ok(None)),
    ("a", Strength::Three, KEPT, b"", Ok(None)),
    ("a", Strength::Three, KEPT, b"bb", Ok(None)),
    // an accent belongs to the match at strength one alone
    ("a", Strength::One, KEPT, b"baa\xcc\x81", Ok(Some(2))),
    ("a", Strength::Two, KEPT, b"baa\xcc\x81", Ok(None)),
    // what is ignorable belongs to it, though no minimal match ends there
    (
        "ab",
        Strength::Three,
        Variable::Shifted,
        b"cab - ",
        Ok(Some(1)),
    ),
    ("ab", Strength::Three, KEPT, b"cab-", Ok(None)),
    (
        "ab",
        Strength::Three,
        KEPT,
        b"cab\xc2\xad\xc2\xad",
        Ok(Some(1)),
    ),
    // a contraction is one letter
    ("c", Strength::Three, KEPT, b"ach", Ok(None)),
    ("h", Strength::Three, KEPT, b"ach", Ok(None)),
    ("ch", Strength::Three, KEPT, b"ach", Ok(Some(1))),
    // a fault that ends the text, one that cuts a character, and one in front of the match
    ("a", Strength::Three, KEPT, b"a\xff", Err(FIRST_FAULT)),
    ("a", Strength::Three, KEPT, b"a\xe4\xb8", Err(FIRST_FAULT)),
    ("a", Strength::Three, KEPT, b"a\xffba", Ok(Some(3))),
    // behind the fault is a match, and the text goes on behind it
    ("a", Strength::Three, KEPT, b"a\xffab", Ok(None)),
    // behind the fault stand more keys than the pattern has, as many, and none that is read by itself
    ("a", Strength::Three, KEPT, b"a\xffbb", Ok(None)),
    ("ab", Strength::Three, KEPT, b"a\xffbb", Err(FIRST_FAULT)),
    ("a", Strength::Three, KEPT, b"a\xffhh", Err(FIRST_FAULT)),
    // the first fault stands in front of the last one
    (
        "ab",
        Strength::Three,
        KEPT,
        b"\xffbb\xe4\xb8b",
        Err(LATER_FAULT),
    ),
];

/// An ill-formed sequence behind the first letter.
const FIRST_FAULT: TextFault = TextFault {
    kind: TextFault::ILL_FORMED,
    offset: 1,
};

/// One behind two letters and another fault.
const LATER_FAULT: TextFault = TextFault {
    kind: TextFault::ILL_FORMED,
    offset: 3,
};

fn compare<W: Strings>(rt: &impl Abort, alloc: Global, table: &W) {
    for row in &ROWS {
        let (letters, text, asked) = *row;
        let pattern = compile(
            rt,
            alloc,
            table,
            letters,
            Strength::Three,
            Variable::NonIgnorable,
        );
        let mut backward = begin(rt, alloc, table, &pattern);
        for (at, want) in asked {
            same_at(rt, &backward.last_before(text, *at), want, *at);
            same_at(
                rt,
                &last_at_once(alloc, table, &pattern, text, *at),
                want,
                *at,
            );
        }
    }
}

#[test]
fn rows(rt: HostRuntime) {
    let alloc = rt.alloc();
    compare(&rt, alloc, &read(&rt, alloc));
}

#[test]
fn ends(rt: HostRuntime) {
    let alloc = rt.alloc();
    let table = read(&rt, alloc);
    let mut row = 0usize;
    for end in &ENDS {
        let (letters, strength, variable, text, want) = *end;
        let pattern = compile(&rt, alloc, &table, letters, strength, variable);
        let mut backward = begin(&rt, alloc, &table, &pattern);
        same_at(&rt, &backward.ends(text), &want, row);
        same_at(
            &rt,
            &ends_at_once(alloc, &table, &pattern, text),
            &want,
            row,
        );
        row = row.saturating_add(1);
    }
}

/// Behind a bad byte letters, as many as the pattern has and more: what is told depends on no more than that.
#[test]
fn letters_behind_a_fault(rt: HostRuntime) {
    let alloc = rt.alloc();
    let table = read(&rt, alloc);
    let pattern = compile(
        &rt,
        alloc,
        &table,
        "a",
        Strength::Three,
        Variable::NonIgnorable,
    );
    let mut backward = begin(&rt, alloc, &table, &pattern);
    for (count, wanted) in [
        (1usize, Err(ill_formed(0))),
        (2, Ok(None)),
        (900, Ok(None)),
        (5_000, Ok(None)),
    ] {
        let mut text = Vec::new(alloc);
        let made = text.push(0xff).is_ok() && text.resize(count.saturating_add(1), b'b').is_ok();
        if made {
            same_at(&rt, &backward.ends(&text), &wanted, count);
        }
    }
}

#[test]
fn faults(rt: HostRuntime) {
    let alloc = rt.alloc();
    let table = read(&rt, alloc);
    for row in &FAULTS {
        let (letters, text, at, offset) = *row;
        let pattern = compile(
            &rt,
            alloc,
            &table,
            letters,
            Strength::Three,
            Variable::NonIgnorable,
        );
        let mut backward = begin(&rt, alloc, &table, &pattern);
        same_at(
            &rt,
            &backward.last_before(text, at),
            &Err(ill_formed(offset)),
            at,
        );
    }
}

#[test]
fn no_safe_offset(rt: HostRuntime) {
    let alloc = rt.alloc();
    let table = read_plain(&rt, alloc);
    let pattern = compile(
        &rt,
        alloc,
        &table,
        "aa",
        Strength::Three,
        Variable::NonIgnorable,
    );
    let mut backward = begin(&rt, alloc, &table, &pattern);
    same_at(&rt, &backward.last_before(b"aab", 3), &Ok(Some((0, 2))), 3);
    // behind the fault no place is known to begin from
    same_at(
        &rt,
        &backward.last_before(b"aa\xffaa", 5),
        &Err(ill_formed(2)),
        5,
    );
    same_at(&rt, &backward.ends(b"baa"), &Ok(Some(1)), 3);
    same_at(&rt, &backward.ends(b"aa\xffaa"), &Err(ill_formed(2)), 5);
}
