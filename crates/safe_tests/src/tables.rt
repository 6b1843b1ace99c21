//! Each table of some contractions of four letters: what is found in texts of these letters, beside the rule read letter by letter. A
//! letter is safe where it has a primary weight, is the second one of no contraction, and each that begins with it has a primary weight.

use crate::tests::same_at;
use collation_safe::{next_safe, previous_safe};
use collation_table::{Strings, Table};
use std::alloc::Global;
use std::process::Abort;

/// The rows of the letters: `d` has no primary weight. `e` has no row.
const LETTERS: &str = "@version 0.0.0
0061 ; [.1C00.0020.0002]
0062 ; [.1C10.0020.0002]
0063 ; [.1C20.0020.0002]
0064 ; [.0000.0024.0002]
";

/// Contractions: the letters, and the line.
const CONTRACTIONS: [(u8, u8, &str); 8] = [
    (b'a', b'b', "0061 0062 ; [.1C08.0020.0002]\n"),
    (b'b', b'a', "0062 0061 ; [.1C18.0020.0002]\n"),
    (b'b', b'c', "0062 0063 ; [.1C19.0020.0002]\n"),
    (b'c', b'c', "0063 0063 ; [.1C28.0020.0002]\n"),
    (b'c', b'a', "0063 0061 ; [.1C29.0020.0002]\n"),
    (b'a', b'd', "0061 0064 ; [.1C0A.0020.0002]\n"),
    (b'c', b'b', "0063 0062 ; [.0000.0025.0002]\n"),
    (b'd', b'b', "0064 0062 ; [.1C30.0020.0002]\n"),
];

const TEXTS: [&[u8]; 5] = [
    b"abcdabcd",
    b"aabbccddabacadbabbbcbdcacbcccddadbdcdd",
    b"ebeceaebebaeb",
    b"bababcab\xffabab",
    b"dcccbcccd",
];

/// How many letters the long text has.
const LONG: usize = 200_000;

/// Whether the contraction of this bit is in the table.
fn has(bits: u32, bit: usize) -> bool {
    bits.wrapping_shr((bit % 32) as u32) & 1 == 1
}

/// The contraction without a primary weight.
const IGNORABLE: usize = 6;

/// Whether one of these contractions, one for each bit that is set, makes a letter unsafe.
fn is_unsafe(bits: u32, letter: u8) -> bool {
    for (bit, contraction) in CONTRACTIONS.iter().enumerate() {
        let (first, second, _line) = *contraction;
        if has(bits, bit) && (second == letter || bit == IGNORABLE && first == letter) {
            return true;
        }
    }
    false
}

/// Whether a byte is a letter that is safe.
fn is_safe(bits: u32, byte: u8) -> bool {
    byte < 0x80 && byte != b'd' && !is_unsafe(bits, byte)
}

/// The lines of the table of these contractions.
fn lines_of(rt: &impl Abort, alloc: Global, bits: u32) -> String {
    let mut lines = String::new(alloc);
    lines.push_str(LETTERS).expect(rt, "memory");
    for (bit, contraction) in CONTRACTIONS.iter().enumerate() {
        let (_first, _second, line) = *contraction;
        if has(bits, bit) {
            lines.push_str(line).expect(rt, "memory");
        }
    }
    lines
}

/// Goes over a text forth, and compares what is found next, and what is found back.
fn compare<W: Strings>(rt: &impl Abort, table: &W, bits: u32, text: &[u8]) {
    let mut last = None;
    for (at, byte) in text.iter().enumerate() {
        same_at(rt, &previous_safe(table, text, at), &last, at);
        let is_here = next_safe(table, text, at) == Some(at);
        same_at(rt, &is_here, &is_safe(bits, *byte), at);
        if is_here {
            last = Some(at);
        }
    }
    same_at(
        rt,
        &previous_safe(table, text, text.len()),
        &last,
        text.len(),
    );
}

#[test]
fn tables_of_contractions(rt: HostRuntime) {
    let alloc = rt.alloc();
    for bits in 0..256u32 {
        let lines = lines_of(&rt, alloc, bits);
        let table = Table::read(alloc, lines.as_bytes()).expect(&rt, "the table");
        for text in &TEXTS {
            compare(&rt, &table, bits, *text);
        }
    }
}

#[test]
fn no_safe_offset(rt: HostRuntime) {
    let alloc = rt.alloc();
    let lines = lines_of(&rt, alloc, 3);
    let table = Table::read(alloc, lines.as_bytes()).expect(&rt, "the table");
    let text = "ab".repeat(alloc, LONG).expect(&rt, "memory");
    let bytes = text.as_bytes();
    same_at(&rt, &next_safe(&table, bytes, 0), &None, 0);
    same_at(
        &rt,
        &previous_safe(&table, bytes, bytes.len()),
        &None,
        bytes.len(),
    );
}
