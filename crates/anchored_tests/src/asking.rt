//! What the tests share: the table, patterns, and what asks texts for them. Where memory is refused it is asked for again, so that each
//! allocation may be refused in turn.

use collation_anchored::{Anchored, TextFault};
use collation_elements::{Strength, Variable};
use collation_pattern::Pattern;
use collation_table::{PlainTable, Table, Weights};
use std::alloc::{AllocError, Global};
use std::fmt::Debug;
use std::process::Abort;

const TABLE: &str = "@version 0.0.0
0020 ; [*0201.0020.0002]
002D ; [*0202.0020.0002]
0061 ; [.1C00.0020.0002]
0041 ; [.1C00.0020.0008]
0062 ; [.1C10.0020.0002]
0063 ; [.1C20.0020.0002]
0063 0068 ; [.1C28.0020.0002]
0065 ; [.1C40.0020.0002]
0068 ; [.1C50.0020.0002]
006D ; [.1C60.0020.0002]
0072 ; [.1C70.0020.0002]
0073 ; [.1C80.0020.0002]
0075 ; [.1C90.0020.0002]
0301 ; [.0000.0024.0002]
00AD ; [.0000.0000.0000]
";

pub(crate) const KEPT: Variable = Variable::NonIgnorable;

pub(crate) const SHIFTED: Variable = Variable::Shifted;

pub(crate) const ONE: Strength = Strength::One;

pub(crate) const TWO: Strength = Strength::Two;

pub(crate) const THREE: Strength = Strength::Three;

pub(crate) const COMPOSED: &[u8] = b"r\xc3\xa9sum\xc3\xa9";

pub(crate) const DECOMPOSED: &[u8] = b"re\xcc\x81sume\xcc\x81";

/// Three jamo, which are the decomposition of a syllable.
pub(crate) const JAMO: &[u8] = b"\xe1\x84\x80\xe1\x85\xa1\xe1\x86\xa8";

/// The table of some lines, read again where memory was refused.
fn read_lines(rt: &impl Abort, alloc: Global, lines: &str) -> Table {
    match Table::read(alloc, lines.as_bytes()) {
        Ok(table) => table,
        Err(_refused) => Table::read(alloc, lines.as_bytes()).expect(rt, "the table"),
    }
}

/// The table of these lines.
pub(crate) fn read(rt: &impl Abort, alloc: Global) -> Table {
    read_lines(rt, alloc, TABLE)
}

/// A text so many times in a row, asked for again where memory was refused.
pub(crate) fn repeated(rt: &impl Abort, alloc: Global, text: &str, count: usize) -> String {
    match text.repeat(alloc, count) {
        Ok(all) => all,
        Err(_refused) => text.repeat(alloc, count).expect(rt, "memory"),
    }
}

/// These lines, and one that maps so many letters `b` in a row.
fn lines_with(alloc: Global, letters: &str) -> Result<String, AllocError> {
    let mut lines = String::new(alloc);
    lines.push_str(TABLE)?;
    lines.push_str(letters)?;
    lines.push_str("; [.1C18.0020.0002]\n")?;
    Ok(lines)
}

/// A table that also maps so many letters `b` in a row.
pub(crate) fn table_with(rt: &impl Abort, alloc: Global, count: usize) -> Table {
    let letters = repeated(rt, alloc, "0062 ", count);
    let lines = match lines_with(alloc, &letters) {
        Ok(lines) => lines,
        Err(_refused) => lines_with(alloc, &letters).expect(rt, "memory"),
    };
    read_lines(rt, alloc, &lines)
}

/// The same table, whose rows stand in an ordered map.
pub(crate) fn read_plain(rt: &impl Abort, alloc: Global) -> PlainTable {
    match PlainTable::read(alloc, TABLE.as_bytes()) {
        Ok(table) => table,
        Err(_refused) => PlainTable::read(alloc, TABLE.as_bytes()).expect(rt, "the plain table"),
    }
}

/// The pattern of these letters, compiled again where memory was refused.
pub(crate) fn compile<W: Weights>(
    rt: &impl Abort,
    alloc: Global,
    table: &W,
    letters: &str,
    strength: Strength,
    variable: Variable,
) -> Pattern {
    match Pattern::compile(alloc, table, letters, strength, variable) {
        Ok(pattern) => pattern,
        Err(_refused) => Pattern::compile(alloc, table, letters, strength, variable).expect(
            rt,
            "the pattern",
        ),
    }
}

/// Two values are the same. A proof goes through what a comparison prints once, for any type.
pub(crate) fn same_at<T: PartialEq + Debug, A: Debug>(rt: &impl Abort, got: &T, want: &T, row: &A) {
    assert_eq!(rt; *got, *want, "{row:?}");
}

/// What asks texts for this pattern, asked for again where memory was refused.
pub(crate) fn begin<'a, W: Weights>(
    rt: &impl Abort,
    alloc: Global,
    table: &'a W,
    pattern: &'a Pattern,
) -> Anchored<'a, W> {
    match Anchored::new(alloc, table, pattern) {
        Ok(anchored) => anchored,
        Err(_refused) => Anchored::new(alloc, table, pattern).expect(rt, "memory"),
    }
}

/// An ill-formed sequence, or one that the end cuts, at this offset.
pub(crate) fn ill_formed(offset: u64) -> TextFault {
    TextFault {
        kind: TextFault::ILL_FORMED,
        offset,
    }
}
