//! What the tests share: the table, patterns, and what goes back through texts. Where memory is refused it is asked for again, so that
//! each allocation may be refused in turn.

use collation_backward::{Backward, TextFault, ends, last_before};
use collation_elements::{Strength, Variable};
use collation_pattern::Pattern;
use collation_table::{PlainTable, Strings, Table};
use std::alloc::Global;
use std::fmt::Debug;
use std::process::Abort;

const TABLE: &str = "@version 0.0.0
0020 ; [*0201.0020.0002]
002D ; [*0202.0020.0002]
0061 ; [.1C00.0020.0002]
0041 ; [.1C00.0020.0008]
0062 ; [.1C10.0020.0002]
0063 ; [.1C20.0020.0002]
0063 0068 ; [.1C28.0020.0002]
0065 ; [.1C40.0020.0002]
0068 ; [.1C50.0020.0002]
0301 ; [.0000.0024.0002]
00AD ; [.0000.0000.0000]
0E01 ; [.1D00.0020.0002]
0E40 ; [.1D10.0020.0002]
0E40 0E01 ; [.1D08.0020.0002]
";

/// Each letter may continue a contraction there, so that none is safe.
const FOLLOWING: &str = "@version 0.0.0
0061 ; [.1C00.0020.0002]
0063 0061 ; [.1C24.0020.0002]
0062 ; [.1C10.0020.0002]
0063 ; [.1C20.0020.0002]
0063 0062 ; [.1C28.0020.0002]
";

/// What is told going back: a range, or a fault, or nothing.
pub(crate) type Told = Result<Option<(u64, u64)>, TextFault>;

/// What is told of the match that ends where a text ends: its start, or a fault, or that there is none.
pub(crate) type Start = Result<Option<u64>, TextFault>;

/// The table of these lines, read again where memory was refused.
pub(crate) fn read(rt: &impl Abort, alloc: Global) -> Table {
    match Table::read(alloc, TABLE.as_bytes()) {
        Ok(table) => table,
        Err(_refused) => Table::read(alloc, TABLE.as_bytes()).expect(rt, "the table"),
    }
}

/// The plain table without safe letters.
pub(crate) fn read_plain(rt: &impl Abort, alloc: Global) -> PlainTable {
    match PlainTable::read(alloc, FOLLOWING.as_bytes()) {
        Ok(table) => table,
        Err(_refused) => PlainTable::read(alloc, FOLLOWING.as_bytes()).expect(
            rt,
            "the plain table",
        ),
    }
}

/// The pattern of these letters, compiled again where memory was refused.
pub(crate) fn compile<W: Strings>(
    rt: &impl Abort,
    alloc: Global,
    table: &W,
    letters: &str,
    strength: Strength,
    variable: Variable,
) -> Pattern {
    match Pattern::compile(alloc, table, letters, strength, variable) {
        Ok(pattern) => pattern,
        Err(_refused) => Pattern::compile(alloc, table, letters, strength, variable).expect(
            rt,
            "the pattern",
        ),
    }
}

/// Two values are the same. A proof goes through what a comparison prints once, for any type.
pub(crate) fn same_at<T: PartialEq + Debug>(rt: &impl Abort, got: &T, want: &T, at: usize) {
    assert_eq!(rt; *got, *want, "at {at}");
}

/// What goes back through texts for this pattern, asked for again where memory was refused.
pub(crate) fn begin<'a, W: Strings>(
    rt: &impl Abort,
    alloc: Global,
    table: &'a W,
    pattern: &'a Pattern,
) -> Backward<'a, W> {
    match Backward::new(alloc, table, pattern) {
        Ok(backward) => backward,
        Err(_refused) => Backward::new(alloc, table, pattern).expect(rt, "memory"),
    }
}

/// The free call, asked again where memory was refused.
pub(crate) fn last_at_once<W: Strings>(
    alloc: Global,
    table: &W,
    pattern: &Pattern,
    text: &[u8],
    at: usize,
) -> Told {
    match last_before(alloc, table, pattern, text, at) {
        Err(fault) if fault.kind == TextFault::NO_MEMORY => {
            last_before(alloc, table, pattern, text, at)
        }
        told => told,
    }
}

/// The free call, asked again where memory was refused.
pub(crate) fn ends_at_once<W: Strings>(
    alloc: Global,
    table: &W,
    pattern: &Pattern,
    text: &[u8],
) -> Start {
    match ends(alloc, table, pattern, text) {
        Err(fault) if fault.kind == TextFault::NO_MEMORY => ends(alloc, table, pattern, text),
        told => told,
    }
}

/// An ill-formed sequence, or one that the end cuts, at this offset.
pub(crate) fn ill_formed(offset: u64) -> TextFault {
    TextFault {
        kind: TextFault::ILL_FORMED,
        offset,
    }
}
