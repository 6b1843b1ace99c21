//! What the tests share: the tables, patterns, and the calls, each in a function that promises nothing. Where memory is refused it is asked
//! for again, so that each allocation may be refused in turn.

use arrayvec::ArrayVec;
use collation_elements::{Strength, Variable};
use collation_parts::search_part;
use collation_pattern::Pattern;
use collation_search::{Found, Search, Select, TextFault};
use collation_table::{PlainTable, Table, Weights};
use std::alloc::Global;
use std::fmt::Debug;
use std::process::Abort;

const TABLE: &str = "@version 0.0.0
0020 ; [*0201.0020.0002]
002D ; [*0202.0020.0002]
0061 ; [.1C00.0020.0002]
0062 ; [.1C10.0020.0002]
0063 ; [.1C20.0020.0002]
0063 0068 ; [.1C28.0020.0002]
0065 ; [.1C40.0020.0002]
0068 ; [.1C50.0020.0002]
0301 ; [.0000.0024.0002]
0327 ; [.0000.0025.0002]
0061 0301 ; [.1C04.0020.0002]
00AD ; [.0000.0000.0000]
";

/// Each letter of the made texts continues a mapped string there, so no offset is safe.
const PAIRED: &str = "@version 0.0.0
0020 ; [*0201.0020.0002]
0020 0020 ; [*0201.0020.0002]
002D ; [*0202.0020.0002]
002D 002D ; [*0202.0020.0002]
0061 ; [.1C00.0020.0002]
0061 0061 ; [.1C08.0020.0002]
0062 ; [.1C10.0020.0002]
0062 0062 ; [.1C18.0020.0002]
0063 ; [.1C20.0020.0002]
0063 0063 ; [.1C28.0020.0002]
0065 ; [.1C40.0020.0002]
0065 0065 ; [.1C48.0020.0002]
0068 ; [.1C50.0020.0002]
0068 0068 ; [.1C58.0020.0002]
0301 ; [.0000.0024.0002]
0327 ; [.0000.0025.0002]
00AD ; [.0000.0000.0000]
1100 ; [.1D00.0020.0002]
1100 1100 ; [.1D08.0020.0002]
";

/// A range: where it starts and ends.
pub(crate) type Range = (u64, u64);

/// The ranges of a text, in order. No text of the tests has more.
pub(crate) type Ranges = ArrayVec<Range, 512>;

/// Room for the bytes of a text.
pub(crate) type Bytes = ArrayVec<u8, 512>;

/// The table, read again where memory was refused.
pub(crate) fn read(rt: &impl Abort, alloc: Global) -> Table {
    read_lines(rt, alloc, TABLE)
}

/// The table without safe offsets.
pub(crate) fn read_paired(rt: &impl Abort, alloc: Global) -> Table {
    read_lines(rt, alloc, PAIRED)
}

fn read_lines(rt: &impl Abort, alloc: Global, lines: &str) -> Table {
    match Table::read(alloc, lines.as_bytes()) {
        Ok(table) => table,
        Err(_refused) => Table::read(alloc, lines.as_bytes()).expect(rt, "the table"),
    }
}

/// The same table, whose rows stand in an ordered map.
pub(crate) fn read_plain(rt: &impl Abort, alloc: Global) -> PlainTable {
    match PlainTable::read(alloc, TABLE.as_bytes()) {
        Ok(table) => table,
        Err(_refused) => PlainTable::read(alloc, TABLE.as_bytes()).expect(rt, "the plain table"),
    }
}

/// The pattern of these letters, compiled again where memory was refused.
pub(crate) fn compile<W: Weights>(
    rt: &impl Abort,
    alloc: Global,
    table: &W,
    letters: &str,
    strength: Strength,
    variable: Variable,
) -> Pattern {
    match Pattern::compile(alloc, table, letters, strength, variable) {
        Ok(pattern) => pattern,
        Err(_refused) => Pattern::compile(alloc, table, letters, strength, variable).expect(
            rt,
            "the pattern",
        ),
    }
}

/// A new search, asked for again where memory was refused.
pub(crate) fn begin<'a, W: Weights>(
    rt: &impl Abort,
    alloc: Global,
    table: &'a W,
    pattern: &'a Pattern,
    select: Select,
) -> Search<'a, W> {
    match Search::new_with(alloc, table, pattern, select) {
        Ok(search) => search,
        Err(_refused) => Search::new_with(alloc, table, pattern, select).expect(rt, "a search"),
    }
}

/// A text so many times in a row, asked for again where memory was refused.
pub(crate) fn repeated(rt: &impl Abort, alloc: Global, text: &str, count: usize) -> String {
    match text.repeat(alloc, count) {
        Ok(all) => all,
        Err(_refused) => text.repeat(alloc, count).expect(rt, "memory"),
    }
}

/// Puts the ranges of a whole text behind the others.
pub(crate) fn search_whole<W: Weights>(
    search: &mut Search<'_, W>,
    text: &[u8],
    ranges: &mut Ranges,
) -> Result<(), TextFault> {
    let mut found = Found::new();
    search.begin_again();
    let fed = search.feed_with(
        text,
        &mut found,
        &mut |start, end| {
            let _full = ranges.try_push((start, end));
        },
    );
    if fed.is_err() {
        return fed;
    }
    let ended = search.finish_text(&mut found);
    for range in found.as_slice() {
        let _full = ranges.try_push(*range);
    }
    ended
}

/// Puts the ranges of a part behind the others.
pub(crate) fn search_one<W: Weights>(
    search: &mut Search<'_, W>,
    text: &[u8],
    from: usize,
    to: usize,
    ranges: &mut Ranges,
) -> Result<(), TextFault> {
    search_part(
        search,
        text,
        from,
        to,
        &mut |start, end| {
            let _full = ranges.try_push((start, end));
        },
    )
}

/// Two values are the same. A proof goes through what a comparison prints once, for any type.
pub(crate) fn same_at<T: PartialEq + Debug, A: Debug>(rt: &impl Abort, got: &T, want: &T, row: &A) {
    assert_eq!(rt; *got, *want, "{row:?}");
}

/// These ranges are the same.
pub(crate) fn ranges_are<A: Debug>(rt: &impl Abort, got: &[Range], want: &[Range], row: &A) {
    assert_eq!(rt; got, want, "{row:?}");
}
