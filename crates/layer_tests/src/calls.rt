//! What the tests of several crates need: a table, the settings of a pattern, and the calls that make both, each in a function of its
//! own that promises nothing, so that a proof meets a long contract once, and not at each use. Where a test goes on only if a call
//! succeeds, the function stops the test itself: with each `?` a proof goes through everything that the caller has to drop there.
//! For the same reason a test lets go of a table, of letters and of ways by `drop`, which is one call.

use collation_elements::{Strength, Variable};
use collation_pattern::Pattern;
use collation_table::{Table, TableFault};
use std::alloc::Global;
use std::fmt::Debug;
use std::process::Abort;

pub(crate) const TABLE: &str = "@version 0.0.0
0020 ; [*0201.0020.0002]
002D ; [*0202.0020.0002]
0061 ; [.1C00.0020.0002]
0041 ; [.1C00.0020.0008]
0062 ; [.1C10.0020.0002]
0063 ; [.1C20.0020.0002]
0063 0068 ; [.1C28.0020.0002]
0065 ; [.1C40.0020.0002]
0068 ; [.1C50.0020.0002]
006D ; [.1C60.0020.0002]
0072 ; [.1C70.0020.0002]
0073 ; [.1C80.0020.0002]
0075 ; [.1C90.0020.0002]
0075 0301 ; [.1C98.0020.0002]
0300 ; [.0000.0025.0002]
0301 ; [.0000.0024.0002]
0327 ; [.0000.0030.0002]
20DD ; [.0000.0040.0002]
00AD ; [.0000.0000.0000]
2F00 ; [.FB40.0020.0004][.CE00.0000.0000]
";

pub(crate) const KEPT: Variable = Variable::NonIgnorable;

pub(crate) const SHIFTED: Variable = Variable::Shifted;

pub(crate) const ONE: Strength = Strength::One;

pub(crate) const TWO: Strength = Strength::Two;

pub(crate) const THREE: Strength = Strength::Three;

/// What a pattern is compiled by: its text, the strength, and the variable weighting.
pub(crate) type Settings<'a> = (&'a str, Strength, Variable);

/// The table of a file, or of one and a tailor, or the fault.
pub(crate) fn try_table(
    alloc: Global,
    file: &[u8],
    tailor: Option<&[u8]>,
) -> Result<Table, TableFault> {
    match tailor {
        None => Table::read(alloc, file),
        Some(tailor) => Table::read_tailored(alloc, file, tailor),
    }
}

/// The table, read again where memory was refused.
pub(crate) fn table_of(rt: &impl Abort, alloc: Global, file: &str, tailor: Option<&[u8]>) -> Table {
    match try_table(alloc, file.as_bytes(), tailor) {
        Ok(table) => table,
        Err(_refused) => try_table(alloc, file.as_bytes(), tailor).expect(rt, "the table"),
    }
}

/// The pattern of these settings.
pub(crate) fn compile(
    rt: &impl Abort,
    alloc: Global,
    table: &Table,
    settings: Settings<'_>,
) -> Pattern {
    let (text, strength, variable) = settings;
    Pattern::compile(alloc, table, text, strength, variable).expect(rt, "the pattern")
}

/// A text so many times in a row.
pub(crate) fn repeated(rt: &impl Abort, alloc: Global, text: &str, count: usize) -> String {
    text.repeat(alloc, count).expect(rt, "memory")
}

/// These texts, one behind the other.
pub(crate) fn joined(rt: &impl Abort, alloc: Global, texts: &[&str]) -> String {
    let mut all = String::new(alloc);
    for text in texts {
        put(rt, &mut all, *text);
    }
    all
}

/// Puts a text behind another.
pub(crate) fn put(rt: &impl Abort, text: &mut String, more: &str) {
    text.push_str(more).expect(rt, "memory");
}

/// Two values are the same. A comparison stands in a function for any type: a proof goes through what it prints once, and not at each
/// use.
pub(crate) fn same<T: PartialEq + Debug>(rt: &impl Abort, got: &T, want: &T) {
    assert_eq!(rt; *got, *want);
}

/// The same of a row, which is told.
pub(crate) fn same_at<T: PartialEq + Debug, A: Debug>(rt: &impl Abort, got: &T, want: &T, row: &A) {
    assert_eq!(rt; *got, *want, "{row:?}");
}

/// This holds of a row, which is told.
pub(crate) fn holds<A: Debug>(rt: &impl Abort, is_so: bool, row: &A) {
    assert!(rt; is_so, "{row:?}");
}

/// A text is this.
pub(crate) fn text_is(rt: &impl Abort, got: &str, want: &str) {
    same(rt, &got, &want);
}
