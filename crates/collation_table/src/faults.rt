//! Why a table file is refused.

ghost use Rattle.std.specs.Prelude.{◌≡◌};
ghost use Rattle.collation_table.specs.declared.faults.TableFault.{TableFault};

use std::alloc::{AllocError, AllocFailed};
use thiserror::Error;

/// A line that is of none of the four forms.
pub const MALFORMED_LINE: u8 = 1;
/// A code point over 10FFFF.
pub const BEYOND_UNICODE: u8 = 2;
/// A string that an earlier line maps.
pub const MAPPED_TWICE: u8 = 3;
/// A mapped string or a row with more parts than one may have.
pub const TOO_LONG: u8 = 4;
/// A row that breaks WF1 (UTS #10, section 5).
pub const BREAKS_WF1: u8 = 5;
/// A table that breaks WF2.
pub const BREAKS_WF2: u8 = 6;
/// A row that breaks WF3.
pub const BREAKS_WF3: u8 = 7;
/// A table that breaks WF4.
pub const BREAKS_WF4: u8 = 8;
/// A table that breaks WF5.
pub const BREAKS_WF5: u8 = 9;
/// A row whose primary weights can't be read in pairs.
pub const BREAKS_PAIRS: u8 = 10;
/// A range of implicit weights that can't stand after the earlier ones.
pub const BAD_RANGE: u8 = 11;
/// A file with no row.
pub const NO_ENTRY: u8 = 12;
/// One line more than a table may have of a form.
pub const TOO_MANY_LINES: u8 = 13;
/// Memory that was refused.
pub const ALLOCATION_REFUSED: u8 = 14;
/// What is added to the kind of a fault of a line of a tailor.
pub const TAILOR_KINDS: u8 = 60;

/// Why a table file is refused. The first line at fault is reported, with the smallest kind of fault that it has; where no line
/// is, the whole table is at fault, at line 0.
#[derive(Clone, Copy, Debug, PartialEq, Eq, Error)]
#[error("fault {kind} at line {line}")]
pub struct TableFault {
    /// The line, counted from 1, or 0 for a fault of the whole file.
    pub line: u64,
    /// The kind, from 1 to 14, as `Table::read` lists them; 60 more for a line of a tailor.
    pub kind: u8,
}

impl From<AllocError> for TableFault {
    ghost from_gives = { λ _ fault. fault ≡ record { line = 0; kind = 14 } };

    fn from(_error: AllocError) -> TableFault {
        TableFault {
            line: 0,
            kind: ALLOCATION_REFUSED,
        }
    }
}
