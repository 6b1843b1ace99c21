//! The sizes that a table may have. The standard bounds none of them.

/// The greatest number of code points of a mapped string.
pub const MOST_STRING_POINTS: usize = 64;

/// The greatest number of collation elements of a row.
pub const MOST_ROW_ELEMENTS: usize = 128;

/// The greatest number of lines that give a row.
pub const MOST_ENTRY_LINES: usize = 1_048_576;

/// The greatest number of lines that give a range of implicit weights.
pub const MOST_RANGE_LINES: usize = 256;
