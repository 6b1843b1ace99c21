//! Why a code point stops a text.

use thiserror::Error;

/// A code point that a text may not have where it stands.
///
/// No fault reports want of memory, for no call of this crate takes any.
#[derive(Clone, Copy, Debug, PartialEq, Eq, Error)]
#[error("fault {kind} of a code point")]
pub struct PointFault {
    /// `LONG_RUN` or `LONG_DECOMPOSITION`.
    pub kind: u8,
}

impl PointFault {
    /// The code point brings the thirty-first non-starter in a row, counted over canonical
    /// decompositions (UAX #15, Stream-Safe Text).
    pub const LONG_RUN: u8 = 32;

    /// The canonical decomposition of the code point has more than four code points.
    pub const LONG_DECOMPOSITION: u8 = 33;
}
