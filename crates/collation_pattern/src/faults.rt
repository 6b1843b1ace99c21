//! Why a text is no pattern.

use thiserror::Error;

/// Why a text was refused as a pattern.
#[derive(Clone, Copy, Debug, Drop, PartialEq, Eq, Error)]
#[error("fault {kind} of the pattern")]
pub struct PatternFault {
    /// One of the constants of this type.
    pub kind: u8,
}

impl PatternFault {
    /// More than 65,536 bytes.
    pub const TOO_LONG: u8 = 21;

    /// No key: nothing that is not ignorable up to the strength.
    pub const NO_KEY: u8 = 22;

    /// A code point at fault: a run of more than 30 non-starters, or a decomposition of more than 4 code points.
    pub const LONG_RUN: u8 = 23;

    /// Memory was refused.
    pub const MEMORY: u8 = 24;
}
