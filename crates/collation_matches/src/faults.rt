//! What can be wrong with a text.

use thiserror::Error;

/// Why a text counts as ended before its end.
#[derive(Clone, Copy, Debug, Drop, PartialEq, Eq, Error)]
#[error("fault {kind} at byte {offset} of the text")]
pub struct TextFault {
    /// 31: an ill-formed sequence, or a character that the end of the text cuts. 32: a code point that brings the
    /// thirty-first non-starter in a row. 33: a code point whose canonical decomposition has more than 4 code points.
    /// 34: a text of more than 2^62 bytes. 35: a decomposition was refused memory. 36, at offset 0: a search was refused
    /// memory before it began.
    pub kind: u8,
    /// Where it stands, in bytes from the beginning of the text.
    pub offset: u64,
}

impl TextFault {
    /// An ill-formed sequence, or a character that the end of the text cuts.
    pub const ILL_FORMED: u8 = 31;

    /// A text of more than 2^62 bytes.
    pub const TOO_LONG: u8 = 34;

    /// A search was refused memory before it began.
    pub const NO_MEMORY: u8 = 36;
}
