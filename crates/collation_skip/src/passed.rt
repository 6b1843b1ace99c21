//! What is passed by.

use collation_letters::Letter;

/// Text at the front of a piece that a search may pass by. Offsets are in bytes from the front of the piece.
#[derive(Clone, Copy, Debug)]
pub struct Passed {
    /// Where its last character begins, which begins a cluster.
    pub start: usize,
    /// Where it ends.
    pub end: usize,
    /// The character that follows, and its letter.
    pub next: char,
    pub letter: Letter,
}
