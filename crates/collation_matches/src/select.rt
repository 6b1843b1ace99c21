//! Which of the matches a search hands out.

/// Which of the matches a search hands out.
#[derive(Clone, Copy, Debug, PartialEq, Eq)]
pub enum Select {
    /// All minimal matches, also those that overlap.
    All,
    /// A chain of them that do not overlap: the first one, and then each that begins at or after the end of the last one taken.
    Chain,
}
