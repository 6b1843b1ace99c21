//! How a call has ended, and the status that C has of it.

ghost use Rattle.std.specs.Prelude.{◌≡◌};
ghost use Rattle.colfind_c.specs.Statuses.{status_of};

use collation_pattern::PatternFault;
use collation_search::{StateFault, TextFault};
use collation_table::TableFault;

/// What C has of the end of a call: 0 or the number of a fault, and where it stands or how many there are.
#[repr(C)]
#[derive(Clone, Copy)]
pub struct Status {
    pub kind: u32,
    pub at: u64,
}

/// How a call has ended.
#[derive(Clone, Copy)]
pub enum Outcome {
    /// It was done.
    Good,
    /// A table file has a fault.
    Table(TableFault),
    /// A text is no pattern.
    Pattern(PatternFault),
    /// The text that is searched has a fault.
    Text(TextFault),
    /// Words are no saved search.
    State(StateFault),
    /// Memory was refused, and all is as it was.
    NoMemory,
    /// Memory was refused after so many bytes of a piece, which were taken.
    Partly(u64),
    /// The handle holds something else, or nothing.
    WrongHandle,
    /// The search was finished or stopped.
    Ended,
    /// There is no room for so many words.
    Short(u64),
    /// A number is none of those that were asked for, a pattern is no UTF-8, or an offset stands behind
    /// the text.
    BadArgument,
}

impl Outcome {
    /// The status that C has of it.
    pub(crate) fn status(self) -> Status
        ensures { result ≡ status_of self }
    {
        let (kind, at) = match self {
            Outcome::Good => (0, 0),
            Outcome::Table(fault) => (fault.kind as u32, fault.line),
            Outcome::Pattern(fault) => (fault.kind as u32, 0),
            Outcome::Text(fault) => (fault.kind as u32, fault.offset),
            Outcome::State(fault) => (fault.kind as u32, 0),
            Outcome::NoMemory => (81, 0),
            Outcome::Partly(taken) => (81, taken),
            Outcome::WrongHandle => (82, 0),
            Outcome::Ended => (83, 0),
            Outcome::Short(words) => (84, words),
            Outcome::BadArgument => (85, 0),
        };
        Status { kind, at }
    }
}
