//! What can be wrong with the words of a state.

ghost use Rattle.std.specs.Prelude.{◌≡◌};

use std::alloc::AllocError;
use thiserror::Error;

/// Why words are not resumed.
#[derive(Clone, Copy, Debug, Drop, PartialEq, Eq, Error)]
#[error("fault {kind} of a saved state")]
pub struct StateFault {
    /// 51: words that are no state. 52: a state of another pattern, table, strength or variable weighting. 53: memory was
    /// refused.
    pub kind: u8,
}

impl StateFault {
    /// Words that are no state.
    pub const MALFORMED: u8 = 51;

    /// A state of another pattern, table, strength or variable weighting.
    pub const OF_ANOTHER: u8 = 52;

    /// Memory was refused.
    pub const NO_MEMORY: u8 = 53;
}

impl From<AllocError> for StateFault {
    ghost from_gives = { λ _ fault. fault ≡ record { kind = 53 } };

    fn from(_error: AllocError) -> StateFault {
        StateFault {
            kind: StateFault::NO_MEMORY,
        }
    }
}
