//! How many points there may be.

/// The most non-starters in a row that a text may have, and so the most points that wait (UAX #15, Stream-Safe Text).
pub const MOST_WAITING: usize = 30;

/// The most code points of a canonical decomposition (UAX #15, the greatest expansion).
pub const MOST_DECOMPOSITION: usize = 4;

/// The most points that one call gives: those that wait, and those of one code point.
pub const MOST_GIVEN: usize = MOST_WAITING + MOST_DECOMPOSITION;
