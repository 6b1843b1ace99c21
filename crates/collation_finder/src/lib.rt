//! The finder: from the characters of a text to the ranges of a pattern (UTS #10, section 11).
//!
//! A [`Finder`] takes the characters of a good text one after the other, orders their points, cuts these into units, and walks over the
//! units' keys by the pattern's borders; a range comes out once its last cluster has ended. [`Finder::take`] takes one character,
//! [`Finder::take_letters`] many at once where no unit reaches from one to the next, with the ASCII that ends a piece, and passes text by
//! in which the pattern can't match. Both leave a finder that represents the same characters (`FinderStandsFor`), so a caller may mix them.
//!
//! It knows no bytes that are no character, no fault of the text but that of the reorderer, and no text's end but as its caller says:
//! these are the search's. It stands on `collation_walk` (units and letters into ranges), `collation_skip` and `collation_letters` (what
//! may be passed by, and what letters are), `collation_states` (the records of a saved state), `collation_elements` and `nfd_points`.
#![tactic(auto)]

mod cache;
mod cutting;
mod finder;
mod letter_loop;
mod letter_run;
mod pausing;
mod piece_end;
mod reading;
mod resuming;
mod short_piece;

pub use crate::cache::Cache;
pub use crate::finder::Finder;
pub use crate::letter_loop::Front;
pub use crate::letter_run::is_starter;
