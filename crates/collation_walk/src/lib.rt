//! The walk: from the units of a text, or from letters, to the ranges of a pattern (UTS #10, section 11).
//!
//! A [`Walk`] takes items, the starts of clusters and the keys between them, one after the other. It knows how much of the pattern ends the
//! keys so far, by the pattern's borders, and where the last keys stand. Where a cluster with keys ends and the whole pattern has matched
//! from the first key of a cluster on, a range ends. A [`Matcher`] has a weigher before the walk: [`take_unit`] weighs a unit of points,
//! [`walk_letter`] takes the keys of a letter as they are. What both have taken is a list of units (`HasWalked`), so a caller may mix them.
//!
//! It stands on `collation_letters`, `collation_pattern` and `collation_elements`; on `collation_matches`, which says which ranges these
//! are; and on `collation_states`, for the places of keys that a saved state has.
#![tactic(auto)]

mod handing_out;
mod letters;
mod matching;
mod query;
mod resuming;
mod walk;

pub use crate::handing_out::hand_out;
pub use crate::letters::walk_letter;
pub use crate::matching::{Found, MOST_FOUND, Matcher, keep, take_unit};
pub use crate::query::Query;
pub use crate::walk::{KeyPlace, Walk};
