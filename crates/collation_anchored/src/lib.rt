//! Anchored matches (UTS #10, section 11): whether a whole text is a match of a pattern.
//!
//! An [`Anchored`] goes by steps: the units of the text are weighed one by one, and their keys compared with the pattern's. It stops
//! behind the first unit whose keys are others.
#![tactic(auto)]

mod anchored;
mod comparison;
mod counting;
mod cutting;
mod keys;
pub mod laws;
mod parking;
pub mod worked;

pub use crate::anchored::{Anchored, begins, equal};
pub use crate::parking::Parked;
pub use collation_matches::TextFault;
