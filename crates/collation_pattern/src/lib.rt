//! Patterns of a search by collation (UTS #10, section 11): a text compiled to its keys, and the law that keys decide what
//! sort keys decide.
//!
//! It stands on `collation_elements` (the items of a text), `nfd_points` (its points, and which run of marks is a fault) and
//! `collation_table` (well-formed tables).
#![tactic(auto)]

mod borders;
mod compile;
mod faults;
mod key_set;
pub mod laws;
mod level_weights;
mod pattern;

pub use crate::faults::PatternFault;
pub use crate::pattern::Pattern;
