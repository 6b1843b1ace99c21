//! Tests of safe offsets, over the public calls of `collation_safe`. There is no code here beside them.
//!
//! They stand in a crate of their own, so that the crate above which they stand is proved once.
#![tactic(auto)]

#[cfg(test)]
mod tables;
#[cfg(test)]
mod tests;
