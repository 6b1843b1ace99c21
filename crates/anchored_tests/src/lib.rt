//! Tests of anchored matches, over the public calls of `collation_anchored`. There is no code here beside them.
//!
//! They stand in a crate of their own, so that the crate above which they stand is proved once.
#![tactic(auto)]

#[cfg(test)]
mod asking;
#[cfg(test)]
mod beginnings;
#[cfg(test)]
mod equal_texts;
#[cfg(test)]
mod long_strings;
