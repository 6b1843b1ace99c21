//! Tests of going back through a text, over the public calls of `collation_backward`. There is no code here beside them.
//!
//! They stand in a crate of their own, so that the crate above which they stand is proved once.
#![tactic(auto)]

#[cfg(test)]
mod asking;
#[cfg(test)]
mod made_texts;
#[cfg(test)]
mod rows;
