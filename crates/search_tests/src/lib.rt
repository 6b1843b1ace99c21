//! Tests of whole searches over the public calls of `collation_search`. There is no code here beside them.
//!
//! They stand in a crate of their own, above all others that a search is made of: a crate with tests is proved once more for them,
//! and the wrong bodies of `collation_search` need not wait for that.
#![tactic(auto)]

#[cfg(test)]
mod clauses;
#[cfg(test)]
mod tests;
