//! Tests of the crates below a search, over their public calls. There is no code here beside them.
//!
//! They stand in a crate of their own, above those crates: a crate with tests is proved once more for them, and the wrong bodies of
//! those crates need not wait for that.
#![tactic(auto)]

#[cfg(test)]
mod blocks;
#[cfg(test)]
mod calls;
#[cfg(test)]
mod clauses;
#[cfg(test)]
mod cut;
#[cfg(test)]
mod dfa;
#[cfg(test)]
mod elements;
#[cfg(test)]
mod letters;
#[cfg(test)]
mod pattern;
#[cfg(test)]
mod points;
#[cfg(test)]
mod sets;
#[cfg(test)]
mod skip;
#[cfg(test)]
mod table;
#[cfg(test)]
mod two_bytes;
#[cfg(test)]
mod ways;
#[cfg(test)]
mod windows;
