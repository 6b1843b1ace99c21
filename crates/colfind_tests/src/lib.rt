//! Tests of the program over its public calls. There is no code here beside them.
//!
//! They stand in a crate of their own: a crate with tests is proved once more for them, and the wrong bodies of `colfind_run` need not
//! wait for that.
#![tactic(auto)]

#[cfg(test)]
mod tests;
