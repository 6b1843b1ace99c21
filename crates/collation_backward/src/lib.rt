//! Going back through a text: the last match that ends at an offset or before it, and the match that ends where the text ends (UTS #10,
//! section 11).
//!
//! A search can't run backwards. So a [`Backward`] begins at a safe offset some way back, and reads on from there up to the offset; where
//! it finds nothing it begins further back. It stands on `collation_search`, `collation_safe` and `collation_anchored`. Offsets are in
//! bytes, from the beginning of the text.
#![tactic(auto)]

mod backward;
mod laws;
mod places;
mod reading;
pub mod worked;

pub use crate::backward::{Backward, ends, last_before};
pub use crate::laws::calls_go_back;
pub use collation_search::TextFault;
