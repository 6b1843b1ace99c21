//! The parts of a text, which may be searched at the same time (UTS #10, section 11).
//!
//! [`search_part`] searches one part of a text by itself: it hands out the ranges that begin there, reads on behind the part as far as one
//! of them may reach, and answers the fault if it stands there. Where the parts begin at boundaries, as at safe offsets
//! (`collation_safe::next_safe`), the ranges of one part after the other are those of the whole text ([`parts_have_the_whole`]). Each
//! part wants a search of its own; these share the table and the pattern.
//!
//! It stands on `collation_search`, whose `to_come` says where no range is missing any more, and on the law of parts of
//! `collation_matches`. No thread is started here.
#![tactic(auto)]

mod laws;
mod part;
pub mod worked;

pub use crate::laws::parts_have_the_whole;
pub use crate::part::search_part;
