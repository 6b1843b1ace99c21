//! What a match is, and the laws about matches (UTS #10, section 11).
//!
//! The definitions stand in `specs/`: where a text is good (`GoodPrefix`), its minimal matches (`Matches`), the answer to bytes
//! (`Answer`), all of its ranges or a chain of them (`Selecting`), what is looked for (`Sought`). A law is the contract of a
//! function without code: that the minimal matches are the ranges found cluster by cluster ([`matches_by_clusters`]), how late
//! a search may find them ([`answers_in_time`]), how many there may be ([`one_range_begins_at_an_offset`]), from where on the rest of
//! a text has the same ones ([`matches_from_a_boundary`]), that its parts have the answer of the whole ([`parts_give_the_answer`]). Worked rows stand in [`worked`], each proved by computing. Nothing here
//! runs.
#![tactic(auto)]

mod bridge;
mod faults;
mod few_ranges;
mod lag;
mod offsets;
mod parts;
mod select;
pub mod worked;

pub use crate::bridge::{growing_text, last_keys, matches_by_clusters, minimal_ranges};
pub use crate::faults::TextFault;
pub use crate::few_ranges::one_range_begins_at_an_offset;
pub use crate::lag::{answers_in_time, matches_in_time, ranges_in_time};
pub use crate::offsets::{calls_give_the_chain, matches_from_a_boundary};
pub use crate::parts::parts_give_the_answer;
pub use crate::select::Select;
