//! The search: minimal matches of a pattern in a text (UTS #10, section 11).
//!
//! A [`Search`] takes a text in pieces of any size and hands out each match as soon as it is known: [`Search::feed`] takes a
//! piece, [`Search::step`] one byte, [`Search::finish`] ends the text, [`Search::stop`] gives it up. It holds what the layers
//! below hold of the text's end, the places of the last keys, as many as the pattern has, what its table says of the ASCII
//! characters and of others that it met, in places of a fixed number, and nothing that grows with the text. What it hands out is, in
//! order, the answer of `collation_matches`: the minimal matches by equal sort keys or, up to the first fault, the settled ones.
//!
//! It stands on `collation_states` (which words are a saved state, and what they say), `collation_matches` (what a match is, and the laws
//! about matches), `collation_pattern` (patterns, their borders, and the law that keys decide what sort keys decide),
//! `collation_elements` (windows, units, items), `nfd_points` and `utf8_cut` (where a text is good), and `collation_table`.
//! [`Search::save`] gives what a search holds as words, and [`Search::resume`] goes on from them. [`search_in_pieces`] has the whole in
//! one contract: a text in any pieces, with a search that is saved, dropped and resumed after each.
#![tactic(auto)]

mod again;
mod feed;
mod indexing;
mod parking;
mod pieces;
mod resuming;
mod saving;
mod search;
mod to_come;
pub mod worked;

pub use crate::indexing::{index, index_from};
pub use crate::parking::Parked;
pub use crate::pieces::{PiecesSearched, search_in_pieces};
pub use crate::search::{MOST_BYTES, Search};
pub use crate::to_come::ToCome;
pub use collation_matches::{Select, TextFault};
pub use collation_states::{StateFault, worked_states};
pub use collation_walk::{Found, MOST_FOUND};
