//! The saved state of a search: which lists of words are a state, and what they say.
//!
//! A state is a list of records of four words. Its first five records have its form, the sizes of the pattern and the table, the
//! settings, the bytes taken, the fault, the bytes held, the current cluster, and how many records follow: the places of the last
//! keys, the points in the window, and the points that wait. In the second form, that of a search for a chain, a sixth record says
//! where the last range ends that was handed out. `specs/State.antt` has the words of a state, `specs/StateTests.antt` which lists of
//! words are one, and with which fault the others are refused; [`worked_states`] has worked rows.
//!
//! [`read`] reads words, without memory. [`append_head`], [`append_place`] and [`append_points`] append them to a list.
//! No search is known here: `collation_search` saves and resumes one by these calls.
#![tactic(auto)]

mod faults;
pub mod laws;
mod read_state;
mod reading;
mod saving;
mod setting_words;
mod state_points;
mod states;
pub mod worked_states;

pub use crate::faults::StateFault;
pub use crate::read_state::ReadState;
pub use crate::reading::read;
pub use crate::saving::{
    append_head, append_place, append_point, append_points, number_of, reported_head,
};
pub use crate::state_points::Points;
pub use crate::states::{Head, RECORD_WORDS, Sizes};

/// How many bytes a text may have.
pub const MOST_BYTES: u64 = 1 << 62;
