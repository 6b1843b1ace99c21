//! Collation elements of a text (UTS #10, S2).
//!
//! A `Window` holds the points of a text, as `nfd_points` gives them, and cuts units from its front: the points that one
//! collation element mapping takes, discontiguous contractions among them (S2.1). It cuts a unit as soon as no point
//! that may follow can change it, so few points stay in it, however long the text is. A `Unit` has its first point and its
//! collation elements, lent by a table of `collation_table` or implicit (S2.2). A `Weigher` makes the items of a text from its
//! units: the keys that a strength keeps of the elements under variable weighting, and the places where clusters begin.
//!
//! A cluster is not a grapheme cluster of UAX #29. It is what stands between two neighboring boundaries, the choice of which
//! UTS #10, section 11, leaves open, and where it begins depends on the table: at a starter with which a unit begins whose
//! first element has a primary weight. So a contraction such as `ch` is one cluster, with the marks and ignorable characters
//! after it, and a Hangul syllable that is spelled with three jamo is mostly three.
//!
//! What units, elements, keys, items and boundaries of a whole text are stands in `specs/`. The contracts say of each call what
//! the window or the weigher represents after it, so that what was given begins what the whole text has.
//! `Window::with_capacity` and `items_of_text` alone take memory.
#![tactic(auto)]

mod character;
mod context;
mod keys;
mod laws;
mod queue;
mod settings;
mod short;
mod texts;
mod unit;
mod weigher;
mod window;
pub mod worked;

pub use crate::character::{CharacterItems, begin_anew};
pub use crate::context::{clusters_are_parts, clusters_begin_afresh, parts_join};
pub use crate::keys::{Item, Key};
pub use crate::laws::{
    closed_points_append, decided_units_stay, items_are_keys_and_starts, units_stay_apart,
    weighers_go_on,
};
pub use crate::settings::{Strength, Variable};
pub use crate::short::ShortItems;
pub use crate::texts::{ItemsFault, items_of_text};
pub use crate::unit::Unit;
pub use crate::weigher::{MOST_ITEMS, Weigher};
pub use crate::window::Window;
