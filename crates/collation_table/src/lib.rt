//! Collation element tables (UTS #10, Unicode Collation Algorithm).
//!
//! `Table::read` reads a file in the form of allkeys.txt and reports the first fault in it; `Table::read_tailored` reads a second
//! file with it, whose rows replace some of the first one's or are added. A `Table` is known to be well formed (UTS #10, section
//! 5), and answers the trait `Weights`, by which the crates above ask any table: the longest mapped
//! string that a list of code points begins with, the collation elements of a mapped string, and the implicit weights of a code
//! point that has no row. A `PlainTable` does the same with plainer parts, an ordered map in the place of pages and a trie.
//!
//! What a file spells and what is wrong with it stand in `specs/Spelling.antt` and `specs/Faults.antt`, the finite map that a
//! table represents in `specs/Table.antt`, that of two files in `specs/Overlay.antt`, and when it is well formed in
//! `specs/WellFormed.antt`. Classes of code points come from `unicode_normalization`.
#![tactic(auto)]

mod elements;
mod faults;
mod first_steps;
mod implicit;
pub mod laws;
mod limits;
mod line_faults;
mod lines;
mod lookup;
mod pages;
mod pieces;
mod plain_index;
mod plain_table;
mod point_set;
mod ranges;
mod reader;
mod row_index;
mod rows;
mod spelling;
mod starters;
mod table;
mod trie;
mod well_formed;
pub mod worked;

pub use elements::Element;
pub use faults::TableFault;
pub use limits::{MOST_ROW_ELEMENTS, MOST_STRING_POINTS};
pub use lookup::{Strings, Weights};
pub use plain_table::PlainTable;
pub use ranges::ImplicitRange;
pub use table::Table;
