//! What `colfind` reads and writes: bytes from a reader, and the lines of ranges to a writer.
//!
//! A [`Source`] gives bytes and a [`Target`] takes them, a part at a time, and either may fail. A contract sees the bytes that each has left
//! or holds, where these are observable, and how often it has failed. [`FromRead`], [`ToWrite`] and [`SystemFiles`] are those of the system,
//! [`MemorySource`] and [`MemoryTarget`] those over memory. [`read_piece`] reads once, [`read_all`] to the end, [`write_all`] writes all.
//!
//! [`Lines`] gathers what is printed of ranges in one of three forms ([`Output`]), and writes it out together.
//!
//! It stands on the standard library, on `arrayvec` for lines and on `itoa` for numbers. `read_piece`, `read_all` and `MemoryTarget` take
//! memory.
#![tactic(auto)]

mod devices;
mod files;
mod lines;
mod memory;
mod output;
mod reading;
mod streams;
mod writing;

pub use crate::devices::{DeviceFault, Folder, Source, Target};
pub use crate::files::{FileFault, read_all};
pub use crate::lines::Lines;
pub use crate::memory::{MemorySource, MemoryTarget};
pub use crate::output::{Line, MOST_LINE_BYTES, Output, push_number};
pub use crate::reading::{PIECE_BYTES, Reading, read_piece};
pub use crate::streams::{FromRead, SystemFiles, ToWrite};
pub use crate::writing::{write_all, write_end};
