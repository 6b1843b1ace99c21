//! Text that passes in blocks of sixteen bytes, by sets of bytes, whatever these mean.
//!
//! A byte passes or not by itself and by the bytes before it: [`passed_len`] says how many bytes of ASCII pass at the front of a piece,
//! by five sets ([`AsciiSets`]), and [`going_len`] how many bytes of characters of one and of two bytes, by three ([`TwoByteSets`]). Which
//! bytes are in them, and what follows from text that passes, is the caller's matter. [`len_to_last`] says where the last byte of a set stands.
//!
//! Sixteen bytes are looked up together: the low half of each is a place in a vector, and the high half a bit of what stands there. Where a
//! block does not pass as a whole, its first byte that does not is where the text stops. The last block begins amid the one before.
//!
//! It stands on the standard library alone, and takes no memory.
#![tactic(auto)]

mod ascii;
mod lanes;
mod last;
mod sets;
mod two_bytes;

pub use crate::ascii::{block_passes, passed_len};
pub use crate::last::len_to_last;
pub use crate::sets::{AsciiSets, ByteSet, NO_BYTES, TRAILS, TwoByteSets, in_set, put};
pub use crate::two_bytes::{block_goes_on, going_len};
