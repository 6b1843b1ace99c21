//! One read, from a reader that gives a part at a time and may fail.
ghost use Rattle.std.specs.Prelude.{◌≡◌, ◌≢◌, ◌+◌, ◌^◌, ◌<◌, ◌≤◌, [], OnOk, OnErr, IfOk, IfSome, vec_len};
ghost use Rattle.colfind_io.specs.Devices.{one_if};
ghost use Rattle.colfind_io.specs.Reading.{ReadsOn, ReadsSome, is_fault};

use crate::devices::Source;
use std::alloc::AllocError;

/// The greatest number of bytes that one read asks for.
pub const PIECE_BYTES: usize = 4096;

/// What one read gave.
#[derive(Clone, Copy, Debug, PartialEq, Eq)]
pub enum Reading {
    /// There were bytes.
    Bytes,
    /// The text ends here.
    End,
    /// The reader has failed.
    Fault,
}

/// Reads once, and puts the bytes at the end of `text`. Where that is refused memory, the bytes
/// are lost and `text` stays as it was.
pub fn read_piece<R: Source>(reader: &mut R, text: &mut Vec<u8>) -> Result<Reading, AllocError>
    requires { R.failures reader.old < 2 ^ 63 }
    ensures bytes { OnOk result
        (ReadsOn (R.left reader.old) (R.left reader.new) text.old.items text.new.items) }
    ensures some { result ≡ Ok Reading.Bytes → vec_len text.old < vec_len text.new }
    ensures end { result ≡ Ok Reading.End → IfSome (R.left reader.new) (λ rest. rest ≡ []) }
    ensures fault { IfOk result (λ reported.
        R.failures reader.new ≡ R.failures reader.old + one_if (is_fault reported)) }
    ensures most { vec_len text.new ≤ vec_len text.old + PIECE_BYTES }
    ensures stays { result ≢ Ok Reading.Bytes → text.new.items ≡ text.old.items }
    ensures err { OnErr result (R.failures reader.new ≡ R.failures reader.old) }
    ensures lost { OnErr result (ReadsSome (R.left reader.old) (R.left reader.new)) }
{
    let mut piece = [0u8; PIECE_BYTES];
    match reader.read(&mut piece) {
        Err(_) => Ok(Reading::Fault),
        Ok(0) => Ok(Reading::End),
        Ok(count) => {
            text.extend_from_slice(&piece[..count])?;
            Ok(Reading::Bytes)
        }
    }
}
