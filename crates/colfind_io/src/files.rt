//! Reading all that a reader has, as of a file.
ghost use Rattle.std.specs.Prelude.{◌≡◌, ◌≢◌, ◌↔◌, ◌+◌, ◌^◌, ◌<◌, ℕ, List, OnOk, IfOk, IfSome, []};
ghost use Rattle.colfind_io.specs.Devices.{after_piece};
ghost use Rattle.colfind_io.specs.Reading.{FailsBehind};

use crate::devices::Source;
use crate::reading::{Reading, read_piece};
use std::alloc::{AllocError, Global};

/// Why the bytes of a file are not there.
#[derive(Clone, Copy, Debug, PartialEq, Eq)]
pub enum FileFault {
    /// The reader has failed.
    Device,
    /// Memory was refused.
    Memory,
}

/// Reads all that is left, in the order in which it comes.
pub fn read_all<R: Source>(alloc: Global, reader: &mut R) -> Result<Vec<u8>, FileFault>
    requires { R.failures reader.old < 2 ^ 63 }
    ensures bytes { IfOk result (λ bytes.
        R.left reader.old ≡ after_piece bytes.items (R.left reader.new)) }
    ensures end { OnOk result (IfSome (R.left reader.new) (λ rest. rest ≡ [])) }
    ensures fault { (result ≡ Err FileFault.Device)
        ↔ (R.failures reader.new ≡ R.failures reader.old + 1) }
    ensures failed { result ≡ Err FileFault.Device → (piece : List ℕ) × FailsBehind piece
        (R.left reader.old) (R.left reader.new) (R.failures reader.old) (R.failures reader.new) }
    ensures sound { result ≢ Err FileFault.Device → R.failures reader.new ≡ R.failures reader.old }
{
    let mut bytes = Vec::new(alloc);
    loop {
        match read_piece(reader, &mut bytes) {
            Ok(Reading::Bytes) => {}
            Ok(Reading::End) => return Ok(bytes),
            Ok(Reading::Fault) => return Err(FileFault::Device),
            Err(AllocError) => return Err(FileFault::Memory),
        }
    }
}
