//! Devices over memory, whose bytes are observable.
ghost use Rattle.std.specs.Prelude.{◌≡◌, ◌<◌, Some, []};

use crate::devices::{DeviceFault, Source, Target};
use std::alloc::Global;

/// A reader over bytes that gives at most `most` bytes a read. It does not fail.
#[derive(Drop)]
pub struct MemorySource<'a> {
    rest: &'a [u8],
    most: usize,
    ghost gives: { 0 < most },
}

impl<'a> MemorySource<'a> {
    /// Reads `bytes` from their beginning, at most `most` bytes a read.
    pub fn new(bytes: &'a [u8], most: usize) -> Self
        requires { 0 < most }
        ensures left { ⟦<MemorySource<'a> as Source>⟧.left result ≡ Some bytes.entry.now }
        ensures failures { ⟦<MemorySource<'a> as Source>⟧.failures result ≡ 0 }
    {
        MemorySource { rest: bytes, most }
    }
}

impl<'a> Source for MemorySource<'a> {
    ghost left = { λ s. Some s.rest.now };

    ghost failures = { λ _. 0 };

    fn read(&mut self, buf: &mut [u8]) -> Result<usize, DeviceFault> {
        let count = self.most.min(buf.len()).min(self.rest.len());
        let (piece, rest) = self.rest.split_at(count);
        buf[..count].copy_from_slice(piece);
        self.rest = rest;
        Ok(count)
    }
}

/// A writer that keeps its bytes. A write fails only where it is refused memory.
#[derive(Drop)]
pub struct MemoryTarget {
    bytes: Vec<u8>,
    failures: u64,
}

impl MemoryTarget {
    /// Holds no bytes yet.
    pub fn new(alloc: Global) -> Self
        ensures held { ⟦<MemoryTarget as Target>⟧.held result ≡ Some [] }
        ensures failures { ⟦<MemoryTarget as Target>⟧.failures result ≡ 0 }
    {
        MemoryTarget {
            bytes: Vec::new(alloc),
            failures: 0,
        }
    }

    /// The bytes that were written.
    pub fn bytes(&self) -> &[u8]
        ensures { Some result.now ≡ ⟦<MemoryTarget as Target>⟧.held self.now }
    {
        &self.bytes
    }
}

impl Target for MemoryTarget {
    ghost held = { λ t. Some t.bytes.items };

    ghost flushed = { λ t. Some t.bytes.items };

    ghost failures = { λ t. t.failures };

    fn write(&mut self, buf: &[u8]) -> Result<usize, DeviceFault> {
        if self.bytes.extend_from_slice(buf).is_err() {
            self.failures += 1;
            return Err(DeviceFault);
        }
        Ok(buf.len())
    }

    fn flush(&mut self) -> Result<(), DeviceFault> {
        Ok(())
    }
}
