//! Devices over memory that fail after some calls.
ghost use Rattle.std.specs.Prelude.{◌≡◌, ◌<◌, Some, [], IfOk};

use colfind_io::{DeviceFault, MemorySource, Source, Target};
use std::alloc::{AllocError, Global};

/// A reader over bytes that gives at most `most` bytes a read, and fails after `reads` reads.
#[derive(Drop)]
pub struct FailingSource<'a> {
    source: MemorySource<'a>,
    asked: u64,
    reads: u64,
    failures: u64,
}

impl<'a> FailingSource<'a> {
    pub fn new(bytes: &'a [u8], most: usize, reads: u64) -> Self
        requires { 0 < most }
        ensures left { ⟦<FailingSource<'a> as Source>⟧.left result ≡ Some bytes.entry.now }
        ensures failures { ⟦<FailingSource<'a> as Source>⟧.failures result ≡ 0 }
    {
        FailingSource {
            source: MemorySource::new(bytes, most),
            asked: 0,
            reads,
            failures: 0,
        }
    }

    /// How often it was asked to read.
    pub fn asked(&self) -> u64 {
        self.asked
    }
}

impl<'a> Source for FailingSource<'a> {
    ghost left = { λ s. ⟦<MemorySource<'a> as Source>⟧.left s.source };

    ghost failures = { λ s. s.failures };

    fn read(&mut self, buf: &mut [u8]) -> Result<usize, DeviceFault> {
        self.asked = self.asked.saturating_add(1);
        if self.reads == 0 {
            self.failures += 1;
            return Err(DeviceFault);
        }
        self.reads -= 1;
        self.source.read(buf)
    }
}

/// A writer that takes at most `most` bytes a write, and fails after `writes` writes: by an error,
/// or by taking nothing.
#[derive(Drop)]
pub struct FailingTarget {
    bytes: Vec<u8>,
    most: usize,
    writes: u64,
    takes_nothing: bool,
    fails_to_flush: bool,
    failures: u64,
    ghost takes: { 0 < most },
}

impl FailingTarget {
    pub fn new(alloc: Global, most: usize, writes: u64) -> Self
        requires { 0 < most }
        ensures held { ⟦<FailingTarget as Target>⟧.held result ≡ Some [] }
        ensures failures { ⟦<FailingTarget as Target>⟧.failures result ≡ 0 }
    {
        FailingTarget {
            bytes: Vec::new(alloc),
            most,
            writes,
            takes_nothing: false,
            fails_to_flush: false,
            failures: 0,
        }
    }

    /// One that does not fail, and asks for no memory while it holds at most `room` bytes.
    pub fn with_room(alloc: Global, room: usize, most: usize) -> Result<Self, AllocError>
        requires { 0 < most }
        ensures failures { IfOk result (λ t. ⟦<FailingTarget as Target>⟧.failures t ≡ 0) }
    {
        Ok(FailingTarget {
            bytes: Vec::with_capacity(alloc, room)?,
            most,
            writes: u64::MAX,
            takes_nothing: false,
            fails_to_flush: false,
            failures: 0,
        })
    }

    pub fn taking_nothing(mut self, takes_nothing: bool) -> Self
        ensures { ⟦<FailingTarget as Target>⟧.failures result
            ≡ ⟦<FailingTarget as Target>⟧.failures self }
    {
        self.takes_nothing = takes_nothing;
        self
    }

    pub fn failing_to_flush(mut self) -> Self
        ensures { ⟦<FailingTarget as Target>⟧.failures result
            ≡ ⟦<FailingTarget as Target>⟧.failures self }
    {
        self.fails_to_flush = true;
        self
    }

    pub fn bytes(&self) -> &[u8] {
        &self.bytes
    }

    pub fn failures(&self) -> u64 {
        self.failures
    }
}

impl Target for FailingTarget {
    ghost held = { λ t. Some t.bytes.items };

    ghost flushed = { λ t. Some t.bytes.items };

    ghost failures = { λ t. t.failures };

    fn write(&mut self, buf: &[u8]) -> Result<usize, DeviceFault> {
        let count = self.most.min(buf.len());
        if self.writes == 0 && self.takes_nothing && !buf.is_empty() {
            self.failures += 1;
            return Ok(0);
        }
        if self.writes == 0 || self.bytes.extend_from_slice(&buf[..count]).is_err() {
            self.failures += 1;
            return Err(DeviceFault);
        }
        self.writes -= 1;
        Ok(count)
    }

    fn flush(&mut self) -> Result<(), DeviceFault> {
        if self.fails_to_flush {
            self.failures += 1;
            return Err(DeviceFault);
        }
        Ok(())
    }
}
