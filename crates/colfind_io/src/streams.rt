//! The readers, the writers and the files of the standard library as devices. Their bytes are not
//! observable, and they count their failures. What each hands on is said where the library's
//! contracts observe the bytes of its reader or writer.
ghost use Rattle.std.specs.Prelude.{◌≡◌, ◌+◌, ◌<◌, ◌≤◌, ◌^◌, None, false, length, not, is_ok, IfOk};
ghost use Rattle.std.specs.Io.KnownBytes.{ReadConsumes, WriteAppends};
ghost use Rattle.colfind_io.specs.Devices.{after_piece, with_piece, moved, takes_nothing, one_if, EndsOnlyAtEnd};

use crate::devices::{DeviceFault, Folder, Source, Target};
use std::fs;
use std::io::{Read, Write};
use std::rt::Files;

/// A reader of the standard library.
#[derive(Drop)]
pub struct FromRead<R> {
    reader: R,
    failures: u64,
}

impl<R: Read> FromRead<R> {
    /// Reads from `reader`, with no failure so far.
    pub fn new(reader: R) -> Self
        ensures { (⟦<FromRead<R> as Source>⟧).failures result ≡ 0 }
    {
        FromRead {
            reader,
            failures: 0,
        }
    }
}

impl<R: Read> Source for FromRead<R> {
    ghost left = { λ _. None };

    ghost failures = { λ s. s.failures };

    fn read(&mut self, buf: &mut [u8]) -> Result<usize, DeviceFault>
        requires { self.old.failures < 2 ^ 63 }
        ensures within { IfOk result (λ k. k ≤ length buf.old) }
        ensures bytes { None ≡ after_piece (moved result buf.new) None }
        ensures end { EndsOnlyAtEnd result buf.new None }
        ensures count { self.new.failures ≡ self.old.failures + one_if (not (is_ok result)) }
        ensures reader { ReadConsumes (R.remaining self.old.reader) (R.remaining self.new.reader)
            result buf.new }
    {
        if let Ok(count) = self.reader.read(buf) {
            return Ok(count);
        }
        self.failures += 1;
        Err(DeviceFault)
    }
}

/// A writer of the standard library.
#[derive(Drop)]
pub struct ToWrite<W> {
    writer: W,
    failures: u64,
}

impl<W: Write> ToWrite<W> {
    /// Writes to `writer`, with no failure so far.
    pub fn new(writer: W) -> Self
        ensures { (⟦<ToWrite<W> as Target>⟧).failures result ≡ 0 }
    {
        ToWrite {
            writer,
            failures: 0,
        }
    }
}

impl<W: Write> Target for ToWrite<W> {
    ghost held = { λ _. None };

    ghost flushed = { λ _. None };

    ghost failures = { λ s. s.failures };

    fn write(&mut self, buf: &[u8]) -> Result<usize, DeviceFault>
        requires { self.old.failures < 2 ^ 63 }
        ensures within { IfOk result (λ k. k ≤ length buf.now) }
        ensures bytes { None ≡ with_piece (moved result buf.now) None }
        ensures count { self.new.failures
            ≡ self.old.failures + one_if (takes_nothing result buf.now) }
        ensures writer { WriteAppends (W.contents self.old.writer) (W.contents self.new.writer)
            result buf.now }
    {
        let Ok(count) = self.writer.write(buf) else {
            self.failures += 1;
            return Err(DeviceFault);
        };
        if count == 0 && !buf.is_empty() {
            self.failures += 1;
        }
        Ok(count)
    }

    fn flush(&mut self) -> Result<(), DeviceFault> {
        if self.writer.flush().is_ok() {
            return Ok(());
        }
        self.failures += 1;
        Err(DeviceFault)
    }
}

/// The files of the machine. Their bytes are not observable, nor is which there are, nor when one can't be opened.
#[derive(Clone, Copy)]
pub struct SystemFiles<'a, F> {
    files: &'a F,
}

impl<'a, F: Files> SystemFiles<'a, F> {
    /// Opens files by `files`.
    pub fn new(files: &'a F) -> Self {
        SystemFiles { files }
    }
}

impl<'a, F: Files> Folder for SystemFiles<'a, F> {
    type File = FromRead<F::File>;

    ghost bytes_at = { λ _ _. None };

    ghost is_missing = { λ _ _. false };

    ghost open_gives = { λ _ _ _. Unit {0} };

    fn open(&self, path: &str) -> Result<FromRead<F::File>, DeviceFault> {
        match fs::open(self.files, path) {
            Ok(file) => Ok(FromRead::new(file)),
            Err(_) => Err(DeviceFault),
        }
    }
}
