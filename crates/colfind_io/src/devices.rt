//! The reader and the writer that the program asks for bytes, and the files that it opens: a
//! contract sees the bytes that each has left or holds, where they are observable, and how often
//! it has failed.
ghost use Rattle.std.specs.Prelude.{◌≡◌, ◌+◌, ◌^◌, ◌<◌, ◌≤◌, ℕ, List, Option, Result, length, not, is_ok, IfOk, OnOk, Bool, true, false};
ghost use Rattle.colfind_io.specs.declared.devices.DeviceFault.{DeviceFault};
ghost use Rattle.colfind_io.specs.Devices.{after_piece, with_piece, moved, takes_nothing, one_if, EndsOnlyAtEnd};

/// A reader or a writer has failed.
#[derive(Clone, Copy, Debug, PartialEq, Eq)]
pub struct DeviceFault;

/// Bytes to read.
pub trait Source {
    /// The bytes that are left, or `None` of a reader whose bytes are not observable.
    ghost left: { Self → Option (List ℕ) };

    /// How often a read has failed.
    ghost failures: { Self → ℕ };

    /// Reads up to `buf.len()` bytes into the beginning of `buf`, and answers how many. `Ok(0)` for
    /// a buffer that is not empty reports the end. An `Err` reads nothing.
    fn read(&mut self, buf: &mut [u8]) -> Result<usize, DeviceFault>
        requires { failures self.old < 2 ^ 63 }
        ensures within { IfOk result (λ k. k ≤ length buf.old) }
        ensures bytes { left self.old ≡ after_piece (moved result buf.new) (left self.new) }
        ensures end { EndsOnlyAtEnd result buf.new (left self.new) }
        ensures count { failures self.new ≡ failures self.old + one_if (not (is_ok result)) };
}

/// A place to write bytes to.
pub trait Target {
    /// The bytes that were written, or `None` of a writer whose bytes are not observable.
    ghost held: { Self → Option (List ℕ) };

    /// The bytes that had been written at the last flush, or `None` where they are not observable.
    ghost flushed: { Self → Option (List ℕ) };

    /// How often a write or a flush has failed.
    ghost failures: { Self → ℕ };

    /// Takes bytes from the beginning of `buf`, and answers how many. An `Err` takes none. That a
    /// buffer which is not empty has no byte taken is a failure too.
    fn write(&mut self, buf: &[u8]) -> Result<usize, DeviceFault>
        requires writes { failures self.old < 2 ^ 63 }
        ensures within { IfOk result (λ k. k ≤ length buf.now) }
        ensures bytes { held self.new ≡ with_piece (moved result buf.now) (held self.old) }
        ensures count { failures self.new
            ≡ failures self.old + one_if (takes_nothing result buf.now) };

    /// Sees to it that all that was written has gone out.
    fn flush(&mut self) -> Result<(), DeviceFault>
        requires { failures self.old < 2 ^ 63 }
        ensures bytes { held self.new ≡ held self.old }
        ensures flushed { OnOk result (flushed self.new ≡ held self.new) }
        ensures count { failures self.new ≡ failures self.old + one_if (not (is_ok result)) };
}

/// The files that the program reads.
pub trait Folder {
    /// A file that was opened for reading.
    type File: Source + Drop;

    /// The bytes of the file at a path, or `None` where they are not observable.
    ghost bytes_at: { Self → List ℕ → Option (List ℕ) };

    /// Whether no file can be opened at a path, where that is observable.
    ghost is_missing: { Self → List ℕ → Bool };

    /// The answers that `open` may give at a path. Code over any folder knows of one only where
    /// `open` gave it.
    ghost open_gives: { Self → List ℕ → Result Self.File DeviceFault → Type 0 };

    /// Opens the file at `path`.
    fn open(&self, path: &str) -> Result<Self::File, DeviceFault>
        ensures bytes { IfOk result (λ file. Self.File.left file ≡ bytes_at self.now path.now) }
        ensures missing { is_missing self.now path.now ≡ true → is_ok result ≡ false }
        ensures sound { IfOk result (λ file. Self.File.failures file ≡ 0) }
        ensures gives { open_gives self.now path.now result };
}
