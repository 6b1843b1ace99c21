//! The lines of ranges on their way to a writer: they are gathered, and go out together.
ghost use Rattle.std.specs.Prelude.{◌≡◌, ℕ, ◌+◌, ◌<◌, ◌≤◌, ◌^◌, [], ◌∷◌, ◌++◌, List, Option, length, not, is_ok, OnOk, OnErr, false};
ghost use Rattle.colfind_io.specs.Devices.{with_piece, one_if};
ghost use Rattle.colfind_io.specs.Writing.{WritesPrefix};
ghost use Rattle.colfind_io.specs.Printing.{output};
ghost use Rattle.colfind_io.specs.Gathering.{Prints};

use crate::devices::{DeviceFault, Target};
use crate::output::{MOST_LINE_BYTES, Output};
use crate::writing::{write_all, write_end};
use arrayvec::ArrayString;

/// How many bytes of lines are gathered at most.
pub const MOST_WAITING_BYTES: usize = 8192;

/// Lines that wait for a writer, and the number of ranges so far.
#[derive(Drop)]
pub struct Lines {
    pub form: Output,
    count: u64,
    pub waiting: ArrayString<MOST_WAITING_BYTES>,
    /// A write has failed, after which nothing more is written.
    pub failed: bool,
}

impl Lines {
    /// No lines so far.
    pub fn new(form: Output) -> Self
        ensures prints { (held : Option (List ℕ)) (failures : ℕ)
            → Prints form result [] held held failures failures }
        ensures good { result.failed ≡ false }
    {
        Lines {
            form,
            count: 0,
            waiting: ArrayString::new(),
            failed: false,
        }
    }

    /// Whether a write has failed.
    pub fn has_failed(&self) -> bool
        ensures { result ≡ self.now.failed }
    {
        self.failed
    }

    /// Writes the lines that wait. After a failed write they are dropped. It is kept apart, so that a range does not pay for its loop.
    #[inline(never)]
    pub fn send<O: Target>(&mut self, out: &mut O)
        requires { self.old.failed ≡ false → O.failures out.old < 2 ^ 63 }
        ensures prints { (form : Output) (ranges : List (ℕ × ℕ)) (before : Option (List ℕ))
            (failures : ℕ)
            → Prints form self.old ranges before (O.held out.old) failures (O.failures out.old)
            → Prints form self.new ranges before (O.held out.new) failures (O.failures out.new) }
        ensures sent { self.new.waiting.bytes ≡ [] }
        ensures same { self.new.count ≡ self.old.count }
        ensures ready { self.new.failed ≡ false → O.failures out.new < 2 ^ 63 }
    {
        if self.failed {
            self.waiting.clear();
            return;
        }
        self.failed = write_all(out, self.waiting.as_str().as_bytes()).is_err();
        self.waiting.clear();
    }

    /// Writes the lines that wait, if there is no room for the lines of one more range.
    fn make_room<O: Target>(&mut self, out: &mut O)
        requires { self.old.failed ≡ false → O.failures out.old < 2 ^ 63 }
        ensures prints { (form : Output) (ranges : List (ℕ × ℕ)) (before : Option (List ℕ))
            (failures : ℕ)
            → Prints form self.old ranges before (O.held out.old) failures (O.failures out.old)
            → Prints form self.new ranges before (O.held out.new) failures (O.failures out.new) }
        ensures room { length self.new.waiting.bytes + MOST_LINE_BYTES ≤ MOST_WAITING_BYTES }
        ensures ready { self.new.failed ≡ false → O.failures out.new < 2 ^ 63 }
    {
        if self.waiting.remaining_capacity() < MOST_LINE_BYTES {
            self.send(out);
        }
    }

    /// Appends the lines of a range, of which those so far may be written before.
    pub fn put<O: Target>(&mut self, out: &mut O, start: u64, end: u64)
        requires { self.old.failed ≡ false → O.failures out.old < 2 ^ 63 }
        ensures prints { (form : Output) (ranges : List (ℕ × ℕ)) (before : Option (List ℕ))
            (failures : ℕ)
            → Prints form self.old ranges before (O.held out.old) failures (O.failures out.old)
            → Prints form self.new (ranges ++ (start, end) ∷ []) before (O.held out.new) failures
            (O.failures out.new) }
        ensures ready { self.new.failed ≡ false → O.failures out.new < 2 ^ 63 }
    {
        self.make_room(out);
        // There are fewer ranges than the greatest number.
        self.count = self.count.saturating_add(1);
        self.form.print(&mut self.waiting, start, end);
    }

    /// Appends the lines of each of the ranges.
    pub fn put_all<O: Target>(&mut self, out: &mut O, ranges: &[(u64, u64)])
        requires { self.old.failed ≡ false → O.failures out.old < 2 ^ 63 }
        ensures prints { (form : Output) (handed : List (ℕ × ℕ)) (before : Option (List ℕ))
            (failures : ℕ)
            → Prints form self.old handed before (O.held out.old) failures (O.failures out.old)
            → Prints form self.new (handed ++ ranges.now) before (O.held out.new) failures
            (O.failures out.new) }
        ensures ready { self.new.failed ≡ false → O.failures out.new < 2 ^ 63 }
    {
        for (start, end) in ranges {
            self.put(out, *start, *end);
        }
    }

    /// The number of ranges.
    pub fn count(&self) -> u64
        ensures { result ≡ self.now.count }
    {
        self.count
    }

    /// Writes the lines that wait, then what is printed after all ranges, and flushes. After an error nothing more is written.
    pub fn finish<O: Target>(&mut self, out: &mut O) -> Result<(), DeviceFault>
        requires { self.old.failed ≡ false → O.failures out.old < 2 ^ 63 }
        ensures ok { (form : Output) (ranges : List (ℕ × ℕ)) (before : Option (List ℕ))
            (failures : ℕ) → length ranges < 2 ^ 64
            → Prints form self.old ranges before (O.held out.old) failures (O.failures out.old)
            → OnOk result (O.held out.new ≡ with_piece (output form ranges) before) }
        ensures err { (form : Output) (ranges : List (ℕ × ℕ)) (before : Option (List ℕ))
            (failures : ℕ) → length ranges < 2 ^ 64
            → Prints form self.old ranges before (O.held out.old) failures (O.failures out.old)
            → OnErr result (WritesPrefix before (O.held out.new) (output form ranges)) }
        ensures flushed { OnOk result (O.flushed out.new ≡ O.held out.new) }
        ensures same { self.new.count ≡ self.old.count }
        ensures count { (form : Output) (ranges : List (ℕ × ℕ)) (before : Option (List ℕ))
            (failures : ℕ)
            → Prints form self.old ranges before (O.held out.old) failures (O.failures out.old)
            → O.failures out.new ≡ failures + one_if (not (is_ok result)) }
    {
        self.send(out);
        if self.failed {
            return Err(DeviceFault);
        }
        write_end(out, self.form, self.count)
    }
}
