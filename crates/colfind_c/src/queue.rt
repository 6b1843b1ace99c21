//! Ranges that wait until C takes them.

ghost use Rattle.std.specs.Prelude.{◌≤◌, length};

use std::alloc::{AllocError, Global};

/// The start and the end of a range, in bytes from the beginning of the text, the end not included.
#[repr(C)]
#[derive(Clone, Copy)]
pub struct Range {
    pub start: u64,
    pub end: u64,
}

/// Ranges in order, of which some at the front were taken.
#[derive(Drop)]
pub struct Queue {
    pub(crate) ranges: Vec<Range>,
    pub(crate) taken: usize,
    /// Whether memory for a range was refused.
    pub(crate) lost: bool,
    ghost within: { taken ≤ length ranges.items },
}

impl Queue {
    ghost use Rattle.std.specs.Prelude.{◌≡◌, ◌+◌, ◌-◌, ◌≤◌, ℕ, List, ◌∷◌, [], ◌++◌, length, take, drop, min, OnOk, false};
    ghost use Rattle.colfind_c.specs.Queues.{Waits, HasRoomFor, Gets, waiting, pairs};

    /// An empty queue.
    pub(crate) fn new(alloc: Global) -> Queue
        ensures waits { Waits result [] }
        ensures empty { (result.lost ≡ false) × (waiting result ≡ []) }
    {
        Queue {
            ranges: Vec::new(alloc),
            taken: 0,
            lost: false,
        }
    }

    /// Puts a range at the end.
    pub(crate) fn put(&mut self, start: u64, end: u64)
        ensures { Gets self.old ((start, end) ∷ []) self.new }
    {
        if self.ranges.push(Range { start, end }).is_err() {
            self.lost = true;
        }
    }

    /// Puts ranges at the end, in order.
    pub(crate) fn put_all(&mut self, ranges: &[(u64, u64)])
        ensures { Gets self.old ranges.now self.new }
    {
        for (start, end) in ranges {
            self.put(*start, *end);
        }
    }

    /// Makes room for so many ranges.
    ///
    /// # Errors
    ///
    /// Where memory was refused.
    pub(crate) fn reserve(&mut self, count: usize) -> Result<(), AllocError>
        ensures same { (self.new.lost ≡ self.old.lost) × (waiting self.new ≡ waiting self.old) }
        ensures room { OnOk result (self.old.lost ≡ false → HasRoomFor self.new count) }
    {
        self.ranges.reserve(count)
    }

    /// Drops the ranges that wait, and forgets that one was lost.
    pub(crate) fn clear(&mut self)
        ensures empty { waiting self.new ≡ [] }
        ensures kept { self.new.lost ≡ false }
    {
        self.taken = 0;
        self.ranges.clear();
        self.lost = false;
    }

    /// How many ranges wait.
    pub(crate) fn len(&self) -> usize
        ensures { result ≡ length (waiting self.now) }
    {
        self.ranges.len() - self.taken
    }

    /// Takes ranges from the front, as many as wait and have room: how many.
    pub(crate) fn take(&mut self, out: &mut [Range]) -> usize
        ensures count { result ≡ min (length out.old) (length (waiting self.old)) }
        ensures len { length out.new ≡ length out.old }
        ensures given { waiting self.old ≡ pairs (take result out.new) ++ waiting self.new }
        ensures lost { self.new.lost ≡ self.old.lost }
    {
        let count = out.len().min(self.len());
        let end = self.taken + count;
        out[..count].copy_from_slice(&self.ranges[self.taken..end]);
        if end == self.ranges.len() {
            self.taken = 0;
            self.ranges.clear();
        } else {
            self.taken = end;
        }
        count
    }
}
