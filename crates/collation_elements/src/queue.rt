//! The points of a window, of which nothing moves while the first ones leave and others come.
ghost use Rattle.std.specs.Prelude.{◌≡◌, ◌<◌, ◌≤◌, ◌==◌, [], ◌∷◌, ◌++◌, false, length, take, drop, remove, slice_get, Some, IfOk, All};
ghost use Rattle.std.specs.Option.{option_map_or};
ghost use Rattle.nfd_points.specs.Points.{is_starter};
ghost use Rattle.circular_buffer.specs.Buffer.{buffer, Buffer};
ghost use Rattle.collation_elements.specs.Units.{code_points};
ghost use Rattle.nfd_points.specs.declared.points.Point.{Point};

use arrayvec::ArrayVec;
use circular_buffer::HeapCircularBuffer;
use collation_table::MOST_STRING_POINTS;
use nfd_points::Point;
use std::alloc::{AllocError, Global};
use std::marker::Model;

/// Points in order, of which the first leave. A clause sees them as the items of a buffer.
#[derive(Drop)]
pub(crate) struct Queue {
    points: HeapCircularBuffer<Point>,
}

impl Model for Queue {
    ghost Value = { Buffer Point };

    ghost view = { λ q. q.points };

    ghost invariant = { λ q. All (λ p. p.cp < 0x110000) q.points.items };
}

/// Moves the point at `index` before the others, which keep their order.
fn move_to_front(points: &mut [Point], index: usize)
    requires { index < length points.old }
    ensures { drop 1 points.new ≡ remove points.old index }
{
    points[..index + 1].rotate_right(1);
}

impl Queue {
    pub(crate) fn with_capacity(alloc: Global, capacity: usize) -> Result<Self, AllocError>
        ensures { IfOk result (λ q. q ≡ buffer [] capacity) }
    {
        Ok(Queue {
            points: HeapCircularBuffer::with_capacity(alloc, capacity)?,
        })
    }

    #[inline(always)]
    pub(crate) fn len(&self) -> usize
        ensures len { result ≡ length self.now.items }
        ensures within { result ≤ self.now.capacity }
    {
        self.points.len()
    }

    pub(crate) fn is_full(&self) -> bool
        ensures full { result ≡ (length self.now.items == self.now.capacity) }
        ensures within { length self.now.items ≤ self.now.capacity }
    {
        self.points.len() == self.points.capacity()
    }

    /// The point at `index`, counted from the front.
    #[inline(always)]
    pub(crate) fn point(&self, index: usize) -> Point
        requires { index < length self.now.items }
        ensures point { slice_get self.now.items index ≡ Some result }
        ensures code_point { result.cp < 0x110000 }
    {
        match self.points.get(index) {
            // field by field: what lies between the fields would be copied too, and that waits for the last write
            Some(p) => Point {
                cp: p.cp,
                ccc: p.ccc,
                offset: p.offset,
                first: p.first,
            },
            None => unreachable!(),
        }
    }

    /// Whether there is a starter at `index`.
    #[inline(always)]
    pub(crate) fn has_starter_at(&self, index: usize) -> bool
        ensures { result ≡ option_map_or is_starter (slice_get self.now.items index) false }
    {
        match self.points.get(index) {
            Some(p) => p.ccc == 0,
            None => false,
        }
    }

    /// Puts the code points of the first `count` points, or of all where there are fewer, in place of what `prefix` holds.
    pub(crate) fn copy_prefix(&self, count: usize, prefix: &mut ArrayVec<u32, MOST_STRING_POINTS>)
        requires { count ≤ MOST_STRING_POINTS }
        ensures { prefix.new.items ≡ take count (code_points self.now.items) }
    {
        prefix.clear();
        for i in 0..count.min(self.points.len()) {
            prefix.push(self.point(i).cp);
        }
    }

    #[inline(always)]
    pub(crate) fn push(&mut self, p: Point)
        requires room { length self.old.items < self.old.capacity }
        requires code_point { p.cp < 0x110000 }
        ensures { self.new ≡ buffer (self.old.items ++ p ∷ []) self.old.capacity }
    {
        self.points.push_back(p);
    }

    /// Takes out the first `count` points.
    #[inline(always)]
    pub(crate) fn skip(&mut self, count: usize)
        requires { count ≤ length self.old.items }
        ensures { self.new ≡ buffer (drop count self.old.items) self.old.capacity }
    {
        for skipped in 0..count {
            self.points.pop_front();
        }
    }

    /// Takes out all points.
    pub(crate) fn clear(&mut self)
        ensures { self.new ≡ buffer [] self.old.capacity }
    {
        self.points.clear();
    }

    /// Takes out the point at `index`. The others keep their order. Those before it move, as only a contraction that is
    /// not contiguous asks for.
    pub(crate) fn remove(&mut self, index: usize)
        requires { index < length self.old.items }
        ensures { self.new ≡ buffer (remove self.old.items index) self.old.capacity }
    {
        move_to_front(self.points.make_contiguous(), index);
        self.points.pop_front();
    }
}
