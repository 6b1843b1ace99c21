//! A window of points, from whose front units are cut once they are decided, so that what follows cannot change them (UTS #10,
//! S2.1).
ghost use Rattle.std.specs.Prelude.{◌≡◌, ◌+◌, ◌<◌, ◌≤◌, ◌↔◌, List, [], ◌∷◌, ◌++◌, true, false, length, drop, slice_get, is_some, Some, if◌then◌else◌, IsTrue, IsSome, IfSome, OnSome, IfNone, IfOk, option_copied};
ghost use Rattle.std.specs.List.{list_any, All, Contains};
ghost use Rattle.unicode_normalization.specs.StreamSafe.{has_short_runs};
ghost use Rattle.nfd_points.specs.declared.points.Point.{Point};
ghost use Rattle.nfd_points.specs.declared.limits.TheConstants.{MOST_GIVEN};
ghost use Rattle.nfd_points.specs.Points.{is_starter};
ghost use Rattle.nfd_points.specs.Reordering.{IsSoundPoint, is_closed};
ghost use Rattle.circular_buffer.specs.Buffer.{buffer};
ghost use Rattle.collation_table.specs.Table.{TableMap, longest_mapped, is_mapped};
ghost use Rattle.collation_elements.specs.Units.{code_points, extended, prefix_length};
ghost use Rattle.collation_elements.specs.UnitValues.{IsUnitOf};
ghost use Rattle.collation_elements.specs.Windows.{Held, is_decided, next_cut, BeginsAlone, HasFirstRow, WindowStandsFor};

use crate::queue::Queue;
use crate::unit::Unit;
use arrayvec::ArrayVec;
use collation_table::{Element, MOST_STRING_POINTS, Weights};
use nfd_points::{MOST_GIVEN, Point};
use std::alloc::{AllocError, Global};
use std::marker::Model;

/// Points in order that no unit has taken.
#[derive(Drop)]
pub struct Window {
    queue: Queue,
    has_ended: bool,
    // where a string is gathered: kept from unit to unit, as all the room of a new one would be cleared
    string: ArrayVec<u32, MOST_STRING_POINTS>,
}

impl Model for Window {
    ghost Value = { Held };

    ghost view = { λ w. record {
      points = w.queue.items;
      capacity = w.queue.capacity;
      has_ended = w.has_ended;
    } };
}

impl Window {
    /// An empty window for a table whose longest mapped string has `longest_key` points, with room for those and for what one
    /// call of a `nfd_points::Reorder` gives.
    pub fn with_capacity(alloc: Global, longest_key: usize) -> Result<Self, AllocError>
        requires some { 1 ≤ longest_key }
        requires few { longest_key ≤ MOST_STRING_POINTS }
        ensures empty { IfOk result
            (λ w. w ≡ record {
              points = [];
              capacity = longest_key + MOST_GIVEN;
              has_ended = false;
            }) }
        ensures stands { IfOk result (λ w. (table : TableMap) → WindowStandsFor table w [] []) }
    {
        Ok(Window {
            queue: Queue::with_capacity(alloc, longest_key + MOST_GIVEN)?,
            has_ended: false,
            string: ArrayVec::new(),
        })
    }

    /// How many points it holds.
    pub fn len(&self) -> usize
        ensures len { result ≡ length self.now.points }
        ensures within { result ≤ self.now.capacity }
    {
        self.queue.len()
    }

    /// The point at `index`, counted from the front.
    pub fn point(&self, index: usize) -> Point
        requires { index < length self.now.points }
        ensures { slice_get self.now.points index ≡ Some result }
    {
        self.queue.point(index)
    }

    /// Whether there is room for no more points.
    pub fn is_full(&self) -> bool
        ensures full { IsTrue result ↔ (length self.now.points ≡ self.now.capacity) }
        ensures within { length self.now.points ≤ self.now.capacity }
    {
        self.queue.is_full()
    }

    /// Adds a point after the others. It is asked only where there is room and the end was not announced, and with a code point.
    #[inline(always)]
    pub fn push(&mut self, p: Point)
        requires room { length self.old.points < self.old.capacity }
        requires open { self.old.has_ended ≡ false }
        requires code_point { p.cp < 0x110000 }
        ensures points { self.new ≡ record self.old { points = self.old.points ++ p ∷ [] } }
        ensures last { is_closed self.new.points ≡ is_starter p }
        ensures stands { (table : TableMap) (taken : List Point) (given : List (List Point))
            → WindowStandsFor table self.old taken given
            → WindowStandsFor table self.new (taken ++ p ∷ []) given }
    {
        self.queue.push(p);
    }

    /// Adds points after the others.
    pub(crate) fn push_all(&mut self, points: &[Point])
        requires room { length self.old.points + length points.now ≤ self.old.capacity }
        requires open { self.old.has_ended ≡ false }
        requires sound { All IsSoundPoint points.now }
        ensures points { self.new ≡ record self.old { points = self.old.points ++ points.now } }
        ensures stands { (table : TableMap) (taken : List Point) (given : List (List Point))
            → WindowStandsFor table self.old taken given
            → WindowStandsFor table self.new (taken ++ points.now) given }
    {
        for point in points {
            self.push(*point);
        }
    }

    /// Puts in the points that another window held, whose end was not announced: this one, which is empty, goes on as that one.
    pub fn restore(&mut self, points: &[Point])
        requires empty { self.old.points ≡ [] }
        requires open { self.old.has_ended ≡ false }
        requires room { length points.now ≤ self.old.capacity }
        requires sound { All IsSoundPoint points.now }
        ensures points { self.new ≡ record self.old { points = points.now } }
        ensures stands_for { (table : TableMap) (read : Held) (taken : List Point)
            (given : List (List Point))
            → WindowStandsFor table read taken given → read.has_ended ≡ false
            → read.points ≡ points.now
            → WindowStandsFor table self.new taken given }
    {
        self.push_all(points);
    }

    /// Announces that no point follows.
    pub fn end(&mut self)
        ensures ended { self.new ≡ record self.old { has_ended = true } }
        ensures stands { (table : TableMap) (taken : List Point) (given : List (List Point))
            → WindowStandsFor table self.old taken given
            → WindowStandsFor table self.new taken given }
    {
        self.has_ended = true;
    }

    /// Takes out all points, and forgets that the end was announced: it is as a new window, for the points of another text.
    pub fn clear(&mut self)
        ensures empty { self.new
            ≡ record { points = []; capacity = self.old.capacity; has_ended = false } }
        ensures stands { (table : TableMap) → WindowStandsFor table self.new [] [] }
    {
        self.queue.clear();
        self.has_ended = false;
    }

    /// The next unit, taken out of the window, where it is decided, and no point that may follow can change it; else `None`, and
    /// the window stays as it was. So whatever follows, the units of what the window held are this one and then those of what it
    /// holds now: that is `stands`, where what it held was taken and nothing given.
    #[inline(always)]
    pub fn next_unit<'t, W: Weights>(&mut self, table: &'t W) -> Option<Unit<'t>>
        ensures decided { IsSome result ↔ IsTrue (is_decided (W.table table.now) self.old) }
        ensures unchanged { IfNone result (self.new ≡ self.old) }
        ensures rest { let cut = next_cut (W.table table.now) self.old.points in
            OnSome result (self.new ≡ record self.old { points = cut.rest }) }
        ensures unit { let cut = next_cut (W.table table.now) self.old.points in
            IfSome result (λ unit. IsUnitOf (W.table table.now) cut.unit unit) }
        ensures stands { let cut = next_cut (W.table table.now) self.old.points in
            OnSome result ((taken : List Point) (given : List (List Point))
            → WindowStandsFor (W.table table.now) self.old taken given
            → WindowStandsFor (W.table table.now) self.new taken (given ++ cut.unit ∷ [])) }
        // the points left were all there, and a run of non-starters among them is no longer
        ensures kept { OnSome result (All (Contains self.old.points) self.new.points) }
        ensures short { OnSome result (All IsSoundPoint self.old.points
            → has_short_runs 0 (code_points self.old.points) ≡ true
            → has_short_runs 0 (code_points self.new.points) ≡ true) }
        ensures fewer { OnSome result (length self.new.points < length self.old.points) }
        ensures room { IfNone result (self.old.has_ended ≡ false → is_closed self.old.points ≡ true
            → length self.old.points ≤ longest_mapped (W.table table.now)) }
        ensures last { OnSome result (self.old.has_ended ≡ false → is_closed self.old.points ≡ true
            → is_closed self.new.points ≡ true) }
    {
        let front = decided_front(&self.queue, self.has_ended, table, &mut self.string)?;
        Some(cut(&mut self.queue, table, front, &mut self.string))
    }
}

/// What is at the front of a window whose first unit is decided.
#[derive(Clone, Copy)]
struct Front<'t> {
    /// How many points the longest mapped string there has, or 1 where none is one.
    taken: usize,
    /// The row of the first point's code point, if it has one, where that is known to begin no mapped string of two or more.
    lone: Option<Option<&'t [Element]>>,
}

/// What is at the front, if the unit there is decided.
#[inline(always)]
fn decided_front<'t, W: Weights>(
    points: &Queue,
    has_ended: bool,
    table: &'t W,
    string: &mut ArrayVec<u32, MOST_STRING_POINTS>,
) -> Option<Front<'t>>
    ensures decided { let held : Held = record {
      points = points.now.items;
      capacity = points.now.capacity;
      has_ended = has_ended;
    } in
        is_some result ≡ is_decided (W.table table.now) held }
    ensures length { IfSome result
        (λ front. front.taken ≡ prefix_length (W.table table.now) points.now.items) }
    ensures alone { IfSome result
        (λ front. OnSome front.lone (BeginsAlone (W.table table.now) points.now.items)) }
    ensures row { IfSome result
        (λ front. IfSome front.lone
        (λ row. HasFirstRow (W.table table.now) points.now.items (option_copied row))) }
{
    if points.len() == 0 || (!has_ended && points.len() < table.longest_key()) {
        return None;
    }
    let first = points.point(0);
    let lone = table.lone_row(first.cp);
    let taken = prefix_length(points, table, lone.is_some(), string);
    if has_ended || has_starter_from(points, taken) {
        Some(Front { taken, lone })
    } else {
        None
    }
}

/// How many points the longest mapped string at the front has, or 1 where none is one. No mapped string is looked for where
/// none of two or more code points is known to begin with the first point's.
#[inline(always)]
fn prefix_length<W: Weights>(
    points: &Queue,
    table: &W,
    is_alone: bool,
    string: &mut ArrayVec<u32, MOST_STRING_POINTS>,
) -> usize
    requires some { 0 < length points.now.items }
    requires alone { is_alone ≡ true → BeginsAlone (W.table table.now) points.now.items }
    ensures { result ≡ prefix_length (W.table table.now) points.now.items }
{
    if is_alone {
        return 1;
    }
    longest_string(points, table, string)
}

/// How many points the longest mapped string at the front has, or 1 where none is one. It is looked for in `string`.
#[inline(never)]
fn longest_string<W: Weights>(
    points: &Queue,
    table: &W,
    string: &mut ArrayVec<u32, MOST_STRING_POINTS>,
) -> usize
    requires { 0 < length points.now.items }
    ensures { result ≡ prefix_length (W.table table.now) points.now.items }
{
    points.copy_prefix(table.longest_key(), string);
    table.longest(string.as_slice()).max(1)
}

/// Whether a starter stands at `index` or after it.
#[inline]
fn has_starter_from(points: &Queue, index: usize) -> bool
    ensures { result ≡ list_any is_starter (drop index points.now.items) }
{
    for i in index..points.len() {
        if points.has_starter_at(i) {
            return true;
        }
    }
    false
}

/// Takes the first unit, of which this is the front. Nothing joins a point with whose code point no mapped string of two or more
/// begins.
#[inline(always)]
fn cut<'t, W: Weights>(
    points: &mut Queue,
    table: &'t W,
    front: Front<'t>,
    string: &mut ArrayVec<u32, MOST_STRING_POINTS>,
) -> Unit<'t>
    requires some { 0 < length points.old.items }
    requires beginning { front.taken ≡ prefix_length (W.table table.now) points.old.items }
    requires alone { OnSome front.lone (BeginsAlone (W.table table.now) points.old.items) }
    requires row { IfSome front.lone
        (λ row. HasFirstRow (W.table table.now) points.old.items (option_copied row)) }
    ensures rest { let cut = next_cut (W.table table.now) points.old.items in
        points.new ≡ buffer cut.rest points.old.capacity }
    ensures unit { IsUnitOf (W.table table.now)
        (next_cut (W.table table.now) points.old.items).unit result }
{
    if let Some(row) = front.lone {
        let first_point = points.point(0);
        points.skip(1);
        return Unit::of_one(table, first_point, row);
    }
    cut_string(points, table, front.taken, string)
}

/// Takes the first unit, which begins with the first `taken` points: the longest mapped string at the front, or one point. Its code
/// points are gathered in `string`. It is kept apart, as few points are not units by themselves.
#[inline(never)]
fn cut_string<'t, W: Weights>(
    points: &mut Queue,
    table: &'t W,
    taken: usize,
    string: &mut ArrayVec<u32, MOST_STRING_POINTS>,
) -> Unit<'t>
    requires some { 0 < length points.old.items }
    requires beginning { taken ≡ prefix_length (W.table table.now) points.old.items }
    ensures rest { let cut = next_cut (W.table table.now) points.old.items in
        points.new ≡ buffer cut.rest points.old.capacity }
    ensures unit { IsUnitOf (W.table table.now)
        (next_cut (W.table table.now) points.old.items).unit result }
{
    let first_point = points.point(0);
    points.copy_prefix(taken, string);
    points.skip(taken);
    take_joining(points, table, string);
    Unit::new(table, first_point, string.as_slice())
}

/// Takes out each non-starter, up to the next starter, that no point left before it blocks and with which `string` is a longer
/// mapped string (UTS #10, S2.1.1 to S2.1.3).
fn take_joining<W: Weights>(
    points: &mut Queue,
    table: &W,
    string: &mut ArrayVec<u32, MOST_STRING_POINTS>,
)
    ensures string { (unit : List Point) → code_points unit ≡ string.old.items
        → string.new.items
        ≡ code_points (extended (W.table table.now) unit [] points.old.items).unit }
    ensures rest { (unit : List Point) → code_points unit ≡ string.old.items
        → points.new
        ≡ buffer (extended (W.table table.now) unit [] points.old.items).rest points.old.capacity }
{
    let mut left = 0;
    let mut highest_left = 0;
    while left < points.len() {
        let c = points.point(left);
        if c.ccc == 0 {
            break;
        }
        if highest_left < c.ccc && lengthen(string, table, c.cp) {
            points.remove(left);
        } else {
            highest_left = highest_left.max(c.ccc);
            left += 1;
        }
    }
}

/// Appends the code point to `string` where that makes a mapped string of the table, and says whether it did.
fn lengthen<W: Weights>(string: &mut ArrayVec<u32, MOST_STRING_POINTS>, table: &W, cp: u32) -> bool
    ensures value { result ≡ is_mapped (W.table table.now) (string.old.items ++ cp ∷ []) }
    ensures string { string.new.items
        ≡ (if result then string.old.items ++ cp ∷ [] else string.old.items) }
{
    if string.is_full() {
        return false;
    }
    string.push(cp);
    if table.row(string.as_slice()).is_some() {
        return true;
    }
    string.pop();
    false
}
