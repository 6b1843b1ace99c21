//! The rows and the implicit ranges of a table, as the lines of its file give them one by one.
ghost use Rattle.std.specs.Prelude.{◌≡◌, ℕ, List, [], ◌∷◌, ◌++◌, false, ◌==◌, ◌||◌, length, take, slice_get, is_some, None, Some, IfSome, OnOk, OnSome, option_copied, ◌<◌, ◌≤◌};
ghost use Rattle.collation_table.specs.Table.{TableMap, BeginsNoLongerString, ContinuesNoString, row_of, row_with, is_mapped, longest_mapped, most_elements};
ghost use Rattle.collation_table.specs.Unsafe.{has_point, is_unsafe, is_unsafe_by, lacks_primary};
ghost use Rattle.std.specs.List.{list_any};
ghost use Rattle.collation_table.specs.Entries.{part, after, rows_at, IsIndexed};
ghost use Rattle.collation_table.specs.WellFormed.{IsRowSound, breaks_ranges, AreLinesSound};

use crate::elements::Element;
use crate::pages::Place;
use crate::point_set::PointSet;
use crate::ranges::{self, ImplicitRange};
use crate::row_index::RowIndex;
use crate::trie::Trie;
use std::alloc::{AllocError, Global};
use std::marker::Model;

mod conditions;
mod overlay;

/// Where a row lies: its mapped string among the code points of all mapped strings, its elements among those of all rows.
#[derive(Clone, Copy, PartialEq, Eq, Debug)]
pub(crate) struct RowPlaces {
    string: Place,
    row: Place,
}

/// Rows in the order in which they were inserted, with an index of their mapped strings, and ranges of implicit weights. All
/// elements lie in one vector, and so do the code points of all mapped strings. The code points that the rows make unsafe are kept. Each
/// row and each range is known to meet the conditions on it; those on the whole table are decided by `fault`.
#[derive(Drop)]
pub(crate) struct Rows<I: RowIndex> {
    points: Vec<u32>,
    elements: Vec<Element>,
    places: Vec<RowPlaces>,
    index: I,
    unsafe_points: PointSet,
    ranges: Vec<ImplicitRange>,
    longest: usize,
    largest: usize,
}

impl<I: RowIndex> Model for Rows<I> {
    ghost Value = { TableMap };

    ghost view = { λ a. record {
      rows = rows_at a.points.items a.elements.items a.places.items;
      ranges = a.ranges.items;
    } };

    ghost invariant = { λ a.
        AreLinesSound (record {
          rows = rows_at a.points.items a.elements.items a.places.items;
          ranges = a.ranges.items;
        })
        × IsIndexed a.points.items a.elements.items a.places.items
        (I.finds a.index) a.longest a.largest
        × I.is_whole a.index
        × ((cp : ℕ) → has_point a.unsafe_points cp
        ≡ list_any (is_unsafe_by cp) (rows_at a.points.items a.elements.items a.places.items)) };
}

/// The elements at a place.
fn elements_at(elements: &[Element], place: Place) -> &[Element]
    requires start { place.start ≤ place.end }
    requires end { place.end ≤ length elements.now }
    ensures { result.now ≡ part elements.now place }
{
    &elements[place.start..place.end]
}

/// The code points at a place.
fn points_at(points: &[u32], place: Place) -> &[u32]
    requires start { place.start ≤ place.end }
    requires end { place.end ≤ length points.now }
    ensures { result.now ≡ part points.now place }
{
    &points[place.start..place.end]
}

/// Puts a list after the items of a vector. One item alone is not copied by a call: most strings and rows have one.
fn append<T: Copy>(items: &mut Vec<T>, list: &[T]) -> Result<(), AllocError>
    ensures { OnOk result (items.new.items ≡ items.old.items ++ list.now) }
{
    match list {
        [item] => items.push(*item)?,
        _ => items.extend_from_slice(list)?,
    }
    Ok(())
}

/// Whether the first of these elements has no primary weight.
fn lacks_primary(row: &[Element]) -> bool
    ensures { result ≡ lacks_primary row.now }
{
    match row {
        [] => true,
        [first, ..] => first.w1 == 0,
    }
}

/// Puts code points into a set.
fn put_all(points: &mut PointSet, cps: &[u32]) -> Result<(), AllocError>
    ensures { OnOk result ((q : ℕ) → has_point points.new q
        ≡ (has_point points.old q || list_any (λ c. c == q) cps.now)) }
{
    for cp in cps {
        points.insert(*cp)?;
    }
    Ok(())
}

/// Puts the code points that a row makes unsafe into a set. Where memory is refused, some of them may be in it.
fn put_unsafe(points: &mut PointSet, string: &[u32], row: &[Element]) -> Result<(), AllocError>
    ensures { OnOk result ((cp : ℕ) → has_point points.new cp
        ≡ (has_point points.old cp || is_unsafe_by cp (string.now, row.now))) }
{
    let [first, rest @ ..] = string else {
        return Ok(());
    };
    put_all(points, rest)?;
    if lacks_primary(row) {
        points.insert(*first)?;
    }
    Ok(())
}

/// Puts a row after those in the vectors and into the index, and what it makes unsafe into the set. Where memory is refused, it may be in
/// some of them.
fn store<I: RowIndex>(
    alloc: Global,
    points: &mut Vec<u32>,
    elements: &mut Vec<Element>,
    places: &mut Vec<RowPlaces>,
    index: &mut I,
    unsafe_points: &mut PointSet,
    string: &[u32],
    row: &[Element],
) -> Result<(), AllocError>
    requires whole { I.is_whole index.old }
    requires some { 0 < length string.now }
    ensures points { OnOk result (points.new.items ≡ points.old.items ++ string.now) }
    ensures elements { OnOk result (elements.new.items ≡ elements.old.items ++ row.now) }
    ensures places { OnOk result
        (places.new.items
        ≡ places.old.items
        ++ (record {
          string = after points.old.items string.now;
          row = after elements.old.items row.now;
        }) ∷ []) }
    ensures whole { OnOk result (I.is_whole index.new) }
    ensures here { OnOk result
        (I.finds index.new string.now ≡ Some (after elements.old.items row.now)) }
    ensures others { OnOk result ((q : List ℕ) → ((q ≡ string.now) → ⊥)
        → I.finds index.new q ≡ I.finds index.old q) }
    ensures unsafe_points { OnOk result ((cp : ℕ) → has_point unsafe_points.new cp
        ≡ (has_point unsafe_points.old cp || is_unsafe_by cp (string.now, row.now))) }
{
    let string_start = points.len();
    append(points, string)?;
    let row_start = elements.len();
    append(elements, row)?;
    let place = Place {
        start: row_start,
        end: elements.len(),
    };
    places.push(RowPlaces {
        string: Place {
            start: string_start,
            end: points.len(),
        },
        row: place,
    })?;
    index.insert(alloc, string, place)?;
    put_unsafe(unsafe_points, string, row)?;
    Ok(())
}

impl<I: RowIndex> Rows<I> {
    /// No rows and no ranges. Takes no memory.
    pub fn new(alloc: Global) -> Rows<I>
        ensures { result ≡ record { rows = []; ranges = [] } }
    {
        Rows {
            points: Vec::new(alloc),
            elements: Vec::new(alloc),
            places: Vec::new(alloc),
            index: I::new(alloc),
            unsafe_points: PointSet::new(alloc),
            ranges: Vec::new(alloc),
            longest: 0,
            largest: 2,
        }
    }

    /// The elements of the row of this string.
    pub fn row(&self, string: &[u32]) -> Option<&[Element]>
        ensures { option_copied result ≡ row_of self.now string.now }
    {
        match self.index.place(string) {
            Some(place) => Some(elements_at(self.elements.as_slice(), place)),
            None => None,
        }
    }

    /// Whether a row maps this string.
    pub fn maps(&self, string: &[u32]) -> bool
        ensures { result ≡ is_mapped self.now string.now }
    {
        self.index.place(string).is_some()
    }

    /// What finds the rows: it has a place for each string that a row maps, and for no other one.
    #[inline(always)]
    pub fn index(&self) -> &I
        ensures whole { I.is_whole result.now }
        ensures places { (string : List ℕ)
            → is_mapped self.now string ≡ is_some (I.finds result.now string) }
    {
        &self.index
    }

    /// Adds a row after the others. Where memory is refused, all rows and ranges are lost.
    pub fn insert(
        &mut self,
        alloc: Global,
        string: &[u32],
        row: &[Element],
    ) -> Result<(), AllocError>
        requires absent { is_mapped self.old string.now ≡ false }
        requires sound { IsRowSound string.now row.now }
        ensures { OnOk result
            (self.new ≡ record self.old { rows = self.old.rows ++ (string.now, row.now) ∷ [] }) }
    {
        let stored = store(
            alloc,
            &mut self.points,
            &mut self.elements,
            &mut self.places,
            &mut self.index,
            &mut self.unsafe_points,
            string,
            row,
        );
        match stored {
            Ok(()) => {
                self.longest = self.longest.max(string.len());
                self.largest = self.largest.max(row.len());
                Ok(())
            }
            Err(error) => {
                *self = Rows::new(alloc);
                Err(error)
            }
        }
    }

    /// The mapped string and the elements of a row, counted from 0.
    pub fn row_at(&self, number: usize) -> (&[u32], &[Element])
        requires { number < length self.now.rows }
        ensures value { slice_get self.now.rows number ≡ Some (result.0.now, result.1.now) }
        ensures sound { IsRowSound result.0.now result.1.now }
        ensures distinct { row_with result.0.now (take number self.now.rows) ≡ None }
    {
        let places = self.places[number];
        (
            points_at(self.points.as_slice(), places.string),
            elements_at(self.elements.as_slice(), places.row),
        )
    }

    /// How many rows there are.
    pub fn row_count(&self) -> usize
        ensures { result ≡ length self.now.rows }
    {
        self.places.len()
    }

    /// Whether a row makes `cp` unsafe.
    #[inline(always)]
    pub fn is_unsafe(&self, cp: u32) -> bool
        ensures { result ≡ is_unsafe self.now cp }
    {
        self.unsafe_points.contains(cp)
    }

    /// The number of code points of the longest mapped string.
    pub fn longest_key(&self) -> usize
        ensures { result ≡ longest_mapped self.now }
    {
        self.longest
    }

    /// The number of elements of the largest row, at least 2.
    pub fn most_elements(&self) -> usize
        ensures { result ≡ most_elements self.now }
    {
        self.largest
    }

    /// The ranges, in order.
    pub fn ranges(&self) -> &[ImplicitRange]
        ensures { result.now ≡ self.now.ranges }
    {
        self.ranges.as_slice()
    }

    /// Whether a range breaks the conditions on ranges together with those that were pushed.
    pub fn refuses(&self, range: &ImplicitRange) -> bool
        ensures { result ≡ breaks_ranges self.now.ranges range.now }
    {
        ranges::breaks_ranges(self.ranges.as_slice(), range)
    }

    /// Adds a range after the others.
    pub fn push_range(&mut self, range: ImplicitRange) -> Result<(), AllocError>
        requires { breaks_ranges self.old.ranges range ≡ false }
        ensures { OnOk result
            (self.new ≡ record self.old { ranges = self.old.ranges ++ range ∷ [] }) }
    {
        self.ranges.push(range)?;
        Ok(())
    }
}

impl Rows<Trie> {
    /// Whether a mapped string of two or more code points begins with `cp`.
    pub fn begins_longer_string(&self, cp: u32) -> bool
        ensures { result ≡ false → BeginsNoLongerString self.now cp }
    {
        self.index.begins_longer_string(cp)
    }

    /// The elements of the row of `cp` alone, if it has one, where no mapped string of two or more code points begins with it; `None`
    /// where one may.
    #[inline(always)]
    pub fn lone_row(&self, cp: u32) -> Option<Option<&[Element]>>
        ensures alone { OnSome result (BeginsNoLongerString self.now cp) }
        ensures row { IfSome result (λ row. option_copied row ≡ row_of self.now (cp ∷ [])) }
    {
        match self.index.lone_place(cp) {
            Some(Some(place)) => Some(Some(elements_at(self.elements.as_slice(), place))),
            Some(None) => Some(None),
            None => None,
        }
    }

    /// Whether `cp` stands after the first place in a mapped string.
    pub fn continues_string(&self, cp: u32) -> bool
        ensures { result ≡ false → ContinuesNoString self.now cp }
    {
        self.index.continues_string(cp)
    }
}
