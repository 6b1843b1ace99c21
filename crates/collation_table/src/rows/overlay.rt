//! The rows of two table files put together: those of a base, some of which are replaced by rows of a tailor.
ghost use Rattle.std.specs.Prelude.{◌≡◌, [], ◌++◌, filter, false, not, IfOk};
ghost use Rattle.std.specs.List.{list_any};
ghost use Rattle.collation_table.specs.Table.{is_mapped};
ghost use Rattle.collation_table.specs.Overlay.{overlay};

use super::Rows;
use crate::row_index::RowIndex;
use std::alloc::{AllocError, Global};
use std::mem;

impl<I: RowIndex> Rows<I> {
    /// The rows without the ranges, and the ranges without the rows. Takes no memory.
    pub fn apart(mut self, alloc: Global) -> (Rows<I>, Rows<I>)
        ensures rows { result.0 ≡ record self { ranges = [] } }
        ensures ranges { result.1 ≡ record self { rows = [] } }
    {
        let mut ranges = Rows::new(alloc);
        mem::swap(&mut self.ranges, &mut ranges.ranges);
        (self, ranges)
    }

    /// Whether `other` maps the string of one of the rows.
    pub fn shares_string(&self, other: &Rows<I>) -> bool
        ensures { result ≡ list_any (λ row. is_mapped other.now row.0) self.now.rows }
    {
        if other.row_count() == 0 {
            return false;
        }
        for number in 0..self.row_count() {
            let (string, _) = self.row_at(number);
            if other.maps(string) {
                return true;
            }
        }
        false
    }

    /// The rows whose strings `tailor` does not map. Where it maps none of them, nothing is built anew.
    fn without(self, alloc: Global, tailor: &Rows<I>) -> Result<Rows<I>, AllocError>
        ensures { IfOk result
            (λ kept. kept.rows ≡ filter (λ row. not (is_mapped tailor.now row.0)) self.rows) }
    {
        if !self.shares_string(tailor) {
            return Ok(self);
        }
        let mut kept = Rows::new(alloc);
        for number in 0..self.row_count() {
            let (string, row) = self.row_at(number);
            if !tailor.maps(string) {
                kept.insert(alloc, string, row)?;
            }
        }
        Ok(kept)
    }

    /// The rows, and after them those of `tailor`.
    fn followed_by(self, alloc: Global, tailor: &Rows<I>) -> Result<Rows<I>, AllocError>
        requires apart { list_any (λ row. is_mapped tailor.now row.0) self.rows ≡ false }
        ensures { IfOk result (λ rows. rows.rows ≡ self.rows ++ tailor.now.rows) }
    {
        let mut rows = self;
        for number in 0..tailor.row_count() {
            let (string, row) = tailor.row_at(number);
            rows.insert(alloc, string, row)?;
        }
        Ok(rows)
    }

    /// The overlay of the rows by those of `tailor`, which has the ranges of both.
    pub fn overlaid(self, alloc: Global, tailor: Rows<I>) -> Result<Rows<I>, AllocError>
        ensures { IfOk result
            (λ rows. rows ≡ record { rows = (overlay self tailor).rows; ranges = tailor.ranges }) }
    {
        let kept = self.without(alloc, &tailor)?;
        let mut rows = kept.followed_by(alloc, &tailor)?;
        rows.ranges = tailor.ranges;
        Ok(rows)
    }
}
