//! A plain table, whose rows an ordered map finds. It answers as `Table` does, with simpler parts.
ghost use Rattle.std.specs.Prelude.{◌≡◌, [], MatchResult, None, Some, IfOk, IfErr, OnOk};
ghost use Rattle.collation_table.specs.Table.{HasSizes};
ghost use Rattle.collation_table.specs.WellFormed.{IsWellFormed, map_fault};
ghost use Rattle.collation_table.specs.Faults.{fault_at_line, tailored_map, table_fault, SpellsTable, IsFaultOrAllocationRefused};

use crate::elements::Element;
use crate::faults::TableFault;
use crate::implicit;
use crate::lookup::{Strings, Weights};
use crate::plain_index::PlainIndex;
use crate::reader::{TableFile, read_lines};
use crate::rows::Rows;
use std::alloc::Global;

/// A well-formed collation element table, whose mapped strings are the keys of an ordered map. A search over it is slower than
/// over a `Table`: the longest prefix is found by trying one length after another.
#[derive(Drop)]
pub struct PlainTable {
    rows: Rows<PlainIndex>,
    ghost well_formed: { IsWellFormed rows },
    ghost sizes: { HasSizes rows },
}

impl PlainTable {
    /// The table of these rows and ranges, or the fault, at line 0, of the first condition on the whole table that they break: 12 no
    /// row, 6 WF2, 8 WF4, 9 WF5. Takes no memory.
    fn seal(rows: Rows<PlainIndex>) -> Result<PlainTable, TableFault>
        ensures { MatchResult result
            (λ t. (map_fault rows ≡ None) × (⟦<PlainTable as Weights>⟧.table t ≡ rows))
            (λ fault. fault_at_line 0 (map_fault rows) ≡ Some fault) }
    {
        match rows.fault() {
            Some(kind) => Err(TableFault { line: 0, kind }),
            None => Ok(PlainTable { rows }),
        }
    }

    /// Reads a table file, in the form and with the faults of `Table::read`.
    pub fn read(alloc: Global, bytes: &[u8]) -> Result<PlainTable, TableFault>
        // A table comes from a file with no fault, and is what the file spells.
        ensures accepted { OnOk result (table_fault bytes.now ≡ None) }
        ensures spelled { IfOk result
            (λ table. SpellsTable bytes.now (⟦<PlainTable as Weights>⟧.table table)) }
        ensures exact { IfOk result
            (λ table. ⟦<PlainTable as Weights>⟧.table table ≡ tailored_map bytes.now []) }
        ensures well_formed { IfOk result
            (λ table. IsWellFormed (⟦<PlainTable as Weights>⟧.table table)) }
        // The first fault is reported, unless memory was refused.
        ensures fault { IfErr result (IsFaultOrAllocationRefused (table_fault bytes.now)) }
    {
        let rows = read_lines(alloc, TableFile::Base, Rows::new(alloc), bytes)?;
        PlainTable::seal(rows)
    }
}

impl Weights for PlainTable {
    ghost table = { λ t. t.rows };

    fn longest(&self, points: &[u32]) -> usize {
        let mut length = points.len().min(self.rows.longest_key());
        while length > 0 && !self.rows.maps(&points[..length]) {
            length -= 1;
        }
        length
    }

    fn row(&self, string: &[u32]) -> Option<&[Element]> {
        self.rows.row(string)
    }

    fn implicit(&self, cp: u32) -> [Element; 2] {
        implicit::implicit_pair(self.rows.ranges(), cp)
    }

    fn longest_key(&self) -> usize {
        self.rows.longest_key()
    }

    fn most_elements(&self) -> usize {
        self.rows.most_elements()
    }

    ghost well_formed = { λ t. t.well_formed };

    ghost sizes = { λ t. t.sizes };
}

impl Strings for PlainTable {
    #[inline(always)]
    fn is_unsafe(&self, cp: u32) -> bool {
        self.rows.is_unsafe(cp)
    }
}
