//! A table that is known to be well formed (UTS #10, section 5), and its look-ups.
ghost use Rattle.std.specs.Prelude.{◌≡◌, MatchResult, None, Some};
ghost use Rattle.collation_table.specs.Table.{HasSizes};
ghost use Rattle.collation_table.specs.WellFormed.{IsWellFormed, map_fault};
ghost use Rattle.collation_table.specs.Faults.{fault_at_line};

use crate::elements::Element;
use crate::faults::TableFault;
use crate::implicit;
use crate::lookup::{Strings, Weights};
use crate::rows::Rows;
use crate::trie::Trie;

/// A well-formed collation element table.
#[derive(Drop)]
pub struct Table {
    rows: Rows<Trie>,
    ghost well_formed: { IsWellFormed rows },
    ghost sizes: { HasSizes rows },
}

impl Table {
    /// The table of these rows and ranges, or the fault, at line 0, of the first condition on the whole table that they break: 12 no
    /// row, 6 WF2, 8 WF4, 9 WF5. Takes no memory.
    pub(crate) fn seal(rows: Rows<Trie>) -> Result<Table, TableFault>
        ensures { MatchResult result
            (λ t. (map_fault rows ≡ None) × (⟦<Table as Weights>⟧.table t ≡ rows))
            (λ fault. fault_at_line 0 (map_fault rows) ≡ Some fault) }
    {
        match rows.fault() {
            Some(kind) => Err(TableFault { line: 0, kind }),
            None => Ok(Table { rows }),
        }
    }
}

impl Weights for Table {
    ghost table = { λ t. t.rows };

    fn longest(&self, points: &[u32]) -> usize {
        self.rows.index().longest(points)
    }

    fn row(&self, string: &[u32]) -> Option<&[Element]> {
        self.rows.row(string)
    }

    #[inline(always)]
    fn implicit(&self, cp: u32) -> [Element; 2] {
        implicit::implicit_pair(self.rows.ranges(), cp)
    }

    fn begins_longer_string(&self, cp: u32) -> bool {
        self.rows.begins_longer_string(cp)
    }

    #[inline(always)]
    fn lone_row(&self, cp: u32) -> Option<Option<&[Element]>> {
        self.rows.lone_row(cp)
    }

    fn continues_string(&self, cp: u32) -> bool {
        self.rows.continues_string(cp)
    }

    fn goes_on(&self, string: &[u32]) -> bool {
        self.rows.index().goes_on(string)
    }

    fn longest_key(&self) -> usize {
        self.rows.longest_key()
    }

    fn most_elements(&self) -> usize {
        self.rows.most_elements()
    }

    ghost well_formed = { λ t. t.well_formed };

    ghost sizes = { λ t. t.sizes };
}

impl Strings for Table {
    #[inline(always)]
    fn is_unsafe(&self, cp: u32) -> bool {
        self.rows.is_unsafe(cp)
    }
}
