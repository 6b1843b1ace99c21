//! A table of cells: how rows are added and cells filled, and the runs over it.
ghost use Rattle.std.specs.Prelude.{◌≡◌, ◌≤◌, ◌++◌, replicate, slice_set, OnOk, OnErr, ℕ, List, []};
ghost use Rattle.byte_dfa.specs.Moves.{Follows, HasRow, IsCursor, added, cell_of, place, IsTable, HasEnded};

use crate::four_runs::run_by_four;
use crate::moves::{Cursor, UNIT};
use crate::windows::{Guesses, run_to_end};
use std::alloc::{AllocError, Global};
use std::marker::Model;

/// How far apart rows are added: each has room for its 256 cells whether it is to have an even number or the odd one behind it.
pub const ROW: usize = 66;

/// The first row that is added. The two before it are stops.
pub const FIRST_ROW: usize = 2 * ROW;

/// A cell whose move is not known: the row of a stop, all of whose cells are this one.
pub const UNKNOWN_CELL: u16 = 0;

/// Rows of cells, each cell of which is one of these rows. Contracts see the list of the cells.
#[derive(Drop)]
pub struct Cells {
    cells: Vec<u16>,
}

impl Model for Cells {
    ghost Value = { List ℕ };

    ghost view = { λ it. it.cells.items };

    ghost invariant = { λ it. IsTable it.cells.items };
}

impl Cells {
    /// There is no row yet. Takes no memory.
    pub fn new(alloc: Global) -> Cells
        ensures { result ≡ [] }
    {
        Cells {
            cells: Vec::new(alloc),
        }
    }

    /// Adds a row of moves that are not known, and before the first one two rows that are stops.
    pub fn add_row(&mut self) -> Result<(), AllocError>
        ensures ok { OnOk result (self.new ≡ self.old ++ replicate (added self.old) UNKNOWN_CELL) }
        ensures err { OnErr result (self.new ≡ self.old) }
    {
        let len = self.cells.len();
        let rows = if len == 0 { FIRST_ROW + ROW } else { ROW };
        let cells = UNIT * rows;
        // a quarter more than there are, not as many again
        if self.cells.capacity() < len + cells {
            self.cells.reserve_exact(cells.max(len / 4))?;
        }
        self.cells.resize(len + cells, UNKNOWN_CELL)
    }

    /// The cell of a byte in a row.
    #[inline(always)]
    pub fn cell(&self, row: usize, byte: u8) -> u16
        requires { HasRow self.now row }
        ensures { result ≡ cell_of self.now row byte }
    {
        self.cells[UNIT * row + byte as usize]
    }

    /// Writes the cell of a byte in a row that is no stop: another row, or a stop.
    #[inline(always)]
    pub fn set_cell(&mut self, row: usize, byte: u8, cell: u16)
        requires row { HasRow self.old row }
        requires no_stop { FIRST_ROW ≤ row }
        requires cell { HasRow self.old cell }
        ensures { self.new ≡ slice_set self.old (place row byte) cell }
    {
        self.cells[UNIT * row + byte as usize] = cell;
    }

    /// Goes up to the end of the piece, by windows and by single moves, or to a stop.
    #[inline(always)]
    pub fn run_to_end(&self, piece: &[u8], guesses: &mut Guesses, from: Cursor) -> Cursor
        requires { IsCursor self.now piece.now from }
        ensures follows { Follows self.now piece.now from result }
        ensures end { HasEnded self.now piece.now result }
    {
        run_to_end(&self.cells, piece, &mut guesses.rows, from)
    }

    /// Goes on by four runs where the piece is long enough, else not at all. Runs that are guessed begin in the row `home`.
    #[inline(always)]
    pub fn run_by_four(&self, piece: &[u8], from: Cursor, home: usize) -> Cursor
        requires cursor { IsCursor self.now piece.now from }
        requires home { HasRow self.now home }
        ensures { Follows self.now piece.now from result }
    {
        run_by_four(&self.cells, piece, from, home)
    }
}
