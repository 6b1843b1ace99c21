//! A run by single moves.
ghost use Rattle.std.specs.Prelude.{◌≡◌, ◌⊎◌, ◌<◌, ◌≤◌, length, slice_index};
ghost use Rattle.byte_dfa.specs.Moves.{Accepts, Follows, IsCursor, IsTable, cell_of, place};

/// By how many cells the rows of two numbers that follow each other lie apart. So the numbers that 16 bits have are enough for a thousand
/// rows, and a cell is found by one addition.
pub const UNIT: usize = 4;

/// The stop for a byte at which there is no move. A run ends at each cell up to this one.
pub const STOP: u16 = 66;

/// Where a run over a piece of bytes stands.
#[derive(Clone, Copy)]
pub struct Cursor {
    /// How many bytes of the piece are behind the run, and the row then.
    pub at: usize,
    pub row: usize,
    /// The same where it came last to a row that accepts; 0 before it did.
    pub accepted_at: usize,
    pub accepted_row: usize,
}

/// The cursor where a run came to a row further on.
#[inline(always)]
pub fn come_to(cursor: Cursor, at: usize, row: usize) -> Cursor
    ensures at { result.at ≡ at }
    ensures row { result.row ≡ row }
    ensures accepted { (result.accepted_at ≡ cursor.accepted_at)
        × (result.accepted_row ≡ cursor.accepted_row)
        ⊎ (result.accepted_at ≡ at) × (result.accepted_row ≡ row) × Accepts row }
    ensures noted { Accepts row → (result.accepted_at ≡ at) × (result.accepted_row ≡ row) }
{
    let (accepted_at, accepted_row) = if row % 2 == 1 {
        (at, row)
    } else {
        (cursor.accepted_at, cursor.accepted_row)
    };
    Cursor {
        at,
        row,
        accepted_at,
        accepted_row,
    }
}

/// Makes single moves up to an offset.
#[inline(never)]
pub(crate) fn run(cells: &[u16], piece: &[u8], from: Cursor, to: usize) -> Cursor
    requires cells { IsTable cells.now }
    requires cursor { IsCursor cells.now piece.now from }
    requires to { to ≤ length piece.now }
    ensures follows { Follows cells.now piece.now from result }
    ensures to { from.at ≤ to → result.at ≤ to }
    ensures end { (to ≤ result.at)
        ⊎ (cell_of cells.now result.row (slice_index piece.now result.at) ≤ STOP) }
{
    let mut at = from.at;
    let mut row = from.row;
    let mut accepted_at = from.accepted_at;
    let mut accepted_row = from.accepted_row;
    'bytes: while at < to {
        let cell = cell_at(cells, row, piece[at]);
        if cell <= STOP {
            break;
        }
        row = cell as usize;
        at += 1;
        if row % 2 == 1 {
            accepted_at = at;
            accepted_row = row;
        }
    }
    Cursor {
        at,
        row,
        accepted_at,
        accepted_row,
    }
}

/// The cell of a byte in a row. The column comes first, so that a move waits for nothing but its row.
#[inline(always)]
pub(crate) fn cell_at(cells: &[u16], row: usize, byte: u8) -> u16
    requires { place row byte < length cells.now }
    ensures { result ≡ cell_of cells.now row byte }
{
    let column = &cells[byte as usize..];
    column[UNIT * row]
}
