//! A run by windows of a few bytes, each begun in a guessed row, which counts where the run comes to it (README.md says why).
ghost use Rattle.std.specs.Prelude.{◌≡◌, ◌⊎◌, ◌+◌, ◌<◌, ◌≤◌, length, slice_index, IfSome};
ghost use Rattle.byte_dfa.specs.Moves.{Follows, HasEnded, IsCursor, IsSpot, IsTable, MovesLead};

use crate::moves::{Cursor, STOP, cell_at, come_to, run};
use std::alloc::Global;

/// How many bytes a window has: so few that the processor has several windows in hand.
const WINDOW: usize = 12;

/// How many guesses there are, a power of two.
const GUESSES: usize = 4_096;

/// The fewest bytes of a piece for which guesses are made.
const WORTH_GUESSES: usize = 2_048;

/// How many bytes a leg has, behind which it is seen whether a row accepts.
const LEG: usize = 8_192;

/// At a place of some bytes the row that was met last behind such bytes, or anything: a wrong one costs time alone.
#[derive(Drop)]
pub struct Guesses {
    pub(crate) rows: Vec<u16>,
}

impl Guesses {
    /// None are made yet. Takes no memory.
    pub fn new(alloc: Global) -> Guesses {
        Guesses {
            rows: Vec::new(alloc),
        }
    }

    /// Makes them where there are none, a piece of so many bytes is worth it and there is memory.
    #[inline(always)]
    pub fn make(&mut self, alloc: Global, len: usize) {
        if !self.rows.is_empty() || len < WORTH_GUESSES {
            return;
        }
        if let Ok(rows) = vec![in alloc; 0; GUESSES] {
            self.rows = rows;
        }
    }
}

/// Goes up to the end of the piece: by windows, and by single moves where they end. Single moves see all rows that they come to, windows
/// those at their ends. So behind a leg in which windows come to no row that accepts, single moves go on until they come to one.
pub(crate) fn run_to_end(cells: &[u16], piece: &[u8], guesses: &mut [u16], from: Cursor) -> Cursor
    requires cells { IsTable cells.now }
    requires cursor { IsCursor cells.now piece.now from }
    ensures follows { Follows cells.now piece.now from result }
    ensures end { HasEnded cells.now piece.now result }
{
    let mut begun = from;
    let mut near = run_by_windows(cells, piece, guesses, from);
    let mut cursor = near;
    'legs: loop {
        let to = cursor.at + LEG.min(piece.len() - cursor.at);
        cursor = run(cells, piece, cursor, to);
        if cursor.at < to || to == piece.len() {
            break;
        }
        if cursor.accepted_at >= near.at {
            begun = cursor;
            near = run_by_windows(cells, piece, guesses, cursor);
            cursor = near;
        }
    }
    noted(cells, piece, begun, near, cursor)
}

/// The same cursor, behind windows and single moves. Where these came to no row that accepts, the last one is looked for that windows went
/// over: at most two legs of them are gone over again.
#[inline(always)]
fn noted(cells: &[u16], piece: &[u8], begun: Cursor, near: Cursor, end: Cursor) -> Cursor
    requires cells { IsTable cells.now }
    requires begun { IsCursor cells.now piece.now begun }
    requires near { Follows cells.now piece.now begun near }
    requires end { Follows cells.now piece.now near end }
    ensures follows { Follows cells.now piece.now begun result }
    ensures at { result.at ≡ end.at }
    ensures row { result.row ≡ end.row }
{
    if end.accepted_at >= near.at || near.at == begun.at {
        return end;
    }
    let back = back_to_accepted(begun, near);
    let before = run(cells, piece, back, piece.len().min(near.at));
    Cursor {
        at: end.at,
        row: end.row,
        accepted_at: before.accepted_at,
        accepted_row: before.accepted_row,
    }
}

/// Goes by whole windows, up to one that is cut off by the end of the piece or by a stop, or to the end of a leg in which none came to a
/// row that accepts.
#[inline(never)]
fn run_by_windows(cells: &[u16], piece: &[u8], guesses: &mut [u16], from: Cursor) -> Cursor
    requires cells { IsTable cells.now }
    requires cursor { IsCursor cells.now piece.now from }
    ensures { Follows cells.now piece.now from result }
{
    if guesses.len() < GUESSES || piece.len() < WINDOW {
        return from;
    }
    let last = piece.len() - WINDOW;
    let mut cursor = from;
    'legs: while cursor.at <= last {
        let begun = cursor.at;
        let end = last.min(begun + LEG);
        'windows: while cursor.at <= end {
            let place = place_of(&piece[cursor.at..cursor.at + WINDOW]);
            let guess = guesses[place] as usize;
            let Some(row) = move_window(cells, piece, cursor.at, cursor.row) else {
                return cursor;
            };
            // where the two are equal the processor has gone on from the guess before it knew the row
            if row == guess {
                cursor = come_to(cursor, cursor.at + WINDOW, guess);
            } else {
                guesses[place] = row as u16;
                cursor = come_to(cursor, cursor.at + WINDOW, row);
            }
        }
        if cursor.accepted_at <= begun {
            break;
        }
    }
    cursor
}

/// The row behind a window; `None` where a run ends within: from a stop no move leads back.
#[inline(always)]
fn move_window(cells: &[u16], piece: &[u8], at: usize, row: usize) -> Option<usize>
    requires cells { IsTable cells.now }
    requires spot { IsSpot cells.now piece.now at row }
    requires within { at + WINDOW ≤ length piece.now }
    ensures leads { IfSome result (MovesLead cells.now piece.now at row (at + WINDOW)) }
    ensures below { IfSome result (λ come. come < 65536) }
{
    let mut now = row;
    let mut moves = 0;
    'moves: while moves < WINDOW {
        now = cell_at(cells, now, piece[at + moves]) as usize;
        moves += 1;
    }
    if now <= STOP as usize {
        return None;
    }
    Some(now)
}

/// The place of the guess for what stands behind a window: by its last three bytes, and of the one before them what kind it is.
#[inline(always)]
fn place_of(window: &[u8]) -> usize
    requires { length window.now ≡ WINDOW }
    ensures { result < GUESSES }
{
    let bytes = [window[8] & 0xE0, window[9], window[10], window[11]];
    let hash = u32::from_le_bytes(bytes).wrapping_mul(0x9E37_79B1);
    (hash >> 20) as usize % GUESSES
}

/// Where a row that accepts was met last since `begun`, else `begun`.
fn back_to_accepted(begun: Cursor, near: Cursor) -> Cursor
    ensures { (result ≡ begun) ⊎ (begun.at < near.accepted_at)
        × (result ≡ record near { at = near.accepted_at; row = near.accepted_row }) }
{
    if near.accepted_at <= begun.at {
        return begun;
    }
    Cursor {
        at: near.accepted_at,
        row: near.accepted_row,
        accepted_at: near.accepted_at,
        accepted_row: near.accepted_row,
    }
}
