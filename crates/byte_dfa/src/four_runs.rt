//! Four runs over a piece at once, three of them begun at a guess (README.md says why, and when what such a run did counts).
ghost use Rattle.std.specs.Prelude.{◌≡◌, ◌+◌, ◌<◌, ◌≤◌, length, IfSome};
ghost use Rattle.byte_dfa.specs.Moves.{Follows, HasRow, IsCursor, IsSpot, IsTable, MovesLead};
ghost use Rattle.byte_dfa.specs.Runs.{AreSpots, HasRun, HaveRun};

use crate::moves::{Cursor, STOP, cell_at, run};

/// The fewest bytes that four runs are begun for.
const FEWEST_IN_RUNS: usize = 1_024;

/// How far a character of ASCII is looked for, behind which a guess is likely to be right.
const ASCII_AHEAD: usize = 32;

/// By how many bytes a run is led from a guessed row to the one in which it begins.
const LEAD_IN: usize = 24;

/// How many moves are made at once.
const STRIDE: usize = 128;

/// How many bytes at the end of a piece are left to one run: it notes where a row accepts.
const TAIL: usize = 64;

/// Where a run stands: how many bytes of the piece are behind it, and the row.
#[derive(Clone, Copy)]
struct Spot {
    at: usize,
    row: usize,
}

/// Where four runs stand.
#[derive(Clone, Copy)]
struct Spots {
    first: Spot,
    second: Spot,
    third: Spot,
    fourth: Spot,
}

/// Goes on by four runs where the piece is long enough, else not at all. Runs that are guessed begin in the row `home`.
#[inline(never)]
pub(crate) fn run_by_four(cells: &[u16], piece: &[u8], from: Cursor, home: usize) -> Cursor
    requires cells { IsTable cells.now }
    requires cursor { IsCursor cells.now piece.now from }
    requires home { HasRow cells.now home }
    ensures { Follows cells.now piece.now from result }
{
    let Some(begun) = lead_in(cells, piece, from, home) else {
        return from;
    };
    let ended = run_all(cells, piece, begun);
    let first = Cursor {
        at: ended.first.at,
        row: ended.first.row,
        accepted_at: from.accepted_at,
        accepted_row: from.accepted_row,
    };
    let second = join(cells, piece, first, begun.second, ended.second);
    let third = join(cells, piece, second, begun.third, ended.third);
    join(cells, piece, third, begun.fourth, ended.fourth)
}

/// Where four runs begin, the first of which was led in from a cursor; `None` where that is not worth while.
fn lead_in(cells: &[u16], piece: &[u8], from: Cursor, home: usize) -> Option<Spots>
    requires cells { IsTable cells.now }
    requires cursor { IsCursor cells.now piece.now from }
    requires home { HasRow cells.now home }
    ensures first { IfSome result (λ to.
        MovesLead cells.now piece.now from.at from.row to.first.at to.first.row) }
    ensures spots { IfSome result (AreSpots cells.now piece.now) }
{
    let room = piece.len().checked_sub(from.at)?;
    if room < FEWEST_IN_RUNS {
        return None;
    }
    let gap = (room - TAIL) / 4;
    let second = near(piece, from.at + gap);
    let third = near(piece, from.at + 2 * gap);
    let fourth = near(piece, from.at + 3 * gap);
    let guessed = Spots {
        first: Spot {
            at: from.at,
            row: from.row,
        },
        second: Spot {
            at: second,
            row: home,
        },
        third: Spot {
            at: third,
            row: home,
        },
        fourth: Spot {
            at: fourth,
            row: home,
        },
    };
    move_all(cells, piece, guessed, LEAD_IN)
}

/// Moves four runs until one of them comes to the beginning of the next one or to the end of the piece, or would stop.
fn run_all(cells: &[u16], piece: &[u8], begun: Spots) -> Spots
    requires cells { IsTable cells.now }
    requires spots { AreSpots cells.now piece.now begun }
    ensures { HaveRun cells.now piece.now begun result }
{
    let mut now = begun;
    'strides: loop {
        let len = stride(&begun, &now, piece.len());
        if len == 0 {
            break;
        }
        let Some(next) = move_all(cells, piece, now, len) else {
            break;
        };
        now = next;
    }
    now
}

/// Where four runs stand after so many moves each; `None` where one of them stops before.
fn move_all(cells: &[u16], piece: &[u8], from: Spots, len: usize) -> Option<Spots>
    requires cells { IsTable cells.now }
    requires spots { AreSpots cells.now piece.now from }
    requires first { from.first.at + len ≤ length piece.now }
    requires second { from.second.at + len ≤ length piece.now }
    requires third { from.third.at + len ≤ length piece.now }
    requires fourth { from.fourth.at + len ≤ length piece.now }
    ensures run { IfSome result (HaveRun cells.now piece.now from) }
    ensures on { IfSome result (λ to. to.fourth.at ≡ from.fourth.at + len) }
{
    let mut first = from.first.row;
    let mut second = from.second.row;
    let mut third = from.third.row;
    let mut fourth = from.fourth.row;
    let mut moves = 0;
    'moves: while moves < len {
        first = cell_at(cells, first, piece[from.first.at + moves]) as usize;
        second = cell_at(cells, second, piece[from.second.at + moves]) as usize;
        third = cell_at(cells, third, piece[from.third.at + moves]) as usize;
        fourth = cell_at(cells, fourth, piece[from.fourth.at + moves]) as usize;
        moves += 1;
    }
    // from a stop no move leads back
    if first.min(second).min(third).min(fourth) <= STOP as usize {
        return None;
    }
    Some(Spots {
        first: Spot {
            at: from.first.at + len,
            row: first,
        },
        second: Spot {
            at: from.second.at + len,
            row: second,
        },
        third: Spot {
            at: from.third.at + len,
            row: third,
        },
        fourth: Spot {
            at: from.fourth.at + len,
            row: fourth,
        },
    })
}

/// Goes on to where another run began, and on to where that one ended if it began in this row.
fn join(cells: &[u16], piece: &[u8], from: Cursor, begun: Spot, ended: Spot) -> Cursor
    requires cells { IsTable cells.now }
    requires cursor { IsCursor cells.now piece.now from }
    requires begun { IsSpot cells.now piece.now begun.at begun.row }
    requires run { HasRun cells.now piece.now begun ended }
    ensures { Follows cells.now piece.now from result }
{
    let come = run(cells, piece, from, begun.at);
    if come.at != begun.at || come.row != begun.row {
        return come;
    }
    Cursor {
        at: ended.at,
        row: ended.row,
        accepted_at: come.accepted_at,
        accepted_row: come.accepted_row,
    }
}

/// How many moves four runs make now: as many as a stride has, and none goes past the beginning of the next run.
fn stride(begun: &Spots, now: &Spots, len: usize) -> usize
    ensures first { 0 < result → now.now.first.at + result ≤ begun.now.second.at }
    ensures second { 0 < result → now.now.second.at + result ≤ begun.now.third.at }
    ensures third { 0 < result → now.now.third.at + result ≤ begun.now.fourth.at }
    ensures fourth { 0 < result → now.now.fourth.at + result ≤ len }
{
    let first = begun.second.at.saturating_sub(now.first.at);
    let second = begun.third.at.saturating_sub(now.second.at);
    let third = begun.fourth.at.saturating_sub(now.third.at);
    let fourth = len.saturating_sub(now.fourth.at);
    STRIDE.min(first).min(second).min(third).min(fourth)
}

/// Where the next character of ASCII begins, or, if none is near, any character.
fn near(piece: &[u8], at: usize) -> usize
    requires { at + 32 ≤ length piece.now }
    ensures { result ≤ at + 32 }
{
    let bytes = &piece[at..at + ASCII_AHEAD];
    let ascii = bytes.iter().take_while(|byte| **byte >= 0x80).count();
    if ascii < ASCII_AHEAD {
        return at + ascii;
    }
    at + bytes.iter().take_while(|byte| **byte < 0xC0).count()
}
