//! How far the runs of `byte_dfa` go over a table of three rows, and where they accepted last, of which no clause says all: with and without
//! guesses, by four runs and by one.

ghost use Rattle.std.specs.Prelude.{◌≡◌, ◌*◌, ◌+◌, ◌≤◌, length, IfOk, OnOk};
ghost use Rattle.byte_dfa.specs.Moves.{HasRow};

use crate::calls::{same, same_at};
use byte_dfa::{Cells, Cursor, FIRST_ROW, Guesses, ROW};
use std::alloc::{AllocError, Global};
use std::process::Abort;

/// The row behind no letter of `ab`, the one behind its first, and the one behind both, which accepts.
const NONE: usize = FIRST_ROW;

const FIRST: usize = FIRST_ROW + ROW;

const BOTH: usize = FIRST_ROW + 2 * ROW + 1;

/// How many cells the three rows have, with those of the stops.
const CELLS: usize = 4 * (FIRST_ROW + 3 * ROW);

/// Fills the cells of the letters in a row, where a `b` leads to this row. The other cells are not known.
fn fill(cells: &mut Cells, row: usize, behind_b: usize)
    requires row { HasRow cells.old row }
    requires no_stop { FIRST_ROW ≤ row }
    requires first { HasRow cells.old FIRST }
    requires behind_b { HasRow cells.old behind_b }
    requires small { behind_b ≤ BOTH }
    ensures { length cells.new ≡ length cells.old }
{
    for byte in b'a'..b'{' {
        cells.set_cell(row, byte, NONE as u16);
    }
    cells.set_cell(row, b'a', FIRST as u16);
    cells.set_cell(row, b'b', behind_b as u16);
}

/// A table that accepts letters that end with `ab`. A run stops at what is no letter.
fn table_of_rows(alloc: Global) -> Result<Cells, AllocError>
    ensures { IfOk result (λ cells. length cells ≡ CELLS) }
{
    let mut cells = Cells::new(alloc);
    cells.add_row()?;
    cells.add_row()?;
    cells.add_row()?;
    fill(&mut cells, NONE, NONE);
    fill(&mut cells, FIRST, BOTH);
    fill(&mut cells, BOTH, NONE);
    Ok(cells)
}

/// How far a run goes over a piece from its beginning, and where it accepted last.
fn run_over(alloc: Global, cells: &Cells, piece: &[u8], by_four: bool) -> (usize, usize)
    requires { length cells.now ≡ CELLS }
{
    let mut guesses = Guesses::new(alloc);
    guesses.make(alloc, piece.len());
    let begun = Cursor {
        at: 0,
        row: NONE,
        accepted_at: 0,
        accepted_row: 0,
    };
    let near = if by_four {
        cells.run_by_four(piece, begun, NONE)
    } else {
        begun
    };
    let end = cells.run_to_end(piece, &mut guesses, near);
    (end.at, end.accepted_at)
}

/// The same over a new table.
fn run_of(rt: &impl Abort, alloc: Global, piece: &[u8], by_four: bool) -> (usize, usize) {
    run_over(
        alloc,
        &table_of_rows(alloc).expect(rt, "memory"),
        piece,
        by_four,
    )
}

/// Compares how far runs of both kinds go over a piece, and where the one run and the four accepted last.
fn runs_are(rt: &impl Abort, alloc: Global, piece: &[u8], at: usize, accepted_at: [usize; 2]) {
    let [one, four] = accepted_at;
    same(rt, &run_of(rt, alloc, piece, false), &(at, one));
    same(rt, &run_of(rt, alloc, piece, true), &(at, four));
}

/// A piece, how far runs go, and where they accepted last.
const SHORT: [(&str, usize, usize); 7] = [
    ("", 0, 0),
    ("mm", 2, 0),
    ("ab", 2, 2),
    ("mabmaab", 7, 7),
    ("abm", 3, 2),
    ("aab mab", 3, 3),
    (" ab", 0, 0),
];

/// Short pieces, which single moves go over: to the end, or to what is no letter.
#[test]
fn short_pieces_are_gone_over(rt: HostRuntime) {
    for (piece, at, accepted_at) in &SHORT {
        let accepted_at = [*accepted_at, *accepted_at];
        runs_are(&rt, rt.alloc(), piece.as_bytes(), *at, accepted_at);
    }
}

/// Writes `ab` at a place, as far as the piece has it.
fn put_both(piece: &mut [u8], place: usize) {
    put_byte(piece, place, b'a');
    put_byte(piece, place.saturating_add(1), b'b');
}

/// Writes a byte at a place, if the piece has it.
fn put_byte(piece: &mut [u8], place: usize, letter: u8) {
    if let Some(byte) = piece.get_mut(place) {
        *byte = letter;
    }
}

/// Compares runs over a piece of 3,000 bytes, with `ab` at a place and a space at another one.
fn long_runs_are(rt: &impl Abort, alloc: Global, row: &(usize, usize, usize, [usize; 2])) {
    let (letters, space, at, accepted_at) = *row;
    let mut piece = [b'm'; 3_000];
    put_both(&mut piece, letters);
    put_byte(&mut piece, space, b' ');
    runs_are(rt, alloc, &piece, at, accepted_at);
}

/// Where `ab` stands, where the space stands, how far runs go, and where the one and the four accepted last.
const LONG: [(usize, usize, usize, [usize; 2]); 8] = [
    (10, 3_000, 3_000, [12, 0]),
    (2_990, 3_000, 3_000, [2_992, 2_992]),
    (2_998, 3_000, 3_000, [3_000, 3_000]),
    (10, 700, 700, [12, 0]),
    (900, 1_000, 1_000, [902, 902]),
    (900, 2_000, 2_000, [902, 0]),
    (2_400, 2_500, 2_500, [2_402, 0]),
    (2_600, 2_500, 2_500, [0, 0]),
];

/// Long pieces, with `ab` at a place and a space at another one: in each of four runs, in a window, and in the bytes behind the last one.
/// Four runs note no place but where one goes on alone, before a stop and in the last bytes.
#[test]
fn long_pieces_are_gone_over(rt: HostRuntime) {
    for row in &LONG {
        long_runs_are(&rt, rt.alloc(), row);
    }
}

/// The end of a run that begins behind the first fifty bytes, in a row that accepts, and where it accepted last.
fn run_behind(rt: &impl Abort, alloc: Global, piece: &[u8], with_guesses: bool) -> (usize, usize) {
    if piece.len() < 50 {
        return (0, 0);
    }
    let cells = table_of_rows(alloc).expect(rt, "memory");
    let mut guesses = Guesses::new(alloc);
    if with_guesses {
        guesses.make(alloc, piece.len());
    }
    let begun = Cursor {
        at: 50,
        row: BOTH,
        accepted_at: 50,
        accepted_row: BOTH,
    };
    let end = cells.run_to_end(piece, &mut guesses, begun);
    (end.at, end.accepted_at)
}

/// Compares a run over a piece of 40,000 bytes, with `ab` twice near the beginning and at one other place, and a space.
fn leg_is(rt: &impl Abort, alloc: Global, letters: usize, space: usize) {
    let mut piece = [b'm'; 40_000];
    put_both(&mut piece, 10);
    put_both(&mut piece, 100);
    put_both(&mut piece, letters);
    put_byte(&mut piece, space, b' ');
    let behind = letters.saturating_add(2);
    let accepted_at = if behind <= space { behind } else { 102 };
    let ended = run_of(rt, alloc, &piece, false);
    same_at(rt, &ended, &(space, accepted_at), &letters);
}

/// Where `ab` stands.
const LETTERS: [usize; 11] = [
    8_189, 8_190, 8_191, 8_192, 8_790, 9_000, 16_382, 16_383, 16_384, 24_000, 39_998,
];

/// Where the space stands.
const SPACES: [usize; 9] = [
    8_191, 8_192, 8_193, 10_000, 16_383, 16_384, 16_385, 30_000, 40_000,
];

/// Pieces of several legs of 8,192 bytes, with `ab` twice near the beginning and at one other place, and a space: on both sides of the ends
/// of the first two legs, where windows end and within them, and in legs that are gone over by windows or by single moves.
#[test]
fn legs_are_gone_over(rt: HostRuntime) {
    for letters in &LETTERS {
        for space in &SPACES {
            leg_is(&rt, rt.alloc(), *letters, *space);
        }
    }
}

/// Compares a run over a piece of so many bytes, of which `ab` are the last.
fn end_is(rt: &impl Abort, alloc: Global, len: usize, accepted_at: usize) {
    let mut piece = [b'm'; 40_000];
    put_both(&mut piece, accepted_at.saturating_sub(2));
    let piece = piece.get(..len).unwrap_or(b"");
    let accepted_at = if accepted_at <= len { accepted_at } else { 0 };
    same(rt, &run_of(rt, alloc, piece, false), &(len, accepted_at));
}

/// Lengths of pieces.
const ENDS: [usize; 9] = [
    8_191, 8_192, 8_193, 8_204, 16_383, 16_384, 16_385, 24_576, 24_577,
];

/// Pieces that end with a leg, or next to its end, with `ab` as their last bytes, and without the last of them.
#[test]
fn pieces_end_with_a_leg(rt: HostRuntime) {
    let alloc = rt.alloc();
    for len in &ENDS {
        end_is(&rt, alloc, *len, *len);
        end_is(&rt, alloc, len.saturating_sub(1), *len);
    }
}

/// Writes `ab` again and again, so many bytes further on each time: where the last one ends that the piece has whole.
fn put_each(piece: &mut [u8], step: usize) -> usize {
    let mut accepted_at = 50;
    let mut place = 57usize;
    for _ in 0..piece.len() {
        put_both(piece, place);
        if place.saturating_add(2) <= piece.len() {
            accepted_at = place.saturating_add(2);
        }
        place = place.saturating_add(step);
    }
    accepted_at
}

/// Compares runs over a piece of 40,000 bytes, with guesses and without.
fn far_apart_is(rt: &impl Abort, alloc: Global, step: usize) {
    let mut piece = [b'm'; 40_000];
    let accepted_at = put_each(&mut piece, step);
    let want = (40_000, accepted_at);
    same_at(rt, &run_behind(rt, alloc, &piece, false), &want, &step);
    same_at(rt, &run_behind(rt, alloc, &piece, true), &want, &step);
}

/// Rows that accept far from one another, in runs that begin behind one, with guesses and without.
#[test]
fn rows_accept_far_apart(rt: HostRuntime) {
    for step in &[50, 200, 1_000, 3_000, 9_000, 17_000, 40_000] {
        far_apart_is(&rt, rt.alloc(), *step);
    }
}
