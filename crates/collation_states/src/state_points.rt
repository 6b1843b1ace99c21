//! Reads the points of a state: those in the window and those that wait.

ghost use Rattle.std.specs.Prelude.{◌≡◌, ◌*◌, ◌≤◌, ◌&&◌, ◌==◌, length, All, is_some, nat_lt, IfSome, IsTrue};
ghost use Rattle.std.specs.Char.{IsScalar};
ghost use lib.Utf8.{scalar};
ghost use Rattle.unicode_normalization.specs.Lookups.{canonical_combining_class};
ghost use Rattle.unicode_normalization.specs.StreamSafe.{has_short_runs};
ghost use Rattle.collation_table.specs.declared.limits.TheConstants.{MOST_STRING_POINTS};
ghost use Rattle.nfd_points.specs.declared.limits.TheConstants.{MOST_WAITING};
ghost use Rattle.nfd_points.specs.Reordering.{IsSoundPoint, IsHeld, code_points, is_closed};
ghost use Rattle.collation_states.specs.StateTests as tests;

use arrayvec::ArrayVec;
use collation_table::MOST_STRING_POINTS;
use nfd_points::{MOST_WAITING, Point, Reorder};

/// A word as a character.
fn character(word: u64) -> Option<char>
    ensures value { IfSome result (λ c. (c ≡ word) × IsScalar word) }
    ensures scalar { scalar word ≡ is_some result }
{
    if word > 0x10_FFFF {
        return None;
    }
    char::from_u32(word as u32)
}

/// The character, or U+0000 in place of one that is not its own canonical decomposition: no text has such a point, and it counts
/// as a starter.
fn decomposed(c: char) -> char
    ensures { result ≡ tests.decomposed c }
{
    if Point::is_decomposed(c) { c } else { '\0' }
}

/// The point of a record, where the record has one with an offset before `end`.
fn read_point(end: u64, cp: u64, offset: u64, is_first: u64, zero: u64) -> Option<Point>
    ensures point { IfSome result
        (λ p. p ≡ record {
          cp = tests.decomposed cp;
          ccc = canonical_combining_class
              (tests.decomposed cp);
          offset = offset;
          first = is_first == 1;
        }) }
    ensures sound { IfSome result IsSoundPoint }
    ensures right { is_some result
        ≡ (scalar cp && (nat_lt offset end && (tests.is_flag is_first && zero == 0))) }
{
    if offset >= end || is_first > 1 || zero != 0 {
        return None;
    }
    match character(cp) {
        Some(c) => Some(Point::new(decomposed(c), offset, is_first == 1)),
        None => None,
    }
}

/// The points of a window, or those that wait.
pub type Points = ArrayVec<Point, MOST_STRING_POINTS>;

/// The points of records, where all of them have one with an offset before `end`.
pub(crate) fn read_points(end: u64, words: &[u64]) -> Option<Points>
    requires { length words.now ≤ 4 * MOST_STRING_POINTS }
    ensures points { IfSome result (λ points. points.items ≡ tests.points_in words.now) }
    ensures sound { IfSome result (λ points. All IsSoundPoint points.items) }
    ensures right { tests.are_points end words.now ≡ is_some result }
    ensures few { IfSome result (λ points. 4 * length points.items ≤ length words.now) }
{
    let mut points = ArrayVec::new();
    let mut rest = words;
    while let [cp, offset, is_first, zero, later @ ..] = rest {
        match read_point(end, *cp, *offset, *is_first, *zero) {
            Some(point) => points.push(point),
            None => return None,
        }
        rest = later;
    }
    if rest.is_empty() { Some(points) } else { None }
}

/// Whether points may be those of a window: the last one is a starter, and no 31 non-starters stand in a row.
pub(crate) fn may_be_in_window(points: &[Point]) -> bool
    requires { All IsSoundPoint points.now }
    ensures { result ≡ tests.may_be_in_window points.now }
{
    are_closed(points) && have_short_runs(points)
}

/// Whether there is no point, or the last one is a starter.
fn are_closed(points: &[Point]) -> bool
    ensures { result ≡ is_closed points.now }
{
    match points.last() {
        Some(point) => point.ccc == 0,
        None => true,
    }
}

/// Whether no 31 non-starters stand in a row.
fn have_short_runs(points: &[Point]) -> bool
    requires { All IsSoundPoint points.now }
    ensures { result ≡ has_short_runs 0 (code_points points.now) }
{
    let mut run = 0;
    for point in points {
        if point.ccc == 0 {
            run = 0;
        } else if run < MOST_WAITING {
            run += 1;
        } else {
            return false;
        }
    }
    true
}

/// Whether points may be those that wait: non-starters in canonical order.
pub(crate) fn may_wait(points: &[Point]) -> bool
    requires sound { All IsSoundPoint points.now }
    requires few { length points.now ≤ MOST_WAITING }
    ensures right { result ≡ tests.may_wait points.now }
    ensures held { IsTrue result → IsHeld points.now }
{
    Reorder::may_wait(points)
}
