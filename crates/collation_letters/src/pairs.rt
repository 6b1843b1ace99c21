//! The letter of two characters together: of those that are one mapped string, as a Thai or Lao vowel and the consonant behind it are, and of
//! one with a mark behind it that does not simply join, since it goes before another one or a unit may reach over it.
ghost use Rattle.std.specs.Prelude.{◌≡◌, ◌≤◌, [], ◌∷◌, true, false, length, All, IfSome};
ghost use Rattle.nfd_points.specs.declared.limits.TheConstants.{MOST_DECOMPOSITION};
ghost use Rattle.nfd_points.specs.Points.{is_starter, points_from, points_of};
ghost use Rattle.nfd_points.specs.Reordering.{IsSoundPoint};
ghost use Rattle.collation_table.specs.Table.{GoesOnInNoString, is_mapped};
ghost use Rattle.collation_letters.specs.Letters.{IsLetter, ordered_from};

use crate::finding::{are_apart, are_closed, begins_with_starter, letter_of};
use crate::letter::{Letter, UNKNOWN};
use crate::symbols::Lengths;
use arrayvec::ArrayVec;
use collation_elements::{Window, units_stay_apart};
use collation_pattern::Pattern;
use collation_table::Weights;
use nfd_points::{MOST_DECOMPOSITION, MOST_GIVEN, Point, Reorder, points_of_character};
use std::alloc::Global;

/// The letter of two characters, where patterns of these lengths have symbols, and they are a mapped string with which no longer one begins,
/// or the second is a mark. Their points go through the window, which is then as it was.
pub(crate) fn find_letter_of_pair<W: Weights>(
    alloc: Global,
    table: &W,
    pattern: &Pattern,
    lengths: Lengths,
    window: &mut Window,
    first: char,
    second: char,
) -> Letter
    requires empty { window.old.points ≡ [] }
    requires open { window.old.has_ended ≡ false }
    requires room { MOST_DECOMPOSITION ≤ window.old.capacity }
    ensures window { window.new ≡ window.old }
    ensures letter { IsLetter (W.table table.now) pattern.now (first ∷ second ∷ []) result }
{
    units_stay_apart();
    if let Some((one, other)) = points_of_pair(table, first, second) {
        let points = [one, other];
        let letter = letter_of(table, pattern, lengths, window, &points, true);
        return Letter {
            is_apart: are_apart(table, &points),
            ..letter
        };
    }
    let Some(points) = points_with_mark(alloc, first, second) else {
        return UNKNOWN;
    };
    let points = points.as_slice();
    let is_closed = are_closed(table, points);
    letter_of(table, pattern, lengths, window, points, is_closed).without_apart()
}

/// The points of a character and a mark behind it, in canonical order, unless they are many; `None` where `mark` begins with a starter.
fn points_with_mark(alloc: Global, first: char, mark: char) -> Option<ArrayVec<Point, MOST_GIVEN>>
    ensures points { IfSome result (λ ps. ps.items ≡ ordered_from 0 (first ∷ mark ∷ [])) }
    ensures sound { IfSome result (λ ps. All IsSoundPoint ps.items) }
    ensures some { IfSome result (λ ps. 1 ≤ length ps.items) }
    ensures few { IfSome result (λ ps. length ps.items ≤ MOST_DECOMPOSITION) }
{
    if begins_with_starter(points_of_character(mark, 0).as_slice()) {
        return None;
    }
    let mut reorder = Reorder::new(alloc);
    let mut points = ArrayVec::new();
    let Ok(()) = reorder.push(first, 0, &mut points) else {
        return None;
    };
    let mut rest = ArrayVec::new();
    let Ok(()) = reorder.push(mark, first.len_utf8() as u64, &mut rest) else {
        return None;
    };
    // all of the mark's wait
    if !rest.is_empty() || points.is_empty() {
        return None;
    }
    reorder.finish(&mut rest);
    if points.len() + rest.len() > MOST_DECOMPOSITION {
        return None;
    }
    points.try_extend_from_slice(rest.as_slice()).unwrap();
    Some(points)
}

/// The points of two characters that are a starter each, where they are a mapped string with which no longer one begins, as far as
/// the table knows.
fn points_of_pair<W: Weights>(table: &W, first: char, second: char) -> Option<(Point, Point)>
    ensures points { IfSome result (λ r. points_from 0 (first ∷ second ∷ []) ≡ r.0 ∷ r.1 ∷ []) }
    ensures sound { IfSome result (λ r. All IsSoundPoint (r.0 ∷ r.1 ∷ [])) }
    ensures starters { IfSome result (λ r. (is_starter r.0 ≡ true) × (is_starter r.1 ≡ true)) }
    ensures mapped { IfSome result (λ r. is_mapped (W.table table.now) (r.0.cp ∷ r.1.cp ∷ [])
        ≡ true) }
    ensures longest { IfSome result (λ r.
        GoesOnInNoString (W.table table.now) (r.0.cp ∷ r.1.cp ∷ [])) }
{
    let one = lone_starter(first, 0)?;
    let other = lone_starter(second, first.len_utf8() as u64)?;
    let string = [one.cp, other.cp];
    if table.longest(&string) != 2 || table.goes_on(&string) {
        return None;
    }
    Some((one, other))
}

/// The only point of a character that stands at this offset, if it is a starter.
fn lone_starter(c: char, offset: u64) -> Option<Point>
    ensures point { IfSome result (λ p. points_of offset c ≡ p ∷ []) }
    ensures sound { IfSome result IsSoundPoint }
    ensures starter { IfSome result (λ p. is_starter p ≡ true) }
{
    let points = points_of_character(c, offset);
    match points.as_slice() {
        [point] if point.ccc == 0 => Some(*point),
        _ => None,
    }
}
