//! The points of one code point.
ghost use Rattle.std.specs.Prelude.{◌≡◌, ◌≤◌, true, length, All};
ghost use Rattle.nfd_points.specs.Points.{points_at, points_of};
ghost use Rattle.nfd_points.specs.Reordering.{IsSoundPoint};

use crate::limits::MOST_DECOMPOSITION;
use crate::points::{Point, is_plain};
use arrayvec::ArrayVec;
use unicode_normalization::Form;
use unicode_normalization::char::decomposition;

/// The points of the code point `c`, which stands at the byte `offset` of a text, counted from 0.
///
/// They are those of its canonical decomposition (UAX #15), one at least. It takes no memory.
#[inline]
pub fn points_of_character(c: char, offset: u64) -> ArrayVec<Point, MOST_DECOMPOSITION>
    ensures value { result.items ≡ points_of offset c }
    ensures sound { All IsSoundPoint result.items }
{
    if is_plain(c) {
        let mut points = ArrayVec::new();
        points.push(Point::plain(c, offset));
        return points;
    }
    let mut room = [c; 3];
    points_of_parts(decomposition(c, Form::Nfd, &mut room), offset)
}

/// The points of a code point with this decomposition.
fn points_of_parts(parts: &[char], offset: u64) -> ArrayVec<Point, MOST_DECOMPOSITION>
    requires { length parts.now ≤ MOST_DECOMPOSITION }
    ensures value { result.items ≡ points_at offset true parts.now }
    ensures sound { All IsSoundPoint result.items }
{
    let mut points = ArrayVec::new();
    let mut is_first = true;
    for part in parts {
        points.push(Point::new(*part, offset, is_first));
        is_first = false;
    }
    points
}
