//! Which characters are safe.
ghost use Rattle.std.specs.Prelude.{◌≡◌};
ghost use Rattle.collation_safe.specs.Safe.{is_safe_character};

use collation_table::Strings;
use nfd_points::points_of_character;

/// Whether each offset at which this character stands is safe.
#[inline]
pub fn is_safe<W: Strings>(table: &W, c: char) -> bool
    ensures { result ≡ is_safe_character (W.table table.now) c }
{
    let points = points_of_character(c, 0);
    match points.as_slice() {
        [] => false,
        [first, ..] => first.ccc == 0 && !table.is_unsafe(first.cp),
    }
}
