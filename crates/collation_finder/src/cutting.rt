//! From points to ranges: a window, the units that it gives, and the matcher that these go through.
ghost use Rattle.std.specs.Prelude.{◌≡◌, ◌+◌, ◌≤◌, List, [], ◌++◌, length, All, false};
ghost use Rattle.arrayvec.specs.ArrayVec.{array_vec_len};
ghost use Rattle.nfd_points.specs.declared.points.Point.{Point};
ghost use Rattle.nfd_points.specs.Reordering.{IsSoundPoint};
ghost use Rattle.collation_table.specs.Table.{TableMap};
ghost use Rattle.collation_elements.specs.Windows.{WindowStandsFor};
ghost use Rattle.collation_finder.specs.Matching.{HasMatched, LeavesUndecided};
ghost use Rattle.collation_walk.specs.Walks.{KeepsWalk};

use arrayvec::ArrayVec;
use collation_elements::{Item, MOST_ITEMS, Window, decided_units_stay};
use collation_pattern::Pattern;
use collation_table::Weights;
use collation_walk::{Found, MOST_FOUND, Matcher, take_unit};
use nfd_points::Point;

/// Puts points at the end of a window.
pub(crate) fn push_points(window: &mut Window, points: &[Point])
    requires room { length window.old.points + length points.now ≤ window.old.capacity }
    requires open { window.old.has_ended ≡ false }
    requires sound { All IsSoundPoint points.now }
    ensures points { window.new ≡ record window.old { points = window.old.points ++ points.now } }
    ensures stands { (table : TableMap) (taken : List Point) (given : List (List Point))
        → WindowStandsFor table window.old taken given
        → WindowStandsFor table window.new (taken ++ points.now) given }
{
    for point in points {
        // field by field: the point was written so a moment ago, and a load across those stores waits for them
        window.push(Point {
            cp: point.cp,
            ccc: point.ccc,
            offset: point.offset,
            first: point.first,
        });
    }
}

/// Cuts all units that are decided, and walks over their items.
pub(crate) fn cut_units<W: Weights>(
    table: &W,
    pattern: &Pattern,
    window: &mut Window,
    matcher: &mut Matcher,
    items: &mut ArrayVec<Item, MOST_ITEMS>,
    found: &mut Found,
)
    requires state { matcher.old.walk.state ≤ length pattern.now.keys }
    requires room { array_vec_len found.old + length window.old.points ≤ MOST_FOUND }
    ensures stands { (points : List Point) (ranges : List _)
        → HasMatched (W.table table.now) pattern.now window.old matcher.old points
        (ranges ++ found.old.items)
        → HasMatched (W.table table.now) pattern.now window.new matcher.new points
        (ranges ++ found.new.items) }
    ensures few { array_vec_len found.new + length window.new.points
        ≤ array_vec_len found.old + length window.old.points }
    ensures leaves { LeavesUndecided (W.table table.now) window.old window.new }
    ensures keeps { KeepsWalk pattern.now matcher.old.walk matcher.new.walk }
{
    decided_units_stay();
    while let Some(unit) = window.next_unit(table) {
        take_unit(matcher, pattern, unit, items, found);
    }
}
