//! From points to keys that are compared: a window, the units that it gives, and a weigher.

ghost use Rattle.std.specs.Prelude.{◌≡◌, ◌+◌, ◌≤◌, List, [], ◌++◌, length, All, true, false};
ghost use Rattle.nfd_points.specs.declared.points.Point.{Point};
ghost use Rattle.nfd_points.specs.Reordering.{IsSoundPoint, is_closed};
ghost use Rattle.collation_table.specs.Table.{TableMap, longest_mapped};
ghost use Rattle.collation_elements.specs.Keys.{keys};
ghost use Rattle.collation_elements.specs.Windows.{WindowStandsFor};
ghost use Rattle.collation_anchored.specs.Anchored.{is_begun};
ghost use Rattle.collation_anchored.specs.Compared.{KeysCame, completed};

use crate::keys::Progress;
use arrayvec::ArrayVec;
use collation_elements::{Item, MOST_ITEMS, Weigher, Window, items_are_keys_and_starts};
use collation_pattern::Pattern;
use collation_table::Weights;
use nfd_points::Point;

/// Puts points at the end of a window.
pub(crate) fn push_points(window: &mut Window, points: &[Point])
    requires room { length window.old.points + length points.now ≤ window.old.capacity }
    requires open { window.old.has_ended ≡ false }
    requires sound { All IsSoundPoint points.now }
    ensures points { window.new ≡ record window.old { points = window.old.points ++ points.now } }
    ensures stands { (table : TableMap) (taken : List Point) (given : List (List Point))
        → WindowStandsFor table window.old taken given
        → WindowStandsFor table window.new (taken ++ points.now) given }
{
    for point in points {
        window.push(*point);
    }
}

/// Cuts all units that are decided, and compares their keys with the next of the pattern's: whether they are these. Where they are not, no
/// more units are cut, and whatever points follow, the keys are not the first of the pattern's.
pub(crate) fn cut_units<W: Weights>(
    table: &W,
    pattern: &Pattern,
    window: &mut Window,
    weigher: &mut Weigher,
    items: &mut ArrayVec<Item, MOST_ITEMS>,
    progress: &mut Progress,
) -> bool
    ensures stands { (points : List Point)
        → KeysCame (W.table table.now) pattern.now window.old weigher.old progress.old points
        → result ≡ true
        → KeysCame (W.table table.now) pattern.now window.new weigher.new progress.new points }
    ensures differs { (points more : List Point)
        → KeysCame (W.table table.now) pattern.now window.old weigher.old progress.old points
        → (window.old.has_ended ≡ true → more ≡ []) → result ≡ false
        → is_begun pattern.now.keys
        (keys (W.table table.now) pattern.now.strength pattern.now.variable (points ++ more))
        ≡ false }
    ensures completed { (points more : List Point)
        → KeysCame (W.table table.now) pattern.now window.old weigher.old progress.old points
        → (window.old.has_ended ≡ true → more ≡ []) → result ≡ false
        → progress.new.completed ≡ completed (W.table table.now) pattern.now (points ++ more) }
    ensures capacity { window.new.capacity ≡ window.old.capacity }
    ensures ended { window.new.has_ended ≡ window.old.has_ended }
    ensures rest { window.old.has_ended ≡ false → is_closed window.old.points ≡ true
        → result ≡ true → length window.new.points ≤ longest_mapped (W.table table.now) }
    ensures last { window.old.has_ended ≡ false → is_closed window.old.points ≡ true
        → result ≡ true → is_closed window.new.points ≡ true }
    ensures all { window.old.has_ended ≡ true → result ≡ true → window.new.points ≡ [] }
{
    items_are_keys_and_starts();
    while let Some(unit) = window.next_unit(table) {
        weigher.take(&unit, items);
        let alike = progress.take(pattern.keys(), items.as_slice());
        if !alike {
            return false;
        }
    }
    true
}
