//! The items of a unit that has one key at most, as most units have: what a weigher gives without a list.
ghost use Rattle.std.specs.Prelude.{◌≡◌, ◌≢◌, length, ℕ, List, ◌∷◌, [], ◌++◌, map, Some, IfSome, OnSome, IfNone};
ghost use Rattle.std.specs.Option.{option_to_list};
ghost use Rattle.nfd_points.specs.declared.points.Point.{Point};
ghost use Rattle.collation_table.specs.declared.elements.Element.{Element as CollationElement};
ghost use Rattle.collation_table.specs.Table.{TableMap};
ghost use Rattle.collation_elements.specs.declared.keys.Item.{Item};
ghost use Rattle.collation_elements.specs.Items.{start_items};
ghost use Rattle.collation_elements.specs.ShortItems.{listed};
ghost use Rattle.collation_elements.specs.UnitValues.{UnitValue, IsUnitOf};
ghost use Rattle.collation_elements.specs.Weighing.{weigher_after, value_items, WeigherStandsFor};

use crate::keys::Key;
use crate::unit::Unit;
use crate::weigher::{Weigher, key_of, pair_key};
use collation_table::Element;
use nfd_points::Point;

/// The items of a unit that has one key at most.
#[derive(Clone, Copy, Debug, PartialEq, Eq)]
pub struct ShortItems {
    /// Where its cluster begins, if it begins one: an offset in bytes from the beginning of the text.
    pub start: Option<u64>,
    /// Its key, if it has one.
    pub key: Option<Key>,
}

impl Weigher {
    /// The items of the next unit where it has one element, or an implicit pair in place of a row: those that
    /// [`take`](Weigher::take) puts in. `None` of a unit that may have more keys; then nothing was taken.
    #[inline(always)]
    pub fn take_short(&mut self, unit: &Unit) -> Option<ShortItems>
        ensures items { IfSome result (λ short. listed short ≡ value_items self.old unit.now) }
        ensures after { OnSome result (self.new ≡ weigher_after self.old unit.now) }
        ensures none { IfNone result (self.new ≡ self.old) }
        ensures long { IfNone result (length unit.now.elements ≢ 1) }
        ensures stands { (table : TableMap) (points : List Point) (units : List (List Point))
            (given : List Item)
            → IsUnitOf table points unit.now
            → WeigherStandsFor table self.old units given
            → IfSome result
            (λ short. WeigherStandsFor table self.new (units ++ points ∷ [])
            (given ++ listed short)) }
    {
        self.take_one_key(unit)
    }

    /// The same of the unit alone: no clause speaks of the units before.
    #[inline(always)]
    fn take_one_key(&mut self, unit: &Unit) -> Option<ShortItems>
        ensures items { IfSome result (λ short. listed short ≡ value_items self.old unit.now) }
        ensures after { OnSome result (self.new ≡ weigher_after self.old unit.now) }
        ensures none { IfNone result (self.new ≡ self.old) }
        ensures long { IfNone result (length unit.now.elements ≢ 1) }
    {
        if let Some(e) = unit.only_element() {
            return Some(self.take_one(unit.first_point(), e));
        }
        let pair = unit.pair()?;
        self.take_pair(unit.first_point(), pair[0], pair[1])
    }

    /// The items of a unit of one element.
    #[inline(always)]
    fn take_one(&mut self, first_point: Point, e: Element) -> ShortItems
        ensures items { let unit : UnitValue
            = record { first_point = first_point; elements = e ∷ [] } in
            listed result ≡ value_items self.old unit }
        ensures after { let unit : UnitValue
            = record { first_point = first_point; elements = e ∷ [] } in
            self.new ≡ weigher_after self.old unit }
    {
        let strength = self.strength();
        let weighted = self.weigh(e);
        ShortItems {
            start: cluster_start(first_point, e),
            key: key_of(strength, weighted),
        }
    }

    /// The items of a unit of two elements, if these are a lead and its follower.
    #[inline(always)]
    fn take_pair(&mut self, first_point: Point, e: Element, f: Element) -> Option<ShortItems>
        ensures items { let unit : UnitValue
            = record { first_point = first_point; elements = e ∷ f ∷ [] } in
            IfSome result (λ short. listed short ≡ value_items self.old unit) }
        ensures after { let unit : UnitValue
            = record { first_point = first_point; elements = e ∷ f ∷ [] } in
            OnSome result (self.new ≡ weigher_after self.old unit) }
        ensures none { IfNone result (self.new ≡ self.old) }
    {
        let before = *self;
        let strength = self.strength();
        let lead = self.weigh(e);
        let follower = self.weigh(f);
        if lead.is_lead() && follower.is_follower() {
            Some(ShortItems {
                start: cluster_start(first_point, e),
                key: Some(pair_key(strength, &lead, &follower)),
            })
        } else {
            *self = before;
            None
        }
    }
}

/// Where a cluster begins, if the unit of this first point and first element begins one.
#[inline(always)]
fn cluster_start(first_point: Point, e: Element) -> Option<u64>
    ensures { (es : List CollationElement)
        → map (λ at. Item.ClusterStart at) (option_to_list result)
        ≡ start_items (Some first_point) (e ∷ es) }
{
    if first_point.first && first_point.ccc == 0 && e.w1 > 0 {
        Some(first_point.offset)
    } else {
        None
    }
}
