//! From units to items: variable weighting (UTS #10, section 4), the keys that a strength keeps, and where clusters begin.
ghost use Rattle.std.specs.Prelude.{◌≡◌, ℕ, ◌+◌, ◌≤◌, ◌<◌, List, [], ◌∷◌, ◌++◌, true, false, length, map};
ghost use Rattle.std.specs.Option.{option_to_list, ForSome};
ghost use Rattle.nfd_points.specs.declared.points.Point.{Point};
ghost use Rattle.arrayvec.specs.ArrayVec.{array_vec_len};
ghost use Rattle.collation_table.specs.declared.elements.Element.{Element as CollationElement};
ghost use Rattle.collation_table.specs.Table.{TableMap};
ghost use Rattle.collation_elements.specs.declared.keys.Item.{Item};
ghost use Rattle.collation_table.specs.WellFormed.{is_lead};
ghost use Rattle.collation_elements.specs.Keys.{element_keys, pair_key, second_at, third_at};
ghost use Rattle.collation_elements.specs.UnitValues.{IsUnitOf};
ghost use Rattle.collation_elements.specs.Items.{key_items};
ghost use Rattle.collation_elements.specs.Weighing.{weigher, weigher_after, is_after_variable, weighted_element, after_element, value_items, WeigherStandsFor};

use crate::keys::{Item, Key};
use crate::settings::{Strength, Variable};
use crate::unit::Unit;
use arrayvec::ArrayVec;
use collation_table::Element;

/// The room for the items of one unit: the start of its cluster, and 128 keys. An element gives at most one key and a row has at
/// most `collation_table::MOST_ROW_ELEMENTS` of them, so the room always suffices.
pub const MOST_ITEMS: usize = 129;

/// Weighs the units of a text, from its beginning on.
#[derive(Clone, Copy, Debug, PartialEq, Eq)]
pub struct Weigher {
    strength: Strength,
    variable: Variable,
    /// Whether the last element that was variable or primary was variable, in shifted weighting.
    after_variable: bool,
}

impl Weigher {
    /// A weigher at the beginning of a text.
    pub fn new(strength: Strength, variable: Variable) -> Self
        ensures value { result ≡ weigher strength variable false }
        ensures stands { (table : TableMap) → WeigherStandsFor table result [] [] }
    {
        Weigher::restore(strength, variable, false)
    }

    /// A weigher in the midst of a text, which goes on as the one of the text before, whose answer `after_variable` is.
    pub fn restore(strength: Strength, variable: Variable, after_variable: bool) -> Self
        ensures value { result ≡ weigher strength variable after_variable }
        ensures stands_for { (table : TableMap) (read : Weigher) (units : List (List Point))
            (given : List Item)
            → WeigherStandsFor table read units given → read.strength ≡ strength
            → read.variable ≡ variable
            → is_after_variable read ≡ after_variable → WeigherStandsFor table result units given }
    {
        Weigher {
            strength,
            variable,
            after_variable,
        }
    }

    /// Whether, in shifted weighting, the last element that was variable or primary was variable.
    pub fn after_variable(&self) -> bool
        ensures { result ≡ is_after_variable self.now }
    {
        self.after_variable
    }

    /// Empties `items` and puts in those of the next unit: where its cluster begins, if it begins one, and its keys.
    #[inline(always)]
    pub fn take(&mut self, unit: &Unit, items: &mut ArrayVec<Item, MOST_ITEMS>)
        ensures items { items.new.items ≡ value_items self.old unit.now }
        ensures after { self.new ≡ weigher_after self.old unit.now }
        ensures few { array_vec_len items.new ≤ 1 + length unit.now.elements }
        ensures stands { (table : TableMap) (points : List Point) (units : List (List Point))
            (given : List Item)
            → IsUnitOf table points unit.now
            → WeigherStandsFor table self.old units given
            → WeigherStandsFor table self.new (units ++ points ∷ []) (given ++ items.new.items) }
    {
        items.clear();
        let row = unit.elements();
        let first_point = unit.first_point();
        if first_point.first && first_point.ccc == 0 && row.first().is_some_and(|e| e.w1 > 0) {
            items.push(Item::ClusterStart(first_point.offset));
        }
        let mut lead = None;
        for e in row {
            let weighted = self.weigh(*e);
            lead = add_keys(self.strength, lead, weighted, items);
        }
        if let Some(lead) = lead {
            add_key(self.strength, lead, items);
        }
    }

    #[inline(always)]
    pub(crate) fn strength(&self) -> Strength
        ensures { result ≡ self.now.strength }
    {
        self.strength
    }

    /// The next element under variable weighting.
    #[inline(always)]
    pub(crate) fn weigh(&mut self, e: Element) -> Element
        ensures element { result ≡ weighted_element self.old.variable self.old.after_variable e }
        ensures after { let after = after_element self.old.variable self.old.after_variable e in
            self.new ≡ weigher self.old.strength self.old.variable after }
    {
        if self.variable == Variable::NonIgnorable {
            return e;
        }
        let is_ignored = e.is_variable || (self.after_variable() && e.w1 == 0);
        if e.is_variable || e.w1 > 0 {
            *self = Weigher::restore(self.strength, self.variable, e.is_variable);
        }
        if is_ignored { IGNORABLE } else { e }
    }
}

/// An element that no level compares.
const IGNORABLE: Element = Element {
    is_variable: false,
    w1: 0,
    w2: 0,
    w3: 0,
};

/// Adds the keys of an element and of the lead that waits before it. A lead waits for the next element, which may be its
/// follower, and is handed back.
#[inline(always)]
fn add_keys(
    strength: Strength,
    lead: Option<Element>,
    e: Element,
    items: &mut ArrayVec<Item, MOST_ITEMS>,
) -> Option<Element>
    requires lead { ForSome lead (λ l. is_lead l ≡ true) }
    requires room { array_vec_len items.old + length (option_to_list lead) < MOST_ITEMS }
    ensures keys { (es : List CollationElement)
        → items.new.items ++ key_items strength (option_to_list result ++ es)
        ≡ items.old.items ++ key_items strength (option_to_list lead ++ e ∷ es) }
    ensures lead { ForSome result (λ l. is_lead l ≡ true) }
    ensures few { array_vec_len items.new + length (option_to_list result)
        ≤ array_vec_len items.old + length (option_to_list lead) + 1 }
{
    if let Some(lead) = lead {
        if e.is_follower() {
            items.push(Item::Element(pair_key(strength, &lead, &e)));
            return None;
        }
        add_key(strength, lead, items);
    }
    if e.is_lead() {
        return Some(e);
    }
    add_key(strength, e, items);
    None
}

/// Adds the key of an element that is not ignorable up to the strength.
#[inline(always)]
fn add_key(strength: Strength, e: Element, items: &mut ArrayVec<Item, MOST_ITEMS>)
    requires { array_vec_len items.old < MOST_ITEMS }
    ensures keys { items.new.items
        ≡ items.old.items ++ map (λ key. Item.Element key) (element_keys strength e) }
    ensures few { array_vec_len items.new ≤ array_vec_len items.old + 1 }
{
    if let Some(key) = key_of(strength, e) {
        items.push(Item::Element(key));
    }
}

/// The key of an element that is not ignorable up to the strength.
#[inline(always)]
pub(crate) fn key_of(strength: Strength, e: Element) -> Option<Key>
    ensures { option_to_list result ≡ element_keys strength e }
{
    let second = second_at(strength, e.w2);
    let third = third_at(strength, e.w3);
    if e.w1 > 0 {
        Some(Key::Primary(e.w1, second, third))
    } else if second > 0 {
        Some(Key::Secondary(second, third))
    } else if third > 0 {
        Some(Key::Tertiary(third))
    } else {
        None
    }
}

#[inline(always)]
pub(crate) fn pair_key(strength: Strength, lead: &Element, follower: &Element) -> Key
    ensures { result ≡ pair_key strength lead.now follower.now }
{
    Key::Pair(
        lead.w1,
        follower.w1,
        second_at(strength, lead.w2),
        third_at(strength, lead.w3),
    )
}

/// A secondary weight, or 0 where the strength does not reach it.
fn second_at(strength: Strength, weight: u16) -> u16
    ensures { result ≡ second_at strength weight }
{
    match strength {
        Strength::One => 0,
        Strength::Two | Strength::Three => weight,
    }
}

/// A tertiary weight, or 0 where the strength does not reach it.
fn third_at(strength: Strength, weight: u16) -> u16
    ensures { result ≡ third_at strength weight }
{
    match strength {
        Strength::One | Strength::Two => 0,
        Strength::Three => weight,
    }
}
