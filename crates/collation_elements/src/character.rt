//! The items of points by themselves, wherever they stand: what is cached for a character, or for a base character with its marks,
//! so that the table is not asked again.
ghost use Rattle.std.specs.Prelude.{◌≡◌, ◌+◌, ◌<◌, ◌≤◌, ◌∷◌, ◌++◌, List, [], Bool, true, false, length, map, All, IfSome, OnSome, IfNone, if◌then◌else◌, drop};
ghost use Rattle.std.specs.Option.{option_to_list};
ghost use Rattle.nfd_points.specs.Reordering.{IsSoundPoint};
ghost use Rattle.collation_elements.specs.declared.keys.Item.{Item};
ghost use Rattle.collation_elements.specs.declared.keys.Key.{Key};
ghost use Rattle.collation_elements.specs.Elements.{begins_primary};
ghost use Rattle.collation_elements.specs.Units.{units};
ghost use Rattle.collation_elements.specs.Items.{items};
ghost use Rattle.collation_elements.specs.ItemParts.{item_keys};
ghost use Rattle.collation_elements.specs.CharacterItems.{AreItemsOfPoints, AreSameBehindVariable, BeginsOnce, character_items};
ghost use Rattle.collation_elements.specs.ShortItems.{listed};
ghost use Rattle.collation_elements.specs.Weighing.{weigher, after_units, value_items, weigher_after};

use crate::keys::{Item, Key};
use crate::short::ShortItems;
use crate::unit::Unit;
use crate::weigher::{MOST_ITEMS, Weigher};
use crate::window::Window;
use arrayvec::ArrayVec;
use collation_table::{Element, Weights};
use nfd_points::Point;

/// The start of a cluster, and as many keys as `CharacterItems` has room for.
const MOST_CHARACTER_ITEMS: usize = 4;

/// The items of the units of some points, where it is known that no unit reaches into or out of these. There are three keys at most.
#[derive(Clone, Copy, Debug, PartialEq, Eq)]
pub struct CharacterItems {
    /// Whether it begins a cluster.
    pub begins_cluster: bool,
    /// Its first key, if it has one.
    pub first: Option<Key>,
    /// Its second key, if it has two.
    pub second: Option<Key>,
    /// Its third key, if it has three.
    pub third: Option<Key>,
    /// Whether, after it, the last element that was variable or primary was variable, in shifted weighting.
    pub after_variable: bool,
}

const NO_ITEMS: CharacterItems = CharacterItems {
    begins_cluster: false,
    first: None,
    second: None,
    third: None,
    after_variable: false,
};

impl CharacterItems {
    /// The items of these points by themselves, which this weigher weighs next; `None` where they have more than three keys, or a
    /// cluster begins after the first of them. The window is then as it was: points go through it, unless each is a unit by itself with one
    /// key at most, and there is an answer. Their offsets are counted in bytes from the start of the first character.
    pub fn of_points<W: Weights>(
        table: &W,
        window: &mut Window,
        mut weigher: Weigher,
        points: &[Point],
    ) -> Option<CharacterItems>
        requires empty { window.old.points ≡ [] }
        requires open { window.old.has_ended ≡ false }
        requires room { length points.now ≤ window.old.capacity }
        requires sound { All IsSoundPoint points.now }
        ensures window { window.new ≡ window.old }
        ensures items { IfSome result
            (λ it. AreItemsOfPoints (W.table table.now) weigher points.now it) }
        ensures none { let all = items
            (W.table table.now) weigher.strength weigher.variable weigher.after_variable
            (units (W.table table.now) points.now) in
            IfNone result (BeginsOnce points.now → 3 < length (item_keys all)) }
    {
        let lone = CharacterItems::of_lone(table, weigher, points);
        if lone.is_some() {
            return lone;
        }
        window.push_all(points);
        window.end();
        let gathered = gather(table, window, &mut weigher);
        window.clear();
        CharacterItems::of_items(gathered?.as_slice(), weigher.after_variable())
    }

    /// The items of points each of which is a unit by itself with one key at most, without the window; `None` where one may be none, or
    /// these are more than the start of a cluster at 0 and three keys.
    #[inline(always)]
    fn of_lone<W: Weights>(
        table: &W,
        mut weigher: Weigher,
        points: &[Point],
    ) -> Option<CharacterItems>
        requires sound { All IsSoundPoint points.now }
        ensures items { IfSome result
            (λ it. AreItemsOfPoints (W.table table.now) weigher points.now it) }
    {
        let mut all = NO_ITEMS;
        for point in points {
            let row = table.lone_row(point.cp)?;
            let unit = Unit::of_one(table, *point, row);
            let short = weigher.take_short(&unit)?;
            all = all.with(short)?;
        }
        all.after_variable = weigher.after_variable();
        Some(all)
    }

    /// These items and those of one unit more; `None` where there is no room, or a cluster begins behind 0 or behind others.
    #[inline(always)]
    fn with(mut self, short: ShortItems) -> Option<CharacterItems>
        ensures { IfSome result
            (λ it. character_items it 0 ≡ character_items self 0 ++ listed short) }
    {
        if let Some(start) = short.start {
            if start > 0 || self.has_any() {
                return None;
            }
            self.begins_cluster = true;
        }
        let Some(key) = short.key else {
            return Some(self);
        };
        if self.third.is_some() {
            return None;
        }
        if self.second.is_some() {
            self.third = Some(key);
        } else if self.first.is_some() {
            self.second = Some(key);
        } else {
            self.first = Some(key);
        }
        Some(self)
    }

    /// Whether there are any.
    #[inline(always)]
    fn has_any(&self) -> bool
        ensures { result ≡ false → character_items self.now 0 ≡ [] }
    {
        self.begins_cluster || self.first.is_some() || self.second.is_some() || self.third.is_some()
    }

    /// These items, with the flag after them; `None` where they are more than the start of a cluster at 0 and three keys.
    fn of_items(items: &[Item], after_variable: bool) -> Option<CharacterItems>
        ensures items { IfSome result (λ it. items.now ≡ character_items it 0) }
        ensures after { IfSome result (λ it. it.after_variable ≡ after_variable) }
        ensures none { IfNone result ((begins : Bool) (keys : List Key)
            → items.now ≡ (if begins then Item.ClusterStart 0 ∷ [] else []) ++ map
            (λ key. Item.Element key) keys
            → 3 < length keys) }
    {
        let (begins_cluster, keys) = split_start(items);
        let (first, keys) = split_key(keys);
        let (second, keys) = split_key(keys);
        let (third, keys) = split_key(keys);
        if !keys.is_empty() {
            return None;
        }
        Some(CharacterItems {
            begins_cluster,
            first,
            second,
            third,
            after_variable,
        })
    }
}

/// Whether the first of these points is a unit by itself that has a primary weight first: then their items are the same whether or not
/// the last element before them that was variable or primary was variable. `false` says nothing.
pub fn begin_anew<W: Weights>(table: &W, points: &[Point]) -> bool
    requires sound { All IsSoundPoint points.now }
    ensures anew { result ≡ true → AreSameBehindVariable (W.table table.now) points.now }
{
    let [point, ..] = points else {
        return false;
    };
    let Some(row) = table.lone_row(point.cp) else {
        return false;
    };
    let unit = Unit::of_one(table, *point, row);
    begins_primary(unit.elements())
}

/// Whether the first element of a row has a primary weight.
fn begins_primary(row: &[Element]) -> bool
    ensures { result ≡ begins_primary row.now }
{
    match row {
        [] => false,
        [first, ..] => first.w1 > 0,
    }
}

/// Whether these items begin with the start of a cluster at 0, and what follows it.
fn split_start(items: &[Item]) -> (bool, &[Item])
    ensures items { items.now
        ≡ (if result.0 then Item.ClusterStart 0 ∷ [] else []) ++ result.1.now }
    ensures start { (rest : List Item) → items.now ≡ Item.ClusterStart 0 ∷ rest
        → result.1.now ≡ rest }
    ensures key { (key : Key) (rest : List Item) → items.now ≡ Item.Element key ∷ rest
        → result.1.now ≡ items.now }
{
    match items {
        [Item::ClusterStart(0), rest @ ..] => (true, rest),
        _ => (false, items),
    }
}

/// The key with which these items begin, if they begin with one, and what follows it.
fn split_key(items: &[Item]) -> (Option<Key>, &[Item])
    ensures items { items.now
        ≡ map (λ key. Item.Element key) (option_to_list result.0) ++ result.1.now }
    ensures keys { (keys : List Key) → items.now ≡ map (λ key. Item.Element key) keys
        → result.1.now ≡ map (λ key. Item.Element key) (drop 1 keys) }
{
    match items {
        [Item::Element(key), rest @ ..] => (Some(*key), rest),
        _ => (None, items),
    }
}

/// Cuts the units of a window whose end was announced, and gathers their items; `None` as soon as these have no room.
fn gather<W: Weights>(
    table: &W,
    window: &mut Window,
    weigher: &mut Weigher,
) -> Option<ArrayVec<Item, MOST_CHARACTER_ITEMS>>
    requires { window.old.has_ended ≡ true }
    ensures capacity { window.new.capacity ≡ window.old.capacity }
    ensures items { IfSome result (λ gathered. gathered.items
        ≡ items (W.table table.now) weigher.old.strength weigher.old.variable
        weigher.old.after_variable (units (W.table table.now) window.old.points)) }
    ensures after { OnSome result (weigher.new.after_variable
        ≡ after_units (W.table table.now) weigher.old.variable weigher.old.after_variable
        (units (W.table table.now) window.old.points)) }
    ensures none { IfNone result (MOST_CHARACTER_ITEMS
        < length (items
        (W.table table.now) weigher.old.strength weigher.old.variable weigher.old.after_variable
        (units (W.table table.now) window.old.points))) }
{
    let mut gathered = ArrayVec::new();
    while let Some(unit) = window.next_unit(table) {
        if !add_unit(&unit, weigher, &mut gathered) {
            return None;
        }
    }
    Some(gathered)
}

/// Adds the items of the next unit, and says whether there was room for them.
#[inline(always)]
fn add_unit(
    unit: &Unit,
    weigher: &mut Weigher,
    gathered: &mut ArrayVec<Item, MOST_CHARACTER_ITEMS>,
) -> bool
    ensures items { result ≡ true
        → gathered.new.items ≡ gathered.old.items ++ value_items weigher.old unit.now }
    ensures after { weigher.new ≡ weigher_after weigher.old unit.now }
    ensures full { result ≡ false → MOST_CHARACTER_ITEMS
        < length (gathered.old.items ++ value_items weigher.old unit.now) }
{
    match weigher.take_short(unit) {
        Some(short) => add_short(short, gathered),
        None => add_long(unit, weigher, gathered),
    }
}

/// Adds the items of a unit that has one key at most, and says whether there was room for them.
#[inline(always)]
fn add_short(short: ShortItems, gathered: &mut ArrayVec<Item, MOST_CHARACTER_ITEMS>) -> bool
    ensures items { result ≡ true
        → gathered.new.items ≡ gathered.old.items ++ listed short }
    ensures full { result ≡ false → MOST_CHARACTER_ITEMS
        < length (gathered.old.items ++ listed short) }
{
    if let Some(start) = short.start {
        if gathered.is_full() {
            return false;
        }
        gathered.push(Item::ClusterStart(start));
    }
    if let Some(key) = short.key {
        if gathered.is_full() {
            return false;
        }
        gathered.push(Item::Element(key));
    }
    true
}

/// Adds the items of the next unit, which may have many keys, and says whether there was room for them. It is kept apart, as few
/// units are long, and the room for the longest is cleared.
#[inline(never)]
fn add_long(
    unit: &Unit,
    weigher: &mut Weigher,
    gathered: &mut ArrayVec<Item, MOST_CHARACTER_ITEMS>,
) -> bool
    ensures items { result ≡ true
        → gathered.new.items ≡ gathered.old.items ++ value_items weigher.old unit.now }
    ensures after { weigher.new ≡ weigher_after weigher.old unit.now }
    ensures full { result ≡ false → MOST_CHARACTER_ITEMS
        < length (gathered.old.items ++ value_items weigher.old unit.now) }
{
    let mut of_unit = ArrayVec::<Item, MOST_ITEMS>::new();
    weigher.take(unit, &mut of_unit);
    gathered.try_extend_from_slice(of_unit.as_slice()).is_ok()
}
