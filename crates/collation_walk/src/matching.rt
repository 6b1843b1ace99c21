//! From units to ranges: a weigher, and a walk over the items that it gives.
ghost use Rattle.std.specs.Prelude.{◌≡◌, ◌+◌, ◌≤◌, ◌<◌, List, ◌++◌, length, map, option_to_list};
ghost use Rattle.arrayvec.specs.ArrayVec.{array_vec_len};
ghost use Rattle.collation_elements.specs.declared.keys.Item.{Item};
ghost use Rattle.collation_elements.specs.ItemParts.{item_starts};
ghost use Rattle.collation_walk.specs.Walked.{TakesUnit};
ghost use Rattle.collation_walk.specs.Walks.{KeepsWalk, WalksInto, WalksOver};

use crate::walk::Walk;
use arrayvec::ArrayVec;
use collation_elements::{Item, Key, MOST_ITEMS, Unit, Weigher};
use collation_pattern::Pattern;

/// The most ranges that one call hands out.
pub const MOST_FOUND: usize = 128;

/// Ranges that became known: the start and the end of each, in bytes from the beginning of the text, the end not included.
pub type Found = ArrayVec<(u64, u64), MOST_FOUND>;

/// What units go through: a weigher, and a walk over the items that it gives.
#[derive(Drop)]
pub struct Matcher {
    pub weigher: Weigher,
    pub walk: Walk,
}

/// Puts a range, if there is one, after those found.
pub fn keep(found: &mut Found, range: Option<(u64, u64)>)
    requires { array_vec_len found.old + length (option_to_list range) ≤ MOST_FOUND }
    ensures { found.new.items ≡ found.old.items ++ option_to_list range }
{
    if let Some(range) = range {
        found.push(range);
    }
}

/// Walks over the items of one unit.
#[inline(always)]
fn walk_over(walk: &mut Walk, pattern: &Pattern, items: &[Item], found: &mut Found)
    requires state { walk.old.state ≤ length pattern.now.keys }
    requires room { array_vec_len found.old + length (item_starts items.now) ≤ MOST_FOUND }
    ensures stands { WalksInto pattern.now walk.old walk.new items.now
        found.old.items found.new.items }
    ensures few { array_vec_len found.new ≤ array_vec_len found.old + length
        (item_starts items.now) }
    ensures keeps { KeepsWalk pattern.now walk.old walk.new }
{
    for item in items {
        let range = walk.take(pattern, *item);
        keep(found, range);
    }
}

/// Walks over the start of a cluster, if there is one.
#[inline(always)]
fn walk_start(walk: &mut Walk, pattern: &Pattern, start: Option<u64>, found: &mut Found)
    requires state { walk.old.state ≤ length pattern.now.keys }
    requires room { array_vec_len found.old < MOST_FOUND }
    ensures stands { WalksInto pattern.now walk.old walk.new
        (map (λ at. Item.ClusterStart at) (option_to_list start)) found.old.items found.new.items }
    ensures few { array_vec_len found.new ≤ array_vec_len found.old + 1 }
    ensures keeps { KeepsWalk pattern.now walk.old walk.new }
{
    if let Some(start) = start {
        let range = walk.take(pattern, Item::ClusterStart(start));
        keep(found, range);
    }
}

/// Walks over a key, if there is one.
#[inline(always)]
fn walk_key(walk: &mut Walk, pattern: &Pattern, key: Option<Key>)
    requires state { walk.old.state ≤ length pattern.now.keys }
    ensures stands { (before : List _) (ranges : List _)
        → WalksOver pattern.now.keys before ranges walk.old
        → WalksOver pattern.now.keys
        (before ++ map (λ k. Item.Element k) (option_to_list key)) ranges walk.new }
    ensures keeps { KeepsWalk pattern.now walk.old walk.new }
{
    if let Some(key) = key {
        walk.take(pattern, Item::Element(key));
    }
}

/// Weighs a unit of any number of keys, and walks over its items. It is kept apart from the loop over the units, so that those of one
/// key need not lie in memory.
#[inline(never)]
fn take_long(
    matcher: &mut Matcher,
    pattern: &Pattern,
    unit: Unit<'_>,
    items: &mut ArrayVec<Item, MOST_ITEMS>,
    found: &mut Found,
)
    requires state { matcher.old.walk.state ≤ length pattern.now.keys }
    requires room { array_vec_len found.old < MOST_FOUND }
    ensures taken { TakesUnit pattern.now matcher.old matcher.new unit.entry
        found.old.items found.new.items }
    ensures few { array_vec_len found.new ≤ array_vec_len found.old + 1 }
    ensures keeps { KeepsWalk pattern.now matcher.old.walk matcher.new.walk }
{
    matcher.weigher.take(&unit, items);
    walk_over(&mut matcher.walk, pattern, items.as_slice(), found);
}

/// Weighs a unit, and walks over its items.
#[inline(always)]
pub fn take_unit(
    matcher: &mut Matcher,
    pattern: &Pattern,
    unit: Unit<'_>,
    items: &mut ArrayVec<Item, MOST_ITEMS>,
    found: &mut Found,
)
    requires state { matcher.old.walk.state ≤ length pattern.now.keys }
    requires room { array_vec_len found.old < MOST_FOUND }
    ensures taken { TakesUnit pattern.now matcher.old matcher.new unit.entry
        found.old.items found.new.items }
    ensures few { array_vec_len found.new ≤ array_vec_len found.old + 1 }
    ensures keeps { KeepsWalk pattern.now matcher.old.walk matcher.new.walk }
{
    match matcher.weigher.take_short(&unit) {
        Some(short) => {
            walk_start(&mut matcher.walk, pattern, short.start, found);
            walk_key(&mut matcher.walk, pattern, short.key);
        }
        None => take_long(matcher, pattern, unit, items, found),
    }
}
