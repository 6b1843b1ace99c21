//! Whether a text has more keys than a pattern. They are counted up to one more than the pattern has, and no memory is taken.

ghost use Rattle.std.specs.Prelude.{◌≡◌, ◌+◌, ◌≤◌, ◌<◌, List, [], ◌∷◌, ◌++◌, length, true, false};
ghost use Rattle.nfd_points.specs.declared.points.Point.{Point};
ghost use Rattle.nfd_points.specs.Reordering.{is_closed};
ghost use Rattle.collation_table.specs.Table.{longest_mapped};
ghost use Rattle.collation_elements.specs.ItemParts.{item_keys};
ghost use Rattle.collation_elements.specs.Keys.{keys as keys_of};
ghost use Rattle.collation_pattern.specs.Compiled.{Compiled};
ghost use Rattle.collation_anchored.specs.Counted.{KeysCounted};

use crate::comparison::Comparison;
use crate::cutting::push_points;
use arrayvec::ArrayVec;
use collation_elements::{
    Item, MOST_ITEMS, Weigher, Window, closed_points_append, items_are_keys_and_starts,
};
use collation_pattern::Pattern;
use collation_table::Weights;
use nfd_points::PointFault;
use nfd_points::laws::laws_of_points;

/// Counts the keys among some items, up to `most`: whether there are more.
fn count(items: &[Item], most: usize, keys: &mut usize) -> bool
    requires { keys.old ≤ most }
    ensures within { keys.new ≤ most }
    ensures all { result ≡ false → keys.new ≡ keys.old + length (item_keys items.now) }
    ensures more { result ≡ true → most < keys.old + length (item_keys items.now) }
{
    for item in items {
        if is_one_more(item, most, keys) {
            return true;
        }
    }
    false
}

/// Counts a key, up to `most`: whether it is one more.
#[inline(always)]
fn is_one_more(item: &Item, most: usize, keys: &mut usize) -> bool
    requires { keys.old ≤ most }
    ensures within { keys.new ≤ most }
    ensures all { result ≡ false → keys.new ≡ keys.old + length (item_keys (item.now ∷ [])) }
    ensures more { result ≡ true → most < keys.old + length (item_keys (item.now ∷ [])) }
{
    match item {
        Item::ClusterStart(_) => false,
        Item::Element(_) => {
            if *keys == most {
                return true;
            }
            *keys += 1;
            false
        }
    }
}

/// Cuts all units that are decided, and counts their keys up to `most`: whether there are more. Where there are, no more units are cut,
/// and whatever points follow, the text has more keys.
fn count_units<W: Weights>(
    table: &W,
    window: &mut Window,
    weigher: &mut Weigher,
    items: &mut ArrayVec<Item, MOST_ITEMS>,
    most: usize,
    keys: &mut usize,
) -> bool
    requires { keys.old ≤ most }
    ensures within { keys.new ≤ most }
    ensures stands { (pattern : Compiled) (points : List Point)
        → KeysCounted (W.table table.now) pattern window.old weigher.old keys.old points
        → result ≡ false
        → KeysCounted (W.table table.now) pattern window.new weigher.new keys.new points }
    ensures more { (pattern : Compiled) (points more : List Point)
        → KeysCounted (W.table table.now) pattern window.old weigher.old keys.old points
        → (window.old.has_ended ≡ true → more ≡ []) → result ≡ true
        → most < length
        (keys_of (W.table table.now) pattern.strength pattern.variable (points ++ more)) }
    ensures capacity { window.new.capacity ≡ window.old.capacity }
    ensures ended { window.new.has_ended ≡ window.old.has_ended }
    ensures rest { window.old.has_ended ≡ false → is_closed window.old.points ≡ true
        → result ≡ false → length window.new.points ≤ longest_mapped (W.table table.now) }
    ensures last { window.old.has_ended ≡ false → is_closed window.old.points ≡ true
        → result ≡ false → is_closed window.new.points ≡ true }
    ensures all { window.old.has_ended ≡ true → result ≡ false → window.new.points ≡ [] }
{
    items_are_keys_and_starts();
    while let Some(unit) = window.next_unit(table) {
        weigher.take(&unit, items);
        let more = count(items.as_slice(), most, keys);
        if more {
            return true;
        }
    }
    false
}

impl Comparison {
    ghost use Rattle.std.specs.Prelude.{◌≡◌, ℕ, ◌≤◌, ◌<◌, List, [], ◌∷◌, ◌++◌, length, nat_lt, chars, Ok, Some, None, true, false, IfErr};
    ghost use Rattle.nfd_points.specs.Points.{byte_len, points};
    ghost use Rattle.nfd_points.specs.PointFaults.{point_fault};
    ghost use Rattle.collation_table.specs.Table.{longest_mapped};
    ghost use Rattle.collation_elements.specs.Keys.{keys as keys_of};
    ghost use Rattle.collation_pattern.specs.Compiled.{Compiled};
    ghost use Rattle.collation_anchored.specs.Counted.{HasCounted};

    /// Takes the next character, which stands at a byte offset, and counts the keys of the units that are decided, up to `most`: whether
    /// there are more.
    ///
    /// # Errors
    ///
    /// That of the reorderer.
    fn count_character<W: Weights>(
        &mut self,
        table: &W,
        c: char,
        offset: u64,
        most: usize,
        keys: &mut usize,
    ) -> Result<bool, PointFault>
        requires longest { self.old.longest_key ≡ longest_mapped (W.table table.now) }
        requires few { keys.old ≤ most }
        ensures within { keys.new ≤ most }
        ensures stands { (pattern : Compiled) (taken : List ℕ)
            → HasCounted (W.table table.now) pattern self.old keys.old taken
            → offset ≡ byte_len taken → result ≡ Ok false
            → HasCounted (W.table table.now) pattern self.new keys.new (taken ++ c ∷ []) }
        ensures more { (pattern : Compiled) (taken rest : List ℕ)
            → HasCounted (W.table table.now) pattern self.old keys.old taken
            → offset ≡ byte_len taken → result ≡ Ok true
            → most < length
            (keys_of (W.table table.now) pattern.strength pattern.variable
            (points (taken ++ c ∷ rest))) }
        ensures fault { (pattern : Compiled) (taken rest : List ℕ)
            → HasCounted (W.table table.now) pattern self.old keys.old taken
            → IfErr result (λ f. point_fault (taken ++ c ∷ rest) ≡ Some (byte_len taken, f.kind)) }
        ensures longest { self.new.longest_key ≡ self.old.longest_key }
    {
        closed_points_append();
        self.reorder.push(c, offset, &mut self.given)?;
        push_points(&mut self.window, self.given.as_slice());
        let more = count_units(
            table,
            &mut self.window,
            &mut self.weigher,
            &mut *self.items,
            most,
            keys,
        );
        if more {
            self.window.clear();
            Ok(true)
        } else {
            Ok(false)
        }
    }

    /// Ends the text here, and counts the rest of its keys, up to `most`: whether there are more.
    fn count_rest<W: Weights>(&mut self, table: &W, most: usize, keys: &mut usize) -> bool
        requires longest { self.old.longest_key ≡ longest_mapped (W.table table.now) }
        requires few { keys.old ≤ most }
        ensures more { (pattern : Compiled) (taken : List ℕ)
            → HasCounted (W.table table.now) pattern self.old keys.old taken
            → result ≡ nat_lt most
            (length (keys_of (W.table table.now) pattern.strength pattern.variable (points taken))) }
        ensures longest { self.new.longest_key ≡ self.old.longest_key }
    {
        self.reorder.finish(&mut self.given);
        push_points(&mut self.window, self.given.as_slice());
        self.window.end();
        let more = count_units(
            table,
            &mut self.window,
            &mut self.weigher,
            &mut *self.items,
            most,
            keys,
        );
        self.window.clear();
        more
    }

    /// Whether a text of so many bytes has more keys than the pattern. Of one with a fault nothing is said.
    pub(crate) fn has_more_keys<W: Weights>(
        &mut self,
        table: &W,
        pattern: &Pattern,
        text: &str,
        bytes: usize,
    ) -> bool
        requires longest { self.old.longest_key ≡ longest_mapped (W.table table.now) }
        requires len { length text.now ≡ bytes }
        ensures more { point_fault (chars text.now) ≡ None
            → result ≡ nat_lt (length pattern.now.keys)
            (length
            (keys_of (W.table table.now) pattern.now.strength pattern.now.variable
            (points (chars text.now)))) }
        ensures longest { self.new.longest_key ≡ self.old.longest_key }
    {
        laws_of_points();
        self.begin(pattern);
        let most = pattern.len();
        let mut keys = 0usize;
        let mut offset = 0u64;
        for c in text.chars() {
            match self.count_character(table, c, offset, most, &mut keys) {
                Ok(more) => {
                    if more {
                        return true;
                    }
                }
                Err(_fault) => return false,
            }
            offset += c.len_utf8() as u64;
        }
        self.count_rest(table, most, &mut keys)
    }
}
