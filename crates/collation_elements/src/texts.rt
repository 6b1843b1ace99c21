//! The items of a whole text: its points, cut into units, and these weighed.

ghost use Rattle.std.specs.Prelude.{◌≡◌, ◌≤◌, List, [], chars, true, false, length, None, OnOk, IfOk, IfErr};
ghost use Rattle.nfd_points.specs.declared.points.Point.{Point};
ghost use Rattle.nfd_points.specs.Points.{points, byte_len};
ghost use Rattle.nfd_points.specs.PointFaults.{point_fault};
ghost use Rattle.nfd_points.specs.Reordering.{is_closed};
ghost use Rattle.collation_table.specs.Table.{longest_mapped};
ghost use Rattle.collation_elements.specs.Units.{units};
ghost use Rattle.collation_elements.specs.Items.{items};
ghost use Rattle.collation_elements.specs.Texts.{Gives, HasSettings, IsUnread};
ghost use Rattle.collation_elements.specs.declared.texts.ItemsFault.TheVariants.{Memory};

use crate::keys::Item;
use crate::settings::{Strength, Variable};
use crate::weigher::{MOST_ITEMS, Weigher};
use crate::window::Window;
use arrayvec::ArrayVec;
use collation_table::Weights;
use nfd_points::laws::laws_of_points;
use nfd_points::{MOST_GIVEN, Point, Reorder};
use std::alloc::{AllocError, Global};

/// Why there are no items of a text.
#[derive(Clone, Copy, Debug, PartialEq, Eq)]
pub enum ItemsFault {
    /// A code point brings the thirty-first non-starter in a row, or has a decomposition of more than 4 code points.
    Points,
    /// Memory was refused.
    Memory,
}

impl From<AllocError> for ItemsFault {
    ghost from_gives = { λ _ fault. fault ≡ Memory };

    fn from(_error: AllocError) -> Self {
        ItemsFault::Memory
    }
}

/// The items of a text, in order.
///
/// # Errors
///
/// `ItemsFault::Points` where a code point of the text is at fault.
pub fn items_of_text<W: Weights>(
    alloc: Global,
    table: &W,
    text: &str,
    strength: Strength,
    variable: Variable,
) -> Result<Vec<Item>, ItemsFault>
    ensures items { IfOk result
        (λ v. v.items
        ≡ items (W.table table.now) strength variable false
        (units (W.table table.now) (points (chars text.now)))) }
    ensures good { OnOk result (point_fault (chars text.now) ≡ None) }
    ensures bad { IfErr result (IsUnread (chars text.now)) }
{
    laws_of_points();
    let characters = characters_of(alloc, text)?;
    let bytes = text.len();
    items_of_characters(
        alloc,
        table,
        characters.as_slice(),
        bytes,
        strength,
        variable,
    )
}

/// The characters of a text.
fn characters_of(alloc: Global, text: &str) -> Result<Vec<char>, AllocError>
    ensures { IfOk result (λ v. v.items ≡ chars text.now) }
{
    text.chars().collect(alloc)
}

/// The items of a list of characters, which have so many `bytes`.
fn items_of_characters<W: Weights>(
    alloc: Global,
    table: &W,
    characters: &[char],
    bytes: usize,
    strength: Strength,
    variable: Variable,
) -> Result<Vec<Item>, ItemsFault>
    requires { byte_len characters.now ≡ bytes }
    ensures items { IfOk result
        (λ v. v.items
        ≡ items (W.table table.now) strength variable false
        (units (W.table table.now) (points characters.now))) }
    ensures good { OnOk result (point_fault characters.now ≡ None) }
    ensures bad { IfErr result (IsUnread characters.now) }
{
    let mut reorder = Reorder::new(alloc);
    let mut window = Window::with_capacity(alloc, table.longest_key())?;
    let mut weigher = Weigher::new(strength, variable);
    // Most texts have about one item a byte.
    let mut items = Vec::with_capacity(alloc, bytes)?;
    let mut given = ArrayVec::new();
    let mut unit_items = ArrayVec::new();
    let mut offset = 0u64;
    for c in characters {
        if let Err(_fault) = reorder.push(*c, offset, &mut given) {
            return Err(ItemsFault::Points);
        }
        offset += c.len_utf8() as u64;
        window.push_all(given.as_slice());
        cut_units(
            table,
            &mut window,
            &mut weigher,
            &mut unit_items,
            &mut items,
        )?;
    }
    reorder.finish(&mut given);
    window.push_all(given.as_slice());
    window.end();
    cut_units(
        table,
        &mut window,
        &mut weigher,
        &mut unit_items,
        &mut items,
    )?;
    Ok(items)
}

/// Cuts all units that are decided, and puts their items at the end of `items`, those of one unit after those of another into
/// `unit_items` first.
fn cut_units<W: Weights>(
    table: &W,
    window: &mut Window,
    weigher: &mut Weigher,
    unit_items: &mut ArrayVec<Item, MOST_ITEMS>,
    items: &mut Vec<Item>,
) -> Result<(), AllocError>
    ensures stands { (taken : List Point)
        → Gives (W.table table.now) window.old weigher.old items.old.items taken
        → OnOk result (Gives (W.table table.now) window.new weigher.new items.new.items taken) }
    ensures capacity { OnOk result (window.new.capacity ≡ window.old.capacity) }
    ensures ended { OnOk result (window.new.has_ended ≡ window.old.has_ended) }
    ensures settings { OnOk result (HasSettings weigher.new weigher.old) }
    ensures room { OnOk result (window.old.has_ended ≡ false → is_closed window.old.points ≡ true
        → length window.new.points ≤ longest_mapped (W.table table.now)) }
    ensures last { OnOk result (window.old.has_ended ≡ false → is_closed window.old.points ≡ true
        → is_closed window.new.points ≡ true) }
    ensures all { OnOk result (window.old.has_ended ≡ true → window.new.points ≡ []) }
{
    while let Some(unit) = window.next_unit(table) {
        weigher.take(&unit, unit_items);
        items.extend_from_slice(unit_items.as_slice())?;
    }
    Ok(())
}
