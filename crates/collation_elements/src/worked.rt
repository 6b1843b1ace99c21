//! Numbers and values that stand in the definitions and the code, as numbers.

ghost use Rattle.std.specs.Prelude.{◌≡◌};
ghost use Rattle.collation_elements.specs.declared.keys.Item.TheVariants.{ClusterStart};
ghost use Rattle.collation_elements.specs.declared.weigher.TheConstants.{MOST_ITEMS};

use crate::keys::Item;

/// The room for the items of one unit.
pub fn limits()
    ensures most_items { MOST_ITEMS ≡ 129 }
{}

/// What fills the unused places of a fixed vector of items.
pub fn unused_item() -> Item
    ensures { result ≡ ClusterStart 0 }
{
    Item::default()
}
