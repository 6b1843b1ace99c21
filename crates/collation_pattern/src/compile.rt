//! From the text of a pattern to its keys.

ghost use Rattle.std.specs.Prelude.{◌≡◌, ◌≢◌, ◌+◌, ◌≤◌, length, None, Some, IfOk, OnOk, IfErr, chars, [], ◌∷◌, ◌++◌};
ghost use Rattle.nfd_points.specs.PointFaults.{point_fault};
ghost use Rattle.collation_elements.specs.ItemParts.{item_keys};
ghost use Rattle.collation_pattern.specs.Levels.{text_keys};
ghost use Rattle.collation_pattern.specs.PatternFaults.{IsFault};

use crate::faults::PatternFault;
use collation_elements::{
    Item, ItemsFault, Key, Strength, Variable, items_are_keys_and_starts, items_of_text,
};
use collation_table::Weights;
use std::alloc::{AllocError, Global};

/// The greatest number of bytes of a pattern.
pub const MOST_PATTERN_BYTES: usize = 65_536;

/// The keys of a pattern's text.
pub fn keys_of_pattern<W: Weights>(
    alloc: Global,
    table: &W,
    text: &str,
    strength: Strength,
    variable: Variable,
) -> Result<Vec<Key>, PatternFault>
    ensures keys { IfOk result
        (λ keys. keys.items ≡ text_keys (W.table table.now) strength variable text.now) }
    ensures some { IfOk result (λ keys. 1 ≤ length keys.items) }
    ensures accepted { OnOk result (IsFault (W.table table.now) strength variable text.now None) }
    ensures refused { IfErr result (λ f. f.kind ≢ 24
        → IsFault (W.table table.now) strength variable text.now (Some f.kind)) }
{
    items_are_keys_and_starts();
    if text.len() > MOST_PATTERN_BYTES {
        return Err(PatternFault {
            kind: PatternFault::TOO_LONG,
        });
    }
    let items = match items_of_text(alloc, table, text, strength, variable) {
        Ok(items) => items,
        Err(ItemsFault::Points) => return Err(PatternFault {
            kind: PatternFault::LONG_RUN,
        }),
        Err(ItemsFault::Memory) => return Err(PatternFault {
            kind: PatternFault::MEMORY,
        }),
    };
    let Ok(keys) = keys_among(alloc, items.as_slice()) else {
        return Err(PatternFault {
            kind: PatternFault::MEMORY,
        });
    };
    if keys.is_empty() {
        return Err(PatternFault {
            kind: PatternFault::NO_KEY,
        });
    }
    Ok(keys)
}

/// The keys among some items.
fn keys_among(alloc: Global, items: &[Item]) -> Result<Vec<Key>, AllocError>
    ensures { IfOk result (λ keys. keys.items ≡ item_keys items.now) }
{
    let mut keys = Vec::new(alloc);
    for item in items {
        push_key(&mut keys, *item)?;
    }
    Ok(keys)
}

/// Appends the key that an item is, if it is one.
fn push_key(keys: &mut Vec<Key>, item: Item) -> Result<(), AllocError>
    ensures { OnOk result (keys.new.items ≡ keys.old.items ++ item_keys (item ∷ [])) }
{
    match item {
        Item::Element(key) => {
            keys.push(key)?;
            Ok(())
        }
        Item::ClusterStart(_) => Ok(()),
    }
}
