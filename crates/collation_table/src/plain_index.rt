//! The index of a plain table: an ordered map from each mapped string to the place of its row.
ghost use Rattle.std.specs.Prelude.{⊤};
ghost use Rattle.collation_table.specs.Plain.{place_in};

use crate::pages::Place;
use crate::row_index::RowIndex;
use std::alloc::{AllocError, Global};
use std::collections::BTreeMap;

/// Mapped strings, each with the place of its row.
#[derive(Drop)]
pub(crate) struct PlainIndex {
    places: BTreeMap<Vec<u32>, Place>,
}

impl RowIndex for PlainIndex {
    ghost finds = { λ index. place_in index.places };

    ghost is_whole = { λ _. ⊤ };

    fn new(alloc: Global) -> PlainIndex {
        PlainIndex {
            places: BTreeMap::new(alloc),
        }
    }

    fn insert(&mut self, alloc: Global, string: &[u32], place: Place) -> Result<(), AllocError> {
        let mut key = Vec::new(alloc);
        key.extend_from_slice(string)?;
        self.places.insert(key, place)?;
        Ok(())
    }

    fn place(&self, string: &[u32]) -> Option<Place> {
        self.places.get(string).copied()
    }
}
