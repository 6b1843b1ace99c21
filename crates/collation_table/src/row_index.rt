//! What finds the rows of a table by their mapped strings.
ghost use Rattle.std.specs.Prelude.{◌≡◌, ℕ, ◌<◌, List, length, Option, None, Some, OnOk};
ghost use Rattle.collation_table.specs.declared.pages.Place.{Place};

use crate::pages::Place;
use std::alloc::{AllocError, Global};

/// From mapped strings to places of rows.
pub(crate) trait RowIndex: Drop {
    // The place of each string that was put in.
    ghost finds: { Self → List ℕ → Option Place };

    // No string was cut short for want of memory, so it answers.
    ghost is_whole: { Self → Type 0 };

    /// Without mapped strings. Takes no memory.
    fn new(alloc: Global) -> Self
        ensures whole { is_whole result }
        ensures empty { (string : List ℕ) → finds result string ≡ None };

    /// Puts a mapped string at a place. Where memory is refused, it may not be whole any more.
    fn insert(&mut self, alloc: Global, string: &[u32], place: Place) -> Result<(), AllocError>
        requires whole { is_whole self.old }
        requires some { 0 < length string.now }
        ensures whole { OnOk result (is_whole self.new) }
        ensures here { OnOk result (finds self.new string.now ≡ Some place) }
        ensures others { OnOk result ((q : List ℕ) → ((q ≡ string.now) → ⊥)
            → finds self.new q ≡ finds self.old q) };

    /// The place of a mapped string.
    fn place(&self, string: &[u32]) -> Option<Place>
        requires { is_whole self.now }
        ensures { result ≡ finds self.now string.now };
}
