//! What asks texts, put away between two of them without its table and its pattern, and taken up again. A program that can't keep a value
//! which borrows from another, as a library for C, keeps the three apart.

ghost use Rattle.collation_anchored.specs.Parking.{IsForTable};

use crate::anchored::Anchored;
use crate::comparison::Comparison;
use collation_pattern::Pattern;
use collation_table::Weights;

/// What an [`Anchored`] keeps from text to text: room alone.
#[derive(Drop)]
pub struct Parked {
    pub(crate) comparison: Box<Comparison>,
}

impl<'a, W: Weights> Anchored<'a, W> {
    ghost use Rattle.collation_anchored.specs.Parking.{IsForTable};

    /// Puts away what it keeps from text to text. It asks for no memory.
    pub fn park(self) -> Parked
        ensures fits { IsForTable (W.table self.entry.table.now) result }
    {
        let Anchored {
            table: _,
            pattern: _,
            comparison,
        } = self;
        Parked { comparison }
    }
}

impl Parked {
    ghost use Rattle.std.specs.Prelude.{◌≡◌};
    ghost use Rattle.collation_anchored.specs.Parking.{IsForTable};

    /// Takes it up again, with the table that it had, and with that pattern or another one that was compiled with the table. It asks for no
    /// memory.
    pub fn unpark<'a, W: Weights>(self, table: &'a W, pattern: &'a Pattern) -> Anchored<'a, W>
        requires fits { IsForTable (W.table table.now) self }
        ensures table { result.table.now ≡ table.now }
        ensures pattern { result.pattern.now ≡ pattern.now }
    {
        let Parked { comparison } = self;
        Anchored {
            table,
            pattern,
            comparison,
        }
    }
}
