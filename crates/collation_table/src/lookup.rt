//! What the rest of the library asks a collation element table.
ghost use Rattle.std.specs.Prelude.{◌≡◌, [], ◌∷◌, false, ◌<◌, ◌≤◌, length, option_copied, IfSome, OnSome};
ghost use Rattle.collation_table.specs.Table.{TableMap, BeginsNoLongerString, ContinuesNoString, GoesOnInNoString, HasSizes, row_of, longest_prefix, implicit_pair, longest_mapped, most_elements};
ghost use Rattle.collation_table.specs.Unsafe.{is_unsafe as is_unsafe_in};
ghost use Rattle.collation_table.specs.WellFormed.{IsWellFormed};

use crate::elements::Element;

/// A well-formed collation element table (UTS #10, section 5). No call takes memory.
pub trait Weights {
    // The finite map and the ranges that the table represents.
    ghost table: { Self → TableMap };

    /// The greatest number of code points at which a prefix of `points` is mapped by the table, and 0 if none is.
    fn longest(&self, points: &[u32]) -> usize
        ensures value { result ≡ longest_prefix (table self.now) points.now }
        ensures within { result ≤ length points.now };

    /// The collation elements to which the table maps `string`, lent by the table.
    fn row(&self, string: &[u32]) -> Option<&[Element]>
        ensures { option_copied result ≡ row_of (table self.now) string.now };

    /// Whether a mapped string of two or more code points begins with `cp`. `false` only where none does; a table that does not
    /// know answers `true`.
    fn begins_longer_string(&self, cp: u32) -> bool
        ensures { result ≡ false → BeginsNoLongerString (table self.now) cp }
    {
        let _ = cp;
        true
    }

    /// The collation elements to which the table maps `cp` alone, if it does, where no mapped string of two or more code points
    /// begins with it: [`begins_longer_string`](Weights::begins_longer_string) and [`row`](Weights::row) at once. `None` where one may.
    fn lone_row(&self, cp: u32) -> Option<Option<&[Element]>>
        ensures alone { OnSome result (BeginsNoLongerString (table self.now) cp) }
        ensures row { IfSome result (λ row. option_copied row ≡ row_of (table self.now) (cp ∷ [])) }
    {
        if self.begins_longer_string(cp) {
            return None;
        }
        Some(self.row(&[cp]))
    }

    /// Whether `cp` stands after the first place in some mapped string. `false` only where it does not; a table that does not
    /// know answers `true`.
    fn continues_string(&self, cp: u32) -> bool
        ensures { result ≡ false → ContinuesNoString (table self.now) cp }
    {
        let _ = cp;
        true
    }

    /// Whether a mapped string that is longer than `string` begins with it. `false` only where none does; a table that does not know
    /// answers `true`.
    fn goes_on(&self, string: &[u32]) -> bool
        ensures { result ≡ false → GoesOnInNoString (table self.now) string.now }
    {
        let _ = string;
        true
    }

    /// The two elements of a code point that has no row of its own (UTS #10, section 10.1.3).
    fn implicit(&self, cp: u32) -> [Element; 2]
        requires { cp < 0x110000 }
        ensures { result ≡ implicit_pair (table self.now) cp };

    /// The number of code points of the longest mapped string.
    fn longest_key(&self) -> usize
        ensures { result ≡ longest_mapped (table self.now) };

    /// The number of elements of the largest row, at least the 2 of an implicit pair.
    fn most_elements(&self) -> usize
        ensures { result ≡ most_elements (table self.now) };

    // The table meets the standard's conditions, and the limits on its sizes.
    ghost well_formed: { (t : Self) → IsWellFormed (table t) };

    ghost sizes: { (t : Self) → HasSizes (table t) };
}

/// A table that knows exactly which code points are unsafe, where a search may not begin. The call takes no memory.
pub trait Strings: Weights {
    /// Whether `cp` stands in a mapped string behind the first place, or one begins with it whose first element has no primary weight.
    fn is_unsafe(&self, cp: u32) -> bool
        ensures { result ≡ is_unsafe_in (Self.table self.now) cp };
}
