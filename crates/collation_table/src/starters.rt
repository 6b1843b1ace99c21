//! Which code points of a mapped string are non-starters (The Unicode Standard, D107).
ghost use Rattle.std.specs.Prelude.{◌≡◌, nat_lt};
ghost use Rattle.collation_table.specs.Table.{class_of};

use unicode_normalization::Form;
use unicode_normalization::char::{canonical_combining_class, decomposition};

/// Whether a code point that stands in a mapped string is a non-starter. A surrogate and a code point that is not its own
/// canonical decomposition count as starters, since a text in NFD has none.
pub(crate) fn is_nonstarter(cp: u32) -> bool
    ensures { result ≡ nat_lt 0 (class_of cp) }
{
    let Some(c) = char::from_u32(cp) else {
        return false;
    };
    let mut room = [c; 3];
    decomposition(c, Form::Nfd, &mut room) == [c].as_slice() && canonical_combining_class(c) > 0
}
