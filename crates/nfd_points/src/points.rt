//! A point: one code point of a decomposed text, and where it comes from.
ghost use Rattle.std.specs.Prelude.{◌≡◌, ◌<◌, [], ◌∷◌, true, bytes_eq};
ghost use Rattle.unicode_normalization.specs.Lookups.{canonical_combining_class};
ghost use Rattle.nfd_points.specs.Points.{IsPlain, ascii_point, decomposition};
ghost use Rattle.nfd_points.specs.Reordering.{IsSoundPoint};

use ucd_normal::{QuickCheck, class_and_quick_check};
use unicode_normalization::Form;
use unicode_normalization::char::{canonical_combining_class, decomposition};

/// A code point of the canonical decomposition of a code point of a text.
#[derive(Clone, Copy, Debug, Default, PartialEq, Eq)]
pub struct Point {
    /// The code point, a Unicode scalar value.
    pub cp: u32,
    /// Its canonical combining class, which is 0 exactly for a starter.
    pub ccc: u8,
    /// Whether it is the first of that code point's decomposition.
    pub first: bool,
    /// The offset in bytes, from the beginning of the text, of the code point that it comes from.
    pub offset: u64,
}

impl Point {
    /// The point `c`, with its class, of the code point at the byte `offset`.
    pub fn new(c: char, offset: u64, first: bool) -> Self
        ensures value { result
            ≡ record { cp = c; ccc = canonical_combining_class c; offset = offset; first = first } }
        ensures sound { IsSoundPoint result }
    {
        Point {
            cp: c as u32,
            ccc: canonical_combining_class(c),
            offset,
            first,
        }
    }

    /// Whether a code point is its own canonical decomposition, as each point of a text is.
    pub fn is_decomposed(c: char) -> bool
        ensures { result ≡ bytes_eq (decomposition c) (c ∷ []) }
    {
        let mut room = [c; 3];
        decomposition(c, Form::Nfd, &mut room) == [c].as_slice()
    }

    /// The point of a code point that is a starter and its own decomposition.
    #[inline(always)]
    pub(crate) fn plain(c: char, offset: u64) -> Self
        requires { IsPlain c }
        ensures { result ≡ ascii_point offset c }
    {
        Point {
            cp: c as u32,
            ccc: 0,
            offset,
            first: true,
        }
    }
}

/// Whether a code point is known to be a starter and its own decomposition. It asks the tables once, and for none below 80 hex.
#[inline(always)]
pub(crate) fn is_plain(c: char) -> bool
    ensures plain { result ≡ true → IsPlain c }
    ensures ascii { c < 128 → result ≡ true }
{
    if c.is_ascii() {
        return true;
    }
    let (class, answer) = class_and_quick_check(c, Form::Nfd);
    class == 0 && matches!(answer, QuickCheck::Yes)
}
