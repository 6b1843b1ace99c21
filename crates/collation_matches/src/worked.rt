//! Worked rows: small texts whose matches the definitions give, one row a function, proved by computing.

ghost use Rattle.collation_matches.specs.WorkedRows.{OverlappingLetters, ComposedPrimary, ComposedSecondary, DecomposedPrimary, DecomposedSecondary, InsideContraction, RestAmidContraction, HyphenShifted, HyphenKept, SoftHyphen, Discontiguous, DiscontiguousSecondary, BlockedAccent, BlockedBase, AccentBefore, BadByte, IncompleteSequence, ChainOfLetters, ChainAtBadByte, PartsOfLetters, PartsAtBadByte};

/// `aa` in `aaa`: ranges that overlap are all found.
pub fn overlapping_letters()
    ensures { OverlappingLetters }
{}

/// `resume` in composed `résumé` at strength one: the whole text, its last accent too.
pub fn composed_primary()
    ensures { ComposedPrimary }
{}

/// The same at strength two: nothing.
pub fn composed_secondary()
    ensures { ComposedSecondary }
{}

/// `resume` in decomposed `résumé` at strength one.
pub fn decomposed_primary()
    ensures { DecomposedPrimary }
{}

/// The same at strength two: nothing.
pub fn decomposed_secondary()
    ensures { DecomposedSecondary }
{}

/// `c` in the contraction `ch`: nothing.
pub fn inside_contraction()
    ensures { InsideContraction }
{}

/// `h` in the contraction `ch`: nothing; in its rest from amid the contraction on: the rest.
pub fn rest_amid_contraction()
    ensures { RestAmidContraction }
{}

/// `ab` in `a - b`, shifted.
pub fn hyphen_shifted()
    ensures { HyphenShifted }
{}

/// The same, non-ignorable: nothing.
pub fn hyphen_kept()
    ensures { HyphenKept }
{}

/// `a` in `a` and U+00AD.
pub fn soft_hyphen()
    ensures { SoftHyphen }
{}

/// U+00FA at strength one in `u` U+0327 U+0301: a discontiguous contraction.
pub fn discontiguous()
    ensures { Discontiguous }
{}

/// The same at strength two: nothing, for the cedilla is left over.
pub fn discontiguous_secondary()
    ensures { DiscontiguousSecondary }
{}

/// U+00FA at strength one in `u` U+0300 U+0301: nothing, for U+0301 is blocked.
pub fn blocked_accent()
    ensures { BlockedAccent }
{}

/// `u` at strength one there.
pub fn blocked_base()
    ensures { BlockedBase }
{}

/// `a` at strength one in U+0301 `a`: the match that begins at 0 is not minimal.
pub fn accent_before()
    ensures { AccentBefore }
{}

/// `a` in `ab`, a space and the byte ff.
pub fn bad_byte()
    ensures { BadByte }
{}

/// `b` in `ab` and the byte c3: the match that ends at the fault is not handed out.
pub fn incomplete_sequence()
    ensures { IncompleteSequence }
{}

/// The chain of `aa` in `aaaa`.
pub fn chain_of_letters()
    ensures { ChainOfLetters }
{}

/// The chain of `aa` in `aaaaa` and the byte ff: of the settled ranges.
pub fn chain_at_bad_byte()
    ensures { ChainAtBadByte }
{}

/// The parts of `aaaa` for `aa`, cut behind the first and the third letter.
pub fn parts_of_letters()
    ensures { PartsOfLetters }
{}

/// The parts of `aaa`, the byte ff and `aa`, cut behind the first letter and behind the bad byte.
pub fn parts_at_bad_byte()
    ensures { PartsAtBadByte }
{}
