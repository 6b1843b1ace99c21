//! Worked rows: small texts, and what the definitions answer, one row a function, proved by computing.

ghost use Rattle.collation_anchored.specs.WorkedRows.{ResumeAtEachStrength, ComposedAndDecomposed, AccentInFront, ContractionAtTheEnds, HyphensAround, TooLongAndTooShort, AtAFault, ResumeBegins, AccentFirst, AccentNext, ContractionBegins, HyphensFirst, LongerAndShorter, HangulBegins, BeginsAtAFault};

/// `resume` is equal to composed `résumé` at strength one alone.
pub fn resume_at_each_strength()
    ensures { ResumeAtEachStrength }
{}

/// Composed and decomposed `résumé` are equal at strength three.
pub fn composed_and_decomposed()
    ensures { ComposedAndDecomposed }
{}

/// `a` is equal to U+0301 `a` at strength one.
pub fn accent_in_front()
    ensures { AccentInFront }
{}

/// `c` is not equal to the contraction `ch`.
pub fn contraction_at_the_ends()
    ensures { ContractionAtTheEnds }
{}

/// `ab` is equal to `-a - b `, shifted.
pub fn hyphens_around()
    ensures { HyphensAround }
{}

/// `aa` is not equal to `aaa`, nor `aaa` to `aa`, nor `a` to the empty text.
pub fn too_long_and_too_short()
    ensures { TooLongAndTooShort }
{}

/// At a fault the answer is no where the keys before it are not the first of the pattern's, and else the fault.
pub fn at_a_fault()
    ensures { AtAFault }
{}

/// `résumés` begins with `resume` at strength one alone, up to 8.
pub fn resume_begins()
    ensures { ResumeBegins }
{}

/// U+0301 `ab` begins with `a` at strength one, up to 3.
pub fn accent_first()
    ensures { AccentFirst }
{}

/// `a` U+0301 `b` begins with `a` at strength one, up to 3.
pub fn accent_next()
    ensures { AccentNext }
{}

/// `ch` does not begin with `c`, and `cha` begins with `ch`.
pub fn contraction_begins()
    ensures { ContractionBegins }
{}

/// `-a - b c` begins with `ab`, shifted, up to 6.
pub fn hyphens_first()
    ensures { HyphensFirst }
{}

/// `aaa` begins with `aa`, and `aa` not with `aaa`, nor `ba` with `a`, nor the empty text.
pub fn longer_and_shorter()
    ensures { LongerAndShorter }
{}

/// U+AC01 does not begin with U+AC00, and begins so where it is spelled by three jamo.
pub fn hangul_begins()
    ensures { HangulBegins }
{}

/// A match that ends before a fault is told. One that ends there is not, and the fault is.
pub fn begins_at_a_fault()
    ensures { BeginsAtAFault }
{}
