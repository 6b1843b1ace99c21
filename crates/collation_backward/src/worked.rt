//! Worked rows: what is told going back through small texts, one row a function, proved by computing.

ghost use Rattle.collation_backward.specs.WorkedRows.{AccentBehind, ContractionBehind, EndsOfLetters, FaultBehind, FaultInFront, HyphensBehind, LastRanges, RangesBackward, RangesBeforeAFault};

/// `aa` in `aaa`, from each offset.
pub fn last_ranges()
    ensures { LastRanges }
{}

/// `aa` in `aaa` and the byte ff, behind the fault and in front of it.
pub fn ranges_before_a_fault()
    ensures { RangesBeforeAFault }
{}

/// `aa` in `aaaa`, call by call.
pub fn ranges_backward()
    ensures { RangesBackward }
{}

/// `aaa` ends with `aa`, from 1 on, `aba` not with `ab`, and the empty text not with `a`.
pub fn ends_of_letters()
    ensures { EndsOfLetters }
{}

/// `baa` and U+0301 ends with `a` at strength one.
pub fn accent_behind()
    ensures { AccentBehind }
{}

/// `cab-` ends with `ab`, shifted, and with a soft hyphen always.
pub fn hyphens_behind()
    ensures { HyphensBehind }
{}

/// `ach` ends with `ch`, and not with `c` or `h`.
pub fn contraction_behind()
    ensures { ContractionBehind }
{}

/// At a fault that ends a text the fault is told.
pub fn fault_behind()
    ensures { FaultBehind }
{}

/// Behind a fault the text is read by itself.
pub fn fault_in_front()
    ensures { FaultInFront }
{}
