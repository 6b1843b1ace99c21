//! Worked rows: what the parts of small texts have, proved by computing.

ghost use Rattle.collation_parts.specs.WorkedRows.{SinglePartsAtBadByte, SinglePartsOfLetters};

/// The parts of `aaaa` for `aa`, cut in the middle, and parts without bytes.
pub fn parts_of_letters()
    ensures { SinglePartsOfLetters }
{}

/// The parts of `aa`, the byte ff and `aa`.
pub fn parts_at_bad_byte()
    ensures { SinglePartsAtBadByte }
{}
