//! Laws of the overlay of two tables, as the contract of a function without code.

ghost use Rattle.collation_table.specs.Faults.{FileAloneLaws};
ghost use Rattle.collation_table.specs.Overlay.{OverlayLaws};

/// What the overlay of two tables maps a string to; an empty table on either side leaves the other.
pub fn overlays()
    ensures { OverlayLaws }
{}

/// A file alone spells the map of its lines, and its fault is that of its lines or of this map.
pub fn files_alone()
    ensures { FileAloneLaws }
{}
