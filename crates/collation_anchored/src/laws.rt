//! What the answers mean: each law is the contract of a function that does nothing.

ghost use Rattle.collation_anchored.specs.Laws.{EqualTextsHaveEqualSortKeys, EqualToItself, EqualBothWays, EqualInTurn, BeginningsAreLeast, BeginningsAreEqual, EqualTextsBegin, EndsByLastRange};

use collation_elements::clusters_are_parts;
use collation_pattern::laws::key_law;
use collation_table::Weights;

/// A whole text is a match of a pattern exactly where both have the same sort key (UTS #10, S3), at each strength, under any table. So
/// texts that are equal in this sense are so both ways, and in turn.
pub fn equal_texts()
    ensures sort_keys { EqualTextsHaveEqualSortKeys }
    ensures itself { EqualToItself }
    ensures both_ways { EqualBothWays }
    ensures in_turn { EqualInTurn }
{}

/// Where a match begins at 0, the least one is told; the text up to its end is equal; and a text that is equal begins so.
pub fn beginnings()
    ensures least { BeginningsAreLeast }
    ensures equal { BeginningsAreEqual }
    ensures whole { EqualTextsBegin }
{}

/// Under a well-formed table, of the matches that end where a text ends the one with the greatest start begins with the last minimal match
/// of the text. There is none where no minimal match is, or where the text from there on is not equal.
pub fn ends_by_last_range<W: Weights>(table: &W)
    ensures { EndsByLastRange (W.table table.now) }
{
    clusters_are_parts();
    key_law(table);
}
