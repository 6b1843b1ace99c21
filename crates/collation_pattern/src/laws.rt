//! Laws of sort keys, lists of keys, and borders.

ghost use Rattle.collation_pattern.specs.Border.{BordersGoOn, BordersGrowByOne, PrefixesEndWithTheLastKey};
ghost use Rattle.collation_pattern.specs.KeyLaw.{KeyLaw, SortKeyIsLevels};

use collation_table::Weights;
use nfd_points::laws::laws_of_points;

/// Under a well-formed table two texts have the same sort key exactly where they have the same list of keys.
pub fn key_law<W: Weights>(table: &W)
    ensures same { KeyLaw (W.table table.now) }
    ensures levels { SortKeyIsLevels (W.table table.now) }
{
    laws_of_points();
}

/// Where a prefix of a pattern ends a list of keys, its last key is the last of the list, and without this key a shorter prefix by
/// one ends the list. What the border is with one key more follows from the border before it.
pub fn laws_of_borders()
    ensures last { PrefixesEndWithTheLastKey }
    ensures grow { BordersGrowByOne }
    ensures go_on { BordersGoOn }
{}
