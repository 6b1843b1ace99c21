//! That the parts of a text, each searched by itself, have the answer of the whole. So they may be searched at the same time.

ghost use Rattle.collation_matches.specs.PartLaws.{PartsGiveTheAnswer};

use collation_elements::clusters_begin_afresh;
use nfd_points::laws::{laws_of_decompositions, laws_of_faults, laws_of_ordering};
use utf8_cut::{text_may_stand_before, whole_characters_are_the_longest_text};

/// Where a text is cut at boundaries, its ranges are, in order, those of the rest from each cut on that begin before the next one. At a
/// fault the text ends with the part in which it stands, whatever was cut behind it. The chain is taken of these ranges, so it is no matter
/// of the parts. It holds for any table.
pub fn parts_give_the_answer()
    ensures { PartsGiveTheAnswer }
{
    clusters_begin_afresh();
    laws_of_decompositions();
    laws_of_ordering();
    laws_of_faults();
    whole_characters_are_the_longest_text();
    text_may_stand_before();
}
