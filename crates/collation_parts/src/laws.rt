//! Why the parts of a text may be searched at the same time: the contract of a function that does nothing.
ghost use Rattle.collation_parts.specs.PartedLaws.{PartsHaveTheirAnswer, PartsHaveTheWhole};

use collation_elements::{clusters_are_parts, clusters_begin_afresh};
use collation_matches::{matches_by_clusters, parts_give_the_answer};
use collation_table::Weights;
use nfd_points::laws::{laws_of_decompositions, laws_of_faults, laws_of_ordering};
use utf8_cut::{text_may_stand_before, whole_characters_are_the_longest_text};

/// The ranges of the parts one behind another, up to the first that has a fault, and this fault are the answer of these parts; where the
/// text is cut at boundaries, that is the answer of the whole. It holds of a pattern with a key and of at most 2^62 bytes.
pub fn parts_have_the_whole<W: Weights>(table: &W)
    ensures parts { PartsHaveTheirAnswer (W.table table.now) }
    ensures whole { PartsHaveTheWhole (W.table table.now) }
{
    clusters_begin_afresh();
    clusters_are_parts();
    laws_of_decompositions();
    laws_of_ordering();
    laws_of_faults();
    whole_characters_are_the_longest_text();
    text_may_stand_before();
    matches_by_clusters(table);
    parts_give_the_answer();
}
