//! What the calls mean together: the law is the contract of a function that does nothing.

ghost use Rattle.collation_backward.specs.Laws.{CallsGoBack};

use collation_elements::{clusters_are_parts, clusters_begin_afresh};
use collation_matches::matches_by_clusters;
use collation_table::Weights;
use nfd_points::laws::{laws_of_decompositions, laws_of_faults, laws_of_ordering};
use utf8_cut::{text_may_stand_before, whole_characters_are_the_longest_text};

/// Under a well-formed table, calls that each ask for the last range up to the byte before the end of the range before give all ranges of
/// a text, the last one first.
pub fn calls_go_back<W: Weights>(table: &W)
    ensures { CallsGoBack (W.table table.now) }
{
    clusters_begin_afresh();
    clusters_are_parts();
    laws_of_decompositions();
    laws_of_ordering();
    laws_of_faults();
    whole_characters_are_the_longest_text();
    text_may_stand_before();
    matches_by_clusters(table);
}
