//! From where on the rest of a text has the matches that the text has there. So an editor may ask for
//! the next match from the end of the last one, and need not begin at the beginning of the text.

ghost use Rattle.collation_matches.specs.OffsetLaws.{MatchesFromBoundaries, AnswersFromBoundaries};
ghost use Rattle.collation_matches.specs.OffsetLaws.{RangesMayBeGoneOnFrom, CallsGiveTheChain};

use crate::bridge::matches_by_clusters;
use collation_elements::{clusters_are_parts, clusters_begin_afresh};
use collation_table::Weights;
use nfd_points::laws::{laws_of_decompositions, laws_of_faults, laws_of_ordering};
use utf8_cut::{text_may_stand_before, whole_characters_are_the_longest_text};

/// From a boundary of a text on, the matches of the rest, taken as a text by itself, are those of the
/// text that begin there or later. Where the boundary stands before the first fault, so are the ranges
/// of the answer, and the fault is the same; the start and the end of each range are such places. It
/// holds for any table.
///
/// Elsewhere it need not be so, as from amid a contraction on ([`crate::worked::rest_amid_contraction`]).
pub fn matches_from_a_boundary()
    ensures matches { MatchesFromBoundaries }
    ensures answers { AnswersFromBoundaries }
    ensures ranges { RangesMayBeGoneOnFrom }
{
    clusters_begin_afresh();
    laws_of_decompositions();
    laws_of_ordering();
    laws_of_faults();
    whole_characters_are_the_longest_text();
    text_may_stand_before();
}

/// Under a well-formed table, calls that ask for the first range, each from the end of the range
/// before on, find the chain of the text: the ranges that do not overlap.
pub fn calls_give_the_chain<W: Weights>(table: &W)
    ensures { CallsGiveTheChain (W.table table.now) }
{
    clusters_begin_afresh();
    clusters_are_parts();
    laws_of_decompositions();
    laws_of_ordering();
    laws_of_faults();
    whole_characters_are_the_longest_text();
    text_may_stand_before();
    matches_by_clusters(table);
}
