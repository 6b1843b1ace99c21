//! Why a search may begin at a safe offset: each law is the contract of a function that does nothing.
ghost use Rattle.collation_safe.specs.Laws.{AnswersFromSafeOffsets, SafeOffsetsAreBoundaries, SafeOffsetsMayBeGoneOnFrom};

use collation_elements::{clusters_begin_afresh, units_stay_apart};
use collation_matches::matches_from_a_boundary;
use nfd_points::laws::{laws_of_decompositions, laws_of_faults, laws_of_ordering, laws_of_points};
use utf8_cut::{text_may_stand_before, whole_characters_are_the_longest_text};

/// A safe offset of some bytes is a boundary of each text that they are a part of, where the text has no fault up to there. It holds for
/// any table.
pub fn safe_offsets_are_boundaries()
    ensures boundaries { SafeOffsetsAreBoundaries }
    ensures places { SafeOffsetsMayBeGoneOnFrom }
{
    units_stay_apart();
    clusters_begin_afresh();
    laws_of_decompositions();
    laws_of_points();
    laws_of_ordering();
    laws_of_faults();
    whole_characters_are_the_longest_text();
    text_may_stand_before();
}

/// From a safe offset on, and before the first fault of a text, the ranges of the answer to the rest are those of the text that begin
/// there or later, and the fault is the same.
pub fn answers_from_safe_offsets()
    ensures { AnswersFromSafeOffsets }
{
    safe_offsets_are_boundaries();
    matches_from_a_boundary();
}
