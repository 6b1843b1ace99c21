//! How far the ranges that a search over a stream has found may lag behind the code points that it has taken. Between two
//! bytes at most 30 non-starters wait to be put in order, and the window holds at most as many points as the longest key of
//! the table has. Each code point has one point at least. So once 31 code points more than the longest key has were taken
//! from the end of a match on, the unit that begins there was cut, and the match was found.

ghost use Rattle.collation_matches.specs.Lag.{ranges_are_found_in_time, settled_ranges_are_found_in_time, matches_are_found_in_time, answers_are_found_in_time};

use crate::bridge::matches_by_clusters;
use collation_elements::{clusters_are_parts, clusters_begin_afresh};
use collation_table::Weights;
use nfd_points::laws::{laws_of_decompositions, laws_of_faults, laws_of_reordering};
use utf8_cut::whole_characters_are_the_longest_text;

/// The ranges of a text, for any table: each was found once 31 code points more than the window holds points were taken from
/// its end on, and so was each that ends before the last cluster of the text.
pub fn ranges_in_time()
    ensures all { ranges_are_found_in_time }
    ensures before_last { settled_ranges_are_found_in_time }
{
    laws_of_decompositions();
    laws_of_reordering();
    clusters_begin_afresh();
    clusters_are_parts();
}

/// Under a well-formed table, where the window holds at most as many points as the longest key has: each minimal match of a
/// text was found once 31 code points more than the longest key has were taken from its end on.
pub fn matches_in_time<W: Weights>(table: &W)
    ensures { matches_are_found_in_time (W.table table.now) }
{
    ranges_in_time();
    matches_by_clusters(table);
}

/// The same of bytes that a text may go on from, whatever follows: each range of the answer was found once 31 code points more
/// than the longest key has were taken from its end on, also where a fault is to come.
pub fn answers_in_time<W: Weights>(table: &W)
    ensures { answers_are_found_in_time (W.table table.now) }
{
    matches_in_time(table);
    whole_characters_are_the_longest_text();
    laws_of_faults();
}
