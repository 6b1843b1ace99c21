//! Why the search may walk over a text once. A match is defined by all pairs of boundaries, and the minimal ones among
//! them by all pairs of matches (UTS #10, section 11); the functions here state, each by its contract, that these are the
//! ranges found at the end of one cluster after the other.

ghost use Rattle.collation_matches.specs.ByClustersLaws.{minimal_ranges_are_found, one_cluster_more, one_range_ends, last_cluster_left_out, found_ranges_stay, last_keys_decide, border_decides, matches_are_found, settled_are_found, items_give_ranges};

use collation_elements::clusters_are_parts;
use collation_pattern::laws::key_law;
use collation_table::Weights;

/// Of all ranges between boundaries that have a pattern's keys, the minimal ones are those found cluster by cluster.
pub fn minimal_ranges()
    ensures { minimal_ranges_are_found }
{}

/// A cluster more leaves the ranges found as they are and appends at most one.
pub fn growing_text()
    ensures more { one_cluster_more }
    ensures at_most_one { one_range_ends }
    ensures but_the_last { last_cluster_left_out }
    ensures begins { found_ranges_stay }
{}

/// Whether a range ends with a cluster is decided by the last keys, as many as the pattern has, and whether these are the
/// pattern's by how much of the pattern ends the keys so far.
pub fn last_keys()
    ensures keys { last_keys_decide }
    ensures border { border_decides }
{}

/// Under a well-formed table the minimal matches of a pattern in a text are the ranges that its keys and the clusters of
/// the text give, cluster end by cluster end, and the settled ones are those that end before the last cluster.
pub fn matches_by_clusters<W: Weights>(table: &W)
    ensures matches { matches_are_found (W.table table.now) }
    ensures settled { settled_are_found (W.table table.now) }
    ensures items { items_give_ranges (W.table table.now) }
{
    clusters_are_parts();
    key_law(table);
}
