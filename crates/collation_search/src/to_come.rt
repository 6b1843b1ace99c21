//! From where on ranges are still to come: what stands before is final, whatever bytes follow.

ghost use Rattle.std.specs.Prelude.{◌≡◌};
ghost use Rattle.collation_search.specs.State.{kept_places, saved_places};
ghost use Rattle.collation_search.specs.ToCome.{oldest_start as oldest_start_of};

use crate::search::Search;
use collation_elements::{clusters_are_parts, decided_units_stay};
use collation_matches::matches_by_clusters;
use collation_table::Weights;
use collation_walk::Walk;
use nfd_points::laws::{laws_of_faults, laws_of_reordering};
use utf8_cut::whole_characters_are_the_longest_text;

/// From where on ranges may still come, in bytes from the beginning of the text.
#[derive(Clone, Copy, Debug, PartialEq, Eq)]
pub struct ToCome {
    /// Each range that is to come begins here or later.
    pub start: u64,
    /// Each ends behind this offset, and a fault stands here or later.
    pub end: u64,
}

impl<'a, W: Weights> Search<'a, W> {
    ghost use Rattle.std.specs.Prelude.{◌≡◌, ℕ, ◌<◌, ◌≤◌, List, ◌++◌, drop, length, Contains};
    ghost use Rattle.std.specs.Option.{ForSome};
    ghost use Rattle.collation_matches.specs.GoodPrefix.{fault as fault_of};
    ghost use Rattle.collation_matches.specs.Sought.{IsCompiledFrom, answer_to};
    ghost use Rattle.collation_search.specs.Pieces.{IsUnderWay};
    ghost use Rattle.collation_search.specs.Search.{HasSearched, sought};
    ghost use Rattle.collation_search.specs.StateAfter.{state_after};
    ghost use Rattle.collation_search.specs.ToCome.{to_come_after};

    /// From where on ranges may still come, whatever bytes follow: of those that were not handed out yet none begins before `start`, and
    /// none ends at `end` or before it. `start` is where the oldest of the last keys stands that match a prefix of the pattern, or the
    /// start of the current cluster, which is `end`. After a fault nothing is to come, and both are 0.
    pub fn to_come(&self) -> ToCome
        ensures start { (text u more : List ℕ) (handed : List (ℕ × ℕ)) (range : ℕ × ℕ)
            → IsCompiledFrom (sought self.now) text → HasSearched self.now u handed
            → Contains
            (drop (length handed) (answer_to (sought self.now) text (u ++ more)).ranges) range
            → result.start ≤ range.0 }
        ensures end { (text u more : List ℕ) (handed : List (ℕ × ℕ)) (range : ℕ × ℕ)
            → IsCompiledFrom (sought self.now) text → HasSearched self.now u handed
            → Contains
            (drop (length handed) (answer_to (sought self.now) text (u ++ more)).ranges) range
            → result.end < range.1 }
        ensures fault { (u more : List ℕ) (handed : List (ℕ × ℕ)) → HasSearched self.now u handed
            → ForSome (fault_of (u ++ more)) (λ f. result.end ≤ f.offset) }
        // what it is exactly is known from the bytes alone
        ensures state { (u : List ℕ) (handed : List (ℕ × ℕ))
            → IsUnderWay self.now (sought self.now) u handed
            → result ≡ to_come_after (state_after (sought self.now) u) }
    {
        matches_by_clusters(self.query.table);
        clusters_are_parts();
        whole_characters_are_the_longest_text();
        laws_of_faults();
        decided_units_stay();
        laws_of_reordering();
        if self.fault.is_some() {
            return ToCome { start: 0, end: 0 };
        }
        let walk = &self.finder.matcher.walk;
        ToCome {
            start: oldest_start(walk),
            end: walk.start,
        }
    }
}

/// Where the oldest of the last keys stands, of as many as match a prefix of the pattern, or, without one, where the current cluster
/// starts.
fn oldest_start(walk: &Walk) -> u64
    ensures { result
        ≡ oldest_start_of walk.now.start (saved_places (kept_places walk.now)) }
{
    let oldest = walk.places.len().saturating_sub(walk.state);
    match walk.places.get(oldest) {
        Some(place) => place.start,
        None => walk.start,
    }
}
