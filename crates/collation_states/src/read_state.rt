//! What the words of a state say.
ghost use Rattle.std.specs.Prelude.{◌≡◌, ◌≤◌, length, true, All};
ghost use Rattle.std.specs.Option.{ForSome};
ghost use Rattle.unicode_normalization.specs.StreamSafe.{has_short_runs};
ghost use Rattle.utf8_cut.specs.Characters.{is_incomplete_or_empty};
ghost use Rattle.nfd_points.specs.Reordering.{IsSoundPoint, IsHeld, code_points, is_closed};
ghost use Rattle.collation_matches.specs.GoodPrefix.{most_bytes};

use crate::state_points::Points;
use arrayvec::ArrayVec;
use collation_matches::TextFault;

/// What the words of a state say, beside the sizes and the settings. After a fault it says that fault and nothing else.
#[derive(Drop)]
pub struct ReadState<'a> {
    /// The number of bytes taken.
    pub taken: u64,
    pub fault: Option<TextFault>,
    /// The bytes that begin a character.
    pub held: ArrayVec<u8, 3>,
    /// Whether the last element that was variable or primary was variable, under shifted weighting.
    pub after_variable: bool,
    /// Where the current cluster starts, whether it has keys, and whether a match waits for its end.
    pub start: u64,
    pub has_keys: bool,
    pub waits: bool,
    /// Of a chain, where the last range ends that was handed out; else 0.
    pub last_end: u64,
    /// The records of the places of the last keys, as many as have matched: the start of a key's cluster, whether the key is its
    /// first one, 0 and 0.
    pub places: &'a [u64],
    /// The points in the window, and those that wait.
    pub window: Points,
    pub waiting: Points,
    ghost short: { taken ≤ most_bytes },
    ghost kinds: { ForSome fault (λ f. (31 ≤ f.kind) × (f.kind ≤ 35) × (f.offset ≤ most_bytes)) },
    ghost within: { length held.items ≤ taken },
    ghost may_be_held: { is_incomplete_or_empty held.items ≡ true },
    ghost sound: { All IsSoundPoint window.items },
    ghost closed: { is_closed window.items ≡ true },
    ghost short_runs: { has_short_runs 0 (code_points window.items) ≡ true },
    ghost in_order: { IsHeld waiting.items },
}
