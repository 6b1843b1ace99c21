//! A finder that goes on from a saved state: each part of it takes what the state says of it.

use crate::finder::Finder;
use collation_elements::Weigher;
use collation_pattern::Pattern;
use collation_states::ReadState;
use nfd_points::Reorder;
use std::alloc::Global;

impl Finder {
    ghost use Rattle.std.specs.Prelude.{◌≡◌, ◌+◌, ◌*◌, ◌≤◌, [], length, false};
    ghost use Rattle.nfd_points.specs.declared.limits.TheConstants.{MOST_GIVEN};
    ghost use Rattle.collation_finder.specs.Finding.{RestoresState};

    /// Goes on from what a state says, in the room of a new finder.
    pub fn go_on_from(&mut self, alloc: Global, pattern: &Pattern, state: &ReadState)
        requires empty { self.old.window.points ≡ [] }
        requires open { self.old.window.has_ended ≡ false }
        requires few_places { length state.now.places.now
            ≤ 4 * self.old.matcher.walk.places.capacity }
        requires few_points { length state.now.window.items + MOST_GIVEN
            ≤ self.old.window.capacity }
        ensures restored { RestoresState pattern.now state.now self.old self.new }
    {
        self.reorder = Reorder::restore(alloc, state.waiting.as_slice());
        self.window.restore(state.window.as_slice());
        self.matcher.weigher = Weigher::restore(
            pattern.strength(),
            pattern.variable(),
            state.after_variable,
        );
        self.matcher
            .walk
            .go_on_from(state.start, state.has_keys, state.last_end, state.places);
    }
}
