//! A walk that goes on from a saved one, by the places of the last keys.

ghost use Rattle.std.specs.Prelude.{◌≡◌, ◌*◌, ◌≤◌, length};
ghost use Rattle.collation_states.specs.Reading.{places_in};
ghost use Rattle.collation_walk.specs.Kept.{saved_places};

use crate::walk::{KeyPlace, Walk};
use circular_buffer::HeapCircularBuffer;

impl Walk {
    /// Goes on in a cluster that starts at the byte offset `start`; of a chain the last range that was handed out ends at the byte
    /// offset `last_end`. `places` are the records of the places of the last keys, four words each, of as many keys as have matched.
    pub fn go_on_from(&mut self, start: u64, has_keys: bool, last_end: u64, places: &[u64])
        requires { length places.now ≤ 4 * self.old.places.capacity }
        ensures state { self.new.state ≡ length self.new.places.items }
        ensures start { self.new.start ≡ start }
        ensures has_keys { self.new.has_keys ≡ has_keys }
        ensures places { saved_places self.new.places.items ≡ places_in places.now }
        ensures few { 4 * length self.new.places.items ≤ length places.now }
        ensures select { self.new.select ≡ self.old.select }
        ensures last_end { self.new.last_end ≡ last_end }
        ensures capacity { self.new.places.capacity ≡ self.old.places.capacity }
    {
        keep_places(&mut self.places, places);
        self.state = self.places.len();
        self.start = start;
        self.has_keys = has_keys;
        self.last_end = last_end;
    }
}

/// Keeps the places that these records say, and no other.
fn keep_places(kept: &mut HeapCircularBuffer<KeyPlace>, places: &[u64])
    requires { length places.now ≤ 4 * kept.old.capacity }
    ensures places { saved_places kept.new.items ≡ places_in places.now }
    ensures few { 4 * length kept.new.items ≤ length places.now }
    ensures capacity { kept.new.capacity ≡ kept.old.capacity }
{
    kept.clear();
    let mut rest = places;
    while let [start, is_first, _, _, later @ ..] = rest {
        kept.push_back(KeyPlace {
            start: *start,
            is_first: *is_first == 1,
        });
        rest = later;
    }
}
