//! Which keys a list may have, and from which place on. Of most keys that are not in the list this is known at once, and the list need not
//! be gone through.

ghost use Rattle.std.specs.Prelude.{◌≡◌, ◌<◌};
ghost use Rattle.collation_pattern.specs.KeySets.{HasPlaces, place_in_set};

use collation_elements::Key;

/// How many places a set has.
pub const PLACES: usize = 1_024;

/// The greatest number of a key that a set has; the keys behind have it too.
const LAST_NUMBER: usize = 254;

/// The place of a key, which other keys share.
pub fn place_of(key: &Key) -> usize
    ensures place { result ≡ place_in_set key.now }
    ensures within { result < PLACES }
{
    let weight = match *key {
        Key::Primary(first, _, _) => first,
        Key::Pair(_, follower, _, _) => follower,
        Key::Secondary(second, _) => second,
        Key::Tertiary(third) => third,
    };
    weight as usize % PLACES
}

/// The set of a list: at each place one more than the number of the first key there, 255 at most; 0 where none is there.
pub fn key_set(keys: &[Key]) -> [u8; PLACES]
    ensures { HasPlaces keys.now result }
{
    let mut set = [0; PLACES];
    for (number, key) in keys.iter().enumerate() {
        let place = place_of(key);
        if set[place] == 0 {
            set[place] = number.min(LAST_NUMBER) as u8 + 1;
        }
    }
    set
}
