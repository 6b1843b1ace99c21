//! Whether two lists of keys have the same weights at a level, with no list of weights made.

ghost use Rattle.std.specs.Prelude.{◌≡◌, ◌↔◌, [], ◌∷◌, IsTrue};
ghost use Rattle.collation_pattern.specs.SortKey.{level};
ghost use Rattle.collation_pattern.specs.Levels.{levels};
ghost use Rattle.collation_pattern.specs.LevelWeights.{weights_of_key, level_weights};
ghost use Rattle.collation_pattern.specs.Readers.{TakesWeight};

use collation_elements::{Key, Strength};

/// A level of weights.
#[derive(Clone, Copy)]
pub enum Level {
    First,
    Second,
    Third,
}

/// The weights of a key at a level, where 0 represents none. Only a pair at the first level has two.
fn weights_of(key: &Key, at: Level) -> (u16, u16)
    ensures { level (result.0 ∷ result.1 ∷ []) ≡ level (weights_of_key at key.now) }
{
    match (at, *key) {
        (Level::First, Key::Primary(first, _, _)) => (first, 0),
        (Level::First, Key::Pair(lead, follower, _, _)) => (lead, follower),
        (Level::Second, Key::Primary(_, second, _)) => (second, 0),
        (Level::Second, Key::Pair(_, _, second, _)) => (second, 0),
        (Level::Second, Key::Secondary(second, _)) => (second, 0),
        (Level::Third, Key::Primary(_, _, third)) => (third, 0),
        (Level::Third, Key::Pair(_, _, _, third)) => (third, 0),
        (Level::Third, Key::Secondary(_, third)) => (third, 0),
        (Level::Third, Key::Tertiary(third)) => (third, 0),
        _ => (0, 0),
    }
}

/// The keys whose weights are still to come, after a weight of the key before them (0 where it has none left).
#[derive(Drop)]
struct Reader<'a> {
    pending: u16,
    keys: &'a [Key],
}

impl<'a> Reader<'a> {
    /// The next weight that is not zero, or 0 at the end.
    fn next(&mut self, at: Level) -> u16
        ensures { TakesWeight at self.old self.new result }
    {
        if self.pending != 0 {
            let weight = self.pending;
            self.pending = 0;
            return weight;
        }
        while let Some((key, rest)) = self.keys.split_first() {
            self.keys = rest;
            let (first, second) = weights_of(key, at);
            if first != 0 {
                self.pending = second;
                return first;
            }
            if second != 0 {
                return second;
            }
        }
        0
    }
}

/// Whether two lists of keys have the same weights at a level, those that are 0 left out.
pub fn same_level(left: &[Key], right: &[Key], at: Level) -> bool
    ensures { IsTrue result ↔ (level_weights at left.now ≡ level_weights at right.now) }
{
    let mut one = Reader {
        pending: 0,
        keys: left,
    };
    let mut other = Reader {
        pending: 0,
        keys: right,
    };
    loop {
        let weight = one.next(at);
        if other.next(at) != weight {
            return false;
        }
        if weight == 0 {
            return true;
        }
    }
}

/// Whether two lists of keys have the same weights at each level up to a strength, those that are 0 left out.
#[tactic(auto, using(crate::proofs::KeyLists::levels_first, crate::proofs::KeyLists::levels_two, crate::proofs::KeyLists::levels_three))]
pub fn same_levels(strength: Strength, left: &[Key], right: &[Key]) -> bool
    ensures { IsTrue result ↔ (levels strength left.now ≡ levels strength right.now) }
{
    if !same_level(left, right, Level::First) {
        return false;
    }
    match strength {
        Strength::One => true,
        Strength::Two => same_level(left, right, Level::Second),
        Strength::Three => {
            if !same_level(left, right, Level::Second) {
                return false;
            }
            same_level(left, right, Level::Third)
        }
    }
}
