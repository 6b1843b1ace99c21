//! Places for the letters of pairs that were found. Pairs share places; each place has the letter of the last one that came there.
ghost use Rattle.std.specs.Prelude.{◌≡◌, ◌<◌, ◌∷◌, [], None, All, IfOk, IfSome};
ghost use Rattle.collation_table.specs.Table.{TableMap};
ghost use Rattle.collation_pattern.specs.Compiled.{Compiled};
ghost use Rattle.collation_letters.specs.Letters.{IsLetter};
ghost use Rattle.collation_letters.specs.Store.{ArePairsKept, IsOfNoPair};

use crate::letter::{Letter, UNKNOWN};
use std::alloc::{AllocError, Global};

/// The letter of two characters together.
#[derive(Clone, Copy)]
pub(crate) struct KeptPair {
    pub(crate) first: u32,
    pub(crate) second: u32,
    pub(crate) letter: Letter,
}

/// Of a place where no pair came.
const NO_KEPT_PAIR: KeptPair = KeptPair {
    first: u32::MAX,
    second: u32::MAX,
    letter: UNKNOWN,
};

/// The greatest number of a place.
const LAST_PLACE: usize = 1_023;

/// Places for letters of pairs. There are none before a pair came.
#[derive(Drop)]
pub(crate) struct PairPlaces {
    pub(crate) kept: Vec<KeptPair>,
}

impl PairPlaces {
    /// No places. Takes no memory.
    pub(crate) fn new(alloc: Global) -> PairPlaces
        ensures { (table : TableMap) (pattern : Compiled) → ArePairsKept table pattern result }
    {
        PairPlaces {
            kept: Vec::new(alloc),
        }
    }

    /// The letter of these two characters, if it is kept.
    #[inline(always)]
    pub(crate) fn letter(&self, first: char, second: char) -> Option<Letter>
        ensures right { (table : TableMap) (pattern : Compiled)
            → ArePairsKept table pattern self.now
            → IfSome result (IsLetter table pattern (first ∷ second ∷ [])) }
        ensures none { All IsOfNoPair self.now.kept.items → result ≡ None }
    {
        let kept = self.kept.get(place_of(first, second))?;
        if kept.first != first as u32 || kept.second != second as u32 {
            return None;
        }
        Some(kept.letter)
    }

    /// Keeps the letter of two characters, where there is memory for places.
    pub(crate) fn keep(&mut self, alloc: Global, first: char, second: char, letter: Letter)
        ensures { (table : TableMap) (pattern : Compiled) → ArePairsKept table pattern self.old
            → IsLetter table pattern (first ∷ second ∷ []) letter
            → ArePairsKept table pattern self.new }
    {
        self.make_places(alloc);
        let place = place_of(first, second);
        if place < self.kept.len() {
            self.kept[place] = KeptPair {
                first: first as u32,
                second: second as u32,
                letter,
            };
        }
    }

    /// Makes places where there are none, if there is memory.
    fn make_places(&mut self, alloc: Global)
        ensures { (table : TableMap) (pattern : Compiled) → ArePairsKept table pattern self.old
            → ArePairsKept table pattern self.new }
    {
        if !self.kept.is_empty() {
            return;
        }
        if let Ok(kept) = empty_places(alloc) {
            self.kept = kept;
        }
    }
}

/// Places to which no pair came.
fn empty_places(alloc: Global) -> Result<Vec<KeptPair>, AllocError>
    ensures right { IfOk result (λ kept. (table : TableMap) (pattern : Compiled)
        → ArePairsKept table pattern (record { kept = kept })) }
    ensures none { IfOk result (λ kept. All IsOfNoPair kept.items) }
{
    vec![in alloc; NO_KEPT_PAIR; LAST_PLACE + 1]
}

/// The place of two characters. The vowels and the consonants of Thai have places of their own, and so have most of Lao; a small letter and
/// its capital with one mark have two.
fn place_of(first: char, second: char) -> usize {
    let first = first as usize;
    (first << 6 ^ first >> 4 ^ second as usize) & LAST_PLACE
}
