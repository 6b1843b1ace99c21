//! The letters that were found: a cache. It begins with one place, so that a new one costs little, and grows where letters are found.
ghost use Rattle.std.specs.Prelude.{◌≡◌, ◌≤◌, [], false};
ghost use Rattle.nfd_points.specs.declared.limits.TheConstants.{MOST_DECOMPOSITION};

use crate::finding::find_letter;
use crate::letter::Letter;
use crate::pair_places::PairPlaces;
use crate::pairs::find_letter_of_pair;
use crate::places::Places;
use crate::symbols::Lengths;
use collation_elements::Window;
use collation_pattern::Pattern;
use collation_table::Weights;
use std::alloc::{AllocError, Global};

/// The greatest number of a place, at first, where a letter was found, where some were, as in text of an alphabet, where more were, and where
/// many were.
const LAST_OF_NONE: usize = 0;

const LAST_OF_FEW: usize = 255;

const LAST_OF_SOME: usize = 1_023;

const LAST_OF_MORE: usize = 4_095;

const LAST_OF_MANY: usize = 65_535;

/// How often 256 places are asked for as long as there is one place: at one of so many letters that are found, without end.
const OFTEN: usize = 32;

/// How many letters are found before there are more places.
const SOME: usize = 192;

/// How many letters are found before there are more again.
const MORE: usize = 384;

/// How many letters are found before there are the most places.
const MANY: usize = 4_096;

/// The letters of characters, for one table and one pattern.
#[derive(Drop)]
pub struct Letters {
    places: Places,
    /// The letters of two characters together.
    pairs: PairPlaces,
    /// How many letters were found, up to `MANY`; from there on anew where there is one place.
    found: usize,
    /// Of which lengths the patterns are whose keys have symbols.
    lengths: Lengths,
    /// Room for the points of a character.
    window: Window,
    alloc: Global,
    ghost empty: { window.points ≡ [] },
    ghost open: { window.has_ended ≡ false },
    ghost room: { MOST_DECOMPOSITION ≤ window.capacity },
    ghost few: { found ≤ 4096 },
}

impl Letters {
    ghost use Rattle.std.specs.Prelude.{◌≡◌, ◌+◌, ◌%◌, ◌∷◌, [], IfOk, IfSome};
    ghost use Rattle.collation_table.specs.Table.{TableMap};
    ghost use Rattle.collation_pattern.specs.Compiled.{Compiled};
    ghost use Rattle.collation_letters.specs.Letters.{IsLetter};
    ghost use Rattle.collation_letters.specs.Store.{AreLetters};
    ghost use Rattle.collation_letters.specs.declared.store.TheConstants.{MANY};

    /// None is known yet.
    ///
    /// # Errors
    ///
    /// Where memory was refused. That it is for no other reason no clause says.
    pub fn new<W: Weights>(alloc: Global, table: &W) -> Result<Letters, AllocError>
        ensures { IfOk result (λ letters. (table : TableMap) (pattern : Compiled)
            → AreLetters table pattern letters) }
    {
        Letters::with_lengths(alloc, table, Lengths::Short)
    }

    /// None is known yet. Letters are found for patterns of any length: those of [`Letters::new`] are left to the steps where the
    /// pattern has more than 1,024 keys.
    ///
    /// # Errors
    ///
    /// Where memory was refused. That it is for no other reason no clause says.
    pub fn for_long_patterns<W: Weights>(alloc: Global, table: &W) -> Result<Letters, AllocError>
        ensures { IfOk result (λ letters. (table : TableMap) (pattern : Compiled)
            → AreLetters table pattern letters) }
    {
        Letters::with_lengths(alloc, table, Lengths::Any)
    }

    /// None is known yet, where patterns of these lengths have symbols.
    fn with_lengths<W: Weights>(
        alloc: Global,
        table: &W,
        lengths: Lengths,
    ) -> Result<Letters, AllocError>
        ensures { IfOk result (λ letters. (table : TableMap) (pattern : Compiled)
            → AreLetters table pattern letters) }
    {
        Ok(Letters {
            places: Places::new(alloc, LAST_OF_NONE)?,
            pairs: PairPlaces::new(alloc),
            found: 0,
            lengths,
            window: Window::with_capacity(alloc, table.longest_key())?,
            alloc,
        })
    }

    /// The letter of a character, if it is known.
    #[inline(always)]
    pub fn known(&self, c: char) -> Option<Letter>
        ensures { (table : TableMap) (pattern : Compiled) → AreLetters table pattern self.now
            → IfSome result (λ letter. IsLetter table pattern (c ∷ []) letter) }
    {
        let kept = self.places.at(c);
        if kept.code_point == c as u32 {
            return Some(kept.letter);
        }
        None
    }

    /// The letter of a character. It is found where it is not known. Where memory is refused the answer is the same.
    #[inline(always)]
    pub fn letter<W: Weights>(&mut self, table: &W, pattern: &Pattern, c: char) -> Letter
        requires { AreLetters (W.table table.now) pattern.now self.old }
        ensures right { AreLetters (W.table table.now) pattern.now self.new }
        ensures letter { IsLetter (W.table table.now) pattern.now (c ∷ []) result }
    {
        match self.known(c) {
            Some(letter) => letter,
            None => self.find(table, pattern, c),
        }
    }

    /// Finds a letter, and keeps it.
    #[inline(never)]
    fn find<W: Weights>(&mut self, table: &W, pattern: &Pattern, c: char) -> Letter
        requires { AreLetters (W.table table.now) pattern.now self.old }
        ensures right { AreLetters (W.table table.now) pattern.now self.new }
        ensures letter { IsLetter (W.table table.now) pattern.now (c ∷ []) result }
    {
        self.count();
        let letter = find_letter(table, pattern, self.lengths, &mut self.window, c);
        self.places.keep(c, letter);
        letter
    }

    /// The letter of two characters together. It is found where it is not known. Where memory is refused the answer is the same.
    #[inline(always)]
    pub fn pair<W: Weights>(
        &mut self,
        table: &W,
        pattern: &Pattern,
        first: char,
        second: char,
    ) -> Letter
        requires { AreLetters (W.table table.now) pattern.now self.old }
        ensures right { AreLetters (W.table table.now) pattern.now self.new }
        ensures letter { IsLetter (W.table table.now) pattern.now (first ∷ second ∷ []) result }
    {
        match self.pairs.letter(first, second) {
            Some(letter) => letter,
            None => self.find_pair(table, pattern, first, second),
        }
    }

    /// Finds the letter of two characters together, and keeps it.
    #[inline(never)]
    fn find_pair<W: Weights>(
        &mut self,
        table: &W,
        pattern: &Pattern,
        first: char,
        second: char,
    ) -> Letter
        requires { AreLetters (W.table table.now) pattern.now self.old }
        ensures right { AreLetters (W.table table.now) pattern.now self.new }
        ensures letter { IsLetter (W.table table.now) pattern.now (first ∷ second ∷ []) result }
    {
        let letter = find_letter_of_pair(
            self.alloc,
            table,
            pattern,
            self.lengths,
            &mut self.window,
            first,
            second,
        );
        self.pairs.keep(self.alloc, first, second, letter);
        letter
    }

    /// Counts a letter that is found. Where there is one place, or these are many, it goes on with more places, if there is memory.
    fn count(&mut self)
        ensures right { (table : TableMap) (pattern : Compiled) → AreLetters table pattern self.old
            → AreLetters table pattern self.new }
        ensures goes_on { self.old.places.last ≡ 0
            → self.new.found ≡ self.old.found % MANY + 1 }
    {
        if self.found == MANY && !self.places.are_one() {
            return;
        }
        // where there is still one place, it counts anew
        self.found = self.found % MANY + 1;
        let last = match self.found {
            SOME => LAST_OF_SOME,
            MORE => LAST_OF_MORE,
            MANY => LAST_OF_MANY,
            found => {
                if found % OFTEN != 1 || !self.places.are_one() {
                    return;
                }
                LAST_OF_FEW
            }
        };
        if let Ok(mut places) = Places::new(self.alloc, last) {
            places.keep_all(&self.places);
            self.places = places;
        }
    }
}
