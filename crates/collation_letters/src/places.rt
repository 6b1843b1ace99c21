//! Places for the letters that were found. Characters share places; each place has the letter of the last one that came there.
ghost use Rattle.std.specs.Prelude.{◌<◌, length};

use crate::letter::{Letter, UNKNOWN};
use std::alloc::{AllocError, Global};

/// The letter of a character.
#[derive(Clone, Copy)]
pub(crate) struct Kept {
    pub(crate) code_point: u32,
    pub(crate) letter: Letter,
}

/// Of a place where no character came: nothing is known of a number that is no code point.
const EMPTY: Kept = Kept {
    code_point: u32::MAX,
    letter: UNKNOWN,
};

/// Places for letters.
#[derive(Drop)]
pub(crate) struct Places {
    pub(crate) kept: Vec<Kept>,
    /// The greatest number of a place, one less than a power of two.
    last: usize,
    ghost within: { last < length kept.items },
}

impl Places {
    ghost use Rattle.std.specs.Prelude.{◌≡◌, ◌↔◌, ◌<◌, ◌∷◌, [], IfOk, IsTrue};
    ghost use Rattle.collation_table.specs.Table.{TableMap};
    ghost use Rattle.collation_pattern.specs.Compiled.{Compiled};
    ghost use Rattle.collation_letters.specs.Letters.{IsLetter};
    ghost use Rattle.collation_letters.specs.Store.{AreKept, IsKept};

    /// Places with the numbers up to `last`, to which no character came.
    pub(crate) fn new(alloc: Global, last: usize) -> Result<Places, AllocError>
        requires { last < 65536 }
        ensures { IfOk result (λ places. (table : TableMap) (pattern : Compiled)
            → AreKept table pattern places) }
    {
        Ok(Places {
            kept: vec![in alloc; EMPTY; last + 1]?,
            last,
        })
    }

    /// Whether there is one place for all characters.
    pub(crate) fn are_one(&self) -> bool
        ensures { IsTrue result ↔ (self.now.last ≡ 0) }
    {
        self.last == 0
    }

    /// What is kept at the place of a character.
    #[inline(always)]
    pub(crate) fn at(&self, c: char) -> Kept
        ensures { (table : TableMap) (pattern : Compiled) → AreKept table pattern self.now
            → IsKept table pattern result }
    {
        self.kept[c as usize & self.last]
    }

    /// Keeps a letter at the place of its character.
    pub(crate) fn keep(&mut self, c: char, letter: Letter)
        ensures { (table : TableMap) (pattern : Compiled) → AreKept table pattern self.old
            → IsLetter table pattern (c ∷ []) letter → AreKept table pattern self.new }
    {
        self.kept[c as usize & self.last] = Kept {
            code_point: c as u32,
            letter,
        };
    }

    /// Keeps a letter that other places keep, if a character came there.
    fn keep_too(&mut self, kept: Kept)
        ensures { (table : TableMap) (pattern : Compiled) → AreKept table pattern self.old
            → IsKept table pattern kept → AreKept table pattern self.new }
    {
        if let Some(c) = char::from_u32(kept.code_point) {
            self.keep(c, kept.letter);
        }
    }

    /// Keeps the letters that other places keep.
    pub(crate) fn keep_all(&mut self, others: &Places)
        ensures { (table : TableMap) (pattern : Compiled) → AreKept table pattern self.old
            → AreKept table pattern others.now → AreKept table pattern self.new }
    {
        for kept in &others.kept {
            self.keep_too(*kept);
        }
    }
}
