//! A set of code points.
ghost use Rattle.std.specs.Prelude.{◌≡◌, ℕ, ◌/◌, ◌<◌, false, ◌==◌, ◌||◌, get_or, length, OnOk};
ghost use Rattle.collation_table.specs.Unsafe.{has_point};

use std::alloc::{AllocError, Global};

/// How many code points a word has bits for.
const WORD_POINTS: u32 = 64;

/// A set of code points, with a bit for each up to the greatest one.
#[derive(Drop)]
pub(crate) struct PointSet {
    words: Vec<u64>,
}

impl PointSet {
    /// Without code points. Takes no memory.
    pub fn new(alloc: Global) -> PointSet
        ensures { (cp : ℕ) → has_point result cp ≡ false }
    {
        PointSet {
            words: Vec::new(alloc),
        }
    }

    /// Whether it has a code point.
    #[inline(always)]
    pub fn contains(&self, cp: u32) -> bool
        ensures { result ≡ has_point self.now cp }
    {
        match self.words.get((cp / WORD_POINTS) as usize) {
            Some(word) => *word >> (cp % WORD_POINTS) & 1 == 1,
            None => false,
        }
    }

    /// Makes room for a code point.
    fn make_room(&mut self, cp: u32) -> Result<(), AllocError>
        ensures same { OnOk result ((number : ℕ)
            → get_or self.new.words.items number 0 ≡ get_or self.old.words.items number 0) }
        ensures room { OnOk result (cp / 64 < length self.new.words.items) }
    {
        let number = (cp / WORD_POINTS) as usize;
        if number >= self.words.len() {
            self.words.resize(number + 1, 0)?;
        }
        Ok(())
    }

    /// Puts in a code point.
    pub fn insert(&mut self, cp: u32) -> Result<(), AllocError>
        ensures { OnOk result
            ((q : ℕ) → has_point self.new q ≡ (has_point self.old q || (q == cp))) }
    {
        self.make_room(cp)?;
        self.words[(cp / WORD_POINTS) as usize] |= 1 << (cp % WORD_POINTS);
        Ok(())
    }
}
