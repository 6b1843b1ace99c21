//! The ways to pass by text that `collation_skip` has, for one table and one pattern. What their calls need of one another is kept by the
//! type: so no function that tries them says it.

ghost use Rattle.std.proofs.Props.{props};
ghost use Rattle.collation_letters.specs.Store.{AreLetters};
ghost use Rattle.collation_skip.specs.Blocks.{AreBlocksRight};
ghost use Rattle.collation_skip.specs.Rows.{AreRowsRight};
ghost use Rattle.collation_skip.specs.Skips.{IsSkipRight};

use collation_letters::{Letter, Letters};
use collation_pattern::Pattern;
use collation_skip::{AsciiBlocks, Automaton, Pace, Passed, Skip};
use collation_table::Table;
use std::alloc::{AllocError, Global};
use std::process::Abort;

/// Where the last character that is passed by begins and ends, and the one that follows.
pub(crate) type Place = (usize, usize, char);

/// The place where a way stops.
fn place_of(passed: Option<Passed>) -> Option<Place> {
    let it = passed?;
    Some((it.start, it.end, it.next))
}

/// The letters of a pattern, an automaton and another one, blocks of ASCII, and all ways together.
#[derive(Drop)]
pub(crate) struct Ways<'a> {
    table: &'a Table,
    pattern: &'a Pattern,
    letters: Letters,
    automaton: Automaton,
    other: Automaton,
    blocks: AsciiBlocks,
    pace: Pace,
    skip: Skip,
    ghost letters_right: { AreLetters table.now.rows pattern.now letters } by { Prim.hlevel props },
    ghost automaton_right: { AreRowsRight table.now.rows pattern.now automaton } by { Prim.hlevel props },
    ghost other_right: { AreRowsRight table.now.rows pattern.now other } by { Prim.hlevel props },
    ghost blocks_right: { AreBlocksRight table.now.rows pattern.now blocks } by { Prim.hlevel props },
    ghost skip_right: { IsSkipRight table.now.rows pattern.now skip } by { Prim.hlevel props },
}

impl<'a> Ways<'a> {
    /// Nothing is known yet.
    fn try_new(alloc: Global, table: &'a Table, pattern: &'a Pattern) -> Result<Self, AllocError> {
        let letters = Letters::new(alloc, table)?;
        let automaton = Automaton::new(alloc);
        let other = Automaton::new(alloc);
        let blocks = AsciiBlocks::new();
        let pace = Pace::new(0);
        let skip = Skip::new(alloc, 0);
        Ok(Ways {
            table,
            pattern,
            letters,
            automaton,
            other,
            blocks,
            pace,
            skip,
        })
    }

    /// The letter of a character, which is known from then on.
    pub(crate) fn letter(&mut self, c: char) -> Letter {
        self.letters.letter(self.table, self.pattern, c)
    }

    /// Where the automaton leaves a piece, by four runs or by windows.
    pub(crate) fn run(&mut self, piece: &[u8], reach: usize, is_calm: bool) -> Option<Place> {
        let letters = &mut self.letters;
        place_of(
            self.automaton
                .pass(self.table, self.pattern, letters, piece, reach, is_calm),
        )
    }

    /// Where the other automaton does.
    pub(crate) fn run_other(&mut self, piece: &[u8], reach: usize, is_calm: bool) -> Option<Place> {
        let letters = &mut self.letters;
        place_of(
            self.other
                .pass(self.table, self.pattern, letters, piece, reach, is_calm),
        )
    }

    /// Where blocks of ASCII do.
    pub(crate) fn pass_blocks(&mut self, piece: &[u8], reach: usize) -> Option<Place> {
        let mut looked = 0;
        place_of(
            self.blocks.pass(
                self.table,
                self.pattern,
                &mut self.letters,
                &mut self.pace,
                piece,
                reach,
                &mut looked,
            ),
        )
    }

    /// Where all ways together do.
    pub(crate) fn pass(&mut self, piece: &[u8], reach: usize) -> Option<Place> {
        let letters = &mut self.letters;
        place_of(
            self.skip
                .pass(self.table, self.pattern, letters, piece, reach),
        )
    }
}

/// The ways of a pattern.
pub(crate) fn ways_of<'a>(
    rt: &impl Abort,
    alloc: Global,
    table: &'a Table,
    pattern: &'a Pattern,
) -> Ways<'a> {
    Ways::try_new(alloc, table, pattern).expect(rt, "memory")
}
