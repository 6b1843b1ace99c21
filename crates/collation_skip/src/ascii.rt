//! The blocks of ASCII of a search: a place of the pattern is chosen for them by a long text, or by a short one, once as much came in
//! short ones.
use crate::blocks::pass_blocks;
use crate::classes::{Classes, classes_for};
use crate::pace::Pace;
use crate::passed::Passed;
use collation_letters::Letters;
use collation_pattern::Pattern;
use collation_table::Weights;

/// What passes text of ASCII in blocks, for one table and one pattern. Takes no memory.
#[derive(Clone, Copy, Debug)]
pub struct AsciiBlocks {
    pub(crate) classes: Option<Classes>,
}

impl AsciiBlocks {
    ghost use Rattle.std.specs.Prelude.{IfSome};
    ghost use Rattle.collation_table.specs.Table.{TableMap};
    ghost use Rattle.collation_pattern.specs.Compiled.{Compiled};
    ghost use Rattle.collation_letters.specs.Store.{AreLetters};
    ghost use Rattle.collation_skip.specs.Blocks.{AreBlocksRight};
    ghost use Rattle.collation_skip.specs.Passed.{PassesTo};

    /// No place is chosen yet.
    pub fn new() -> AsciiBlocks
        ensures { (table : TableMap) (pattern : Compiled) → AreBlocksRight table pattern result }
    {
        AsciiBlocks { classes: None }
    }

    /// Passes by text of ASCII at the front of a piece, where no key waits: at most `reach` bytes, and to the end of a character behind
    /// which no key waits. `None` where it finds no such character: `looked` is then at least how many bytes it looked over.
    #[inline(always)]
    pub fn pass<W: Weights>(
        &mut self,
        table: &W,
        pattern: &Pattern,
        letters: &mut Letters,
        pace: &mut Pace,
        piece: &[u8],
        reach: usize,
        looked: &mut usize,
    ) -> Option<Passed>
        requires right { AreLetters (W.table table.now) pattern.now letters.old }
        requires blocks { AreBlocksRight (W.table table.now) pattern.now self.old }
        ensures right { AreLetters (W.table table.now) pattern.now letters.new }
        ensures blocks { AreBlocksRight (W.table table.now) pattern.now self.new }
        ensures passes { IfSome result
            (PassesTo (W.table table.now) pattern.now piece.now reach) }
    {
        if pace.is_wanted(piece) {
            self.choose(table, pattern, letters, pace, piece);
        }
        let Some(classes) = &self.classes else {
            pace.after_short(piece);
            return None;
        };
        pass_blocks(table, pattern, letters, classes, piece, reach, looked)
    }

    /// Chooses a place by a text.
    #[inline(never)]
    fn choose<W: Weights>(
        &mut self,
        table: &W,
        pattern: &Pattern,
        letters: &mut Letters,
        pace: &mut Pace,
        text: &[u8],
    )
        requires right { AreLetters (W.table table.now) pattern.now letters.old }
        requires blocks { AreBlocksRight (W.table table.now) pattern.now self.old }
        ensures right { AreLetters (W.table table.now) pattern.now letters.new }
        ensures blocks { AreBlocksRight (W.table table.now) pattern.now self.new }
    {
        self.classes = classes_for(table, pattern, letters, text, pace.is_alone);
        pace.after_choice(text.len(), self.classes.is_some());
    }
}
