//! What passes by text, for one table and one pattern: blocks where these pay, else the automaton, or characters one by one.
use crate::ascii::AsciiBlocks;
use crate::automaton::Automaton;
use crate::foreign::pass_foreign;
use crate::pace::{Pace, WORTH_BLOCKS};
use crate::passed::Passed;
use crate::two_byte_blocks::pass_two_bytes;
use crate::two_byte_sets::{TwoByteClasses, sets_for};
use collation_letters::Letters;
use collation_pattern::Pattern;
use collation_table::Weights;
use std::alloc::Global;

/// The automaton of a pattern, its classes of ASCII, and its sets of bytes of characters of one and of two bytes, once these were
/// chosen by a text that came.
#[derive(Drop)]
pub struct Skip {
    pub(crate) automaton: Automaton,
    pub(crate) blocks: AsciiBlocks,
    pub(crate) sets: Option<TwoByteClasses>,
    pub pace: Pace,
}

impl Skip {
    ghost use Rattle.std.specs.Prelude.{IfSome};
    ghost use Rattle.collation_table.specs.Table.{TableMap};
    ghost use Rattle.collation_pattern.specs.Compiled.{Compiled};
    ghost use Rattle.collation_letters.specs.Store.{AreLetters};
    ghost use Rattle.collation_skip.specs.Passed.{PassesTo};
    ghost use Rattle.collation_skip.specs.Skips.{IsSkipRight};

    /// Nothing is known yet, and the first `due` bytes are walked over. Takes no memory.
    pub fn new(alloc: Global, due: usize) -> Skip
        ensures { (table : TableMap) (pattern : Compiled) → IsSkipRight table pattern result }
    {
        Skip {
            automaton: Automaton::new(alloc),
            blocks: AsciiBlocks::new(),
            sets: None,
            pace: Pace::new(due),
        }
    }

    /// What of a piece may be passed by where no key waits, up to a character that begins not after `reach`, in bytes; `None` where
    /// that is nothing. The first character has to be known to begin with a starter. Where memory is refused less may be passed by.
    pub fn pass<W: Weights>(
        &mut self,
        table: &W,
        pattern: &Pattern,
        letters: &mut Letters,
        piece: &[u8],
        reach: usize,
    ) -> Option<Passed>
        requires right { IsSkipRight (W.table table.now) pattern.now self.old }
        requires letters { AreLetters (W.table table.now) pattern.now letters.old }
        ensures passes { IfSome result
            (PassesTo (W.table table.now) pattern.now piece.now reach) }
        ensures right { IsSkipRight (W.table table.now) pattern.now self.new }
        ensures letters { AreLetters (W.table table.now) pattern.now letters.new }
    {
        let mut looked = 0;
        let passed = self.pass_by_a_way(table, pattern, letters, piece, reach, &mut looked);
        self.pace.after(&passed, looked);
        passed
    }

    /// The ways, in their order: sets where they are expected, blocks; where the automaton rests, one character after the other; else sets, if
    /// they were not asked, and the automaton. `looked` is at least how many bytes were looked over in vain in blocks.
    #[inline(always)]
    fn pass_by_a_way<W: Weights>(
        &mut self,
        table: &W,
        pattern: &Pattern,
        letters: &mut Letters,
        piece: &[u8],
        reach: usize,
        looked: &mut usize,
    ) -> Option<Passed>
        requires right { IsSkipRight (W.table table.now) pattern.now self.old }
        requires letters { AreLetters (W.table table.now) pattern.now letters.old }
        ensures passes { IfSome result
            (PassesTo (W.table table.now) pattern.now piece.now reach) }
        ensures right { IsSkipRight (W.table table.now) pattern.now self.new }
        ensures letters { AreLetters (W.table table.now) pattern.now letters.new }
    {
        let by_sets = self.pass_by_sets(table, pattern, letters, piece, reach, true, looked);
        if by_sets.is_some() {
            return by_sets;
        }
        let pace = &mut self.pace;
        let by_blocks = self
            .blocks
            .pass(table, pattern, letters, pace, piece, reach, looked);
        let in_blocks = len_of(&by_blocks);
        if by_blocks.is_some() {
            if self.pace.after_blocks(in_blocks) || self.pace.rests() {
                return by_blocks;
            }
        } else if self.pace.rests() {
            let reach = reach.min(self.pace.most_foreign());
            return pass_foreign(table, pattern, letters, piece, reach);
        }
        let by_sets = self.pass_by_sets(table, pattern, letters, piece, reach, false, looked);
        if by_sets.is_some() {
            return by_sets;
        }
        let by_moves = self.pass_by_moves(table, pattern, letters, piece, reach, in_blocks);
        if len_of(&by_moves) > in_blocks {
            return by_moves;
        }
        by_blocks
    }

    /// Passes by text of characters of one and of two bytes in blocks, asked before blocks of ASCII (`first`) or after them. `None` where
    /// no sets are chosen, where it is not their turn, or where that is not worth while. Where such texts are short, there are no sets
    /// from then on, until some are chosen again.
    #[inline(always)]
    fn pass_by_sets<W: Weights>(
        &mut self,
        table: &W,
        pattern: &Pattern,
        letters: &mut Letters,
        piece: &[u8],
        reach: usize,
        first: bool,
        looked: &mut usize,
    ) -> Option<Passed>
        requires right { IsSkipRight (W.table table.now) pattern.now self.old }
        requires letters { AreLetters (W.table table.now) pattern.now letters.old }
        ensures passes { IfSome result
            (PassesTo (W.table table.now) pattern.now piece.now reach) }
        ensures right { IsSkipRight (W.table table.now) pattern.now self.new }
        ensures letters { AreLetters (W.table table.now) pattern.now letters.new }
    {
        if self.pace.are_sets_first != first {
            return None;
        }
        let Some(sets) = &self.sets else {
            return None;
        };
        let passed = pass_two_bytes(table, pattern, letters, sets, piece, reach, looked);
        if !self.pace.after_sets(len_of(&passed)) {
            self.sets = None;
        }
        let passed = passed?;
        if passed.end < WORTH_BLOCKS {
            return None;
        }
        self.pace.after_text(&piece[..passed.end]);
        Some(passed)
    }

    /// Passes by text by the automaton, beside blocks, which passed by `in_blocks` bytes. Chooses sets by the piece where there are none and
    /// these are due.
    fn pass_by_moves<W: Weights>(
        &mut self,
        table: &W,
        pattern: &Pattern,
        letters: &mut Letters,
        piece: &[u8],
        reach: usize,
        in_blocks: usize,
    ) -> Option<Passed>
        requires right { IsSkipRight (W.table table.now) pattern.now self.old }
        requires letters { AreLetters (W.table table.now) pattern.now letters.old }
        ensures passes { IfSome result
            (PassesTo (W.table table.now) pattern.now piece.now reach) }
        ensures right { IsSkipRight (W.table table.now) pattern.now self.new }
        ensures letters { AreLetters (W.table table.now) pattern.now letters.new }
    {
        let reach = reach.min(self.pace.most_moves());
        let is_calm = self.pace.is_calm;
        let by_moves = self
            .automaton
            .pass(table, pattern, letters, piece, reach, is_calm);
        let passed = len_of(&by_moves);
        self.pace
            .after_moves(piece.len().min(reach), passed, in_blocks);
        let has_sets = self.sets.is_some();
        if self.pace.are_sets_due(has_sets, passed, piece.len()) {
            self.sets = sets_for(table, pattern, letters, piece);
            self.pace.after_sets_choice(self.sets.is_some());
        }
        by_moves
    }
}

/// How many bytes were passed by.
fn len_of(passed: &Option<Passed>) -> usize {
    passed.map_or(0, |passed| passed.end)
}
