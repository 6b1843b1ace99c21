//! The automaton over bytes: its states, whose rows of moves it fills when they are first met, and the way over a piece.
//!
//! A state has a row of cells (`byte_dfa`). It accepts where the text may be passed by up to the last character.

use crate::moves::{Keeping, MOVES_AHEAD};
use crate::passed::Passed;
use crate::state::State;
use byte_dfa::{Cells, Cursor, Guesses, come_to};
use collation_letters::Letters;
use collation_pattern::Pattern;
use collation_table::Weights;
use nfd_points::laws::laws_of_points;
use std::alloc::Global;
use utf8_cut::first_character;

/// An automaton of a pattern's letters.
#[derive(Drop)]
pub struct Automaton {
    pub(crate) cells: Cells,
    pub(crate) states: Vec<State>,
    /// Numbers of states at the places of their hashes, or after them. A state is compared before its number is used.
    pub(crate) places: Vec<u16>,
    pub(crate) guesses: Guesses,
    pub(crate) keeping: Keeping,
    pub(crate) alloc: Global,
}

impl Automaton {
    ghost use Rattle.std.specs.Prelude.{◌<◌, ◌≤◌, ℕ, List, length, take, IfSome};
    ghost use Rattle.std.specs.Char.{len_utf8};
    ghost use Rattle.byte_dfa.specs.Moves.{IsCursor};
    ghost use Rattle.utf8_cut.specs.Sequences.{SpellsCharacter};
    ghost use Rattle.collation_table.specs.Table.{TableMap};
    ghost use Rattle.collation_pattern.specs.Compiled.{Compiled};
    ghost use Rattle.collation_letters.specs.Store.{AreLetters};
    ghost use Rattle.collation_skip.specs.Passed.{PassesTo};
    ghost use Rattle.collation_skip.specs.declared.state.State.{State as StateValue};
    ghost use Rattle.collation_skip.specs.Rows.{AreRowsRight, IsRow, Stands};

    /// No state is known yet. Takes no memory.
    pub fn new(alloc: Global) -> Automaton
        ensures { (table : TableMap) (pattern : Compiled) → AreRowsRight table pattern result }
    {
        Automaton {
            cells: Cells::new(alloc),
            states: Vec::new(alloc),
            places: Vec::new(alloc),
            guesses: Guesses::new(alloc),
            keeping: Keeping {
                keeps_marks: false,
                misses_marks: false,
                moves_left: MOVES_AHEAD,
            },
            alloc,
        }
    }

    /// Begins anew with states that keep marks apart.
    #[inline(never)]
    fn keep_marks(&mut self)
        ensures { (table : TableMap) (pattern : Compiled) → AreRowsRight table pattern self.new }
    {
        *self = Automaton::new(self.alloc);
        self.keeping.keeps_marks = true;
    }

    /// What of a piece may be passed by, up to a character that begins not after `reach`; `None` where that is nothing. The first
    /// character has to be known to begin with a starter. Where memory is refused less may be passed by.
    pub fn pass<W: Weights>(
        &mut self,
        table: &W,
        pattern: &Pattern,
        letters: &mut Letters,
        piece: &[u8],
        reach: usize,
        is_calm: bool,
    ) -> Option<Passed>
        requires right { AreRowsRight (W.table table.now) pattern.now self.old }
        requires letters { AreLetters (W.table table.now) pattern.now letters.old }
        ensures passes { IfSome result
            (PassesTo (W.table table.now) pattern.now piece.now reach) }
        ensures right { AreRowsRight (W.table table.now) pattern.now self.new }
        ensures letters { AreLetters (W.table table.now) pattern.now letters.new }
    {
        if self.keeping.misses_marks {
            self.keep_marks();
        }
        let within = &piece[..piece.len().min(reach)];
        let cursor = self.go(table, pattern, letters, within, is_calm)?;
        self.keeping.pay(cursor.at);
        self.answer(table, pattern, letters, piece, cursor)
    }

    /// What may be passed by, as the cursor says where that ends.
    fn answer<W: Weights>(
        &self,
        table: &W,
        pattern: &Pattern,
        letters: &mut Letters,
        piece: &[u8],
        cursor: Cursor,
    ) -> Option<Passed>
        requires passed { 0 < cursor.accepted_at
            → (cursor.accepted_at ≤ length piece.now)
            × Stands (W.table table.now) pattern.now self.now piece.now
            cursor.accepted_at cursor.accepted_row }
        requires letters { AreLetters (W.table table.now) pattern.now letters.old }
        ensures passes { IfSome result
            (PassesTo (W.table table.now) pattern.now piece.now cursor.accepted_at) }
        ensures letters { AreLetters (W.table table.now) pattern.now letters.new }
    {
        laws_of_points();
        if cursor.accepted_at == 0 {
            return None;
        }
        let state = self.state_at(cursor.accepted_row)?;
        if state.before == 0 {
            return None;
        }
        let end = cursor.accepted_at.checked_sub(state.len as usize)?;
        let start = end.checked_sub(state.before as usize)?;
        let next = first_character(&piece[end..])?;
        let letter = letters.letter(table, pattern, next);
        Some(Passed {
            start,
            end,
            next,
            letter,
        })
    }

    /// Goes over a piece as far as the moves lead, by four runs where it is calm: few stops are expected.
    #[inline(never)]
    fn go<W: Weights>(
        &mut self,
        table: &W,
        pattern: &Pattern,
        letters: &mut Letters,
        piece: &[u8],
        is_calm: bool,
    ) -> Option<Cursor>
        requires right { AreRowsRight (W.table table.now) pattern.now self.old }
        requires letters { AreLetters (W.table table.now) pattern.now letters.old }
        ensures passed { IfSome result (λ it. 0 < it.accepted_at
            → (it.accepted_at ≤ length piece.now)
            × Stands (W.table table.now) pattern.now self.new piece.now
            it.accepted_at it.accepted_row) }
        ensures right { AreRowsRight (W.table table.now) pattern.now self.new }
        ensures letters { AreLetters (W.table table.now) pattern.now letters.new }
    {
        self.guesses.make(self.alloc, piece.len());
        let mut cursor = self.begin(table, pattern, letters, piece, is_calm)?;
        'moves: loop {
            cursor = self.cells.run_to_end(piece, &mut self.guesses, cursor);
            if cursor.at >= piece.len() {
                return Some(cursor);
            }
            let Some(row) = self.learn(table, pattern, letters, cursor.row, piece[cursor.at]) else {
                return Some(cursor);
            };
            cursor = come_to(cursor, cursor.at + 1, row);
        }
    }

    /// Behind the first character of a piece, or as far as four runs lead from there.
    fn begin<W: Weights>(
        &mut self,
        table: &W,
        pattern: &Pattern,
        letters: &mut Letters,
        piece: &[u8],
        is_calm: bool,
    ) -> Option<Cursor>
        requires right { AreRowsRight (W.table table.now) pattern.now self.old }
        requires letters { AreLetters (W.table table.now) pattern.now letters.old }
        ensures cursor { IfSome result (IsCursor self.new.cells piece.now) }
        ensures stands { IfSome result (λ it.
            Stands (W.table table.now) pattern.now self.new piece.now it.at it.row) }
        ensures passed { IfSome result (λ it. 0 < it.accepted_at → (it.accepted_at ≤ length piece.now)
            × Stands (W.table table.now) pattern.now self.new piece.now
            it.accepted_at it.accepted_row) }
        ensures right { AreRowsRight (W.table table.now) pattern.now self.new }
        ensures letters { AreLetters (W.table table.now) pattern.now letters.new }
    {
        let first = first_character(piece)?;
        let home = self.home(table, pattern, letters, is_calm);
        let row = self.first_row(table, pattern, letters, first)?;
        let cursor = Cursor {
            at: first.len_utf8(),
            row,
            accepted_at: 0,
            accepted_row: 0,
        };
        let Some(home) = home else {
            return Some(cursor);
        };
        Some(self.cells.run_by_four(piece, cursor, home))
    }

    /// The row in which four runs begin, where they are wanted: that of a space.
    fn home<W: Weights>(
        &mut self,
        table: &W,
        pattern: &Pattern,
        letters: &mut Letters,
        is_wanted: bool,
    ) -> Option<usize>
        requires right { AreRowsRight (W.table table.now) pattern.now self.old }
        requires letters { AreLetters (W.table table.now) pattern.now letters.old }
        ensures row { IfSome result (λ row. (state : StateValue) × IsRow self.new row state) }
        ensures right { AreRowsRight (W.table table.now) pattern.now self.new }
        ensures letters { AreLetters (W.table table.now) pattern.now letters.new }
    {
        if !is_wanted {
            return None;
        }
        self.first_row(table, pattern, letters, ' ')
    }

    /// The row of the state behind a first character, if it begins with a starter.
    fn first_row<W: Weights>(
        &mut self,
        table: &W,
        pattern: &Pattern,
        letters: &mut Letters,
        first: char,
    ) -> Option<usize>
        requires right { AreRowsRight (W.table table.now) pattern.now self.old }
        requires letters { AreLetters (W.table table.now) pattern.now letters.old }
        ensures stands { IfSome result (λ row. (piece : List ℕ)
            → SpellsCharacter (take (len_utf8 first) piece) first
            → Stands (W.table table.now) pattern.now self.new piece (len_utf8 first) row) }
        ensures row { IfSome result (λ row. (state : StateValue) × IsRow self.new row state) }
        ensures grows { (other : ℕ) (state : StateValue) → IsRow self.old other state
            → IsRow self.new other state }
        ensures right { AreRowsRight (W.table table.now) pattern.now self.new }
        ensures letters { AreLetters (W.table table.now) pattern.now letters.new }
    {
        let letter = letters.letter(table, pattern, first);
        if !letter.is_starter() || pattern.keys().is_empty() {
            return None;
        }
        let keeps_marks = self.keeping.keeps_marks;
        self.row_of(&State::behind(pattern, 0, letter, first, 0, keeps_marks))
    }
}
