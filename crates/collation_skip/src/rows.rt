//! The rows of the automaton's states: how they are found, made and filled.
ghost use Rattle.std.specs.Prelude.{◌≡◌, ◌<◌, ℕ, slice_get, Some, true, IfSome};
ghost use Rattle.collation_table.specs.Table.{TableMap};
ghost use Rattle.collation_pattern.specs.Compiled.{Compiled};
ghost use Rattle.collation_letters.specs.Store.{AreLetters};
ghost use Rattle.collation_skip.specs.declared.state.State.{State as StateValue};
ghost use Rattle.collation_skip.specs.Reached.{IsMove};
ghost use Rattle.collation_skip.specs.Rows.{AreRowsRight, IsRow, parity};

use crate::automaton::Automaton;
use crate::begun::Begun;
use crate::moves::state_after;
use crate::state::State;
use byte_dfa::{FIRST_ROW, ROW, STOP};
use collation_letters::Letters;
use collation_pattern::Pattern;
use collation_table::Weights;

/// How many states there are at most.
const MOST_STATES: usize = 990;

/// How many places there are by which states are found, a power of two.
const STATE_PLACES: usize = 2_048;

/// A place where no number stands.
const NOTHING: u16 = 0xFFFF;

impl Automaton {
    /// The row to which a byte leads from a row, which is written into its cell; `None` where the automaton stops.
    pub(crate) fn learn<W: Weights>(
        &mut self,
        table: &W,
        pattern: &Pattern,
        letters: &mut Letters,
        row: usize,
        byte: u8,
    ) -> Option<usize>
        requires right { AreRowsRight (W.table table.now) pattern.now self.old }
        requires letters { AreLetters (W.table table.now) pattern.now letters.old }
        ensures moves { IfSome result (λ to_row. (from : StateValue) → IsRow self.old row from
            → (to : StateValue) × IsRow self.new to_row to
            × IsMove (W.table table.now) pattern.now from byte to) }
        ensures grows { (other : ℕ) (state : StateValue) → IsRow self.old other state
            → IsRow self.new other state }
        ensures right { AreRowsRight (W.table table.now) pattern.now self.new }
        ensures letters { AreLetters (W.table table.now) pattern.now letters.new }
    {
        let state = self.state_at(row)?;
        if self.cells.cell(row, byte) == STOP {
            return None;
        }
        let to = self.row_behind(table, pattern, letters, &state, byte);
        let cell = match to {
            Some(to) => to as u16,
            None => self.keeping.stop(),
        };
        self.cells.set_cell(row, byte, cell);
        to
    }

    /// The row of the state to which a byte leads.
    fn row_behind<W: Weights>(
        &mut self,
        table: &W,
        pattern: &Pattern,
        letters: &mut Letters,
        state: &State,
        byte: u8,
    ) -> Option<usize>
        requires right { AreRowsRight (W.table table.now) pattern.now self.old }
        requires letters { AreLetters (W.table table.now) pattern.now letters.old }
        ensures moves { IfSome result
            (λ row. (to : StateValue) × IsRow self.new row to
            × IsMove (W.table table.now) pattern.now state.now byte to) }
        ensures below { IfSome result (λ row. row < 65536) }
        ensures grows { (other : ℕ) (state : StateValue) → IsRow self.old other state
            → IsRow self.new other state }
        ensures right { AreRowsRight (W.table table.now) pattern.now self.new }
        ensures letters { AreLetters (W.table table.now) pattern.now letters.new }
    {
        let to = state_after(table, pattern, letters, &mut self.keeping, state, byte)?;
        self.row_of(&to)
    }

    /// The row of a state, which is made where there is none; `None` where there is no room or no memory.
    pub(crate) fn row_of(&mut self, state: &State) -> Option<usize>
        ensures row { IfSome result (λ row. IsRow self.new row state.now) }
        ensures below { IfSome result (λ row. row < 65536) }
        ensures grows { (other : ℕ) (state : StateValue) → IsRow self.old other state
            → IsRow self.new other state }
        ensures right { (table : TableMap) (pattern : Compiled) → AreRowsRight table pattern self.old
            → AreRowsRight table pattern self.new }
    {
        let number = self.number_of(state)?;
        if number >= MOST_STATES {
            return None;
        }
        Some(FIRST_ROW + ROW * number + parity(state))
    }

    /// The state whose row it is, if it is one.
    pub(crate) fn state_at(&self, row: usize) -> Option<State>
        ensures { IfSome result (IsRow self.now row) }
    {
        let number = row.checked_sub(FIRST_ROW)? / ROW;
        let state = self.states.get(number)?;
        if row == FIRST_ROW + ROW * number + parity(state) {
            Some(*state)
        } else {
            None
        }
    }

    /// The number of a state, which is made where there is none.
    fn number_of(&mut self, state: &State) -> Option<usize>
        ensures number { IfSome result
            (λ number. slice_get self.new.states.items number ≡ Some state.now) }
        ensures grows { (other : ℕ) (state : StateValue) → IsRow self.old other state
            → IsRow self.new other state }
        ensures right { (table : TableMap) (pattern : Compiled) → AreRowsRight table pattern self.old
            → AreRowsRight table pattern self.new }
    {
        self.make_places();
        let (place, number) = self.find(state)?;
        if let Some(number) = number {
            return Some(number);
        }
        let number = self.add(state)?;
        self.note(place, number);
        Some(number)
    }

    /// The first place, from that of its hash on, that has a state's number, and this, or where no number stands.
    fn find(&self, state: &State) -> Option<(usize, Option<usize>)>
        ensures { IfSome result
            (λ it. IfSome it.1
            (λ number. slice_get self.now.states.items number ≡ Some state.now)) }
    {
        let first = hash(state);
        for probe in 0..STATE_PLACES {
            let place = first.wrapping_add(probe) % STATE_PLACES;
            let number = *self.places.get(place)?;
            if number == NOTHING {
                return Some((place, None));
            }
            if self.is_number_of(number as usize, state) {
                return Some((place, Some(number as usize)));
            }
        }
        None
    }

    /// Writes a number at a place.
    fn note(&mut self, place: usize, number: usize)
        ensures cells { self.new.cells ≡ self.old.cells }
        ensures states { self.new.states ≡ self.old.states }
        ensures grows { (other : ℕ) (state : StateValue) → IsRow self.old other state
            → IsRow self.new other state }
        ensures right { (table : TableMap) (pattern : Compiled) → AreRowsRight table pattern self.old
            → AreRowsRight table pattern self.new }
    {
        if place < self.places.len() && number < MOST_STATES {
            self.places[place] = number as u16;
        }
    }

    /// Whether a number is that of a state.
    fn is_number_of(&self, number: usize, state: &State) -> bool
        ensures { result ≡ true → slice_get self.now.states.items number ≡ Some state.now }
    {
        match self.states.get(number) {
            Some(other) => other == state,
            None => false,
        }
    }

    /// Makes the places, if there is memory.
    fn make_places(&mut self)
        ensures cells { self.new.cells ≡ self.old.cells }
        ensures states { self.new.states ≡ self.old.states }
        ensures grows { (other : ℕ) (state : StateValue) → IsRow self.old other state
            → IsRow self.new other state }
        ensures right { (table : TableMap) (pattern : Compiled) → AreRowsRight table pattern self.old
            → AreRowsRight table pattern self.new }
    {
        if !self.places.is_empty() {
            return;
        }
        if let Ok(places) = vec![in self.alloc; NOTHING; STATE_PLACES] {
            self.places = places;
        }
    }

    /// Adds a state with a row of unknown moves; `None` where there is no room or no memory.
    fn add(&mut self, state: &State) -> Option<usize>
        ensures number { IfSome result
            (λ number. slice_get self.new.states.items number ≡ Some state.now) }
        ensures grows { (other : ℕ) (state : StateValue) → IsRow self.old other state
            → IsRow self.new other state }
        ensures right { (table : TableMap) (pattern : Compiled) → AreRowsRight table pattern self.old
            → AreRowsRight table pattern self.new }
    {
        let number = self.states.len();
        if number >= MOST_STATES || self.states.reserve(1).is_err() {
            return None;
        }
        if self.cells.add_row().is_err() {
            return None;
        }
        self.states.push_reserved(*state);
        Some(number)
    }
}

/// 1 where the text may be passed by up to the last character, else 0.
fn parity(state: &State) -> usize
    ensures { result ≡ parity state.now }
{
    if state.before > 0 { 1 } else { 0 }
}

/// A number that is the same for equal states, and mostly differs for others.
fn hash(state: &State) -> usize {
    let letter = &state.letter;
    let symbols = letter.symbols;
    let (first, second, third) = match state.begun {
        Begun::Whole => (0, 0, 0),
        Begun::One(first) => (first, 0, 0),
        Begun::Two(first, second) => (first, second, 0),
        Begun::Three(first, second, third) => (first, second, third),
    };
    let mut hash = state.depth as u64 ^ hash_of_marks(state);
    for part in [
        state.character as u32 as u64,
        state.len as u64,
        state.before as u64,
        letter.points as u64,
        letter.class as u64,
        symbols.first as u64,
        symbols.second as u64,
        symbols.third as u64,
        first as u64,
        second as u64,
        third as u64,
    ] {
        hash = (hash ^ part)
            .wrapping_mul(0x9E37_79B9_7F4A_7C15)
            .rotate_left(29);
    }
    hash as usize
}

/// A number that is the same for equal marks of states.
fn hash_of_marks(state: &State) -> u64 {
    match &state.marks {
        None => 0,
        Some(marks) => {
            let classes = (marks.base.class as u64) << 16
                | (marks.before.class as u64) << 8
                | marks.last.class as u64;
            let symbols = (marks.base.symbols.third as u64) << 16
                | (marks.before.symbols.third as u64) << 8
                | marks.last.symbols.third as u64;
            (classes << 24 | symbols).wrapping_mul(0x9E37_79B9_7F4A_7C15)
        }
    }
}
