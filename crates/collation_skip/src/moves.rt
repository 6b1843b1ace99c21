//! The moves of the automaton: the state behind one byte more.
ghost use Rattle.std.specs.Prelude.{◌≡◌, ◌≢◌, ◌<◌, ◌∷◌, ◌++◌, ℕ, List, [], length, false, true, IfSome, ◌≤◌};
ghost use Rattle.utf8_cut.specs.Sequences.{SpellsCharacter};
ghost use Rattle.collation_letters.specs.Apart.{IsNext};
ghost use Rattle.collation_letters.specs.Letters.{IsLetter, begins_cluster, flag_after, is_mark};
ghost use Rattle.collation_letters.specs.Store.{AreLetters};
ghost use Rattle.collation_letters.specs.declared.letter.Role.TheVariants.{Steps};
ghost use Rattle.collation_skip.specs.BegunBytes.{begun_bytes};
ghost use Rattle.collation_skip.specs.Reached.{IsHeld, IsMove};

use crate::begun::Decoded;
use crate::depth::depth_after;
use crate::state::State;
use byte_dfa::{STOP, UNKNOWN_CELL};
use collation_letters::{Letter, Letters, is_next, laws_of_characters};
use collation_pattern::Pattern;
use collation_table::Weights;

/// How many of a pattern's first keys the automaton follows at most.
const MOST_DEPTH: usize = 8;

/// How many moves behind characters of Han and Hangul are made before any bytes have paid for them: where so many characters differ, most
/// come once, and don't pay for theirs.
pub(crate) const MOVES_AHEAD: usize = 4_096;

/// How many bytes pay for one of these moves.
const BYTES_OF_A_MOVE: usize = 16;

/// How states keep marks: apart, so that one of a lower class can go before them, only from the first such mark on, for these states are
/// many.
#[derive(Clone, Copy, Debug)]
pub(crate) struct Keeping {
    pub(crate) keeps_marks: bool,
    /// Whether a mark was met that had to go before others, which were not kept.
    pub(crate) misses_marks: bool,
    /// How many moves more may be made behind characters of Han and Hangul.
    pub(crate) moves_left: usize,
}

/// The state behind one byte more; `None` where the automaton stops: the byte makes an ill-formed sequence, a letter is left to the
/// steps, or as many of the pattern's first keys have matched as it follows.
pub(crate) fn state_after<W: Weights>(
    table: &W,
    pattern: &Pattern,
    letters: &mut Letters,
    keeping: &mut Keeping,
    state: &State,
    byte: u8,
) -> Option<State>
    requires right { AreLetters (W.table table.now) pattern.now letters.old }
    ensures right { AreLetters (W.table table.now) pattern.now letters.new }
    ensures moves { IfSome result (IsMove (W.table table.now) pattern.now state.now byte) }
{
    match state.begun.with(byte) {
        Decoded::IllFormed => None,
        Decoded::More(begun) => Some(state.with_begun(begun)),
        Decoded::Character(c) => {
            if !keeping.may_move(c) {
                return None;
            }
            let following = letters.letter(table, pattern, c);
            behind_character(table, pattern, letters, keeping, state, c, following)
        }
    }
}

/// The state behind a character more, which has this letter.
fn behind_character<W: Weights>(
    table: &W,
    pattern: &Pattern,
    letters: &mut Letters,
    keeping: &mut Keeping,
    state: &State,
    c: char,
    following: Letter,
) -> Option<State>
    requires right { AreLetters (W.table table.now) pattern.now letters.old }
    requires letter { IsLetter (W.table table.now) pattern.now (c ∷ []) following }
    ensures right { AreLetters (W.table table.now) pattern.now letters.new }
    ensures moves { IfSome result (λ to. (byte : ℕ)
        → SpellsCharacter (begun_bytes state.now.begun ++ byte ∷ []) c
        → IsMove (W.table table.now) pattern.now state.now byte to) }
{
    // no state that is reached has matched so many
    if state.depth >= pattern.keys().len() {
        return None;
    }
    if following.role.is_mark() {
        if let Some(cluster) = state.cluster().with_mark(table, c, following) {
            return Some(state.with_cluster(pattern, cluster, keeping.keeps_marks));
        }
        keeping.miss(state, &following);
    } else if is_next(&state.letter, &following) {
        return behind_letter(table, pattern, *keeping, state, c, following);
    }
    if state.len == 0 || state.character == '\0' {
        return None;
    }
    let both = letters.pair(table, pattern, state.character, c);
    if both.role.is_steps() {
        return None;
    }
    Some(state.with_letter(pattern, both))
}

impl Keeping {
    /// Whether a move behind a character may be made, which costs one if it is of Han or Hangul.
    fn may_move(&mut self, c: char) -> bool {
        if !is_of_many(c) {
            return true;
        }
        let may = self.moves_left > 0;
        self.moves_left = self.moves_left.saturating_sub(1);
        may
    }

    /// The cell where there is no move: a stop, or unknown where it may be made once it is paid for.
    pub(crate) fn stop(&self) -> u16
        ensures { result ≤ STOP }
    {
        if self.moves_left > 0 {
            STOP
        } else {
            UNKNOWN_CELL
        }
    }

    /// So many bytes were gone over, which pay for some moves.
    pub(crate) fn pay(&mut self, len: usize) {
        let left = self.moves_left.saturating_add(len / BYTES_OF_A_MOVE);
        self.moves_left = left.min(MOVES_AHEAD);
    }

    /// Notes a mark that does not join the last letter of a state, where it goes before one of its marks and these are not kept.
    fn miss(&mut self, state: &State, mark: &Letter) {
        if !self.keeps_marks && 0 < mark.class && mark.class < state.letter.class {
            self.misses_marks = true;
        }
    }
}

/// Whether a character is of Han or Hangul, of which there are very many.
fn is_of_many(c: char) -> bool {
    matches!(c, '\u{3400}'..='\u{9FFF}' | '\u{AC00}'..='\u{D7A3}' | '\u{20000}'..='\u{3FFFF}')
}

/// The state behind a character with this letter, to which no unit reaches from the letter before.
fn behind_letter<W: Weights>(
    table: &W,
    pattern: &Pattern,
    keeping: Keeping,
    state: &State,
    c: char,
    following: Letter,
) -> Option<State>
    requires letter { IsLetter (W.table table.now) pattern.now (c ∷ []) following }
    requires depth { state.now.depth < length pattern.now.keys }
    requires next { (at : ℕ) (cs : List ℕ)
        → IsHeld (W.table table.now) pattern.now state.now.depth cs state.now.letter
        → IsNext (W.table table.now) at cs c }
    requires known { (state.now.letter.role ≢ Steps) × (is_mark state.now.letter.role ≡ false) }
    ensures moves { IfSome result (λ to. (byte : ℕ)
        → SpellsCharacter (begun_bytes state.now.begun ++ byte ∷ []) c
        → IsMove (W.table table.now) pattern.now state.now byte to) }
{
    laws_of_characters();
    let most = pattern.keys().len().min(MOST_DEPTH);
    let depth = depth_after(pattern, state.depth, state.letter.symbols);
    if depth >= most {
        return None;
    }
    let before = len_to_leave(state, depth);
    let keeps_marks = keeping.keeps_marks;
    Some(State::behind(pattern, depth, following, c, before, keeps_marks))
}

/// How many bytes the last letter of a state has, if the text may be left behind it, else 0. So many of the pattern's first keys have matched
/// there.
fn len_to_leave(state: &State, depth: usize) -> u8
    ensures len { 0 < result → result ≡ state.now.len }
    ensures none { 0 < result → depth ≡ 0 }
    ensures begins { 0 < result → begins_cluster state.now.letter.role ≡ true }
    ensures flag { 0 < result → flag_after state.now.letter.role false ≡ false }
    ensures flag_after { 0 < result → flag_after state.now.letter.role true ≡ false }
    ensures some { 0 < result → state.now.letter.symbols.third < 255 }
{
    if depth == 0 && state.letter.has_last_key() {
        state.len
    } else {
        0
    }
}
