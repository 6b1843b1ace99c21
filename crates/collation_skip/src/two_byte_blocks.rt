//! Passes by text of characters of one and of two bytes sixteen bytes at a time, as long as no two neighbours may be part of a match.
ghost use Rattle.std.specs.Prelude.{◌<◌, ◌≤◌, length, IfSome};
ghost use Rattle.collation_letters.specs.Store.{AreLetters};
ghost use Rattle.collation_skip.specs.Passed.{PassesTo};
ghost use Rattle.collation_skip.specs.TwoBytes.{AreSetsRight, IsEnding};

use crate::kinds::leaves_none;
use crate::passed::Passed;
use crate::two_byte_sets::TwoByteClasses;
use byte_blocks::{TRAILS, going_len};
use collation_elements::{units_stay_apart, weighers_go_on};
use collation_letters::{Letters, is_next, laws_of_characters, laws_of_symbols};
use collation_pattern::Pattern;
use collation_pattern::laws::laws_of_borders;
use collation_table::Weights;
use utf8_cut::sized_character;

/// The most bytes that are passed at once: where the text can't be left behind them, they are looked at in vain.
const MOST_AT_ONCE: usize = 8_192;

/// In how many bytes, the last of those that pass, a character is looked for behind which the text may be left.
const WAY_BACK: usize = 512;

/// Passes by text at the front of a piece, where no key waits, by right sets: at most `reach` bytes, and to the end of a character behind
/// which no key waits. `None` where it finds no such character: `looked` is then at least how many bytes it looked over.
pub(crate) fn pass_two_bytes<W: Weights>(
    table: &W,
    pattern: &Pattern,
    letters: &mut Letters,
    classes: &TwoByteClasses,
    piece: &[u8],
    reach: usize,
    looked: &mut usize,
) -> Option<Passed>
    requires right { AreLetters (W.table table.now) pattern.now letters.old }
    requires classes { AreSetsRight (W.table table.now) pattern.now classes.now }
    ensures right { AreLetters (W.table table.now) pattern.now letters.new }
    ensures passes { IfSome result
        (PassesTo (W.table table.now) pattern.now piece.now reach) }
{
    laws_of_characters();
    laws_of_symbols();
    laws_of_borders();
    units_stay_apart();
    weighers_go_on();
    let most = piece.len().min(reach).min(MOST_AT_ONCE);
    let len = going_len(&classes.sets, piece, most);
    let Some(passed) = last_ending(table, pattern, letters, classes.place, piece, len) else {
        *looked = len.max(*looked);
        return None;
    };
    Some(passed)
}

/// Text to the end of the last character behind which no key waits, and before one to which no unit reaches, where that ends within the
/// first `len` bytes of a piece, and begins not long before.
#[inline(always)]
fn last_ending<W: Weights>(
    table: &W,
    pattern: &Pattern,
    letters: &mut Letters,
    place: usize,
    piece: &[u8],
    len: usize,
) -> Option<Passed>
    requires right { AreLetters (W.table table.now) pattern.now letters.old }
    requires place { place < length pattern.now.keys }
    requires len { len ≤ length piece.now }
    ensures right { AreLetters (W.table table.now) pattern.now letters.new }
    ensures ending { IfSome result
        (IsEnding (W.table table.now) pattern.now place piece.now len) }
{
    let first = len.saturating_sub(WAY_BACK);
    let mut start = len;
    while start > first {
        start -= 1;
        let ending = ending_at(table, pattern, letters, place, piece, len, start);
        if ending.is_some() {
            return ending;
        }
    }
    None
}

/// The same where that character begins at `start`.
#[inline(always)]
fn ending_at<W: Weights>(
    table: &W,
    pattern: &Pattern,
    letters: &mut Letters,
    place: usize,
    piece: &[u8],
    len: usize,
    start: usize,
) -> Option<Passed>
    requires right { AreLetters (W.table table.now) pattern.now letters.old }
    requires place { place < length pattern.now.keys }
    requires len { len ≤ length piece.now }
    requires start { start < len }
    ensures right { AreLetters (W.table table.now) pattern.now letters.new }
    ensures ending { IfSome result
        (IsEnding (W.table table.now) pattern.now place piece.now len) }
{
    let first = piece[start];
    if TRAILS[(first / 16) as usize] != 0 || (first >= 128 && start + 1 >= len) {
        return None;
    }
    let (character, character_len) = sized_character(&piece[start..])?;
    let letter = letters.letter(table, pattern, character);
    let end = start + character_len;
    if end > len || !leaves_none(pattern, &letter, place) {
        return None;
    }
    let (next, _len) = sized_character(&piece[end..])?;
    let following = letters.letter(table, pattern, next);
    if !is_next(&letter, &following) {
        return None;
    }
    Some(Passed {
        start,
        end,
        next,
        letter: following,
    })
}
