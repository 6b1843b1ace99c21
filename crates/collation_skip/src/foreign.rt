//! Passes by characters one by one, as long as each has a key that the pattern does not have.
ghost use Rattle.std.specs.Prelude.{IfSome};
ghost use Rattle.collation_letters.specs.Store.{AreLetters};
ghost use Rattle.collation_skip.specs.Passed.{PassesTo};

use crate::passed::Passed;
use collation_letters::{Letters, is_next, laws_of_characters, laws_of_symbols};
use collation_pattern::Pattern;
use collation_table::Weights;
use utf8_cut::sized_character;

/// Passes by characters at the front of a piece, where no key waits, up to one that begins not after `reach`: each one has one key at
/// least, the last of which the pattern does not have. `None` where the first is none of these, or none follows.
pub(crate) fn pass_foreign<W: Weights>(
    table: &W,
    pattern: &Pattern,
    letters: &mut Letters,
    piece: &[u8],
    reach: usize,
) -> Option<Passed>
    requires letters { AreLetters (W.table table.now) pattern.now letters.old }
    ensures passes { IfSome result
        (PassesTo (W.table table.now) pattern.now piece.now reach) }
    ensures letters { AreLetters (W.table table.now) pattern.now letters.new }
{
    laws_of_characters();
    laws_of_symbols();
    let (first, first_len) = sized_character(piece)?;
    let first_letter = letters.letter(table, pattern, first);
    if pattern.keys().is_empty() || !first_letter.is_clean() {
        return None;
    }
    let (mut start, mut end) = (0, 0);
    let mut next = first;
    let mut len = first_len;
    let mut letter = first_letter;
    while end + len <= reach && letter.is_clean() {
        let Some((following, following_len)) = sized_character(&piece[end + len..]) else {
            break;
        };
        let following_letter = letters.letter(table, pattern, following);
        if !is_next(&letter, &following_letter) {
            break;
        }
        start = end;
        end += len;
        next = following;
        len = following_len;
        letter = following_letter;
    }
    if end == 0 {
        return None;
    }
    Some(Passed {
        start,
        end,
        next,
        letter,
    })
}
