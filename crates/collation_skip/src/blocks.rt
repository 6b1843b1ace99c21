//! Passes by text of ASCII sixteen bytes at a time, as long as no two neighbours may be part of a match.
ghost use Rattle.std.specs.Prelude.{◌<◌, ◌≤◌, length, IfSome, slice_index};
ghost use Rattle.collation_letters.specs.Store.{AreLetters};
ghost use Rattle.collation_skip.specs.Blocks.{AreClassesRight};
ghost use Rattle.collation_skip.specs.Passed.{PassesTo};

use crate::classes::Classes;
use crate::passed::Passed;
use byte_blocks::{len_to_last, passed_len};
use collation_elements::{units_stay_apart, weighers_go_on};
use collation_letters::{Letters, laws_of_characters, laws_of_symbols};
use collation_pattern::Pattern;
use collation_pattern::laws::laws_of_borders;
use collation_table::Weights;

/// Passes by text of ASCII at the front of a piece, where no key waits, by right classes: at most `reach` bytes, and to the end of a
/// character behind which no key waits. `None` where it finds no such character: `looked` is then at least how many bytes it looked over.
pub(crate) fn pass_blocks<W: Weights>(
    table: &W,
    pattern: &Pattern,
    letters: &mut Letters,
    classes: &Classes,
    piece: &[u8],
    reach: usize,
    looked: &mut usize,
) -> Option<Passed>
    requires right { AreLetters (W.table table.now) pattern.now letters.old }
    requires classes { AreClassesRight (W.table table.now) pattern.now classes.now }
    ensures right { AreLetters (W.table table.now) pattern.now letters.new }
    ensures passes { IfSome result
        (PassesTo (W.table table.now) pattern.now piece.now reach) }
{
    laws_of_characters();
    laws_of_symbols();
    laws_of_borders();
    units_stay_apart();
    weighers_go_on();
    let len = passed_len(&classes.sets, piece, piece.len().min(reach));
    let end = len_to_last(&classes.clean, piece, followed_len(piece, len));
    if end == 0 {
        *looked = len.max(*looked);
        return None;
    }
    let next = piece[end] as char;
    let letter = letters.letter(table, pattern, next);
    Some(Passed {
        start: end - 1,
        end,
        next,
        letter,
    })
}

/// How many of the first `len` bytes of a piece, which pass, have a byte of ASCII behind them.
#[inline(always)]
fn followed_len(piece: &[u8], len: usize) -> usize
    requires { len ≤ length piece.now }
    ensures within { result ≤ len }
    ensures followed { 0 < result → len ≤ result
        → (len < length piece.now) × (slice_index piece.now len < 128) }
{
    if len < piece.len() && piece[len] < 128 {
        return len;
    }
    len.saturating_sub(1)
}
