//! The classes of the bytes of ASCII: what a search has to know of their characters to pass them in blocks.
ghost use Rattle.std.specs.Prelude.{◌≡◌, ◌≢◌, ◌<◌, ◌≤◌, ◌∷◌, [], length, false, true, IfSome};
ghost use Rattle.collation_table.specs.Table.{TableMap};
ghost use Rattle.collation_letters.specs.Letters.{IsLetter};
ghost use Rattle.collation_letters.specs.Store.{AreLetters};
ghost use Rattle.byte_blocks.specs.Sets.{in_set};
ghost use Rattle.collation_skip.specs.Blocks.{AreClassesRight, IsClassRight, IsCleanCharacter, LeavesNone, most};

use crate::kinds::{Kind, kind_of, leaves_none};
use crate::pace::SAMPLE;
use byte_blocks::{AsciiSets, block_passes, in_set as in_ascii, put};
use collation_letters::{Letter, Letters};
use collation_pattern::Pattern;
use collation_table::Weights;

/// How many places of a pattern are tried.
const MOST_ASCII_PLACES: usize = 16;

/// All bytes of ASCII.
const ALL: [u8; 16] = [0xFF; 16];

/// What a character is of which nothing is known.
const UNKNOWN_KIND: Kind = Kind {
    halt: true,
    key: true,
    later: true,
    joins: true,
    inner: true,
};

/// A place of a pattern, and sets of bytes of ASCII for it: those that can't be passed halt; the last key of `key` may be the pattern's at
/// the place; `later` have no key, or their last one may be the pattern's behind the place; out of `joins` a unit may reach, and into `inner`.
/// Behind one of `clean`, a cluster behind which no key waits, the text may be left.
#[derive(Clone, Copy, Debug)]
pub(crate) struct Classes {
    pub(crate) place: usize,
    pub(crate) sets: AsciiSets,
    pub(crate) clean: [u8; 16],
}

/// How many bytes of a short text are counted.
const MOST_COUNTED: usize = 128;

/// The classes for the place of the pattern at which the fewest stops are expected, by a text; `None` where they are not known to be right.
/// Where they serve this text alone, no letter is found for bytes that it does not have, and the first place is taken, for a choice costs
/// more than it saves.
pub(crate) fn classes_for<W: Weights>(
    table: &W,
    pattern: &Pattern,
    letters: &mut Letters,
    text: &[u8],
    is_alone: bool,
) -> Option<Classes>
    requires { AreLetters (W.table table.now) pattern.now letters.old }
    ensures right { AreLetters (W.table table.now) pattern.now letters.new }
    ensures classes { IfSome result
        (λ classes. AreClassesRight (W.table table.now) pattern.now classes) }
{
    if pattern.keys().is_empty() {
        return None;
    }
    let there = if is_alone { ascii_of(text) } else { ALL };
    find_letters(table, pattern, letters, &there);
    let place = if is_alone {
        0
    } else {
        best_place(pattern, letters, text)
    };
    let mut best = classes_at(pattern, letters, place, &ALL);
    best.clean = clean_bytes(pattern, letters, best.place);
    if are_right(pattern, letters, &best) {
        return Some(best);
    }
    None
}

/// The place of the pattern at which the fewest stops are expected, by a text: as far as the bytes tell that stand at its front.
fn best_place(pattern: &Pattern, letters: &Letters, text: &[u8]) -> usize
    requires { 0 < length pattern.now.keys }
    ensures { result < length pattern.now.keys }
{
    let places = (pattern.keys().len() - 1).min(MOST_ASCII_PLACES);
    let there = ascii_of(&text[..text.len().min(SAMPLE + 16)]);
    let mut best = 0;
    let mut fewest = stops(&classes_at(pattern, letters, 0, &there), text);
    for place in 1..places {
        let expected = stops(&classes_at(pattern, letters, place, &there), text);
        if expected < fewest {
            best = place;
            fewest = expected;
        }
    }
    best
}

/// The bytes of ASCII that a text has.
fn ascii_of(text: &[u8]) -> [u8; 16] {
    let mut there = [0; 16];
    for byte in text {
        if *byte < 128 {
            put(&mut there, *byte);
        }
    }
    there
}

/// Finds the letters of these bytes of ASCII.
fn find_letters<W: Weights>(table: &W, pattern: &Pattern, letters: &mut Letters, there: &[u8; 16])
    requires { AreLetters (W.table table.now) pattern.now letters.old }
    ensures { AreLetters (W.table table.now) pattern.now letters.new }
{
    for byte in 0..128u8 {
        if in_ascii(there, byte) != 0 {
            let _ = letters.letter(table, pattern, byte as char);
        }
    }
}

/// The set of the bytes behind which a text may be left, for a place of the pattern.
fn clean_bytes(pattern: &Pattern, letters: &Letters, place: usize) -> [u8; 16]
    requires { place < length pattern.now.keys }
{
    let mut clean = [0; 16];
    for byte in 0..128u8 {
        if let Some(letter) = letters.known(byte as char) {
            if leaves_none(pattern, &letter, place) {
                put(&mut clean, byte);
            }
        }
    }
    clean
}

/// The classes of these bytes of ASCII for a place of the pattern, without those behind which a text may be left. Nothing passes a byte whose
/// letter is not known.
fn classes_at(pattern: &Pattern, letters: &Letters, place: usize, there: &[u8; 16]) -> Classes
    requires { place < length pattern.now.keys }
    ensures { result.place ≡ place }
{
    let mut classes = Classes {
        place,
        sets: AsciiSets {
            halt: [0; 16],
            key: [0; 16],
            later: [0; 16],
            joins: [0; 16],
            inner: [0; 16],
        },
        clean: [0; 16],
    };
    for byte in 0..128u8 {
        if in_ascii(there, byte) != 0 {
            let kind = match letters.known(byte as char) {
                Some(letter) => kind_of(pattern, &letter, place),
                None => UNKNOWN_KIND,
            };
            add(&mut classes, byte, kind);
        }
    }
    classes
}

/// Adds a byte of some kind.
fn add(classes: &mut Classes, byte: u8, kind: Kind)
    ensures { classes.new.place ≡ classes.old.place }
{
    if kind.halt {
        put(&mut classes.sets.halt, byte);
    }
    if kind.key {
        put(&mut classes.sets.key, byte);
    }
    if kind.later {
        put(&mut classes.sets.later, byte);
    }
    if kind.joins {
        put(&mut classes.sets.joins, byte);
    }
    if kind.inner {
        put(&mut classes.sets.inner, byte);
    }
}

/// How many stops are expected, by a text, as far as two numbers can be compared. Of a long text the blocks that halt tell
/// it. A short one has fewer: so it also tells how often each of two neighbours comes, and with it how often both meet by chance.
fn stops(classes: &Classes, text: &[u8]) -> usize {
    let blocks = halts(classes, text);
    if text.len() >= SAMPLE {
        return blocks;
    }
    let len = text.len().min(MOST_COUNTED);
    let keys = count(&classes.sets.key, &text[..len]);
    let later = count(&classes.sets.later, &text[..len]);
    blocks
        .saturating_mul(len)
        .saturating_add(keys.saturating_mul(later))
}

/// How many bytes of a text are ASCII and in a set.
fn count(set: &[u8; 16], text: &[u8]) -> usize {
    let mut count = 0usize;
    for byte in text {
        if *byte < 128 && in_ascii(set, *byte) != 0 {
            count = count.saturating_add(1);
        }
    }
    count
}

/// How many blocks near the front of a text halt.
fn halts(classes: &Classes, text: &[u8]) -> usize
    ensures { result ≤ 1024 }
{
    let mut count = 0;
    for block in 0..SAMPLE / 16 {
        let at = 16 * block + 1;
        if at + 16 <= text.len() && !block_passes(&classes.sets, text, at) {
            count += 1;
        }
    }
    count
}

/// Whether the classes are right.
fn are_right(pattern: &Pattern, letters: &Letters, classes: &Classes) -> bool
    requires { classes.now.place < length pattern.now.keys }
    ensures { result ≡ true → (table : TableMap) → AreLetters table pattern.now letters.now
        → AreClassesRight table pattern.now classes.now }
{
    for byte in 0..128u8 {
        if !is_right_of_known(pattern, letters, classes, byte) {
            return false;
        }
    }
    true
}

/// Whether the classes are right for a byte, by the letter of its character, if that is known.
fn is_right_of_known(pattern: &Pattern, letters: &Letters, classes: &Classes, byte: u8) -> bool
    requires { classes.now.place < length pattern.now.keys }
    ensures class { result ≡ true → (table : TableMap) → AreLetters table pattern.now letters.now
        → IsClassRight table pattern.now classes.now byte }
    ensures clean { result ≡ true → (table : TableMap) → AreLetters table pattern.now letters.now
        → in_set classes.now.clean byte ≢ 0
        → ∥ IsCleanCharacter table pattern.now
        (most pattern.now.keys classes.now.place) byte ∥₁ }
{
    let Some(letter) = letters.known(byte as char) else {
        return is_barred(classes, byte);
    };
    is_right(pattern, classes, byte, &letter)
}

/// Whether nothing passes a byte, and no text is left behind it: that is right whatever its character is.
fn is_barred(classes: &Classes, byte: u8) -> bool
    ensures halt { result ≡ true → in_set classes.now.sets.halt byte ≢ 0 }
    ensures joins { result ≡ true → in_set classes.now.sets.joins byte ≢ 0 }
    ensures inner { result ≡ true → in_set classes.now.sets.inner byte ≢ 0 }
    ensures clean { result ≡ true → in_set classes.now.clean byte ≡ 0 }
{
    in_ascii(&classes.sets.halt, byte) != 0
        && in_ascii(&classes.sets.joins, byte) != 0
        && in_ascii(&classes.sets.inner, byte) != 0
        && in_ascii(&classes.clean, byte) == 0
}

/// Whether the classes are right for a byte whose character has this letter.
fn is_right(pattern: &Pattern, classes: &Classes, byte: u8, letter: &Letter) -> bool
    requires { classes.now.place < length pattern.now.keys }
    ensures class { result ≡ true → (table : TableMap)
        → IsLetter table pattern.now (byte ∷ []) letter.now
        → IsClassRight table pattern.now classes.now byte }
    ensures clean { result ≡ true → in_set classes.now.clean byte ≢ 0
        → LeavesNone (most pattern.now.keys classes.now.place) letter.now }
{
    let kind = kind_of(pattern, letter, classes.place);
    if !has(&classes.sets.halt, byte, kind.halt) {
        return false;
    }
    if !has(&classes.sets.key, byte, kind.key) {
        return false;
    }
    if !has(&classes.sets.later, byte, kind.later) {
        return false;
    }
    if !has(&classes.sets.joins, byte, kind.joins) {
        return false;
    }
    let leaves = leaves_none(pattern, letter, classes.place);
    if !has_only_if(&classes.clean, byte, leaves) {
        return false;
    }
    has(&classes.sets.inner, byte, kind.inner)
}

/// Whether a byte is in a set if it must be.
fn has(set: &[u8; 16], byte: u8, must: bool) -> bool
    ensures { result ≡ true → in_set set.now byte ≡ 0 → must ≡ false }
{
    !must || in_ascii(set, byte) != 0
}

/// Whether a byte is in a set only if it may be.
fn has_only_if(set: &[u8; 16], byte: u8, may: bool) -> bool
    ensures { result ≡ true → in_set set.now byte ≢ 0 → may ≡ true }
{
    may || in_ascii(set, byte) == 0
}
