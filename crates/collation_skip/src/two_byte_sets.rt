//! Sets of bytes, for text of characters of one and of two bytes: what a search has to know of them to pass them in blocks. A leading
//! byte is in no set but the one of those that halt: what is known of a character is known by its last byte, whatever its first one is.
ghost use Rattle.std.specs.Prelude.{◌≡◌, ◌<◌, ◌≤◌, ◌∷◌, [], ℕ, length, false, true, IfSome};
ghost use Rattle.collation_table.specs.Table.{TableMap};
ghost use Rattle.collation_letters.specs.Letters.{IsLetter};
ghost use Rattle.collation_letters.specs.Store.{AreLetters};
ghost use Rattle.byte_blocks.specs.Sets.{is_in};
ghost use Rattle.collation_skip.specs.TwoBytes.{AreRightOf, AreSetsRight, IsSetRight};

use crate::kinds::{Kind, kind_of};
use crate::pace::SAMPLE;
use byte_blocks::{ByteSet, NO_BYTES, TwoByteSets, block_goes_on};
use collation_letters::{Letter, Letters};
use collation_pattern::Pattern;
use collation_table::Weights;
use utf8_cut::sized_character;

/// How many places of a pattern are tried.
const MOST_TWO_BYTE_PLACES: usize = 8;

/// How many characters of a sample have to have a leading byte, so that this one is passed.
const FEW: usize = 4;

/// The most leading bytes that sets are made for: the letters of 64 characters are found for each.
const MOST_LEADS: usize = 8;

/// How many blocks of a sample may halt, so that blocks pay.
const MOST_HALTS: usize = 4;

/// A place of a pattern, and sets of bytes for it: those that can't be passed halt; `key` ends a character whose last key may be the
/// pattern's at the place, and `later` one without a key, or whose last one may be the pattern's behind the place.
#[derive(Clone, Copy, Debug)]
pub(crate) struct TwoByteClasses {
    pub(crate) place: usize,
    pub(crate) sets: TwoByteSets,
}

/// The sets for the place of the pattern at which the fewest blocks of a text halt; `None` where blocks do not pay, or the sets are not
/// known to be right.
pub(crate) fn sets_for<W: Weights>(
    table: &W,
    pattern: &Pattern,
    letters: &mut Letters,
    text: &[u8],
) -> Option<TwoByteClasses>
    requires { AreLetters (W.table table.now) pattern.now letters.old }
    ensures right { AreLetters (W.table table.now) pattern.now letters.new }
    ensures classes { IfSome result (AreSetsRight (W.table table.now) pattern.now) }
{
    let count = pattern.keys().len();
    let leads = leads_of(text)?;
    if count == 0 {
        return None;
    }
    let places = (count - 1).min(MOST_TWO_BYTE_PLACES);
    let mut best = sets_at(table, pattern, letters, &leads, 0);
    let mut fewest = halts(&best, text);
    for place in 1..places {
        let classes = sets_at(table, pattern, letters, &leads, place);
        let blocks = halts(&classes, text);
        if blocks < fewest {
            best = classes;
            fewest = blocks;
        }
    }
    if fewest <= MOST_HALTS && are_right(table, pattern, letters, &best) {
        return Some(best);
    }
    None
}

/// The leading bytes of two that stand near the front of a text, but for seldom ones; `None` where there are none, or many.
fn leads_of(text: &[u8]) -> Option<ByteSet> {
    let mut counts = [0; 32];
    let mut leads = NO_BYTES;
    let mut found = 0usize;
    for byte in text.iter().take(SAMPLE) {
        if *byte >= 0xC0 && *byte < 0xE0 {
            let count = &mut counts[(*byte % 32) as usize];
            if *count == FEW {
                leads.put(*byte);
                found = found.saturating_add(1);
            }
            *count = count.saturating_add(1);
        }
    }
    if found == 0 || found > MOST_LEADS {
        return None;
    }
    Some(leads)
}

/// The sets for a place of the pattern, where these leading bytes are passed.
fn sets_at<W: Weights>(
    table: &W,
    pattern: &Pattern,
    letters: &mut Letters,
    leads: &ByteSet,
    place: usize,
) -> TwoByteClasses
    requires right { AreLetters (W.table table.now) pattern.now letters.old }
    requires place { place < length pattern.now.keys }
    ensures right { AreLetters (W.table table.now) pattern.now letters.new }
    ensures place { result.place ≡ place }
{
    let mut classes = TwoByteClasses {
        place,
        sets: TwoByteSets {
            halt: NO_BYTES,
            key: NO_BYTES,
            later: NO_BYTES,
        },
    };
    for byte in 0..128u8 {
        let letter = letters.letter(table, pattern, byte as char);
        add(&mut classes, byte, kind_of(pattern, &letter, place));
    }
    for lead in 192..255u8 {
        if leads.has(lead) == 0 {
            classes.sets.halt.put(lead);
        } else {
            add_lead(table, pattern, letters, &mut classes, lead);
        }
    }
    classes.sets.halt.put(255);
    classes
}

/// Adds the characters with a leading byte.
fn add_lead<W: Weights>(
    table: &W,
    pattern: &Pattern,
    letters: &mut Letters,
    classes: &mut TwoByteClasses,
    lead: u8,
)
    requires right { AreLetters (W.table table.now) pattern.now letters.old }
    requires place { classes.old.place < length pattern.now.keys }
    ensures right { AreLetters (W.table table.now) pattern.now letters.new }
    ensures place { classes.new.place ≡ classes.old.place }
{
    let place = classes.place;
    for trail in 128..192u8 {
        if let Some((c, _len)) = sized_character(&[lead, trail]) {
            let letter = letters.letter(table, pattern, c);
            add(classes, trail, kind_of(pattern, &letter, place));
        }
    }
}

/// Adds the last byte of a character of some kind.
fn add(classes: &mut TwoByteClasses, last: u8, kind: Kind)
    ensures { classes.new.place ≡ classes.old.place }
{
    if kind.inner || kind.halt {
        classes.sets.halt.put(last);
    }
    if kind.key {
        classes.sets.key.put(last);
    }
    if kind.later {
        classes.sets.later.put(last);
    }
}

/// How many blocks near the front of a text halt.
fn halts(classes: &TwoByteClasses, text: &[u8]) -> usize
    ensures { result ≤ 1024 }
{
    let mut count = 0;
    for block in 0..SAMPLE / 16 {
        let at = 16 * block + 2;
        if at + 16 <= text.len() && !block_goes_on(&classes.sets, text, at) {
            count += 1;
        }
    }
    count
}

/// Whether the sets are right.
fn are_right<W: Weights>(
    table: &W,
    pattern: &Pattern,
    letters: &mut Letters,
    classes: &TwoByteClasses,
) -> bool
    requires right { AreLetters (W.table table.now) pattern.now letters.old }
    requires place { classes.now.place < length pattern.now.keys }
    ensures right { AreLetters (W.table table.now) pattern.now letters.new }
    ensures classes { result ≡ true → AreSetsRight (W.table table.now) pattern.now classes.now }
{
    if !are_right_of_one(table, pattern, letters, classes) {
        return false;
    }
    for lead in 192..255u8 {
        if !are_right_of_lead(table, pattern, letters, classes, lead) {
            return false;
        }
    }
    are_right_of_lead(table, pattern, letters, classes, 255)
}

/// Whether the sets are right for the characters of one byte.
fn are_right_of_one<W: Weights>(
    table: &W,
    pattern: &Pattern,
    letters: &mut Letters,
    classes: &TwoByteClasses,
) -> bool
    requires right { AreLetters (W.table table.now) pattern.now letters.old }
    requires place { classes.now.place < length pattern.now.keys }
    ensures right { AreLetters (W.table table.now) pattern.now letters.new }
    ensures classes { result ≡ true → (c : ℕ) → c < 128 → is_in classes.now.sets.halt c ≡ 0
        → IsSetRight (W.table table.now) pattern.now classes.now c c }
{
    for byte in 0..128u8 {
        if classes.sets.halt.has(byte) != 0 {
            continue;
        }
        let letter = letters.letter(table, pattern, byte as char);
        if !is_right(pattern, classes, byte, &letter) {
            return false;
        }
    }
    true
}

/// Whether the sets are right for the characters of two bytes that have this leading byte, if it does not halt.
fn are_right_of_lead<W: Weights>(
    table: &W,
    pattern: &Pattern,
    letters: &mut Letters,
    classes: &TwoByteClasses,
    lead: u8,
) -> bool
    requires right { AreLetters (W.table table.now) pattern.now letters.old }
    requires place { classes.now.place < length pattern.now.keys }
    ensures right { AreLetters (W.table table.now) pattern.now letters.new }
    ensures classes { result ≡ true → is_in classes.now.sets.halt lead ≡ 0
        → (trail : ℕ) → 128 ≤ trail → trail < 192 → is_in classes.now.sets.halt trail ≡ 0
        → AreRightOf (W.table table.now) pattern.now classes.now lead trail }
{
    if classes.sets.halt.has(lead) != 0 {
        return true;
    }
    if lead < 194 || lead >= 224 {
        return false;
    }
    for trail in 128..192u8 {
        if classes.sets.halt.has(trail) != 0 {
            continue;
        }
        let Some((c, _len)) = sized_character(&[lead, trail]) else {
            return false;
        };
        let letter = letters.letter(table, pattern, c);
        if !is_right(pattern, classes, trail, &letter) {
            return false;
        }
    }
    true
}

/// Whether the sets are right for a character with this letter and this last byte, which does not halt.
fn is_right(pattern: &Pattern, classes: &TwoByteClasses, last: u8, letter: &Letter) -> bool
    requires { classes.now.place < length pattern.now.keys }
    ensures { result ≡ true → (table : TableMap) (c : ℕ)
        → IsLetter table pattern.now (c ∷ []) letter.now
        → IsSetRight table pattern.now classes.now last c }
{
    let kind = kind_of(pattern, letter, classes.place);
    if kind.halt || kind.inner {
        return false;
    }
    if !holds(&classes.sets.key, last, kind.key) {
        return false;
    }
    holds(&classes.sets.later, last, kind.later)
}

/// Whether a byte is in a set if it must be.
fn holds(set: &ByteSet, byte: u8, must: bool) -> bool
    ensures { result ≡ true → is_in set.now byte ≡ 0 → must ≡ false }
{
    !must || set.has(byte) != 0
}
