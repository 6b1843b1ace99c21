// The well-formed byte sequences of UTF-8 (the Unicode Standard, table 3-7): what some bytes are,
// decided by the last of them alone, where those before it begin a character and lack some of it.
ghost use Rattle.std.specs.Prelude.{◌≡◌, ◌<◌, ◌≤◌, [], ◌∷◌, ◌++◌, length, true, IsTrue};
ghost use Rattle.std.specs.Int.{is_in_range};
ghost use Rattle.std.specs.Str.Lossy.{second_byte_min, second_byte_max};
ghost use Rattle.utf8_cut.specs.Characters.{is_incomplete_sequence, is_incomplete_or_empty};
ghost use Rattle.utf8_cut.specs.Sequences.{IsForm, SpellsCharacter};

/// What the bytes of a sequence are.
#[derive(Clone, Copy, Debug, PartialEq, Eq)]
pub(crate) enum Form {
    /// One whole character.
    WellFormed(char),
    /// The beginning of a character, which further bytes may make whole.
    Incomplete,
    /// No character, whatever follows.
    IllFormed,
}

/// What the held bytes are with one more.
pub(crate) fn continued(held: &[u8], byte: u8) -> Form
    requires { IsTrue (is_incomplete_or_empty held.now) }
    ensures { IsForm (held.now ++ byte ∷ []) result }
{
    match *held {
        [] => of_one(byte),
        [first] => of_two(first, byte),
        [first, second] => of_three(first, second, byte),
        [first, second, third] => of_four(first, second, third, byte),
        _ => Form::IllFormed,
    }
}

/// Whether the bytes are none, or begin a character and lack some of it.
pub(crate) fn is_incomplete_or_empty(bytes: &[u8]) -> bool
    ensures { result ≡ is_incomplete_or_empty bytes.now }
{
    match *bytes {
        [] => true,
        [first] => matches!(first, 0xC2..=0xF4),
        [first, second] => matches!(first, 0xE0..=0xF4) && may_be_second(first, second),
        [first, second, third] => {
            matches!(first, 0xF0..=0xF4) && may_be_second(first, second) && is_continuation(third)
        }
        _ => false,
    }
}

#[inline(always)]
pub(crate) fn of_one(first: u8) -> Form
    ensures { IsForm (first ∷ []) result }
{
    match first {
        0x00..=0x7F => Form::WellFormed(char::from(first)),
        0xC2..=0xF4 => Form::Incomplete,
        _ => Form::IllFormed,
    }
}

/// Whether a byte may stand second after this first one.
#[inline(always)]
fn may_be_second(first: u8, second: u8) -> bool
    ensures { result ≡ is_in_range (second_byte_min first) (second_byte_max first) second }
{
    match first {
        0xE0 => matches!(second, 0xA0..=0xBF),
        0xED => matches!(second, 0x80..=0x9F),
        0xF0 => matches!(second, 0x90..=0xBF),
        0xF4 => matches!(second, 0x80..=0x8F),
        _ => is_continuation(second),
    }
}

#[inline(always)]
fn is_continuation(byte: u8) -> bool
    ensures { result ≡ is_in_range 128 191 byte }
{
    matches!(byte, 0x80..=0xBF)
}

#[inline(always)]
pub(crate) fn of_two(first: u8, second: u8) -> Form
    requires { IsTrue (is_incomplete_sequence (first ∷ [])) }
    ensures { IsForm (first ∷ second ∷ []) result }
{
    if !may_be_second(first, second) {
        Form::IllFormed
    } else if first < 0xE0 {
        Form::WellFormed(char_of_two(first, second))
    } else {
        Form::Incomplete
    }
}

pub(crate) fn of_three(first: u8, second: u8, third: u8) -> Form
    requires { IsTrue (is_incomplete_sequence (first ∷ second ∷ [])) }
    ensures { IsForm (first ∷ second ∷ third ∷ []) result }
{
    if !is_continuation(third) {
        Form::IllFormed
    } else if first < 0xF0 {
        Form::WellFormed(char_of_three(first, second, third))
    } else {
        Form::Incomplete
    }
}

pub(crate) fn of_four(first: u8, second: u8, third: u8, fourth: u8) -> Form
    requires { IsTrue (is_incomplete_sequence (first ∷ second ∷ third ∷ [])) }
    ensures { IsForm (first ∷ second ∷ third ∷ fourth ∷ []) result }
{
    if is_continuation(fourth) {
        Form::WellFormed(char_of_four(first, second, third, fourth))
    } else {
        Form::IllFormed
    }
}

#[inline(always)]
fn char_of_two(first: u8, second: u8) -> char
    requires first { (194 ≤ first) × (first < 224) }
    requires second { IsTrue (is_in_range (second_byte_min first) (second_byte_max first) second) }
    ensures { SpellsCharacter (first ∷ second ∷ []) result }
{
    let code = (u32::from(first) - 0xC0) * 0x40 + (u32::from(second) - 0x80);
    // it is proved to be a character's, so that this is not looked at again
    unsafe { char::from_u32_unchecked(code) }
}

/// Whether three bytes are a character, of which the first is not the least that begins one of three.
#[inline(always)]
pub(crate) fn are_three(first: u8, second: u8, third: u8) -> bool
    ensures first { result ≡ true → (224 ≤ first) × (first < 240) }
    ensures second { result ≡ true
        → IsTrue (is_in_range (second_byte_min first) (second_byte_max first) second) }
    ensures third { result ≡ true → (128 ≤ third) × (third < 192) }
{
    matches!(first, 0xE1..=0xEF) && may_be_second(first, second) && is_continuation(third)
}

#[inline(always)]
pub(crate) fn char_of_three(first: u8, second: u8, third: u8) -> char
    requires first { (224 ≤ first) × (first < 240) }
    requires second { IsTrue (is_in_range (second_byte_min first) (second_byte_max first) second) }
    requires third { (128 ≤ third) × (third < 192) }
    ensures { SpellsCharacter (first ∷ second ∷ third ∷ []) result }
{
    let high = (u32::from(first) - 0xE0) * 0x40 + (u32::from(second) - 0x80);
    let code = high * 0x40 + (u32::from(third) - 0x80);
    unsafe { char::from_u32_unchecked(code) }
}

fn char_of_four(first: u8, second: u8, third: u8, fourth: u8) -> char
    requires first { (240 ≤ first) × (first ≤ 244) }
    requires second { IsTrue (is_in_range (second_byte_min first) (second_byte_max first) second) }
    requires third { (128 ≤ third) × (third < 192) }
    requires fourth { (128 ≤ fourth) × (fourth < 192) }
    ensures { SpellsCharacter (first ∷ second ∷ third ∷ fourth ∷ []) result }
{
    let high = (u32::from(first) - 0xF0) * 0x40 + (u32::from(second) - 0x80);
    let code = (high * 0x40 + (u32::from(third) - 0x80)) * 0x40 + (u32::from(fourth) - 0x80);
    unsafe { char::from_u32_unchecked(code) }
}
