//! The bytes of a character that is not whole.
ghost use Rattle.std.specs.Prelude.{◌≡◌, ◌∷◌, ◌++◌, [], IfSome};
ghost use Rattle.utf8_cut.specs.Sequences.{SpellsCharacter};
ghost use Rattle.collation_skip.specs.BegunBytes.{IsDecoded, begun_bytes};

use utf8_cut::sized_character;

/// The bytes of a character that is not whole.
#[derive(Clone, Copy, Debug, PartialEq, Eq)]
pub(crate) enum Begun {
    /// None: all characters are whole.
    Whole,
    One(u8),
    Two(u8, u8),
    Three(u8, u8, u8),
}

/// What these bytes are with one more.
#[derive(Clone, Copy, Debug)]
pub(crate) enum Decoded {
    Character(char),
    More(Begun),
    IllFormed,
}

impl Begun {
    /// What these bytes are with one more (the Unicode Standard, table 3-7).
    pub(crate) fn with(self, byte: u8) -> Decoded
        ensures { IsDecoded (begun_bytes self ++ byte ∷ []) result }
    {
        match self {
            Begun::Whole => read_bytes(&[byte], Begun::One(byte), matches!(byte, 0xC2..=0xF4)),
            Begun::One(first) => {
                let may_begin = first >= 0xE0 && is_continuation(byte);
                read_bytes(&[first, byte], Begun::Two(first, byte), may_begin)
            }
            Begun::Two(first, second) => {
                let may_begin = first >= 0xF0 && is_continuation(byte);
                let begun = Begun::Three(first, second, byte);
                read_bytes(&[first, second, byte], begun, may_begin)
            }
            Begun::Three(first, second, third) => match whole(&[first, second, third, byte]) {
                Some(c) => Decoded::Character(c),
                None => Decoded::IllFormed,
            },
        }
    }
}

/// What these bytes are: a character, or begun ones if they may begin one.
fn read_bytes(bytes: &[u8], begun: Begun, may_begin: bool) -> Decoded
    requires { begun_bytes begun ≡ bytes.now }
    ensures { IsDecoded bytes.now result }
{
    match whole(bytes) {
        Some(c) => Decoded::Character(c),
        None if may_begin => Decoded::More(begun),
        None => Decoded::IllFormed,
    }
}

/// The character that these bytes are, if they are one.
fn whole(bytes: &[u8]) -> Option<char>
    ensures { IfSome result (SpellsCharacter bytes.now) }
{
    let (c, len) = sized_character(bytes)?;
    if len == bytes.len() { Some(c) } else { None }
}

fn is_continuation(byte: u8) -> bool {
    matches!(byte, 0x80..=0xBF)
}
