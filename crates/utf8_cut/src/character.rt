// The character at the front of a slice.
ghost use Rattle.std.specs.Prelude.{◌≡◌, ◌<◌, ◌≤◌, [], ◌∷◌, length, take, IsTrue, IfSome, IfNone};
ghost use Rattle.std.specs.Char.{len_utf8};
ghost use Rattle.std.specs.Str.{StartsWithNoChar};
ghost use Rattle.utf8_cut.specs.Characters.{is_incomplete_sequence};
ghost use Rattle.utf8_cut.specs.Sequences.{SpellsCharacter, IsFirstCharacter};

use crate::sequence::{Form, are_three, char_of_three, of_four, of_one, of_three, of_two};

/// The character at the front of a slice, if it is whole there: none where the slice is empty or begins
/// with a sequence that is ill-formed or incomplete.
#[inline(always)]
pub fn first_character(bytes: &[u8]) -> Option<char>
    ensures some { IfSome result (λ c. (len_utf8 c ≤ length bytes.now)
        × SpellsCharacter (take (len_utf8 c) bytes.now) c) }
    ensures none { IfNone result (StartsWithNoChar bytes.now) }
{
    let (c, _len) = sized_character(bytes)?;
    Some(c)
}

/// The same character, and how many bytes it has.
#[inline(always)]
pub fn sized_character(bytes: &[u8]) -> Option<(char, usize)>
    ensures some { IfSome result (λ sized. (len_utf8 sized.0 ≤ length bytes.now)
        × SpellsCharacter (take (len_utf8 sized.0) bytes.now) sized.0) }
    ensures len { IfSome result (λ sized. sized.1 ≡ len_utf8 sized.0) }
    ensures none { IfNone result (StartsWithNoChar bytes.now) }
{
    match bytes {
        [] => None,
        // ASCII is recognized first, by a comparison that most texts make predictable: where the next
        // character begins does not wait for this one then
        [first, ..] if *first < 0x80 => Some((of_ascii(*first), 1)),
        // then most characters of Asia, by one comparison after the other
        [first, second, third, ..] if are_three(*first, *second, *third) => {
            Some((char_of_three(*first, *second, *third), 3))
        }
        [first, later @ ..] => match of_one(*first) {
            Form::WellFormed(c) => Some((c, 1)),
            Form::Incomplete => after_one(*first, later),
            Form::IllFormed => None,
        },
    }
}

/// The character of a byte of ASCII.
#[inline(always)]
fn of_ascii(first: u8) -> char
    requires { first < 0x80 }
    ensures { SpellsCharacter (first ∷ []) result }
{
    char::from(first)
}

/// The character of this first byte and the later ones, and its length in bytes.
#[inline(always)]
fn after_one(first: u8, later: &[u8]) -> Option<(char, usize)>
    requires { IsTrue (is_incomplete_sequence (first ∷ [])) }
    ensures { IsFirstCharacter (first ∷ later.now) result }
{
    match later {
        [] => None,
        [second, later @ ..] => match of_two(first, *second) {
            Form::WellFormed(c) => Some((c, 2)),
            Form::Incomplete => after_two(first, *second, later),
            Form::IllFormed => None,
        },
    }
}

/// The same of these two bytes and the later ones.
#[inline(always)]
fn after_two(first: u8, second: u8, later: &[u8]) -> Option<(char, usize)>
    requires { IsTrue (is_incomplete_sequence (first ∷ second ∷ [])) }
    ensures { IsFirstCharacter (first ∷ second ∷ later.now) result }
{
    match later {
        [] => None,
        [third, later @ ..] => match of_three(first, second, *third) {
            Form::WellFormed(c) => Some((c, 3)),
            Form::Incomplete => after_three(first, second, *third, later),
            Form::IllFormed => None,
        },
    }
}

/// And of these three bytes and the later ones.
#[inline]
fn after_three(first: u8, second: u8, third: u8, later: &[u8]) -> Option<(char, usize)>
    requires { IsTrue (is_incomplete_sequence (first ∷ second ∷ third ∷ [])) }
    ensures { IsFirstCharacter (first ∷ second ∷ third ∷ later.now) result }
{
    match later {
        [] => None,
        [fourth, ..] => match of_four(first, second, third, *fourth) {
            Form::WellFormed(c) => Some((c, 4)),
            _ => None,
        },
    }
}
