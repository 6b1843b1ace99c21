//! Cuts bytes into the characters that they are as UTF-8 (the Unicode Standard, section 3.9 and
//! table 3-7), one byte at a time or a slice at once.
//!
//! A [`Cut`] takes bytes in pieces of any size and gives each character as its last byte comes,
//! with the offset of its first one. It holds at most three bytes. [`front`] gives the same text
//! and the same fault for a whole slice, [`first_character`] the character at the front of one,
//! [`ascii_len`] how many bytes of ASCII come first. No call takes memory. Offsets and counts are in
//! bytes, from 0 at the first byte that was pushed, or at the slice's start.
//!
//! It stands on `simdutf8`, which tests a slice, and on `arrayvec`, which holds the bytes.
//!
//! Proved, for every list of bytes pushed: the characters and offsets given are those of the
//! longest prefix of whole characters, a fault is reported at the first byte that shows it, with the
//! start of its sequence, and the laws of this crate say what any further bytes do. A caller
//! carries `StandsFor` of `specs/State.antt` along, which `new` and `push` give.
#![tactic(auto)]

ghost use Rattle.std.specs.Prelude.{◌≡◌, ℕ, ◌+◌, ◌^◌, ◌<◌, ◌≤◌, List, [], ◌∷◌, ◌++◌, length, IsTrue, false};
ghost use Rattle.utf8_cut.specs.Characters.{ill_formed_at, with_offsets};
ghost use Rattle.utf8_cut.specs.Value.{CutState, between_characters};
ghost use Rattle.utf8_cut.specs.Inside.{state, IsSoundInside};
ghost use Rattle.std.specs.Char.{len_utf8};
ghost use Rattle.std.specs.Str.{IsAscii, IsUtf8, chars};
ghost use Rattle.utf8_cut.specs.Sequences.{SpellsCharacter, IsIllFormed};
ghost use Rattle.utf8_cut.specs.State.{StandsFor, IsPushed, IfChar, IfBad, state_after, character_given, bad_given};

use arrayvec::ArrayVec;
use sequence::Form;
use std::marker::Model;

mod ascii;
mod character;
mod laws;
mod reading;
mod sequence;
mod slice;

pub use ascii::ascii_len;
pub use character::{first_character, sized_character};
pub use laws::{
    any_bytes_may_follow, incomplete_sequences_begin_characters, text_may_stand_before,
    whole_characters_are_the_longest_text,
};
pub use slice::front;

/// What a byte made of the bytes before it.
#[derive(Clone, Copy, Debug, PartialEq, Eq)]
pub enum Cutting {
    /// No character is whole yet.
    More,
    /// A whole character, and the offset of its first byte.
    Char(char, u64),
    /// An ill-formed sequence was met, now or earlier: the offset of its first byte.
    Bad(u64),
}

/// Takes bytes one by one and gives the characters that they are as UTF-8.
#[derive(Drop)]
pub struct Cut {
    // the bytes of a character that is not whole yet
    held: ArrayVec<u8, 3>,
    // the offset of the character that is held, or of the ill-formed sequence that was met, else the count
    start: u64,
    // how many bytes were pushed
    count: u64,
    // an ill-formed sequence was met
    is_bad: bool,
}

impl Model for Cut {
    ghost Value = { CutState };

    ghost view = { state };

    ghost invariant = { IsSoundInside };
}

impl Cut {
    /// Holds nothing, before the first byte.
    pub fn new() -> Cut
        ensures empty { result ≡ between_characters 0 }
        ensures stands_for { StandsFor result [] [] }
    {
        Cut {
            held: ArrayVec::new(),
            start: 0,
            count: 0,
            is_bad: false,
        }
    }

    /// Takes the next byte. Once an ill-formed sequence was met, each push gives its offset again.
    #[inline]
    pub fn push(&mut self, byte: u8) -> Cutting
        requires { self.old.count < 2 ^ 62 }
        ensures stands_for { (taken : List ℕ) (given : List (ℕ × ℕ))
            → StandsFor self.old taken given
            → StandsFor self.new (taken ++ byte ∷ []) (given ++ character_given result) }
        ensures bad { (taken : List ℕ) (given : List (ℕ × ℕ)) → StandsFor self.old taken given
            → bad_given result ≡ ill_formed_at (taken ++ byte ∷ []) }
        ensures state { self.new ≡ state_after self.old byte result }
        ensures character { IfChar result (λ c at. SpellsCharacter (self.old.held ++ byte ∷ []) c) }
        ensures char_start { IfChar result (λ c at. at ≡ self.old.start) }
        ensures char_end { IfChar result (λ c at. at + len_utf8 c ≡ self.new.count) }
        ensures bad_start { IfBad result (λ at. at ≡ self.old.start) }
        ensures ill_formed { IfBad result (λ at. self.old.is_bad ≡ false
            → IsIllFormed (self.old.held ++ byte ∷ [])) }
        ensures again { IsTrue self.old.is_bad → result ≡ Cutting.Bad self.old.start }
    {
        if byte < 0x80 && self.start == self.count {
            let start = self.start;
            self.count += 1;
            self.start = self.count;
            return Cutting::Char(char::from(byte), start);
        }
        self.push_in_sequence(byte)
    }

    /// Takes `n` bytes at once that are whole characters, and leaves the value that as many pushes of
    /// them leave.
    ///
    /// Asked where no character is held and no ill-formed sequence was met, which is where
    /// [`held_start`](Cut::held_start) is [`count`](Cut::count).
    #[inline]
    pub fn take_characters(&mut self, n: u64)
        requires between { self.old.start ≡ self.old.count }
        requires fits { self.old.count + n ≤ 2 ^ 62 }
        ensures state { self.new ≡ between_characters (self.old.count + n) }
        ensures stands_for { (taken text : List ℕ) (given : List (ℕ × ℕ))
            → StandsFor self.old taken given → length text ≡ n → IsUtf8 text
            → StandsFor self.new (taken ++ text)
            (given ++ with_offsets self.old.count (chars text)) }
    {
        let end = self.count + n;
        self.start = end;
        self.count = end;
    }

    /// Takes `n` bytes below 80 hex at once, as [`take_characters`](Cut::take_characters) does.
    #[inline]
    pub fn take_ascii(&mut self, n: u64)
        requires between { self.old.start ≡ self.old.count }
        requires fits { self.old.count + n ≤ 2 ^ 62 }
        ensures state { self.new ≡ between_characters (self.old.count + n) }
        ensures stands_for { (taken bytes : List ℕ) (given : List (ℕ × ℕ))
            → StandsFor self.old taken given → length bytes ≡ n → IsAscii bytes
            → StandsFor self.new (taken ++ bytes)
            (given ++ with_offsets self.old.count bytes) }
    {
        self.take_characters(n);
    }

    // Takes any byte. `push` has a shorter way for ASCII between characters.
    fn push_in_sequence(&mut self, byte: u8) -> Cutting
        requires { self.old.count < 2 ^ 62 }
        ensures state { self.new ≡ state_after self.old byte result }
        ensures pushed { IsPushed self.old byte result }
    {
        let start = self.start;
        if self.is_bad {
            self.count += 1;
            return Cutting::Bad(self.start);
        }
        let form = sequence::continued(&self.held, byte);
        self.count += 1;
        match form {
            Form::Incomplete => {
                self.held.push(byte);
                Cutting::More
            }
            Form::WellFormed(c) => {
                self.held = ArrayVec::new();
                self.start = self.count;
                Cutting::Char(c, start)
            }
            Form::IllFormed => {
                self.held = ArrayVec::new();
                self.is_bad = true;
                Cutting::Bad(start)
            }
        }
    }
}
