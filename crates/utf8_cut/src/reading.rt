// Reading a `Cut`, and making one of what was read: how far it has come, where a fault stands if
// the bytes end here, and which bytes it holds.
ghost use Rattle.std.specs.Prelude.{◌≡◌, ℕ, ◌-◌, ◌≤◌, false, List, length, IsTrue, None, Some, ◌==◌, if◌then◌else◌};
ghost use Rattle.utf8_cut.specs.Characters.{characters_end, first_fault, is_incomplete_or_empty};
ghost use Rattle.utf8_cut.specs.State.{StandsFor};
ghost use Rattle.utf8_cut.specs.Value.{CutState, IsSoundCut};

use crate::{Cut, sequence};
use arrayvec::ArrayVec;

impl Cut {
    /// How many bytes were pushed.
    pub fn count(&self) -> u64
        ensures value { result ≡ self.now.count }
        ensures stands_for { (taken : List ℕ) (given : List (ℕ × ℕ))
            → StandsFor self.now taken given → result ≡ length taken }
        ensures sound { IsSoundCut self.now }
    {
        self.count
    }

    /// The offset of the character that is held or, once an ill-formed sequence was met, of that
    /// sequence, else the count.
    pub fn held_start(&self) -> u64
        ensures value { result ≡ self.now.start }
        ensures within { result ≤ self.now.count }
        ensures stands_for { (taken : List ℕ) (given : List (ℕ × ℕ))
            → StandsFor self.now taken given → result ≡ characters_end taken }
    {
        self.start
    }

    /// Where the bytes end here, the offset of an incomplete sequence at the end, or of the
    /// ill-formed sequence that was met.
    pub fn finish(&self) -> Option<u64>
        ensures value { result
            ≡ (if self.now.start == self.now.count then None else Some self.now.start) }
        ensures stands_for { (taken : List ℕ) (given : List (ℕ × ℕ))
            → StandsFor self.now taken given → result ≡ first_fault taken }
    {
        if self.start == self.count {
            None
        } else {
            Some(self.start)
        }
    }

    /// The bytes of the character that is not whole yet, at most three: none between characters,
    /// and none once an ill-formed sequence was met.
    pub fn held(&self) -> &[u8]
        ensures value { result.now ≡ self.now.held }
        ensures may_be_held { IsTrue (is_incomplete_or_empty result.now) }
        ensures within { length result.now ≤ self.now.count }
    {
        self.held.as_slice()
    }

    /// Whether these bytes may be held: none, or an incomplete sequence of one to three bytes that
    /// further bytes can make a character.
    pub fn may_hold(bytes: &[u8]) -> bool
        ensures { result ≡ is_incomplete_or_empty bytes.now }
    {
        sequence::is_incomplete_or_empty(bytes)
    }

    /// The value after `count` bytes that holds the last of them, as [`count`](Cut::count) and
    /// [`held`](Cut::held) reported them for a value that had met no ill-formed sequence.
    pub fn restore(count: u64, held: &[u8]) -> Cut
        requires may_be_held { IsTrue (is_incomplete_or_empty held.now) }
        requires within { length held.now ≤ count }
        ensures state { result ≡ record {
          held = held.now;
          start = count - length held.now;
          count = count;
          is_bad = false;
        } }
        ensures stands_for { (cut : CutState) (taken : List ℕ) (given : List (ℕ × ℕ))
            → StandsFor cut taken given → cut.is_bad ≡ false → cut.held ≡ held.now
            → cut.count ≡ count
            → StandsFor result taken given }
    {
        let mut bytes = ArrayVec::new();
        bytes.try_extend_from_slice(held).unwrap();
        Cut {
            held: bytes,
            start: count - held.len() as u64,
            count,
            is_bad: false,
        }
    }
}
