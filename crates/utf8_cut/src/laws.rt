// Laws of the definitions, for crates that carry a `Cut` or cut a text: each is a function whose
// body is empty and whose contract is the law.
ghost use Rattle.std.specs.Prelude.{◌≡◌, ℕ, ◌+◌, ◌<◌, ◌≤◌, ◌↔◌, List, [], ◌++◌, length, take, Some, IsTrue, if◌then◌else◌};
ghost use Rattle.std.specs.Option.{option_map};
ghost use Rattle.std.specs.Str.{IsUtf8};
ghost use Rattle.utf8_cut.specs.Characters.{after_characters, characters, characters_end, characters_from, first_fault, ill_formed_at, is_incomplete_sequence, is_utf8_prefix};
ghost use Rattle.utf8_cut.specs.Sequences.{BeginsCharacter};
ghost use Rattle.utf8_cut.specs.State.{StandsFor, IsPrefix};
ghost use Rattle.utf8_cut.specs.Value.{CutState};

/// What a [`Cut`](crate::Cut) gave begins the characters of the bytes pushed, whatever bytes
/// follow, and what it holds says the other characters and the fault.
pub fn any_bytes_may_follow()
    ensures begins { (cut : CutState) (taken more : List ℕ) (given : List (ℕ × ℕ))
        → StandsFor cut taken given → IsPrefix given (characters (taken ++ more)) }
    ensures characters { (cut : CutState) (taken more : List ℕ) (given : List (ℕ × ℕ))
        → StandsFor cut taken given
        → characters (taken ++ more)
        ≡ given ++ (if cut.is_bad then [] else characters_from cut.start (cut.held ++ more)) }
    ensures fault { (cut : CutState) (taken more : List ℕ) (given : List (ℕ × ℕ))
        → StandsFor cut taken given
        → first_fault (taken ++ more)
        ≡ (if cut.is_bad then Some cut.start
        else option_map (λ at. cut.start + at) (first_fault (cut.held ++ more))) }
    ensures stays_bad { (cut : CutState) (taken more : List ℕ) (given : List (ℕ × ℕ))
        → StandsFor cut taken given → IsTrue cut.is_bad
        → ill_formed_at (taken ++ more) ≡ Some cut.start }
{}

/// The characters of a text with bytes after it are those of the text and those of the bytes.
pub fn text_may_stand_before()
    ensures characters { (from : ℕ) (text bytes : List ℕ) → IsUtf8 text
        → characters_from from (text ++ bytes)
        ≡ characters_from from text ++ characters_from (from + length text) bytes }
    ensures end { (text bytes : List ℕ) → IsUtf8 text
        → characters_end (text ++ bytes) ≡ length text + characters_end bytes }
    ensures rest { (text bytes : List ℕ) → IsUtf8 text
        → after_characters (text ++ bytes) ≡ after_characters bytes }
    ensures fault { (text bytes : List ℕ) → IsUtf8 text
        → first_fault (text ++ bytes) ≡ option_map (λ at. length text + at) (first_fault bytes) }
{}

/// The whole characters of bytes are a text, and the longest one that begins the bytes.
pub fn whole_characters_are_the_longest_text()
    ensures text { (bytes : List ℕ) → IsUtf8 (take (characters_end bytes) bytes) }
    ensures longest { (bytes : List ℕ) (n : ℕ)
        → n ≤ length bytes → IsUtf8 (take n bytes) → n ≤ characters_end bytes }
    ensures within { (bytes : List ℕ) → characters_end bytes ≤ length bytes }
{}

/// An incomplete sequence is what some bytes, one at least, make a character.
pub fn incomplete_sequences_begin_characters()
    ensures { (bytes : List ℕ) → IsTrue (is_incomplete_sequence bytes) ↔ BeginsCharacter bytes }
{}
