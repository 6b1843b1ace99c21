//! Worked rows: characters of small tables, and whether they are safe, one row a function, proved by computing.

ghost use Rattle.collation_safe.specs.WorkedRows.{CharactersWithoutRows, ContractionOfLetters, EachLetterContinuesAString, IgnorableString, MarksAndIgnorables, OffsetsOfText, VowelsBeforeConsonants};

/// `c` is safe, and `h`, the second letter of the contraction `ch`, is not.
pub fn contraction_of_letters()
    ensures { ContractionOfLetters }
{}

/// No mark is safe, and no ignorable character.
pub fn marks_and_ignorables()
    ensures { MarksAndIgnorables }
{}

/// Hangul, ideographs and others without rows are safe.
pub fn characters_without_rows()
    ensures { CharactersWithoutRows }
{}

/// A vowel of Thai or Lao before a consonant is safe, and the consonant is not.
pub fn vowels_before_consonants()
    ensures { VowelsBeforeConsonants }
{}

/// Where each letter is the second of a contraction none is safe.
pub fn each_letter_continues_a_string()
    ensures { EachLetterContinuesAString }
{}

/// A letter is not safe where a contraction that begins with it is ignorable.
pub fn ignorable_string()
    ensures { IgnorableString }
{}

/// The safe offsets of `ach`.
pub fn offsets_of_text()
    ensures { OffsetsOfText }
{}
