//! Where the units of a letter's characters end: before which characters it can be taken by itself.
ghost use Rattle.std.specs.Prelude.{◌≡◌, ◌≢◌, ◌∷◌, [], ℕ, List, true, false, Option};
ghost use Rattle.collation_table.specs.Table.{TableMap};
ghost use Rattle.collation_pattern.specs.Compiled.{Compiled};
ghost use Rattle.collation_letters.specs.Apart.{IsNext};
ghost use Rattle.collation_letters.specs.Letters.{IsLetter, IsLetterAt, is_mark, ordered_from};
ghost use Rattle.collation_letters.specs.declared.letter.Role.TheVariants.{Steps};

use crate::laws::laws_of_characters;
use crate::letter::{Letter, Role};
use collation_elements::units_stay_apart;

/// Whether no unit reaches from the characters of a letter, which is not left to the steps, to the character that follows, and that
/// begins with a starter and is no mark, as far as is known. The symbols of neither are asked.
#[inline(always)]
pub fn is_next(letter: &Letter, following: &Letter) -> bool
    ensures apart { result ≡ true
        → (depth : Option ℕ) (table : TableMap) (pattern : Compiled) (at : ℕ) (cs : List ℕ)
        → (next : ℕ) → IsLetterAt depth table pattern (ordered_from 0 cs) letter.now
        → IsLetter table pattern (next ∷ []) following.now
        → IsNext table at cs next }
    ensures known { result ≡ true → (letter.now.role ≢ Steps) × (is_mark letter.now.role ≡ false) }
{
    units_stay_apart();
    laws_of_characters();
    match letter.role {
        // of most letters one question is enough
        Role::Plain => following.is_starter(),
        Role::Base | Role::VariableBase | Role::Silent => {
            following.is_starter() && (letter.is_closed || following.is_apart)
        }
        Role::Steps | Role::PrimaryMark | Role::Mark => false,
    }
}
