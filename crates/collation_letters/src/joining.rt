//! A mark joins the letter before it.
ghost use Rattle.std.specs.Prelude.{◌≡◌, ◌≢◌, ◌∷◌, ◌++◌, ℕ, List, [], true, Option, IfSome};
ghost use Rattle.nfd_points.specs.declared.points.Point.{Point as PointValue};
ghost use Rattle.collation_table.specs.Table.{TableMap};
ghost use Rattle.collation_pattern.specs.Compiled.{Compiled};
ghost use Rattle.collation_letters.specs.Letters.{IsLetter, IsLetterAt, IsLetterOf, begins_cluster, is_mark};
ghost use Rattle.collation_letters.specs.declared.letter.Role.TheVariants.{Plain};
ghost use Rattle.collation_letters.specs.Joining.{IsOfBoth, Joins};

use crate::letter::{Letter, Role};
use crate::symbols::Symbols;
use nfd_points::laws::laws_of_points;

/// The most points of a letter: so many non-starters in a row are no fault.
pub const MOST_POINTS: u8 = 30;

impl Letter {
    /// The letter of these characters and a mark that follows them; `None` where that isn't said so: where a unit may reach from one to
    /// the other, the mark is a non-starter of a class below that of the last point, so that it goes before it, or there is no room.
    #[inline(always)]
    pub fn with_mark(self, mark: Letter) -> Option<Letter>
        ensures letter { IfSome result (λ both.
            (table : TableMap) (pattern : Compiled) (cs : List ℕ) (c : ℕ)
            → IsLetter table pattern cs self → IsLetter table pattern (c ∷ []) mark
            → IsLetter table pattern (cs ++ c ∷ []) both) }
        ensures points { IfSome result (λ both.
            (depth : Option ℕ) (table : TableMap) (pattern : Compiled)
            → (ps : List PointValue) (q : PointValue)
            → IsLetterAt depth table pattern ps self → IsLetterOf table pattern (q ∷ []) mark
            → IsLetterAt depth table pattern (ps ++ q ∷ []) both) }
        ensures begins { IfSome result (λ both. begins_cluster both.role ≡ true) }
        ensures mark { IfSome result (λ both. is_mark mark.role ≡ true) }
        ensures closed { IfSome result (λ both. both.is_closed ≡ true) }
    {
        laws_of_points();
        if !self.is_closed || !mark.is_closed {
            return None;
        }
        let both = letter_of_both(self, mark)?;
        Some(both.settled())
    }
}

/// The letter of points and a mark behind them, as if no unit reached from one to the other: as closed as that of the points, not plain.
#[inline(always)]
pub(crate) fn letter_of_both(base: Letter, mark: Letter) -> Option<Letter>
    ensures { IfSome result (IsOfBoth base mark) }
{
    if (mark.class != 0 && mark.class < base.class) || base.points >= MOST_POINTS {
        return None;
    }
    let (role, symbols) = joined(base, mark)?;
    Some(Letter {
        role,
        points: base.points + 1,
        class: mark.class,
        symbols,
        ..base
    })
}

/// The role and the symbols of a letter that begins a cluster and a mark that follows it.
#[inline(always)]
fn joined(base: Letter, mark: Letter) -> Option<(Role, Symbols)>
    ensures joins { IfSome result (Joins base mark) }
    ensures other { IfSome result (λ both. both.0 ≢ Plain) }
{
    match (base.role, mark.role) {
        (Role::Plain, Role::PrimaryMark) => {
            Some((Role::Base, base.symbols.with_all(mark.symbols)?))
        }
        (Role::Plain, Role::Mark) => Some((Role::Base, base.symbols.with_all(mark.symbols)?)),
        (Role::Base, Role::PrimaryMark) => {
            Some((Role::Base, base.symbols.with_all(mark.symbols)?))
        }
        (Role::Base, Role::Mark) => Some((Role::Base, base.symbols.with_all(mark.symbols)?)),
        (Role::VariableBase, Role::PrimaryMark) => {
            Some((Role::Base, base.symbols.with_all(mark.symbols)?))
        }
        (Role::VariableBase, Role::Mark) => Some((Role::VariableBase, base.symbols)),
        _ => None,
    }
}
