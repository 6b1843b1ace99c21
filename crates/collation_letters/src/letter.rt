//! A letter: what is known of a character, or of one with marks behind it.
ghost use Rattle.std.specs.Prelude.{◌≡◌, ◌<◌, ◌↔◌, ℕ, List, true, false, Option, IsTrue};
ghost use Rattle.nfd_points.specs.Points.{begins_with_starter, points_from};
ghost use Rattle.nfd_points.specs.declared.points.Point.{Point as PointValue};
ghost use Rattle.collation_table.specs.Table.{TableMap};
ghost use Rattle.collation_pattern.specs.Compiled.{Compiled};
ghost use Rattle.collation_letters.specs.declared.letter.Role.TheVariants.{Steps};
ghost use Rattle.collation_letters.specs.Letters.{IsClean, IsLetter, IsLetterAt, begins_cluster, flag_after, is_mark};

use crate::symbols::{FOREIGN, NO_SYMBOL, NO_SYMBOLS, Symbols};

/// What a search does with a character.
#[derive(Clone, Copy, Debug, PartialEq, Eq)]
pub enum Role {
    /// Nothing is known: it is left to the steps.
    Steps,
    /// As a base, and no unit reaches from it to what follows, and it has one symbol or none. Most characters have this role, so that
    /// few questions are asked of them.
    Plain,
    /// It begins a cluster. After it the last element that was variable or primary is not variable.
    Base,
    /// It begins a cluster. After it, in shifted weighting, the last element that was variable or primary is variable.
    VariableBase,
    /// It begins with a starter, begins no cluster and has no key.
    Silent,
    /// A mark: one point, a non-starter, or a starter that begins no cluster and has a key. Its keys count whatever stands before it.
    /// After it the last element that was variable or primary is not variable.
    PrimaryMark,
    /// A mark whose keys do not count where the last element that was variable or primary was variable, in shifted weighting.
    Mark,
}

/// What is known of characters that stand together: one, or one and the marks behind it.
#[derive(Clone, Copy, Debug, PartialEq, Eq)]
pub struct Letter {
    /// What a search does with them. What follows but the first two says nothing where that is left to the steps.
    pub role: Role,
    /// Whether no unit reaches from them to what follows.
    pub is_closed: bool,
    /// Whether no unit reaches into them, as they begin with a starter that stands in no mapped string after the first place.
    pub is_apart: bool,
    /// How many points they have, or, of a letter that is right at one depth alone, at most.
    pub points: u8,
    /// The canonical combining class of the last point.
    pub class: u8,
    /// The symbols of their keys, as far as a search has to know them.
    pub symbols: Symbols,
}

/// Nothing is known.
pub const UNKNOWN: Letter = Letter {
    role: Role::Steps,
    is_closed: false,
    is_apart: false,
    points: 0,
    class: 0,
    symbols: NO_SYMBOLS,
};

impl Role {
    /// Whether a cluster begins here.
    #[inline(always)]
    pub fn begins_cluster(self) -> bool
        ensures { result ≡ begins_cluster self }
    {
        matches!(self, Role::Plain | Role::Base | Role::VariableBase)
    }

    /// Whether, after characters of the role, the last element that was variable or primary was variable, in shifted weighting.
    #[inline(always)]
    pub fn flag_after(self, after_variable: bool) -> bool
        ensures { result ≡ flag_after self after_variable }
    {
        match self {
            Role::Plain | Role::Base | Role::PrimaryMark => false,
            Role::VariableBase => true,
            Role::Steps | Role::Silent | Role::Mark => after_variable,
        }
    }

    /// Whether characters of the role are left to the steps.
    #[inline(always)]
    pub fn is_steps(self) -> bool
        ensures { IsTrue result ↔ (self ≡ Steps) }
    {
        matches!(self, Role::Steps)
    }

    /// Whether it is a mark: it joins the letter before it.
    #[inline(always)]
    pub fn is_mark(self) -> bool
        ensures { result ≡ is_mark self }
    {
        matches!(self, Role::PrimaryMark | Role::Mark)
    }
}

impl Letter {
    /// Whether its characters are known to begin with a starter, and are no mark.
    #[inline(always)]
    pub fn is_starter(&self) -> bool
        ensures { result ≡ true → (table : TableMap) (pattern : Compiled) (cs : List ℕ)
            → IsLetter table pattern cs self.now
            → begins_with_starter (points_from 0 cs) ≡ true }
    {
        match self.role {
            Role::Plain | Role::Base | Role::VariableBase | Role::Silent => true,
            Role::Steps | Role::PrimaryMark | Role::Mark => self.is_apart,
        }
    }

    /// Whether it is a cluster out of which no unit reaches, with a last key that the pattern does not have.
    #[inline(always)]
    pub fn is_clean(&self) -> bool
        ensures { result ≡ true → IsClean self.now }
    {
        match self.role {
            Role::Plain => self.symbols.third == FOREIGN,
            _ => false,
        }
    }

    /// Whether it begins a cluster, has a last key, and leaves no variable element behind.
    #[inline(always)]
    pub fn has_last_key(&self) -> bool
        ensures begins { result ≡ true → begins_cluster self.now.role ≡ true }
        ensures flag { result ≡ true → flag_after self.now.role false ≡ false }
        ensures flag_after { result ≡ true → flag_after self.now.role true ≡ false }
        ensures some { result ≡ true → self.now.symbols.third < 255 }
    {
        match self.role {
            Role::Plain | Role::Base => self.symbols.third != NO_SYMBOL,
            _ => false,
        }
    }

    /// The same letter, without what is known of units that reach into it: fewer letters differ so.
    pub fn without_apart(self) -> Letter
        ensures letter { (table : TableMap) (pattern : Compiled) (cs : List ℕ)
            → IsLetter table pattern cs self → IsLetter table pattern cs result }
        ensures same { result ≡ record self { is_apart = false } }
    {
        Letter {
            is_apart: false,
            ..self
        }
    }

    /// The same letter, plain if it can be.
    #[inline(always)]
    pub fn settled(self) -> Letter
        ensures letter { (table : TableMap) (pattern : Compiled) (cs : List ℕ)
            → IsLetter table pattern cs self → IsLetter table pattern cs result }
        ensures points { (depth : Option ℕ) (table : TableMap) (pattern : Compiled)
            → (ps : List PointValue)
            → IsLetterAt depth table pattern ps self → IsLetterAt depth table pattern ps result }
        ensures begins { begins_cluster self.role ≡ true → begins_cluster result.role ≡ true }
        ensures closed { result.is_closed ≡ self.is_closed }
    {
        if self.role != Role::Base
            || !self.is_closed
            || self.symbols.first != NO_SYMBOL
            || self.symbols.second != NO_SYMBOL
        {
            return self;
        }
        Letter {
            role: Role::Plain,
            ..self
        }
    }
}
