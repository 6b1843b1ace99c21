//! A letter whose last marks are known apart: a mark of a lower class goes before them, as canonical ordering has it.
ghost use Rattle.std.specs.Prelude.{◌≡◌, ◌<◌, ◌∷◌, ◌++◌, ℕ, List, [], true, false, Option, IfSome};
ghost use Rattle.nfd_points.specs.Points.{ordered, points_from, points_of};
ghost use Rattle.nfd_points.specs.declared.points.Point.{Point as PointValue};
ghost use Rattle.collation_table.specs.Table.{TableMap, ContinuesNoString};
ghost use Rattle.collation_pattern.specs.Compiled.{Compiled};
ghost use Rattle.collation_letters.specs.Clusters.{ContinuesNone, IsCluster, IsClusterAt, IsMarkOrNone};
ghost use Rattle.collation_letters.specs.Letters.{IsLetter, IsLetterAt, IsLetterOf, begins_cluster, is_mark, ordered_from};

use crate::joining::letter_of_both;
use crate::letter::{Letter, UNKNOWN};
use collation_table::Weights;
use nfd_points::laws::laws_of_points;
use nfd_points::{Point, points_of_character};

/// A letter, and its last two marks, where they are known.
#[derive(Clone, Copy, Debug)]
pub struct Cluster {
    /// The letter of all its points.
    pub letter: Letter,
    /// The letter of all but those of the last two marks that are known.
    pub base: Letter,
    /// The mark before the last one, or what is no mark.
    pub before: Letter,
    /// The last mark, or what is no mark.
    pub last: Letter,
}

impl Cluster {
    /// A letter of which no mark is known apart.
    pub fn new(letter: Letter) -> Cluster
        ensures cluster { (depth : Option ℕ) (table : TableMap) (pattern : Compiled)
            → (ps : List PointValue) → IsLetterAt depth table pattern ps letter
            → IsClusterAt depth table pattern ps result }
        ensures letter { result.letter ≡ letter }
    {
        Cluster {
            letter,
            base: letter,
            before: UNKNOWN,
            last: UNKNOWN,
        }
    }

    /// That of these characters and a mark `c` that follows them, wherever canonical ordering has it; `None` where that is left to the
    /// steps. Where a unit may reach out of them, the mark has to stand in no mapped string after the first place.
    pub fn with_mark<W: Weights>(self, table: &W, c: char, mark: Letter) -> Option<Cluster>
        ensures cluster { IfSome result (λ both.
            (depth : Option ℕ) (pattern : Compiled) (cs : List ℕ)
            → IsClusterAt depth (W.table table.now) pattern (ordered_from 0 cs) self
            → IsLetter (W.table table.now) pattern (c ∷ []) mark
            → IsClusterAt depth (W.table table.now) pattern (ordered_from 0 (cs ++ c ∷ [])) both) }
        ensures letter { IfSome result (λ both. (pattern : Compiled) (cs : List ℕ)
            → IsCluster (W.table table.now) pattern (ordered_from 0 cs) self
            → IsLetter (W.table table.now) pattern (c ∷ []) mark
            → IsLetter (W.table table.now) pattern (cs ++ c ∷ []) both.letter) }
    {
        laws_of_points();
        if !mark.role.is_mark() {
            return None;
        }
        if !self.base.is_closed && !is_outer(table, c) {
            return None;
        }
        let both = self.placed(mark)?;
        Some(Cluster {
            letter: both.letter.without_apart(),
            ..both
        })
    }

    /// The same of points.
    fn placed(self, mark: Letter) -> Option<Cluster>
        ensures { IfSome result (λ both.
            (depth : Option ℕ) (table : TableMap) (pattern : Compiled)
            → (ps : List PointValue) (q : PointValue)
            → (self.base.is_closed ≡ false → ContinuesNoString table q.cp)
            → IsClusterAt depth table pattern ps self → IsLetterOf table pattern (q ∷ []) mark
            → IsClusterAt depth table pattern (ordered (ps ++ q ∷ [])) both) }
    {
        if let Some(letter) = join(self.letter, mark) {
            return self.behind(letter, mark);
        }
        if !goes_before(&mark, &self.last) {
            return None;
        }
        if goes_before(&mark, &self.before) {
            return self.before_both(mark);
        }
        self.before_last(mark)
    }

    /// The same with a mark behind the others, with which it has this letter. None goes before one of class 0.
    fn behind(self, letter: Letter, mark: Letter) -> Option<Cluster>
        requires mark { is_mark mark.role ≡ true }
        requires closed { letter.is_closed ≡ self.letter.is_closed }
        ensures { IfSome result (λ both.
            (depth : Option ℕ) (table : TableMap) (pattern : Compiled)
            → (ps : List PointValue) (q : PointValue)
            → (self.base.is_closed ≡ false → ContinuesNoString table q.cp)
            → IsClusterAt depth table pattern ps self → IsLetterOf table pattern (q ∷ []) mark
            → IsLetterAt depth table pattern (ps ++ q ∷ []) letter
            → IsClusterAt depth table pattern (ps ++ q ∷ []) both) }
    {
        if mark.class == 0 {
            return Some(Cluster {
                letter,
                base: letter,
                before: UNKNOWN,
                last: UNKNOWN,
            });
        }
        let base = self.with_before()?;
        Some(Cluster {
            letter,
            base,
            before: self.last,
            last: mark,
        })
    }

    /// The same with a mark between the last two.
    fn before_last(self, mark: Letter) -> Option<Cluster>
        requires mark { is_mark mark.role ≡ true }
        requires last { is_mark self.last.role ≡ true }
        requires some { 0 < mark.class }
        requires below { mark.class < self.last.class }
        ensures { IfSome result (λ both.
            (depth : Option ℕ) (table : TableMap) (pattern : Compiled)
            → (ps : List PointValue) (q : PointValue)
            → (self.base.is_closed ≡ false → ContinuesNoString table q.cp)
            → IsClusterAt depth table pattern ps self → IsLetterOf table pattern (q ∷ []) mark
            → IsClusterAt depth table pattern (ordered (ps ++ q ∷ [])) both) }
    {
        let base = self.with_before()?;
        let inner = join(base, mark)?;
        let letter = join(inner, self.last)?;
        Some(Cluster {
            letter,
            base,
            before: mark,
            ..self
        })
    }

    /// The same with a mark before the last two.
    fn before_both(self, mark: Letter) -> Option<Cluster>
        requires mark { is_mark mark.role ≡ true }
        requires last { is_mark self.last.role ≡ true }
        requires before { is_mark self.before.role ≡ true }
        requires some { 0 < mark.class }
        requires below_last { mark.class < self.last.class }
        requires below { mark.class < self.before.class }
        ensures { IfSome result (λ both.
            (depth : Option ℕ) (table : TableMap) (pattern : Compiled)
            → (ps : List PointValue) (q : PointValue)
            → (self.base.is_closed ≡ false → ContinuesNoString table q.cp)
            → IsClusterAt depth table pattern ps self → IsLetterOf table pattern (q ∷ []) mark
            → IsClusterAt depth table pattern (ordered (ps ++ q ∷ [])) both) }
    {
        let base = join(self.base, mark)?;
        let inner = join(base, self.before)?;
        let letter = join(inner, self.last)?;
        Some(Cluster {
            letter,
            base,
            ..self
        })
    }

    /// The letter of the base and the mark before the last one, if it is known.
    fn with_before(self) -> Option<Letter>
        ensures letter { IfSome result (λ letter.
            (depth : Option ℕ) (table : TableMap) (pattern : Compiled)
            → (first before : List PointValue)
            → IsLetterAt depth table pattern first self.base
            → IsMarkOrNone table pattern before self.before self.base.is_closed
            → IsLetterAt depth table pattern (first ++ before) letter) }
        ensures closed { IfSome result (λ letter. letter.is_closed ≡ self.base.is_closed) }
    {
        if self.before.role.is_mark() {
            join(self.base, self.before)
        } else {
            Some(self.base)
        }
    }
}

/// The letter of points and a mark behind them, which stands in no mapped string after the first place where a unit may reach out of them.
fn join(letter: Letter, mark: Letter) -> Option<Letter>
    ensures points { IfSome result (λ both.
        (depth : Option ℕ) (table : TableMap) (pattern : Compiled)
        → (ps : List PointValue) (q : PointValue)
        → (letter.is_closed ≡ false → ContinuesNoString table q.cp)
        → IsLetterAt depth table pattern ps letter → IsLetterOf table pattern (q ∷ []) mark
        → IsLetterAt depth table pattern (ps ++ q ∷ []) both) }
    ensures begins { IfSome result (λ both. begins_cluster both.role ≡ true) }
    ensures mark { IfSome result (λ both. is_mark mark.role ≡ true) }
    ensures closed { IfSome result (λ both. both.is_closed ≡ letter.is_closed) }
{
    if letter.is_closed {
        letter.with_mark(mark)
    } else {
        letter_of_both(letter, mark)
    }
}

/// Whether a mark goes before another one that stands before it.
fn goes_before(mark: &Letter, other: &Letter) -> bool
    ensures mark { result ≡ true → is_mark mark.now.role ≡ true }
    ensures other { result ≡ true → is_mark other.now.role ≡ true }
    ensures some { result ≡ true → 0 < mark.now.class }
    ensures below { result ≡ true → mark.now.class < other.now.class }
{
    mark.role.is_mark() && other.role.is_mark() && 0 < mark.class && mark.class < other.class
}

/// Whether a character is one point that stands in no mapped string after the first place: no unit reaches over a letter into it.
fn is_outer<W: Weights>(table: &W, c: char) -> bool
    ensures { result ≡ true → ContinuesNone (W.table table.now) (points_from 0 (c ∷ [])) }
{
    match lone_point(c) {
        Some(point) => !table.continues_string(point.cp),
        None => false,
    }
}

/// The only point of a character.
fn lone_point(c: char) -> Option<Point>
    ensures { IfSome result (λ p. points_of 0 c ≡ p ∷ []) }
{
    let points = points_of_character(c, 0);
    match points.as_slice() {
        [point] => Some(*point),
        _ => None,
    }
}
