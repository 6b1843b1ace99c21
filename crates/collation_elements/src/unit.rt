//! A unit of a text, with its collation elements.
ghost use Rattle.std.specs.Prelude.{◌≡◌, ◌≢◌, ◌<◌, ◌≤◌, [], ◌∷◌, length, option_copied, unwrap_or, None, IfSome, IfNone};
ghost use Rattle.collation_table.specs.Table.{row_of, implicit_pair};
ghost use Rattle.collation_table.specs.declared.limits.TheConstants.{MOST_ROW_ELEMENTS};
ghost use Rattle.collation_elements.specs.UnitValues.{UnitValue};

use collation_table::{Element, MOST_ROW_ELEMENTS, Weights};
use nfd_points::Point;
use std::marker::Model;

/// What stands in the place of an implicit pair that is not asked for.
const NO_ELEMENT: Element = Element {
    is_variable: false,
    w1: 0,
    w2: 0,
    w3: 0,
};

const NO_PAIR: [Element; 2] = [NO_ELEMENT, NO_ELEMENT];

/// The points that one collation element mapping takes (UTS #10, S2.1), seen as the first of them and the elements.
#[derive(Drop)]
pub struct Unit<'t> {
    first_point: Point,
    /// The row of the table, if it has one. It lies beside the pair, and not in one place with it: so neither is put together from parts
    /// in memory.
    row: Option<&'t [Element]>,
    /// The implicit pair of a point that has no row.
    pair: [Element; 2],
}

impl<'t> Model for Unit<'t> {
    ghost Value = { UnitValue };

    ghost view = { λ u. record {
      first_point = u.first_point;
      elements = unwrap_or (option_copied u.row) u.pair;
    } };

    ghost invariant = { λ u. length (unwrap_or (option_copied u.row) u.pair) ≤ MOST_ROW_ELEMENTS };
}

impl<'t> Unit<'t> {
    /// The unit of the code points `string`, of which `first_point` is the first.
    #[inline(always)]
    pub(crate) fn new<W: Weights>(table: &'t W, first_point: Point, string: &[u32]) -> Self
        requires { first_point.cp < 0x110000 }
        ensures first_point { result.first_point ≡ first_point }
        ensures elements { let pair = implicit_pair (W.table table.now) first_point.cp in
            result.elements ≡ unwrap_or (row_of (W.table table.now) string.now) pair }
    {
        let row = table.row(string);
        let pair = match row {
            Some(_) => NO_PAIR,
            None => table.implicit(first_point.cp),
        };
        Unit {
            first_point,
            row,
            pair,
        }
    }

    /// The unit of one point, of which the table has this row, or none.
    #[inline(always)]
    pub(crate) fn of_one<W: Weights>(table: &'t W, point: Point, row: Option<&'t [Element]>) -> Self
        requires code_point { point.cp < 0x110000 }
        requires row { option_copied row ≡ row_of (W.table table.now) (point.cp ∷ []) }
        ensures first_point { result.first_point ≡ point }
        ensures elements { let pair = implicit_pair (W.table table.now) point.cp in
            result.elements ≡ unwrap_or (row_of (W.table table.now) (point.cp ∷ [])) pair }
    {
        let pair = match row {
            Some(_) => NO_PAIR,
            None => table.implicit(point.cp),
        };
        Unit {
            first_point: point,
            row,
            pair,
        }
    }

    /// The unit's first point.
    #[inline(always)]
    pub fn first_point(&self) -> Point
        ensures { result ≡ self.now.first_point }
    {
        self.first_point
    }

    /// The unit's only element, where it has a row of one.
    #[inline(always)]
    pub(crate) fn only_element(&self) -> Option<Element>
        ensures element { IfSome result (λ e. self.now.elements ≡ e ∷ []) }
        ensures none { IfNone result (length self.now.elements ≢ 1) }
    {
        match self.row {
            Some([e]) => Some(*e),
            Some(_) => None,
            None => none_of_two(&self.pair),
        }
    }

    /// The implicit pair that the unit has in place of a row.
    #[inline(always)]
    pub(crate) fn pair(&self) -> Option<[Element; 2]>
        ensures { IfSome result (λ pair. self.now.elements ≡ pair) }
    {
        match self.row {
            Some(_) => None,
            None => Some(self.pair),
        }
    }

    /// The unit's collation elements before variable weighting (UTS #10, S2.2): the row of the table or, where the unit has
    /// none, the implicit pair of its one point.
    #[inline(always)]
    pub fn elements(&self) -> &[Element]
        ensures value { result.now ≡ self.now.elements }
        ensures few { length result.now ≤ MOST_ROW_ELEMENTS }
    {
        match self.row {
            Some(row) => row,
            None => &self.pair,
        }
    }
}

/// Of two elements none is the only one.
#[inline(always)]
fn none_of_two(pair: &[Element; 2]) -> Option<Element>
    ensures none { result ≡ None }
    ensures two { length pair.now ≡ 2 }
{
    let _two = *pair;
    None
}
