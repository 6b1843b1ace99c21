//! The conditions on a whole table (UTS #10, section 5: WF2, WF4 and WF5), each decided in one or two passes over the elements
//! or the mapped strings.
ghost use Rattle.std.specs.Prelude.{◌≡◌};
ghost use Rattle.collation_table.specs.WellFormed.{AreLinesSound, breaks_wf2, breaks_wf4, breaks_wf5, lacks_prefix, map_fault};
ghost use Rattle.collation_table.specs.Bounds.{second_bound, third_bound, variable_span};

use super::{Rows, points_at};
use crate::faults::{BREAKS_WF2, BREAKS_WF4, BREAKS_WF5, NO_ENTRY};
use crate::row_index::RowIndex;
use crate::starters::is_nonstarter;
use crate::well_formed::{
    IMPLICIT_SECOND, IMPLICIT_THIRD, any_too_light, any_within_span, greatest_second,
    greatest_third, variable_span,
};

impl<I: RowIndex> Rows<I> {
    /// The greatest second weight of the primary elements, those of implicit pairs included.
    fn greatest_second(&self) -> u16
        ensures { result ≡ second_bound self.now }
    {
        greatest_second(IMPLICIT_SECOND, self.elements.as_slice())
    }

    /// The greatest third weight of the primary and secondary elements, those of implicit pairs included.
    fn greatest_third(&self) -> u16
        ensures { result ≡ third_bound self.now }
    {
        greatest_third(IMPLICIT_THIRD, self.elements.as_slice())
    }

    /// The least and the greatest first weight of the variable elements.
    fn variable_span(&self) -> Option<(u16, u16)>
        ensures { result ≡ variable_span self.now }
    {
        variable_span(None, self.elements.as_slice())
    }

    fn breaks_wf2(&self) -> bool
        ensures { result ≡ breaks_wf2 self.now }
    {
        let second = self.greatest_second();
        let third = self.greatest_third();
        any_too_light(second, third, self.elements.as_slice())
    }

    fn breaks_wf4(&self) -> bool
        ensures { result ≡ breaks_wf4 self.now }
    {
        match self.variable_span() {
            Some((least, greatest)) => any_within_span(least, greatest, self.elements.as_slice()),
            None => false,
        }
    }

    /// Whether a mapped string of three code points or more ends in a non-starter, and is not mapped without it.
    fn lacks_prefix(&self, string: &[u32]) -> bool
        ensures { result ≡ lacks_prefix self.now string.now }
    {
        if string.len() < 3 {
            return false;
        }
        let prefix = string.len() - 1;
        is_nonstarter(string[prefix]) && !self.maps(&string[..prefix])
    }

    fn breaks_wf5(&self) -> bool
        ensures { result ≡ breaks_wf5 self.now }
    {
        for places in &self.places {
            if self.lacks_prefix(points_at(self.points.as_slice(), places.string)) {
                return true;
            }
        }
        false
    }

    /// The kind of the first condition on a whole table that is broken: no row, WF2, WF4, WF5, in this order.
    pub(crate) fn fault(&self) -> Option<u8>
        ensures fault { result ≡ map_fault self.now }
        ensures lines { AreLinesSound self.now }
    {
        if self.places.is_empty() {
            Some(NO_ENTRY)
        } else if self.breaks_wf2() {
            Some(BREAKS_WF2)
        } else if self.breaks_wf4() {
            Some(BREAKS_WF4)
        } else if self.breaks_wf5() {
            Some(BREAKS_WF5)
        } else {
            None
        }
    }
}
