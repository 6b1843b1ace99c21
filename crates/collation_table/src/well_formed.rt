//! Tests of well-formedness (UTS #10, section 5): those of one row, and those of a row against bounds that hold for the whole
//! table. Each `breaks_` is true where the condition is broken.
ghost use Rattle.std.specs.Prelude.{◌≡◌, fold};
ghost use Rattle.std.specs.List.{list_any};
ghost use Rattle.collation_table.specs.WellFormed.{breaks_wf1, breaks_wf3, breaks_pair_rule};
ghost use Rattle.collation_table.specs.Bounds.{higher_second, higher_third, wider_span, is_too_light, is_within_span, is_unusual};

use crate::elements::Element;

/// The secondary and the tertiary weight of implicit pairs, which any text may have.
pub(crate) const IMPLICIT_SECOND: u16 = 0x20;

pub(crate) const IMPLICIT_THIRD: u16 = 2;

/// WF1: an element has a weight that is not zero at a level, and zero at the next.
pub fn breaks_wf1(row: &[Element]) -> bool
    ensures { result ≡ breaks_wf1 row.now }
{
    row.iter().any(|element| element.skips_level())
}

/// WF3: a variable element has the first weight zero.
pub fn breaks_wf3(row: &[Element]) -> bool
    ensures { result ≡ breaks_wf3 row.now }
{
    row.iter()
        .any(|element| element.is_variable && element.w1 == 0)
}

/// A lead has no follower after it, a follower stands elsewhere, or a variable first weight is as high as a lead's.
pub fn breaks_pair_rule(row: &[Element]) -> bool
    ensures { result ≡ breaks_pair_rule row.now }
{
    let mut after_lead = false;
    for element in row {
        if after_lead != element.is_follower() || element.is_high_variable() {
            return true;
        }
        after_lead = element.is_lead();
    }
    after_lead
}

/// Whether an element of a row is unusual. Where none is, the row breaks none of the conditions on a row.
pub(crate) fn any_unusual(row: &[Element]) -> bool
    ensures { result ≡ list_any is_unusual row.now }
{
    row.iter().any(|element| element.is_unusual())
}

/// The greatest second weight of the primary elements of a row, or `most` if that is greater.
pub(crate) fn greatest_second(most: u16, row: &[Element]) -> u16
    ensures { result ≡ fold higher_second most row.now }
{
    let mut greatest = most;
    for element in row {
        if element.is_primary() {
            greatest = greatest.max(element.w2);
        }
    }
    greatest
}

/// The greatest third weight of the primary and secondary elements of a row, or `most` if that is greater.
pub(crate) fn greatest_third(most: u16, row: &[Element]) -> u16
    ensures { result ≡ fold higher_third most row.now }
{
    let mut greatest = most;
    for element in row {
        if element.is_primary() || element.is_secondary() {
            greatest = greatest.max(element.w3);
        }
    }
    greatest
}

/// The least and the greatest first weight of the variable elements of a row and of those in `span`.
pub(crate) fn variable_span(span: Option<(u16, u16)>, row: &[Element]) -> Option<(u16, u16)>
    ensures { result ≡ fold wider_span span row.now }
{
    let mut widest = span;
    for element in row {
        if element.is_variable {
            widest = match widest {
                Some((least, greatest)) => {
                    Some((least.min(element.w1), greatest.max(element.w1)))
                }
                None => Some((element.w1, element.w1)),
            };
        }
    }
    widest
}

/// Whether a secondary element of a row is not above `second`, or a tertiary one not above `third`, at its own level.
pub(crate) fn any_too_light(second: u16, third: u16, row: &[Element]) -> bool
    ensures { result ≡ list_any (is_too_light second third) row.now }
{
    row.iter().any(|element| {
        element.is_secondary() && element.w2 <= second
            || element.is_tertiary() && element.w3 <= third
    })
}

/// Whether a primary element of a row that is not variable has a first weight within the span.
pub(crate) fn any_within_span(least: u16, greatest: u16, row: &[Element]) -> bool
    ensures { result ≡ list_any (is_within_span least greatest) row.now }
{
    row.iter().any(|element| {
        element.is_primary()
            && !element.is_variable
            && least <= element.w1
            && element.w1 <= greatest
    })
}
