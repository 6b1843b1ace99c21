//! What is wrong with a line of a table file, by itself and after the lines before it.

ghost use Rattle.std.specs.Prelude.{◌≡◌, ◌≤◌, [], ◌∷◌, option_map, IfSome};
ghost use Rattle.std.specs.List.{list_any};
ghost use Rattle.collation_table.specs.Faults.{is_beyond_unicode, first_kind, range_kind, entry_kind, line_kind};
ghost use Rattle.collation_table.specs.Kinds.{wf1_kind, wf3_kind, pair_rule_kind};
ghost use Rattle.collation_table.specs.Reading.{form};
ghost use Rattle.collation_table.specs.WellFormed.{breaks_wf1, breaks_wf3, breaks_pair_rule};

use crate::elements::Element;
use crate::faults::{
    BAD_RANGE, BEYOND_UNICODE, BREAKS_PAIRS, BREAKS_WF1, BREAKS_WF3, MALFORMED_LINE, MAPPED_TWICE,
    TOO_LONG, TOO_MANY_LINES,
};
use crate::limits::{MOST_ENTRY_LINES, MOST_RANGE_LINES, MOST_ROW_ELEMENTS, MOST_STRING_POINTS};
use crate::lines::Line;
use crate::ranges::ImplicitRange;
use crate::row_index::RowIndex;
use crate::rows::Rows;
use crate::well_formed::{any_unusual, breaks_pair_rule, breaks_wf1, breaks_wf3};

/// The last code point of Unicode.
const LAST_CODE_POINT: u32 = 0x10FFFF;

/// Whether one of the numbers is no code point.
fn any_beyond_unicode(points: &[u32]) -> bool
    ensures { result ≡ list_any is_beyond_unicode points.now }
{
    points.iter().any(|point| *point > LAST_CODE_POINT)
}

/// The smallest kind of fault of a range line after the lines that gave `rows`, of whose ranges the first `earlier` are of an
/// earlier file.
fn range_fault<I: RowIndex>(earlier: usize, rows: &Rows<I>, range: &ImplicitRange) -> Option<u8>
    ensures kind { result ≡ range_kind earlier rows.now range.now }
    ensures few { IfSome result (λ kind. kind ≤ 13) }
{
    if any_beyond_unicode(&[range.first, range.last]) {
        Some(BEYOND_UNICODE)
    } else if rows.refuses(range) {
        Some(BAD_RANGE)
    } else if rows.ranges().len().saturating_sub(earlier) >= MOST_RANGE_LINES {
        Some(TOO_MANY_LINES)
    } else {
        None
    }
}

/// The smallest kind of fault that a row has by itself. Nearly every row has no unusual element, which one pass tells.
fn row_fault(row: &[Element]) -> Option<u8>
    ensures kind { result
        ≡ first_kind
        ((breaks_wf1 row.now, wf1_kind)
        ∷ (breaks_wf3 row.now, wf3_kind)
        ∷ (breaks_pair_rule row.now, pair_rule_kind)
        ∷ []) }
    ensures few { IfSome result (λ kind. kind ≤ 13) }
{
    if !any_unusual(row) {
        None
    } else if breaks_wf1(row) {
        Some(BREAKS_WF1)
    } else if breaks_wf3(row) {
        Some(BREAKS_WF3)
    } else if breaks_pair_rule(row) {
        Some(BREAKS_PAIRS)
    } else {
        None
    }
}

/// The smallest kind of fault of an entry line after the lines that gave `rows`.
fn entry_fault<I: RowIndex>(rows: &Rows<I>, string: &[u32], row: &[Element]) -> Option<u8>
    ensures kind { result ≡ entry_kind rows.now string.now row.now }
    ensures few { IfSome result (λ kind. kind ≤ 13) }
{
    if any_beyond_unicode(string) {
        Some(BEYOND_UNICODE)
    } else if rows.maps(string) {
        Some(MAPPED_TWICE)
    } else if string.len() > MOST_STRING_POINTS || row.len() > MOST_ROW_ELEMENTS {
        Some(TOO_LONG)
    } else {
        match row_fault(row) {
            Some(kind) => Some(kind),
            None if rows.row_count() >= MOST_ENTRY_LINES => Some(TOO_MANY_LINES),
            None => None,
        }
    }
}

/// The smallest kind of fault of a line after the lines that gave `rows`, of whose ranges the first `earlier` are of an earlier
/// file.
pub(crate) fn line_fault<I: RowIndex>(
    earlier: usize,
    rows: &Rows<I>,
    line: &Option<Line>,
) -> Option<u8>
    ensures kind { result ≡ line_kind earlier rows.now (option_map form line.now) }
    ensures few { IfSome result (λ kind. kind ≤ 13) }
{
    match line {
        None => Some(MALFORMED_LINE),
        Some(Line::Empty | Line::Version) => None,
        Some(Line::Range(range)) => range_fault(earlier, rows, range),
        Some(Line::Entry { string, row }) => entry_fault(rows, string, row),
    }
}
