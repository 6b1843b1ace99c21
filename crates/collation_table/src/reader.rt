//! Reading a table file, and a second one that tailors it, line by line (UTS #10, the form of allkeys.txt).

ghost use Rattle.std.specs.Prelude.{◌≡◌, ◌≤◌, [], None, length, option_map, unwrap_or, IfOk, IfErr, IfSome, OnOk};
ghost use Rattle.collation_table.specs.WellFormed.{IsWellFormed};
ghost use Rattle.collation_table.specs.Spelling.{line_form};
ghost use Rattle.collation_table.specs.Reading.{form, HasParts, earlier_ranges, reported_kind, reported};
ghost use Rattle.collation_table.specs.Faults.{forms_of, map_after, line_kind, fault_at_line, allocation_refused, with_line, first_line_fault, tailored_map, tailored_fault, table_fault, SpellsTailored, SpellsTable, IsFaultOrAllocationRefused};

use crate::faults::{TAILOR_KINDS, TableFault};
use crate::line_faults::line_fault;
use crate::lines::{Line, LineRoom, parse_line};
use crate::lookup::Weights;
use crate::pieces::first_line;
use crate::row_index::RowIndex;
use crate::rows::Rows;
use crate::table::Table;
use std::alloc::Global;

/// Which of two files a line stands in.
#[derive(Clone, Copy, PartialEq, Eq, Debug)]
pub(crate) enum TableFile {
    /// The first.
    Base,
    /// One that tailors a file with so many ranges.
    Tailor(usize),
}

impl TableFile {
    /// How many ranges stand in an earlier file.
    fn earlier_ranges(self) -> usize
        ensures { result ≡ earlier_ranges self }
    {
        match self {
            TableFile::Base => 0,
            TableFile::Tailor(earlier) => earlier,
        }
    }

    /// The number by which a kind of fault of one of its lines is reported.
    fn reported_kind(self, kind: u8) -> u8
        requires { kind ≤ 13 }
        ensures { result ≡ reported_kind self kind }
    {
        match self {
            TableFile::Base => kind,
            TableFile::Tailor(_) => TAILOR_KINDS + kind,
        }
    }
}

/// Adds what a line says to the rows, or gives its fault. Memory is asked for only where it has none; where that is refused, it is
/// reported at line 0.
fn add_line<I: RowIndex>(
    alloc: Global,
    file: TableFile,
    rows: &mut Rows<I>,
    number: u64,
    line: Option<Line>,
) -> Result<(), TableFault>
    requires parts { IfSome line HasParts }
    ensures right { OnOk result
        (line_kind (earlier_ranges file) rows.old (option_map form line.entry) ≡ None) }
    ensures rows { OnOk result
        (rows.new ≡ with_line rows.old (option_map form line.entry)) }
    // A line at fault has its fault reported, whatever memory is refused.
    ensures fault { IfErr result
        (λ fault. fault
        ≡ unwrap_or (option_map (reported file)
        (fault_at_line number
        (line_kind (earlier_ranges file) rows.old
        (option_map form line.entry)))) allocation_refused) }
{
    match line_fault(file.earlier_ranges(), rows, &line) {
        Some(kind) => {
            return Err(TableFault {
                line: number,
                kind: file.reported_kind(kind),
            });
        }
        None => {}
    }
    match line {
        Some(Line::Range(range)) => Ok(rows.push_range(range)?),
        Some(Line::Entry { string, row }) => { Ok(rows.insert(alloc, string, row)?) }
        Some(Line::Empty | Line::Version) | None => Ok(()),
    }
}

/// Adds what the line with this number says, or reports its fault; where memory is refused, that is reported at line 0.
fn read_line<I: RowIndex>(
    alloc: Global,
    file: TableFile,
    rows: &mut Rows<I>,
    room: &mut LineRoom,
    number: u64,
    text: &[u8],
) -> Result<(), TableFault>
    ensures right { OnOk result
        (line_kind (earlier_ranges file) rows.old (line_form text.now) ≡ None) }
    ensures rows { OnOk result
        (rows.new ≡ with_line rows.old (line_form text.now)) }
    ensures fault { IfErr result
        (IsFaultOrAllocationRefused
        (option_map (reported file)
        (fault_at_line number
        (line_kind (earlier_ranges file) rows.old (line_form text.now))))) }
{
    let line = parse_line(room, text)?;
    add_line(alloc, file, rows, number, line)
}

/// The rows of all lines of a file, and the ranges of an earlier file followed by its own, or the fault of the first line that has
/// one.
pub(crate) fn read_lines<I: RowIndex>(
    alloc: Global,
    file: TableFile,
    earlier: Rows<I>,
    bytes: &[u8],
) -> Result<Rows<I>, TableFault>
    requires none { earlier.rows ≡ [] }
    requires ranges { earlier_ranges file ≡ length earlier.ranges }
    ensures ok { OnOk result
        (first_line_fault earlier.ranges (forms_of bytes.now) ≡ None) }
    ensures rows { IfOk result
        (λ rows. rows ≡ map_after earlier.ranges (forms_of bytes.now)) }
    ensures fault { IfErr result
        (IsFaultOrAllocationRefused
        (option_map (reported file)
        (first_line_fault earlier.ranges (forms_of bytes.now)))) }
{
    let mut rows = earlier;
    let mut room = LineRoom::new(alloc);
    let mut rest = bytes;
    let mut number = 0;
    while !rest.is_empty() {
        let (text, following) = first_line(rest);
        number += 1;
        read_line(alloc, file, &mut rows, &mut room, number, text)?;
        rest = following;
    }
    Ok(rows)
}

impl Table {
    /// Reads a table file, in the form of allkeys.txt (UTS #10).
    ///
    /// A line ends with LF or CR LF; the last one may have no end. What stands in a line from the first `#` on is a comment,
    /// of any bytes. The rest of a line has one of four forms:
    ///
    /// - nothing but blanks, each a space or a tab;
    /// - `@version`, alone or with a blank and any bytes after it, which is passed over;
    /// - `@implicitweights FIRST..LAST; BASE`, a range of implicit weights (UTS #10, section 10.1.3);
    /// - `CODE POINTS ; ELEMENTS`, a row: one or more code points with blanks between them, and one or more collation elements
    ///   as `[.1C00.0020.0002]`, where `*` in place of the first `.` marks a variable one.
    ///
    /// A code point is four to six digits `0` to `9` and `A` to `F`, a weight is four. Blanks may stand at both ends of a line
    /// and between its parts, not inside an element. The forms may stand in any order.
    ///
    /// # Errors
    ///
    /// The first line at fault is reported, counted from 1, with the smallest kind of fault that it has:
    ///
    /// - 1: it has none of the four forms;
    /// - 2: a code point is over 10FFFF;
    /// - 3: an earlier line maps the same string;
    /// - 4: the mapped string has more than 64 code points, or the row more than 128 elements;
    /// - 5: an element breaks WF1 (UTS #10, section 5); 7: one breaks WF3;
    /// - 10: a first weight FB00 to FBFF is not followed by an element `[.BBBB.0000.0000]` with BBBB from 8000 on, such an
    ///   element stands elsewhere, or a variable first weight is FB00 or more;
    /// - 11: a range's ends are in the wrong order, its base is not in FB00..FB3F, it shares a code point with an earlier
    ///   range, or the ranges of its base so far span more than 8000 (hexadecimal) code points;
    /// - 13: 1,048,576 rows, or 256 ranges, stand before it.
    ///
    /// Where no line is at fault, line 0 is reported with the first of these kinds that the table has: 12: it has no row;
    /// 6: it breaks WF2; 8: WF4; 9: WF5. Line 0 and kind 14 say that memory was refused.
    pub fn read(alloc: Global, bytes: &[u8]) -> Result<Table, TableFault>
        // A table comes from a file with no fault, and is what the file spells.
        ensures accepted { OnOk result (table_fault bytes.now ≡ None) }
        ensures spelled { IfOk result
            (λ table. SpellsTable bytes.now (⟦<Table as Weights>⟧.table table)) }
        // Two tables of one file are the same, row for row.
        ensures exact { IfOk result
            (λ table. ⟦<Table as Weights>⟧.table table ≡ tailored_map bytes.now []) }
        ensures well_formed { IfOk result
            (λ table. IsWellFormed (⟦<Table as Weights>⟧.table table)) }
        // The first fault is reported, unless memory was refused.
        ensures fault { IfErr result (IsFaultOrAllocationRefused (table_fault bytes.now)) }
    {
        Table::read_tailored(alloc, bytes, &[])
    }

    /// Reads a table file and a tailor, a second file of the same form whose rows replace those of the first one that map the same
    /// strings, or are added; its ranges follow those of the first one. An empty tailor changes nothing.
    ///
    /// # Errors
    ///
    /// First the lines of the first file are judged, as `read` does. Then those of the tailor, and 60 is added to the kind of a fault,
    /// whose line is the tailor's: 61 to 65, 67, 70, 71 or 73. Kinds 63 and 73 count within the tailor; the earlier ranges of kind 71
    /// are those of the first file and of the tailor. Where no line is at fault, line 0 is reported with the first kind of 12 (neither
    /// file has a row), 6, 8 and 9 that the table has, a row that was replaced not counting; or with 14, as `read` does.
    pub fn read_tailored(alloc: Global, base: &[u8], tailor: &[u8]) -> Result<Table, TableFault>
        // A table comes from files with no fault, and is what they spell.
        ensures accepted { OnOk result (tailored_fault base.now tailor.now ≡ None) }
        ensures spelled { IfOk result
            (λ table. SpellsTailored base.now tailor.now (⟦<Table as Weights>⟧.table table)) }
        ensures exact { IfOk result
            (λ table. ⟦<Table as Weights>⟧.table table ≡ tailored_map base.now tailor.now) }
        ensures well_formed { IfOk result
            (λ table. IsWellFormed (⟦<Table as Weights>⟧.table table)) }
        // The first fault is reported, unless memory was refused.
        ensures fault { IfErr result
            (IsFaultOrAllocationRefused (tailored_fault base.now tailor.now)) }
    {
        let base = read_lines(alloc, TableFile::Base, Rows::new(alloc), base)?;
        let (base, ranges) = base.apart(alloc);
        let file = TableFile::Tailor(ranges.ranges().len());
        let tailor = read_lines(alloc, file, ranges, tailor)?;
        let rows = base.overlaid(alloc, tailor)?;
        Table::seal(rows)
    }
}
