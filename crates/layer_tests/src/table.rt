//! Table files with their answers, those of a `Table` and of a `PlainTable`. Where memory is refused once, a file is read again.

use crate::calls::{TABLE, holds, put, repeated, same_at, table_of, text_is, try_table};
use collation_table::{Element, PlainTable, TableFault, Weights};
use std::alloc::Global;
use std::process::Abort;

const BASIC: &str = "0020 ; [*0201.0020.0002]
002D ; [.0000.0000.0000]
0041 ; [.1C00.0020.0008]
0061 ; [.1C00.0020.0002]
0062 ; [.1C10.0020.0002]
0063 ; [.1C20.0020.0002]
0063 0068 ; [.1C28.0020.0002]
0068 ; [.1C50.0020.0002]
";

/// How many code points the longest mapped string has, and how many elements the largest row; or the kind and the line of the fault.
type Answer = Result<(usize, usize), (u8, u64)>;

/// The answer where memory was refused.
const REFUSED: Answer = Err((14, 0));

/// The answer in what a reading gave.
fn answer_in<W: Weights + Drop>(read: Result<W, TableFault>) -> Answer {
    match read {
        Ok(table) => Ok((table.longest_key(), table.most_elements())),
        Err(fault) => Err((fault.kind, fault.line)),
    }
}

/// The answer to a file, or to one and a tailor, asked for again where memory was refused.
fn answer_to(alloc: Global, file: &[u8], tailor: Option<&[u8]>) -> Answer {
    let first = answer_in(try_table(alloc, file, tailor));
    if first != REFUSED {
        return first;
    }
    answer_in(try_table(alloc, file, tailor))
}

/// The plain table of a file, or the fault.
fn try_plain(alloc: Global, file: &[u8]) -> Result<PlainTable, TableFault> {
    PlainTable::read(alloc, file)
}

/// The answer of a plain table, asked for again where memory was refused.
fn plain_answer(alloc: Global, file: &[u8]) -> Answer {
    let first = answer_in(try_plain(alloc, file));
    if first != REFUSED {
        return first;
    }
    answer_in(try_plain(alloc, file))
}

/// The plain table of a file, read again where memory was refused.
fn plain_of(rt: &impl Abort, alloc: Global, file: &str) -> PlainTable {
    match try_plain(alloc, file.as_bytes()) {
        Ok(table) => table,
        Err(_refused) => try_plain(alloc, file.as_bytes()).expect(rt, "the plain table"),
    }
}

/// An answer is this.
fn answer_is(rt: &impl Abort, got: Answer, want: Answer, row: &[u8]) {
    same_at(rt, &got, &want, &row);
}

/// The answer to a file is this, by either table.
fn file_is(rt: &impl Abort, alloc: Global, file: &[u8], want: Answer) {
    answer_is(rt, answer_to(alloc, file, None), want, file);
    answer_is(rt, plain_answer(alloc, file), want, file);
}

/// The answer to a file and a tailor is this.
fn both_are(rt: &impl Abort, alloc: Global, file: &str, tailor: &str, want: Answer) {
    let got = answer_to(alloc, file.as_bytes(), Some(tailor.as_bytes()));
    answer_is(rt, got, want, tailor.as_bytes());
}

const MALFORMED: [&str; 14] = [
    "61 ; [.1C00.0020.0002]",
    "0000061 ; [.1C00.0020.0002]",
    "0061 ; [.1c00.0020.0002]",
    "0061 ; [.1C0.0020.0002]",
    "0061 ; [.1C00.0020.0002.0000]",
    "0061 ; [.1C00 .0020.0002]",
    "0061 ; [.1C00.0020.0002",
    "0061 ; [.1C00.0020.0002] x",
    "0061 ;",
    "; [.1C00.0020.0002]",
    "0061 [.1C00.0020.0002]",
    "@versions 1.0",
    "@implicitweights17000..18AFF; FB00",
    "@implicitweights 17000.18AFF; FB00",
];

#[test]
fn reports_a_malformed_line(rt: HostRuntime) {
    for file in &MALFORMED {
        file_is(&rt, rt.alloc(), file.as_bytes(), Err((1, 1)));
    }
}

/// Files with the kind and the line of their faults: of rows, of ranges, the smallest kind of the first line, and of whole tables.
const FAULTS: [(&str, u8, u64); 28] = [
    ("110000 ; [.1C00.0020.0002]", 2, 1),
    ("0061 ; [.1C00.0020.0002]\n000061 ; [.1C01.0020.0002]", 3, 2),
    ("0061 ; [.1C00.0000.0000]", 5, 1),
    ("0061 ; [.1C00.0000.0002]", 5, 1),
    ("0020 ; [*0000.0000.0000]", 7, 1),
    ("0061 ; [.9000.0000.0000]", 10, 1),
    ("0061 ; [*FB00.0020.0002]", 10, 1),
    ("4E00 ; [.FB40.0020.0002]", 10, 1),
    ("0061 ; [.FB40.0020.0002][.1C00.0020.0002]", 10, 1),
    (
        "2F00 ; [.FB40.0020.0004][.CE00.0000.0000][.CE01.0000.0000]",
        10,
        1,
    ),
    ("@implicitweights 17000..110000; FB00", 2, 1),
    ("@implicitweights 17000..18AFF; FB40", 11, 1),
    ("@implicitweights 17005..17000; FB00", 11, 1),
    (
        "@implicitweights 17000..17005; FB00\n@implicitweights 17005..17006; FB00",
        11,
        2,
    ),
    (
        "@implicitweights 17000..17005; FB00\n@implicitweights 16FFF..17000; FB01",
        11,
        2,
    ),
    (
        "@implicitweights 17000..17000; FB00\n@implicitweights 1F000..1F000; FB00",
        11,
        2,
    ),
    ("110000 ; [.1C00.0000.0002]", 2, 1),
    ("0061 ; [.1C00.0000.0002]\n61 ; x", 5, 1),
    ("0061 ; [.1C00.0020.0002]\n0061 ; [.1C00.0000.0002]", 3, 2),
    ("0301 ; [.0000.0020.0002]\n0061 ; [.9000.0000.0000]", 10, 2),
    ("", 12, 0),
    ("# only a comment", 12, 0),
    (" \t\n\n\t\r\n  ", 12, 0),
    ("@implicitweights 17000..18AFF; FB00", 12, 0),
    ("0061 ; [.1C00.0020.0002]\n0062 ; [.0000.0000.0002]", 6, 0),
    ("0301 ; [.0000.0020.0002]", 6, 0),
    (
        "0020 ; [*0201.0020.0002]\n002D ; [*0203.0020.0002]\n0061 ; [.0202.0020.0002]",
        8,
        0,
    ),
    (
        "0061 ; [.1C00.0020.0002]\n0061 0062 0301 ; [.1C01.0020.0002]",
        9,
        0,
    ),
];

#[test]
fn reports_a_fault(rt: HostRuntime) {
    for (file, kind, line) in &FAULTS {
        file_is(&rt, rt.alloc(), file.as_bytes(), Err((*kind, *line)));
    }
}

/// Files with no fault, with the sizes of their longest mapped string and largest row, and bytes that are no text.
const ANSWERS: [(&[u8], Answer); 8] = [
    (b"2F00 ; [.FB40.0020.0004][.CE00.0000.0000]", Ok((1, 2))),
    (
        b"  0061 0062;[.1C00.0020.0002] [.0000.0021.0002]# x",
        Ok((2, 2)),
    ),
    (
        b"@version\n@version 1 ; [x]\n0061;[.1C00.0020.0002]",
        Ok((1, 2)),
    ),
    (
        b"@implicitweights\t17000 .. 17000 ; FB00 # x\n@implicitweights 1EFFF..1EFFF; FB00\n0061 ; [.1C00.0020.0002]",
        Ok((1, 2)),
    ),
    (
        b"0061 ; [.1C00.0020.0002]\r\n\r\n0061\t0062 ; [.1C10.0020.0002]\t[.0000.0021.0002][.0000.0021.0002] \r\n",
        Ok((2, 3)),
    ),
    (b"0061 ; [.1C00.0020.0002] # \xff\xc3\n", Ok((1, 2))),
    (b"0061 ; [.1C00.0020.0002]\xff # x\n", Err((1, 1))),
    (b"0061 ; [.1C00.0020.0002]\r", Err((1, 1))),
];

#[test]
fn answers_by_its_sizes(rt: HostRuntime) {
    let alloc = rt.alloc();
    file_is(&rt, alloc, BASIC.as_bytes(), Ok((2, 2)));
    file_is(&rt, alloc, TABLE.as_bytes(), Ok((2, 2)));
    for (file, want) in &ANSWERS {
        file_is(&rt, alloc, *file, *want);
    }
}

#[test]
fn prints_a_fault(rt: HostRuntime) {
    for (kind, line, want) in &[
        (3, 2, "fault 3 at line 2"),
        (14, 0, "fault 14 at line 0"),
        (73, 1_048_577, "fault 73 at line 1048577"),
    ] {
        let (kind, line) = (*kind, *line);
        let text = TableFault { line, kind }.to_string(rt.alloc());
        text_is(&rt, &text.expect(&rt, "memory"), *want);
    }
}

const BASE: &str = "0061 ; [.1C00.0020.0002]\n@implicitweights 17000..17005; FB00";

/// A file, a tailor, and the answer to both.
const TAILORED: [(&str, &str, Answer); 18] = [
    (BASE, "61 ; [.1C00.0020.0002]", Err((61, 1))),
    (BASE, "# x\n110000 ; [.1C00.0020.0002]", Err((62, 2))),
    (
        BASE,
        "0062 ; [.1C10.0020.0002]\n0062 ; [.1C10.0020.0002]",
        Err((63, 2)),
    ),
    (BASE, "0061 ; [.1C00.0000.0002]", Err((65, 1))),
    (BASE, "0020 ; [*0000.0000.0000]", Err((67, 1))),
    (BASE, "4E00 ; [.FB40.0020.0002]", Err((70, 1))),
    (BASE, "@implicitweights 17005..17006; FB00", Err((71, 1))),
    (BASE, "@implicitweights 1F000..1F000; FB00", Err((71, 1))),
    ("61", "62", Err((1, 1))),
    (TABLE, "007A ; [.0201.0020.0002]", Err((8, 0))),
    (TABLE, "0301 ; [.0000.0020.0002]", Err((6, 0))),
    (TABLE, "0065 0327 0301 ; [.1C48.0020.0002]", Err((9, 0))),
    ("", "@implicitweights 17000..17005; FB00", Err((12, 0))),
    (TABLE, "", Ok((2, 2))),
    ("", TABLE, Ok((2, 2))),
    (TABLE, TABLE, Ok((2, 2))),
    (
        TABLE,
        "0065 0327 0301 ; [.1C48.0020.0002]\n0065 0327 ; [.1C46.0020.0002]",
        Ok((3, 2)),
    ),
    (
        "0061 ; [.1C00.0020.0002][.1C00.0020.0002][.1C00.0020.0002]\n0062 ; [.1C10.0020.0002]",
        "0061 ; [.1C00.0020.0002]",
        Ok((1, 2)),
    ),
];

#[test]
fn answers_by_both_files(rt: HostRuntime) {
    for (file, tailor, want) in &TAILORED {
        both_are(&rt, rt.alloc(), *file, *tailor, *want);
    }
}

/// A line whose mapped string has `points` code points, and whose row has `elements` elements.
fn line_of(rt: &impl Abort, alloc: Global, points: usize, elements: usize) -> String {
    let mut line = repeated(rt, alloc, "0061 ", points);
    put(rt, &mut line, ";");
    let row = repeated(rt, alloc, "[.1C00.0020.0002]", elements);
    put(rt, &mut line, &row);
    line
}

/// Compares the answers to a line, as a file and as a tailor.
fn line_is(
    rt: &impl Abort,
    alloc: Global,
    points: usize,
    elements: usize,
    want: Answer,
    tailored: Answer,
) {
    let line = line_of(rt, alloc, points, elements);
    file_is(rt, alloc, line.as_bytes(), want);
    both_are(rt, alloc, BASIC, &line, tailored);
}

#[test]
fn bounds_a_line(rt: HostRuntime) {
    let alloc = rt.alloc();
    line_is(&rt, alloc, 17, 33, Ok((17, 33)), Ok((17, 33)));
    line_is(&rt, alloc, 64, 128, Ok((64, 128)), Ok((64, 128)));
    line_is(&rt, alloc, 65, 1, Err((4, 1)), Err((64, 1)));
    line_is(&rt, alloc, 1, 129, Err((4, 1)), Err((64, 1)));
}

/// Writes a range of one code point.
fn put_range(rt: &impl Abort, file: &mut String, point: u32) {
    writeln!(file, "@implicitweights {point:X}..{point:X}; FB00").expect(rt, "memory");
}

/// A row, and as many ranges of one code point from `first` on.
fn ranges_of(rt: &impl Abort, alloc: Global, first: u32, ranges: u32) -> String {
    let mut file = String::new(alloc);
    put(rt, &mut file, "0061 ; [.1C00.0020.0002]\n");
    for range in 0..ranges {
        put_range(rt, &mut file, first.wrapping_add(range));
    }
    file
}

#[test]
fn bounds_the_ranges(rt: HostRuntime) {
    let alloc = rt.alloc();
    let most = ranges_of(&rt, alloc, 0x17000, 256);
    file_is(&rt, alloc, most.as_bytes(), Ok((1, 2)));
    let more = ranges_of(&rt, alloc, 0x17000, 257);
    file_is(&rt, alloc, more.as_bytes(), Err((13, 258)));
    let most_after = ranges_of(&rt, alloc, 0x17800, 256);
    both_are(&rt, alloc, &most, &most_after, Ok((1, 2)));
    let more_after = ranges_of(&rt, alloc, 0x17800, 257);
    both_are(&rt, alloc, &most, &more_after, Err((73, 258)));
}

/// Writes an element with this first weight.
fn put_element(rt: &impl Abort, file: &mut String, weight: u32) {
    write!(file, "[.{weight:04X}.0020.0002]").expect(rt, "memory");
}

/// Writes a code point.
fn put_point(rt: &impl Abort, file: &mut String, point: u32) {
    write!(file, "{point:04X} ").expect(rt, "memory");
}

/// Writes elements with this first weight, and ends the line.
fn put_elements(rt: &impl Abort, file: &mut String, weight: u32, elements: usize) {
    for _ in 0..elements {
        put_element(rt, file, weight);
    }
    put(rt, file, "\n");
}

/// Writes an entry line: the code points of a mapped string, and elements with this first weight.
fn put_row(rt: &impl Abort, file: &mut String, string: &[u32], weight: u32, elements: usize) {
    for point in string {
        put_point(rt, file, *point);
    }
    put(rt, file, "; ");
    put_elements(rt, file, weight, elements);
}

/// A row for each code point below `rows`.
fn rows_of(rt: &impl Abort, alloc: Global, rows: u32) -> String {
    let mut file = String::new(alloc);
    for point in 0..rows {
        put_row(rt, &mut file, &[point], 0x1C00, 1);
    }
    file
}

#[test]
fn bounds_the_entries(rt: HostRuntime) {
    let alloc = rt.alloc();
    let most = rows_of(&rt, alloc, 1_048_576);
    file_is(&rt, alloc, most.as_bytes(), Ok((1, 2)));
    both_are(&rt, alloc, BASIC, &most, Ok((2, 2)));
    let more = rows_of(&rt, alloc, 1_048_577);
    file_is(&rt, alloc, more.as_bytes(), Err((13, 1_048_577)));
    both_are(&rt, alloc, BASIC, &more, Err((73, 1_048_577)));
}

/// How many elements a row has, the first weight that each has, and whether they are variable; no elements where there is no row.
type Row = (usize, u16, bool);

const NO_ROW: Row = (0, 0, false);

/// The longest prefix of a string that is mapped, and the row of the string.
fn string_in<'a, W: Weights>(table: &'a W, string: &[u32]) -> (usize, &'a [Element]) {
    (table.longest(string), table.row(string).unwrap_or(&[]))
}

/// Compares them.
fn string_is<W: Weights>(rt: &impl Abort, table: &W, string: &[u32], longest: usize, want: Row) {
    let (len, row) = string_in(table, string);
    let (elements, w1, is_variable) = want;
    same_at(rt, &(len, row.len()), &(longest, elements), &string);
    let element = Element {
        is_variable,
        w1,
        w2: 0x20,
        w3: 2,
    };
    for it in row {
        same_at(rt, it, &element, &string);
    }
}

const STRINGS: [(&[u32], usize, Row); 7] = [
    (&[0x75, 0x301], 2, (1, 0x1C98, false)),
    (&[0x20], 1, (1, 0x201, true)),
    (&[0x75, 0x300], 1, NO_ROW),
    (&[0x63, 0x68, 0x61], 2, NO_ROW),
    (&[0x63, 0x61], 1, NO_ROW),
    (&[0x7A], 0, NO_ROW),
    (&[], 0, NO_ROW),
];

#[test]
fn answers_by_its_rows(rt: HostRuntime) {
    let alloc = rt.alloc();
    let table = table_of(&rt, alloc, TABLE, None);
    let plain = plain_of(&rt, alloc, TABLE);
    for (string, longest, row) in &STRINGS {
        string_is(&rt, &table, *string, *longest, *row);
        string_is(&rt, &plain, *string, *longest, *row);
    }
    drop(plain);
    drop(table);
}

const OVERLAID: [(&[u32], usize, Row); 5] = [
    (&[0x61], 1, (1, 0x1C00, false)),
    (&[0x62], 1, (1, 0x1C00, false)),
    (&[0x63], 1, (1, 0x1C20, false)),
    (&[0x61, 0x61], 2, (1, 0x1C05, false)),
    (&[0x61, 0x61, 0x61], 2, NO_ROW),
];

#[test]
fn answers_by_the_rows_of_both_files(rt: HostRuntime) {
    let tailor = "0062 ; [.1C00.0020.0002]\n0061 0061 ; [.1C05.0020.0002]";
    let table = table_of(&rt, rt.alloc(), TABLE, Some(tailor.as_bytes()));
    for (string, longest, row) in &OVERLAID {
        string_is(&rt, &table, *string, *longest, *row);
    }
    drop(table);
}

const GOES_ON: [(&[u32], bool); 8] = [
    (&[0x63], true),
    (&[0x63, 0x68], false),
    (&[0x61], true),
    (&[0x61, 0x62], true),
    (&[0x61, 0x62, 0x63], false),
    (&[0x61, 0x63], false),
    (&[0x7A], false),
    (&[], true),
];

/// Whether a string goes on in a table.
fn goes_on_in<W: Weights>(table: &W, string: &[u32]) -> bool {
    table.goes_on(string)
}

/// `abc` is mapped, and `ab` is not. A plain table does not know.
#[test]
fn says_what_goes_on(rt: HostRuntime) {
    let alloc = rt.alloc();
    let tailor = "0061 0062 0063 ; [.1C05.0020.0002]";
    let table = table_of(&rt, alloc, TABLE, Some(tailor.as_bytes()));
    for (string, goes_on) in &GOES_ON {
        same_at(&rt, &goes_on_in(&table, *string), goes_on, string);
    }
    drop(table);
    let plain = plain_of(&rt, alloc, TABLE);
    let string = [0x63, 0x68];
    holds(&rt, goes_on_in(&plain, &string), &string);
    drop(plain);
}

const PLAIN: &str = "0061 ; [.1C00.0020.0002]";

const TANGUT: &str = "0061 ; [.1C00.0020.0002]\n@implicitweights 17000..18AFF; FB00";

const MORE: &str = "0061 ; [.1C00.0020.0002]
@implicitweights 17000..18AFF; FB00
@implicitweights 18D00..18D8F; FB00";

/// A file, a code point without a row, and the first weights of its two elements.
const IMPLICIT: [(&str, u32, [u16; 2]); 9] = [
    (PLAIN, 0x4E00, [0xFB40, 0xCE00]),
    (PLAIN, 0xFA0E, [0xFB41, 0xFA0E]),
    (PLAIN, 0x3400, [0xFB80, 0xB400]),
    (PLAIN, 0x20000, [0xFB84, 0x8000]),
    (PLAIN, 0x1100, [0xFBC0, 0x9100]),
    (PLAIN, 0xE000, [0xFBC1, 0xE000]),
    (PLAIN, 0x10FFFF, [0xFBE1, 0xFFFF]),
    (TANGUT, 0x17005, [0xFB00, 0x8005]),
    (MORE, 0x18D00, [0xFB00, 0x9D00]),
];

/// The first weights of the implicit pair of a code point.
fn implicit_in<W: Weights>(table: &W, point: u32) -> [u16; 2] {
    if point > 0x10FFFF {
        return [0, 0];
    }
    let [lead, follower] = table.implicit(point);
    [lead.w1, follower.w1]
}

#[test]
fn weighs_what_has_no_row(rt: HostRuntime) {
    let alloc = rt.alloc();
    for (file, point, want) in &IMPLICIT {
        let table = table_of(&rt, alloc, *file, None);
        same_at(&rt, &implicit_in(&table, *point), want, point);
        drop(table);
        let plain = plain_of(&rt, alloc, *file);
        same_at(&rt, &implicit_in(&plain, *point), want, point);
        drop(plain);
    }
}

/// A row, and a comment line of so many letters between two others.
fn commented(rt: &impl Abort, alloc: Global, letters: usize) -> String {
    let mut file = String::new(alloc);
    put(rt, &mut file, "0061 ; [.1C00.0020.0002]\n#");
    put(rt, &mut file, &repeated(rt, alloc, "x", letters));
    put(rt, &mut file, "\n0062 0063 ; [.1C10.0020.0002]");
    put(rt, &mut file, &repeated(rt, alloc, " ", letters));
    put(rt, &mut file, "# x\n");
    file
}

#[test]
fn reads_lines_of_any_length(rt: HostRuntime) {
    let alloc = rt.alloc();
    for letters in &[5_000, 70_000] {
        let file = commented(&rt, alloc, *letters);
        file_is(&rt, alloc, file.as_bytes(), Ok((2, 2)));
    }
}

/// How many rows a large table has, besides those of longer strings.
const MANY: u32 = 100_000;

/// The first weight of a row of a large table.
fn weight_of(number: u32) -> u16 {
    1 + (number % 0x7000) as u16
}

/// A large table: code points of a plane without weights of their own, and after each tenth one a mapped string of two.
fn many_rows(rt: &impl Abort, alloc: Global) -> String {
    let mut file = String::new(alloc);
    for number in 0..MANY {
        let point = 0x30000 + number;
        let weight = u32::from(weight_of(number));
        put_row(rt, &mut file, &[point], weight, 1);
        if number % 10 == 0 {
            put_row(rt, &mut file, &[point, 0x61], weight, 2);
        }
    }
    file
}

/// Compares what a large table answers of one of these code points by itself and with `a` behind it.
fn many_are<W: Weights>(rt: &impl Abort, table: &W, number: u32) {
    let point = 0x30000u32.wrapping_add(number);
    let weight = weight_of(number);
    string_is(rt, table, &[point], 1, (1, weight, false));
    if number % 10 == 0 {
        string_is(rt, table, &[point, 0x61], 2, (2, weight, false));
        string_is(rt, table, &[point, 0x61, 0x61], 2, NO_ROW);
    } else {
        string_is(rt, table, &[point, 0x61], 1, NO_ROW);
    }
}

/// Compares what a large table answers of some of these code points, and of one behind the last of them.
fn all_are<W: Weights>(rt: &impl Abort, table: &W) {
    for number in &[0, 1, 9, 10, 28_671, 28_672, 65_536, 99_990, 99_999] {
        many_are(rt, table, *number);
    }
    string_is(rt, table, &[0x30000 + MANY, 0x61], 0, NO_ROW);
}

#[test]
fn answers_by_many_rows(rt: HostRuntime) {
    let alloc = rt.alloc();
    let file = many_rows(&rt, alloc);
    let table = table_of(&rt, alloc, &file, None);
    all_are(&rt, &table);
    drop(table);
    let plain = plain_of(&rt, alloc, &file);
    all_are(&rt, &plain);
    drop(plain);
    file_is(&rt, alloc, file.as_bytes(), Ok((2, 2)));
}

#[test]
fn replaces_one_of_many_rows(rt: HostRuntime) {
    let alloc = rt.alloc();
    let file = many_rows(&rt, alloc);
    let tailor = "30000 0061 ; [.0001.0020.0002]";
    let table = table_of(&rt, alloc, &file, Some(tailor.as_bytes()));
    string_is(&rt, &table, &[0x30000, 0x61], 2, (1, 1, false));
    many_are(&rt, &table, 10);
    many_are(&rt, &table, 99_990);
    drop(table);
}

/// As many strings of two code points that begin with `a`, and with every hundredth one of three.
fn strings_after_one(rt: &impl Abort, alloc: Global) -> String {
    let mut file = String::new(alloc);
    put_row(rt, &mut file, &[0x61], 0x1C00, 1);
    for number in 0..MANY {
        let second = 0x20000 + number;
        let weight = u32::from(weight_of(number));
        put_row(rt, &mut file, &[0x61, second], weight, 1);
        if number % 100 == 0 {
            put_row(rt, &mut file, &[0x61, second, 0x62], weight, 1);
        }
    }
    file
}

/// Compares what the table of these strings answers of one of them.
fn strings_are<W: Weights>(rt: &impl Abort, table: &W, number: u32) {
    let second = 0x20000u32.wrapping_add(number);
    let row = (1, weight_of(number), false);
    string_is(rt, table, &[0x61, second], 2, row);
    string_is(rt, table, &[0x61, second, 0x61], 2, NO_ROW);
    if number % 100 == 0 {
        string_is(rt, table, &[0x61, second, 0x62], 3, row);
    } else {
        string_is(rt, table, &[0x61, second, 0x62], 2, NO_ROW);
    }
}

/// Compares what it answers of some of them, and of two others.
fn all_strings_are<W: Weights>(rt: &impl Abort, table: &W) {
    for number in &[0, 1, 99, 100, 99_900, 99_999] {
        strings_are(rt, table, *number);
    }
    string_is(rt, table, &[0x61, 0x20000 + MANY], 1, NO_ROW);
    string_is(rt, table, &[0x62, 0x20000], 0, NO_ROW);
}

#[test]
fn answers_by_many_strings_after_one_code_point(rt: HostRuntime) {
    let alloc = rt.alloc();
    let file = strings_after_one(&rt, alloc);
    let table = table_of(&rt, alloc, &file, None);
    all_strings_are(&rt, &table);
    drop(table);
    let plain = plain_of(&rt, alloc, &file);
    all_strings_are(&rt, &plain);
    drop(plain);
    file_is(&rt, alloc, file.as_bytes(), Ok((3, 2)));
}
