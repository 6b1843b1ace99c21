//! What no clause says of `collation_letters`: that letters are found, and which, over a small table.

use crate::calls::{
    KEPT, ONE, SHIFTED, Settings, TABLE, TWO, compile, holds, put, repeated, same, same_at,
    table_of, text_is,
};
use collation_elements::{Key, Strength};
use collation_letters::{Cluster, Letter, Letters, symbol_in, symbol_of};
use collation_pattern::Pattern;
use collation_table::Table;
use std::alloc::{AllocError, Global};
use std::process::Abort;

/// Rows beside those of the table: `x` has three elements, `y` four, and `z` the key `LIKE_A`.
const MORE: &str = "0078 ; [.1CA0.0020.0002][.1C00.0020.0002][.1C10.0020.0002]
0079 ; [.1CB0.0020.0002][.1C00.0020.0002][.1C10.0020.0002][.1C00.0020.0002]
007A ; [.2000.0020.0002]
";

/// The table with these rows.
fn table_with_more(rt: &impl Abort, alloc: Global) -> Table {
    table_of(rt, alloc, TABLE, Some(MORE.as_bytes()))
}

/// A letter as text: its role, its symbols (255 is none, 0 that of a foreign key), its points and the class of the last, and whether it
/// is closed and apart.
fn said(rt: &impl Abort, alloc: Global, letter: Letter) -> String {
    let Letter {
        role,
        is_closed,
        is_apart,
        points,
        class,
        symbols,
    } = letter;
    let closed = if is_closed { " closed" } else { "" };
    let apart = if is_apart { " apart" } else { "" };
    let (first, second, third) = (symbols.first, symbols.second, symbols.third);
    let mut text = String::new(alloc);
    write!(
        text,
        "{role:?} {first} {second} {third}; {points}/{class};{closed}{apart}"
    )
    .expect(rt, "memory");
    text
}

/// A letter as text begins with this.
fn letter_is(rt: &impl Abort, alloc: Global, letter: Letter, want: &str) {
    let text = said(rt, alloc, letter);
    holds(rt, text.starts_with(want), &(text.as_str(), want));
}

/// The letter of a character to a pattern, and that of two characters together, unless memory is refused.
fn try_letters(
    alloc: Global,
    table: &Table,
    pattern: &Pattern,
    c: char,
    pair: (char, char),
) -> Result<(Letter, Letter), AllocError> {
    let mut letters = Letters::new(alloc, table)?;
    let letter = letters.letter(table, pattern, c);
    let together = letters.pair(table, pattern, pair.0, pair.1);
    drop(letters);
    Ok((letter, together))
}

/// The letters.
fn letters(
    rt: &impl Abort,
    alloc: Global,
    settings: Settings<'_>,
    c: char,
    pair: (char, char),
) -> (Letter, Letter) {
    let table = table_with_more(rt, alloc);
    let pattern = compile(rt, alloc, &table, settings);
    let both = try_letters(alloc, &table, &pattern, c, pair).expect(rt, "the letters");
    drop(table);
    both
}

/// The letter of a character to a pattern.
fn letter(rt: &impl Abort, alloc: Global, settings: Settings<'_>, c: char) -> Letter {
    letters(rt, alloc, settings, c, ('c', 'h')).0
}

/// The letter of a character to a pattern begins with this.
fn letter_to_is(rt: &impl Abort, alloc: Global, pattern: &str, c: char, want: &str) {
    letter_is(rt, alloc, letter(rt, alloc, (pattern, ONE, KEPT), c), want);
}

/// Letters to a pattern of one key, with variable elements kept.
const OF_CHARACTERS: [(char, &str); 15] = [
    ('a', "Plain 255 255 1; 1/0; closed apart"),
    ('A', "Plain 255 255 1; 1/0; closed apart"),
    ('b', "Plain 255 255 0; 1/0; closed apart"),
    (' ', "Plain 255 255 0; 1/0; closed apart"),
    // begins `ch`, and stands in it behind the first place
    ('c', "Base 255 255 0; 1/0; apart"),
    ('h', "Plain 255 255 0; 1/0; closed"),
    ('\u{301}', "PrimaryMark 255 255 0; 1/230; closed"),
    ('\u{327}', "PrimaryMark 255 255 0; 1/202; closed"),
    ('\u{AD}', "Silent 255 255 255; 1/0; closed apart"),
    // a starter that begins no cluster, and has a key
    ('\u{20DD}', "PrimaryMark 255 255 0; 1/0; closed"),
    // `e` and a mark; `u` begins a mapped string of two
    ('\u{E9}', "Plain 255 255 0; 2/230; closed apart"),
    ('\u{FA}', "Base 255 255 0; 2/230; apart"),
    // implicit weights, of one point and of three
    ('\u{4E00}', "Plain 255 255 0; 1/0; closed apart"),
    ('\u{AC01}', "Plain 255 255 0; 3/0; closed apart"),
    // foreign, `a`, foreign: the last one puts away those before
    ('x', "Plain 255 255 0; 1/0; closed apart"),
];

#[test]
fn letters_of_characters(rt: HostRuntime) {
    let alloc = rt.alloc();
    for (c, want) in &OF_CHARACTERS {
        let letter = letter(&rt, alloc, ("a", TWO, KEPT), *c);
        text_is(&rt, &said(&rt, alloc, letter), *want);
    }
}

/// The circle is a starter that begins no cluster, and has a key from strength two on: it is a mark there. `y` has four keys.
const SHIFTED_LETTERS: [(char, Strength, &str); 9] = [
    (' ', TWO, "VariableBase 255 255 255;"),
    ('a', TWO, "Plain 255 255 1;"),
    ('\u{301}', TWO, "Mark 255 255 2;"),
    ('\u{327}', TWO, "Mark 255 255 0;"),
    ('\u{301}', ONE, "Mark 255 255 255;"),
    ('\u{AD}', TWO, "Silent 255 255 255;"),
    ('\u{20DD}', ONE, "Silent 255 255 255;"),
    ('\u{20DD}', TWO, "Mark 255 255 0; 1/0; closed"),
    ('y', TWO, "Steps"),
];

#[test]
fn letters_in_shifted_weighting(rt: HostRuntime) {
    let alloc = rt.alloc();
    for (c, strength, want) in &SHIFTED_LETTERS {
        let letter = letter(&rt, alloc, ("a\u{301}", *strength, SHIFTED), *c);
        letter_is(&rt, alloc, letter, *want);
    }
}

const A: Key = Key::Primary(0x1C00, 0, 0);

const B: Key = Key::Primary(0x1C10, 0, 0);

/// So many letters `a`, the rest of a pattern, a key and its symbol. A key has the first place where it stands, if that is one of the
/// first 254; a pattern of more than 1,024 keys has no symbols.
type Symbol<'a> = (usize, &'a str, Key, Option<u8>);

const SYMBOLS: [Symbol; 9] = [
    (2, "b", A, Some(1)),
    (2, "b", B, Some(3)),
    (1, "", B, Some(0)),
    (253, "b", B, Some(254)),
    (254, "b", A, Some(1)),
    (254, "b", B, None),
    (1_024, "", A, Some(1)),
    (1_024, "", B, Some(0)),
    (1_025, "", A, None),
];

/// The symbol of a key to a pattern.
fn symbol_to(rt: &impl Abort, alloc: Global, table: &Table, text: &str, key: &Key) -> Option<u8> {
    symbol_of(&compile(rt, alloc, table, (text, ONE, KEPT)), key)
}

/// Compares the symbol of a row.
fn symbol_is(rt: &impl Abort, alloc: Global, table: &Table, row: &Symbol<'_>) {
    let (count, rest, key, want) = *row;
    let mut text = repeated(rt, alloc, "a", count);
    put(rt, &mut text, rest);
    let symbol = symbol_to(rt, alloc, table, &text, &key);
    same_at(rt, &symbol, &want, &(key, count));
}

#[test]
fn symbols_of_keys(rt: HostRuntime) {
    let alloc = rt.alloc();
    let table = table_with_more(&rt, alloc);
    for row in &SYMBOLS {
        symbol_is(&rt, alloc, &table, row);
    }
    drop(table);
}

#[test]
fn letters_of_many_keys(rt: HostRuntime) {
    let alloc = rt.alloc();
    let more = repeated(&rt, alloc, "a", 1_025);
    letter_to_is(&rt, alloc, more.as_str(), 'a', "Steps");
    letter_to_is(&rt, alloc, "ab", 'x', "Base 0 1 2;");
}

/// A key that has the place of `A` in the set of a pattern's keys.
const LIKE_A: Key = Key::Primary(0x2000, 0, 0);

/// So many letters `a`, so many `b`, a key, whether the pattern may have it, and its symbol in a pattern of any length.
type Long = (usize, usize, Key, bool, Option<u8>);

const LONG: [Long; 13] = [
    (253, 1, B, true, Some(254)),
    (254, 1, B, true, None),
    (253, 771, B, true, Some(254)),
    (254, 770, B, true, None),
    (1_024, 0, A, true, Some(1)),
    (1_024, 0, B, false, Some(0)),
    (1_024, 0, LIKE_A, true, Some(0)),
    (1_025, 0, A, true, Some(1)),
    (1_025, 0, B, false, Some(0)),
    (1_025, 0, LIKE_A, true, None),
    (253, 772, B, true, Some(254)),
    (254, 771, B, true, None),
    (1_024, 1, B, true, None),
];

/// The letters of three characters to a pattern of any length, unless memory is refused.
fn try_long(alloc: Global, table: &Table, pattern: &Pattern) -> Result<[Letter; 3], AllocError> {
    let mut letters = Letters::for_long_patterns(alloc, table)?;
    let first = letters.letter(table, pattern, 'a');
    let foreign = letters.letter(table, pattern, 'b');
    let together = letters.pair(table, pattern, 'c', 'h');
    drop(letters);
    Ok([first, foreign, together])
}

/// Whether a pattern may have a key, its symbol in a pattern of any length, and that in one that is not too long, else the same.
fn long_symbols(
    rt: &impl Abort,
    alloc: Global,
    table: &Table,
    text: &str,
    key: &Key,
) -> (bool, Option<u8>, Option<u8>) {
    let pattern = compile(rt, alloc, table, (text, ONE, KEPT));
    let symbol = symbol_in(&pattern, key);
    let short = if pattern.len() <= 1_024 {
        symbol_of(&pattern, key)
    } else {
        symbol
    };
    (pattern.may_have(key), symbol, short)
}

/// Compares the symbols of a row.
fn long_is(rt: &impl Abort, alloc: Global, table: &Table, row: &Long) {
    let (count, more, key, may_have, want) = *row;
    let mut text = repeated(rt, alloc, "a", count);
    put(rt, &mut text, &repeated(rt, alloc, "b", more));
    let symbols = long_symbols(rt, alloc, table, &text, &key);
    same_at(rt, &symbols, &(may_have, want, want), &(key, count));
}

#[test]
fn symbols_of_long_patterns(rt: HostRuntime) {
    let alloc = rt.alloc();
    let table = table_with_more(&rt, alloc);
    for row in &LONG {
        long_is(&rt, alloc, &table, row);
    }
    drop(table);
}

/// The letters of three characters to a pattern of any length are these.
fn long_are(rt: &impl Abort, alloc: Global, text: &str, want: [&str; 3]) {
    let table = table_with_more(rt, alloc);
    let pattern = compile(rt, alloc, &table, (text, ONE, KEPT));
    let three = try_long(alloc, &table, &pattern).expect(rt, "the letters");
    drop(table);
    let ([first, foreign, together], [one, two, three]) = (three, want);
    letter_is(rt, alloc, first, one);
    letter_is(rt, alloc, foreign, two);
    letter_is(rt, alloc, together, three);
}

#[test]
fn letters_of_long_patterns(rt: HostRuntime) {
    let alloc = rt.alloc();
    let text = repeated(&rt, alloc, "a", 1_025);
    let want = [
        "Plain 255 255 1; 1/0; closed apart",
        "Plain 255 255 0; 1/0; closed apart",
        "Plain 255 255 0; 2/0; closed apart",
    ];
    long_are(&rt, alloc, &text, want);
}

/// The beginning of a pattern and so many letters `b`, before a `z`; a key; from which place on the pattern may have it; and its symbol
/// where the pattern ends there, and where a thousand `b` follow. `A` and `LIKE_A` share a place in the set.
type Shared<'a> = (&'a str, usize, Key, usize, Option<u8>, Option<u8>);

const SHARED: [Shared; 13] = [
    ("", 251, LIKE_A, 251, Some(252), Some(252)),
    ("", 252, LIKE_A, 252, Some(253), Some(253)),
    ("", 253, LIKE_A, 253, Some(254), Some(254)),
    ("", 254, LIKE_A, 254, None, None),
    ("", 255, LIKE_A, 254, None, None),
    ("", 252, A, 252, Some(0), None),
    ("", 253, A, 253, Some(0), None),
    ("", 254, A, 254, Some(0), None),
    ("a", 251, LIKE_A, 0, Some(253), Some(253)),
    ("a", 252, LIKE_A, 0, Some(254), Some(254)),
    ("a", 253, LIKE_A, 0, None, None),
    ("a", 254, LIKE_A, 0, None, None),
    ("a", 254, A, 0, Some(1), Some(1)),
];

/// From which place on a pattern may have a key, and its symbol.
fn shared_symbol(
    rt: &impl Abort,
    alloc: Global,
    table: &Table,
    text: &str,
    key: &Key,
) -> (usize, Option<u8>) {
    let pattern = compile(rt, alloc, table, (text, ONE, KEPT));
    (pattern.may_have_from(key), symbol_in(&pattern, key))
}

/// The pattern of a row: so many letters `b` follow.
fn shared_text(rt: &impl Abort, alloc: Global, row: &Shared<'_>, more: usize) -> String {
    let mut text = repeated(rt, alloc, row.0, 1);
    put(rt, &mut text, &repeated(rt, alloc, "b", row.1));
    put(rt, &mut text, "z");
    put(rt, &mut text, &repeated(rt, alloc, "b", more));
    text
}

/// Compares the symbols of a row.
fn shared_are(rt: &impl Abort, alloc: Global, table: &Table, row: &Shared<'_>) {
    let (_first, count, key, from, short, long) = *row;
    let text = shared_text(rt, alloc, row, 0);
    let got = shared_symbol(rt, alloc, table, &text, &key);
    same_at(rt, &got, &(from, short), &(key, count));
    let text = shared_text(rt, alloc, row, 1_000);
    let got = shared_symbol(rt, alloc, table, &text, &key);
    same_at(rt, &got, &(from, long), &(key, count));
}

#[test]
fn symbols_of_keys_that_share_a_place(rt: HostRuntime) {
    let alloc = rt.alloc();
    let table = table_with_more(&rt, alloc);
    for row in &SHARED {
        shared_are(&rt, alloc, &table, row);
    }
    drop(table);
}

/// A character with marks behind it, and its letter to a pattern with the keys of `e` and of U+0301; none where one of them does not
/// join: a mark that goes before that of a composed letter, one that stands in the mapped string which its letter begins, and a fourth
/// key. The circle joins as a mark does, behind marks of any class.
const MARKED: [(&str, &str); 21] = [
    ("e\u{301}", "Base 255 1 2; 2/230;"),
    ("\u{E9}\u{301}", "Base 1 2 2; 3/230;"),
    ("\u{E9}\u{301}\u{301}", ""),
    ("e\u{327}", "Plain 255 255 0; 2/202;"),
    ("e\u{327}\u{301}", "Base 255 0 2; 3/230;"),
    ("e\u{301}\u{327}", "Base 255 0 2; 3/230; closed"),
    ("e\u{301}\u{300}\u{327}", "Plain 255 255 0; 4/230; closed"),
    ("\u{E9}\u{327}", ""),
    ("u\u{301}", ""),
    ("u\u{327}", "Base 255 255 0; 2/202;"),
    ("u\u{327}\u{301}", ""),
    (" \u{301}", "VariableBase 255 255 255; 2/230;"),
    ("\u{301}\u{301}", ""),
    ("\u{AD}\u{301}", ""),
    ("ee", ""),
    ("e\u{20DD}", "Plain 255 255 0; 2/0; closed"),
    ("e\u{301}\u{20DD}\u{301}", "Base 255 0 2; 4/230; closed"),
    ("u\u{20DD}", "Base 255 255 0; 2/0;"),
    (" \u{20DD}", "VariableBase 255 255 255; 2/0; closed"),
    ("\u{20DD}\u{301}", ""),
    ("\u{AD}\u{20DD}", ""),
];

/// That of a cluster, if there is one, and a mark.
fn with_mark(cluster: Option<Cluster>, table: &Table, c: char, mark: Letter) -> Option<Cluster> {
    cluster?.with_mark(table, c, mark)
}

/// The letter of a character with marks behind it; `None` where one of them does not join.
fn joined(rt: &impl Abort, alloc: Global, text: &str) -> Option<Letter> {
    let table = table_with_more(rt, alloc);
    let mut joined = None;
    for (offset, c) in text.char_indices() {
        let letter = letter(rt, alloc, ("e\u{301}", TWO, SHIFTED), c);
        joined = if offset == 0 {
            Some(Cluster::new(letter))
        } else {
            with_mark(joined, &table, c, letter)
        };
    }
    joined.map(|cluster| cluster.letter)
}

#[test]
fn marks_join(rt: HostRuntime) {
    let alloc = rt.alloc();
    for (text, want) in &MARKED {
        match joined(&rt, alloc, *text) {
            None => text_is(&rt, "", *want),
            Some(letter) => {
                holds(&rt, !want.is_empty(), text);
                letter_is(&rt, alloc, letter, *want);
            }
        }
    }
}

/// A letter has no more than 30 points.
#[test]
fn run_of_marks_is_cut(rt: HostRuntime) {
    let alloc = rt.alloc();
    let base = letter(&rt, alloc, ("e", ONE, KEPT), 'e');
    let mark = letter(&rt, alloc, ("e", ONE, KEPT), '\u{301}');
    let mut run = base;
    for points in 2..=30u8 {
        run = run.with_mark(mark).expect(&rt, "a letter");
        same(&rt, &run.points, &points);
    }
    same(&rt, &run.with_mark(mark).is_none(), &true);
}

/// Letters that are asked for one after the other of the same `Letters`. U+2061 has the place of `a`.
fn try_four(alloc: Global, table: &Table, pattern: &Pattern) -> Result<[Letter; 4], AllocError> {
    let mut letters = Letters::new(alloc, table)?;
    let first = letters.letter(table, pattern, 'a');
    let again = letters.letter(table, pattern, 'a');
    let other = letters.letter(table, pattern, '\u{2061}');
    let back = letters.letter(table, pattern, 'a');
    drop(letters);
    Ok([first, again, back, other])
}

/// The same of pairs. U+4063 with `h` has the place of `ch`.
fn try_four_pairs(
    alloc: Global,
    table: &Table,
    pattern: &Pattern,
) -> Result<[Letter; 4], AllocError> {
    let mut letters = Letters::new(alloc, table)?;
    let first = letters.pair(table, pattern, 'c', 'h');
    let again = letters.pair(table, pattern, 'c', 'h');
    let other = letters.pair(table, pattern, '\u{4063}', 'h');
    let back = letters.pair(table, pattern, 'c', 'h');
    drop(letters);
    Ok([first, again, back, other])
}

/// The first three of four letters are this, and the last one is that.
fn four_are(rt: &impl Abort, alloc: Global, four: [Letter; 4], want: &str, other: &str) {
    let [first, again, back, last] = four;
    letter_is(rt, alloc, first, want);
    letter_is(rt, alloc, again, want);
    letter_is(rt, alloc, back, want);
    letter_is(rt, alloc, last, other);
}

#[test]
fn same_letter_is_answered_again(rt: HostRuntime) {
    let alloc = rt.alloc();
    let table = table_with_more(&rt, alloc);
    let pattern = compile(&rt, alloc, &table, ("ach", TWO, KEPT));
    let four = try_four(alloc, &table, &pattern).expect(&rt, "the letters");
    four_are(&rt, alloc, four, "Plain 255 255 1;", "Plain 255 255 0;");
    let pairs = try_four_pairs(alloc, &table, &pattern).expect(&rt, "the letters");
    drop(table);
    four_are(&rt, alloc, pairs, "Plain 255 255 2;", "Steps");
}

/// `c` with `h` is mapped, and so is `u` with an accent; marks behind other characters, one that goes before a point of the first too.
const PAIRS: [(char, char, &str); 9] = [
    ('c', 'h', "Plain 255 255 2; 2/0; closed apart"),
    ('\u{823}', 'h', "Steps 255 255 255; 0/0;"),
    ('c', 'a', "Steps 255 255 255; 0/0;"),
    ('h', 'c', "Steps 255 255 255; 0/0;"),
    ('u', '\u{301}', "Base 255 255 0; 2/230;"),
    ('a', '\u{301}', "Plain 255 255 0; 2/230; closed"),
    ('\u{E9}', '\u{327}', "Plain 255 255 0; 3/230; closed"),
    ('\u{301}', '\u{327}', "Steps 255 255 255; 0/0;"),
    ('\0', '\0', "Steps 255 255 255; 0/0;"),
];

#[test]
fn letters_of_pairs(rt: HostRuntime) {
    let alloc = rt.alloc();
    for (first, second, want) in &PAIRS {
        let pair = (*first, *second);
        let (_letter, together) = letters(&rt, alloc, ("bch", TWO, KEPT), 'a', pair);
        text_is(&rt, &said(&rt, alloc, together), *want);
    }
}

/// To be run with each allocation refused in turn: where the first letters were refused, those that are asked for again are as
/// with ample memory. A refusal that meets the test itself stops it.
#[test]
fn refused_letters_are_asked_for_again(rt: HostRuntime) {
    let alloc = rt.alloc();
    let table = table_with_more(&rt, alloc);
    let pattern = compile(&rt, alloc, &table, ("a", TWO, KEPT));
    let _is_refused = try_letters(alloc, &table, &pattern, 'a', ('c', 'h')).is_err();
    let again = try_letters(alloc, &table, &pattern, 'a', ('c', 'h'));
    let (letter, pair) = again.expect(&rt, "the letters");
    drop(table);
    letter_is(&rt, alloc, letter, "Plain 255 255 1;");
    letter_is(&rt, alloc, pair, "Plain 255 255 0;");
}

/// Whether the letters of two characters are kept together, behind the letters of so many others.
fn try_kept(
    alloc: Global,
    table: &Table,
    pattern: &Pattern,
    others: u32,
    both: (char, char),
) -> Result<bool, AllocError> {
    let (first, second) = both;
    let mut letters = Letters::new(alloc, table)?;
    for code_point in 0x4E00..0x4E00u32.wrapping_add(others) {
        if let Some(c) = char::from_u32(code_point) {
            let _ = letters.letter(table, pattern, c);
        }
    }
    let _ = letters.letter(table, pattern, first);
    let _ = letters.letter(table, pattern, second);
    let are_known = letters.known(first).is_some() && letters.known(second).is_some();
    drop(letters);
    Ok(are_known)
}

/// The same.
fn are_kept(
    rt: &impl Abort,
    alloc: Global,
    table: &Table,
    pattern: &Pattern,
    others: u32,
    both: (char, char),
) -> bool {
    try_kept(alloc, table, pattern, others, both).expect(rt, "the letters")
}

/// Two characters, and how many others come before: from the first letter on those are kept together whose last eight bits differ, from the
/// 192nd on the last ten, from the 384th on the last twelve, and from the 4,096th on the last sixteen.
const TOGETHER: [(u32, char, char, bool); 8] = [
    (0, 'a', 'b', true),
    (0, 'a', '\u{161}', false),
    (189, 'a', '\u{161}', false),
    (190, 'a', '\u{161}', true),
    (381, 'a', '\u{461}', false),
    (382, 'a', '\u{461}', true),
    (4_093, 'a', '\u{1061}', false),
    (4_094, 'a', '\u{1061}', true),
];

#[test]
fn more_letters_are_kept_where_more_are_found(rt: HostRuntime) {
    let alloc = rt.alloc();
    let table = table_with_more(&rt, alloc);
    let pattern = compile(&rt, alloc, &table, ("a", TWO, KEPT));
    for (others, first, second, want) in &TOGETHER {
        let both = (*first, *second);
        let kept = are_kept(&rt, alloc, &table, &pattern, *others, both);
        same_at(&rt, &kept, want, &(*first, *second, *others));
    }
    drop(table);
}

/// To be run with 131 requests in a row refused too, which is how often the first 4,096 letters ask for places.
#[test]
fn refused_places_are_asked_for_again(rt: HostRuntime) {
    let alloc = rt.alloc();
    let table = table_with_more(&rt, alloc);
    let pattern = compile(&rt, alloc, &table, ("a", TWO, KEPT));
    let kept = are_kept(&rt, alloc, &table, &pattern, 4_096, ('a', 'b'));
    drop(table);
    same(&rt, &kept, &true);
}
