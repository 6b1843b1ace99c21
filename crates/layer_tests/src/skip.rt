//! What no clause says of `collation_skip`: that text is passed by, and how much, over a small table, also where memory was refused
//! before. Each way is tried by itself.

use crate::calls::{
    KEPT, ONE, SHIFTED, Settings, TABLE, THREE, TWO, compile, holds, joined, repeated, same_at,
    table_of,
};
use crate::ways::{Place, Ways, ways_of};
use collation_pattern::Pattern;
use collation_skip::Pace;
use collation_table::Table;
use std::alloc::Global;
use std::process::Abort;

/// The places where two ways stop, or one way twice, are these.
fn places_are(rt: &impl Abort, got: [Option<Place>; 2], want: [Option<Place>; 2], text: &str) {
    same_at(rt, &got, &want, &text);
}

/// What an automaton passes by of a piece, up to `reach`, where no move is known yet and where all are.
fn passed(
    rt: &impl Abort,
    alloc: Global,
    table: &Table,
    pattern: &Pattern,
    piece: &[u8],
    reach: usize,
) -> [Option<Place>; 2] {
    let mut ways = ways_of(rt, alloc, table, pattern);
    let first = ways.run(piece, reach, false);
    let second = ways.run(piece, reach, true);
    drop(ways);
    [first, second]
}

/// Compares what an automaton passes by.
fn passed_is(
    rt: &impl Abort,
    alloc: Global,
    settings: Settings<'_>,
    piece: &[u8],
    reach: usize,
    want: Option<Place>,
) {
    let table = table_of(rt, alloc, TABLE, None);
    let pattern = compile(rt, alloc, &table, settings);
    let places = passed(rt, alloc, &table, &pattern, piece, reach);
    drop(table);
    places_are(rt, places, [want, want], settings.0);
}

/// A pattern of one key, of two, or of many, a text, and where it is left.
const TEXTS: [(&str, &str, Option<Place>); 22] = [
    ("b", "mmmmmmmmmm", Some((8, 9, 'm'))),
    ("b", "mmab", Some((2, 3, 'b'))),
    ("b", "mbm", Some((0, 1, 'b'))),
    ("b", "bmm", None),
    ("b", "m", None),
    ("b", "", None),
    ("ab", "mmabmm", Some((1, 2, 'a'))),
    ("ab", "mmamm", Some((3, 4, 'm'))),
    ("ab", "mmaamb", Some((4, 5, 'b'))),
    // a key of the pattern behind which none has matched
    ("ab", "mmbb", Some((2, 3, 'b'))),
    ("ab", "mmab", Some((1, 2, 'a'))),
    // a character of three bytes, and one of four
    ("b", "m\u{4E00}m\u{20000}m", Some((5, 9, 'm'))),
    // a mark joins Han; Han that the pattern has, behind which no key waits, or the first ones
    ("b", "mm\u{4E00}\u{301}mm", Some((7, 8, 'm'))),
    (
        "bbbbbbbbbbbbbbbbb",
        "mm\u{4E00}\u{301}mm",
        Some((7, 8, 'm')),
    ),
    (
        "bbbbbbbbbbbbbbbbb\u{4E00}",
        "mm\u{4E00}\u{4E00}mm",
        Some((8, 9, 'm')),
    ),
    (
        "\u{4E00}bbbbbbbbbbbbbbbbb",
        "mm\u{4E00}\u{4E00}mb",
        Some((8, 9, 'b')),
    ),
    // a mark joins the letter before it, and one behind a letter that begins a string of the table
    ("b", "me\u{301}mm", Some((4, 5, 'm'))),
    ("b", "mmu\u{301}mm", Some((5, 6, 'm'))),
    ("b", "\u{301}mm", None),
    // two characters that are one mapped string
    ("b", "mchmm", Some((3, 4, 'm'))),
    ("b", "mcmm", Some((2, 3, 'm'))),
    ("h", "mmch", Some((1, 2, 'c'))),
];

/// The same where the circle, a starter that begins no cluster, has a key: it joins the letter before it.
const CIRCLES: [(&str, &str, Option<Place>); 4] = [
    ("b", "mm\u{20DD}mm", Some((5, 6, 'm'))),
    ("b", "mm\u{301}\u{20DD}mbm", Some((7, 8, 'b'))),
    ("b", "\u{20DD}mm", None),
    ("e\u{20DD}", "mme\u{20DD}m", Some((1, 2, 'e'))),
];

/// Compares what is passed by of a whole text.
fn text_passes(
    rt: &impl Abort,
    alloc: Global,
    settings: Settings<'_>,
    text: &str,
    want: Option<Place>,
) {
    passed_is(rt, alloc, settings, text.as_bytes(), text.len(), want);
}

#[test]
fn text_is_passed_by(rt: HostRuntime) {
    for (pattern, text, want) in &TEXTS {
        text_passes(&rt, rt.alloc(), (*pattern, ONE, KEPT), *text, *want);
    }
    for (pattern, text, want) in &CIRCLES {
        text_passes(&rt, rt.alloc(), (*pattern, TWO, KEPT), *text, *want);
    }
}

/// A text, and where it is left at first and from then on.
const OUT_OF_ORDER: [(&str, Place, Place); 3] = [
    ("mme\u{301}\u{327}mm", (1, 2, 'e'), (7, 8, 'm')),
    ("mm\u{E9}\u{327}mm", (1, 2, '\u{E9}'), (6, 7, 'm')),
    ("mme\u{327}\u{301}mm", (7, 8, 'm'), (7, 8, 'm')),
];

/// A mark goes before another one, or before a point of a character: the first time it is a stop, and then states keep marks apart.
#[test]
fn marks_go_before_others(rt: HostRuntime) {
    let alloc = rt.alloc();
    let table = table_of(&rt, alloc, TABLE, None);
    let pattern = compile(&rt, alloc, &table, ("b", ONE, KEPT));
    for (text, first, again) in &OUT_OF_ORDER {
        let got = passed(&rt, alloc, &table, &pattern, text.as_bytes(), text.len());
        places_are(&rt, got, [Some(*first), Some(*again)], *text);
    }
}

/// Up to a character that begins not after `reach`, and not into a sequence that is ill-formed or incomplete.
const PIECES: [(&[u8], usize, Option<Place>); 6] = [
    (b"mmmmmmmm", 4, Some((2, 3, 'm'))),
    (b"mmmmmmmm", 1, None),
    (b"mmmmmmmm", 0, None),
    (b"mmm\xFFmm", 6, Some((1, 2, 'm'))),
    (b"mmm\x80mm", 6, Some((1, 2, 'm'))),
    (b"mmm\xE4\xB8mm", 7, Some((1, 2, 'm'))),
];

#[test]
fn less_is_passed_by(rt: HostRuntime) {
    for (piece, reach, want) in &PIECES {
        passed_is(&rt, rt.alloc(), ("b", ONE, KEPT), *piece, *reach, *want);
    }
}

/// Compares what is passed by of a text of so many `m`, with a `b` at a place if it has that.
fn stop_is(rt: &impl Abort, alloc: Global, len: usize, stop: usize, want: Place) {
    let before = repeated(rt, alloc, "m", stop);
    let behind = repeated(rt, alloc, "m", len);
    let text = joined(rt, alloc, &[before.as_str(), "b", behind.as_str()]);
    let piece = text.as_bytes().get(..len).unwrap_or(b"");
    passed_is(rt, alloc, ("b", ONE, KEPT), piece, len, Some(want));
}

/// Where the `b` stands in a text of 2,000 bytes, and where that is left.
const FOUR_RUNS: [(usize, Place); 6] = [
    (300, (299, 300, 'b')),
    (700, (699, 700, 'b')),
    (1_100, (1_099, 1_100, 'b')),
    (1_700, (1_699, 1_700, 'b')),
    (1_990, (1_989, 1_990, 'b')),
    (2_000, (1_998, 1_999, 'm')),
];

/// A long text, of which four runs pass as much by as one does: they stop in the first, second, third or fourth of them, or not.
#[test]
fn long_text_is_passed_by(rt: HostRuntime) {
    for (stop, want) in &FOUR_RUNS {
        stop_is(&rt, rt.alloc(), 2_000, *stop, *want);
    }
}

/// The same in a text of 3,000 bytes.
const WINDOWS: [(usize, Place); 5] = [
    (3, (2, 3, 'b')),
    (13, (12, 13, 'b')),
    (1_300, (1_299, 1_300, 'b')),
    (2_995, (2_994, 2_995, 'b')),
    (3_000, (2_998, 2_999, 'm')),
];

/// Compares what is passed by of a thousand `m` and two thousand `a`.
fn end_is(rt: &impl Abort, alloc: Global) {
    let before = repeated(rt, alloc, "m", 1_000);
    let behind = repeated(rt, alloc, "a", 2_000);
    let text = joined(rt, alloc, &[before.as_str(), behind.as_str()]);
    let want = Some((999, 1_000, 'a'));
    text_passes(rt, alloc, ("aab", ONE, KEPT), &text, want);
}

/// A text so long that windows are begun in guesses. They pass as much by as single moves do, where the first guess is wrong as well,
/// where the text stops in a window or in the last bytes, and where it may be passed by up to no place in the last windows.
#[test]
fn windows_pass_by_as_much(rt: HostRuntime) {
    let alloc = rt.alloc();
    for (stop, want) in &WINDOWS {
        stop_is(&rt, alloc, 3_000, *stop, *want);
    }
    end_is(&rt, alloc);
}

const VARIABLE: [(&str, Place); 3] = [
    ("mm mm", (3, 4, 'm')),
    ("mm  ", (1, 2, ' ')),
    ("m \u{301}mm", (4, 5, 'm')),
];

/// A space begins a cluster and has no key in shifted weighting, and so text is not left behind it.
#[test]
fn variable_characters_are_passed_by(rt: HostRuntime) {
    for (text, want) in &VARIABLE {
        text_passes(&rt, rt.alloc(), ("b", TWO, SHIFTED), *text, Some(*want));
    }
}

/// The one place or the other is this.
fn one_is(rt: &impl Abort, first: Option<Place>, again: Option<Place>, want: Option<Place>) {
    holds(rt, first == want || again == want, &(first, again));
}

/// To be run with each allocation refused in turn: where the moves of one automaton were refused less is passed by, if anything, and
/// the other one passes by all. A refusal that meets the test itself stops it.
#[test]
fn refused_moves_are_stops(rt: HostRuntime) {
    let alloc = rt.alloc();
    let table = table_of(&rt, alloc, TABLE, None);
    let pattern = compile(&rt, alloc, &table, ("b", ONE, KEPT));
    let text = b"mememememe";
    let [first, _] = passed(&rt, alloc, &table, &pattern, text, text.len());
    let [again, _] = passed(&rt, alloc, &table, &pattern, text, text.len());
    drop(table);
    one_is(&rt, first, again, Some((8, 9, 'e')));
}

/// The characters whose letters are known.
const KNOWN: [char; 5] = ['m', 'b', '\u{301}', '\u{4E00}', '\u{D55C}'];

/// Asks for the letters of these characters.
fn ask_letters(ways: &mut Ways<'_>) {
    for c in &KNOWN {
        ways.letter(*c);
    }
}

/// What passes by of a text where the automaton rests, as it does once nothing has paid: character by character.
fn one_by_one(
    rt: &impl Abort,
    alloc: Global,
    table: &Table,
    pattern: &Pattern,
    text: &str,
    reach: usize,
) -> [Option<Place>; 2] {
    let mut ways = ways_of(rt, alloc, table, pattern);
    ask_letters(&mut ways);
    let nothing = ways.pass(b"", 0);
    let place = ways.pass(text.as_bytes(), reach);
    drop(ways);
    [nothing, place]
}

/// A text, how many bytes of it may be passed by, and where it is left.
type Text<'a> = (&'a str, usize, Option<Place>);

/// Characters with other keys go one by one, before a character that is no mark, and that begins not after `reach`.
const CHARACTERS: [Text; 8] = [
    ("m\u{4E00}\u{D55C}m", 8, Some((4, 7, 'm'))),
    ("m\u{4E00}\u{D55C}m", 4, Some((1, 4, '\u{D55C}'))),
    ("m\u{4E00}\u{D55C}m", 3, Some((0, 1, '\u{4E00}'))),
    ("m\u{4E00}\u{D55C}m", 0, None),
    ("\u{4E00}mbm", 6, Some((3, 4, 'b'))),
    ("mm\u{301}m", 5, Some((0, 1, 'm'))),
    // the letter of `a` was not found before
    ("mmam", 4, Some((2, 3, 'm'))),
    ("bmm", 3, None),
];

/// Compares what passes by of the text of a row.
fn characters_are(
    rt: &impl Abort,
    alloc: Global,
    table: &Table,
    pattern: &Pattern,
    row: &Text<'_>,
) {
    let (text, reach, want) = *row;
    let places = one_by_one(rt, alloc, table, pattern, text, reach);
    places_are(rt, places, [None, want], text);
}

#[test]
fn characters_are_passed_by(rt: HostRuntime) {
    let alloc = rt.alloc();
    let table = table_of(&rt, alloc, TABLE, None);
    let pattern = compile(&rt, alloc, &table, ("b", ONE, KEPT));
    for row in &CHARACTERS {
        characters_are(&rt, alloc, &table, &pattern, row);
    }
    drop(table);
}

/// Rows beside those of the table, for blocks of ASCII. A unit may reach out of `l`. The control U+0001 has no key.
const TAILOR: &str = "0001 ; [.0000.0000.0000]
006C ; [.1C60.0020.0002]
006C 00B7 ; [.1C68.0020.0002]
006F ; [.1C70.0020.0002]
0074 ; [.1C80.0020.0002]
0078 ; [.1CA0.0020.0002]
00B7 ; [*0300.0020.0002]
";

/// What passes by of a text in blocks of ASCII, before and after a long one by which their place is chosen.
fn in_blocks(
    rt: &impl Abort,
    alloc: Global,
    settings: Settings<'_>,
    long: &[u8],
    text: &str,
    reach: usize,
) -> [Option<Place>; 2] {
    let table = table_of(rt, alloc, TABLE, Some(TAILOR.as_bytes()));
    let pattern = compile(rt, alloc, &table, settings);
    let mut ways = ways_of(rt, alloc, &table, &pattern);
    let before = ways.pass_blocks(text.as_bytes(), reach);
    let _long = ways.pass_blocks(long, 1_000);
    let after = ways.pass_blocks(text.as_bytes(), reach);
    drop(ways);
    drop(table);
    [before, after]
}

const TELL: &str = "a toll at bottle to tell all a total at a tab. ";

const AXLE: &str = "a toll at bottle to axle all a total at a tab. ";

const CONTROL: &str = "a toll at bottle to a\u{1}xle all a total at a tab. ";

const DOT: &str = "a toll at bottle to t\u{B7}ll all a total at a tab. ";

/// A pattern, a text, how many bytes of it may be passed by, and where it is left: all but for the last byte, up to one behind which no key
/// waits.
type Block<'a> = (&'a str, &'a str, usize, Option<Place>);

const BLOCKS: [Block; 13] = [
    ("ax", TELL, 47, Some((45, 46, ' '))),
    ("ax", TELL, 32, Some((31, 32, 'o'))),
    ("x", TELL, 47, Some((45, 46, ' '))),
    ("ax", TELL, 16, Some((15, 16, ' '))),
    ("ax", TELL, 1, None),
    ("ax", "", 47, None),
    // up to a byte where a match may end, a key may be followed by the next one behind a character without a key, or not all is ASCII
    ("ax", AXLE, 47, Some((19, 20, 'a'))),
    ("x", AXLE, 47, Some((20, 21, 'x'))),
    ("ax", CONTROL, 47, Some((19, 20, 'a'))),
    ("ax", DOT, 47, Some((19, 20, 't'))),
    // back to one behind which no key waits; nothing where there is none
    (
        "totx",
        "tototototoeototototototototototototot",
        37,
        Some((10, 11, 'o')),
    ),
    ("totx", "tototototototototototototototototot", 35, None),
    // also back to one that stands in the pattern behind the two of its place alone
    (
        "axto",
        "tototototototototototototototototot",
        33,
        Some((32, 33, 'o')),
    ),
];

/// Compares what passes by in blocks: nothing before a long text came, then this much.
fn block_is(rt: &impl Abort, alloc: Global, row: &Block<'_>) {
    let (sought, text, reach, want) = *row;
    let long = repeated(rt, alloc, if text.is_empty() { TELL } else { text }, 32);
    let settings = (sought, ONE, KEPT);
    let places = in_blocks(rt, alloc, settings, long.as_bytes(), text, reach);
    places_are(rt, places, [None, want], text);
}

#[test]
fn text_is_passed_by_in_blocks(rt: HostRuntime) {
    for row in &BLOCKS {
        block_is(&rt, rt.alloc(), row);
    }
}

/// At strength three, by a long text of one letter.
#[test]
fn waits_for_a_long_text(rt: HostRuntime) {
    let settings = ("ax", THREE, KEPT);
    let [before, after] = in_blocks(&rt, rt.alloc(), settings, &[b't'; 1_024], TELL, 47);
    holds(&rt, before.is_none() && after.is_some(), &TELL);
}

/// Compares how many bytes are walked over behind each try in vain that looked over so many.
fn losses_are(rt: &impl Abort, pace: &mut Pace, looked: &[usize], want: &[usize]) {
    for (at, len) in looked.iter().enumerate() {
        pace.lose(*len);
        let due = pace.wait_from(0);
        same_at(rt, &Some(due), &want.get(at).copied(), &at);
    }
}

/// Behind a try in vain twice as many bytes are walked over as before, up to 256, and no fewer than were looked over. What letters take
/// counts.
#[test]
fn bytes_are_walked_over_behind_tries_in_vain(rt: HostRuntime) {
    let mut pace = Pace::new(30);
    same_at(&rt, &pace.due(), &30, &"new");
    let looked = [0, 0, 0, 20, 0, 0, 0, 0, 1_000, 0];
    let want = [2, 4, 8, 20, 40, 80, 160, 256, 1_000, 256];
    losses_are(&rt, &mut pace, &looked, &want);
    pace.after_letters(200);
    same_at(&rt, &pace.due(), &56, &"taken");
    same_at(&rt, &pace.wait_from(100), &356, &"behind 100");
    pace.prepare(1_000, 2_000, false);
    same_at(&rt, &pace.due(), &1_000, &"prepared");
}

/// Before these characters a match stands, and so the automaton passes little of the text by.
const MATCH_AND_OTHERS: &str =
    "mbbmab\u{4E00}\u{4E00}\u{4E00}\u{4E00}\u{4E00}\u{4E00}\u{4E00}\u{4E00}\u{4E00}\u{4E00}";

/// Whether the automaton is asked of a text, of which it passes little by: it goes over keys of the pattern too, and characters one by one
/// stop before these.
fn is_asked(rt: &impl Abort, ways: &mut Ways<'_>) -> bool {
    let place = ways.pass(MATCH_AND_OTHERS.as_bytes(), MATCH_AND_OTHERS.len());
    let is_asked = place == Some((3, 4, 'a'));
    if !is_asked {
        same_at(rt, &place, &Some((0, 1, 'b')), &"where it rests");
    }
    is_asked
}

/// Compares how many times the automaton is not asked each time before it is.
fn rests_are(rt: &impl Abort, ways: &mut Ways<'_>, rests: &[usize]) {
    for rest in rests {
        for time in 0..=*rest {
            same_at(rt, &is_asked(rt, ways), &(time == *rest), &(time, *rest));
        }
    }
}

/// Where the automaton passed little by it rests twice as often as before, and once, up to 255 times. Once it has rested 31 times, it rests
/// half as often where it passed much by.
#[test]
fn automaton_rests(rt: HostRuntime) {
    let alloc = rt.alloc();
    let table = table_of(&rt, alloc, TABLE, None);
    let pattern = compile(&rt, alloc, &table, ("ab", ONE, KEPT));
    let mut ways = ways_of(&rt, alloc, &table, &pattern);
    rests_are(&rt, &mut ways, &[0, 1, 3, 7, 15, 31, 63, 127, 255, 255]);
    for time in 0..255 {
        same_at(&rt, &is_asked(&rt, &mut ways), &false, &time);
    }
    let much = repeated(&rt, alloc, "\u{4E00}", 40);
    let place = ways.pass(much.as_bytes(), 120);
    same_at(&rt, &place, &Some((114, 117, '\u{4E00}')), &"much");
    rests_are(&rt, &mut ways, &[127, 255]);
    drop(ways);
    drop(table);
}
