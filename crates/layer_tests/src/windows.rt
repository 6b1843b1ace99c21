//! How much the automaton of `collation_skip` passes by of a long piece, by windows that begin in guesses and by four runs, which no clause
//! says: as much as by single moves, as another automaton goes over short pieces of the same text, one behind the other.

use crate::calls::{KEPT, ONE, TABLE, compile, holds, same_at, table_of};
use crate::ways::{Place, Ways, ways_of};
use collation_pattern::Pattern;
use collation_table::Table;
use std::alloc::Global;
use std::process::Abort;

/// The fewest bytes of a piece for which guesses are made, after which there are some for shorter pieces too.
const WORTH_GUESSES: usize = 2_048;

/// How many bytes of a text meet the first of its marks that are out of order.
const FRONT: usize = 64;

/// The longest piece, in bytes.
const LONGEST: usize = 2_600;

/// Lengths of pieces, about those of one, two and three windows of twelve bytes too, and between which places each of them stops.
const SPANS: [(usize, usize, usize); 16] = [
    (WORTH_GUESSES, 0, 40),
    (WORTH_GUESSES, 2_000, 2_049),
    (WORTH_GUESSES - 1, 0, 40),
    (WORTH_GUESSES - 1, 2_000, 2_048),
    (WORTH_GUESSES + 1, 0, 40),
    (WORTH_GUESSES + 1, 2_000, 2_050),
    (LONGEST, 0, 40),
    (LONGEST, 1_020, 1_060),
    (LONGEST, 2_030, 2_070),
    (LONGEST, LONGEST - 50, LONGEST + 1),
    (12, 0, 13),
    (13, 0, 14),
    (14, 0, 15),
    (25, 0, 26),
    (26, 0, 27),
    (37, 0, 38),
];

/// What the text has again and again, and what stands at a place where it stops, if anything does: a match, or some of it.
type Case<'a> = (&'a str, &'a str);

/// Of `aab`: in ASCII, and amid characters of two and of three bytes, marks and a string of the table.
const CASES: [Case; 11] = [
    ("m", "b"),
    ("m", "aab"),
    ("mem", "aaaaaaaaaaaaaaab"),
    ("em m", "aaaaaaaaaaaaaaaaaaaaaaaaaaaaaaaaaaaaaaab"),
    ("д", "aab"),
    ("дm д", "aaaaaaaaaaaaaaab"),
    ("\u{4E00}e\u{301}u\u{301}mm", "aab"),
    ("\u{4E00}e\u{301}u\u{301}mm", "u\u{301}"),
    ("e\u{301}\u{327}mme\u{301}", "ab"),
    ("u\u{301}\u{327}\u{301}", "aaaaaaaaaaaaaaab"),
    ("\u{20DD}m\u{4E00}", "aab"),
];

/// A text in which something stands at a place.
fn made_text(case: Case<'_>, place: usize) -> [u8; LONGEST] {
    let (calm, stop) = (case.0.as_bytes(), case.1.as_bytes());
    let mut text = [0; LONGEST];
    let mut at = 0usize;
    for byte in &mut text {
        let behind = at.saturating_sub(place);
        *byte = if at < place {
            byte_of(calm, at)
        } else {
            match stop.get(behind) {
                Some(byte) => *byte,
                None => byte_of(calm, at.saturating_sub(stop.len())),
            }
        };
        at = at.saturating_add(1);
    }
    text
}

/// The byte at a place of a text that comes again and again.
fn byte_of(text: &[u8], at: usize) -> u8 {
    if text.is_empty() {
        return 0;
    }
    text[at % text.len()]
}

/// Where a piece of this length is left by single moves, over short pieces of it.
fn left_at(ways: &mut Ways<'_>, text: &[u8], len: usize) -> Option<(usize, usize)> {
    let mut left = None;
    let mut at = 0;
    for _ in 0..4 {
        let piece = text.get(at..).unwrap_or(b"");
        let reach = len.saturating_sub(at).min(WORTH_GUESSES - 1);
        if let Some((start, end, _next)) = ways.run_other(piece, reach, false) {
            left = Some((at.saturating_add(start), at.saturating_add(end)));
            at = at.saturating_add(end);
        }
    }
    left
}

/// Where the last character begins and ends that is passed by.
fn span_of(place: Option<Place>) -> Option<(usize, usize)> {
    let (start, end, _next) = place?;
    Some((start, end))
}

/// Where a piece is left.
fn end_of(span: Option<(usize, usize)>) -> usize {
    match span {
        Some((_start, end)) => end,
        None => 0,
    }
}

/// Compares where a piece of this length is left by windows, and by four runs before them. Four runs do not note where a text may be left, so
/// less may be passed by then: of a short piece as much as without guesses, which an automaton has once it went over a long one.
fn compare(rt: &impl Abort, ways: &mut Ways<'_>, text: &[u8], len: usize) {
    let want = left_at(ways, text, len);
    same_at(
        rt,
        &span_of(ways.run(text, len, false)),
        &want,
        &(len, text),
    );
    let by_four = span_of(ways.run(text, len, true));
    if len >= WORTH_GUESSES {
        holds(rt, end_of(by_four) <= end_of(want), &(len, text));
    } else {
        let without_guesses = span_of(ways.run_other(text, len, true));
        same_at(rt, &by_four, &without_guesses, &(len, text));
    }
}

/// Compares pieces of one length, which stop at each of some places in turn.
fn compare_span(rt: &impl Abort, ways: &mut Ways<'_>, case: Case<'_>, span: (usize, usize, usize)) {
    let (len, from, to) = span;
    for place in from..to {
        compare(rt, ways, &made_text(case, place), len);
    }
}

/// Compares pieces of each length of a text, of which the first one is so long that guesses are made.
fn compare_spans(rt: &impl Abort, alloc: Global, table: &Table, pattern: &Pattern, case: Case<'_>) {
    let mut ways = ways_of(rt, alloc, table, pattern);
    // behind the first mark that goes before another one states keep marks apart, from the next call on
    let text = made_text(case, 0);
    let _first = ways.run(&text, FRONT, false);
    let _other = ways.run_other(&text, FRONT, false);
    for span in &SPANS {
        compare_span(rt, &mut ways, case, *span);
    }
    drop(ways);
}

#[test]
fn long_pieces_pass_as_much_as_short_ones(rt: HostRuntime) {
    let alloc = rt.alloc();
    let table = table_of(&rt, alloc, TABLE, None);
    let pattern = compile(&rt, alloc, &table, ("aab", ONE, KEPT));
    for case in &CASES {
        compare_spans(&rt, alloc, &table, &pattern, *case);
    }
    drop(table);
}
