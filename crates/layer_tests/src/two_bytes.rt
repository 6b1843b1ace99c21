//! How much of a text of characters of two bytes `collation_skip` passes by in blocks, which no clause says: on both sides of each number
//! by which sets are chosen, kept and asked, and on made texts, beside a plain test of each byte. Blocks stop where two keys of the
//! pattern follow one another, and the automaton goes on there: so they are told apart.

use crate::calls::{KEPT, ONE, TABLE, compile, holds, put, repeated, same_at, table_of};
use crate::ways::{Place, Ways, ways_of};
use collation_pattern::Pattern;
use collation_table::Table;
use std::alloc::Global;
use std::process::Abort;

/// Ten letters of which patterns are made, and other ones.
const LETTERS: &str = "@version 0.0.0
0020 ; [*0201.0020.0002]
006D ; [.1C60.0020.0002]
0430 ; [.2000.0020.0002]
0431 ; [.2010.0020.0002]
0432 ; [.2020.0020.0002]
0433 ; [.2030.0020.0002]
0434 ; [.2040.0020.0002]
0435 ; [.2050.0020.0002]
0436 ; [.2060.0020.0002]
0437 ; [.2070.0020.0002]
0438 ; [.2080.0020.0002]
043A ; [.2090.0020.0002]
043B ; [.20A0.0020.0002]
043C ; [.20B0.0020.0002]
";

/// How many bytes the automaton passes by before sets are chosen for the first time.
const FIRST_WAIT: usize = 524_288;

/// How many a long text has that the automaton passes by.
const MUCH: usize = 65_536;

/// The fewest bytes of a text by which sets are chosen.
const SAMPLE: usize = 1_024;

/// The fewest bytes that blocks pass by.
const WORTH: usize = 32;

/// A text, how many times it comes, and how much of it is passed by each time.
type Row<'a> = (&'a [u8], usize, usize);

/// How much is passed by of a text.
fn len_of(place: Option<Place>) -> usize {
    match place {
        Some((_start, end, _next)) => end,
        None => 0,
    }
}

/// Compares how much is passed by of a text, each time that it comes.
fn compare_row(rt: &impl Abort, ways: &mut Ways<'_>, row: &Row<'_>) {
    let (text, times, want) = *row;
    for time in 0..times {
        let len = len_of(ways.pass(text, text.len()));
        same_at(rt, &len, &want, &(time, text.len()));
    }
}

/// Compares each row in turn.
fn compare_rows(rt: &impl Abort, ways: &mut Ways<'_>, rows: &[Row<'_>]) {
    for row in rows {
        compare_row(rt, ways, row);
    }
}

/// A text of so many bytes, of which all is passed by but for the last character: characters of two bytes, and one of ASCII where the number
/// is odd.
fn calm(rt: &impl Abort, alloc: Global, len: usize) -> String {
    let mut text = repeated(rt, alloc, "л", 1);
    if len % 2 == 1 {
        put(rt, &mut text, "m");
    }
    let more = repeated(rt, alloc, "л", (len / 2).saturating_sub(1));
    put(rt, &mut text, &more);
    text
}

/// A calm text with letters amid, behind so many bytes.
fn amid(rt: &impl Abort, alloc: Global, len: usize, letters: &str) -> String {
    let mut text = calm(rt, alloc, len);
    put(rt, &mut text, letters);
    put(rt, &mut text, &calm(rt, alloc, 100));
    text
}

/// How much of a text is passed by where nothing stops: all but for the last character, of two bytes.
fn all_of(text: &str) -> usize {
    text.len().saturating_sub(2)
}

/// The row of a text of which all is passed by.
fn all(text: &str, times: usize) -> Row<'_> {
    (text.as_bytes(), times, all_of(text))
}

/// What stands between stops in made texts, and what stops, or nearly does. Letters of the pattern stand in both.
const CALM: [&str; 8] = ["л", "м", "г", "m", " ", "д", "в", "б"];

const STOPS: [&str; 8] = ["аб", "ав", "ааб", "\u{575}", "аба", "аб", "ам", "абв"];

/// How far one from the other stops are in made texts, in characters.
const RATES: [usize; 4] = [10, 30, 100, 1_000];

/// The next number.
fn next(number: &mut u64) -> usize {
    *number = number
        .wrapping_mul(6_364_136_223_846_793_005)
        .wrapping_add(1);
    (*number >> 33) as usize
}

/// The next text by a number, of two hundred characters and more.
fn made_text(rt: &impl Abort, alloc: Global, number: &mut u64, rate: usize) -> String {
    let mut text = String::new(alloc);
    for _ in 0..200 {
        let drawn = next(number);
        if rate > 0 && drawn / 256 % rate == 0 {
            put(rt, &mut text, STOPS[drawn % 8]);
        } else {
            put(rt, &mut text, CALM[drawn % 8]);
        }
    }
    text
}

/// The byte at a place, 0 where there is none.
fn byte_at(text: &[u8], at: usize) -> u8 {
    text.get(at).copied().unwrap_or(0)
}

/// Whether a byte goes on behind the two before it, where `абв` is sought: it is no leading byte but that of its letters, it trails where the
/// one before it leads, and no `б` stands behind an `а`.
fn goes_on(text: &[u8], at: usize) -> bool {
    let earlier = byte_at(text, at.wrapping_sub(2));
    let before = byte_at(text, at.wrapping_sub(1));
    let here = byte_at(text, at);
    let is_behind_lead = before >= 0xC0;
    if matches!(here, 0x80..=0xBF) != is_behind_lead || (here >= 0xC0 && here != 0xD0) {
        return false;
    }
    !(is_behind_lead && earlier == 0xB0 && here == 0xB1)
}

/// How many bytes at the front of a text go on, up to `limit`.
fn going_len(text: &[u8], limit: usize) -> usize {
    let mut len = 0;
    for at in 0..limit {
        if len == at && goes_on(text, at) {
            len = at + 1;
        }
    }
    len
}

/// Whether a character ends here that is none of the pattern's first two, before a whole one.
fn may_end(text: &[u8], end: usize) -> bool {
    let last = byte_at(text, end.wrapping_sub(1));
    let len = match byte_at(text, end) {
        0..=0x7F => 1,
        0x80..=0xBF => return false,
        _ => 2,
    };
    last < 0xC0 && !matches!(last, 0xB0..=0xB1) && end.saturating_add(len) <= text.len()
}

/// How much of a text passes in blocks, up to `limit`.
fn passed_len(text: &[u8], limit: usize) -> usize {
    let mut passed = 0;
    for end in 1..=going_len(text, limit) {
        if may_end(text, end) {
            passed = end;
        }
    }
    passed
}

/// Compares how much is passed by in blocks of a text behind a calm one, up to a place before its end: whether it is so much that blocks do.
fn compare_piece(rt: &impl Abort, ways: &mut Ways<'_>, piece: &[u8], less: usize) -> bool {
    let limit = piece.len().saturating_sub(less);
    let len = len_of(ways.pass(piece, limit));
    let want = passed_len(piece, limit);
    if want < WORTH {
        return false;
    }
    same_at(rt, &len, &want, &(limit, piece));
    true
}

/// Compares made texts of each length, up to their ends and to places before them, each behind a calm one: how many of them are passed by
/// in blocks.
fn compare_made(rt: &impl Abort, alloc: Global, ways: &mut Ways<'_>, made: usize) -> usize {
    let mut number = 7u64;
    let mut count = 0usize;
    let calm = repeated(rt, alloc, "л", 250);
    for round in 0..made {
        let text = made_text(rt, alloc, &mut number, RATES[round % 4]);
        let piece = text.as_bytes().get(..round / 4).unwrap_or(b"");
        compare_row(rt, ways, &all(&calm, 1));
        if compare_piece(rt, ways, piece, (number >> 40) as usize % 4) {
            count = count.saturating_add(1);
        }
    }
    count
}

/// Compares rows where nothing was passed by before, and made texts behind them.
fn rows_are(
    rt: &impl Abort,
    alloc: Global,
    table: &Table,
    pattern: &Pattern,
    before: &[Row<'_>],
    rows: &[Row<'_>],
    made: usize,
) -> usize {
    let mut ways = ways_of(rt, alloc, table, pattern);
    compare_rows(rt, &mut ways, before);
    compare_rows(rt, &mut ways, rows);
    let count = compare_made(rt, alloc, &mut ways, made);
    drop(ways);
    count
}

/// Compares rows behind a sample, before which the automaton passed by so many bytes: how many made texts behind them were passed by in
/// blocks.
fn rows_after(
    rt: &impl Abort,
    alloc: Global,
    sought: &str,
    bytes: usize,
    sample: &str,
    rows: &[Row<'_>],
    made: usize,
) -> usize {
    let table = table_of(rt, alloc, LETTERS, None);
    let pattern = compile(rt, alloc, &table, (sought, ONE, KEPT));
    let much = calm(rt, alloc, MUCH + 2);
    let rest = calm(rt, alloc, bytes % MUCH + 2);
    let before = [all(&much, bytes / MUCH), all(&rest, 1), all(sample, 1)];
    let count = rows_are(rt, alloc, &table, &pattern, &before, rows, made);
    drop(table);
    count
}

/// Compares rows where sets were chosen before, and made texts behind them.
fn rows_with_sets(rt: &impl Abort, alloc: Global, rows: &[Row<'_>], made: usize) -> usize {
    let sample = calm(rt, alloc, SAMPLE);
    rows_after(rt, alloc, "абв", FIRST_WAIT - 500, &sample, rows, made)
}

/// Compares how much is passed by of a text behind a sample.
fn probe_is(rt: &impl Abort, alloc: Global, sought: &str, sample: &str, probe: &str, want: usize) {
    let rows = [(probe.as_bytes(), 1, want)];
    rows_after(rt, alloc, sought, FIRST_WAIT - 500, sample, &rows, 0);
}

/// How much passes by of a text with a match behind 200 bytes: up to the match in blocks, where sets are chosen, and else all.
fn probe_len(probe: &str, is_chosen: bool) -> usize {
    if is_chosen { 200 } else { all_of(probe) }
}

/// Compares a row behind a calm sample, where so many bytes fewer pass by before than are waited for.
fn first_wait_is(rt: &impl Abort, alloc: Global, less: usize, row: Row<'_>) {
    let sample = calm(rt, alloc, 1_102);
    let bytes = (FIRST_WAIT - 1_100).saturating_sub(less);
    rows_after(rt, alloc, "абв", bytes, &sample, &[row], 0);
}

/// The same behind a sample by which no sets are found, and twice as many bytes.
fn second_wait_is(rt: &impl Abort, alloc: Global, less: usize, row: Row<'_>) {
    let vain = repeated(rt, alloc, "лллллл\u{4E00}л", 80);
    let much = calm(rt, alloc, MUCH + 2);
    let rest = calm(rt, alloc, (MUCH - 1_098).saturating_sub(less));
    let sample = calm(rt, alloc, 1_102);
    let rows = [all(&much, 15), all(&rest, 1), all(&sample, 1), row];
    rows_after(rt, alloc, "абв", FIRST_WAIT - 1_000, &vain, &rows, 0);
}

/// Compares both, where sets are chosen or not.
fn waits_are(rt: &impl Abort, alloc: Global, less: usize, is_chosen: bool) {
    let probe = amid(rt, alloc, 200, "аб");
    let row = (probe.as_bytes(), 1, probe_len(&probe, is_chosen));
    first_wait_is(rt, alloc, less, row);
    second_wait_is(rt, alloc, less, row);
}

/// Sets are chosen where the automaton has passed by as many bytes, and not before; where none are found, twice as many bytes later.
#[test]
fn sets_wait_for_bytes(rt: HostRuntime) {
    let alloc = rt.alloc();
    waits_are(&rt, alloc, 0, true);
    waits_are(&rt, alloc, 1, false);
}

/// Characters of two bytes of which none has another's leading byte, and none stops.
const LEADS: [&str; 9] = [
    "\u{435}", "\u{1B5}", "\u{275}", "\u{2B5}", "\u{2F5}", "\u{575}", "\u{4B5}", "\u{535}",
    "\u{6B5}",
];

/// The first of them, so many, each behind so many bytes.
fn leads(rt: &impl Abort, alloc: Global, from: usize, count: usize, before: usize) -> String {
    let mut text = String::new(alloc);
    for at in 0..count {
        if let Some(lead) = LEADS.get(at.saturating_add(from)) {
            put(rt, &mut text, &calm(rt, alloc, before));
            put(rt, &mut text, *lead);
        }
    }
    text
}

/// Compares whether sets are chosen by a sample.
fn sample_is(rt: &impl Abort, alloc: Global, sample: &str, is_chosen: bool) {
    let probe = amid(rt, alloc, 200, "аб");
    let want = probe_len(&probe, is_chosen);
    probe_is(rt, alloc, "абв", sample, &probe, want);
}

/// Compares it of a calm sample of so many bytes.
fn length_is(rt: &impl Abort, alloc: Global, len: usize, is_chosen: bool) {
    sample_is(rt, alloc, &calm(rt, alloc, len), is_chosen);
}

/// Compares it of a sample of which so many blocks halt.
fn halts_are(rt: &impl Abort, alloc: Global, halts: usize, is_chosen: bool) {
    let mut sample = leads(rt, alloc, 1, halts, 30);
    put(rt, &mut sample, &calm(rt, alloc, SAMPLE));
    sample_is(rt, alloc, &sample, is_chosen);
}

/// Compares it of a sample that has so many leading bytes.
fn leads_are(rt: &impl Abort, alloc: Global, count: usize, is_chosen: bool) {
    let all = leads(rt, alloc, 0, count, 0);
    sample_is(rt, alloc, &repeated(rt, alloc, &all, 70), is_chosen);
}

/// Sets are chosen by a text that is long enough, where few of its blocks halt, and it has few leading bytes.
#[test]
fn sets_are_chosen_by_a_sample(rt: HostRuntime) {
    let alloc = rt.alloc();
    length_is(&rt, alloc, SAMPLE - 1, false);
    length_is(&rt, alloc, SAMPLE, true);
    halts_are(&rt, alloc, 4, true);
    halts_are(&rt, alloc, 5, false);
    leads_are(&rt, alloc, 8, true);
    leads_are(&rt, alloc, 9, false);
}

/// Compares how much passes by behind a sample that has a leading byte so many times.
fn seldom_is(rt: &impl Abort, alloc: Global, count: usize, want: usize) {
    let mut probe = amid(rt, alloc, 100, "\u{575}");
    put(rt, &mut probe, &amid(rt, alloc, 0, "аб"));
    let one = amid(rt, alloc, 0, "\u{575}");
    let mut sample = repeated(rt, alloc, &one, count);
    put(rt, &mut sample, &calm(rt, alloc, SAMPLE));
    probe_is(rt, alloc, "абв", &sample, &probe, want);
}

/// A leading byte that a sample has four times halts; one that it has five times does not.
#[test]
fn seldom_leading_bytes_halt(rt: HostRuntime) {
    let alloc = rt.alloc();
    seldom_is(&rt, alloc, 4, 100);
    seldom_is(&rt, alloc, 5, 204);
}

/// Letters that make a pattern.
const KEYS: [&str; 10] = ["а", "б", "в", "г", "д", "е", "ж", "з", "и", "к"];

/// So many of them, from a place on.
fn keys(rt: &impl Abort, alloc: Global, place: usize, count: usize) -> String {
    let mut text = String::new(alloc);
    for at in 0..count {
        if let Some(key) = KEYS.get(at.saturating_add(place)) {
            put(rt, &mut text, *key);
        }
    }
    text
}

/// All two neighbours of the first ones, so many, but for those at a place.
fn other_keys(rt: &impl Abort, alloc: Global, count: usize, but: usize) -> String {
    let mut text = String::new(alloc);
    for place in 0..count.saturating_sub(1) {
        if place != but {
            put(rt, &mut text, &keys(rt, alloc, place, 2));
            put(rt, &mut text, "ллллл");
        }
    }
    text
}

/// Compares whether a place is found of a pattern of so many keys: that of two keys that no other text of the sample has.
fn place_is(rt: &impl Abort, alloc: Global, count: usize, place: usize, is_found: bool) {
    let others = other_keys(rt, alloc, count, place);
    let sample = repeated(rt, alloc, &others, 14);
    let probe = amid(rt, alloc, 200, &keys(rt, alloc, place, 2));
    let want = probe_len(&probe, is_found);
    probe_is(rt, alloc, &keys(rt, alloc, 0, count), &sample, &probe, want);
}

/// The place of the pattern is the one at which the fewest blocks of the sample halt, of the first eight.
#[test]
fn eight_places_are_tried(rt: HostRuntime) {
    let alloc = rt.alloc();
    place_is(&rt, alloc, 8, 6, true);
    place_is(&rt, alloc, 9, 7, true);
    place_is(&rt, alloc, 10, 7, true);
    place_is(&rt, alloc, 10, 8, false);
}

/// Compares how much passes by of a text with a match behind so many bytes, and of a calm one of as many.
fn short_is(rt: &impl Abort, alloc: Global, len: usize) {
    let text = amid(rt, alloc, len, "аб");
    let want = if len < WORTH { all_of(&text) } else { len };
    let short = calm(rt, alloc, len);
    rows_with_sets(rt, alloc, &[(text.as_bytes(), 1, want), all(&short, 1)], 0);
}

/// Fewer than 32 bytes are left to the automaton, or to what passes by characters one by one.
#[test]
fn few_bytes_do_not_pay(rt: HostRuntime) {
    for len in &[17, 18, 31, 32, 33, 34] {
        short_is(&rt, rt.alloc(), *len);
    }
}

/// The most bytes that blocks pass by at once.
const MOST: usize = 8_192;

/// How many more bytes a text has, and how many pass at once.
const AT_ONCE: [(usize, usize); 5] = [
    (0, MOST - 2),
    (1, MOST - 1),
    (2, MOST),
    (3, MOST - 1),
    (4, MOST),
];

/// Compares how much passes by of a calm text.
fn calm_is(rt: &impl Abort, alloc: Global, len: usize, want: usize) {
    let text = calm(rt, alloc, len);
    rows_with_sets(rt, alloc, &[(text.as_bytes(), 1, want)], 0);
}

/// At most 8,192 bytes pass at once, up to the end of a character.
#[test]
fn blocks_of_two_bytes_pass_so_much_at_once(rt: HostRuntime) {
    for (more, want) in &AT_ONCE {
        calm_is(&rt, rt.alloc(), MOST.saturating_add(*more), *want);
    }
}

/// Compares how much passes by of a text with a match behind so many keys of the pattern, behind which the text may not be left.
fn way_back_is(rt: &impl Abort, alloc: Global, count: usize, is_found: bool) {
    let mut own = repeated(rt, alloc, "б", count);
    put(rt, &mut own, "аб");
    let text = amid(rt, alloc, 200, &own);
    let want = probe_len(&text, is_found);
    rows_with_sets(rt, alloc, &[(text.as_bytes(), 1, want)], 0);
}

/// The character behind which a text is left begins in the last 512 bytes that pass; where the pattern has all of those, the automaton goes
/// on.
#[test]
fn way_back_has_512_bytes(rt: HostRuntime) {
    let alloc = rt.alloc();
    way_back_is(&rt, alloc, 0, true);
    way_back_is(&rt, alloc, 253, true);
    way_back_is(&rt, alloc, 254, false);
}

/// A calm text behind so many bytes of ASCII.
fn behind_ascii(rt: &impl Abort, alloc: Global, len: usize) -> String {
    let mut text = repeated(rt, alloc, "m", len);
    put(rt, &mut text, &calm(rt, alloc, 200));
    text
}

/// Compares how much passes by of a text, behind one that begins with so many bytes of ASCII: all, or those of ASCII.
fn turn_is(rt: &impl Abort, alloc: Global, len: usize, is_all: bool) {
    let calm_text = calm(rt, alloc, 200);
    let near = behind_ascii(rt, alloc, len);
    let probe = behind_ascii(rt, alloc, 40);
    let last = (
        probe.as_bytes(),
        1,
        if is_all { all_of(&probe) } else { 39 },
    );
    // by its front a place is chosen for blocks of ASCII
    let mut sample = repeated(rt, alloc, "m", 16);
    put(rt, &mut sample, &calm(rt, alloc, SAMPLE));
    let rows = [all(&calm_text, 1), all(&near, 1), last];
    rows_after(rt, alloc, "абв", FIRST_WAIT - 500, &sample, &rows, 0);
}

/// Where the first 256 bytes of what is passed by are of ASCII, blocks of ASCII come first then, and else those of two bytes.
#[test]
fn text_that_is_near_tells_the_turn(rt: HostRuntime) {
    let alloc = rt.alloc();
    turn_is(&rt, alloc, 255, true);
    turn_is(&rt, alloc, 256, false);
}

/// Compares whether sets are kept behind 95 texts that have 32 bytes each that are passed by, one of so many bytes, and some of 32 again.
fn last_is(rt: &impl Abort, alloc: Global, len: usize, more: usize, are_kept: bool) {
    let text = calm(rt, alloc, 34);
    let other = calm(rt, alloc, len);
    let probe = amid(rt, alloc, 200, "аб");
    let last = (probe.as_bytes(), 1, probe_len(&probe, are_kept));
    let rows = [all(&text, 95), all(&other, 1), all(&text, more), last];
    rows_with_sets(rt, alloc, &rows, 0);
}

/// Sets are kept as long as 96 bytes are passed by of each text, one with the other, or at most 6,143 fewer since none was lacking.
#[test]
fn short_texts_end_sets(rt: HostRuntime) {
    let alloc = rt.alloc();
    last_is(&rt, alloc, 98, 0, true);
    last_is(&rt, alloc, 98, 1, false);
    last_is(&rt, alloc, 99, 1, true);
    last_is(&rt, alloc, 99, 2, false);
}

/// Blocks pass by as much as there is up to a byte that does not go on, of whatever length the text is.
#[test]
fn blocks_of_two_bytes_pass_all(rt: HostRuntime) {
    let count = rows_with_sets(&rt, rt.alloc(), &[], 1_200);
    holds(&rt, count > 600, &count);
}

/// Letters of which some are keys, and behind them two and three keys that follow one another, ten times.
fn text_of_keys(rt: &impl Abort, alloc: Global) -> String {
    let mut text = repeated(rt, alloc, "аде жз ", 40);
    put(rt, &mut text, "бва авг ");
    repeated(rt, alloc, &text, 10)
}

/// Compares how much passes by of it, before and after the automaton has passed by much.
fn keys_are(rt: &impl Abort, alloc: Global, table: &Table) {
    let pattern = compile(rt, alloc, table, ("бвг", ONE, KEPT));
    let text = text_of_keys(rt, alloc);
    let before = [(text.as_bytes(), 107, text.len().saturating_sub(1))];
    let rows = [(text.as_bytes(), 24, 480)];
    rows_are(rt, alloc, table, &pattern, &before, &rows, 0);
}

/// By moves of the automaton two keys of three are passed by, which stop the blocks. Once the automaton has passed by much, characters of
/// two bytes go in blocks, up to a place where two keys follow one another, also where letters have several keys.
#[test]
fn characters_of_two_bytes_pass_in_blocks(rt: HostRuntime) {
    let alloc = rt.alloc();
    let table = table_of(&rt, alloc, TABLE, None);
    keys_are(&rt, alloc, &table);
    drop(table);
}
