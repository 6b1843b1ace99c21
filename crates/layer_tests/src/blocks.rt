//! How much of a text of ASCII `collation_skip` passes by in blocks, which no public clause says: beside a plain way, byte by byte, for
//! patterns of one key and of two, in tables without strings of letters of ASCII and with one. The texts are made: dense in stops and
//! calm, with one stop at each place, and passed up to each place, so that each loop goes many rounds.

use crate::calls::{KEPT, ONE, TABLE, compile, holds, repeated, same_at, table_of};
use crate::ways::{Place, Ways, ways_of};
use collation_letters::{FOREIGN, Letter, Role};
use collation_pattern::Pattern;
use collation_table::Table;
use std::alloc::Global;
use std::process::Abort;

/// A table without strings of letters of ASCII.
const PLAIN: &str = "@version 0.0.0
0020 ; [*0201.0020.0002]
0061 ; [.1C00.0020.0002]
0062 ; [.1C10.0020.0002]
006D ; [.1C60.0020.0002]
";

/// The bytes of texts that are dense in stops: the pattern's two, others, two that are a string of one of the tables, and one that is not
/// ASCII.
const BYTES: [u8; 16] = *b"abababmmm chmm \xC3";

/// Those of calm texts: none of them stops, in any order, and behind some of them no text is left.
const CALM: [u8; 16] = *b"mmeb mhmbmme mbm";

/// What stops between calm bytes, for some patterns at least.
const STOPS: [[u8; 2]; 8] = [
    *b"ab",
    *b"ch",
    *b"ab",
    *b"am",
    *b"\xC3\xA9",
    *b"ab",
    *b"ch",
    *b"bc",
];

/// The longest text that is dense in stops, in bytes, those of one stop, and the longest calm one.
const SHORT: usize = 100;

const MIDDLE: usize = 200;

const LONG: usize = 600;

/// How many bytes a text has that may be left behind one place alone.
const IN_VAIN: usize = 8_200;

/// These places, among them those at the ends of blocks that are looked at from the end on.
const PLACES: [usize; 18] = [
    0, 1, 6, 7, 8, 22, 23, 255, 1_025, 2_050, 4_102, 8_166, 8_167, 8_182, 8_183, 8_197, 8_198,
    8_199,
];

/// The room of a shorter one, which may be left behind its first letter alone.
const FEW_IN_VAIN: usize = 48;

/// How far one from the other stops are in calm texts, where they have any.
const RATES: [usize; 4] = [50, 100, 200, 0];

/// How many texts of each kind there are, one kind behind the other: dense ones, those of one stop, those that may be passed by up to a
/// place, and calm ones.
const DENSE: usize = 12 * SHORT;

const OF_ONE_STOP: usize = 8 * MIDDLE;

const UP_TO: usize = 2 * MIDDLE;

const OF_CALM: usize = 800;

/// The bytes that stop: each of those that halt, a key before a later one, and one that joins before an inner one.
#[derive(Clone, Copy)]
struct Classes<'a> {
    halt: &'a [u8],
    key: &'a [u8],
    later: &'a [u8],
    joins: &'a [u8],
    inner: &'a [u8],
}

/// Those of `ab` and of `a`, in a table without strings of letters of ASCII and in one with the string `ch`.
const TWO: Classes<'static> = Classes {
    halt: b"",
    key: b"a",
    later: b"b",
    joins: b"",
    inner: b"",
};

const TWO_BESIDE_STRING: Classes<'static> = Classes {
    halt: b"",
    key: b"a",
    later: b"b",
    joins: b"c",
    inner: b"h",
};

const ONE_ALONE: Classes<'static> = Classes {
    halt: b"a",
    key: b"a",
    later: b"a",
    joins: b"",
    inner: b"",
};

const ONE_BESIDE_STRING: Classes<'static> = Classes {
    halt: b"a",
    key: b"a",
    later: b"a",
    joins: b"c",
    inner: b"h",
};

/// The byte at a place, one that does not pass where there is none.
fn byte_at(text: &[u8], at: usize) -> u8 {
    text.get(at).copied().unwrap_or(0xFF)
}

/// Whether a byte passes at the front of a piece.
fn front_passes(classes: &Classes<'_>, here: u8) -> bool {
    here < 128 && !classes.halt.contains(&here)
}

/// Whether a byte passes behind another.
fn byte_passes(classes: &Classes<'_>, before: u8, here: u8) -> bool {
    let is_pair = classes.key.contains(&before) && classes.later.contains(&here);
    let is_joined = classes.joins.contains(&before) && classes.inner.contains(&here);
    front_passes(classes, here) && !is_pair && !is_joined
}

/// How many bytes at the front of a piece pass, up to `limit`.
fn passed_len(classes: &Classes<'_>, piece: &[u8], limit: usize) -> usize {
    let mut len = 0;
    for at in 0..limit {
        let here = byte_at(piece, at);
        let passes = if at == 0 {
            front_passes(classes, here)
        } else {
            byte_passes(classes, byte_at(piece, at - 1), here)
        };
        if !passes {
            break;
        }
        len = at + 1;
    }
    len
}

/// How many of the first `len` bytes of a piece, which passed, have a byte of ASCII behind them.
fn followed_len(piece: &[u8], len: usize) -> usize {
    if byte_at(piece, len) < 128 {
        return len;
    }
    len.saturating_sub(1)
}

/// Whether a letter is a cluster out of which no unit reaches, with a last key that the pattern does not have.
fn is_clean(letter: &Letter) -> bool {
    match letter.role {
        Role::Plain => letter.symbols.third == FOREIGN,
        _ => false,
    }
}

/// The last of the first `len` bytes of a piece whose character is a cluster with a key that the pattern does not have. For patterns of one
/// and of two keys these are all behind which text may be left.
fn last_clean(ways: &mut Ways<'_>, piece: &[u8], len: usize) -> Option<usize> {
    for at in (0..len).rev() {
        if is_clean(&ways.letter(byte_at(piece, at) as char)) {
            return Some(at);
        }
    }
    None
}

/// Where a piece was left of which so many bytes passed.
fn left_at(ways: &mut Ways<'_>, piece: &[u8], len: usize) -> Option<(usize, usize)> {
    let start = last_clean(ways, piece, followed_len(piece, len))?;
    Some((start, start.saturating_add(1)))
}

/// Where the last character begins and ends that is passed by.
fn span_of(place: Option<Place>) -> Option<(usize, usize)> {
    let (start, end, _next) = place?;
    Some((start, end))
}

/// How many bytes of a made text there are, and up to which it may be passed by.
type Ends = (usize, usize);

/// The next number.
fn next(number: &mut u64) -> usize {
    *number = number
        .wrapping_mul(6_364_136_223_846_793_005)
        .wrapping_add(1);
    (*number >> 33) as usize
}

/// A text that is dense in stops: more bytes stop where `turn` is smaller.
fn dense_text(text: &mut [u8], number: &mut u64, round: usize) -> Ends {
    let (len, turn) = (round / 12, round % 12);
    for byte in text.iter_mut().take(SHORT) {
        let drawn = next(number);
        if (*number >> 60) as usize >= turn {
            *byte = BYTES[drawn % 16];
        }
    }
    (len, len.saturating_sub((*number >> 40) as usize % 4))
}

/// The next byte of a calm text, and the one behind it if it is the first of a stop, else 0.
fn calm_bytes(drawn: usize, rate: usize, second: u8) -> [u8; 2] {
    if second != 0 {
        [second, 0]
    } else if rate > 0 && drawn / 256 % rate == 0 {
        STOPS[drawn % 8]
    } else {
        [CALM[drawn % 16], 0]
    }
}

/// A calm text of each length in turn.
fn calm_text(text: &mut [u8], number: &mut u64, round: usize) -> Ends {
    let rate = RATES[round % 4];
    let mut second = 0;
    for byte in text.iter_mut() {
        let [first, behind] = calm_bytes(next(number), rate, second);
        *byte = first;
        second = behind;
    }
    let len = LONG.saturating_sub(next(number) % 500);
    (len, len.saturating_sub(next(number) % 20))
}

/// Writes a byte at a place, if the text has it.
fn put_byte(text: &mut [u8], place: usize, new: u8) {
    if let Some(byte) = text.get_mut(place) {
        *byte = new;
    }
}

/// A calm text with one stop, at each place in turn.
fn text_of_one_stop(text: &mut [u8], round: usize) -> Ends {
    let [first, second] = STOPS[round / MIDDLE % 8];
    put_byte(text, round % MIDDLE, first);
    put_byte(text, round % MIDDLE + 1, second);
    (MIDDLE, MIDDLE)
}

/// A calm text that may be passed by up to each place in turn, where it ends or not.
fn text_up_to(round: usize) -> Ends {
    let limit = round % MIDDLE;
    (if round < MIDDLE { limit } else { MIDDLE }, limit)
}

/// Compares where a text is left: how many bytes of it pass.
fn compare(
    rt: &impl Abort,
    ways: &mut Ways<'_>,
    classes: &Classes<'_>,
    piece: &[u8],
    limit: usize,
) -> usize {
    let passed = span_of(ways.pass_blocks(piece, limit));
    let len = passed_len(classes, piece, limit);
    same_at(rt, &passed, &left_at(ways, piece, len), &(len, piece));
    len
}

/// The text of a round, of letters that pass but for what it puts there.
fn made_text(text: &mut [u8], number: &mut u64, round: usize) -> Ends {
    text.fill(b'm');
    if round < DENSE {
        dense_text(text, number, round)
    } else if round < DENSE + OF_ONE_STOP {
        text_of_one_stop(text, round - DENSE)
    } else if round < DENSE + OF_ONE_STOP + UP_TO {
        text_up_to(round - DENSE - OF_ONE_STOP)
    } else {
        calm_text(text, number, round)
    }
}

/// Compares all texts: how many of them pass so far that two blocks at a time go five rounds.
fn compare_all(rt: &impl Abort, ways: &mut Ways<'_>, classes: &Classes<'_>) -> usize {
    let mut number = 7u64;
    let mut far = 0usize;
    let mut text = [b'm'; LONG];
    for round in 0..DENSE + OF_ONE_STOP + UP_TO + OF_CALM {
        let (len, limit) = made_text(&mut text, &mut number, round);
        let piece = text.get(..len).unwrap_or(b"");
        if compare(rt, ways, classes, piece, limit) > 5 * 32 {
            far = far.saturating_add(1);
        }
    }
    far
}

/// The same after a long text by which the place is chosen.
fn compare_after(
    rt: &impl Abort,
    alloc: Global,
    table: &Table,
    pattern: &Pattern,
    classes: &Classes<'_>,
) -> usize {
    let mut ways = ways_of(rt, alloc, table, pattern);
    let long = repeated(rt, alloc, "m", 1_024);
    let _long = ways.pass_blocks(long.as_bytes(), 1_000);
    let far = compare_all(rt, &mut ways, classes);
    drop(ways);
    far
}

/// Compares texts in the table of a file. Hundreds of them go many rounds.
fn compare_in(rt: &impl Abort, alloc: Global, file: &str, text: &str, classes: &Classes<'_>) {
    let table = table_of(rt, alloc, file, None);
    let pattern = compile(rt, alloc, &table, (text, ONE, KEPT));
    let far = compare_after(rt, alloc, &table, &pattern, classes);
    drop(table);
    holds(rt, far > 800, &far);
}

#[test]
fn blocks_pass_as_much_as_before(rt: HostRuntime) {
    let alloc = rt.alloc();
    compare_in(&rt, alloc, PLAIN, "ab", &TWO);
    compare_in(&rt, alloc, TABLE, "ab", &TWO_BESIDE_STRING);
    compare_in(&rt, alloc, PLAIN, "a", &ONE_ALONE);
    compare_in(&rt, alloc, TABLE, "a", &ONE_BESIDE_STRING);
}

/// A text that ends in letters behind which it can't be left: more and more of them.
fn compare_in_vain(rt: &impl Abort, ways: &mut Ways<'_>) {
    let mut text = [b'a'; FEW_IN_VAIN];
    put_byte(&mut text, 0, b'm');
    for len in 1..FEW_IN_VAIN {
        let piece = text.get(..len).unwrap_or(b"");
        let passed = compare(rt, ways, &TWO, piece, len);
        same_at(rt, &passed, &len, &len);
    }
}

/// A longer one, which may be left at one place alone.
fn compare_places(rt: &impl Abort, ways: &mut Ways<'_>) {
    let mut text = [b'a'; IN_VAIN];
    for place in PLACES {
        put_byte(&mut text, place, b'm');
        let passed = compare(rt, ways, &TWO, &text, IN_VAIN);
        same_at(rt, &passed, &IN_VAIN, &place);
        put_byte(&mut text, place, b'a');
    }
}

#[test]
fn blocks_are_left_near_their_end(rt: HostRuntime) {
    let alloc = rt.alloc();
    let table = table_of(&rt, alloc, PLAIN, None);
    let pattern = compile(&rt, alloc, &table, ("ab", ONE, KEPT));
    let mut ways = ways_of(&rt, alloc, &table, &pattern);
    let long = repeated(&rt, alloc, "m", 1_024);
    let _long = ways.pass_blocks(long.as_bytes(), 1_000);
    compare_in_vain(&rt, &mut ways);
    compare_places(&rt, &mut ways);
    drop(ways);
    drop(table);
}
