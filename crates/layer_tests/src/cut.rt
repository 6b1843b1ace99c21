//! What no clause says of `utf8_cut`: that the code does on rows from elsewhere what they say, and that `front` and a `Cut` agree on
//! many bytes. Expected values come from the Unicode Standard, table 3-7, or from `std`.
ghost use Rattle.std.specs.Prelude.{◌≡◌, List, [], ◌∷◌, Some, None, IsTrue, true, false};
ghost use Rattle.utf8_cut.specs.Characters.{characters, first_fault, ill_formed_at, is_utf8_prefix, is_incomplete_sequence};

use crate::calls::{holds, put, same, same_at, text_is};
use std::alloc::Global;
use std::process::Abort;
use utf8_cut::{
    Cut, Cutting, any_bytes_may_follow, ascii_len, first_character, front,
    incomplete_sequences_begin_characters, text_may_stand_before,
    whole_characters_are_the_longest_text,
};

/// The definitions on bytes that are written out.
fn worked_rows()
    ensures empty { characters [] ≡ [] }
    ensures empty_fault { first_fault [] ≡ None }
    ensures two_bytes { characters (0xC3 ∷ 0xA9 ∷ []) ≡ (0xE9, 0) ∷ [] }
    ensures not_continued { ill_formed_at (0xE2 ∷ 0x28 ∷ []) ≡ Some 0 }
    ensures surrogate { ill_formed_at (0xED ∷ 0xA0 ∷ []) ≡ Some 0 }
    ensures overlong_two { ill_formed_at (0xC0 ∷ []) ≡ Some 0 }
    ensures overlong_three { ill_formed_at (0x61 ∷ 0xE0 ∷ 0x9F ∷ []) ≡ Some 1 }
    ensures overlong_four { ill_formed_at (0xF0 ∷ 0x8F ∷ []) ≡ Some 0 }
    ensures too_great { ill_formed_at (0xC3 ∷ 0xA9 ∷ 0xF4 ∷ 0x90 ∷ []) ≡ Some 2 }
    ensures above_a_byte { ill_formed_at (0x61 ∷ 0x100 ∷ 0x61 ∷ []) ≡ Some 1 }
    ensures incomplete_fault { first_fault (0x61 ∷ 0xC3 ∷ []) ≡ Some 1 }
    ensures incomplete_is_utf8_prefix { IsTrue (is_utf8_prefix (0x61 ∷ 0xC3 ∷ [])) }
    ensures incomplete_is_not_ill_formed { ill_formed_at (0x61 ∷ 0xC3 ∷ []) ≡ None }
    ensures three_bytes_incomplete { IsTrue (is_incomplete_sequence (0xF0 ∷ 0x9F ∷ 0x98 ∷ [])) }
    ensures whole_is_not_incomplete { is_incomplete_sequence (0xC3 ∷ 0xA9 ∷ []) ≡ false }
    ensures least_and_greatest { characters
        (0x7F ∷ 0xC2 ∷ 0x80 ∷ 0xDF ∷ 0xBF ∷ 0xE0 ∷ 0xA0 ∷ 0x80 ∷ [])
        ≡ (0x7F, 0) ∷ (0x80, 1) ∷ (0x7FF, 3) ∷ (0x800, 5) ∷ [] }
    ensures beside_surrogates { characters (0xED ∷ 0x9F ∷ 0xBF ∷ 0xEE ∷ 0x80 ∷ 0x80 ∷ [])
        ≡ (0xD7FF, 0) ∷ (0xE000, 3) ∷ [] }
    ensures past_three_bytes { characters (0xEF ∷ 0xBF ∷ 0xBF ∷ 0xF0 ∷ 0x90 ∷ 0x80 ∷ 0x80 ∷ [])
        ≡ (0xFFFF, 0) ∷ (0x10000, 3) ∷ [] }
    ensures greatest { characters (0xF4 ∷ 0x8F ∷ 0xBF ∷ 0xBF ∷ []) ≡ (0x10FFFF, 0) ∷ [] }
{}

#[test]
fn definitions_compute() {
    worked_rows();
    any_bytes_may_follow();
    text_may_stand_before();
    whole_characters_are_the_longest_text();
    incomplete_sequences_begin_characters();
}

/// Pushes a byte. No test pushes as many as a `Cut` takes.
fn push(cut: &mut Cut, byte: u8) -> Cutting {
    if cut.count() >= 1u64 << 62 {
        return Cutting::More;
    }
    cut.push(byte)
}

/// Takes so many characters at once, where no byte is held and a `Cut` takes as many: whether it did.
fn take_characters(cut: &mut Cut, count: u64) -> bool {
    if cut.held_start() != cut.count() || cut.count() > 1u64 << 61 || count > 1u64 << 61 {
        return false;
    }
    cut.take_characters(count);
    true
}

/// Takes so many bytes of ASCII at once, under the same conditions.
fn take_ascii(cut: &mut Cut, count: u64) -> bool {
    if cut.held_start() != cut.count() || cut.count() > 1u64 << 61 || count > 1u64 << 61 {
        return false;
    }
    cut.take_ascii(count);
    true
}

/// Writes a code point and its offset.
fn put_character(rt: &impl Abort, text: &mut String, code: u32, at: u64) {
    write!(text, "{code:X}@{at} ").expect(rt, "memory");
}

/// Writes the offset of a fault.
fn put_fault(rt: &impl Abort, text: &mut String, at: u64) {
    write!(text, "!{at} ").expect(rt, "memory");
}

/// Writes what a byte made: a dot where no character is whole, a code point and its offset, or `!` and the offset of a fault.
fn put_cutting(rt: &impl Abort, text: &mut String, cutting: Cutting) {
    match cutting {
        Cutting::More => put(rt, text, "."),
        Cutting::Char(c, at) => put_character(rt, text, c as u32, at),
        Cutting::Bad(at) => put_fault(rt, text, at),
    }
}

/// What a new `Cut` answers to the bytes, and the `Cut`.
fn cut_of(rt: &impl Abort, alloc: Global, bytes: &[u8]) -> (String, Cut) {
    let mut cut = Cut::new();
    let mut text = String::new(alloc);
    for byte in bytes {
        put_cutting(rt, &mut text, push(&mut cut, *byte));
    }
    (text, cut)
}

/// How many bytes were pushed, where what is held begins, and the fault where the bytes end.
fn ends_of(cut: &Cut) -> (u64, u64, Option<u64>) {
    (cut.count(), cut.held_start(), cut.finish())
}

/// The ends are these.
fn ends_are(rt: &impl Abort, cut: &Cut, want: (u64, u64, Option<u64>)) {
    same(rt, &ends_of(cut), &want);
}

/// Bytes, the answers to them, where what is held begins then, and the fault where the bytes end.
type Row<'a> = (&'a [u8], &'a str, u64, Option<u64>);

/// Compares them.
fn cut_is(rt: &impl Abort, alloc: Global, row: &Row<'_>) {
    let (bytes, want, start, fault) = *row;
    let (text, cut) = cut_of(rt, alloc, bytes);
    text_is(rt, &text, want);
    ends_are(rt, &cut, (bytes.len() as u64, start, fault));
}

/// The last row has the least and the greatest characters of each length.
const ROWS: [Row; 7] = [
    (b"\xc3\xa9", ".E9@0 ", 2, None),
    (b"\xe2\x28", ".!0 ", 0, Some(0)),
    (b"\xed\xa0", ".!0 ", 0, Some(0)),
    (b"\xc0", "!0 ", 0, Some(0)),
    (b"a\xffb\xc3\xa9", "61@0 !1 !1 !1 !1 ", 1, Some(1)),
    (b"a\xc3", "61@0 .", 1, Some(1)),
    (
        b"\x7f\xc2\x80\xdf\xbf\xe0\xa0\x80\xed\x9f\xbf\xee\x80\x80\xef\xbf\xbf\xf0\x90\x80\x80\xf4\x8f\xbf\xbf",
        "7F@0 .80@1 .7FF@3 ..800@5 ..D7FF@8 ..E000@11 ..FFFF@14 ...10000@17 ...10FFFF@21 ",
        25,
        None,
    ),
];

#[test]
fn bytes_are_cut(rt: HostRuntime) {
    for row in &ROWS {
        cut_is(&rt, rt.alloc(), row);
    }
}

/// Overlong forms, surrogates, and sequences above U+10FFFF: of two bytes, and of one.
const ILL_FORMED: [(&[u8], &str); 17] = [
    (b"\xe0\x80", ".!0 "),
    (b"\xe0\x9f", ".!0 "),
    (b"\xf0\x80", ".!0 "),
    (b"\xf0\x8f", ".!0 "),
    (b"\xed\xa0", ".!0 "),
    (b"\xed\xbf", ".!0 "),
    (b"\xf4\x90", ".!0 "),
    (b"\xf4\xbf", ".!0 "),
    (b"\xc0", "!0 "),
    (b"\xc1", "!0 "),
    (b"\xf5", "!0 "),
    (b"\xf8", "!0 "),
    (b"\xfc", "!0 "),
    (b"\xfe", "!0 "),
    (b"\xff", "!0 "),
    (b"\x80", "!0 "),
    (b"\xbf", "!0 "),
];

/// Compares what a `Cut` answers to bytes with a fault at the first.
fn fault_is(rt: &impl Abort, alloc: Global, start: &[u8], want: &str) {
    cut_is(rt, alloc, &(start, want, 0, Some(0)));
}

#[test]
fn ill_formed_starts(rt: HostRuntime) {
    for (start, want) in &ILL_FORMED {
        fault_is(&rt, rt.alloc(), *start, *want);
    }
}

/// What `std` says of two bytes of which the first is not ASCII.
fn by_std(bytes: &[u8]) -> Cutting {
    match std::str::from_utf8(bytes) {
        Ok(text) => match text.chars().next() {
            Some(c) => Cutting::Char(c, 0),
            None => Cutting::More,
        },
        Err(error) if error.error_len().is_none() => Cutting::More,
        Err(_) => Cutting::Bad(0),
    }
}

/// A push of a byte answers this.
fn push_is(rt: &impl Abort, cut: &mut Cut, byte: u8, want: Cutting) {
    same(rt, &push(cut, byte), &want);
}

/// Compares what two bytes make.
fn two_bytes_are(rt: &impl Abort, first: u8, second: u8) {
    let mut cut = Cut::new();
    let _ = push(&mut cut, first);
    push_is(rt, &mut cut, second, by_std(&[first, second]));
}

#[test]
fn two_bytes_are_as_std_reads_them(rt: HostRuntime) {
    for first in 0x80..=0xFFu8 {
        for second in 0x00..=0xFFu8 {
            two_bytes_are(&rt, first, second);
        }
    }
}

const FRONTS: [(&[u8], &str, Option<u64>); 6] = [
    (b"", "", None),
    (b"a\xc3\xa9", "a\u{E9}", None),
    (b"a\xc3", "a", Some(1)),
    (b"ab\xe2\x28", "ab", Some(2)),
    (b"a\xe2\x82", "a", Some(1)),
    (b"\xffa", "", Some(0)),
];

/// The text at the front of bytes and the fault are these.
fn front_is(rt: &impl Abort, bytes: &[u8], want: &str, fault: Option<u64>) {
    same(rt, &front(bytes), &(want, fault));
}

#[test]
fn front_gives_text_and_fault(rt: HostRuntime) {
    for (bytes, want, fault) in &FRONTS {
        front_is(&rt, *bytes, *want, *fault);
    }
}

/// Mostly whole characters, so that most faults stand after some text.
const PIECES: [&[u8]; 16] = [
    b"a",
    b"a long run of ASCII letters",
    b"\xc3\xa9",
    b"\xdf\xbf",
    b"\xe2\x82\xac",
    b"\xed\x9f\xbf",
    b"\xef\xbf\xbf",
    b"\xf0\x9f\x98\x80",
    b"\xf4\x8f\xbf\xbf",
    b"z",
    b"\xe0\xa0\x80",
    b"\xf0\x90",
    b"\xe2\x82",
    b"\xc3",
    b"\xed\xa0\x80",
    b"\x80",
];

/// The next twelve of these pieces, of which two of three are whole characters.
fn draw(rt: &impl Abort, alloc: Global, seed: &mut u64) -> Vec<u8> {
    let mut bytes = Vec::new(alloc);
    for _ in 0..12 {
        *seed = seed
            .wrapping_mul(6364136223846793005)
            .wrapping_add(1442695040888963407);
        let drawn = (*seed >> 33) as usize % 48;
        let piece = PIECES[if drawn < 16 { drawn } else { drawn % 11 }];
        bytes.extend_from_slice(piece).expect(rt, "memory");
    }
    bytes
}

/// What pushes answer before a character of so many bytes is whole.
fn dots(len: usize) -> &'static str {
    match len {
        1 => "",
        2 => ".",
        3 => "..",
        _ => "...",
    }
}

/// Writes what pushes of a whole character answer.
fn put_one(rt: &impl Abort, out: &mut String, c: char, at: u64) {
    put(rt, out, dots(c.len_utf8()));
    put_character(rt, out, c as u32, at);
}

/// Writes what pushes of whole characters answer.
fn put_whole(rt: &impl Abort, out: &mut String, text: &str) {
    for (at, c) in text.char_indices() {
        put_one(rt, out, c, at as u64);
    }
}

/// `front` and a `Cut` that is pushed the bytes one by one give the same characters and fault.
fn front_agrees(rt: &impl Abort, alloc: Global, bytes: &[u8]) {
    let (text, fault) = front(bytes);
    let mut whole = String::new(alloc);
    put_whole(rt, &mut whole, text);
    let (pushed, cut) = cut_of(rt, alloc, bytes);
    holds(rt, pushed.starts_with(whole.as_str()), &bytes);
    let ends = (bytes.len() as u64, text.len() as u64, fault);
    same_at(rt, &ends_of(&cut), &ends, &bytes);
}

#[test]
fn front_agrees_with_single_pushes(rt: HostRuntime) {
    let alloc = rt.alloc();
    let mut seed = 1u64;
    for _ in 0..2000 {
        let bytes = draw(&rt, alloc, &mut seed);
        front_agrees(&rt, alloc, &bytes);
    }
}

#[test]
fn characters_are_taken_at_once(rt: HostRuntime) {
    let mut cut = Cut::new();
    let _ = push(&mut cut, b'a');
    same(&rt, &take_characters(&mut cut, 5), &true);
    ends_are(&rt, &cut, (6, 6, None));
    push_is(&rt, &mut cut, b'b', Cutting::Char('b', 6));
}

#[test]
fn ascii_is_taken_at_once(rt: HostRuntime) {
    let (_text, mut cut) = cut_of(&rt, rt.alloc(), b"\xc3\xa9");
    same(&rt, &take_ascii(&mut cut, 3), &true);
    ends_are(&rt, &cut, (5, 5, None));
    push_is(&rt, &mut cut, b'a', Cutting::Char('a', 5));
}

/// Bytes, and how many of ASCII come first.
const ASCII: [(&[u8], usize); 5] = [
    (b"", 0),
    (b"\xff", 0),
    (b"abcdefghijklmnopqrstuvwxyzabcde\x80", 31),
    (
        b"abcdefghijklmnopqrstuvwxyzabcdefghijklmnopqrstuvwxyzabcdefghijkl\xc3",
        64,
    ),
    (&[b'a'; 4096], 4096),
];

/// So many bytes of ASCII come first.
fn ascii_len_is(rt: &impl Abort, bytes: &[u8], want: usize) {
    same_at(rt, &ascii_len(bytes), &want, &bytes);
}

#[test]
fn lengths_of_ascii(rt: HostRuntime) {
    for (bytes, want) in &ASCII {
        ascii_len_is(&rt, *bytes, *want);
    }
}

/// So many bytes of ASCII, the least and the greatest in turn.
fn ascii_of(rt: &impl Abort, alloc: Global, len: usize) -> Vec<u8> {
    let mut bytes = Vec::new(alloc);
    for at in 0..len {
        let byte = if at % 2 == 0 { 0x7F } else { 0x00 };
        bytes.push(byte).expect(rt, "memory");
    }
    bytes
}

/// So many bytes of ASCII are counted, also where another byte stands behind them, and ASCII behind that.
fn ascii_ends(rt: &impl Abort, alloc: Global, len: usize, end: u8) {
    let mut bytes = ascii_of(rt, alloc, len);
    ascii_len_is(rt, &bytes, len);
    bytes.push(end).expect(rt, "memory");
    ascii_len_is(rt, &bytes, len);
    let behind = ascii_of(rt, alloc, 70);
    bytes.extend_from_slice(&behind).expect(rt, "memory");
    ascii_len_is(rt, &bytes, len);
}

#[test]
fn ascii_of_each_length(rt: HostRuntime) {
    for len in 0..=300usize {
        ascii_ends(&rt, rt.alloc(), len, 0x80);
        ascii_ends(&rt, rt.alloc(), len, 0xC3);
        ascii_ends(&rt, rt.alloc(), len, 0xFF);
    }
}

const FIRSTS: [(&[u8], Option<char>); 10] = [
    (b"ab", Some('a')),
    (b"\xc3\xa9a", Some('\u{E9}')),
    (b"\xe2\x82\xac\xff", Some('\u{20AC}')),
    (b"\xf4\x8f\xbf\xbf", Some('\u{10FFFF}')),
    (b"", None),
    (b"\xc3", None),
    (b"\xc1\xa9", None),
    (b"\xe2\x82a", None),
    (b"\xed\xa0\x80", None),
    (b"\xf0\x9f\x98", None),
];

/// The first character of bytes is this.
fn first_is(rt: &impl Abort, bytes: &[u8], want: Option<char>) {
    same(rt, &first_character(bytes), &want);
}

#[test]
fn first_characters(rt: HostRuntime) {
    for (bytes, want) in &FIRSTS {
        first_is(&rt, *bytes, *want);
    }
}

/// A `Cut` holds these bytes.
fn held_is(rt: &impl Abort, cut: &Cut, want: &[u8]) {
    same(rt, &cut.held(), &want);
}

#[test]
fn what_was_held_is_restored(rt: HostRuntime) {
    let (_text, cut) = cut_of(&rt, rt.alloc(), b"a\xe2\x82");
    held_is(&rt, &cut, b"\xe2\x82");
    let mut again = Cut::restore(cut.count(), cut.held());
    ends_are(&rt, &again, (3, 1, Some(1)));
    push_is(&rt, &mut again, 0xAC, Cutting::Char('\u{20AC}', 1));
    held_is(&rt, &again, b"");
}

const HELD: [&[u8]; 4] = [b"", b"\xc3", b"\xe2\x82", b"\xf0\x9f\x98"];

const NOT_HELD: [&[u8]; 5] = [
    b"a",
    b"\xc3\xa9",
    b"\xed\xa0",
    b"\xe2\x82\xac",
    b"\xf0\x9f\x98\x80",
];

/// Compares whether bytes may be held.
fn may_hold_is(rt: &impl Abort, bytes: &[u8], want: bool) {
    same_at(rt, &Cut::may_hold(bytes), &want, &bytes);
}

#[test]
fn what_may_be_held(rt: HostRuntime) {
    for bytes in &HELD {
        may_hold_is(&rt, *bytes, true);
    }
    for bytes in &NOT_HELD {
        may_hold_is(&rt, *bytes, false);
    }
}
