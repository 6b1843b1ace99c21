//! What no clause says of `nfd_points`: the points of worked texts, and the whole of the data against `unicode_normalization`'s own NFD.
//!
//! The decompositions and classes of the worked texts are those of Python's `unicodedata`.
ghost use Rattle.std.specs.Prelude.{◌≡◌, [], ◌∷◌, true, false, Some, None, replicate};
ghost use Rattle.nfd_points.specs.Points.{points};
ghost use Rattle.nfd_points.specs.PointFaults.{point_fault};
ghost use Rattle.nfd_points.specs.WorkedPoints.{worked_point};

use crate::calls::{holds, put, same, same_at, text_is};
use arrayvec::ArrayVec;
use nfd_points::laws::{
    laws_of_decompositions, laws_of_faults, laws_of_ordering, laws_of_points, laws_of_reordering,
    laws_of_runs, limits,
};
use nfd_points::{MOST_GIVEN, Point, PointFault, Reorder, points_of_character};
use std::alloc::Global;
use std::process::Abort;
use unicode_normalization::Form;
use unicode_normalization::char::{canonical_combining_class, decomposition};
use unicode_normalization::slice::extend_nfd;

/// The definitions on texts that are written out. 16 times U+0F73 are 32 non-starters.
fn worked_points()
    ensures composed { points (0xE9 ∷ [])
        ≡ worked_point 0x65 0 0 true ∷ worked_point 0x301 230 0 false ∷ [] }
    ensures decomposed { points (0x65 ∷ 0x301 ∷ [])
        ≡ worked_point 0x65 0 0 true ∷ worked_point 0x301 230 1 true ∷ [] }
    ensures hangul { points (0xAC01 ∷ [])
        ≡ worked_point 0x1100 0 0 true ∷ worked_point 0x1161 0 0 false ∷ worked_point 0x11A8 0 0 false ∷ [] }
    ensures two_non_starters { points (0xF73 ∷ [])
        ≡ worked_point 0xF71 129 0 true ∷ worked_point 0xF72 130 0 false ∷ [] }
    ensures reordered { points (0x65 ∷ 0x301 ∷ 0x327 ∷ [])
        ≡ worked_point 0x65 0 0 true ∷ worked_point 0x327 202 3 true ∷ worked_point 0x301 230 1 true ∷ [] }
    ensures surrogate { points (0xD800 ∷ 0x110000 ∷ [])
        ≡ worked_point 0xD800 0 0 true ∷ worked_point 0x110000 0 3 true ∷ [] }
    ensures long_run { point_fault (0x61 ∷ replicate 16 0xF73) ≡ Some (46, 32) }
    ensures full_run { point_fault (0x61 ∷ replicate 15 0xF73) ≡ None }
{}

#[test]
fn definitions_compute() {
    worked_points();
    limits();
    laws_of_decompositions();
    laws_of_points();
    laws_of_ordering();
    laws_of_runs();
    laws_of_faults();
    laws_of_reordering();
}

/// What a push gives.
type Given = ArrayVec<Point, MOST_GIVEN>;

/// Takes a code point.
fn push(reorder: &mut Reorder, c: char, offset: u64, out: &mut Given) -> Result<(), PointFault> {
    reorder.push(c, offset, out)
}

/// Takes a code point without a fault.
fn push_well(rt: &impl Abort, reorder: &mut Reorder, c: char, offset: u64, out: &mut Given) {
    push(reorder, c, offset, out).expect(rt, "no fault");
}

/// Writes a code point, its class and its offset.
fn put_point(rt: &impl Abort, text: &mut String, point: &Point) {
    write!(text, "{:X}/{}@{}", point.cp, point.ccc, point.offset).expect(rt, "memory");
}

/// Writes points: the code point, its class and its offset, a `+` before one that is not the first of its decomposition.
fn put_points(rt: &impl Abort, text: &mut String, points: &[Point]) {
    for point in points {
        put(rt, text, if point.first { " " } else { " +" });
        put_point(rt, text, point);
    }
}

/// Compares points.
fn points_are(rt: &impl Abort, alloc: Global, points: &[Point], want: &str) {
    let mut text = String::new(alloc);
    put_points(rt, &mut text, points);
    text_is(rt, &text, want);
}

/// A blank point, the points of characters at 7, and those that are asked for by themselves.
#[test]
fn points_of_characters(rt: HostRuntime) {
    let alloc = rt.alloc();
    points_are(&rt, alloc, &[Point::default()], " +0/0@0");
    for (c, want) in &[
        ('a', " 61/0@7"),
        ('\u{20AC}', " 20AC/0@7"),
        ('\u{1EC7}', " 65/0@7 +323/220@7 +302/230@7"),
        ('\u{301}', " 301/230@7"),
    ] {
        points_are(&rt, alloc, points_of_character(*c, 7).as_slice(), *want);
    }
}

/// Compares whether a code point is decomposed.
fn decomposed_is(rt: &impl Abort, c: char, want: bool) {
    same_at(rt, &Point::is_decomposed(c), &want, &c);
}

/// The last of the decomposed ones has a compatibility decomposition alone. Of the others there are a letter with its mark, two marks, a
/// syllable, and two code points whose decomposition is one other code point.
#[test]
fn decomposed_code_points(rt: HostRuntime) {
    for c in "a\u{301}\u{1100}\u{4E00}\u{FB01}".chars() {
        decomposed_is(&rt, c, true);
    }
    for c in "\u{E9}\u{F73}\u{AC01}\u{2126}\u{F900}".chars() {
        decomposed_is(&rt, c, false);
    }
}

/// Writes what a push gives, and a bar.
fn put_pushed(
    rt: &impl Abort,
    all: &mut String,
    reorder: &mut Reorder,
    from: (char, u64),
    out: &mut Given,
) {
    push_well(rt, reorder, from.0, from.1, out);
    put_points(rt, all, out.as_slice());
    put(rt, all, " |");
}

/// What the pushes of a text give, a bar after each, and what waits at its end and is given then.
fn pushed(rt: &impl Abort, alloc: Global, text: &str) -> String {
    let mut reorder = Reorder::new(alloc);
    let mut out = Given::new();
    let mut all = String::new(alloc);
    for (offset, c) in text.char_indices() {
        put_pushed(rt, &mut all, &mut reorder, (c, offset as u64), &mut out);
    }
    let mut waiting = String::new(alloc);
    put_points(rt, &mut waiting, reorder.waiting());
    reorder.finish(&mut out);
    points_are(rt, alloc, out.as_slice(), &waiting);
    same(rt, &reorder.waiting().len(), &0);
    put(rt, &mut all, &waiting);
    all
}

const TEXTS: [(&str, &str); 10] = [
    (
        "e\u{301}\u{327}a",
        " 65/0@0 | | | 327/202@3 301/230@1 61/0@5 |",
    ),
    ("\u{AC01}", " 1100/0@0 +1161/0@0 +11A8/0@0 |"),
    ("\u{E9}", " 65/0@0 | +301/230@0"),
    (
        "Vi\u{1EC7}t",
        " 56/0@0 | 69/0@1 | 65/0@2 | +323/220@2 +302/230@2 74/0@5 |",
    ),
    (
        "Vie\u{323}\u{302}t",
        " 56/0@0 | 69/0@1 | 65/0@2 | | | 323/220@3 302/230@5 74/0@7 |",
    ),
    (
        "Vie\u{302}\u{323}t",
        " 56/0@0 | 69/0@1 | 65/0@2 | | | 323/220@5 302/230@3 74/0@7 |",
    ),
    ("\u{EA}\u{323}", " 65/0@0 | | 323/220@2 +302/230@0"),
    ("\u{D55C}", " 1112/0@0 +1161/0@0 +11AB/0@0 |"),
    (
        "\u{1112}\u{1161}\u{11AB}",
        " 1112/0@0 | 1161/0@3 | 11AB/0@6 |",
    ),
    (
        "\u{344}\u{F73}\u{1D15E}\u{FB1D}",
        " | | F71/129@2 +F72/130@2 308/230@0 +301/230@0 1D157/0@5 | +1D165/216@5 5D9/0@9 | +5B4/14@9",
    ),
];

#[test]
fn worked_texts(rt: HostRuntime) {
    for (text, want) in &TEXTS {
        text_is(&rt, &pushed(&rt, rt.alloc(), *text), *want);
    }
}

/// Compares what the push of a code point that comes from an offset answers, and how many points it gives.
fn push_is(
    rt: &impl Abort,
    reorder: &mut Reorder,
    from: (char, u64),
    out: &mut Given,
    want: Result<(), PointFault>,
    count: usize,
) {
    let pushed = push(reorder, from.0, from.1, out);
    same(rt, &(pushed, out.len()), &(want, count));
}

/// Pushes a code point so many times, and once too often; then a letter, which takes what waits with it.
fn run_is_cut(rt: &impl Abort, alloc: Global, c: char, times: u64) {
    let mut reorder = Reorder::new(alloc);
    let mut out = Given::new();
    for offset in 0..times {
        push_is(rt, &mut reorder, (c, offset), &mut out, Ok(()), 0);
    }
    let long = Err(PointFault {
        kind: PointFault::LONG_RUN,
    });
    push_is(rt, &mut reorder, (c, times), &mut out, long, 0);
    same(rt, &reorder.waiting().len(), &30);
    push_is(rt, &mut reorder, ('a', times), &mut out, Ok(()), 31);
}

#[test]
fn runs_of_non_starters(rt: HostRuntime) {
    let alloc = rt.alloc();
    run_is_cut(&rt, alloc, '\u{F73}', 15);
    run_is_cut(&rt, alloc, '\u{301}', 30);
    let kinds = (PointFault::LONG_RUN, PointFault::LONG_DECOMPOSITION);
    same(&rt, &kinds, &(32, 33));
}

#[test]
fn restored(rt: HostRuntime) {
    let alloc = rt.alloc();
    let mut out = Given::new();
    let mut reorder = Reorder::new(alloc);
    push_well(&rt, &mut reorder, '\u{327}', 0, &mut out);
    push_well(&rt, &mut reorder, '\u{301}', 2, &mut out);
    same(&rt, &Reorder::may_wait(reorder.waiting()), &true);
    let letter = [Point::new('a', 4, true)];
    same(&rt, &Reorder::may_wait(&letter), &false);
    let mut again = Reorder::restore(alloc, reorder.waiting());
    push_well(&rt, &mut again, 'a', 4, &mut out);
    let want = " 327/202@0 301/230@2 61/0@4";
    points_are(&rt, alloc, out.as_slice(), want);
}

/// Whether a code point decomposes or has a class.
fn is_changing(c: char) -> bool {
    let mut room = [c; 3];
    let parts = decomposition(c, Form::Nfd, &mut room);
    parts.len() > 1 || canonical_combining_class(c) > 0 || !parts.contains(&c)
}

/// Puts a value behind the others.
fn put_value<T: Copy>(rt: &impl Abort, all: &mut Vec<T>, value: T) {
    all.push(value).expect(rt, "memory");
}

/// Each code point that decomposes or has a class, after a letter.
fn changing_code_points(rt: &impl Abort, alloc: Global) -> Vec<char> {
    let mut chars = Vec::new(alloc);
    for code in 0..0x11_0000u32 {
        let Some(c) = char::from_u32(code) else {
            continue;
        };
        if is_changing(c) {
            put_value(rt, &mut chars, 'x');
            put_value(rt, &mut chars, c);
        }
    }
    chars
}

/// Code points, and the offsets where they come from.
#[derive(Drop)]
struct Text {
    code_points: Vec<char>,
    offsets: Vec<u64>,
}

impl Text {
    /// Appends the code points of points, and their offsets.
    fn put(&mut self, rt: &impl Abort, points: &[Point]) {
        for point in points {
            let c = char::from_u32(point.cp).expect(rt, "a scalar value");
            put_value(rt, &mut self.code_points, c);
            put_value(rt, &mut self.offsets, point.offset);
        }
    }
}

/// The offset of each part of the decompositions. No mark of these texts passes the letter before it, so that offsets rise.
fn offsets_of(rt: &impl Abort, alloc: Global, chars: &[char]) -> Vec<u64> {
    let mut offsets = Vec::new(alloc);
    let mut offset = 0u64;
    for c in chars {
        let mut room = [*c; 3];
        for _part in decomposition(*c, Form::Nfd, &mut room) {
            put_value(rt, &mut offsets, offset);
        }
        offset = offset.wrapping_add(c.len_utf8() as u64);
    }
    offsets
}

/// The NFD of code points by `unicode_normalization`.
fn nfd_of(rt: &impl Abort, alloc: Global, chars: &[char]) -> Vec<char> {
    let mut expected = Vec::new(alloc);
    extend_nfd(&mut expected, chars).expect(rt, "memory");
    expected
}

/// The points of a text.
fn text_of(rt: &impl Abort, alloc: Global, chars: &[char]) -> Text {
    let mut text = Text {
        code_points: Vec::new(alloc),
        offsets: Vec::new(alloc),
    };
    let mut reorder = Reorder::new(alloc);
    let mut out = Given::new();
    let mut offset = 0u64;
    for c in chars {
        push_well(rt, &mut reorder, *c, offset, &mut out);
        text.put(rt, out.as_slice());
        offset = offset.wrapping_add(c.len_utf8() as u64);
    }
    reorder.finish(&mut out);
    text.put(rt, out.as_slice());
    text
}

#[test]
fn whole_data(rt: HostRuntime) {
    let alloc = rt.alloc();
    let chars = changing_code_points(&rt, alloc);
    let text = text_of(&rt, alloc, &chars);
    holds(&rt, text.code_points.len() > chars.len(), &"more");
    let expected = nfd_of(&rt, alloc, &chars);
    holds(&rt, text.code_points == expected, &"code points");
    let offsets = offsets_of(&rt, alloc, &chars);
    holds(&rt, text.offsets == offsets, &"offsets");
}
