//! Made texts: what is told before each offset, and of the match that ends there, beside a search from the beginning that goes on behind
//! each fault.

use crate::asking::{Start, Told, begin, compile, read, same_at};
use collation_anchored::equal;
use collation_elements::{Item, Strength, Variable, items_of_text};
use collation_pattern::Pattern;
use collation_safe::next_safe;
use collation_search::{Found, Search, TextFault};
use collation_table::{Strings, Table};
use std::alloc::{AllocError, Global};
use std::process::Abort;
use std::str::from_utf8;

/// Parts of which texts are made.
const PARTS: [&[u8]; 20] = [
    b"a",
    b"aa",
    b"b",
    b"c",
    b"ch",
    b"h",
    b"A",
    b"e",
    b"e\xcc\x81",
    b"\xc3\xa9",
    b" - ",
    b"\xc2\xad",
    b"\xea\xb0\x80",
    b"\xe1\x84\x80\xe1\x85\xa1",
    b"\xe0\xb9\x80\xe0\xb8\x81",
    b"\xe0\xb8\x81",
    b"\xff",
    b"\xe4\xb8",
    b"\xcc\x81",
    b"a b",
];

/// Which of them have bytes that are no UTF-8.
fn is_bad(part: usize) -> bool {
    part == 16 || part == 17
}

const PATTERNS: [&str; 6] = ["aa", "ch", "e", "ab", "\u{ac00}", "\u{e01}"];

/// The next number of a row without order.
fn next_number(number: u64) -> u64 {
    number
        .wrapping_mul(6_364_136_223_846_793_005)
        .wrapping_add(1_442_695_040_888_963_407)
}

/// A text of so many parts, with or without bytes that are no UTF-8.
fn make(alloc: Global, seed: u64, count: usize, with_bad: bool) -> Result<Vec<u8>, AllocError> {
    let mut text = Vec::new(alloc);
    let mut number = next_number(seed);
    for _ in 0..count {
        number = next_number(number);
        let part = (number.wrapping_shr(33) % 20) as usize;
        if with_bad || !is_bad(part) {
            text.extend_from_slice(PARTS[part])?;
        }
    }
    Ok(text)
}

/// What a search from a place on finds: its ranges and its fault, in bytes from the beginning of the text.
#[derive(Drop)]
struct Rest {
    from: usize,
    ranges: Vec<(u64, u64)>,
    fault: Option<TextFault>,
}

/// Appends ranges of the rest of a text from a place on.
fn push_all(rest: &mut Rest, found: &Found) -> Result<(), AllocError> {
    let from = rest.from as u64;
    for range in found.as_slice() {
        let (start, end) = *range;
        rest.ranges
            .push((from.saturating_add(start), from.saturating_add(end)))?;
    }
    Ok(())
}

/// A search from a place on, byte by byte.
fn search_from<W: Strings>(
    alloc: Global,
    table: &W,
    pattern: &Pattern,
    text: &[u8],
    from: usize,
) -> Result<Rest, AllocError> {
    let mut search = Search::new(alloc, table, pattern)?;
    let mut found = Found::new();
    let mut rest = Rest {
        from,
        ranges: Vec::new(alloc),
        fault: None,
    };
    let (_, bytes) = text.split_at(from.min(text.len()));
    for byte in bytes {
        let stepped = search.step(*byte, &mut found);
        push_all(&mut rest, &found)?;
        if let Err(fault) = stepped {
            rest.fault = Some(fault_moved(fault, from));
            return Ok(rest);
        }
    }
    let ended = search.finish(&mut found);
    push_all(&mut rest, &found)?;
    if let Err(fault) = ended {
        rest.fault = Some(fault_moved(fault, from));
    }
    Ok(rest)
}

fn fault_moved(fault: TextFault, by: usize) -> TextFault {
    TextFault {
        kind: fault.kind,
        offset: (by as u64).saturating_add(fault.offset),
    }
}

/// A search from the beginning, and one from the next safe offset behind each fault.
fn rests<W: Strings>(
    alloc: Global,
    table: &W,
    pattern: &Pattern,
    text: &[u8],
) -> Result<Vec<Rest>, AllocError> {
    let mut rests = Vec::new(alloc);
    let mut from = 0;
    for _ in 0..text.len().saturating_add(1) {
        let rest = search_from(alloc, table, pattern, text, from)?;
        let fault = rest.fault;
        rests.push(rest)?;
        let Some(at) = fault else {
            return Ok(rests);
        };
        match next_safe(table, text, (at.offset as usize).saturating_add(1)) {
            Some(next) => from = next,
            None => return Ok(rests),
        }
    }
    Ok(rests)
}

/// The last of these ranges that ends at an offset or before it.
fn last_up_to(ranges: &[(u64, u64)], at: usize) -> Option<(u64, u64)> {
    let mut last = None;
    for range in ranges {
        if range.1 <= at as u64 {
            last = Some(*range);
        }
    }
    last
}

/// What these searches tell before an offset.
fn told(rests: &[Rest], at: usize) -> Told {
    let mut met = None;
    for rest in rests {
        if rest.from > 0 && rest.from >= at {
            break;
        }
        let mut is_before = false;
        if let Some(fault) = rest.fault {
            if fault.offset < at as u64 {
                met = Some(fault);
                is_before = true;
            }
        }
        if !is_before {
            let last = last_up_to(&rest.ranges, at);
            if last.is_some() {
                return Ok(last);
            }
            break;
        }
    }
    match met {
        Some(fault) => Err(fault),
        None => Ok(None),
    }
}

/// Whether the text from a place on is equal, asked again where memory was refused.
fn is_equal_from<W: Strings>(
    alloc: Global,
    table: &W,
    pattern: &Pattern,
    text: &[u8],
    from: u64,
) -> bool {
    let (_, rest) = text.split_at((from as usize).min(text.len()));
    match equal(alloc, table, pattern, rest) {
        Err(fault) if fault.kind == TextFault::NO_MEMORY => {
            equal(alloc, table, pattern, rest) == Ok(true)
        }
        told => told == Ok(true),
    }
}

/// How many keys a text has, or none where memory was refused.
fn keys_in<W: Strings>(alloc: Global, table: &W, pattern: &Pattern, text: &[u8]) -> Option<usize> {
    let text = from_utf8(text).ok()?;
    let items = items_of_text(alloc, table, text, pattern.strength(), pattern.variable()).ok()?;
    let mut keys = 0usize;
    for item in &items {
        if let Item::Element(_) = item {
            keys = keys.saturating_add(1);
        }
    }
    Some(keys)
}

/// The greatest start of a range of the last of these searches, wherever that ends, from which on the text is equal. Without one the fault in
/// front of it, if it has no more keys than the pattern. Nothing where memory was refused.
fn start_of_equal<W: Strings>(
    alloc: Global,
    table: &W,
    pattern: &Pattern,
    text: &[u8],
    rests: &[Rest],
) -> Option<Start> {
    let mut before = None;
    let mut start = None;
    let mut from = 0;
    for rest in rests {
        from = rest.from;
        match rest.fault {
            Some(fault) => before = Some((fault, true)),
            None => {
                before = before.map(|(fault, _)| (fault, false));
                for range in &rest.ranges {
                    if is_equal_from(alloc, table, pattern, text, range.0) {
                        start = Some(range.0);
                    }
                }
            }
        }
    }
    match (before, start) {
        (Some((fault, true)), _) => Some(Err(fault)),
        (Some((fault, false)), None) => {
            let (_, rest) = text.split_at(from.min(text.len()));
            let keys = keys_in(alloc, table, pattern, rest)?;
            Some(if keys > pattern.len() {
                Ok(None)
            } else {
                Err(fault)
            })
        }
        _ => Some(Ok(start)),
    }
}

/// Goes back from offsets of a text, each so many bytes from the one before.
fn compare<W: Strings>(
    rt: &impl Abort,
    alloc: Global,
    table: &W,
    pattern: &Pattern,
    text: &[u8],
    stride: usize,
) {
    let Ok(searched) = rests(alloc, table, pattern, text) else {
        return;
    };
    let mut backward = begin(rt, alloc, table, pattern);
    let mut wait = 0usize;
    for at in 0..text.len().saturating_add(3) {
        if wait == 0 {
            same_at(
                rt,
                &backward.last_before(text, at),
                &told(&searched, at),
                at,
            );
            wait = stride;
        }
        wait = wait.saturating_sub(1);
    }
}

/// What is told of the match that ends with a text, and with beginnings of it, each so many bytes longer than the one before.
fn compare_ends<W: Strings>(
    rt: &impl Abort,
    alloc: Global,
    table: &W,
    pattern: &Pattern,
    text: &[u8],
    stride: usize,
) {
    let mut backward = begin(rt, alloc, table, pattern);
    let mut wait = 0usize;
    for end in 0..text.len().saturating_add(1) {
        if wait == 0 || end == text.len() {
            let (front, _) = text.split_at(end.min(text.len()));
            if let Ok(searched) = rests(alloc, table, pattern, front) {
                if let Some(wanted) = start_of_equal(alloc, table, pattern, front, &searched) {
                    same_at(rt, &backward.ends(front), &wanted, end);
                }
            }
            wait = stride;
        }
        wait = wait.saturating_sub(1);
    }
}

/// All of it for each pattern, with and without bytes that are no UTF-8.
fn compare_made(
    rt: &impl Abort,
    alloc: Global,
    table: &Table,
    seed: u64,
    count: usize,
    stride: usize,
) {
    for letters in &PATTERNS {
        for variable in [Variable::NonIgnorable, Variable::Shifted] {
            let pattern = compile(rt, alloc, table, *letters, Strength::Two, variable);
            for with_bad in [false, true] {
                if let Ok(text) = make(alloc, seed, count, with_bad) {
                    compare(rt, alloc, table, &pattern, &text, stride);
                    compare_ends(rt, alloc, table, &pattern, &text, stride.saturating_mul(9));
                }
            }
        }
    }
}

#[test]
fn short_texts(rt: HostRuntime) {
    let alloc = rt.alloc();
    let table = read(&rt, alloc);
    for seed in 0..12 {
        compare_made(&rt, alloc, &table, seed, 24, 1);
    }
}

#[test]
fn long_texts(rt: HostRuntime) {
    let alloc = rt.alloc();
    let table = read(&rt, alloc);
    for seed in 100..102 {
        compare_made(&rt, alloc, &table, seed, 2_500, 331);
    }
}

/// A text in which the pattern stands at the beginning alone, and one in which a bad byte stands there.
#[test]
fn far_back(rt: HostRuntime) {
    let alloc = rt.alloc();
    let table = read(&rt, alloc);
    let pattern = compile(
        &rt,
        alloc,
        &table,
        "ab",
        Strength::Three,
        Variable::NonIgnorable,
    );
    for front in [b"ab", b"a\xff"] {
        let mut text = Vec::new(alloc);
        let made = text.extend_from_slice(front).is_ok() && text.resize(40_000, b'e').is_ok();
        if made {
            compare(&rt, alloc, &table, &pattern, &text, 4_999);
            compare_ends(&rt, alloc, &table, &pattern, &text, 39_998);
        }
    }
}

/// Call by call from the end, all ranges of a text come, the last one first.
#[test]
fn all_ranges(rt: HostRuntime) {
    let alloc = rt.alloc();
    let table = read(&rt, alloc);
    for letters in &PATTERNS {
        let pattern = compile(
            &rt,
            alloc,
            &table,
            *letters,
            Strength::One,
            Variable::Shifted,
        );
        let Ok(text) = make(alloc, 7, 900, false) else {
            return;
        };
        let Ok(rest) = search_from(alloc, &table, &pattern, &text, 0) else {
            return;
        };
        let mut backward = begin(&rt, alloc, &table, &pattern);
        let mut at = text.len();
        for range in rest.ranges.iter().rev() {
            same_at(&rt, &backward.last_before(&text, at), &Ok(Some(*range)), at);
            at = (range.1 as usize).saturating_sub(1);
        }
        same_at(&rt, &backward.last_before(&text, at), &Ok(None), at);
    }
}
