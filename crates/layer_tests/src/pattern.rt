//! What no clause says of `collation_pattern`: the printed fault, and the keys and faults of worked patterns over a small table.

use crate::calls::{
    KEPT, ONE, SHIFTED, Settings, TABLE, THREE, TWO, compile, repeated, same, same_at, table_of,
    text_is,
};
use collation_elements::{Key, Strength, Variable};
use collation_pattern::{Pattern, PatternFault};
use collation_table::Table;
use std::alloc::Global;
use std::process::Abort;

/// The pattern of these settings under the table.
fn pattern_of(rt: &impl Abort, alloc: Global, settings: Settings<'_>) -> Pattern {
    let table = table_of(rt, alloc, TABLE, None);
    let pattern = compile(rt, alloc, &table, settings);
    drop(table);
    pattern
}

#[test]
fn prints_a_fault(rt: HostRuntime) {
    for (kind, want) in &[
        (PatternFault::TOO_LONG, "fault 21 of the pattern"),
        (PatternFault::NO_KEY, "fault 22 of the pattern"),
        (PatternFault::LONG_RUN, "fault 23 of the pattern"),
        (PatternFault::MEMORY, "fault 24 of the pattern"),
    ] {
        let text = PatternFault { kind: *kind }.to_string(rt.alloc());
        text_is(&rt, &text.expect(&rt, "memory"), *want);
    }
}

/// The settings of patterns, and their keys.
const KEYS: [(Settings, &[Key]); 3] = [
    (
        ("\u{E9}", TWO, KEPT),
        &[Key::Primary(0x1C40, 0x20, 0), Key::Secondary(0x24, 0)],
    ),
    (
        ("\u{2F00}", THREE, KEPT),
        &[Key::Pair(0xFB40, 0xCE00, 0x20, 4)],
    ),
    (("\u{4E00}", ONE, KEPT), &[Key::Pair(0xFB40, 0xCE00, 0, 0)]),
];

/// A pattern has these keys.
fn has_these_keys(rt: &impl Abort, pattern: &Pattern, keys: &[Key]) {
    same(rt, &pattern.keys(), &keys);
}

/// How many keys a pattern has, and what it is compared by.
fn sizes_of(pattern: &Pattern) -> (usize, Strength, Variable) {
    (pattern.len(), pattern.strength(), pattern.variable())
}

/// A pattern of these settings has so many keys.
fn has_keys(rt: &impl Abort, alloc: Global, settings: Settings<'_>, len: usize) {
    let sizes = sizes_of(&pattern_of(rt, alloc, settings));
    same(rt, &sizes, &(len, settings.1, settings.2));
}

#[test]
fn keys_of_worked_patterns(rt: HostRuntime) {
    let alloc = rt.alloc();
    for (settings, keys) in &KEYS {
        has_these_keys(&rt, &pattern_of(&rt, alloc, *settings), *keys);
        has_keys(&rt, alloc, *settings, keys.len());
    }
}

/// Spaces and the hyphen give keys only where they are not ignorable.
#[test]
fn shifted_pattern_has_no_variable_keys(rt: HostRuntime) {
    let alloc = rt.alloc();
    has_keys(&rt, alloc, ("a - b", ONE, KEPT), 5);
    has_keys(&rt, alloc, ("a - b", ONE, SHIFTED), 2);
}

const A: Key = Key::Primary(0x1C00, 0, 0);

const B: Key = Key::Primary(0x1C10, 0, 0);

/// The state behind a key, where there is that state.
fn advanced(pattern: &Pattern, state: usize, key: Key) -> Option<usize> {
    if state > pattern.len() {
        return None;
    }
    Some(pattern.advance(state, &key))
}

/// `A` and `a` are one key at strength one.
#[test]
fn states_of_a_worked_pattern(rt: HostRuntime) {
    let pattern = pattern_of(&rt, rt.alloc(), ("aab", ONE, KEPT));
    for (state, key, want) in &[
        (0, A, 1),
        (1, A, 2),
        (2, A, 2),
        (2, B, 3),
        (3, A, 1),
        (3, B, 0),
        (1, B, 0),
    ] {
        let got = advanced(&pattern, *state, *key);
        same_at(&rt, &got, &Some(*want), state);
    }
}

/// Compares whether a pattern has the sort key of these keys.
fn same_key_is(rt: &impl Abort, pattern: &Pattern, keys: &[Key], want: bool) {
    same_at(rt, &pattern.same_key(keys), &want, &keys.len());
}

/// The first weights of U+4E00 are those of a pair, and of two keys that no text has.
#[test]
fn pair_has_the_sort_key_of_two_keys(rt: HostRuntime) {
    let ideograph = pattern_of(&rt, rt.alloc(), ("\u{4E00}", ONE, KEPT));
    let (lead, follower) = (Key::Primary(0xFB40, 0, 0), Key::Primary(0xCE00, 0, 0));
    same_key_is(&rt, &ideograph, &[lead, follower], true);
    same_key_is(&rt, &ideograph, &[lead], false);
    same_key_is(&rt, &ideograph, &[], false);
}

/// Whether the keys of one pattern are those of another.
fn have_same_key(
    rt: &impl Abort,
    alloc: Global,
    settings: Settings<'_>,
    other: Settings<'_>,
) -> bool {
    let other = pattern_of(rt, alloc, other);
    pattern_of(rt, alloc, settings).same_key(other.keys())
}

/// U+4E00 and U+2F00 differ at the third level alone, `e` and U+00E9 from the second on.
#[test]
fn levels_up_to_the_strength_are_compared(rt: HostRuntime) {
    for (text, other, strength, is_same) in &[
        ("\u{2F00}", "\u{4E00}", ONE, true),
        ("\u{2F00}", "\u{4E00}", TWO, true),
        ("\u{2F00}", "\u{4E00}", THREE, false),
        ("e", "\u{E9}", ONE, true),
        ("e", "\u{E9}", TWO, false),
        ("\u{E9}", "e", THREE, false),
        ("\u{E9}", "e\u{301}", THREE, true),
        ("c", "ch", ONE, false),
    ] {
        let (text, other) = ((*text, *strength, KEPT), (*other, *strength, KEPT));
        let has_same = have_same_key(&rt, rt.alloc(), text, other);
        same_at(&rt, &has_same, is_same, &text);
    }
}

/// How many keys a text has as a pattern, or the kind of its fault.
fn try_pattern(alloc: Global, table: &Table, text: &str, strength: Strength) -> Result<usize, u8> {
    match Pattern::compile(alloc, table, text, strength, KEPT) {
        Ok(pattern) => Ok(pattern.len()),
        Err(fault) => Err(fault.kind),
    }
}

/// A piece, how many times it stands in a text, and how many keys that has or the kind of its fault. The length is reported before a
/// run of marks, and that before a text without keys.
const FAULTS: [(&str, usize, Result<usize, u8>); 8] = [
    ("a", 65_536, Ok(65_536)),
    ("a", 65_537, Err(PatternFault::TOO_LONG)),
    // two bytes each
    ("\u{301}", 32_769, Err(PatternFault::TOO_LONG)),
    ("\u{301}", 32_768, Err(PatternFault::LONG_RUN)),
    ("\u{301}", 31, Err(PatternFault::LONG_RUN)),
    ("\u{301}", 30, Err(PatternFault::NO_KEY)),
    ("\u{AD}", 32_768, Err(PatternFault::NO_KEY)),
    ("", 1, Err(PatternFault::NO_KEY)),
];

#[test]
fn first_fault_is_reported(rt: HostRuntime) {
    let alloc = rt.alloc();
    let table = table_of(&rt, alloc, TABLE, None);
    for (piece, count, want) in &FAULTS {
        let text = repeated(&rt, alloc, *piece, *count);
        same_at(&rt, &try_pattern(alloc, &table, &text, ONE), want, count);
    }
    drop(table);
}

/// Compares how many keys the greatest patterns have: letters, and accented ones of two bytes and, from strength two on, two keys each.
fn greatest(rt: &impl Abort, alloc: Global, strength: Strength, variable: Variable) {
    let letters = repeated(rt, alloc, "a", 65_536);
    has_keys(rt, alloc, (letters.as_str(), strength, variable), 65_536);
    let accented = repeated(rt, alloc, "\u{E9}", 32_768);
    let keys = if strength == ONE { 32_768 } else { 65_536 };
    has_keys(rt, alloc, (accented.as_str(), strength, variable), keys);
}

/// No pattern is too long before it has more than 65,536 bytes, whatever it is compared by.
#[test]
fn greatest_pattern_is_compiled(rt: HostRuntime) {
    let alloc = rt.alloc();
    for strength in &[ONE, TWO, THREE] {
        greatest(&rt, alloc, *strength, KEPT);
        greatest(&rt, alloc, *strength, SHIFTED);
    }
}

/// A text as a pattern at strength three, asked for again where memory was refused.
fn pattern_again(alloc: Global, table: &Table, text: &str) -> Result<usize, u8> {
    let first = try_pattern(alloc, table, text, THREE);
    if first != Err(PatternFault::MEMORY) {
        return first;
    }
    try_pattern(alloc, table, text, THREE)
}

/// To be run with each allocation refused in turn: a refused pattern is fault 24, and one that is asked for again is answered as
/// with ample memory. A refusal that meets the test itself stops it.
#[test]
fn refused_patterns_are_asked_for_again(rt: HostRuntime) {
    let alloc = rt.alloc();
    let table = table_of(&rt, alloc, TABLE, None);
    for (piece, count, want) in &[
        ("aae\u{301}", 1, Ok(4)),
        ("u\u{327}\u{301}", 1, Ok(2)),
        ("ab", 3_000, Ok(6_000)),
        ("", 1, Err(22)),
        ("a", 65_537, Err(21)),
    ] {
        let text = repeated(&rt, alloc, *piece, *count);
        same(&rt, &pattern_again(alloc, &table, &text), want);
    }
    drop(table);
}
