//! Texts that could make a state grow: a cluster of a million characters, a million spaces between two letters, and a pattern of the
//! most bytes; fed, and saved, dropped and resumed after each piece. And one of characters of two bytes, so long that these are passed by in
//! blocks.

ghost use Rattle.std.specs.Prelude.{◌<◌};

use super::answers::{answered_is, fed, resumed, stepped};
use super::calls::{compile, for_all, joined, read, repeated};
use super::checks::{count_is, fault_is, holds, ranges_follow};
use super::{KEPT, ONE, Range, SHIFTED, TABLE, THREE};
use collation_elements::Variable;
use std::alloc::Global;
use std::process::Abort;

/// Compares the ranges of a text fed in pieces of 4,096 bytes, and in pieces of this size between which the search is saved, dropped
/// and resumed. It answers how many records of four words the greatest state between two of these has.
fn compare(
    rt: &impl Abort,
    alloc: Global,
    letters: &str,
    variable: Variable,
    text: &str,
    size: usize,
    ranges: &[Range],
) -> usize
    requires { 0 < size }
{
    let table = read(rt, alloc, TABLE);
    let pattern = compile(rt, alloc, &table, letters, THREE, variable);
    let query = for_all(&table, &pattern);
    let whole = fed(rt, alloc, &query, text.as_bytes(), 4096);
    answered_is(rt, &whole, ranges, None, "whole");
    let (again, most_words) = resumed(rt, alloc, &query, text.as_bytes(), size);
    answered_is(rt, &again, ranges, None, "resumed");
    count_is(rt, most_words % 4, 0);
    most_words / 4
}

/// `aa` in a million letters `a`, with a search that is saved, dropped and resumed after each of them: one run, of which each letter is
/// taken by a search that begins with the words that the one before it left.
#[test]
fn million_letters_resumed_after_each(rt: HostRuntime) {
    let alloc = rt.alloc();
    let table = read(&rt, alloc, TABLE);
    let pattern = compile(&rt, alloc, &table, "aa", THREE, KEPT);
    let text = repeated(&rt, alloc, "a", 1_000_000);
    let query = for_all(&table, &pattern);
    let ((ranges, fault), most_words) = resumed(&rt, alloc, &query, text.as_bytes(), 1);
    count_is(&rt, ranges.len(), 999_999);
    ranges_follow(&rt, &ranges, 2, 1);
    fault_is(&rt, fault, None, "a million letters");
    holds(&rt, most_words / 4 <= 39, &most_words);
    count_is(&rt, most_words, 8 * 4);
}

#[test]
fn million_soft_hyphens(rt: HostRuntime) {
    let hyphens = repeated(&rt, rt.alloc(), "\u{ad}", 1_000_000);
    let text = joined(&rt, rt.alloc(), &["a", hyphens.as_str()]);
    let records = compare(&rt, rt.alloc(), "a", KEPT, &text, 101, &[(0, 2_000_001)]);
    holds(&rt, records <= 38, &records);
    count_is(&rt, records, 7);
}

#[test]
fn million_spaces(rt: HostRuntime) {
    let spaces = repeated(&rt, rt.alloc(), " ", 1_000_000);
    let text = joined(&rt, rt.alloc(), &["a", spaces.as_str(), "b"]);
    let want = [(0, 1_000_002)];
    let records = compare(&rt, rt.alloc(), "ab", SHIFTED, &text, 101, &want);
    holds(&rt, records <= 39, &records);
    count_is(&rt, records, 7);
}

#[test]
fn pattern_of_the_most_bytes(rt: HostRuntime) {
    let letters = repeated(&rt, rt.alloc(), "a", 65_536);
    let text = repeated(&rt, rt.alloc(), "a", 65_537);
    let want = [(0, 65_536), (1, 65_537)];
    let records = compare(&rt, rt.alloc(), &letters, KEPT, &text, 4096, &want);
    holds(&rt, records <= 65_573, &records);
    count_is(&rt, records, 65_542);
}

/// Rows of letters of two bytes.
const LETTERS: &str = "@version 0.0.0
0020 ; [*0201.0020.0002]
0430 ; [.2000.0020.0002]
0431 ; [.2010.0020.0002]
0432 ; [.2020.0020.0002]
0433 ; [.2030.0020.0002]
0434 ; [.2040.0020.0002]
0435 ; [.2050.0020.0002]
0436 ; [.2060.0020.0002]
";

/// Letters of two bytes: more than 524,288 bytes without those of `абв`; then matches and what is nearly one, far more of the pattern's
/// letters than a block has, up to a match, and a last match behind others.
fn letters_of_two_bytes(rt: &impl Abort, alloc: Global) -> String {
    let calm = repeated(rt, alloc, "где ж ", 54_000);
    let matches = repeated(rt, alloc, "абв где абж бв аб где ", 300);
    let own = repeated(rt, alloc, "б", 5_000);
    let nearly = repeated(rt, alloc, "аб", 3_000);
    let behind = repeated(rt, alloc, "где ж ", 1_000);
    let texts = [
        calm.as_str(),
        matches.as_str(),
        behind.as_str(),
        own.as_str(),
        nearly.as_str(),
        "в",
        behind.as_str(),
        "абв",
        behind.as_str(),
    ];
    joined(rt, alloc, &texts)
}

/// Compares the ranges of a text that is fed as one piece, and in pieces of 4,096 bytes, with those of steps.
fn compare_with_steps(rt: &impl Abort, alloc: Global, letters: &str, text: &str, count: usize) {
    let table = read(rt, alloc, LETTERS);
    let pattern = compile(rt, alloc, &table, letters, ONE, KEPT);
    let query = for_all(&table, &pattern);
    let steps = stepped(rt, alloc, &query, text.as_bytes());
    count_is(rt, steps.0.len(), count);
    fault_is(rt, steps.1, None, letters);
    let whole = fed(rt, alloc, &query, text.as_bytes(), usize::MAX);
    answered_is(rt, &whole, &steps.0, None, "whole");
    let pieces = fed(rt, alloc, &query, text.as_bytes(), 4_096);
    answered_is(rt, &pieces, &steps.0, None, "pieces");
}

#[test]
fn letters_of_two_bytes_by_half_a_million(rt: HostRuntime) {
    let text = letters_of_two_bytes(&rt, rt.alloc());
    compare_with_steps(&rt, rt.alloc(), "абв", &text, 302);
    compare_with_steps(&rt, rt.alloc(), "бв", &text, 602);
    compare_with_steps(&rt, rt.alloc(), "в", &text, 602);
}
