//! Tests whether words are a state: whole records of the right form, for the same pattern, table and settings, with numbers that
//! a search can hold.

ghost use Rattle.std.specs.Prelude.{◌≡◌, ◌≤◌, ◌==◌, length, true, false, IfSome, IfNone, IsTrue};
ghost use Rattle.std.specs.List.{list_all};
ghost use Rattle.utf8_cut.specs.Characters.{is_incomplete_or_empty};
ghost use Rattle.collation_states.specs.StateTests as tests;

use crate::setting_words::{word_of_select, word_of_strength, word_of_variable};
use arrayvec::ArrayVec;
use collation_elements::{Strength, Variable};
use collation_matches::Select;
use nfd_points::MOST_WAITING;
use utf8_cut::Cut;

/// How many words a record has.
pub const RECORD_WORDS: usize = 4;

/// How many words the first five records have.
pub(crate) const HEAD_WORDS: usize = 20;

/// What a state is of: the sizes of the pattern and the table, the settings, and which ranges are handed out.
#[derive(Clone, Copy)]
pub struct Sizes {
    /// The number of the pattern's keys.
    pub pattern_len: usize,
    /// The number of code points of the table's longest mapped string.
    pub longest_key: usize,
    /// The number of collation elements of the table's largest row.
    pub most_elements: usize,
    pub strength: Strength,
    pub variable: Variable,
    pub select: Select,
}

/// The numbers of the first five records, beside the sizes and the settings. Flags are 0 or 1.
#[derive(Clone, Copy)]
pub struct Head {
    /// The number of bytes taken.
    pub taken: u64,
    /// The kind of the fault, 0 where there is none, and where it stands.
    pub kind: u64,
    pub fault_offset: u64,
    /// The number of bytes that begin a character, and these bytes as one number.
    pub held_len: u64,
    pub held: u64,
    /// Whether the last element that was variable or primary was variable, under shifted weighting.
    pub after_variable: u64,
    /// Where the current cluster starts, whether it has keys, and whether a match waits for its end.
    pub start: u64,
    pub has_keys: u64,
    pub waits: u64,
    /// How many records follow: of the places of keys, of the points in the window and of those that wait.
    pub state: u64,
    pub window_len: u64,
    pub waiting_len: u64,
}

/// How many words a state has before the places of keys: five records, and of a chain one more.
pub(crate) fn head_len(select: Select) -> usize
    ensures right { result ≡ tests.head_len select }
    ensures long { 20 ≤ result }
{
    match select {
        Select::All => HEAD_WORDS,
        Select::Chain => HEAD_WORDS + RECORD_WORDS,
    }
}

/// Whether there are whole records, as many as each state has at least, of the form that `save` gives.
pub(crate) fn has_form(select: Select, words: &[u64]) -> bool
    ensures right { result ≡ tests.has_form select words.now }
    ensures long { IsTrue result → tests.head_len select ≤ length words.now }
{
    words.len() >= head_len(select)
        && words.len() % RECORD_WORDS == 0
        && words[0] == word_of_select(select)
}

/// Whether the words are of these sizes and settings.
pub(crate) fn is_for(sizes: &Sizes, words: &[u64]) -> bool
    requires { 20 ≤ length words.now }
    ensures { result ≡ tests.is_for sizes.now words.now }
{
    words[1] == sizes.pattern_len as u64
        && words[2] == sizes.longest_key as u64
        && words[3] == sizes.most_elements as u64
        && words[4] == word_of_strength(sizes.strength)
        && words[5] == word_of_variable(sizes.variable)
}

/// The words of the first five records, after the form, the sizes and the settings.
pub(crate) fn read_head(words: &[u64]) -> Head
    requires { 20 ≤ length words.now }
    ensures { result ≡ tests.head words.now }
{
    Head {
        taken: words[6],
        kind: words[7],
        fault_offset: words[8],
        held_len: words[9],
        held: words[10],
        after_variable: words[11],
        start: words[12],
        has_keys: words[13],
        waits: words[14],
        state: words[15],
        window_len: words[16],
        waiting_len: words[17],
    }
}

/// The bytes that a number spells, the first one most significant; `None` where it spells no `len` bytes, or more than three.
pub(crate) fn bytes_in(len: u64, number: u64) -> Option<ArrayVec<u8, 3>>
    ensures bytes { IfSome result (λ bytes. bytes.items ≡ tests.bytes_in len number) }
    ensures few { IfSome result (λ bytes. length bytes.items ≡ len) }
    ensures none { IfNone result (len ≤ 3
        → is_incomplete_or_empty (tests.bytes_in len number) ≡ false) }
{
    let mut bytes = ArrayVec::new();
    let (first, later) = match len {
        0 => return Some(bytes),
        1 => (number, 0),
        2 => (number / 256, number % 256),
        3 => (number / 65536, number % 65536),
        _ => return None,
    };
    if first >= 256 {
        return None;
    }
    bytes.push(first as u8);
    if len == 3 {
        bytes.push((later / 256) as u8);
    }
    if len >= 2 {
        bytes.push((later % 256) as u8);
    }
    Some(bytes)
}

/// Whether a number spells so many bytes that properly begin a character, or none and is 0.
fn may_be_held(len: u64, number: u64) -> bool
    ensures { result ≡ tests.may_be_held len number }
{
    if len > 3 || (len == 0 && number != 0) {
        return false;
    }
    match bytes_in(len, number) {
        Some(bytes) => Cut::may_hold(bytes.as_slice()),
        None => false,
    }
}

/// Whether as many records follow as the first five say, no more of each kind than a search can hold.
fn has_records(sizes: &Sizes, head: &Head, words: &[u64]) -> bool
    requires { tests.has_form sizes.now.select words.now ≡ true }
    ensures { result ≡ tests.has_records sizes.now head.now words.now }
{
    let records = ((words.len() - head_len(sizes.select)) / RECORD_WORDS) as u64;
    head.state <= sizes.pattern_len as u64
        && head.window_len <= sizes.longest_key as u64
        && head.waiting_len <= MOST_WAITING as u64
        && head.state <= records
        && head.window_len <= records - head.state
        && head.waiting_len == records - head.state - head.window_len
}

/// Whether the first five records are those of a search that has met no fault.
pub(crate) fn is_open_head(sizes: &Sizes, head: &Head, words: &[u64]) -> bool
    requires { tests.has_form sizes.now.select words.now ≡ true }
    ensures { result ≡ tests.is_open_head sizes.now head.now words.now }
{
    head.fault_offset == 0
        && head.after_variable <= 1
        && head.has_keys <= 1
        && head.waits <= 1
        && head.held_len <= head.taken
        && may_be_held(head.held_len, head.held)
        && has_records(sizes, head, words)
        && head.start <= head.taken - head.held_len
}

/// Whether a match waits only where the whole pattern ends the keys so far, the first of them is the first of its cluster, and
/// the current cluster has keys.
pub(crate) fn may_match_wait(sizes: &Sizes, head: &Head, words: &[u64]) -> bool
    ensures { result ≡ tests.may_match_wait sizes.now head.now words.now }
{
    head.waits == 0
        || (head.state == sizes.pattern_len as u64
            && words.get(head_len(sizes.select) + 1).copied() == Some(1)
            && head.has_keys == 1)
}

/// Whether the record of a chain says an end that is not after the current cluster's start.
pub(crate) fn is_chain_end(select: Select, head: &Head, words: &[u64]) -> bool
    requires { tests.head_len select ≤ length words.now }
    ensures { result ≡ tests.is_chain_end select head.now words.now }
{
    match select {
        Select::All => true,
        Select::Chain => words[20] <= head.start
            && words[21] == 0
            && words[22] == 0
            && words[23] == 0,
    }
}

/// Whether the words are those of a search that has reported a fault, and hold nothing else.
pub(crate) fn is_reported(select: Select, head: &Head, words: &[u64]) -> bool
    requires { tests.head_len select ≤ length words.now }
    ensures { result ≡ tests.is_reported select head.now words.now }
{
    31 <= head.kind
        && head.kind <= 35
        && head.fault_offset == head.taken
        && words.len() == head_len(select)
        && are_zero(&words[9..])
}

/// Whether all words are 0.
fn are_zero(words: &[u64]) -> bool
    ensures { result ≡ list_all (λ word. word == 0) words.now }
{
    words.iter().all(|word| *word == 0)
}

/// Whether the places of keys are those of a search: their clusters' starts do not fall, and none is after `most`.
pub(crate) fn are_places(most: u64, words: &[u64]) -> bool
    ensures { result ≡ tests.are_places 0 most words.now }
{
    let mut least = 0;
    let mut rest = words;
    while let [start, is_first, a, b, later @ ..] = rest {
        if *start < least || *start > most || *is_first > 1 || *a != 0 || *b != 0 {
            return false;
        }
        least = *start;
        rest = later;
    }
    rest.is_empty()
}
