//! Reads what the words of a state say, or their fault. It takes no memory.
ghost use Rattle.std.specs.Prelude.{◌≡◌, ◌+◌, ◌*◌, ◌≤◌, length, true, None, Some, is_some, IfOk, OnOk, IfErr, IfSome};
ghost use Rattle.utf8_cut.specs.Characters.{is_incomplete_or_empty};
ghost use Rattle.nfd_points.specs.declared.limits.TheConstants.{MOST_WAITING};
ghost use Rattle.collation_table.specs.declared.limits.TheConstants.{MOST_STRING_POINTS};
ghost use Rattle.collation_matches.specs.GoodPrefix.{most_bytes};
ghost use Rattle.collation_states.specs.Reading.{last_end_in, open_of, state_in, Says};
ghost use Rattle.collation_states.specs.State.{reported};
ghost use Rattle.collation_states.specs.StateTests as tests;

use crate::MOST_BYTES;
use crate::faults::StateFault;
use crate::read_state::ReadState;
use crate::state_points::{Points, may_be_in_window, may_wait, read_points};
use crate::states::{
    HEAD_WORDS, Head, RECORD_WORDS, Sizes, are_places, bytes_in, has_form, head_len, is_chain_end,
    is_for, is_open_head, is_reported, may_match_wait, read_head,
};
use arrayvec::ArrayVec;
use collation_matches::{Select, TextFault};

/// What these words say.
///
/// # Errors
///
/// 51 where they are no state, or one of the other form: the first form is of a search for all ranges, the second one of a search
/// for a chain. 52 where they are one of another pattern, table, strength or variable weighting.
pub fn read<'a>(sizes: &Sizes, words: &'a [u64]) -> Result<ReadState<'a>, StateFault>
    requires { sizes.now.longest_key ≤ MOST_STRING_POINTS }
    ensures accepted { OnOk result (tests.state_fault sizes.now words.now ≡ None) }
    ensures refused { IfErr result (λ f. tests.state_fault sizes.now words.now ≡ Some f.kind) }
    ensures says { IfOk result (λ read. Says read (state_in sizes.now.select words.now)) }
    ensures few_places { IfOk result (λ read. length read.places.now ≤ 4 * sizes.now.pattern_len) }
    ensures few_points { IfOk result (λ read. length read.window.items ≤ sizes.now.longest_key) }
{
    let malformed = StateFault {
        kind: StateFault::MALFORMED,
    };
    if !has_form(sizes.select, words) {
        return Err(malformed);
    }
    if !is_for(sizes, words) {
        return Err(StateFault {
            kind: StateFault::OF_ANOTHER,
        });
    }
    read_state(sizes, words).ok_or(malformed)
}

/// What words say that are of the right form, sizes and settings; `None` where they are no state.
fn read_state<'a>(sizes: &Sizes, words: &'a [u64]) -> Option<ReadState<'a>>
    requires short { sizes.now.longest_key ≤ MOST_STRING_POINTS }
    requires form { tests.has_form sizes.now.select words.now ≡ true }
    requires long { tests.head_len sizes.now.select ≤ length words.now }
    ensures right { tests.is_state sizes.now words.now ≡ is_some result }
    ensures says { IfSome result (λ read. Says read (state_in sizes.now.select words.now)) }
    ensures few_places { IfSome result
        (λ read. length read.places.now ≤ 4 * sizes.now.pattern_len) }
    ensures few_points { IfSome result (λ read. length read.window.items ≤ sizes.now.longest_key) }
{
    let head = read_head(words);
    let select = sizes.select;
    if head.taken > MOST_BYTES || words[18] != 0 || words[19] != 0 {
        return None;
    }
    if head.kind != 0 {
        if !is_reported(select, &head, words) {
            return None;
        }
        return Some(reported(head.kind as u8, head.fault_offset));
    }
    if !is_open_head(sizes, &head, words)
        || !may_match_wait(sizes, &head, words)
        || !is_chain_end(select, &head, words)
    {
        return None;
    }
    let Some(held) = bytes_in(head.held_len, head.held) else {
        return None;
    };
    let last_end = last_end_in(select, words);
    read_open(head, held, last_end, &words[head_len(select)..])
}

/// What a state says after the fault of that kind at that byte offset.
fn reported<'a>(kind: u8, offset: u64) -> ReadState<'a>
    requires kinds { (31 ≤ kind) × (kind ≤ 35) }
    requires short { offset ≤ most_bytes }
    ensures says { Says result (reported (record { kind = kind; offset = offset })) }
    ensures few_places { length result.places.now ≡ 0 }
    ensures few_points { length result.window.items ≡ 0 }
{
    ReadState {
        taken: offset,
        fault: Some(TextFault { kind, offset }),
        held: ArrayVec::new(),
        after_variable: false,
        start: 0,
        has_keys: false,
        waits: false,
        last_end: 0,
        places: &[],
        window: Points::new(),
        waiting: Points::new(),
    }
}

/// What the words after the head of a state say, beside its head, the bytes held and the end of the last range; `None` where no
/// search holds such places and points.
fn read_open<'a>(
    head: Head,
    held: ArrayVec<u8, 3>,
    last_end: u64,
    words: &'a [u64],
) -> Option<ReadState<'a>>
    requires taken { head.taken ≤ most_bytes }
    requires held_len { length held.items ≡ head.held_len }
    requires within { head.held_len ≤ head.taken }
    requires may_be_held { is_incomplete_or_empty held.items ≡ true }
    requires window { head.window_len ≤ MOST_STRING_POINTS }
    requires waiting { head.waiting_len ≤ MOST_WAITING }
    requires records { 4 * (head.state + (head.window_len + head.waiting_len)) ≡ length words.now }
    ensures right { tests.has_open_tail head words.now ≡ is_some result }
    ensures says { IfSome result (λ read. Says read (open_of head held.items last_end words.now)) }
    ensures few_places { IfSome result (λ read. length read.places.now ≡ 4 * head.state) }
    ensures few_points { IfSome result (λ read. length read.window.items ≤ head.window_len) }
{
    let (places, window, waiting) = parts(&head, words);
    let end = head.taken - head.held_len;
    if !are_places(head.start, places) {
        return None;
    }
    let Some(window) = read_points(end, window) else {
        return None;
    };
    let Some(waiting) = read_points(end, waiting) else {
        return None;
    };
    if !may_be_in_window(window.as_slice()) || !may_wait(waiting.as_slice()) {
        return None;
    }
    Some(ReadState {
        taken: head.taken,
        fault: None,
        held,
        after_variable: head.after_variable == 1,
        start: head.start,
        has_keys: head.has_keys == 1,
        waits: head.waits == 1,
        last_end,
        places,
        window,
        waiting,
    })
}

/// The words after the first five records: of the places of keys, of the points in the window, and of those that wait.
fn parts<'a>(head: &Head, words: &'a [u64]) -> (&'a [u64], &'a [u64], &'a [u64])
    requires { 4 * (head.now.state + (head.now.window_len + head.now.waiting_len))
        ≡ length words.now }
    ensures places { result.0.now ≡ tests.place_part head.now words.now }
    ensures window { result.1.now ≡ tests.window_part head.now words.now }
    ensures waiting { result.2.now ≡ tests.waiting_part head.now words.now }
    ensures places_len { length result.0.now ≡ 4 * head.now.state }
    ensures window_len { length result.1.now ≡ 4 * head.now.window_len }
    ensures waiting_len { length result.2.now ≡ 4 * head.now.waiting_len }
{
    let (places, points) = words.split_at(RECORD_WORDS * head.state as usize);
    let (window, waiting) = points.split_at(RECORD_WORDS * head.window_len as usize);
    (places, window, waiting)
}

/// Where the last range of a chain ends, by the record after the first five.
fn last_end_in(select: Select, words: &[u64]) -> u64
    requires { tests.head_len select ≤ length words.now }
    ensures { result ≡ last_end_in select words.now }
{
    match select {
        Select::All => 0,
        Select::Chain => words[HEAD_WORDS],
    }
}
