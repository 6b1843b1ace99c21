//! Appends the words of a state to a list.
ghost use Rattle.std.specs.Prelude.{◌≡◌, ◌+◌, ◌++◌, ◌<◌, ◌≤◌, length, vec_len, vec_capacity, OnOk, OnErr};
ghost use Rattle.collation_states.specs.State.{number_of, head_of, head_words, chain_record, point_words, place_record, point_record, reported};
ghost use Rattle.collation_states.specs.Saving.{AreWordsAppended};

use crate::setting_words::{word_of_select, word_of_strength, word_of_variable};
use crate::states::{Head, Sizes};
use collation_matches::{Select, TextFault};
use nfd_points::Point;
use std::alloc::AllocError;

/// Appends the first five records, and of a search for a chain the one that says where the last range ends that was handed out.
///
/// # Errors
///
/// Where memory was refused.
pub fn append_head(
    words: &mut Vec<u64>,
    sizes: &Sizes,
    head: &Head,
    last_end: u64,
) -> Result<(), AllocError>
    ensures saved { OnOk result
        (words.new.items
        ≡ words.old.items ++
        (head_words sizes.now head.now ++ chain_record sizes.now.select last_end)) }
    ensures begun { OnErr result (AreWordsAppended words.old.items words.new.items) }
    ensures full { OnErr result
        (vec_capacity words.old < vec_len words.old + length
        (head_words sizes.now head.now ++ chain_record sizes.now.select last_end)) }
    ensures capacity { vec_capacity words.old ≤ vec_capacity words.new }
{
    words.extend_from_slice(&[
        word_of_select(sizes.select),
        sizes.pattern_len as u64,
        sizes.longest_key as u64,
        sizes.most_elements as u64,
        word_of_strength(sizes.strength),
        word_of_variable(sizes.variable),
        head.taken,
        head.kind,
        head.fault_offset,
        head.held_len,
        head.held,
        head.after_variable,
        head.start,
        head.has_keys,
        head.waits,
        head.state,
        head.window_len,
        head.waiting_len,
        0,
        0,
    ])?;
    match sizes.select {
        Select::All => Ok(()),
        Select::Chain => words.extend_from_slice(&[last_end, 0, 0, 0]),
    }
}

/// The numbers of a state after a fault: that fault and nothing else.
pub fn reported_head(fault: TextFault) -> Head
    ensures { result ≡ head_of (reported fault) }
{
    Head {
        taken: fault.offset,
        kind: fault.kind as u64,
        fault_offset: fault.offset,
        held_len: 0,
        held: 0,
        after_variable: 0,
        start: 0,
        has_keys: 0,
        waits: 0,
        state: 0,
        window_len: 0,
        waiting_len: 0,
    }
}

/// Bytes as one number, the first byte most significant.
pub fn number_of(bytes: &[u8]) -> u64
    requires { length bytes.now ≤ 3 }
    ensures { result ≡ number_of bytes.now }
{
    match *bytes {
        [a] => a as u64,
        [a, b] => a as u64 * 256 + b as u64,
        [a, b, c] => (a as u64 * 256 + b as u64) * 256 + c as u64,
        _ => 0,
    }
}

/// Appends the record of the place of a key: the start of its cluster, and whether it is that cluster's first key.
///
/// # Errors
///
/// Where memory was refused.
pub fn append_place(words: &mut Vec<u64>, start: u64, is_first: bool) -> Result<(), AllocError>
    ensures saved { OnOk result
        (words.new.items
        ≡ words.old.items ++ place_record (record { start = start; is_first = is_first })) }
    ensures kept { OnErr result (words.new.items ≡ words.old.items) }
    ensures full { OnErr result (vec_capacity words.old < vec_len words.old + 4) }
    ensures capacity { vec_capacity words.old ≤ vec_capacity words.new }
{
    words.extend_from_slice(&[start, is_first as u64, 0, 0])
}

/// Appends the records of points.
///
/// # Errors
///
/// Where memory was refused.
pub fn append_points(words: &mut Vec<u64>, points: &[Point]) -> Result<(), AllocError>
    ensures saved { OnOk result (words.new.items ≡ words.old.items ++ point_words points.now) }
    ensures begun { OnErr result (AreWordsAppended words.old.items words.new.items) }
    ensures full { OnErr result
        (vec_capacity words.old < vec_len words.old + length (point_words points.now)) }
    ensures capacity { vec_capacity words.old ≤ vec_capacity words.new }
{
    for point in points {
        append_point(words, point)?;
    }
    Ok(())
}

/// Appends the record of a point.
///
/// # Errors
///
/// Where memory was refused.
pub fn append_point(words: &mut Vec<u64>, point: &Point) -> Result<(), AllocError>
    ensures saved { OnOk result (words.new.items ≡ words.old.items ++ point_record point.now) }
    ensures kept { OnErr result (words.new.items ≡ words.old.items) }
    ensures full { OnErr result (vec_capacity words.old < vec_len words.old + 4) }
    ensures capacity { vec_capacity words.old ≤ vec_capacity words.new }
{
    words.extend_from_slice(&[point.cp as u64, point.offset, point.first as u64, 0])
}
