//! What a status says, in words.

ghost use Rattle.std.specs.Prelude.{◌≡◌, ◌+◌, ◌≤◌, ◌++◌, length};
ghost use Rattle.std.specs.Fmt.{decimal};
ghost use Rattle.colfind_c.specs.Messages.{table_words, pattern_words, text_words, state_words, call_words, before_words, words, as_text};

use crate::outcome::Status;
use arrayvec::ArrayString;
use itoa::Buffer;

/// The most bytes that the words of a fault have.
const MOST_WORDS: usize = 160;

/// Room for every message.
pub(crate) type Message = ArrayString<256>;

/// What is wrong with a table file.
fn table_words_of(kind: u32) -> &'static str
    ensures said { result.now ≡ table_words kind }
    ensures short { length result.now ≤ MOST_WORDS }
{
    match kind {
        1 => "a line of the table file is malformed",
        2 => "a code point is above 10FFFF",
        3 => "the same string of code points stands in an earlier line",
        4 => "a string of more than 64 code points, or more than 128 elements",
        5 => "an element has a weight at one level and zero at the next",
        6 => "a weight of an accent or of a third level is not above those of the levels before",
        7 => "an element is marked variable, and its first weight is zero",
        8 => "a weight between two variable ones is not variable",
        9 =>
            "a string of three or more code points ends in a combining mark, and without the mark it has no row",
        10 =>
            "a lead without a follower, a follower without a lead, or a variable first weight of FB00 or more",
        11 =>
            "a range of implicit weights has a wrong end or base, is too wide, or overlaps an earlier one",
        12 => "the table has no row",
        13 => "more than 1,048,576 rows or 256 ranges",
        _ => "a request for memory was refused while the table was read",
    }
}

/// What is wrong with a pattern.
fn pattern_words_of(kind: u32) -> &'static str
    ensures said { result.now ≡ pattern_words kind }
    ensures short { length result.now ≤ MOST_WORDS }
{
    match kind {
        21 => "the pattern has more than 65,536 bytes",
        22 => "the pattern has nothing that counts at this strength",
        23 => "the pattern has more than 30 combining marks in a row",
        _ => "a request for memory was refused for the pattern",
    }
}

/// What is wrong with a text.
fn text_words_of(kind: u32) -> &'static str
    ensures said { result.now ≡ text_words kind }
    ensures short { length result.now ≤ MOST_WORDS }
{
    match kind {
        31 => "the text is not UTF-8 here, or ends amid a character",
        32 => "the thirty-first combining mark in a row",
        33 => "a character is decomposed into more than 4 code points",
        34 => "the text has more than 2^62 bytes",
        35 => "a request for memory was refused for a decomposition",
        _ => "a request for memory was refused for the search",
    }
}

/// What is wrong with the words of a search.
fn state_words_of(kind: u32) -> &'static str
    ensures said { result.now ≡ state_words kind }
    ensures short { length result.now ≤ MOST_WORDS }
{
    match kind {
        51 => "the words are no saved search, or one of the other selection",
        52 => "the words are of another pattern, table, strength or weighting",
        _ => "a request for memory was refused for the saved search",
    }
}

/// What is wrong with a call.
fn call_words_of(kind: u32) -> &'static str
    ensures said { result.now ≡ call_words kind }
    ensures short { length result.now ≤ MOST_WORDS }
{
    match kind {
        81 => "a request for memory was refused",
        82 => "the handle holds something else, or nothing",
        83 => "the search was finished or stopped",
        84 => "the buffer has room for fewer",
        85 => "an argument is none that the call takes",
        _ => "no fault has this number",
    }
}

/// What is wrong, by the number of a fault.
fn words_of(kind: u32) -> &'static str
    ensures said { result.now ≡ words kind }
    ensures short { length result.now ≤ MOST_WORDS }
{
    match kind {
        0 => "all is well",
        1..=14 => table_words_of(kind),
        21..=24 => pattern_words_of(kind),
        31..=36 => text_words_of(kind),
        51..=53 => state_words_of(kind),
        61..=73 => table_words_of(kind - 60),
        _ => call_words_of(kind),
    }
}

/// What stands before the words.
fn before_words_of(kind: u32) -> &'static str
    ensures said { result.now ≡ before_words kind }
    ensures short { length result.now ≤ 20 }
{
    match kind {
        61..=73 => ": in the tailor, ",
        _ => ": ",
    }
}

/// Appends a number in decimal digits.
fn push_number(message: &mut Message, number: u64)
    requires { length message.old.bytes + 20 ≤ 256 }
    ensures digits { message.new.bytes ≡ message.old.bytes ++ decimal number }
    ensures most { length message.new.bytes ≤ length message.old.bytes + 20 }
{
    let mut digits = Buffer::new();
    message.push_str(digits.format(number));
}

impl Status {
    ghost use Rattle.std.specs.Prelude.{◌≡◌};
    ghost use Rattle.colfind_c.specs.Messages.{message};

    /// What it says: the line of the program without its name, and words.
    pub(crate) fn message(self) -> Message
        ensures { result.bytes ≡ message self }
    {
        let mut message = Message::new();
        message.push_str("fault ");
        push_number(&mut message, u64::from(self.kind));
        message.push_str(" at ");
        push_number(&mut message, self.at);
        message.push_str(before_words_of(self.kind));
        message.push_str(words_of(self.kind));
        message
    }
}

/// Writes as much of a text as has room, and a zero byte behind it.
pub(crate) fn write_text(text: &[u8], out: &mut [u8])
    ensures { out.new ≡ as_text text.now out.old }
{
    let Some(room) = out.len().checked_sub(1) else {
        return;
    };
    let count = text.len().min(room);
    out[..count].copy_from_slice(&text[..count]);
    out[count] = 0;
}
