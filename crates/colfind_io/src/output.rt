//! What is printed of the ranges that were found, a line at a time.
ghost use Rattle.std.specs.Prelude.{◌≡◌, ◌+◌, ◌≤◌, ◌∷◌, ◌++◌, [], length, drop, IsUtf8};
ghost use Rattle.std.specs.Fmt.{decimal};
ghost use Rattle.colfind_io.specs.Printing.{range_line, mark_lines};

use arrayvec::ArrayString;
use itoa::{Buffer, write_digits};
use std::str::from_utf8_unchecked;

/// The greatest length of what is written at once: two numbers of twenty digits, and what stands
/// around them.
pub const MOST_LINE_BYTES: usize = 64;

/// A line, or two.
pub type Line = ArrayString<MOST_LINE_BYTES>;

/// How the ranges are printed.
#[derive(Clone, Copy, Debug, PartialEq, Eq)]
pub enum Output {
    /// A line `s:e` for each.
    Ranges,
    /// One line with their number.
    Count,
    /// Two lines for each, `[s` and `]e`.
    Marks,
}

impl Output {
    ghost use Rattle.colfind_io.specs.Printing.{printed_range, printed_end};

    /// Appends what is printed of the range from the byte at `start` to before the byte at `end`.
    #[inline(always)]
    pub fn print<const ROOM: usize>(self, lines: &mut ArrayString<ROOM>, start: u64, end: u64)
        requires { length lines.old.bytes + MOST_LINE_BYTES ≤ ROOM }
        ensures { lines.new.bytes ≡ lines.old.bytes ++ printed_range self (start, end) }
    {
        let mut room = [0; MOST_LINE_BYTES];
        let front = match self {
            Output::Ranges => write_range(&mut room, start, end),
            Output::Marks => write_marks(&mut room, start, end),
            Output::Count => return,
        };
        // they are digits, and the signs of `write_range` and `write_marks`
        let line = unsafe { from_utf8_unchecked(&room[front..]) };
        lines.push_str(line);
    }

    /// What is printed after all ranges, of which there are `count`.
    pub fn last_line(self, count: u64) -> Line
        ensures { result.bytes ≡ printed_end self count }
    {
        let mut line = Line::new();
        if let Output::Count = self {
            push_number(&mut line, count);
            line.push_str("\n");
        }
        line
    }
}

/// Appends the number in decimal digits, of which there are twenty at most.
pub fn push_number<const ROOM: usize>(line: &mut ArrayString<ROOM>, number: u64)
    requires { length line.old.bytes + 20 ≤ ROOM }
    ensures digits { line.new.bytes ≡ line.old.bytes ++ decimal number }
    ensures most { length line.new.bytes ≤ length line.old.bytes + 20 }
{
    let mut digits = Buffer::new();
    line.push_str(digits.format(number));
}

/// Writes the line of a range so that it ends where `room` does, and answers where it begins.
#[inline(always)]
fn write_range(room: &mut [u8; MOST_LINE_BYTES], start: u64, end: u64) -> usize
    ensures within { result ≤ MOST_LINE_BYTES }
    ensures line { drop result room.new ≡ range_line (start, end) }
    ensures text { IsUtf8 (range_line (start, end)) }
{
    let at = write_sign(b'\n', room, MOST_LINE_BYTES);
    let at = write_number(end, room, at);
    let at = write_sign(b':', room, at);
    write_number(start, room, at)
}

/// The same of its two lines of marks.
#[inline(always)]
fn write_marks(room: &mut [u8; MOST_LINE_BYTES], start: u64, end: u64) -> usize
    ensures within { result ≤ MOST_LINE_BYTES }
    ensures lines { drop result room.new ≡ mark_lines (start, end) }
    ensures text { IsUtf8 (mark_lines (start, end)) }
{
    let at = write_sign(b'\n', room, MOST_LINE_BYTES);
    let at = write_number(end, room, at);
    let at = write_sign(b']', room, at);
    let at = write_sign(b'\n', room, at);
    let at = write_number(start, room, at);
    write_sign(b'[', room, at)
}

/// Writes a byte so that it ends at `end`, and answers where it stands.
#[inline(always)]
fn write_sign(sign: u8, room: &mut [u8], end: usize) -> usize
    requires { (1 ≤ end) × (end ≤ length room.old) }
    ensures start { result + 1 ≡ end }
    ensures written { drop result room.new ≡ sign ∷ drop end room.old }
{
    room[end - 1] = sign;
    end - 1
}

/// Writes the digits of a number, of which there are twenty at most, so that they end at `end`, and answers where they begin.
#[inline(always)]
fn write_number(number: u64, room: &mut [u8], end: usize) -> usize
    requires { (20 ≤ end) × (end ≤ length room.old) }
    ensures start { (result ≤ end) × (end ≤ result + 20) }
    ensures written { drop result room.new ≡ decimal number ++ drop end room.old }
{
    write_digits(number, room, end)
}
