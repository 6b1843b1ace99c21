//! A table file of real shape: its mapped strings, and the number and kind of each one's elements, are those of the file `shape.txt`; its
//! weights and comments come from a number.
//!
//! A line of `shape.txt` is `STRINGS KINDS`. STRINGS are a code point, a range `FIRST..LAST` of them, or code points with `+` between them, in
//! hexadecimal digits. KINDS has a letter for each element: `p` primary, `v` variable, `s` secondary, `i` ignorable, `L` and `F` the two
//! of a pair. `=` and `-` are a primary and a variable element that have the primary weight of the row before.

use crate::random::Random;
use std::alloc::{AllocError, Global};

/// What the comments are cut from.
const NAMES: &[u8; 120] =
    b"LATIN SMALL LETTER E WITH CIRCUMFLEX AND ACUTE OR A COMPATIBILITY IDEOGRAPH OF THE VOWEL SIGN AND TONE MARK HIEROGLYPH A";

/// The greatest weights that were given so far.
#[derive(Drop)]
struct Given {
    primary: usize,
    secondary: usize,
    variable: usize,
}

/// The bytes of a table file, and where some of its digits stand, the last ones of third weights.
#[derive(Drop)]
pub struct TableText {
    pub bytes: Vec<u8>,
    digits: Vec<usize>,
}

impl TableText {
    /// A table of the shape that the lines of `shape` have.
    pub fn new(alloc: Global, shape: &str, random: &mut Random) -> Result<TableText, AllocError> {
        let mut table = TableText {
            bytes: Vec::new(alloc),
            digits: Vec::new(alloc),
        };
        let mut given = Given {
            primary: 0x1C00 + random.below(256),
            secondary: 0x21 + random.below(16),
            variable: 0x201,
        };
        table
            .bytes
            .extend_from_slice(b"# A table of real shape\n\n@version 14.0.0\n\n")?;
        for line in shape.lines() {
            if let Some((strings, kinds)) = line.split_once(' ') {
                table.push_rows(strings, kinds.as_bytes(), &mut given, random)?;
            }
        }
        Ok(table)
    }

    /// The rows of a line of the shape.
    fn push_rows(
        &mut self,
        strings: &str,
        kinds: &[u8],
        given: &mut Given,
        random: &mut Random,
    ) -> Result<(), AllocError> {
        let Some((first, last)) = strings.split_once("..") else {
            for (number, point) in strings.split('+').enumerate() {
                if number > 0 {
                    self.bytes.push(b' ')?;
                }
                self.bytes.extend_from_slice(point.as_bytes())?;
            }
            return self.push_row(kinds, given, random);
        };
        let first = hexadecimal(first.as_bytes());
        let last = hexadecimal(last.as_bytes());
        for number in 0..last.saturating_sub(first).saturating_add(1) {
            push_point(&mut self.bytes, first.wrapping_add(number))?;
            self.push_row(kinds, given, random)?;
        }
        Ok(())
    }

    /// The rest of a row, behind its mapped string.
    fn push_row(
        &mut self,
        kinds: &[u8],
        given: &mut Given,
        random: &mut Random,
    ) -> Result<(), AllocError> {
        self.bytes.extend_from_slice(b"  ; ")?;
        let is_alone = kinds.len() == 1;
        for kind in kinds {
            let weights = weights(*kind, is_alone, given, random);
            push_element(&mut self.bytes, *kind, weights)?;
            if is_alone && weights[0] > 0 {
                self.digits.push(self.bytes.len().saturating_sub(2))?;
            }
        }
        let start = random.below(80);
        let len = 10 + random.below(30);
        self.bytes.extend_from_slice(b" # ")?;
        self.bytes
            .extend_from_slice(NAMES.get(start..start + len).unwrap_or(b"NAME"))?;
        self.bytes.push(b'\n').map_err(|_| AllocError)
    }

    /// Makes another table of it: each third weight that may vary gets another last digit.
    pub fn vary(&mut self, random: &mut Random) {
        for place in &self.digits {
            if let Some(digit) = self.bytes.get_mut(*place) {
                *digit = b"23456789"[random.below(8)];
            }
        }
    }
}

/// The weights of an element of a kind.
fn weights(kind: u8, is_alone: bool, given: &mut Given, random: &mut Random) -> [usize; 3] {
    match kind {
        b'p' if is_alone => {
            given.primary = given.primary.wrapping_add(1);
            [given.primary, 0x20, 2]
        }
        b'=' => [given.primary, 0x20, 2 + random.below(14)],
        b'p' => {
            let spread = given.primary.saturating_sub(0x1C00).saturating_add(1);
            [0x1C00 + random.below(spread) % 0xC000, 0x20, 4]
        }
        b'v' if is_alone => {
            given.variable = given.variable.wrapping_add(1);
            [given.variable, 0x20, 2]
        }
        b'v' | b'-' => [given.variable, 0x20, 4],
        b's' if is_alone => {
            given.secondary = given.secondary.wrapping_add(1);
            [0, given.secondary, 2]
        }
        b's' => [0, given.secondary, 2],
        b'L' => [0xFB40 + random.below(2), 0x20, 4],
        b'F' => [0x8000 + random.below(0x7000), 0, 0],
        _ => [0, 0, 0],
    }
}

/// Writes an element.
fn push_element(bytes: &mut Vec<u8>, kind: u8, weights: [usize; 3]) -> Result<(), AllocError> {
    bytes.push(b'[')?;
    let is_variable = kind == b'v' || kind == b'-';
    let mut mark = if is_variable { b'*' } else { b'.' };
    for weight in weights {
        bytes.push(mark)?;
        push_digits(bytes, weight, 4)?;
        mark = b'.';
    }
    bytes.push(b']')?;
    Ok(())
}

/// Writes a code point.
fn push_point(bytes: &mut Vec<u8>, point: usize) -> Result<(), AllocError> {
    let digits = if point < 0x10000 { 4 } else { 5 };
    push_digits(bytes, point, digits)
}

/// Writes the last so many hexadecimal digits of a number.
fn push_digits(bytes: &mut Vec<u8>, number: usize, digits: usize) -> Result<(), AllocError> {
    let mut above = [0u8; 6];
    let mut rest = number;
    for digit in &mut above {
        *digit = b"0123456789ABCDEF"[rest % 16];
        rest /= 16;
    }
    for digit in above.iter().take(digits).rev() {
        bytes.push(*digit)?;
    }
    Ok(())
}

/// The number that hexadecimal digits spell.
pub fn hexadecimal(digits: &[u8]) -> usize {
    let mut number = 0usize;
    for digit in digits {
        let value = match *digit {
            b'0'..=b'9' => *digit - b'0',
            b'A'..=b'F' => *digit - b'A' + 10,
            _ => 0,
        };
        number = number.wrapping_mul(16).wrapping_add(usize::from(value));
    }
    number
}
