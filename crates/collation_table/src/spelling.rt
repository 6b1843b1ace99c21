//! Code points, weights, collation elements and mapped strings as a table file spells them (UTS #10, the form of allkeys.txt).

ghost use Rattle.std.specs.Prelude.{◌≡◌, ◌^◌, ◌<◌, ◌≤◌, [], ◌∷◌, length, drop, unwrap_or, IfOk, IfSome, IsTrue, option_map};
ghost use Rattle.std.specs.List.{list_all};
ghost use Rattle.collation_table.specs.Reading.{has_element_signs, element_at_front};
ghost use Rattle.collation_table.specs.Spelling.{is_blank, trim_start, hex_digit, hex_after, code_point_of, weight_of, mark_of, only_if, some_of, elements_of, string_of};

use crate::elements::Element;
use crate::pieces::{without_leading_blanks, word_len};
use std::alloc::AllocError;

/// More than any number that four digits spell.
const NO_DIGIT: u32 = 0x10000;

/// The value of each byte that is a digit `0` to `9` or `A` to `F`, and `NO_DIGIT` for another.
static DIGIT_VALUES: [u32; 256] = [
    NO_DIGIT, NO_DIGIT, NO_DIGIT, NO_DIGIT, NO_DIGIT, NO_DIGIT, NO_DIGIT, NO_DIGIT, NO_DIGIT,
    NO_DIGIT, NO_DIGIT, NO_DIGIT, NO_DIGIT, NO_DIGIT, NO_DIGIT, NO_DIGIT, NO_DIGIT, NO_DIGIT,
    NO_DIGIT, NO_DIGIT, NO_DIGIT, NO_DIGIT, NO_DIGIT, NO_DIGIT, NO_DIGIT, NO_DIGIT, NO_DIGIT,
    NO_DIGIT, NO_DIGIT, NO_DIGIT, NO_DIGIT, NO_DIGIT, NO_DIGIT, NO_DIGIT, NO_DIGIT, NO_DIGIT,
    NO_DIGIT, NO_DIGIT, NO_DIGIT, NO_DIGIT, NO_DIGIT, NO_DIGIT, NO_DIGIT, NO_DIGIT, NO_DIGIT,
    NO_DIGIT, NO_DIGIT, NO_DIGIT, 0, 1, 2, 3, 4, 5, 6, 7, 8, 9, NO_DIGIT, NO_DIGIT, NO_DIGIT,
    NO_DIGIT, NO_DIGIT, NO_DIGIT, NO_DIGIT, 10, 11, 12, 13, 14, 15, NO_DIGIT, NO_DIGIT, NO_DIGIT,
    NO_DIGIT, NO_DIGIT, NO_DIGIT, NO_DIGIT, NO_DIGIT, NO_DIGIT, NO_DIGIT, NO_DIGIT, NO_DIGIT,
    NO_DIGIT, NO_DIGIT, NO_DIGIT, NO_DIGIT, NO_DIGIT, NO_DIGIT, NO_DIGIT, NO_DIGIT, NO_DIGIT,
    NO_DIGIT, NO_DIGIT, NO_DIGIT, NO_DIGIT, NO_DIGIT, NO_DIGIT, NO_DIGIT, NO_DIGIT, NO_DIGIT,
    NO_DIGIT, NO_DIGIT, NO_DIGIT, NO_DIGIT, NO_DIGIT, NO_DIGIT, NO_DIGIT, NO_DIGIT, NO_DIGIT,
    NO_DIGIT, NO_DIGIT, NO_DIGIT, NO_DIGIT, NO_DIGIT, NO_DIGIT, NO_DIGIT, NO_DIGIT, NO_DIGIT,
    NO_DIGIT, NO_DIGIT, NO_DIGIT, NO_DIGIT, NO_DIGIT, NO_DIGIT, NO_DIGIT, NO_DIGIT, NO_DIGIT,
    NO_DIGIT, NO_DIGIT, NO_DIGIT, NO_DIGIT, NO_DIGIT, NO_DIGIT, NO_DIGIT, NO_DIGIT, NO_DIGIT,
    NO_DIGIT, NO_DIGIT, NO_DIGIT, NO_DIGIT, NO_DIGIT, NO_DIGIT, NO_DIGIT, NO_DIGIT, NO_DIGIT,
    NO_DIGIT, NO_DIGIT, NO_DIGIT, NO_DIGIT, NO_DIGIT, NO_DIGIT, NO_DIGIT, NO_DIGIT, NO_DIGIT,
    NO_DIGIT, NO_DIGIT, NO_DIGIT, NO_DIGIT, NO_DIGIT, NO_DIGIT, NO_DIGIT, NO_DIGIT, NO_DIGIT,
    NO_DIGIT, NO_DIGIT, NO_DIGIT, NO_DIGIT, NO_DIGIT, NO_DIGIT, NO_DIGIT, NO_DIGIT, NO_DIGIT,
    NO_DIGIT, NO_DIGIT, NO_DIGIT, NO_DIGIT, NO_DIGIT, NO_DIGIT, NO_DIGIT, NO_DIGIT, NO_DIGIT,
    NO_DIGIT, NO_DIGIT, NO_DIGIT, NO_DIGIT, NO_DIGIT, NO_DIGIT, NO_DIGIT, NO_DIGIT, NO_DIGIT,
    NO_DIGIT, NO_DIGIT, NO_DIGIT, NO_DIGIT, NO_DIGIT, NO_DIGIT, NO_DIGIT, NO_DIGIT, NO_DIGIT,
    NO_DIGIT, NO_DIGIT, NO_DIGIT, NO_DIGIT, NO_DIGIT, NO_DIGIT, NO_DIGIT, NO_DIGIT, NO_DIGIT,
    NO_DIGIT, NO_DIGIT, NO_DIGIT, NO_DIGIT, NO_DIGIT, NO_DIGIT, NO_DIGIT, NO_DIGIT, NO_DIGIT,
    NO_DIGIT, NO_DIGIT, NO_DIGIT, NO_DIGIT, NO_DIGIT, NO_DIGIT, NO_DIGIT, NO_DIGIT, NO_DIGIT,
    NO_DIGIT, NO_DIGIT, NO_DIGIT, NO_DIGIT, NO_DIGIT, NO_DIGIT, NO_DIGIT, NO_DIGIT, NO_DIGIT,
    NO_DIGIT, NO_DIGIT, NO_DIGIT, NO_DIGIT, NO_DIGIT, NO_DIGIT, NO_DIGIT, NO_DIGIT, NO_DIGIT,
    NO_DIGIT, NO_DIGIT, NO_DIGIT, NO_DIGIT, NO_DIGIT, NO_DIGIT, NO_DIGIT, NO_DIGIT, NO_DIGIT,
    NO_DIGIT, NO_DIGIT,
];

/// The value of a digit, and `NO_DIGIT` for another byte.
fn digit_or_more(byte: u8) -> u32
    ensures value { result ≡ unwrap_or (hex_digit byte) 65536 }
    ensures within { result ≤ 65536 }
{
    DIGIT_VALUES[usize::from(byte)]
}

/// The number that at most six digits spell.
fn number(digits: &[u8]) -> Option<u32>
    requires { length digits.now ≤ 6 }
    ensures value { result ≡ hex_after 0 digits.now }
    ensures bound { IfSome result (λ number. number < 16 ^ length digits.now) }
{
    let mut number = 0;
    for byte in digits {
        let digit = digit_or_more(*byte);
        if digit == NO_DIGIT {
            return None;
        }
        number = number * 16 + digit;
    }
    Some(number)
}

/// The code point that four to six digits spell; it may be above 10FFFF.
pub(crate) fn code_point(digits: &[u8]) -> Option<u32>
    ensures value { result ≡ code_point_of digits.now }
    ensures long { IfSome result (λ _. 4 ≤ length digits.now) }
{
    if digits.len() < 4 || digits.len() > 6 {
        return None;
    }
    number(digits)
}

/// The number that four digits spell. A byte that is no digit makes it too great, so one test is enough.
fn four_digits(a: u8, b: u8, c: u8, d: u8) -> Option<u16>
    ensures { result ≡ hex_after 0 (a ∷ b ∷ c ∷ d ∷ []) }
{
    let high = digit_or_more(a) * 4096 + digit_or_more(b) * 256;
    let number = high + digit_or_more(c) * 16 + digit_or_more(d);
    if number < NO_DIGIT {
        Some(number as u16)
    } else {
        None
    }
}

/// The weight that exactly four digits spell.
pub(crate) fn weight(digits: &[u8]) -> Option<u16>
    ensures { result ≡ weight_of digits.now }
{
    if digits.len() != 4 {
        return None;
    }
    four_digits(digits[0], digits[1], digits[2], digits[3])
}

/// Whether a mark says that the element is variable: `*` does, `.` does not, and no other byte is a mark.
fn is_variable_mark(mark: u8) -> Option<bool>
    ensures { result ≡ mark_of mark }
{
    match mark {
        b'*' => Some(true),
        b'.' => Some(false),
        _ => None,
    }
}

/// Whether `text` has the signs of an element at their places: `[`, `.` before the second and the third weight, `]`.
fn has_element_signs(text: &[u8]) -> bool
    ensures value { result ≡ has_element_signs text.now }
    ensures within { IsTrue result → 17 ≤ length text.now }
{
    text.len() >= 17 && text[0] == b'[' && text[6] == b'.' && text[11] == b'.' && text[16] == b']'
}

/// The element that `text` begins with: 17 bytes with its brackets.
#[tactic(auto, unfolding(crate::specs::Reading::element_at_front))]
fn element_at_front(text: &[u8]) -> Option<Element>
    ensures value { result ≡ element_at_front text.now }
    ensures within { IfSome result (λ _. 17 ≤ length text.now) }
{
    if !has_element_signs(text) {
        return None;
    }
    let is_variable = is_variable_mark(text[1])?;
    let w1 = weight(&text[2..6])?;
    let w2 = weight(&text[7..11])?;
    let w3 = weight(&text[12..16])?;
    Some(Element {
        is_variable,
        w1,
        w2,
        w3,
    })
}

/// What stands behind the first `len` bytes and the blanks that follow them.
fn without_front(text: &[u8], len: usize) -> &[u8]
    requires { len ≤ length text.now }
    ensures { result.now ≡ trim_start (drop len text.now) }
{
    without_leading_blanks(&text[len..])
}

/// Whether something is in the list.
fn is_filled<T>(list: &Vec<T>) -> bool
    ensures value { only_if result list.now.items ≡ some_of list.now.items }
    ensures some { IsTrue result → 0 < length list.now.items }
{
    !list.is_empty()
}

/// Puts the elements that `text` spells into `elements`: one or more, with or without blanks between them. `false` where it spells
/// none.
pub(crate) fn read_elements(elements: &mut Vec<Element>, text: &[u8]) -> Result<bool, AllocError>
    ensures value { IfOk result (λ found. only_if found elements.new.items ≡ elements_of text.now) }
    ensures some { IfOk result (λ found. IsTrue found → 0 < length elements.new.items) }
{
    elements.clear();
    let mut rest = without_leading_blanks(text);
    while !rest.is_empty() {
        let Some(element) = element_at_front(rest) else {
            return Ok(false);
        };
        elements.push(element)?;
        rest = without_front(rest, 17);
    }
    Ok(is_filled(elements))
}

/// Puts the code points that `text` spells into `string`: one or more, with blanks between them. `false` where it spells none.
pub(crate) fn read_string(string: &mut Vec<u32>, text: &[u8]) -> Result<bool, AllocError>
    ensures value { IfOk result (λ found. only_if found string.new.items ≡ string_of text.now) }
    ensures some { IfOk result (λ found. IsTrue found → 0 < length string.new.items) }
{
    string.clear();
    let mut rest = without_leading_blanks(text);
    while !rest.is_empty() {
        let len = word_len(rest);
        let Some(point) = code_point(&rest[..len]) else {
            return Ok(false);
        };
        string.push(point)?;
        rest = without_front(rest, len);
    }
    Ok(is_filled(string))
}
