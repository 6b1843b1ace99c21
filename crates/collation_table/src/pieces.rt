//! Cutting a file into lines, and a line into its parts, which stand between blanks and signs.

ghost use Rattle.std.specs.Prelude.{◌≡◌, ◌<◌, ◌≤◌, ◌==◌, ◌∷◌, length, option_map};
ghost use Rattle.std.specs.List.{position, position_or_len, prefix_len, suffix_len};
ghost use Rattle.std.specs.Str.Lines.{lines, strip_carriage_return};
ghost use Rattle.collation_table.specs.Spelling.{is_blank, trim_start, trim, trim_end, split_once, after};

use memchr::memchr;

/// Whether a byte is a space or a tab.
pub(crate) fn is_blank_byte(byte: u8) -> bool
    ensures { result ≡ is_blank byte }
{
    byte == b' ' || byte == b'\t'
}

/// Where the first `byte` stands.
fn place_of(bytes: &[u8], byte: u8) -> Option<usize>
    ensures { result ≡ position (λ b. b == byte) bytes.now }
{
    memchr(byte, bytes)
}

/// How many bytes stand before the first blank.
pub(crate) fn word_len(bytes: &[u8]) -> usize
    ensures value { result ≡ position_or_len is_blank bytes.now }
    ensures within { result ≤ length bytes.now }
{
    bytes
        .iter()
        .take_while(|byte| !is_blank_byte(**byte))
        .count()
}

/// What stands before the first `separator`, and what stands after it.
pub(crate) fn cut(bytes: &[u8], separator: u8) -> Option<(&[u8], &[u8])>
    ensures { option_map (λ parts. (parts.0.now, parts.1.now)) result
        ≡ split_once separator bytes.now }
{
    let at = place_of(bytes, separator)?;
    Some((&bytes[..at], &bytes[at + 1..]))
}

/// A line without the carriage return that belongs to its end.
fn without_carriage_return(line: &[u8]) -> &[u8]
    ensures { result.now ≡ strip_carriage_return line.now }
{
    match line {
        [prefix @ .., b'\r'] => prefix,
        _ => line,
    }
}

/// The first line, without its end, and what stands after that end. A line ends with LF or CR LF; the last one may have no
/// end.
pub(crate) fn first_line(bytes: &[u8]) -> (&[u8], &[u8])
    requires { 0 < length bytes.now }
    ensures lines { lines bytes.now ≡ result.0.now ∷ lines result.1.now }
    ensures shorter { length result.1.now < length bytes.now }
{
    match cut(bytes, b'\n') {
        Some((line, following)) => (without_carriage_return(line), following),
        None => (bytes, &[]),
    }
}

/// What stands after `text`, with which the bytes have to begin.
pub(crate) fn strip_text<'a>(bytes: &'a [u8], text: &[u8]) -> Option<&'a [u8]>
    ensures { option_map (λ rest. rest.now) result ≡ after text.now bytes.now }
{
    if bytes.starts_with(text) {
        Some(&bytes[text.len()..])
    } else {
        None
    }
}

/// How many blanks the bytes begin with.
fn leading_blanks(bytes: &[u8]) -> usize
    ensures count { result ≡ prefix_len is_blank bytes.now }
    ensures within { result ≤ length bytes.now }
{
    bytes
        .iter()
        .take_while(|byte| is_blank_byte(**byte))
        .count()
}

/// How many blanks the bytes end with.
fn trailing_blanks(bytes: &[u8]) -> usize
    ensures count { result ≡ suffix_len is_blank bytes.now }
    ensures within { result ≤ length bytes.now }
{
    bytes
        .iter()
        .rev()
        .take_while(|byte| is_blank_byte(**byte))
        .count()
}

/// The bytes without the blanks at the start.
pub(crate) fn without_leading_blanks(bytes: &[u8]) -> &[u8]
    ensures { result.now ≡ trim_start bytes.now }
{
    &bytes[leading_blanks(bytes)..]
}

/// The bytes without the blanks at both ends.
pub(crate) fn without_outer_blanks(bytes: &[u8]) -> &[u8]
    ensures { result.now ≡ trim bytes.now }
{
    let bytes = without_leading_blanks(bytes);
    &bytes[..bytes.len() - trailing_blanks(bytes)]
}
