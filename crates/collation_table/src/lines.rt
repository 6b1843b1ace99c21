//! The forms of a line of a table file (UTS #10, the form of allkeys.txt).

ghost use Rattle.std.specs.Prelude.{◌≡◌, ◌==◌, IfOk, IfSome, Some, option_map, slice_index, if◌then◌else◌};
ghost use Rattle.std.specs.List.{before_first};
ghost use Rattle.collation_table.specs.Spelling.{number_sign, begins_with_blank, trim_start, ends_word, Range, Version, is_version, range_of, entry_of, form_of, line_form};
ghost use Rattle.collation_table.specs.Reading.{form, HasParts};

use crate::elements::Element;
use crate::pieces::{cut, is_blank_byte, strip_text, without_leading_blanks, without_outer_blanks};
use crate::ranges::ImplicitRange;
use crate::spelling::{code_point, read_elements, read_string, weight};
use std::alloc::{AllocError, Global};

/// What a line says.
#[derive(Clone, Copy, Debug)]
pub(crate) enum Line<'a> {
    /// Nothing but blanks and a comment.
    Empty,
    /// The version of the table, which is passed over.
    Version,
    /// Code points whose implicit weights begin with a base of their own.
    Range(ImplicitRange),
    /// A row of the table.
    Entry {
        string: &'a [u32],
        row: &'a [Element],
    },
}

/// Room for the code points and the elements of a line, kept from one line to the next.
#[derive(Drop)]
pub(crate) struct LineRoom {
    string: Vec<u32>,
    row: Vec<Element>,
}

impl LineRoom {
    /// Takes no memory.
    pub(crate) fn new(alloc: Global) -> LineRoom {
        LineRoom {
            string: Vec::new(alloc),
            row: Vec::new(alloc),
        }
    }
}

/// Whether the bytes begin with a blank.
fn starts_with_blank(bytes: &[u8]) -> bool
    ensures { result ≡ begins_with_blank bytes.now }
{
    match bytes {
        [] => false,
        [first, ..] => is_blank_byte(*first),
    }
}

/// Whether a line is `@version`, alone or with a blank and any bytes after it.
#[tactic(auto, unfolding(crate::specs::Spelling::is_version))]
fn is_version_line(text: &[u8]) -> bool
    ensures { result ≡ is_version text.now }
{
    match strip_text(without_leading_blanks(text), b"@version") {
        Some(following) => following.is_empty() || starts_with_blank(following),
        None => false,
    }
}

/// The range of a line `@implicitweights FIRST..LAST; BASE`.
#[tactic(auto, unfolding(crate::specs::Spelling::range_of))]
fn range(text: &[u8]) -> Option<ImplicitRange>
    ensures { result ≡ range_of text.now }
{
    let following = strip_text(without_leading_blanks(text), b"@implicitweights")?;
    if !starts_with_blank(following) {
        return None;
    }
    let (ends, base) = cut(following, b';')?;
    let (first, rest) = cut(ends, b'.')?;
    let last = strip_text(rest, b".")?;
    let first = code_point(without_outer_blanks(first))?;
    let last = code_point(without_outer_blanks(last))?;
    let base = weight(without_outer_blanks(base))?;
    Some(ImplicitRange { first, last, base })
}

/// The row of a line `CODE POINTS ; ELEMENTS`.
#[tactic(auto, unfolding(crate::specs::Spelling::entry_of))]
fn entry<'a>(room: &'a mut LineRoom, text: &[u8]) -> Result<Option<Line<'a>>, AllocError>
    ensures value { IfOk result (λ found. option_map form found ≡ entry_of text.now) }
    ensures some { IfOk result (λ found. IfSome found HasParts) }
{
    let Some((left, right)) = cut(text, b';') else {
        return Ok(None);
    };
    if !read_string(&mut room.string, left)? {
        return Ok(None);
    }
    if !read_elements(&mut room.row, right)? {
        return Ok(None);
    }
    Ok(Some(Line::Entry {
        string: room.string.as_slice(),
        row: room.row.as_slice(),
    }))
}

/// The version or the range that a line says whose first byte behind its blanks is given.
fn directive<'a>(text: &[u8], first: u8) -> Option<Line<'a>>
    requires { first ≡ slice_index (trim_start text.now) 0 }
    ensures value { option_map form result
        ≡ (if is_version text.now then Some Version else option_map Range (range_of text.now)) }
    ensures some { IfSome result HasParts }
{
    if first != b'@' {
        return None;
    }
    if is_version_line(text) {
        return Some(Line::Version);
    }
    Some(Line::Range(range(text)?))
}

/// What a line says without its end and its comment, or `None` where it has none of the four forms.
fn line_without_comment<'a>(
    room: &'a mut LineRoom,
    text: &[u8],
) -> Result<Option<Line<'a>>, AllocError>
    ensures value { IfOk result (λ found. option_map form found ≡ form_of text.now) }
    ensures some { IfOk result (λ found. IfSome found HasParts) }
{
    let trimmed = without_leading_blanks(text);
    if trimmed.is_empty() {
        return Ok(Some(Line::Empty));
    }
    if let Some(line) = directive(text, trimmed[0]) {
        return Ok(Some(line));
    }
    entry(room, text)
}

/// What a line says, given without its end; its comment, from the first `#` on, is passed over.
pub(crate) fn parse_line<'a>(
    room: &'a mut LineRoom,
    text: &[u8],
) -> Result<Option<Line<'a>>, AllocError>
    ensures value { IfOk result (λ found. option_map form found ≡ line_form text.now) }
    ensures some { IfOk result (λ found. IfSome found HasParts) }
{
    line_without_comment(room, without_comment(text))
}

/// What stands before the first `#`.
fn without_comment(text: &[u8]) -> &[u8]
    ensures { result.now ≡ before_first (λ b. b == number_sign) text.now }
{
    match cut(text, b'#') {
        Some((prefix, _)) => prefix,
        None => text,
    }
}
