//! Long texts in pieces of 4,096 bytes, as the program reads them. A text is put together from long parts of a smaller one, so that making it
//! takes little of the time.

use crate::Inputs;
use crate::digest::Digest;
use crate::texts::{Text, words};
use anyhow::Result;
use collation_elements::{Strength, Variable};
use collation_pattern::Pattern;
use collation_search::{Found, Search};
use collation_table::{Table, Weights};
use std::alloc::Global;

/// How many words a part has at most.
pub const PART_WORDS: usize = 20_000;

/// How many bytes a piece has.
const PIECE: usize = 4096;

/// How many bytes the text has from which parts are taken.
const SIZE: usize = 1_000_000;

/// The fewest bytes that it has.
const LEAST_SIZE: usize = 10_000;

/// A million bytes.
const MEGABYTE: usize = 1_000_000;

/// What is looked for in a text, and how.
#[derive(Clone, Copy)]
struct Query<'a> {
    table: &'a Table,
    sought: &'a str,
    strength: Strength,
    variable: Variable,
    /// How many bytes of text are searched.
    bytes: usize,
}

impl<'a> Query<'a> {
    /// At strength 1, and non-ignorable.
    fn plain(table: &'a Table, sought: &'a str, bytes: usize) -> Query<'a> {
        Query {
            table,
            sought,
            strength: Strength::One,
            variable: Variable::NonIgnorable,
            bytes,
        }
    }
}

/// Searches parts of a text, one after the other.
fn search_parts(
    inputs: &mut Inputs<'_>,
    query: &Query<'_>,
    text: &Text,
    digest: &mut Digest,
) -> Result<()> {
    let alloc = inputs.alloc;
    let pattern = Pattern::compile(
        alloc,
        query.table,
        query.sought,
        query.strength,
        query.variable,
    )?;
    digest.add(pattern.len() as u64);
    let mut search = Search::new(alloc, query.table, &pattern)?;
    let mut parts = text.parts(&mut inputs.random);
    let mut taken = 0usize;
    let bytes = inputs.share_of(query.bytes);
    for _ in 0..bytes {
        if taken >= bytes {
            break;
        }
        let left = text.words_in(bytes - taken);
        let part = parts.next(PART_WORDS.min(left));
        taken = taken.saturating_add(part.len());
        feed(&mut search, part, PIECE, digest)?;
    }
    finish(search, digest)
}

/// Feeds a part of a text in pieces of some size.
pub fn feed(
    search: &mut Search<'_, Table>,
    part: &[u8],
    size: usize,
    digest: &mut Digest,
) -> Result<()> {
    for piece in part.chunks(size.max(1)) {
        let mut sink = |start, end| digest.add_range(start, end);
        let answer = search.feed(piece, &mut sink);
        digest.add_status(&answer);
        answer?;
    }
    Ok(())
}

/// Ends a text.
pub fn finish(search: Search<'_, Table>, digest: &mut Digest) -> Result<()> {
    let mut found = Found::new();
    let ended = search.finish(&mut found);
    for (start, end) in found.as_slice() {
        digest.add_range(*start, *end);
    }
    digest.add_status(&ended);
    Ok(ended?)
}

/// A text of the words of a list.
fn text_of(inputs: &mut Inputs<'_>, name: &str, joined: usize) -> Result<Text> {
    let listed = words(inputs.alloc, inputs.lists, name)?;
    let size = inputs.share_of(SIZE).max(LEAST_SIZE);
    Text::of_words(inputs.alloc, &listed, joined, size, &mut inputs.random)
}

/// Reads another table of the shape, with some rows after its own.
fn tailored(inputs: &mut Inputs<'_>, tailor: &str, digest: &mut Digest) -> Result<Table> {
    inputs.table.vary(&mut inputs.random);
    let table = Table::read_tailored(inputs.alloc, &inputs.table.bytes, tailor.as_bytes())?;
    digest.add(table.longest_key() as u64);
    Ok(table)
}

/// Searches a text of the words of a list.
fn search_list(
    inputs: &mut Inputs<'_>,
    name: &str,
    joined: usize,
    query: &Query<'_>,
    digest: &mut Digest,
) -> Result<()> {
    let text = text_of(inputs, name, joined)?;
    search_parts(inputs, query, &text, digest)
}

/// Searches a text of the words of a list by a table with some rows after its own.
fn search_tailored(
    inputs: &mut Inputs<'_>,
    tailor: &str,
    name: &str,
    sought: &str,
    bytes: usize,
    digest: &mut Digest,
) -> Result<()> {
    let table = tailored(inputs, tailor, digest)?;
    let query = Query::plain(&table, sought, bytes);
    search_list(inputs, name, 0, &query, digest)
}

/// Texts of ASCII with few matches.
pub fn plain(inputs: &mut Inputs<'_>, digest: &mut Digest) -> Result<()> {
    let table = tailored(inputs, "", digest)?;
    for (name, sought, strength, variable) in [
        ("english", "resume", Strength::One, Variable::NonIgnorable),
        ("english", "resume", Strength::One, Variable::Shifted),
        ("code", "Example", Strength::Three, Variable::NonIgnorable),
    ] {
        let query = Query {
            table: &table,
            sought,
            strength,
            variable,
            bytes: 800 * MEGABYTE,
        };
        search_list(inputs, name, 0, &query, digest)?;
    }
    Ok(())
}

/// Long texts of other scripts, and short ones of many different characters.
pub fn scripts(inputs: &mut Inputs<'_>, digest: &mut Digest) -> Result<()> {
    search_tailored(
        inputs,
        "0063 0068 ; [.F100.0020.0002]\n",
        "czech",
        "jazyk",
        60 * MEGABYTE,
        digest,
    )?;
    let table = tailored(inputs, "", digest)?;
    for (name, joined, sought) in [
        ("russian", 0, "система"),
        ("polish", 0, "książka"),
        ("french", 0, "deneig"),
        ("vietnamese", 0, "tiếng"),
        ("greek", 0, "λόγος"),
        ("decomposed", 0, "resume"),
        ("arabic", 0, "المدينة"),
        ("hindi", 0, "विद्यालय"),
        ("thai", 4, "ภาษา"),
        ("lao", 0, "ພາສາ"),
        ("japanese", 4, "検索"),
    ] {
        let query = Query::plain(&table, sought, 60 * MEGABYTE);
        search_list(inputs, name, joined, &query, digest)?;
    }
    for (first, count, sought) in [
        (0x4E00, 20_000, "검색"),
        (0xAC00, 11_000, "문장"),
        (0x4E00, 20_000, "정렬"),
        (0xAC00, 11_000, "음절"),
    ] {
        search_characters(inputs, &table, first, count, sought, digest)?;
    }
    Ok(())
}

/// Searches a text of many different characters, so many from one of them on.
fn search_characters(
    inputs: &mut Inputs<'_>,
    table: &Table,
    first: u32,
    count: usize,
    sought: &str,
    digest: &mut Digest,
) -> Result<()> {
    let size = inputs.share_of(300_000);
    let text = Text::of_characters(inputs.alloc, first, count, size, &mut inputs.random)?;
    let query = Query::plain(table, sought, MEGABYTE);
    search_parts(inputs, &query, &text, digest)
}

/// Texts in which the pattern, or its beginning, stands everywhere.
pub fn matches(inputs: &mut Inputs<'_>, digest: &mut Digest) -> Result<()> {
    let table = tailored(inputs, "", digest)?;
    for (name, joined, sought, bytes) in [
        ("english", 0, "e", 160 * MEGABYTE),
        ("english", 0, "the", 160 * MEGABYTE),
        ("english", 0, "tho", 160 * MEGABYTE),
        ("letters", 2, "ab", 40 * MEGABYTE),
        ("letters", 2, "aaaaaaaaaaaaaaab", 40 * MEGABYTE),
    ] {
        let query = Query::plain(&table, sought, bytes);
        search_list(inputs, name, joined, &query, digest)?;
    }
    Ok(())
}

/// The letters of Hungarian that are written with two or three signs, as rows of a tailor.
const HUNGARIAN: &str = "0063 0073 ; [.F010.0020.0002]\n0064 007A ; [.F011.0020.0002]\n\
    0064 007A 0073 ; [.F012.0020.0002]\n0067 0079 ; [.F013.0020.0002]\n006C 0079 ; [.F014.0020.0002]\n\
    006E 0079 ; [.F015.0020.0002]\n0073 007A ; [.F016.0020.0002]\n0074 0079 ; [.F017.0020.0002]\n\
    007A 0073 ; [.F018.0020.0002]\n";

/// Texts and tables whose units are taken step by step, two of each kind.
pub fn steps(inputs: &mut Inputs<'_>, digest: &mut Digest) -> Result<()> {
    for (hungarian, typed) in [("nyelv", "tiếng"), ("könyv", "chấyp")] {
        search_tailored(
            inputs,
            HUNGARIAN,
            "hungarian",
            hungarian,
            10 * MEGABYTE,
            digest,
        )?;
        search_tailored(inputs, "", "typed", typed, 8 * MEGABYTE, digest)?;
        search_paragraph(inputs, digest)?;
        search_harmful(inputs, digest)?;
    }
    Ok(())
}

/// Looks for a pattern of more keys than the search has symbols for: the first 3,000 bytes of a text of ASCII.
fn search_paragraph(inputs: &mut Inputs<'_>, digest: &mut Digest) -> Result<()> {
    let text = text_of(inputs, "english", 0)?;
    let paragraph = paragraph(inputs.alloc, &text)?;
    let table = tailored(inputs, "", digest)?;
    let query = Query::plain(&table, paragraph.as_str(), 4 * MEGABYTE);
    search_parts(inputs, &query, &text, digest)
}

/// The first 3,000 bytes of a text of ASCII.
fn paragraph(alloc: Global, text: &Text) -> Result<String> {
    let mut paragraph = String::new(alloc);
    for byte in text.bytes().iter().take(3_000) {
        paragraph.push(char::from(*byte))?;
    }
    Ok(paragraph)
}

/// A table with a string of 64 code points, of which 63 fit at each letter `a`, and a text of such letters.
fn search_harmful(inputs: &mut Inputs<'_>, digest: &mut Digest) -> Result<()> {
    let mut row = String::new(inputs.alloc);
    for _ in 0..63 {
        row.push_str("0061 ")?;
    }
    row.push_str("0071 ; [.F020.0020.0002]\n")?;
    let table = tailored(inputs, row.as_str(), digest)?;
    let query = Query::plain(&table, "ab", MEGABYTE / 5);
    search_list(inputs, "letters", 2, &query, digest)
}
