//! Many short texts, next matches, and short pieces with saved states.

use crate::Inputs;
use crate::digest::Digest;
use crate::long::{PART_WORDS, feed, finish};
use crate::texts::{Text, words};
use anyhow::Result;
use collation_elements::{Strength, Variable};
use collation_pattern::Pattern;
use collation_search::{Search, index};
use collation_table::{Table, Weights};

/// How many bytes a short piece has.
const SHORT_PIECE: usize = 64;

/// How many words a title has.
const TITLE_WORDS: usize = 8;

/// Titles, next matches and short pieces.
pub fn short(inputs: &mut Inputs<'_>, digest: &mut Digest) -> Result<()> {
    let table = Table::read(inputs.alloc, &inputs.table.bytes)?;
    digest.add(table.longest_key() as u64);
    let listed = words(inputs.alloc, inputs.lists, "english")?;
    let size = inputs.share_of(6_000_000).max(10_000);
    let text = Text::of_words(inputs.alloc, &listed, 0, size, &mut inputs.random)?;
    search_short(inputs, &table, &text, digest)
}

/// Searches parts of a text for a word.
fn search_short(
    inputs: &mut Inputs<'_>,
    table: &Table,
    text: &Text,
    digest: &mut Digest,
) -> Result<()> {
    let alloc = inputs.alloc;
    let pattern = Pattern::compile(
        alloc,
        table,
        "little",
        Strength::One,
        Variable::NonIgnorable,
    )?;
    digest.add(pattern.len() as u64);
    let mut search = Search::new(alloc, table, &pattern)?;
    search_titles(inputs, &mut search, text, digest);
    index_titles(inputs, table, &pattern, text, digest);
    find_next(inputs, &mut search, text, digest);
    save_and_resume(inputs, table, &pattern, &mut search, text, digest)?;
    feed_short_pieces(inputs, &mut search, text, digest)?;
    finish(search, digest)
}

/// One search for all titles.
fn search_titles(
    inputs: &mut Inputs<'_>,
    search: &mut Search<'_, Table>,
    text: &Text,
    digest: &mut Digest,
) {
    let mut titles = text.parts(&mut inputs.random);
    for _ in 0..inputs.share_of(400_000) {
        digest.add_first(&search.first_in(titles.next(TITLE_WORDS)));
    }
}

/// A search for each title.
fn index_titles(
    inputs: &mut Inputs<'_>,
    table: &Table,
    pattern: &Pattern,
    text: &Text,
    digest: &mut Digest,
) {
    let mut titles = text.parts(&mut inputs.random);
    for _ in 0..inputs.share_of(40_000) {
        let title = titles.next(TITLE_WORDS);
        digest.add_first(&index(inputs.alloc, table, pattern, title));
    }
}

/// The next match after each match, in some pages.
fn find_next(
    inputs: &mut Inputs<'_>,
    search: &mut Search<'_, Table>,
    text: &Text,
    digest: &mut Digest,
) {
    let mut pages = text.parts(&mut inputs.random);
    for _ in 0..inputs.share_of(2_000) {
        find_all(search, pages.next(PART_WORDS), digest);
    }
}

/// The next match after each match, the first hundred of a page.
fn find_all(search: &mut Search<'_, Table>, page: &[u8], digest: &mut Digest) {
    let mut from = 0;
    for _ in 0..100 {
        let answer = search.first_from(page, from);
        digest.add_first(&answer);
        match answer {
            Ok(Some((_, end))) => from = end as usize,
            _ => break,
        }
    }
}

/// A long text in short pieces, by a search that is saved after each and resumed.
fn save_and_resume(
    inputs: &mut Inputs<'_>,
    table: &Table,
    pattern: &Pattern,
    search: &mut Search<'_, Table>,
    text: &Text,
    digest: &mut Digest,
) -> Result<()> {
    let mut words = Vec::new(inputs.alloc);
    let mut parts = text.parts(&mut inputs.random);
    for _ in 0..inputs.share_of(40).max(1) {
        for piece in parts.next(PART_WORDS).chunks(SHORT_PIECE) {
            feed(search, piece, SHORT_PIECE, digest)?;
            save(search, &mut words, digest)?;
            search.resume_from(&words)?;
        }
        take_up(inputs, table, pattern, &mut words, digest)?;
    }
    Ok(())
}

/// Saves a search in words, in place of those of before.
fn save(search: &Search<'_, Table>, words: &mut Vec<u64>, digest: &mut Digest) -> Result<()> {
    words.clear();
    search.save(words)?;
    digest.add_words(words);
    Ok(())
}

/// Takes up a saved search many times, each time to feed it another word and to save it.
fn take_up(
    inputs: &mut Inputs<'_>,
    table: &Table,
    pattern: &Pattern,
    words: &mut Vec<u64>,
    digest: &mut Digest,
) -> Result<()> {
    for number in 0..200u64 {
        let mut search = Search::resume(inputs.alloc, table, pattern, words)?;
        let piece = [b'a'.wrapping_add((number % 26) as u8), b' '];
        feed(&mut search, &piece, SHORT_PIECE, digest)?;
        save(&search, words, digest)?;
    }
    Ok(())
}

/// A long text in short pieces.
fn feed_short_pieces(
    inputs: &mut Inputs<'_>,
    search: &mut Search<'_, Table>,
    text: &Text,
    digest: &mut Digest,
) -> Result<()> {
    let mut parts = text.parts(&mut inputs.random);
    for _ in 0..inputs.share_of(200) {
        feed(search, parts.next(PART_WORDS), SHORT_PIECE, digest)?;
    }
    Ok(())
}
