//! One search of an ordinary file, again and again, each with a table that is read anew.

use crate::Inputs;
use crate::digest::Digest;
use crate::long::{feed, finish};
use crate::texts::{Text, word_of, words};
use anyhow::Result;
use collation_elements::{Strength, Variable};
use collation_pattern::Pattern;
use collation_search::Search;
use collation_table::{Table, Weights};

/// How many files are searched.
const FILES: usize = 200;

/// Reads a table and searches a text for a word, for each of some files.
pub fn files(inputs: &mut Inputs<'_>, digest: &mut Digest) -> Result<()> {
    let alloc = inputs.alloc;
    let listed = words(alloc, inputs.lists, "english")?;
    let size = inputs.share_of(500_000).max(10_000);
    let text = Text::of_words(alloc, &listed, 0, size, &mut inputs.random)?;
    let mut parts = text.parts(&mut inputs.random);
    for _ in 0..inputs.share_of(FILES) {
        inputs.table.vary(&mut inputs.random);
        let table = Table::read(alloc, &inputs.table.bytes)?;
        digest.add(table.longest_key() as u64);
        let sought = word_of(&listed, &mut inputs.random);
        let len = 200 + inputs.random.skewed(20_000);
        let searched = parts.next(len);
        search_file(inputs, &table, sought, searched, digest)?;
    }
    Ok(())
}

/// Searches a text as the program does.
fn search_file(
    inputs: &Inputs<'_>,
    table: &Table,
    sought: &str,
    text: &[u8],
    digest: &mut Digest,
) -> Result<()> {
    let alloc = inputs.alloc;
    let pattern = Pattern::compile(
        alloc,
        table,
        sought,
        Strength::Three,
        Variable::NonIgnorable,
    )?;
    digest.add(pattern.len() as u64);
    let mut search = Search::new(alloc, table, &pattern)?;
    feed(&mut search, text, 4096, digest)?;
    finish(search, digest)
}
