//! `search_pieces` searches a text piece by piece, and across each cut it keeps the words of the saved search alone: after each
//! piece it prints these words, drops the search, and goes on with one that is resumed from them. So what `collation_search` saves
//! can be compared, word by word, with what another program computes from the definition of a state.
//!
//! Its words are `TABLE 1|2|3 non-ignorable|shifted all|chain PATTERN TEXT SIZE..`: the table file, the strength, the variable
//! weighting, which matches are selected, the pattern, the text file, and how many bytes each piece has. What is left of the text
//! is the last piece. It prints a line `s:e` for each range as soon as it is known, after each piece a line `state` with the words,
//! and at the end a line `fault K at N` where the text has a fault. Any other fault ends it with status 1.
//!
//! It stands on `collation_search`, on `collation_pattern` and `collation_table`, which make the pattern and the table, and on the
//! settings of `collation_elements`.
#![tactic(auto)]

mod asked;
mod pieces;

use crate::asked::{Asked, read_words};
use crate::pieces::search_pieces;
use anyhow::Result;
use collation_pattern::Pattern;
use collation_table::Table;
use std::io::{BufWriter, Write};
use std::{env, fs, io};

fn main(rt: HostRuntime) -> Result<()> {
    let words = given_words(&rt)?;
    let asked = read_words(&words)?;
    let table = read_table(&rt, asked.table)?;
    search(&rt, &table, &asked)
}

/// The words after the program's name.
fn given_words(rt: &HostRuntime) -> io::Result<Vec<String>> {
    let mut given = env::args(rt)?;
    let _name = given.next();
    Ok(given.collect(rt.alloc())?)
}

/// The table of the file at `path`.
fn read_table(rt: &HostRuntime, path: &str) -> Result<Table> {
    let bytes = fs::read(rt, path)?;
    Ok(Table::read(rt.alloc(), &bytes)?)
}

/// Searches the text file, and prints what is found.
fn search(rt: &HostRuntime, table: &Table, asked: &Asked<'_>) -> Result<()> {
    let alloc = rt.alloc();
    let pattern = Pattern::compile(alloc, table, asked.pattern, asked.strength, asked.variable)?;
    let text = fs::read(rt, asked.text)?;
    let mut out = BufWriter::new(alloc, io::writer(rt))?;
    search_pieces(
        alloc,
        table,
        &pattern,
        asked.select,
        &text,
        asked.sizes,
        &mut out,
    )?;
    Ok(out.flush()?)
}
