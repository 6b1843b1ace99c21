//! `example_resume TABLE PATTERN WORDS` takes standard input as the next part of a text, and prints the ranges that became known.
//! The search is kept in the file WORDS from one run to the next. A run with an empty input ends the text.
#![tactic(auto)]

use anyhow::{Result, bail};
use collation_elements::{Strength, Variable};
use collation_pattern::Pattern;
use collation_search::{Found, Search};
use collation_table::{Table, Weights};
use std::io::{BufWriter, ErrorKind, Read, Write};
use std::{env, fs};

fn main(rt: HostRuntime) -> Result<()> {
    let alloc = rt.alloc();
    let given: Vec<String> = env::args(&rt)?.collect(alloc)?;
    let [_, table, sought, path] = given.as_slice() else {
        bail!("the words are not TABLE PATTERN WORDS");
    };
    let table = Table::read(alloc, &fs::read(&rt, table)?)?;
    let pattern = Pattern::compile(alloc, &table, sought, Strength::One, Variable::NonIgnorable)?;
    let kept = kept_words(&rt, path)?;
    let mut search = match &kept {
        Some(words) => Search::resume(alloc, &table, &pattern, words)?,
        None => Search::new(alloc, &table, &pattern)?,
    };
    let mut part = Vec::new(alloc);
    rt.stdin().read_to_end(&mut part)?;
    if part.is_empty() {
        return end(search, &mut rt.stdout());
    }
    take(&mut search, &part, &mut rt.stdout())?;
    let mut words = Vec::new(alloc);
    search.save(&mut words)?;
    let mut file = BufWriter::new(alloc, fs::create(&rt, path)?)?;
    for word in &words {
        writeln!(file, "{word}")?;
    }
    Ok(file.flush()?)
}

/// The words in the file at `path`, a line each, or `None` where there is no such file.
fn kept_words(rt: &HostRuntime, path: &str) -> Result<Option<Vec<u64>>> {
    let text = match fs::read_to_string(rt, path) {
        Ok(text) => text,
        Err(error) if error.kind() == ErrorKind::NotFound => return Ok(None),
        Err(error) => return Err(error.into()),
    };
    let mut words = Vec::new(rt.alloc());
    for line in text.lines() {
        words.push(line.parse::<u64>()?)?;
    }
    Ok(Some(words))
}

/// Prints the ranges that a part of the text makes known.
fn take<W: Weights, O: Write>(search: &mut Search<'_, W>, part: &[u8], out: &mut O) -> Result<()> {
    let mut printed = Ok(());
    let mut print = |start, end| {
        if printed.is_ok() {
            printed = writeln!(out, "{start}:{end}");
        }
    };
    let fed = search.feed(part, &mut print);
    printed?;
    Ok(fed?)
}

/// Prints the rest of the ranges.
fn end<W: Weights, O: Write>(search: Search<'_, W>, out: &mut O) -> Result<()> {
    let mut found = Found::new();
    let ended = search.finish(&mut found);
    for (start, end) in found.as_slice() {
        writeln!(out, "{start}:{end}")?;
    }
    Ok(ended?)
}
