//! `example_find TABLE PATTERN` searches standard input at strength 1, and prints the text of each match on a line of its own.
#![tactic(auto)]

use anyhow::{Result, bail};
use collation_elements::{Strength, Variable};
use collation_pattern::Pattern;
use collation_search::{Found, Search};
use collation_table::Table;
use std::io::{Read, Write};
use std::{env, fs, io};

fn main(rt: HostRuntime) -> Result<()> {
    let alloc = rt.alloc();
    let given: Vec<String> = env::args(&rt)?.collect(alloc)?;
    let [_, table, sought] = given.as_slice() else {
        bail!("the words are not TABLE PATTERN");
    };
    let table = Table::read(alloc, &fs::read(&rt, table)?)?;
    let pattern = Pattern::compile(alloc, &table, sought, Strength::One, Variable::NonIgnorable)?;
    let mut search = Search::new(alloc, &table, &pattern)?;
    let (mut input, mut out) = (rt.stdin(), rt.stdout());
    let (mut text, mut piece) = (Vec::new(alloc), [0; 4096]);
    for _ in 0..u64::MAX {
        let len = input.read(&mut piece)?;
        text.extend_from_slice(&piece[..len])?;
        let mut printed = Ok(());
        let mut print = |start, end| {
            if printed.is_ok() {
                printed = print_part(&mut out, &text, start, end);
            }
        };
        let fed = search.feed(&piece[..len], &mut print);
        printed?;
        if len == 0 || fed.is_err() {
            break;
        }
    }
    let mut found = Found::new();
    let ended = search.finish(&mut found);
    for (start, end) in found.as_slice() {
        print_part(&mut out, &text, *start, *end)?;
    }
    Ok(ended?)
}

/// Prints the bytes of the text from `start` to before `end`, and ends the line.
fn print_part<O: Write>(out: &mut O, text: &[u8], start: u64, end: u64) -> io::Result<()> {
    out.write_all(text.get(start as usize..end as usize).unwrap_or(b""))?;
    out.write_all(b"\n")
}
