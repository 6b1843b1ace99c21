//! A search that is saved, dropped and resumed after each piece of its text.
ghost use Rattle.std.specs.Prelude.{◌≡◌, ℕ, List, ◌++◌, ◌∷◌, [], IfOk, false};
ghost use Rattle.collation_search.specs.Feeding.{Feeds};
ghost use Rattle.collation_search.specs.State.{words_of};

use anyhow::Result;
use collation_pattern::Pattern;
use collation_search::{Found, Search, Select, TextFault};
use collation_table::Weights;
use std::alloc::{AllocError, Global};
use std::io;
use std::io::Write;

/// Ranges that became known, in order; after an allocation was refused, those before it.
#[derive(Drop)]
struct Ranges {
    items: Vec<(u64, u64)>,
    is_refused: bool,
}

impl Ranges {
    fn new(alloc: Global) -> Ranges
        ensures { (result.items.items ≡ []) × (result.is_refused ≡ false) }
    {
        Ranges {
            items: Vec::new(alloc),
            is_refused: false,
        }
    }

    /// Puts a range after the others, if no allocation was refused so far.
    fn put(&mut self, start: u64, end: u64)
        ensures put { self.new.is_refused ≡ false
            → self.new.items.items ≡ self.old.items.items ++ (start, end) ∷ [] }
        ensures refused { self.new.is_refused ≡ false → self.old.is_refused ≡ false }
    {
        if !self.is_refused {
            self.is_refused = self.items.push((start, end)).is_err();
        }
    }
}

/// Searches the text in pieces of these sizes, and writes the ranges, after each piece the words of the search, from which it is
/// then resumed, and at the end the fault of the text, if it has one. What is left of the text is the last piece.
pub(crate) fn search_pieces<W: Weights, O: Write>(
    alloc: Global,
    table: &W,
    pattern: &Pattern,
    select: Select,
    text: &[u8],
    sizes: &[String],
    out: &mut O,
) -> Result<()> {
    let mut search = Search::new_with(alloc, table, pattern, select)?;
    let mut rest = text;
    for size in sizes {
        let len = size.as_str().parse::<usize>()?;
        let (piece, later) = rest.split_at(len.min(rest.len()));
        let words = take_piece(alloc, search, piece, out)?;
        search = Search::resume_with(alloc, table, pattern, select, &words)?;
        rest = later;
    }
    let words = take_piece(alloc, search, rest, out)?;
    let search = Search::resume_with(alloc, table, pattern, select, &words)?;
    Ok(end(search, out)?)
}

/// Feeds a piece to the search, writes the ranges that became known and the words of the search, and drops it: these words.
fn take_piece<W: Weights, O: Write>(
    alloc: Global,
    mut search: Search<'_, W>,
    piece: &[u8],
    out: &mut O,
) -> io::Result<Vec<u64>> {
    let ranges = feed(alloc, &mut search, piece)?;
    write_ranges(out, &ranges)?;
    let words = saved(alloc, search)?;
    write_state(out, &words)?;
    Ok(words)
}

/// Feeds a piece to the search: the ranges that became known. A fault is not answered here, for the search answers it again.
fn feed<W: Weights>(
    alloc: Global,
    search: &mut Search<'_, W>,
    piece: &[u8],
) -> Result<Vec<(u64, u64)>, AllocError>
    ensures fed { IfOk result
        (λ ranges. (answer : _) × Feeds search.old piece.now answer ranges.items search.new) }
{
    let mut ranges = Ranges::new(alloc);
    let _fault = search.feed(
        piece,
        &mut |start, end|
            ensures put { (items : List (ℕ × ℕ))
                → (ranges.entry.is_refused ≡ false → ranges.entry.items.items ≡ items)
                → ranges.exit.is_refused ≡ false
                → ranges.exit.items.items ≡ items ++ (start, end) ∷ [] }
        { ranges.put(start, end) },
    );
    if ranges.is_refused {
        return Err(AllocError);
    }
    Ok(ranges.items)
}

/// The words of a search, which is dropped.
fn saved<W: Weights>(alloc: Global, search: Search<'_, W>) -> Result<Vec<u64>, AllocError>
    ensures saved { IfOk result (λ words. words.items ≡ words_of search.entry) }
{
    let mut words = Vec::new(alloc);
    search.save(&mut words)?;
    Ok(words)
}

/// Ends the text, and writes the ranges that became known, and its fault, if it has one.
fn end<W: Weights, O: Write>(search: Search<'_, W>, out: &mut O) -> io::Result<()> {
    let mut found = Found::new();
    let ended = search.finish(&mut found);
    write_ranges(out, found.as_slice())?;
    match ended {
        Ok(()) => Ok(()),
        Err(fault) => write_fault(out, fault),
    }
}

/// Writes a line for each range.
fn write_ranges<O: Write>(out: &mut O, ranges: &[(u64, u64)]) -> io::Result<()> {
    for (start, end) in ranges {
        write_number(out, "", *start)?;
        write_number(out, ":", *end)?;
        out.write_all(b"\n")?;
    }
    Ok(())
}

/// Writes a line with the words of a state.
fn write_state<O: Write>(out: &mut O, words: &[u64]) -> io::Result<()> {
    out.write_all(b"state")?;
    for word in words {
        write_number(out, " ", *word)?;
    }
    out.write_all(b"\n")
}

/// Writes a line with a fault.
fn write_fault<O: Write>(out: &mut O, fault: TextFault) -> io::Result<()> {
    write_number(out, "fault ", u64::from(fault.kind))?;
    write_number(out, " at ", fault.offset)?;
    out.write_all(b"\n")
}

/// Writes a number after a text.
fn write_number<O: Write>(out: &mut O, before: &str, number: u64) -> io::Result<()> {
    write!(out, "{before}{number}")
}
