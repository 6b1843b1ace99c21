//! Calls of a search that is put away before and after them.

ghost use Rattle.std.specs.Prelude.{◌≡◌, ℕ, ◌+◌, ◌≤◌, List, [], ◌∷◌, ◌++◌, length, None, Some, OnOk};
ghost use Rattle.collation_matches.specs.declared.faults.TextFault.{TextFault};
ghost use Rattle.collation_matches.specs.Sought.{IsCompiledFrom, answer_to, seeking, settled_in};
ghost use Rattle.collation_matches.specs.GoodPrefix.{whole};
ghost use Rattle.collation_walk.specs.declared.matching.TheConstants.{MOST_FOUND};
ghost use Rattle.collation_search.specs.Feeding.{Feeds};
ghost use Rattle.collation_search.specs.Saving.{HasRecords, most_records};
ghost use Rattle.collation_search.specs.Parking.{IsFor, HasParked, parked_fault, parked_select, parked_words};
ghost use Rattle.collation_search.specs.Search.{HasSearched, sought};
ghost use Rattle.colfind_c.specs.Parkings.{FeedsParked, FinishesParked, IsFirstFrom, FeedsInParts, SearchesPart};
ghost use Rattle.colfind_c.specs.Queues.{Gets};

use crate::queue::Queue;
use collation_parts::search_part;
use collation_pattern::Pattern;
use collation_search::{Found, Parked, Search, TextFault};
use collation_table::Weights;
use std::alloc::AllocError;
use utf8_cut::whole_characters_are_the_longest_text;

/// How many bytes of a piece a search is given at a time, as many as by the program. Before and after
/// each it looks for the fastest way to pass text by.
const CHUNK: usize = 4096;

/// Feeds bytes to a search, and puts the ranges that became known into the queue. `found` is room that it uses.
fn search_chunk<'a, W: Weights>(
    search: &mut Search<'a, W>,
    chunk: &[u8],
    found: &mut Found,
    queue: &mut Queue,
) -> Result<(), TextFault>
    ensures fed { (ranges : List (ℕ × ℕ)) × Feeds search.old chunk.now result ranges search.new
        × Gets queue.old ranges queue.new }
{
    search.feed_with(
        chunk,
        found,
        &mut |start, end|
            ensures got { Gets queue.entry.now ((start, end) ∷ []) queue.exit.now }
        { queue.put(start, end) },
    )
}

/// Feeds a piece to a search, and puts the ranges that became known into the queue. `found` is room that it uses.
fn search_piece<'a, W: Weights>(
    search: &mut Search<'a, W>,
    piece: &[u8],
    found: &mut Found,
    queue: &mut Queue,
) -> Result<(), TextFault>
    ensures fed { (ranges : List (ℕ × ℕ)) × FeedsInParts search.old piece.now result ranges search.new
        × Gets queue.old ranges queue.new }
{
    let mut rest = piece;
    while rest.len() > CHUNK {
        let (chunk, later) = rest.split_at(CHUNK);
        match search_chunk(search, chunk, found, queue) {
            Ok(()) => rest = later,
            Err(fault) => return Err(fault),
        }
    }
    search_chunk(search, rest, found, queue)
}

/// Feeds a piece to a search that was put away, and puts the ranges that became known into the queue. `found` is room that it uses.
pub(crate) fn feed_parked<W: Weights>(
    table: &W,
    pattern: &Pattern,
    parked: Parked,
    piece: &[u8],
    found: &mut Found,
    queue: &mut Queue,
) -> (Result<(), TextFault>, Parked)
    requires fits { IsFor (W.table table.now) pattern.now parked }
    ensures fits { IsFor (W.table table.now) pattern.now result.1 }
    ensures select { parked_select result.1 ≡ parked_select parked }
    ensures fed { (ranges : List (ℕ × ℕ))
        × FeedsParked
        (seeking (W.table table.now) pattern.now (parked_select parked))
        parked piece.now result.0 ranges result.1
        × Gets queue.old ranges queue.new }
{
    let mut search = parked.unpark(table, pattern);
    whole_characters_are_the_longest_text();
    search.has_handed_out();
    let fed = search_piece(&mut search, piece, found, queue);
    search.has_handed_out();
    (fed, search.park())
}

/// The first range of what stands in a text from an offset on, found by a search that was put away,
/// which is then at the beginning of a text.
pub(crate) fn first_parked<W: Weights>(
    table: &W,
    pattern: &Pattern,
    parked: Parked,
    text: &[u8],
    from: usize,
) -> (Result<Option<(u64, u64)>, TextFault>, Parked)
    requires fits { IsFor (W.table table.now) pattern.now parked }
    ensures fits { IsFor (W.table table.now) pattern.now result.1 }
    ensures select { parked_select result.1 ≡ parked_select parked }
    ensures first { (p : List ℕ)
        → IsCompiledFrom
        (seeking (W.table table.now) pattern.now (parked_select parked)) p
        → IsFirstFrom
        (seeking (W.table table.now) pattern.now (parked_select parked)) p text.now from result.0 }
    ensures stands { HasParked
        (seeking (W.table table.now) pattern.now (parked_select parked)) result.1 [] [] }
{
    let mut search = parked.unpark(table, pattern);
    let first = search.first_from(text, from);
    (first, search.park())
}

/// Ends the text of a search that was put away, and puts the rest of the ranges into the queue.
pub(crate) fn finish_parked<W: Weights>(
    table: &W,
    pattern: &Pattern,
    parked: Parked,
    queue: &mut Queue,
) -> Result<(), TextFault>
    requires fits { IsFor (W.table table.now) pattern.now parked }
    ensures finished { (found : List (ℕ × ℕ))
        × FinishesParked
        (seeking (W.table table.now) pattern.now (parked_select parked)) parked result found
        × Gets queue.old found queue.new × (length found ≤ MOST_FOUND) }
{
    let search = parked.unpark(table, pattern);
    let mut found = Found::new();
    let ended = search.finish(&mut found);
    queue.put_all(found.as_slice());
    ended
}

/// Goes back to the beginning of a text with a search that was put away.
pub(crate) fn begin_parked<W: Weights>(table: &W, pattern: &Pattern, parked: Parked) -> Parked
    requires fits { IsFor (W.table table.now) pattern.now parked }
    ensures fits { IsFor (W.table table.now) pattern.now result }
    ensures select { parked_select result ≡ parked_select parked }
    ensures stands { HasParked
        (seeking (W.table table.now) pattern.now (parked_select parked)) result [] [] }
{
    let mut search = parked.unpark(table, pattern);
    search.begin_again();
    search.park()
}

/// Ends the text of a search that was put away, which is then at the beginning of another one, and puts the rest of the ranges into the
/// queue. `found` is room that it uses.
pub(crate) fn end_parked<W: Weights>(
    table: &W,
    pattern: &Pattern,
    parked: Parked,
    found: &mut Found,
    queue: &mut Queue,
) -> (Result<(), TextFault>, Parked)
    requires fits { IsFor (W.table table.now) pattern.now parked }
    ensures fits { IsFor (W.table table.now) pattern.now result.1 }
    ensures select { parked_select result.1 ≡ parked_select parked }
    ensures finished { (ranges : List (ℕ × ℕ))
        × FinishesParked
        (seeking (W.table table.now) pattern.now (parked_select parked)) parked result.0 ranges
        × Gets queue.old ranges queue.new × (length ranges ≤ MOST_FOUND) }
    ensures stands { HasParked
        (seeking (W.table table.now) pattern.now (parked_select parked)) result.1 [] [] }
{
    let mut search = parked.unpark(table, pattern);
    let ended = search.finish_text(found);
    queue.put_all(found.as_slice());
    (ended, search.park())
}

/// Searches the part of a text between two offsets, and puts its ranges into the queue.
fn search_part_into<'a, W: Weights>(
    search: &mut Search<'a, W>,
    text: &[u8],
    from: usize,
    to: usize,
    queue: &mut Queue,
) -> Result<(), TextFault>
    ensures part { SearchesPart (sought search.old) text.now from to queue.old result queue.new }
    ensures stands { HasSearched search.new [] [] }
    ensures sought { sought search.new ≡ sought search.old }
{
    search_part(
        search,
        text,
        from,
        to,
        &mut |start, end|
            ensures got { Gets queue.entry.now ((start, end) ∷ []) queue.exit.now }
        { queue.put(start, end) },
    )
}

/// Searches the part of a text between two offsets with a search that was put away, which is then at the beginning of another text, and
/// puts the ranges into the queue.
pub(crate) fn part_parked<W: Weights>(
    table: &W,
    pattern: &Pattern,
    parked: Parked,
    text: &[u8],
    from: usize,
    to: usize,
    queue: &mut Queue,
) -> (Result<(), TextFault>, Parked)
    requires fits { IsFor (W.table table.now) pattern.now parked }
    ensures fits { IsFor (W.table table.now) pattern.now result.1 }
    ensures select { parked_select result.1 ≡ parked_select parked }
    ensures part { SearchesPart
        (seeking (W.table table.now) pattern.now (parked_select parked))
        text.now from to queue.old result.0 queue.new }
    ensures stands { HasParked
        (seeking (W.table table.now) pattern.now (parked_select parked)) result.1 [] [] }
{
    let mut search = parked.unpark(table, pattern);
    let ended = search_part_into(&mut search, text, from, to, queue);
    (ended, search.park())
}

/// Gives the text of a search up that was put away, and puts the rest of the settled ranges into the queue.
pub(crate) fn stop_parked<W: Weights>(
    table: &W,
    pattern: &Pattern,
    parked: Parked,
    queue: &mut Queue,
)
    requires fits { IsFor (W.table table.now) pattern.now parked }
    ensures settled { (found : List (ℕ × ℕ))
        × ((text u : List ℕ) (handed : List (ℕ × ℕ))
        → IsCompiledFrom
        (seeking (W.table table.now) pattern.now (parked_select parked)) text
        → HasParked (seeking (W.table table.now) pattern.now (parked_select parked)) parked u handed
        → handed ++ found
        ≡ settled_in
        (seeking (W.table table.now) pattern.now (parked_select parked)) text (whole u))
        × ((f : TextFault) → parked_fault parked ≡ Some f → found ≡ [])
        × Gets queue.old found queue.new × (length found ≤ MOST_FOUND) }
{
    let search = parked.unpark(table, pattern);
    let mut found = Found::new();
    search.stop(&mut found);
    queue.put_all(found.as_slice());
}

/// Appends the words of a search that was put away.
pub(crate) fn save_parked<W: Weights>(
    table: &W,
    pattern: &Pattern,
    parked: Parked,
    words: &mut Vec<u64>,
) -> (Result<(), AllocError>, Parked)
    requires fits { IsFor (W.table table.now) pattern.now parked }
    ensures fits { IsFor (W.table table.now) pattern.now result.1 }
    ensures select { parked_select result.1 ≡ parked_select parked }
    ensures saved { OnOk result.0
        (words.new.items
        ≡ words.old.items ++ parked_words
        (seeking (W.table table.now) pattern.now (parked_select parked)) parked) }
    ensures few { HasRecords
        (parked_words (seeking (W.table table.now) pattern.now (parked_select parked)) parked)
        (most_records (seeking (W.table table.now) pattern.now (parked_select parked))) }
    ensures kept { (u : List ℕ) (handed : List (ℕ × ℕ))
        → HasParked (seeking (W.table table.now) pattern.now (parked_select parked)) parked u handed
        → HasParked (seeking (W.table table.now) pattern.now (parked_select parked)) result.1 u handed }
    ensures reported { parked_fault result.1 ≡ parked_fault parked }
{
    let search = parked.unpark(table, pattern);
    let saved = search.save(words);
    (saved, search.park())
}
