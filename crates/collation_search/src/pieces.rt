//! A whole search over a text in pieces, saved and resumed after each.
ghost use Rattle.std.specs.Prelude.{◌≡◌, ℕ, ◌*◌, ◌≤◌, List, [], length, IfOk};
ghost use Rattle.std.specs.List.{FoldsTo};
ghost use Rattle.collation_search.specs.Pieces.{joined, most_records_after, most_words, AreUnderWay, IsTransition, HasStates};
ghost use Rattle.collation_search.specs.Resuming.{IsResumedFrom};
ghost use Rattle.collation_search.specs.Saving.{most_records};
ghost use Rattle.collation_matches.specs.Sought.{IsCompiledFrom, answer_to, seeking};

use crate::search::Search;
use collation_elements::decided_units_stay;
use collation_matches::{Select, TextFault};
use collation_pattern::Pattern;
use collation_states::laws::laws_of_states;
use collation_states::{RECORD_WORDS, StateFault};
use collation_table::Weights;
use collation_walk::{Found, hand_out};
use nfd_points::laws::laws_of_reordering;
use std::alloc::{AllocError, Global};

/// What a search in pieces reported beside its ranges.
#[derive(Clone, Copy, Debug, Drop, PartialEq, Eq)]
pub struct PiecesSearched {
    /// The first fault of the text, at which it counts as ended.
    pub fault: Option<TextFault>,
    /// How many records of four words the greatest of the states after a piece had; 0 where there is no piece.
    pub most_records: usize,
}

/// Searches a text in pieces, of any number and size, and calls the sink once for each range of the answer, or of the chain of
/// them, in order. Between two pieces there are the words of a saved search alone: a search that is resumed from them takes the next
/// piece, and is saved and dropped. The sink must take any two numbers.
///
/// # Errors
///
/// Only where memory was refused.
pub fn search_in_pieces<W: Weights, F: FnMut(u64, u64)>(
    alloc: Global,
    table: &W,
    pattern: &Pattern,
    select: Select,
    pieces: &[&[u8]],
    sink: &mut F,
) -> Result<PiecesSearched, AllocError>
    requires { F.IsAlwaysCallable sink.old }
    ensures answer { (text : List ℕ)
        → IsCompiledFrom
        (seeking (W.table table.now) pattern.now select) text
        → IfOk result
        (λ told. (found : List (ℕ × ℕ))
        × FoldsTo (λ f range g. F.step f range.0 range.1 tt g) sink.old found sink.new
        × (answer_to
        (seeking (W.table table.now) pattern.now select) text
        (joined pieces.now) ≡ record { ranges = found; fault = told.fault })) }
    ensures states { IfOk result (λ told. (states : List (List ℕ)) × (last : List ℕ)
        × HasStates W.Weights
        (seeking (W.table table.now) pattern.now select) pieces.now states last
        × (4 * told.most_records ≡ most_words states)) }
    ensures few { IfOk result
        (λ told. told.most_records ≤ most_records
        (seeking (W.table table.now) pattern.now select)) }
    // how many records the greatest state has depends on the cuts alone
    ensures most { IfOk result
        (λ told. told.most_records
        ≡ most_records_after
        (seeking (W.table table.now) pattern.now select) [] pieces.now) }
    ensures callable { F.IsAlwaysCallable sink.new }
{
    decided_units_stay();
    laws_of_reordering();
    laws_of_states();
    let mut words = first_state(alloc, table, pattern, select)?;
    let mut most_records = 0usize;
    for piece in pieces {
        let records = take_piece(alloc, table, pattern, select, &mut words, piece, sink)?;
        most_records = most_records.max(records);
    }
    let search = go_on(alloc, table, pattern, select, &words)?;
    let mut found = Found::new();
    let fault = search.finish(&mut found).err();
    hand_out(found.as_slice(), sink);
    Ok(PiecesSearched {
        fault,
        most_records,
    })
}

/// The state of a new search.
///
/// # Errors
///
/// Only where memory was refused.
fn first_state<W: Weights>(
    alloc: Global,
    table: &W,
    pattern: &Pattern,
    select: Select,
) -> Result<Vec<u64>, AllocError>
    ensures begun { IfOk result
        (λ words. HasStates W.Weights
        (seeking (W.table table.now) pattern.now select) [] [] words.items) }
{
    let mut words = Vec::new(alloc);
    let search = Search::new_with(alloc, table, pattern, select)?;
    search.save(&mut words)?;
    Ok(words)
}

/// Takes a piece, from the state before it to the one after it: how many records this has. A fault is not answered here, for a
/// search that goes on from the state answers it again.
///
/// # Errors
///
/// Only where memory was refused.
fn take_piece<W: Weights, F: FnMut(u64, u64)>(
    alloc: Global,
    table: &W,
    pattern: &Pattern,
    select: Select,
    words: &mut Vec<u64>,
    piece: &[u8],
    sink: &mut F,
) -> Result<usize, AllocError>
    requires callable { F.IsAlwaysCallable sink.old }
    requires under_way { (taken : List ℕ) × (handed : List (ℕ × ℕ))
        × AreUnderWay W.Weights
        (seeking (W.table table.now) pattern.now select) words.old.items taken handed }
    ensures passed { IfOk result
        (λ records. (found : List (ℕ × ℕ))
        × FoldsTo (λ f range g. F.step f range.0 range.1 tt g) sink.old found sink.new
        × IsTransition W.Weights
        (seeking (W.table table.now) pattern.now select)
        words.old.items piece.now found words.new.items) }
    ensures counted { IfOk result (λ records. length words.new.items ≡ 4 * records) }
    ensures few { IfOk result
        (λ records. records ≤ most_records
        (seeking (W.table table.now) pattern.now select)) }
    ensures callable { F.IsAlwaysCallable sink.new }
{
    let mut search = go_on(alloc, table, pattern, select, words)?;
    let _fault = search.feed(piece, sink);
    words.clear();
    search.save(words)?;
    Ok(words.len() / RECORD_WORDS)
}

/// A search that goes on from the words of one that is under way.
///
/// # Errors
///
/// Only where memory was refused.
fn go_on<'a, W: Weights>(
    alloc: Global,
    table: &'a W,
    pattern: &'a Pattern,
    select: Select,
    words: &[u64],
) -> Result<Search<'a, W>, AllocError>
    requires { (taken : List ℕ) × (handed : List (ℕ × ℕ))
        × AreUnderWay W.Weights
        (seeking (W.table table.now) pattern.now select) words.now taken handed }
    ensures goes_on { IfOk result
        (λ search. IsResumedFrom search
        (seeking (W.table table.now) pattern.now select) words.now) }
{
    match Search::resume_with(alloc, table, pattern, select, words) {
        Ok(search) => Ok(search),
        Err(fault) => {
            prove_eq!(fault.kind, StateFault::NO_MEMORY);
            Err(AllocError)
        }
    }
}
