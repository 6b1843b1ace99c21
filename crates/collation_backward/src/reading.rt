//! What the rest of a text says up to an offset: the last range that ends there or before it, or a fault that stands before it.
ghost use Rattle.std.specs.Prelude.{◌≡◌, ℕ, ◌+◌, ◌^◌, ◌<◌, ◌≤◌, List, [], ◌∷◌, ◌++◌, Result, IfErr};
ghost use Rattle.collation_matches.specs.declared.faults.TextFault.{TextFault};
ghost use Rattle.collation_matches.specs.Offsets.{answer_from};
ghost use Rattle.collation_matches.specs.Sought.{IsCompiledFrom, answer_to};
ghost use Rattle.collation_search.specs.Feeding.{Feeds, fault_of};
ghost use Rattle.collation_search.specs.Indexing.{EndsBy, first_moved};
ghost use Rattle.collation_search.specs.Search.{sought};
ghost use Rattle.collation_anchored.specs.Answers.{unless_fault};
ghost use Rattle.collation_backward.specs.Backward.{is_fault_before, last_up_to, said_up_to};

use collation_search::{Found, Search, TextFault};
use collation_table::Weights;

/// How many bytes are taken behind the offset at first, until no range that ends before it can come: one character after another would be
/// slower, and most letters end what stands before them. Then it is twice as many each time, up to [`MOST_FOLLOWING`].
const FOLLOWING: usize = 16;

/// How many bytes are taken there at a time, at most.
const MOST_FOLLOWING: usize = 4_096;

/// What the rest of a text from a place on says up to an offset, which does not stand before the place; both are in bytes from the
/// beginning of the text, and so is what is told.
pub fn said_from<'a, W: Weights>(
    search: &mut Search<'a, W>,
    text: &[u8],
    from: usize,
    at: usize,
) -> Result<Option<(u64, u64)>, TextFault>
    requires { from ≤ at }
    ensures said { (p : List ℕ) → IsCompiledFrom (sought search.old) p
        → result ≡ said_up_to at (answer_from (sought search.old) p text.now from) }
    ensures behind { IfErr result (λ f. (from ≤ f.offset) × (f.offset < at)) }
    ensures sought { sought search.new ≡ sought search.old }
{
    let (_, rest) = text.split_at(from.min(text.len()));
    let said = said_by(search, rest, at - from);
    moved(said, from)
}

/// What a text says up to an offset.
fn said_by<'a, W: Weights>(
    search: &mut Search<'a, W>,
    text: &[u8],
    to: usize,
) -> Result<Option<(u64, u64)>, TextFault>
    ensures said { (p : List ℕ) → IsCompiledFrom (sought search.old) p
        → result ≡ said_up_to to (answer_to (sought search.old) p text.now) }
    ensures before { IfErr result (λ f. f.offset < to) }
    ensures sought { sought search.new ≡ sought search.old }
{
    search.begin_again();
    let mut room = Found::new();
    let mut last = None;
    let mut rest = text;
    let mut len = to.max(1);
    let mut following = FOLLOWING;
    while !rest.is_empty() {
        let (piece, later) = rest.split_at(len.min(rest.len()));
        let (newer, fed) = last_of_piece(search, piece, to, &mut room);
        last = newer.or(last);
        if fed.is_err() {
            return told(last, fed, to);
        }
        if search.to_come().end >= to as u64 {
            search.has_handed_out();
            return Ok(last);
        }
        rest = later;
        len = following;
        following = (2 * following).min(MOST_FOLLOWING);
    }
    let ended = search.finish_text(&mut room);
    told(last_of_found(room.as_slice(), to).or(last), ended, to)
}

/// Takes a piece of a text: the last of the ranges that became known that ends at an offset or before it, and what the piece was answered.
/// `room` is room that it uses.
fn last_of_piece<'a, W: Weights>(
    search: &mut Search<'a, W>,
    piece: &[u8],
    to: usize,
    room: &mut Found,
) -> (Option<(u64, u64)>, Result<(), TextFault>)
    ensures fed { (found : List (ℕ × ℕ)) × Feeds search.old piece.now result.1 found search.new
        × (result.0 ≡ last_up_to to found) }
{
    let mut last = None;
    let fed = search.feed_with(
        piece,
        room,
        &mut |start, end|
            ensures kept { (items : List (ℕ × ℕ)) → last.entry ≡ last_up_to to items
                → last.exit ≡ last_up_to to (items ++ (start, end) ∷ []) }
        {
            if end <= to as u64 {
                last = Some((start, end));
            }
        },
    );
    (last, fed)
}

/// The last of these ranges that ends at an offset or before it.
fn last_of_found(ranges: &[(u64, u64)], to: usize) -> Option<(u64, u64)>
    ensures { result ≡ last_up_to to ranges.now }
{
    let mut last = None;
    for range in ranges {
        if range.1 <= to as u64 {
            last = Some(*range);
        }
    }
    last
}

/// The fault that was met, if it stands before an offset; else the range.
fn told(
    last: Option<(u64, u64)>,
    ended: Result<(), TextFault>,
    to: usize,
) -> Result<Option<(u64, u64)>, TextFault>
    ensures said { result
        ≡ unless_fault (is_fault_before to (fault_of ended)) (fault_of ended) last }
    ensures before { IfErr result (λ f. f.offset < to) }
{
    if let Err(fault) = ended {
        if fault.offset < to as u64 {
            return Err(fault);
        }
    }
    Ok(last)
}

/// What the rest of a text from an offset on says, its offsets counted from the beginning of the text.
fn moved(
    said: Result<Option<(u64, u64)>, TextFault>,
    by: usize,
) -> Result<Option<(u64, u64)>, TextFault>
    ensures moved { (end : ℕ) → EndsBy end said → by + end < 2 ^ 64 → result ≡ first_moved by said }
    ensures fault { (end : ℕ) → IfErr said (λ f. by + f.offset < end) → end < 2 ^ 64
        → IfErr result (λ f. (by ≤ f.offset) × (f.offset < end)) }
{
    let by = by as u64;
    match said {
        Ok(None) => Ok(None),
        Ok(Some((start, end))) => Ok(Some((by.saturating_add(start), by.saturating_add(end)))),
        Err(fault) => Err(TextFault {
            kind: fault.kind,
            offset: by.saturating_add(fault.offset),
        }),
    }
}
