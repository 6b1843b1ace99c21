//! One part of a text, searched by itself.
ghost use Rattle.std.specs.Prelude.{◌≡◌, ℕ, ◌+◌, ◌<◌, ◌^◌, List, [], ◌∷◌, ◌++◌, OnOk, IfErr, None, Some};
ghost use Rattle.std.specs.List.{FoldsTo};
ghost use Rattle.collation_matches.specs.Offsets.{fault_moved};
ghost use Rattle.collation_matches.specs.Sought.{IsCompiledFrom, answer_to};
ghost use Rattle.collation_parts.specs.Handing.{handed_on};
ghost use Rattle.collation_parts.specs.Parts.{fault_by, part_answer};
ghost use Rattle.collation_search.specs.Feeding.{Feeds, fault_of};
ghost use Rattle.collation_search.specs.Search.{HasSearched, sought};

use collation_search::{Found, Search, TextFault};
use collation_table::Weights;
use collation_walk::hand_out;
use utf8_cut::whole_characters_are_the_longest_text;

/// How many bytes behind a part are taken first, so that not much is read twice, and at most.
const FIRST_BEHIND: usize = 256;

const MOST_BEHIND: usize = 4_096;

/// A part of a text: where it begins, and how many bytes it has.
#[derive(Clone, Copy)]
struct Part {
    from: usize,
    len: usize,
}

/// Searches the part of a text from one offset to another, as a text by itself, and calls the sink once for each range that begins in the
/// part, in order, with its start and its end in bytes from the beginning of the text. A range may end behind the part: the search
/// reads on there until none that begins in the part is to come, in pieces of 256 bytes first and of 4,096 at most. It begins again
/// before the part and after it, so that one search serves many parts; what was found out of characters stays. Memory is asked for
/// that alone, and where it is refused the search goes on. Behind the end of the text nothing is found, and nothing where `to` stands
/// before `from`. The sink must take any two numbers.
///
/// Parts of which each begins where the one before ends, at boundaries, have the ranges of the text together
/// ([`crate::parts_have_the_whole`]).
///
/// # Errors
///
/// The first fault from `from` on, where it stands at `to` or before it; one that stands behind belongs to a later part. The sink got the
/// settled ranges before it. Where `from` stands within a character, that is 31 at `from`.
pub fn search_part<W: Weights, F: FnMut(u64, u64)>(
    search: &mut Search<'_, W>,
    text: &[u8],
    from: usize,
    to: usize,
    sink: &mut F,
) -> Result<(), TextFault>
    requires { F.IsAlwaysCallable sink.old }
    ensures ranges { (p : List ℕ) → IsCompiledFrom (sought search.old) p
        → FoldsTo (λ f range g. F.step f range.0 range.1 tt g) sink.old
        (part_answer (sought search.old) p text.now from to).ranges sink.new }
    ensures fault { (p : List ℕ) → IsCompiledFrom (sought search.old) p
        → fault_of result ≡ (part_answer (sought search.old) p text.now from to).fault }
    ensures stands { HasSearched search.new [] [] }
    ensures sought { sought search.new ≡ sought search.old }
    ensures callable { F.IsAlwaysCallable sink.new }
{
    whole_characters_are_the_longest_text();
    search.begin_again();
    if to < from {
        return Ok(());
    }
    let part = Part {
        from,
        len: to - from,
    };
    let (_, rest) = text.split_at(from.min(text.len()));
    let ended = search_rest(search, rest, part, sink);
    search.begin_again();
    ended
}

/// Searches the part with which the rest of a text begins.
fn search_rest<W: Weights, F: FnMut(u64, u64)>(
    search: &mut Search<'_, W>,
    text: &[u8],
    part: Part,
    sink: &mut F,
) -> Result<(), TextFault>
    requires begins { HasSearched search.old [] [] }
    requires callable { F.IsAlwaysCallable sink.old }
    requires counted { part.from + part.len < 2 ^ 64 }
    ensures ranges { (p : List ℕ) → IsCompiledFrom (sought search.old) p
        → FoldsTo (λ f range g. F.step f range.0 range.1 tt g) sink.old
        (handed_on part.from part.len (answer_to (sought search.old) p text.now).ranges) sink.new }
    ensures fault { (p : List ℕ) → IsCompiledFrom (sought search.old) p
        → fault_of result ≡ fault_moved part.from
        (fault_by part.len (answer_to (sought search.old) p text.now).fault) }
    ensures sought { sought search.new ≡ sought search.old }
    ensures callable { F.IsAlwaysCallable sink.new }
{
    let mut found = Found::new();
    let mut rest = text;
    let mut behind = FIRST_BEHIND;
    let mut len = part.len.saturating_add(behind);
    while !rest.is_empty() {
        let (piece, later) = rest.split_at(len.min(rest.len()));
        let fed = feed_part(search, piece, part, &mut found, sink);
        if fed.is_err() {
            return told(fed, part);
        }
        let to_come = search.to_come();
        if to_come.start >= part.len as u64 && to_come.end > part.len as u64 {
            search.has_handed_out();
            return Ok(());
        }
        rest = later;
        behind = (behind * 2).min(MOST_BEHIND);
        len = behind;
    }
    let ended = finish_part(search, part, &mut found, sink);
    told(ended, part)
}

/// Takes a piece of the rest of a text, and hands on the ranges that became known. `found` is room that it uses.
fn feed_part<W: Weights, F: FnMut(u64, u64)>(
    search: &mut Search<'_, W>,
    piece: &[u8],
    part: Part,
    found: &mut Found,
    sink: &mut F,
) -> Result<(), TextFault>
    requires { F.IsAlwaysCallable sink.old }
    ensures fed { (ranges : List (ℕ × ℕ)) × Feeds search.old piece.now result ranges search.new
        × FoldsTo (λ f range g. F.step f range.0 range.1 tt g) sink.old
        (handed_on part.from part.len ranges) sink.new }
    ensures callable { F.IsAlwaysCallable sink.new }
{
    search.feed_with(
        piece,
        found,
        &mut |start, end| hand_on(part, start, end, sink),
    )
}

/// Ends the text, and hands on the rest of the ranges. `found` is room that it uses.
fn finish_part<W: Weights, F: FnMut(u64, u64)>(
    search: &mut Search<'_, W>,
    part: Part,
    found: &mut Found,
    sink: &mut F,
) -> Result<(), TextFault>
    requires { F.IsAlwaysCallable sink.old }
    ensures ended { (ranges : List (ℕ × ℕ))
        × FoldsTo (λ f range g. F.step f range.0 range.1 tt g) sink.old
        (handed_on part.from part.len ranges) sink.new
        × ((p u : List ℕ) (handed : List (ℕ × ℕ)) → IsCompiledFrom (sought search.old) p
        → HasSearched search.old u handed
        → answer_to (sought search.old) p u
        ≡ record { ranges = handed ++ ranges; fault = fault_of result }) }
    ensures sought { sought search.new ≡ sought search.old }
    ensures callable { F.IsAlwaysCallable sink.new }
{
    let ended = search.finish_text(found);
    hand_out(
        found.as_slice(),
        &mut |start, end| hand_on(part, start, end, sink),
    );
    ended
}

/// Calls the sink for a range of the rest of a text that begins in the part.
fn hand_on<F: FnMut(u64, u64)>(part: Part, start: u64, end: u64, sink: &mut F)
    requires { F.IsAlwaysCallable sink.old }
    ensures called { FoldsTo (λ f range g. F.step f range.0 range.1 tt g) sink.old
        (handed_on part.from part.len ((start, end) ∷ [])) sink.new }
    ensures callable { F.IsAlwaysCallable sink.new }
{
    if start < part.len as u64 {
        let from = part.from as u64;
        sink(from.saturating_add(start), from.saturating_add(end));
    }
}

/// The fault if it stands at the end of the part or before it, its offset counted from the beginning of the text.
fn told(ended: Result<(), TextFault>, part: Part) -> Result<(), TextFault>
    requires { part.from + part.len < 2 ^ 64 }
    ensures { fault_of result ≡ fault_moved part.from (fault_by part.len (fault_of ended)) }
{
    match ended {
        Ok(()) => Ok(()),
        Err(fault) => {
            if fault.offset > part.len as u64 {
                return Ok(());
            }
            Err(TextFault {
                kind: fault.kind,
                offset: part.from as u64 + fault.offset,
            })
        }
    }
}
