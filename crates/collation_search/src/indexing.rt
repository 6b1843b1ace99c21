//! The first range of a text that is held whole.

ghost use Rattle.std.specs.Prelude.{◌≡◌, ℕ, ◌+◌, ◌<◌, ◌^◌, List, IfSome, take};
ghost use Rattle.utf8_cut.specs.Characters.{characters_end};
ghost use Rattle.collation_search.specs.Feeding.{fault_of};
ghost use Rattle.collation_search.specs.Indexing.{range_or_fault as range_or_fault_of, first_moved, EndsBy, IsFirstOf};
ghost use Rattle.collation_matches.specs.declared.select.Select.TheVariants.{All};
ghost use Rattle.collation_matches.specs.Sought.{IsCompiledFrom, answer_to, seeking};
ghost use Rattle.collation_matches.specs.Offsets.{answer_from};

use crate::search::Search;
use collation_elements::decided_units_stay;
use collation_matches::{TextFault, matches_by_clusters};
use collation_pattern::Pattern;
use collation_table::Weights;
use collation_walk::Found;
use nfd_points::laws::{laws_of_decompositions, laws_of_faults, laws_of_reordering};
use std::alloc::Global;
use utf8_cut::{front, whole_characters_are_the_longest_text};

/// How many bytes of a text are taken first, and at most. A text of up to so many is one piece, for the end of each piece goes by steps;
/// more of a long one would be looked over in vain where a range or a fault stands at its beginning.
const FIRST_PIECE: usize = 256;

const LONGEST_PIECE: usize = 4_096;

/// The most bytes of a text that goes by steps alone where the search is made for it, and no letter serves another text.
const SHORT_TEXT: usize = 128;

/// How many bytes and characters together such a text has at most for each different byte: where it has more, letters serve each often
/// enough. A character of three bytes takes less than twice the steps of one byte.
const FOR_EACH: usize = 7;

/// The same of a text of ASCII, whose letters are found sooner.
const FOR_EACH_OF_ASCII: usize = 5;

/// The most bytes of a text in which nothing is passed by where the search is made for it: what passes text by is found anew then, and
/// costs more than it saves.
const LONGEST_WALKED: usize = 256;

/// The same of a text with many different bytes, since more is found anew then.
const LONGEST_WALKED_OF_MANY: usize = 2_560;

/// How many bytes such a text has at most for each different byte at its front.
const WALKED_FOR_EACH: usize = 32;

/// How many bytes these are of which the different ones are counted, and how many times one past ASCII counts: for a character of several
/// bytes several moves are found.
const FRONT: usize = 128;

const TIMES_PAST_ASCII: usize = 3;

/// How many different bytes of ASCII are many there: where there are fewer, few moves are found. And the most bytes of a text of ASCII whose
/// front says what the rest is like.
const MANY_OF_ASCII: usize = 20;

const LONGEST_OF_ASCII: usize = 1_024;

/// How many characters of ASCII are taken at once where steps go up to the first range.
const MOST_ASCII_AT_ONCE: usize = 8;

/// The first range of the answer to a text, if there is one, though a fault may stand after it: its start and its end, in
/// bytes from the beginning of the text, the end not included. The pattern was compiled with this table.
///
/// # Errors
///
/// The first fault of the text, where no range was found before it, or 36 at 0 where [`Search::new`] was refused memory. That
/// this is for no other reason no clause says, for none can name the request: it is read off the body, and tested.
pub fn index<W: Weights>(
    alloc: Global,
    table: &W,
    pattern: &Pattern,
    text: &[u8],
) -> Result<Option<(u64, u64)>, TextFault>
    ensures first { (p : List ℕ)
        → IsCompiledFrom
        (seeking (W.table table.now) pattern.now All) p
        → IsFirstOf (answer_to
        (seeking (W.table table.now) pattern.now All) p text.now) result }
{
    let Ok(mut search) = Search::new(alloc, table, pattern) else {
        return Err(TextFault {
            kind: TextFault::NO_MEMORY,
            offset: 0,
        });
    };
    search.is_for_one_text(text);
    search.first_in(text)
}

/// The first range of what stands in a text from an offset on, as [`Search::first_from`] finds it:
/// `from`, and the start and the end of the range, are in bytes from the beginning of the text. The
/// pattern was compiled with this table.
///
/// Calls of which each begins at the end of the range before find the chain of the text, the ranges
/// that do not overlap ([`collation_matches::calls_give_the_chain`]).
///
/// # Errors
///
/// The first fault from there on, where no range was found before it, or 36 at 0, as of [`index`].
pub fn index_from<W: Weights>(
    alloc: Global,
    table: &W,
    pattern: &Pattern,
    text: &[u8],
    from: usize,
) -> Result<Option<(u64, u64)>, TextFault>
    ensures first { (p : List ℕ)
        → IsCompiledFrom
        (seeking (W.table table.now) pattern.now All) p
        → IsFirstOf
        (answer_from (seeking (W.table table.now) pattern.now All)
        p text.now from)
        result }
{
    let Ok(mut search) = Search::new(alloc, table, pattern) else {
        return Err(TextFault {
            kind: TextFault::NO_MEMORY,
            offset: 0,
        });
    };
    let rest = &text[from.min(text.len())..];
    search.is_for_one_text(rest);
    search.first_from(text, from)
}

impl<'a, W: Weights> Search<'a, W> {
    ghost use Rattle.std.specs.Prelude.{◌≡◌, ℕ, ◌+◌, ◌<◌, ◌≤◌, ◌∷◌, List, [], ◌++◌, drop, length, take, slice_get, IfSome, None, Ok};
    ghost use Rattle.utf8_cut.specs.Characters.{characters_end};
    ghost use Rattle.collation_matches.specs.Sought.{IsCompiledFrom, answer_to};
    ghost use Rattle.collation_matches.specs.Offsets.{answer_from};
    ghost use Rattle.collation_search.specs.Feeding.{BeginsAnswers, TakesPart};
    ghost use Rattle.collation_search.specs.Indexing.{first_range, IsFirstSoFar};
    ghost use Rattle.collation_search.specs.Search.{HasSearched, sought};

    /// Prepares for one text alone: of a short one little is found out that serves no other text.
    fn is_for_one_text(&mut self, text: &[u8])
        ensures sought { sought self.new ≡ sought self.old }
    {
        let by_steps = bytes_by_steps(text);
        let (walked, has_many) = walked_len(text);
        self.cache.prepare(by_steps, walked, text.len(), has_many);
    }

    /// The first range of the answer to a text, if there is one, though a fault may stand after it: its start and its end, in
    /// bytes from the beginning of this text, the end not included. The search begins again before it and after it, so that one search
    /// serves many texts; what was found out of characters stays. Memory is asked for that alone, and the answer is the same where
    /// it is refused.
    ///
    /// # Errors
    ///
    /// The first fault of the text, where no range was found before it.
    pub fn first_in(&mut self, text: &[u8]) -> Result<Option<(u64, u64)>, TextFault>
        ensures first { (p : List ℕ) → IsCompiledFrom (sought self.old) p
            → result ≡ first_range (answer_to (sought self.old) p text.now).ranges
            (answer_to (sought self.old) p text.now).fault }
        ensures stands { HasSearched self.new [] [] }
        ensures sought { sought self.new ≡ sought self.old }
    {
        self.begin_again();
        let first = self.first_of(text);
        self.begin_again();
        first
    }

    /// The first range of the answer to what stands in a text from an offset on, taken as a text by
    /// itself: `from`, and the start and the end of the range, are in bytes from the beginning of the
    /// text. Behind the end of the text nothing is found. The search begins again before it and
    /// after it. Memory is asked for as by [`Search::first_in`].
    ///
    /// From the start or the end of a range on it is the first range of the text that begins there
    /// or later, and so from each boundary before the first fault
    /// ([`collation_matches::matches_from_a_boundary`]). From elsewhere, as from amid a contraction,
    /// it may be a range that the text does not have.
    ///
    /// # Errors
    ///
    /// The first fault from there on, where no range was found before it. Where `from` stands within
    /// a character, that is 31 at `from`.
    pub fn first_from(&mut self, text: &[u8], from: usize) -> Result<Option<(u64, u64)>, TextFault>
        ensures first { (p : List ℕ) → IsCompiledFrom (sought self.old) p
            → result ≡ first_range (answer_from (sought self.old) p text.now from).ranges
            (answer_from (sought self.old) p text.now from).fault }
        ensures stands { HasSearched self.new [] [] }
        ensures sought { sought self.new ≡ sought self.old }
    {
        whole_characters_are_the_longest_text();
        let (_, rest) = text.split_at(from.min(text.len()));
        moved(self.first_in(rest), from)
    }

    /// The same of a search at the beginning of a text.
    fn first_of(&mut self, text: &[u8]) -> Result<Option<(u64, u64)>, TextFault>
        requires { HasSearched self.old [] [] }
        ensures first { (p : List ℕ) → IsCompiledFrom (sought self.old) p
            → result ≡ first_range (answer_to (sought self.old) p text.now).ranges
            (answer_to (sought self.old) p text.now).fault }
        ensures sought { sought self.new ≡ sought self.old }
    {
        let mut found = Found::new();
        let mut rest = text;
        let mut len = FIRST_PIECE;
        while !rest.is_empty() {
            let (piece, later) = rest.split_at(len.min(rest.len()));
            match self.feed_first(piece, &mut found) {
                Ok(None) => {}
                Ok(Some(range)) => return Ok(Some(range)),
                Err(fault) => return Err(fault),
            }
            rest = later;
            len = (len * 2).min(LONGEST_PIECE);
        }
        let ended = self.end_text(&mut found);
        range_or_fault(found.as_slice().first().copied(), ended)
    }

    /// Takes a piece of the text, or what of it stands before the first range that became known: that range, if there is one, though a
    /// fault may stand after it. `room` is room that it uses.
    ///
    /// # Errors
    ///
    /// The first fault of the text, where none became known before it.
    fn feed_first(
        &mut self,
        piece: &[u8],
        room: &mut Found,
    ) -> Result<Option<(u64, u64)>, TextFault>
        requires none { self.old.fault ≡ None }
        ensures first { (p u later : List ℕ) → IsCompiledFrom (sought self.old) p
            → HasSearched self.old u []
            → IsFirstSoFar (answer_to (sought self.old) p ((u ++ piece.now) ++ later)) result }
        ensures none { (u : List ℕ) → HasSearched self.old u [] → result ≡ Ok None
            → HasSearched self.new (u ++ piece.now) [] }
        ensures sought { sought self.new ≡ sought self.old }
    {
        decided_units_stay();
        laws_of_decompositions();
        laws_of_reordering();
        let reach = self.reach(piece);
        let whole = whole_by_steps(piece, reach);
        let mut at = 0;
        'parts: loop {
            let here = reach.saturating_sub(at);
            let (len, first) = self.letters_to_first(&piece[at..], here, room);
            at += len;
            match first {
                None => {}
                Some(range) => {
                    self.has_handed_out_within();
                    return Ok(Some(range));
                }
            }
            if at == piece.len() {
                return Ok(None);
            }
            let (len, stepped) = self.step_at(piece, whole, at, room);
            at += len;
            match range_or_fault(room.as_slice().first().copied(), stepped) {
                Ok(None) => {}
                Ok(Some(range)) => {
                    self.has_handed_out_within();
                    return Ok(Some(range));
                }
                Err(fault) => return Err(fault),
            }
        }
    }

    /// Takes the character at an offset of a piece by steps, and ASCII behind it: how many bytes. `whole` are the piece's whole characters,
    /// where they were read. `room` is emptied, and then holds the ranges that became known, in order.
    ///
    /// # Errors
    ///
    /// The first fault of the text.
    fn step_at(
        &mut self,
        piece: &[u8],
        whole: Option<&str>,
        at: usize,
        room: &mut Found,
    ) -> (usize, Result<(), TextFault>)
        requires none { self.old.fault ≡ None }
        requires some { at < length piece.now }
        requires whole { IfSome whole (λ t. t.now ≡ take (characters_end piece.now) piece.now) }
        ensures within { (0 < result.0) × (at + result.0 ≤ length piece.now) }
        ensures taken { TakesPart self.old 0 (take result.0 (drop at piece.now)) result.1
            room.new.items self.new }
    {
        match self.step_far(&piece[at..], whole, at, MOST_ASCII_AT_ONCE, room) {
            Ok(len) => (len, Ok(())),
            Err(fault) => (1, Err(fault)),
        }
    }

    /// Takes letters at the front of a piece, as [`Search::feed_letters`] does, up to the first range: how many bytes, and that range, if
    /// one became known.
    fn letters_to_first(
        &mut self,
        piece: &[u8],
        reach: usize,
        room: &mut Found,
    ) -> (usize, Option<(u64, u64)>)
        requires none { self.old.fault ≡ None }
        ensures within { result.0 ≤ length piece.now }
        ensures taken { (ranges : List (ℕ × ℕ))
            × TakesPart self.old reach (take result.0 piece.now) (Ok tt) ranges self.new
            × (result.1 ≡ slice_get ranges 0) }
    {
        let mut first = None;
        let len = self.feed_letters(
            piece,
            reach,
            true,
            room,
            &mut |start, end|
                ensures kept { (items : List (ℕ × ℕ)) → first.entry ≡ slice_get items 0
                    → first.exit ≡ slice_get (items ++ (start, end) ∷ []) 0 }
            {
                if first.is_none() {
                    first = Some((start, end));
                }
            },
        );
        (len, first)
    }

    /// What the ranges handed out so far within a piece are of the answer: whatever bytes follow, they begin its list.
    fn has_handed_out_within(&self)
        ensures { BeginsAnswers self.now }
    {
        matches_by_clusters(self.query.table);
        whole_characters_are_the_longest_text();
        laws_of_faults();
    }
}

/// How many bytes of a text go by steps alone, as far as its bytes say: any number of a short one with many different bytes.
fn bytes_by_steps(text: &[u8]) -> usize {
    if text.len() > SHORT_TEXT {
        return 0;
    }
    let (ascii, others) = different_bytes(text);
    let count = characters(text).saturating_add(text.len());
    let for_each = if others == 0 {
        FOR_EACH_OF_ASCII
    } else {
        FOR_EACH
    };
    if count > ascii.saturating_add(others).saturating_mul(for_each) {
        return 0;
    }
    usize::MAX
}

/// How many bytes of a text are walked over before any are passed by, as far as its length and its front say, all or none; and whether it is
/// ASCII with many different bytes, and not long. Blocks serve such a text, for which few letters are found, and no moves.
fn walked_len(text: &[u8]) -> (usize, bool) {
    let len = text.len();
    if len <= LONGEST_WALKED {
        return (len, false);
    }
    let (ascii, others) = different_bytes(&text[..FRONT.min(len)]);
    if len <= LONGEST_OF_ASCII && ascii >= MANY_OF_ASCII && text.is_ascii() {
        return (0, true);
    }
    let count = others
        .saturating_mul(TIMES_PAST_ASCII)
        .saturating_add(ascii);
    if len <= LONGEST_WALKED_OF_MANY.min(count.saturating_mul(WALKED_FOR_EACH)) {
        (len, false)
    } else {
        (0, false)
    }
}

/// How many characters a text has, if it is UTF-8.
fn characters(text: &[u8]) -> usize {
    let mut count = 0usize;
    for byte in text {
        count = count.wrapping_add(usize::from(*byte < 0x80 || *byte >= 0xC0));
    }
    count
}

/// How many different bytes of ASCII a text has, and how many others.
fn different_bytes(text: &[u8]) -> (usize, usize) {
    // one bit for each byte
    let mut there = [0u64; 4];
    for byte in text {
        there[usize::from(*byte / 64)] |= 1u64.wrapping_shl(u32::from(*byte));
    }
    let ascii = there[0].count_ones().wrapping_add(there[1].count_ones());
    let others = there[2].count_ones().wrapping_add(there[3].count_ones());
    (ascii as usize, others as usize)
}

/// The whole characters of a piece that goes by steps alone, and none of others, whose letters are read where they are taken.
fn whole_by_steps(piece: &[u8], reach: usize) -> Option<&str>
    ensures { IfSome result (λ t. t.now ≡ take (characters_end piece.now) piece.now) }
{
    if reach > 0 {
        return None;
    }
    // a piece that begins within a character has none: there each is read where it is taken
    let (text, _) = front(piece);
    if text.is_empty() { None } else { Some(text) }
}

/// What was found in the rest of a text from this offset on, its offsets counted from the beginning
/// of the text.
fn moved(
    first: Result<Option<(u64, u64)>, TextFault>,
    by: usize,
) -> Result<Option<(u64, u64)>, TextFault>
    ensures { (end : ℕ) → EndsBy end first → by + end < 2 ^ 64 → result ≡ first_moved by first }
{
    let by = by as u64;
    match first {
        Ok(None) => Ok(None),
        Ok(Some((start, end))) => Ok(Some((by.saturating_add(start), by.saturating_add(end)))),
        Err(fault) => Err(TextFault {
            kind: fault.kind,
            offset: by.saturating_add(fault.offset),
        }),
    }
}

/// The range if there is one, though the text ended at a fault; else the fault, if there is one.
fn range_or_fault(
    range: Option<(u64, u64)>,
    ended: Result<(), TextFault>,
) -> Result<Option<(u64, u64)>, TextFault>
    ensures { result ≡ range_or_fault_of range (fault_of ended) }
{
    match (range, ended) {
        (None, Err(fault)) => Err(fault),
        (range, _) => Ok(range),
    }
}
