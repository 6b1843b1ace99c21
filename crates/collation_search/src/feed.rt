//! A search that takes a piece of a text at once.
ghost use Rattle.std.specs.Prelude.{◌≡◌, ℕ, suc, ◌+◌, ◌<◌, ◌≤◌, max, List, ◌++◌, drop, length, take, IfSome, true};
ghost use Rattle.std.specs.Char.{len_utf8};
ghost use Rattle.std.specs.Str.{chars};
ghost use Rattle.utf8_cut.specs.Sequences.{SpellsCharacter};
ghost use Rattle.nfd_points.specs.Points.{points_of, begins_with_starter};
ghost use Rattle.collation_table.specs.Table.{longest_mapped};
ghost use Rattle.collation_letters.specs.Store.{AreLetters};
ghost use Rattle.collation_matches.specs.GoodPrefix.{is_good_so_far, whole};
ghost use Rattle.collation_search.specs.Early.{starters_from};

use crate::search::{MOST_BYTES, Search};
use collation_elements::decided_units_stay;
use collation_finder::{Front, is_starter};
use collation_letters::Letters;
use collation_matches::TextFault;
use collation_table::Weights;
use collation_walk::{Found, Query, hand_out};
use nfd_points::laws::{laws_of_decompositions, laws_of_reordering};
use utf8_cut::{
    first_character, incomplete_sequences_begin_characters, text_may_stand_before,
    whole_characters_are_the_longest_text,
};

/// How far letters of a piece are taken, in bytes: up to one from which on as many characters that begin with a starter stand in the
/// piece as the longest mapped string has code points behind its first, and one at least. These come into the window, so that a search
/// holds at the end of the piece what steps alone leave.
fn reach<W: Weights>(query: &Query<'_, W>, letters: &mut Letters, piece: &[u8]) -> usize
    requires { AreLetters (W.table query.now.table.now) query.now.pattern.now letters.old }
    ensures right { AreLetters (W.table query.now.table.now) query.now.pattern.now letters.new }
    ensures enough { (u : List ℕ) → is_good_so_far (u ++ piece.now) ≡ true → 0 < result
        → max 2 (longest_mapped (W.table query.now.table.now))
        ≤ suc (starters_from (length u + result) (chars (whole (u ++ piece.now)))) }
{
    whole_characters_are_the_longest_text();
    text_may_stand_before();
    incomplete_sequences_begin_characters();
    let mut at = piece.len();
    let mut left = query.longest_key.max(2) - 1;
    while at > 0 && left > 0 {
        at -= 1;
        if starter_comes_first(query, letters, &piece[at..]) {
            left -= 1;
        }
    }
    if left == 0 { at } else { 0 }
}

/// Whether a character that is known to begin with a starter stands at the front of some bytes.
fn starter_comes_first<W: Weights>(
    query: &Query<'_, W>,
    letters: &mut Letters,
    bytes: &[u8],
) -> bool
    requires { AreLetters (W.table query.now.table.now) query.now.pattern.now letters.old }
    ensures right { AreLetters (W.table query.now.table.now) query.now.pattern.now letters.new }
    ensures starter { result ≡ true
        → (c : ℕ) × (len_utf8 c ≤ length bytes.now)
        × SpellsCharacter (take (len_utf8 c) bytes.now) c
        × (begins_with_starter (points_of 0 c) ≡ true) }
{
    match first_character(bytes) {
        Some(c) => is_starter(query, letters, c),
        None => false,
    }
}

/// The character at the front of some bytes. They begin with what stands in `text` from `from` on, where this is given, and it is read there
/// then.
#[inline(always)]
fn character_at(bytes: &[u8], text: Option<&str>, from: usize) -> Option<char>
    requires { IfSome text (λ t. (n : ℕ) × (drop from t.now ≡ take n bytes.now)) }
    ensures { IfSome result (λ c. (len_utf8 c ≤ length bytes.now)
        × SpellsCharacter (take (len_utf8 c) bytes.now) c) }
{
    match text {
        Some(whole) => character_of(whole, from),
        None => first_character(bytes),
    }
}

/// The character that begins at an offset of a text.
#[inline(always)]
fn character_of(text: &str, at: usize) -> Option<char>
    ensures { IfSome result (λ c. (len_utf8 c ≤ length (drop at text.now))
        × SpellsCharacter (take (len_utf8 c) (drop at text.now)) c) }
{
    if text.is_char_boundary(at) {
        text[at..].chars().next()
    } else {
        None
    }
}

/// How many characters of ASCII are taken at once at most behind the reach of letters.
const MOST_ASCII: usize = 32;

/// How many are taken at an offset of a piece: within the reach one, for letters may go on behind it.
fn most_ascii(at: usize, reach: usize) -> usize
    ensures { 0 < result }
{
    if at < reach { 1 } else { MOST_ASCII }
}

impl<'a, W: Weights> Search<'a, W> {
    ghost use Rattle.std.specs.Prelude.{◌≡◌, ℕ, suc, ◌+◌, ◌-◌, ◌<◌, ◌≤◌, max, List, [], ◌++◌, drop, length, take, None, Ok, Err, IfOk, IfErr, IfSome, true};
    ghost use Rattle.std.specs.List.{FoldsTo};
    ghost use Rattle.std.specs.Str.{chars};
    ghost use Rattle.collation_table.specs.Table.{longest_mapped};
    ghost use Rattle.collation_matches.specs.GoodPrefix.{is_good_so_far, whole};
    ghost use Rattle.collation_search.specs.Early.{starters_from};
    ghost use Rattle.collation_search.specs.Feeding.{Feeds, TakesPart};
    ghost use Rattle.collation_search.specs.Search.{sought};

    /// Takes the bytes of a piece of the text, and calls the sink once for each range that became known, in order, with its
    /// start and its end in bytes from the beginning of the text. The sink must take any two numbers.
    ///
    /// # Errors
    ///
    /// The first fault of the text, at which it counts as ended; the sink got the rest of the settled ranges, and the bytes
    /// of the piece after the fault were not read. From then on the same fault, and nothing is handed out. Memory is asked for what
    /// is cached of characters alone; where it is refused the search goes on, so that 35 is only a fault that it began with.
    pub fn feed<F: FnMut(u64, u64)>(&mut self, piece: &[u8], sink: &mut F) -> Result<(), TextFault>
        requires { F.IsAlwaysCallable sink.old }
        ensures fed { (found : List (ℕ × ℕ))
            × FoldsTo (λ f range g. F.step f range.0 range.1 tt g) sink.old found sink.new
            × Feeds self.old piece.now result found self.new }
        ensures callable { F.IsAlwaysCallable sink.new }
    {
        if let Some(fault) = self.reported() {
            return Err(fault);
        }
        let mut found = Found::new();
        self.feed_with(piece, &mut found, sink)
    }

    /// The same with room for ranges that is given, and that serves many pieces: [`Search::feed`] makes it anew each time, which costs as
    /// much as some characters. What it holds before and after is of no account.
    ///
    /// # Errors
    ///
    /// Those of [`Search::feed`].
    pub fn feed_with<F: FnMut(u64, u64)>(
        &mut self,
        piece: &[u8],
        found: &mut Found,
        sink: &mut F,
    ) -> Result<(), TextFault>
        requires { F.IsAlwaysCallable sink.old }
        ensures fed { (ranges : List (ℕ × ℕ))
            × FoldsTo (λ f range g. F.step f range.0 range.1 tt g) sink.old ranges sink.new
            × Feeds self.old piece.now result ranges self.new }
        ensures callable { F.IsAlwaysCallable sink.new }
    {
        decided_units_stay();
        laws_of_decompositions();
        laws_of_reordering();
        if let Some(fault) = self.reported() {
            return Err(fault);
        }
        let reach = self.reach(piece);
        let mut at = self.feed_letters(piece, reach, false, found, sink);
        while at < piece.len() {
            let most = most_ascii(at, reach);
            let stepped = self.step_far(&piece[at..], None, 0, most, found);
            hand_out(found.as_slice(), sink);
            match stepped {
                Ok(len) => at += len,
                Err(fault) => return Err(fault),
            }
            at += self.feed_letters(&piece[at..], reach.saturating_sub(at), false, found, sink);
        }
        Ok(())
    }

    /// How far letters of a piece are taken, in bytes: nowhere where the piece goes by steps alone.
    pub(crate) fn reach(&mut self, piece: &[u8]) -> usize
        requires none { self.old.fault ≡ None }
        ensures taken { TakesPart self.old 0 [] (Ok tt) [] self.new }
        ensures enough { (u : List ℕ) → is_good_so_far (u ++ piece.now) ≡ true → 0 < result
            → max 2 (longest_mapped (sought self.old).table)
            ≤ suc (starters_from (length u + result) (chars (whole (u ++ piece.now)))) }
        ensures counted { self.new.cache.value.by_steps
            ≡ self.old.cache.value.by_steps - length piece.now }
    {
        let by_steps = self.cache.by_steps;
        self.cache.by_steps = by_steps.saturating_sub(piece.len());
        if piece.len() <= by_steps && self.cache.leaves_to_steps(piece) {
            return 0;
        }
        reach(&self.query, &mut self.cache.letters, piece)
    }

    /// Takes the character at the front of what is left of a piece, and of ASCII up to `most`, or one byte where [`Search::step_character`]
    /// takes none. It answers how many bytes it took. `found` is emptied, and then holds the ranges that became known, in order. What is left
    /// begins with what stands in `text` from `from` on, where this is given.
    pub(crate) fn step_far(
        &mut self,
        bytes: &[u8],
        text: Option<&str>,
        from: usize,
        most: usize,
        found: &mut Found,
    ) -> Result<usize, TextFault>
        requires none { self.old.fault ≡ None }
        requires some { 0 < length bytes.now }
        requires text { IfSome text (λ t. (n : ℕ) × (drop from t.now ≡ take n bytes.now)) }
        requires most { 0 < most }
        ensures within { IfOk result (λ n. (0 < n) × (n ≤ length bytes.now)) }
        ensures taken { IfOk result (λ n.
            TakesPart self.old 0 (take n bytes.now) (Ok tt) found.new.items self.new) }
        ensures fault { IfErr result (λ f.
            TakesPart self.old 0 (take 1 bytes.now) (Err f) found.new.items self.new) }
    {
        let len = self.step_character(bytes, text, from, most, found);
        if len > 0 {
            return Ok(len);
        }
        match self.step_on(bytes[0], found) {
            Ok(()) => Ok(1),
            Err(fault) => Err(fault),
        }
    }

    /// Takes the character at the front of what is left of a piece, and of ASCII up to `most`: how many bytes. It takes none where the
    /// character is not whole there, or may be at fault, as a point waits. `found` is emptied, and then holds the ranges that became known,
    /// in order.
    fn step_character(
        &mut self,
        bytes: &[u8],
        text: Option<&str>,
        from: usize,
        most: usize,
        found: &mut Found,
    ) -> usize
        requires none { self.old.fault ≡ None }
        requires text { IfSome text (λ t. (n : ℕ) × (drop from t.now ≡ take n bytes.now)) }
        requires most { 0 < most }
        ensures within { result ≤ length bytes.now }
        ensures taken { TakesPart self.old 0 (take result bytes.now) (Ok tt) found.new.items self.new }
        ensures nothing { result ≡ 0 → found.new.items ≡ [] }
    {
        whole_characters_are_the_longest_text();
        found.clear();
        let count = self.cut.count();
        if self.cut.held_start() != count
            || MOST_BYTES - count < bytes.len() as u64
            || !self.finder.reorder.waiting().is_empty()
        {
            return 0;
        }
        let Some(c) = character_at(bytes, text, from) else {
            return 0;
        };
        if c.is_ascii() {
            let len = self
                .finder
                .take_ascii(&self.query, &bytes[..most.min(bytes.len())], count, found);
            self.cut.take_ascii(len as u64);
            return len;
        }
        let table = self.query.table;
        let pattern = self.query.pattern;
        // where no point waits no character is at fault
        let _ = self.finder.take(table, pattern, c, count, found);
        let len = c.len_utf8();
        self.cut.take_characters(len as u64);
        len
    }

    /// Takes the letters at the front of a piece that can be taken, up to `reach`, and ASCII behind it, and calls the sink once for each
    /// range that became known, in order. It answers how many bytes it took, few or none behind the first range that a letter hands out
    /// where `one_range` says so. `found` is room that it uses.
    pub(crate) fn feed_letters<F: FnMut(u64, u64)>(
        &mut self,
        piece: &[u8],
        reach: usize,
        one_range: bool,
        found: &mut Found,
        sink: &mut F,
    ) -> usize
        requires none { self.old.fault ≡ None }
        requires callable { F.IsAlwaysCallable sink.old }
        ensures within { result ≤ length piece.now }
        ensures taken { (ranges : List (ℕ × ℕ))
            × FoldsTo (λ f range g. F.step f range.0 range.1 tt g) sink.old ranges sink.new
            × TakesPart self.old reach (take result piece.now) (Ok tt) ranges self.new }
        ensures callable { F.IsAlwaysCallable sink.new }
    {
        whole_characters_are_the_longest_text();
        let count = self.cut.count();
        if reach == 0 || self.cut.held_start() != count || MOST_BYTES - count < piece.len() as u64 {
            return 0;
        }
        let front = Front {
            piece,
            offset: count,
            reach,
            one_range,
        };
        let len = self
            .finder
            .take_letters(&self.query, &mut *self.cache, front, found, sink);
        self.cut.take_characters(len as u64);
        len
    }
}
