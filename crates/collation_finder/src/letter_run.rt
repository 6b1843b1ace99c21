//! Goes over the letters at the front of a piece, as long as no unit reaches into or out of one of them: its units, keys and the
//! start of its cluster are then its own, whatever stands around it. What the window holds is cut before, as if the text ended
//! there, and none of the characters comes into the window but the last one, and the ASCII behind it at
//! the end of a piece. With these the steps go on.
ghost use Rattle.std.specs.Prelude.{◌≡◌, ℕ, [], ◌∷◌, true, All, ◌+◌, ◌≤◌, length, false};
ghost use Rattle.nfd_points.specs.Points.{begins_with_starter, points_of};
ghost use Rattle.collation_table.specs.Table.{BeginsNoLongerString};
ghost use Rattle.collation_letters.specs.Store.{AreLetters};
ghost use Rattle.collation_pattern.specs.Compiled.{Compiled};
ghost use Rattle.collation_letters.specs.Letters.{IsLetter};
ghost use Rattle.collation_walk.specs.HandingOut.{HandsOut};
ghost use Rattle.collation_finder.specs.LetterRun.{IsFirstLetter};
ghost use Rattle.collation_finder.specs.Pausing.{BeginsUnit};
ghost use Rattle.collation_finder.specs.Caches.{IsCacheRight};
ghost use Rattle.collation_matches.specs.GoodPrefix.{most_bytes};
ghost use Rattle.collation_finder.specs.Finding.{IsReady};
ghost use Rattle.collation_finder.specs.Taking.{TakesPaused, TakesText};

use crate::cache::Cache;
use crate::finder::Finder;
use crate::letter_loop::{Front, Walked, walk_letters};
use crate::reading::with_mark;
use crate::short_piece::MOST_OF_SHORT_PIECE;
use collation_elements::{Window, units_stay_apart};
use collation_letters::{Letter, Letters, is_next, laws_of_characters};
use collation_table::Weights;
use collation_walk::{Found, Query, hand_out};
use nfd_points::Point;
use nfd_points::laws::{laws_of_decompositions, laws_of_points, laws_of_reordering};
use utf8_cut::first_character;

/// Whether a character is known to begin with a starter.
pub fn is_starter<W: Weights>(query: &Query<'_, W>, letters: &mut Letters, c: char) -> bool
    requires { AreLetters (W.table query.now.table.now) query.now.pattern.now letters.old }
    ensures right { AreLetters (W.table query.now.table.now) query.now.pattern.now letters.new }
    ensures starter { result ≡ true
        → (offset : ℕ) → begins_with_starter (points_of offset c) ≡ true }
{
    laws_of_decompositions();
    c.is_ascii() || letters.letter(query.table, query.pattern, c).is_starter()
}

/// A look at what comes: the letter of the character `c` at the front of a piece, which has this letter, with the marks behind it, and the
/// character that follows; `None` where a mark is left to the steps, or no whole character follows.
#[inline(always)]
fn read_letter<W: Weights>(
    query: &Query<'_, W>,
    letters: &mut Letters,
    piece: &[u8],
    c: char,
    letter: Letter,
) -> Option<(Letter, Walked)>
    requires right { AreLetters (W.table query.now.table.now) query.now.pattern.now letters.old }
    ensures right { AreLetters (W.table query.now.table.now) query.now.pattern.now letters.new }
{
    let mut all = letter;
    let mut len = c.len_utf8();
    'marks: loop {
        let next = first_character(piece.get(len..)?)?;
        let following = letters.letter(query.table, query.pattern, next);
        if !following.role.is_mark() {
            return Some((
                all,
                Walked {
                    len,
                    next,
                    letter: following,
                },
            ));
        }
        // nothing is read again here
        all = if len == c.len_utf8() {
            with_mark(query, letters, piece.get(..len)?, &all, next, &following)?
        } else {
            all.with_mark(following)?
        };
        len += next.len_utf8();
    }
}

/// The character that follows `c`, or its marks, at the front of a piece; `None` where a unit may reach to it from them.
fn next_apart<W: Weights>(
    query: &Query<'_, W>,
    letters: &mut Letters,
    piece: &[u8],
    c: char,
    letter: Letter,
) -> Option<Walked>
    requires right { AreLetters (W.table query.now.table.now) query.now.pattern.now letters.old }
    ensures right { AreLetters (W.table query.now.table.now) query.now.pattern.now letters.new }
{
    let (all, walked) = read_letter(query, letters, piece, c, letter)?;
    if is_next(&all, &walked.letter) {
        Some(walked)
    } else {
        None
    }
}

/// Whether it is known that no mapped string of two or more code points begins with one of these points.
fn begin_none<W: Weights>(table: &W, points: &[Point]) -> bool
    ensures { result ≡ true
        → All (λ p. BeginsNoLongerString (W.table table.now) p.cp) points.now }
{
    for point in points {
        if table.begins_longer_string(point.cp) {
            return false;
        }
    }
    true
}

/// The most points of a window that are looked over before a letter: a hostile table makes it hold many.
const MOST_LOOKED_OVER: usize = 8;

/// The same of the points of a window, unless these are many.
fn begin_none_in_window<W: Weights>(table: &W, window: &Window) -> bool
    ensures { result ≡ true
        → All (λ p. BeginsNoLongerString (W.table table.now) p.cp) window.now.points }
{
    if window.len() > MOST_LOOKED_OVER {
        return false;
    }
    for i in 0..window.len() {
        if table.begins_longer_string(window.point(i).cp) {
            return false;
        }
    }
    true
}

/// Whether it is worth while to begin with a character of this letter at the front of a piece: the next one does not begin after `reach`,
/// and no unit is seen to reach from it to what follows, nor from the next one. Either may be one letter with the character behind it.
fn can_begin<W: Weights>(
    query: &Query<'_, W>,
    letters: &mut Letters,
    front: Front<'_>,
    first: char,
    letter: Letter,
) -> bool
    requires right { AreLetters (W.table query.now.table.now) query.now.pattern.now letters.old }
    ensures right { AreLetters (W.table query.now.table.now) query.now.pattern.now letters.new }
{
    if first.len_utf8() > front.reach {
        return false;
    }
    let piece = front.piece;
    if letter.is_closed && ascii_follows(query, letters, piece, first.len_utf8(), &letter) {
        return true;
    }
    let Some(second) = next_apart(query, letters, piece, first, letter) else {
        return joins_next(query, letters, piece, first, letter);
    };
    let Some(piece) = piece.get(second.len..) else {
        return false;
    };
    next_apart(query, letters, piece, second.next, second.letter).is_some()
        || joins_next(query, letters, piece, second.next, second.letter)
}

/// Whether two characters of ASCII stand so far behind the front of a piece, and it is known that no unit
/// reaches from one of this letter before them to the first, nor from the first to the second. So it is in
/// most texts, and that is soon seen.
fn ascii_follows<W: Weights>(
    query: &Query<'_, W>,
    letters: &mut Letters,
    piece: &[u8],
    at: usize,
    letter: &Letter,
) -> bool
    requires right { AreLetters (W.table query.now.table.now) query.now.pattern.now letters.old }
    ensures right { AreLetters (W.table query.now.table.now) query.now.pattern.now letters.new }
{
    let Some([second, third, ..]) = piece.get(at..) else {
        return false;
    };
    if !second.is_ascii() || !third.is_ascii() {
        return false;
    }
    let second = letters.letter(query.table, query.pattern, char::from(*second));
    let third = letters.letter(query.table, query.pattern, char::from(*third));
    is_next(letter, &second) && is_next(&second, &third)
}

/// Whether a character at the front of a piece, out of which a unit may reach, is one letter with the one that follows it.
fn joins_next<W: Weights>(
    query: &Query<'_, W>,
    letters: &mut Letters,
    piece: &[u8],
    first: char,
    letter: Letter,
) -> bool
    requires right { AreLetters (W.table query.now.table.now) query.now.pattern.now letters.old }
    ensures right { AreLetters (W.table query.now.table.now) query.now.pattern.now letters.new }
{
    if letter.is_closed {
        return false;
    }
    let Some(next) = first_character(piece.get(first.len_utf8()..).unwrap_or(&[])) else {
        return false;
    };
    let following = letters.letter(query.table, query.pattern, next);
    if following.is_apart || following.role.is_mark() {
        return false;
    }
    let both = letters.pair(query.table, query.pattern, first, next);
    !both.role.is_steps()
}

/// The most bytes over which letters go at once: text that can't be passed by may be looked over to their end in vain.
const MOST_IN_A_RUN: usize = 65_536;

impl Finder {
    /// Takes characters at the front of a piece, which stands at a byte offset, and calls the sink once for each range that became
    /// known, in order. It answers how many bytes it took: those up to the first character that it can't take so, or that begins
    /// after `reach`, or after `MOST_IN_A_RUN` bytes; none where that is the first one. Behind a character that ends after `reach` it also
    /// takes characters of ASCII, as many as there is room for. `found` is room that it uses.
    pub fn take_letters<W: Weights, F: FnMut(u64, u64)>(
        &mut self,
        query: &Query<'_, W>,
        cache: &mut Cache,
        front: Front<'_>,
        found: &mut Found,
        sink: &mut F,
    ) -> usize
        requires ready { IsReady (W.table query.now.table.now) query.now.pattern.now self.old }
        requires right { IsCacheRight (W.table query.now.table.now) query.now.pattern.now cache.old }
        requires fits { front.offset + length front.piece.now ≤ most_bytes }
        requires callable { F.IsAlwaysCallable sink.old }
        ensures taken { HandsOut F.step sink.old sink.new
            (TakesText (W.table query.now.table.now) query.now.pattern.now self.old self.new
            front.entry result) }
        ensures right { IsCacheRight (W.table query.now.table.now) query.now.pattern.now cache.new }
        ensures callable { F.IsAlwaysCallable sink.new }
    {
        laws_of_points();
        let near = Front {
            reach: front.reach.min(MOST_IN_A_RUN),
            ..front
        };
        let len = self.take_to_reach(query, cache, near, found, sink);
        if len <= front.reach || len == front.piece.len() {
            return len;
        }
        let at = front.offset + len as u64;
        let more = self.take_ascii(query, &front.piece[len..], at, found);
        hand_out(found.as_slice(), sink);
        len + more
    }

    /// The same without ASCII behind the first character that it does not take so. A short piece may be passed by without a pause.
    fn take_to_reach<W: Weights, F: FnMut(u64, u64)>(
        &mut self,
        query: &Query<'_, W>,
        cache: &mut Cache,
        front: Front<'_>,
        found: &mut Found,
        sink: &mut F,
    ) -> usize
        requires ready { IsReady (W.table query.now.table.now) query.now.pattern.now self.old }
        requires right { IsCacheRight (W.table query.now.table.now) query.now.pattern.now cache.old }
        requires fits { front.offset + length front.piece.now ≤ most_bytes }
        requires callable { F.IsAlwaysCallable sink.old }
        ensures taken { HandsOut F.step sink.old sink.new
            (TakesText (W.table query.now.table.now) query.now.pattern.now self.old self.new
            front.entry result) }
        ensures right { IsCacheRight (W.table query.now.table.now) query.now.pattern.now cache.new }
        ensures callable { F.IsAlwaysCallable sink.new }
    {
        // that is seen here, for most pieces are long, and a call costs more
        if front.piece.len() <= MOST_OF_SHORT_PIECE {
            if let Some(passed) = self.pass_short(query, cache, front) {
                return self.take_short_piece(query, cache, front, passed, found, sink);
            }
        }
        let Some(first) = first_character(front.piece) else {
            return 0;
        };
        let letter = cache.letters.letter(query.table, query.pattern, first);
        if !self.begins_unit(query.table, &letter) {
            return 0;
        }
        if !can_begin(query, &mut cache.letters, front, first, letter) {
            return 0;
        }
        self.pause(query, &mut cache.letters, found, sink);
        let from = Walked {
            len: 0,
            next: first,
            letter,
        };
        self.go_on(query, cache, front, from, found, sink)
    }

    /// Whether it is known that no unit reaches into a character of this letter that follows what it holds: out of whatever text stands before
    /// it, or since no string of the table begins with a point that is held. So text of Thai or Lao may begin with a consonant, which may
    /// follow a vowel in one string.
    fn begins_unit<W: Weights>(&self, table: &W, letter: &Letter) -> bool
        requires open { self.now.window.has_ended ≡ false }
        ensures { result ≡ true → (pattern : Compiled) (offset c : ℕ)
            → IsLetter (W.table table.now) pattern (c ∷ []) letter.now
            → BeginsUnit (W.table table.now) pattern self.now offset c }
    {
        laws_of_characters();
        laws_of_reordering();
        units_stay_apart();
        if letter.is_apart {
            return true;
        }
        if !letter.is_starter() {
            return false;
        }
        if !begin_none(table, self.reorder.waiting()) {
            return false;
        }
        begin_none_in_window(table, &self.window)
    }

    /// Goes on behind a pause with the characters at the front of a piece, of which the first is the
    /// one that follows `from`. No unit reaches into it. It answers how many bytes it took.
    pub(crate) fn go_on<W: Weights, F: FnMut(u64, u64)>(
        &mut self,
        query: &Query<'_, W>,
        cache: &mut Cache,
        front: Front<'_>,
        from: Walked,
        found: &mut Found,
        sink: &mut F,
    ) -> usize
        requires ready { IsReady (W.table query.now.table.now) query.now.pattern.now self.old }
        requires right { IsCacheRight (W.table query.now.table.now) query.now.pattern.now cache.old }
        requires fits { front.offset + length front.piece.now ≤ most_bytes }
        requires callable { F.IsAlwaysCallable sink.old }
        requires none_waits { self.old.reorder.held ≡ [] }
        requires first { IsFirstLetter (W.table query.now.table.now) query.now.pattern.now
            front.piece.now front.offset from.next from.letter }
        ensures taken { HandsOut F.step sink.old sink.new
            (TakesPaused (W.table query.now.table.now) query.now.pattern.now self.old self.new
            from.next front.entry result) }
        ensures right { IsCacheRight (W.table query.now.table.now) query.now.pattern.now cache.new }
        ensures callable { F.IsAlwaysCallable sink.new }
    {
        laws_of_characters();
        let walked = walk_letters(&mut self.matcher, query, cache, front, from, sink);
        // these were walked over or passed by: what is left is counted from where letters go on
        cache.skip.pace.after_letters(walked.len);
        let at = front.offset + walked.len as u64;
        let rest = &front.piece[walked.len..];
        // so few bytes are left at the end of a piece: no more of it goes by letters, and what is ASCII comes into the window at once
        if walked.next.is_ascii() && rest.len() < query.longest_key.max(2) {
            let len = self.take_ascii(query, rest, at, found);
            hand_out(found.as_slice(), sink);
            return walked.len + len;
        }
        found.clear();
        // where no point waits no character is at fault
        let _ = self.take(query.table, query.pattern, walked.next, at, found);
        hand_out(found.as_slice(), sink);
        walked.len + walked.next.len_utf8()
    }
}
