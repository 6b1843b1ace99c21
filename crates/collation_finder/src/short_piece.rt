//! A short piece behind characters that the window holds, as those that ended the piece before.
//! Where both may be passed by as one text, the search goes on as if it stood paused before these
//! characters, so that nothing is walked over first.
ghost use Rattle.std.specs.Prelude.{◌≡◌, ◌++◌, true, false, ℕ, ◌+◌, ◌≤◌, List, [], length, IfSome};
ghost use Rattle.std.specs.Char.{encode_utf8};
ghost use Rattle.nfd_points.specs.Points.{is_starter};
ghost use Rattle.collation_elements.specs.Weighing.{is_after_variable};
ghost use Rattle.collation_walk.specs.HandingOut.{HandsOut};
ghost use Rattle.collation_matches.specs.GoodPrefix.{most_bytes};
ghost use Rattle.collation_finder.specs.Caches.{IsCacheRight};
ghost use Rattle.collation_finder.specs.Finding.{IsReady};
ghost use Rattle.collation_finder.specs.ShortPiece.{HoldsText, MayPassShort};
ghost use Rattle.collation_finder.specs.Taking.{TakesText};

use crate::cache::Cache;
use crate::finder::Finder;
use crate::letter_loop::{Front, Walked};
use crate::letter_run::is_starter;
use arrayvec::ArrayVec;
use collation_letters::laws_of_characters;
use collation_skip::WORTH;
use collation_table::{MOST_STRING_POINTS, Weights};
use collation_walk::{Found, Query};
use nfd_points::Point;
use nfd_points::laws::{laws_of_points, laws_of_reordering};
use utf8_cut::first_character;

/// The most bytes of such a piece with those before it.
const ROOM: usize = 160;

/// The most bytes of such a piece. A window between two pieces holds no more points than a table's
/// longest string may have; within a piece it may hold more, and then there is no room.
pub(crate) const MOST_OF_SHORT_PIECE: usize = ROOM - MOST_STRING_POINTS;

/// What may be passed by of such a piece, with the characters before it.
#[derive(Clone, Copy)]
pub(crate) struct PassedShort {
    /// Where its last character stands, in bytes from the beginning of the text.
    pub(crate) start: u64,
    /// How many bytes of the piece it has, and the character that follows.
    pub(crate) end: Walked,
}

/// Whether a point is a starter, and the first one of the character that stands at a byte offset.
fn is_starter_at(point: Point, offset: u64) -> bool
    ensures starter { result ≡ true → is_starter point ≡ true }
    ensures offset { result ≡ true → point.offset ≡ offset }
    ensures first { result ≡ true → point.first ≡ true }
{
    point.ccc == 0 && point.offset == offset && point.first
}

/// Puts the bytes of a code point behind `text`; `false` where there is no room, or it is no scalar
/// value.
#[inline(always)]
fn push_code_point(text: &mut ArrayVec<u8, ROOM>, cp: u32) -> bool
    ensures pushed { result ≡ true → text.new.items ≡ text.old.items ++ encode_utf8 cp }
{
    if cp < 128 {
        return text.try_push(cp as u8).is_ok();
    }
    let Some(c) = char::from_u32(cp) else {
        return false;
    };
    let mut bytes = [0; 4];
    text.try_extend_from_slice(c.encode_utf8(&mut bytes).as_bytes())
        .is_ok()
}

impl Finder {
    /// Whether no key waits, and the last element that was variable or primary was not variable.
    fn is_idle(&self) -> bool
        ensures state { result ≡ true → self.now.matcher.walk.state ≡ 0 }
        ensures flag { result ≡ true → is_after_variable self.now.matcher.weigher ≡ false }
    {
        self.matcher.walk.state == 0 && !self.matcher.weigher.after_variable()
    }

    /// Whether the window seems to hold whole characters: its first and its last point are each the
    /// first of one. Of Hangul the last point mostly is not, and that is soon seen so.
    fn may_hold_text(&self) -> bool {
        let len = self.window.len();
        if len == 0 {
            return false;
        }
        let first = self.window.point(0);
        first.ccc == 0 && first.first && self.window.point(len - 1).first
    }

    /// Puts the characters that the window holds into `text`, which is empty before. `false` where it
    /// holds none, or a point that is no starter or not all of its character, where these do not stand
    /// one after the other up to the byte offset `end`, or where a point waits.
    fn held_text(&self, end: u64, text: &mut ArrayVec<u8, ROOM>) -> bool
        requires end { end ≤ most_bytes }
        requires empty { text.old.items ≡ [] }
        ensures held { result ≡ true → HoldsText self.now end text.new.items }
    {
        let len = self.window.len();
        if len == 0 || !self.reorder.waiting().is_empty() {
            return false;
        }
        let start = self.window.point(0).offset;
        if start > end {
            return false;
        }
        for i in 0..len {
            let point = self.window.point(i);
            if !is_starter_at(point, start + text.len() as u64) {
                return false;
            }
            if !push_code_point(text, point.cp) {
                return false;
            }
        }
        start + text.len() as u64 == end
    }

    /// Puts these characters, and a piece that stands at a byte offset, into `text`, which is empty
    /// before. It answers how many bytes stand before the piece; `None` where `held_text` says no, or
    /// where there is no room.
    fn join_held(&self, piece: &[u8], offset: u64, text: &mut ArrayVec<u8, ROOM>) -> Option<usize>
        requires offset { offset ≤ most_bytes }
        requires empty { text.old.items ≡ [] }
        ensures joined { IfSome result (λ held. (bytes : List ℕ)
            × HoldsText self.now offset bytes
            × (length bytes ≡ held)
            × (text.new.items ≡ bytes ++ piece.now)) }
    {
        if !self.held_text(offset, text) {
            return None;
        }
        let held = text.len();
        let Ok(()) = text.try_extend_from_slice(piece) else {
            return None;
        };
        Some(held)
    }

    /// What may be passed by at the front of a short piece, with the characters that the window holds
    /// before it, before which no key waits. `None` for any other piece, for one of few bytes, and
    /// where some are due to be walked over first.
    pub(crate) fn pass_short<W: Weights>(
        &self,
        query: &Query<'_, W>,
        cache: &mut Cache,
        front: Front<'_>,
    ) -> Option<PassedShort>
        requires open { self.now.window.has_ended ≡ false }
        requires fits { front.offset + length front.piece.now ≤ most_bytes }
        requires right { IsCacheRight (W.table query.now.table.now) query.now.pattern.now cache.old }
        ensures passes { IfSome result
            (MayPassShort (W.table query.now.table.now) query.now.pattern.now self.now front.entry) }
        ensures right { IsCacheRight (W.table query.now.table.now) query.now.pattern.now cache.new }
    {
        laws_of_characters();
        laws_of_points();
        laws_of_reordering();
        if front.reach < WORTH || cache.skip.pace.due() > 0 || !self.may_hold_text() {
            return None;
        }
        if !self.is_idle() {
            return None;
        }
        let mut room = ArrayVec::new();
        let held = self.join_held(front.piece, front.offset, &mut room)?;
        let text = room.as_slice();
        let start = front.offset - held as u64;
        if start == 0 {
            return None;
        }
        let first = first_character(text)?;
        if !is_starter(query, &mut cache.letters, first) {
            return None;
        }
        let reach = front.reach.saturating_add(held);
        let Some(passed) = cache.skip(query, text, first, reach, start) else {
            cache.skip.pace.wait_from(0);
            return None;
        };
        if passed.end < held {
            cache.skip.pace.lose(held);
            cache.skip.pace.wait_from(0);
            return None;
        }
        cache.skip.pace.wait_from(0);
        Some(PassedShort {
            start: start + passed.start as u64,
            end: Walked {
                len: passed.end - held,
                next: passed.next,
                letter: passed.letter,
            },
        })
    }

    /// Takes what is passed by at the front of a short piece, and goes on behind it. It answers how
    /// many bytes it took.
    pub(crate) fn take_short_piece<W: Weights, F: FnMut(u64, u64)>(
        &mut self,
        query: &Query<'_, W>,
        cache: &mut Cache,
        front: Front<'_>,
        passed: PassedShort,
        found: &mut Found,
        sink: &mut F,
    ) -> usize
        requires ready { IsReady (W.table query.now.table.now) query.now.pattern.now self.old }
        requires right { IsCacheRight (W.table query.now.table.now) query.now.pattern.now cache.old }
        requires fits { front.offset + length front.piece.now ≤ most_bytes }
        requires callable { F.IsAlwaysCallable sink.old }
        requires passes { MayPassShort (W.table query.now.table.now) query.now.pattern.now self.old
            front passed }
        ensures taken { HandsOut F.step sink.old sink.new
            (TakesText (W.table query.now.table.now) query.now.pattern.now self.old self.new
            front.entry result) }
        ensures right { IsCacheRight (W.table query.now.table.now) query.now.pattern.now cache.new }
        ensures callable { F.IsAlwaysCallable sink.new }
    {
        laws_of_points();
        self.window.clear();
        self.matcher.walk.pass_to(passed.start);
        let len = passed.end.len;
        let rest = Front {
            piece: &front.piece[len..],
            offset: front.offset + len as u64,
            reach: front.reach - len,
            ..front
        };
        let from = Walked {
            len: 0,
            ..passed.end
        };
        len + self.go_on(query, cache, rest, from, found, sink)
    }
}
