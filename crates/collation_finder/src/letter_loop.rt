//! The loop over letters: characters whose units, keys and cluster starts are their own, one after the other.
ghost use Rattle.std.specs.Prelude.{◌≡◌, ◌+◌, ◌-◌, ◌≤◌, length, take, drop, IfSome};
ghost use Rattle.std.specs.Str.{chars};
ghost use Rattle.collation_letters.specs.Store.{AreLetters};
ghost use Rattle.collation_matches.specs.GoodPrefix.{most_bytes};
ghost use Rattle.collation_finder.specs.Caches.{IsCacheRight};
ghost use Rattle.collation_finder.specs.LetterRun.{IsFirstLetter, IsFollowed, HasWalkedTo, IsJoined, MayPassBy, PassesOn, WalksOn};
ghost use Rattle.collation_walk.specs.HandingOut.{HandsOut};
ghost use Rattle.collation_walk.specs.Walks.{KeepsWalk};

use crate::cache::Cache;
use crate::reading::with_mark;
use collation_letters::{Letter, Letters, is_next, laws_of_characters};
use collation_table::Weights;
use collation_walk::{Matcher, Query, walk_letter};
use utf8_cut::sized_character;

/// The fewest bytes up to `reach` that are worth a look whether they may be passed by: fewer are walked over sooner.
const SHORTEST: usize = 8;

/// A character and the marks behind it, or what was walked over.
#[derive(Clone, Copy)]
pub(crate) struct Walked {
    /// How many bytes they have.
    pub(crate) len: usize,
    /// The character that follows, and its letter.
    pub(crate) next: char,
    pub(crate) letter: Letter,
}

/// What is left of a piece, and how far letters of it are taken.
#[derive(Clone, Copy)]
pub struct Front<'a> {
    pub piece: &'a [u8],
    /// Where it stands, in bytes from the beginning of the text.
    pub offset: u64,
    /// The place of the last character that may be taken by letters, in bytes from its own beginning.
    pub reach: usize,
    /// Whether letters end behind the first range that one of them hands out, for a caller that wants no other one.
    pub one_range: bool,
}

/// Walks over characters at the front of a piece, of which the first is the one that follows `from`, as long as no unit reaches from one
/// to the next, and that does not begin after `reach`; text in which no match can lie is passed by. It answers how many bytes these have,
/// and the character that follows.
#[inline(never)]
pub(crate) fn walk_letters<W: Weights, F: FnMut(u64, u64)>(
    matcher: &mut Matcher,
    query: &Query<'_, W>,
    cache: &mut Cache,
    front: Front<'_>,
    from: Walked,
    sink: &mut F,
) -> Walked
    requires first { IsFirstLetter (W.table query.now.table.now) query.now.pattern.now
        front.piece.now front.offset from.next from.letter }
    requires right { IsCacheRight (W.table query.now.table.now) query.now.pattern.now cache.old }
    requires fits { front.offset + length front.piece.now ≤ most_bytes }
    requires state { matcher.old.walk.state ≤ length query.now.pattern.now.keys }
    requires callable { F.IsAlwaysCallable sink.old }
    ensures come { HandsOut F.step sink.old sink.new
        (HasWalkedTo (W.table query.now.table.now) query.now.pattern.now
        front.entry from.next matcher.old matcher.new result) }
    ensures right { IsCacheRight (W.table query.now.table.now) query.now.pattern.now cache.new }
    ensures keeps { KeepsWalk query.now.pattern.now matcher.old.walk matcher.new.walk }
    ensures callable { F.IsAlwaysCallable sink.new }
{
    laws_of_characters();
    let mut here = Walked {
        len: 0,
        next: from.next,
        letter: from.letter,
    };
    // the next character begins after `reach`: none is walked over
    if front.reach < from.next.len_utf8() {
        return here;
    }
    let mut due = cache.skip.pace.due();
    'runs: loop {
        let (walked, is_due) = walk_run(matcher, query, &mut cache.letters, front, here, due, sink);
        if !is_due {
            return walked;
        }
        here = pass_by(matcher, query, cache, front, walked);
        due = cache.skip.pace.wait_from(here.len);
    }
}

/// Walks over characters of a piece from the one that follows `from` on, as [`walk_letters`] does. It answers how many bytes these have with
/// those before, the character that follows, and whether text may be passed by from there on, which is behind `due` bytes or more, where no
/// key waits, and `SHORTEST` bytes or more before `reach`.
#[inline(always)]
fn walk_run<W: Weights, F: FnMut(u64, u64)>(
    matcher: &mut Matcher,
    query: &Query<'_, W>,
    letters: &mut Letters,
    front: Front<'_>,
    from: Walked,
    due: usize,
    sink: &mut F,
) -> (Walked, bool)
    requires followed { IsFollowed (W.table query.now.table.now) query.now.pattern.now
        front.piece.now from }
    requires right { AreLetters (W.table query.now.table.now) query.now.pattern.now letters.old }
    requires fits { front.offset + length front.piece.now ≤ most_bytes }
    requires state { matcher.old.walk.state ≤ length query.now.pattern.now.keys }
    requires callable { F.IsAlwaysCallable sink.old }
    ensures walks { HandsOut F.step sink.old sink.new
        (WalksOn (W.table query.now.table.now) query.now.pattern.now
        front.entry matcher.old matcher.new from result) }
    ensures right { AreLetters (W.table query.now.table.now) query.now.pattern.now letters.new }
    ensures keeps { KeepsWalk query.now.pattern.now matcher.old.walk matcher.new.walk }
    ensures callable { F.IsAlwaysCallable sink.new }
{
    laws_of_characters();
    // the characters from `here.len` on to `end`, of which the first is `here.next`, have the letter `here.letter`
    let piece = front.piece;
    let mut here = from;
    let mut end = here.len + here.next.len_utf8();
    'characters: loop {
        let Some((next, len)) = sized_character(&piece[end..]) else {
            break;
        };
        let following = letters.letter(query.table, query.pattern, next);
        if !is_next(&here.letter, &following) {
            let (at, letter) = (here.len, here.letter);
            let Some(both) = join(query, letters, &letter, piece, at, end, next, &following) else {
                break;
            };
            here.letter = both;
            end += len;
            continue;
        }
        if end > front.reach {
            break;
        }
        let offset = front.offset + here.len as u64;
        let has_range = walk_letter(matcher, query, &here.letter, offset, sink);
        here = Walked {
            len: end,
            next,
            letter: following,
        };
        if has_range & front.one_range {
            return (here, false);
        }
        if end >= due
            && matcher.walk.state == 0
            && !matcher.weigher.after_variable()
            && front.reach - end >= SHORTEST
        {
            return (here, true);
        }
        end += len;
    }
    (here, false)
}

/// Passes by text at the front of what is left of a piece behind `from`, where no key waits. It answers how many bytes the characters
/// have that were walked over or passed by, and the character that follows.
#[inline(always)]
fn pass_by<W: Weights>(
    matcher: &mut Matcher,
    query: &Query<'_, W>,
    cache: &mut Cache,
    front: Front<'_>,
    from: Walked,
) -> Walked
    requires may { MayPassBy (W.table query.now.table.now) query.now.pattern.now
        front matcher.old from }
    requires right { IsCacheRight (W.table query.now.table.now) query.now.pattern.now cache.old }
    ensures passes { PassesOn (W.table query.now.table.now) query.now.pattern.now front.entry
        matcher.old matcher.new from result }
    ensures right { IsCacheRight (W.table query.now.table.now) query.now.pattern.now cache.new }
    ensures keeps { KeepsWalk query.now.pattern.now matcher.old.walk matcher.new.walk }
{
    laws_of_characters();
    let start = front.offset + from.len as u64;
    let rest = &front.piece[from.len..];
    let Some(skipped) = cache.skip(query, rest, from.next, front.reach - from.len, start) else {
        return from;
    };
    matcher.walk.pass_to(start + skipped.start as u64);
    Walked {
        len: from.len + skipped.end,
        next: skipped.next,
        letter: skipped.letter,
    }
}

/// The letter of the characters of a piece from `at` on to `end`, which have this letter, and the one that follows them, where they are one
/// unit: a mark that joins, or a mapped string of two characters; `None` where that is left to the steps. That the piece is given, and not
/// these characters alone, keeps the loop from noting where they begin.
#[inline(never)]
fn join<W: Weights>(
    query: &Query<'_, W>,
    letters: &mut Letters,
    letter: &Letter,
    piece: &[u8],
    at: usize,
    end: usize,
    next: char,
    following: &Letter,
) -> Option<Letter>
    requires within { (at ≤ end) × (end ≤ length piece.now) }
    requires right { AreLetters (W.table query.now.table.now) query.now.pattern.now letters.old }
    ensures joined { IfSome result (IsJoined (W.table query.now.table.now) query.now.pattern.now
        (chars (take (end - at) (drop at piece.now))) letter.now next following.now) }
    ensures right { AreLetters (W.table query.now.table.now) query.now.pattern.now letters.new }
{
    let so_far = &piece[at..end];
    if following.role.is_mark() {
        return with_mark(query, letters, so_far, letter, next, following);
    }
    let (first, len) = sized_character(so_far)?;
    if len != so_far.len() {
        return None;
    }
    let pair = letters.pair(query.table, query.pattern, first, next);
    if pair.role.is_steps() {
        None
    } else {
        Some(pair)
    }
}
