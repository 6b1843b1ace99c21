//! The pause before letters: what the window holds is cut, as if the text ended there. Its points are
//! walked over as letters up to the first one that is no plain letter, and the rest as units.
ghost use Rattle.std.specs.Prelude.{◌≡◌, ◌≤◌, All, [], length, take, false, IfSome, true};
ghost use Rattle.nfd_points.specs.Reordering.{IsSoundPoint};
ghost use Rattle.collation_finder.specs.TakenAtOnce.{AreClosedHere, AreDecomposed};
ghost use Rattle.collation_finder.specs.Pausing.{IsPlainPoint, CutsSome, Pauses};
ghost use Rattle.collation_elements.specs.Units.{units};
ghost use Rattle.collation_letters.specs.Store.{AreLetters};
ghost use Rattle.collation_walk.specs.HandingOut.{HandsOut};
ghost use Rattle.collation_walk.specs.Walked.{HasWalkedOn};
ghost use Rattle.collation_walk.specs.Walks.{KeepsWalk};
ghost use Rattle.collation_finder.specs.Finding.{IsReady, StaysOpen};

use crate::cutting::push_points;
use crate::finder::Finder;
use arrayvec::ArrayVec;
use collation_elements::Window;
use collation_letters::{Letter, Letters, Role, laws_of_characters};
use collation_table::Weights;
use collation_walk::{Found, Matcher, Query, hand_out, walk_letter};
use nfd_points::laws::{laws_of_points, laws_of_reordering};
use nfd_points::{MOST_GIVEN, Point};

/// Moves the points of a window, which it empties, into `points`, which is emptied before.
fn move_points(window: &mut Window, points: &mut ArrayVec<Point, MOST_GIVEN>)
    requires few { length window.old.points ≤ MOST_GIVEN }
    ensures points { points.new.items ≡ window.old.points }
    ensures emptied { window.new
        ≡ record { points = []; capacity = window.old.capacity; has_ended = false } }
{
    points.clear();
    for i in 0..window.len() {
        points.push(window.point(i));
    }
    window.clear();
}

/// The letter of a point that is a starter and the first of its character's decomposition, if it is a
/// plain one. It is that of the point's own code point, which is all of what that decomposes to.
fn plain_letter<W: Weights>(
    query: &Query<'_, W>,
    letters: &mut Letters,
    point: Point,
) -> Option<Letter>
    requires sound { IsSoundPoint point }
    requires right { AreLetters (W.table query.now.table.now) query.now.pattern.now letters.old }
    ensures plain { IfSome result
        (IsPlainPoint (W.table query.now.table.now) query.now.pattern.now point) }
    ensures right { AreLetters (W.table query.now.table.now) query.now.pattern.now letters.new }
{
    if point.ccc != 0 || !point.first {
        return None;
    }
    let c = char::from_u32(point.cp)?;
    let letter = letters.letter(query.table, query.pattern, c);
    match letter.role {
        Role::Plain => Some(letter),
        _ => None,
    }
}

/// Walks over the points of a window that are plain letters, up to the first one that is not, and
/// calls the sink once for each range that became known, in order. It answers over how many it walked.
fn walk_points<W: Weights, F: FnMut(u64, u64)>(
    matcher: &mut Matcher,
    query: &Query<'_, W>,
    letters: &mut Letters,
    window: &Window,
    sink: &mut F,
) -> usize
    requires state { matcher.old.walk.state ≤ length query.now.pattern.now.keys }
    requires sound { All IsSoundPoint window.now.points }
    requires right { AreLetters (W.table query.now.table.now) query.now.pattern.now letters.old }
    requires callable { F.IsAlwaysCallable sink.old }
    ensures within { result ≤ length window.now.points }
    ensures closed { AreDecomposed window.now.points
        → AreClosedHere (W.table query.now.table.now) (take result window.now.points) }
    ensures walked { HandsOut F.step sink.old sink.new (λ ranges. AreDecomposed window.now.points
        → HasWalkedOn (W.table query.now.table.now) query.now.pattern.now matcher.old matcher.new
        (units (W.table query.now.table.now) (take result window.now.points)) ranges) }
    ensures keeps { KeepsWalk query.now.pattern.now matcher.old.walk matcher.new.walk }
    ensures right { AreLetters (W.table query.now.table.now) query.now.pattern.now letters.new }
    ensures callable { F.IsAlwaysCallable sink.new }
{
    laws_of_characters();
    let mut len = 0;
    'points: while len < window.len() {
        let point = window.point(len);
        let Some(letter) = plain_letter(query, letters, point) else {
            break;
        };
        walk_letter(matcher, query, &letter, point.offset, sink);
        len += 1;
    }
    len
}

impl Finder {
    /// Cuts all that it holds, as if the text ended here, and calls the sink once for each range
    /// that became known, in order. `found` is room that it uses.
    pub(crate) fn pause<W: Weights, F: FnMut(u64, u64)>(
        &mut self,
        query: &Query<'_, W>,
        letters: &mut Letters,
        found: &mut Found,
        sink: &mut F,
    )
        requires ready { IsReady (W.table query.now.table.now) query.now.pattern.now self.old }
        requires right { AreLetters (W.table query.now.table.now) query.now.pattern.now letters.old }
        requires callable { F.IsAlwaysCallable sink.old }
        ensures paused { HandsOut F.step sink.old sink.new
            (Pauses (W.table query.now.table.now) query.now.pattern.now self.old self.new) }
        ensures none_waits { self.new.reorder.held ≡ [] }
        ensures goes_on { StaysOpen self.old self.new }
        ensures right { AreLetters (W.table query.now.table.now) query.now.pattern.now letters.new }
        ensures callable { F.IsAlwaysCallable sink.new }
    {
        laws_of_reordering();
        self.cut_letters(query, letters, sink);
        if self.holds_no_point() {
            return;
        }
        found.clear();
        self.end(query.table, query.pattern, found);
        hand_out(found.as_slice(), sink);
        self.window.clear();
    }

    /// Whether no point waits, and none stands in the window.
    fn holds_no_point(&self) -> bool
        ensures waits { result ≡ true → self.now.reorder.held ≡ [] }
        ensures left { result ≡ true → self.now.window.points ≡ [] }
    {
        self.window.len() == 0 && self.reorder.waiting().is_empty()
    }

    /// Cuts the points of the window that are plain letters, up to the first one that is not, and
    /// calls the sink once for each range that became known, in order. A window of more points than
    /// there is room for stays as it is.
    fn cut_letters<W: Weights, F: FnMut(u64, u64)>(
        &mut self,
        query: &Query<'_, W>,
        letters: &mut Letters,
        sink: &mut F,
    )
        requires ready { IsReady (W.table query.now.table.now) query.now.pattern.now self.old }
        requires right { AreLetters (W.table query.now.table.now) query.now.pattern.now letters.old }
        requires callable { F.IsAlwaysCallable sink.old }
        ensures cut { HandsOut F.step sink.old sink.new
            (CutsSome (W.table query.now.table.now) query.now.pattern.now self.old self.new) }
        ensures goes_on { StaysOpen self.old self.new }
        ensures right { AreLetters (W.table query.now.table.now) query.now.pattern.now letters.new }
        ensures callable { F.IsAlwaysCallable sink.new }
    {
        laws_of_points();
        laws_of_reordering();
        if self.window.len() > MOST_GIVEN {
            return;
        }
        let len = walk_points(&mut self.matcher, query, letters, &self.window, sink);
        if len == 0 {
            return;
        }
        if len == self.window.len() {
            self.window.clear();
            return;
        }
        move_points(&mut self.window, &mut self.given);
        push_points(&mut self.window, &self.given.as_slice()[len..]);
    }
}
