//! The end of a piece: characters of ASCII behind its letters, whose points come into the window at
//! once.
ghost use Rattle.std.specs.Prelude.{◌≡◌, ◌+◌, ◌<◌, ◌≤◌, All, length, take, true, slice_index, [], slice_get};
ghost use Rattle.std.specs.Str.{IsAscii, chars, IsUtf8};
ghost use Rattle.unicode_normalization.specs.StreamSafe.{has_short_runs};
ghost use Rattle.nfd_points.specs.Points.{points_from};
ghost use Rattle.nfd_points.specs.Reordering.{IsSoundPoint, code_points, is_closed};
ghost use Rattle.collation_matches.specs.GoodPrefix.{most_bytes};
ghost use Rattle.collation_finder.specs.Finding.{IsReady, StaysOpen};
ghost use Rattle.collation_finder.specs.Taking.{TakesBehind};

use crate::cutting::{cut_units, push_points};
use crate::finder::Finder;
use arrayvec::ArrayVec;
use collation_elements::{closed_points_append, decided_units_stay};
use collation_table::Weights;
use collation_walk::{Found, Query};
use nfd_points::laws::{laws_of_decompositions, laws_of_points, laws_of_reordering, laws_of_runs};
use nfd_points::{MOST_GIVEN, Point};
use utf8_cut::ascii_len;

/// Puts the points of the characters of ASCII at the front of a piece, which stands at a byte
/// offset, into `points`: as many as there is room for. `points` is emptied before. It answers how
/// many points these are.
fn ascii_points(piece: &[u8], offset: u64, points: &mut ArrayVec<Point, MOST_GIVEN>) -> usize
    requires fits { offset + length piece.now ≤ most_bytes }
    ensures within { result ≤ length piece.now }
    ensures ascii { IsAscii (take result piece.now) }
    ensures points { points.new.items ≡ points_from offset (take result piece.now) }
    ensures count { length points.new.items ≡ result }
    ensures some { 0 < length piece.now → slice_index piece.now 0 < 128 → 0 < result }
    ensures few { result ≤ MOST_GIVEN }
    ensures closed { is_closed points.new.items ≡ true }
    ensures sound { All IsSoundPoint points.new.items }
    ensures short { has_short_runs 0 (code_points points.new.items) ≡ true }
{
    closed_points_append();
    laws_of_decompositions();
    laws_of_points();
    laws_of_runs();
    points.clear();
    let most = piece.len().min(MOST_GIVEN);
    let count = ascii_len(&piece[..most]);
    let mut len = 0;
    while len < count {
        points.push(Point {
            cp: u32::from(piece[len]),
            ccc: 0,
            offset: offset + len as u64,
            first: true,
        });
        len += 1;
    }
    len
}

impl Finder {
    /// Takes characters of ASCII at the front of a piece, which stands at a byte offset: as many as
    /// there is room for, and none where a point waits. It puts the ranges that became known into
    /// `found`, which is emptied before, and answers how many characters it took. It may also go on
    /// behind a pause.
    pub fn take_ascii<W: Weights>(
        &mut self,
        query: &Query<'_, W>,
        piece: &[u8],
        offset: u64,
        found: &mut Found,
    ) -> usize
        requires ready { IsReady (W.table query.now.table.now) query.now.pattern.now self.old }
        requires fits { offset + length piece.now ≤ most_bytes }
        ensures within { result ≤ length piece.now }
        ensures text { IsUtf8 (take result piece.now) }
        ensures ascii { IsAscii (take result piece.now) }
        ensures taken { TakesBehind (W.table query.now.table.now) query.now.pattern.now
            self.old self.new (slice_get (take result piece.now) 0)
            offset (chars (take result piece.now)) found.new.items }
        ensures some { self.old.reorder.held ≡ [] → 0 < length piece.now
            → slice_index piece.now 0 < 128 → 0 < result }
        ensures goes_on { StaysOpen self.old self.new }
    {
        closed_points_append();
        decided_units_stay();
        laws_of_decompositions();
        laws_of_points();
        laws_of_reordering();
        laws_of_runs();
        found.clear();
        if !self.reorder.waiting().is_empty() {
            return 0;
        }
        let len = ascii_points(piece, offset, &mut self.given);
        push_points(&mut self.window, self.given.as_slice());
        cut_units(
            query.table,
            query.pattern,
            &mut self.window,
            &mut self.matcher,
            &mut *self.items,
            found,
        );
        len
    }
}
