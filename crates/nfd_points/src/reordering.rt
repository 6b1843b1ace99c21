//! The reorderer: code points go in one at a time, points in canonical order come out.
ghost use Rattle.std.specs.Prelude.{◌≡◌, ◌↔◌, ℕ, ◌+◌, ◌<◌, ◌≤◌, nat_le, true, take_while, List, [], ◌∷◌, ◌++◌, length, All, None, Some, OnOk, OnErr, IfErr, MatchResult, Ok, IsTrue};
ghost use Rattle.arrayvec.specs.ArrayVec.{array_vec_len};
ghost use Rattle.unicode_normalization.specs.StreamSafe.{has_short_runs};
ghost use Rattle.nfd_points.specs.Points.{ascii_point, begins_with_starter, byte_len, points_at, points_of, points, ordered};
ghost use Rattle.nfd_points.specs.PointFaults.{run_after, fault_of_code_point, point_fault};
ghost use Rattle.nfd_points.specs.Reordering.{Waiting, code_points, IsSoundPoint, IsHeld, is_closed, HasReordered, rises_from};

use crate::decomposing::fault_of;
use crate::faults::PointFault;
use crate::limits::{MOST_GIVEN, MOST_WAITING};
use crate::points::{Point, is_plain};
use arrayvec::ArrayVec;
use std::alloc::Global;
use std::marker::Model;
use unicode_normalization::Form;
use unicode_normalization::char::decomposition;

/// Puts the code points of a text, one at a time, into the points of its NFD (UAX #15).
///
/// It holds the non-starters since the last starter, at most `MOST_WAITING`. No call takes memory.
#[derive(Debug, Drop)]
pub struct Reorder {
    waiting: ArrayVec<Point, MOST_WAITING>,
}

impl Model for Reorder {
    ghost Value = { Waiting };

    ghost view = { λ r. record { held = r.waiting.items } };

    ghost invariant = { λ r. IsHeld r.waiting.items };
}

impl Reorder {
    /// A reorderer at the beginning of a text.
    ///
    /// The decomposition of `unicode_normalization` that it uses takes no memory, so that `_alloc` is not kept.
    pub fn new(_alloc: Global) -> Self
        ensures held { result.held ≡ [] }
        ensures starts { HasReordered result [] [] }
    {
        Reorder {
            waiting: ArrayVec::new(),
        }
    }

    /// Takes the code point `c`, which stands at the byte `offset` of the text, counted from 0.
    ///
    /// `out` is emptied, and then holds the points that became final: where the decomposition of `c` has a starter,
    /// the points up to the last such starter, in canonical order. A code point below 80 hex is never at fault.
    ///
    /// # Errors
    ///
    /// `LONG_DECOMPOSITION`, and else `LONG_RUN`. Then nothing has changed and `out` is empty.
    pub fn push(
        &mut self,
        c: char,
        offset: u64,
        out: &mut ArrayVec<Point, MOST_GIVEN>,
    ) -> Result<(), PointFault>
        // a fault is answered exactly where one stands at `c`, with its kind
        ensures fault { MatchResult result
            (λ _. fault_of_code_point (length self.old.held) c ≡ None)
            (λ f. fault_of_code_point (length self.old.held) c ≡ Some f.kind) }
        ensures ascii { c < 128 → result ≡ Ok tt }
        ensures ascii_given { c < 128 → out.new.items ≡ self.old.held ++ ascii_point offset c ∷ [] }
        ensures pushed { OnOk result
            (out.new.items ++ self.new.held ≡ ordered (self.old.held ++ points_of offset c)) }
        ensures closed { is_closed out.new.items ≡ true }
        // no more than `MOST_WAITING` non-starters follow each other
        ensures short { has_short_runs 0 (code_points out.new.items) ≡ true }
        ensures held { IsHeld self.new.held }
        ensures sound { All IsSoundPoint out.new.items }
        ensures unchanged { OnErr result ((self.new ≡ self.old) × (out.new.items ≡ [])) }
        ensures few { length out.new.items ≤ MOST_GIVEN }
        // what it did with the text so far, it has now done with `c` after it
        ensures carries { (taken : List ℕ) (given : List Point) →
            HasReordered self.old taken given → offset ≡ byte_len taken →
            OnOk result (HasReordered self.new (taken ++ c ∷ []) (given ++ out.new.items)) }
        // where none waits no code point is at fault
        ensures none_waits { self.old.held ≡ [] → result ≡ Ok tt }
        // and one whose points begin with a starter begins anew, whatever came before it
        ensures afresh { (taken : List ℕ) → self.old.held ≡ [] → offset ≡ byte_len taken →
            begins_with_starter (points_of offset c) ≡ true → point_fault taken ≡ None →
            OnOk result (HasReordered self.new (taken ++ c ∷ []) (points taken ++ out.new.items)) }
        // the fault is the first one of the text, however it goes on
        ensures stops { (taken : List ℕ) (given : List Point) (rest : List ℕ)
            → HasReordered self.old taken given →
            IfErr result (λ f. point_fault (taken ++ c ∷ rest) ≡ Some (byte_len taken, f.kind)) }
    {
        empty(out);
        let run = self.waiting.len();
        if is_plain(c) {
            self.take(Point::plain(c, offset), out);
            return Ok(());
        }
        let mut room = [c; 3];
        let parts = decomposition(c, Form::Nfd, &mut room);
        if let Some(fault) = fault_of(run, parts) {
            return Err(fault);
        }
        self.take_all(parts, offset, out);
        Ok(())
    }

    /// Gives the points that wait, for the text ends here.
    ///
    /// `out` is emptied, and then holds them in canonical order. None waits afterwards.
    pub fn finish(&mut self, out: &mut ArrayVec<Point, MOST_GIVEN>)
        ensures given { out.new.items ≡ self.old.held }
        ensures held { self.new.held ≡ [] }
        ensures few { length out.new.items ≤ MOST_WAITING }
        ensures sound { All IsSoundPoint out.new.items }
        // with those given before, these are all points of the text
        ensures rest { (taken : List ℕ) (given : List Point) →
            HasReordered self.old taken given → points taken ≡ given ++ out.new.items }
    {
        out.clear();
        self.release(out);
    }

    /// The points that wait, which are non-starters in canonical order.
    pub fn waiting(&self) -> &[Point]
        ensures value { result.now ≡ self.now.held }
        ensures held { IsHeld self.now.held }
    {
        self.waiting.as_slice()
    }

    /// Whether these points may wait: at most `MOST_WAITING` non-starters, and no class below the one before it.
    pub fn may_wait(points: &[Point]) -> bool
        requires { All IsSoundPoint points.now }
        ensures { IsTrue result ↔ IsHeld points.now }
    {
        points.len() <= MOST_WAITING && rises_from(1, points)
    }

    /// The reorderer in which these points wait, as [`waiting`](Reorder::waiting) reported them for another.
    pub fn restore(_alloc: Global, waiting: &[Point]) -> Self
        requires { IsHeld waiting.now }
        ensures held { result.held ≡ waiting.now }
        ensures stands_for { (w : Waiting) (taken : List ℕ) (given : List Point) →
            HasReordered w taken given → w.held ≡ waiting.now → HasReordered result taken given }
    {
        let mut held = ArrayVec::new();
        held.try_extend_from_slice(waiting).unwrap();
        Reorder { waiting: held }
    }

    /// Takes the decomposition of one code point, which stands at the byte `offset`.
    fn take_all(&mut self, parts: &[char], offset: u64, out: &mut ArrayVec<Point, MOST_GIVEN>)
        requires room { array_vec_len out.old + length self.old.held + length parts.now ≤ MOST_GIVEN }
        requires short { has_short_runs (length self.old.held) parts.now ≡ true }
        requires held { IsHeld self.old.held }
        ensures held { IsHeld self.new.held }
        ensures moved { (rest : List Point) →
            out.old.items ++ ordered (self.old.held ++ (points_at offset true parts.now ++ rest)) ≡
            out.new.items ++ ordered (self.new.held ++ rest) }
        ensures closed { is_closed out.old.items ≡ true → is_closed out.new.items ≡ true }
        ensures sound { All IsSoundPoint out.old.items → All IsSoundPoint out.new.items }
        ensures len { array_vec_len out.new + length self.new.held ≡
            array_vec_len out.old + length self.old.held + length parts.now }
        ensures run { length self.new.held ≡ run_after (length self.old.held) parts.now }
    {
        let mut is_first = true;
        for part in parts {
            self.take(Point::new(*part, offset, is_first), out);
            is_first = false;
        }
    }

    /// Takes one point: a starter sends out the points that wait and then itself, a non-starter waits after those of
    /// its class or a lower one.
    #[inline(always)]
    fn take(&mut self, point: Point, out: &mut ArrayVec<Point, MOST_GIVEN>)
        requires room { array_vec_len out.old + length self.old.held < MOST_GIVEN }
        requires short { has_short_runs (length self.old.held) (point.cp ∷ []) ≡ true }
        requires sound { IsSoundPoint point }
        ensures held { IsHeld self.new.held }
        ensures moved { (rest : List Point) →
            out.old.items ++ ordered (self.old.held ++ point ∷ rest) ≡
            out.new.items ++ ordered (self.new.held ++ rest) }
        ensures closed { is_closed out.old.items ≡ true → is_closed out.new.items ≡ true }
        ensures sound { All IsSoundPoint out.old.items → All IsSoundPoint out.new.items }
        ensures len { array_vec_len out.new + length self.new.held ≡
            array_vec_len out.old + length self.old.held + 1 }
        ensures run { length self.new.held ≡ run_after (length self.old.held) (point.cp ∷ []) }
    {
        if point.ccc == 0 {
            self.release(out);
            out.push(point);
        } else {
            let place = place_after(self.waiting.as_slice(), point.ccc);
            self.waiting.insert(place, point);
        }
    }

    /// Appends the points that wait to `out`, so that none waits.
    #[inline]
    fn release(&mut self, out: &mut ArrayVec<Point, MOST_GIVEN>)
        requires { length self.old.held ≤ MOST_WAITING
            → array_vec_len out.old + length self.old.held ≤ MOST_GIVEN }
        ensures given { out.new.items ≡ out.old.items ++ self.old.held }
        ensures held { self.new.held ≡ [] }
        ensures was { IsHeld self.old.held }
    {
        if !self.waiting.is_empty() {
            out.try_extend_from_slice(self.waiting.as_slice()).unwrap();
            self.waiting.clear();
        }
    }
}

/// Empties `out`, which mostly holds one point.
#[inline(always)]
fn empty(out: &mut ArrayVec<Point, MOST_GIVEN>)
    ensures { out.new.items ≡ [] }
{
    if out.len() == 1 {
        out.pop();
    } else {
        out.clear();
    }
}

/// The place after the points from the first on whose class is at most `class`.
fn place_after(waiting: &[Point], class: u8) -> usize
    ensures value { result ≡ length (take_while (λ q. nat_le q.ccc class) waiting.now) }
    ensures fits { result ≤ length waiting.now }
{
    waiting.iter().take_while(|q| q.ccc <= class).count()
}

/// Whether each point has at least the class of the one before it, and the first at least `class`.
fn rises_from(mut class: u8, points: &[Point]) -> bool
    ensures { result ≡ rises_from class points.now }
{
    for point in points {
        if point.ccc < class {
            return false;
        }
        class = point.ccc;
    }
    true
}
