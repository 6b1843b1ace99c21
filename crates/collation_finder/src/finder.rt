//! Finds the ranges of a text whose characters come one by one.
ghost use Rattle.std.specs.Prelude.{◌≡◌, ◌+◌, ◌≤◌, length, All, true};
ghost use Rattle.unicode_normalization.specs.StreamSafe.{has_short_runs};
ghost use Rattle.nfd_points.specs.Reordering.{IsSoundPoint, code_points, is_closed};
ghost use Rattle.nfd_points.specs.declared.limits.TheConstants.{MOST_GIVEN, MOST_WAITING};
ghost use Rattle.collation_table.specs.declared.limits.TheConstants.{MOST_STRING_POINTS};

use crate::cutting::{cut_units, push_points};
use arrayvec::ArrayVec;
use collation_elements::{
    Item, MOST_ITEMS, Weigher, Window, closed_points_append, decided_units_stay,
};
use collation_matches::Select;
use collation_pattern::Pattern;
use collation_table::{MOST_STRING_POINTS, Weights};
use collation_walk::{Found, Matcher, Walk, keep};
use nfd_points::laws::{
    laws_of_decompositions, laws_of_faults, laws_of_ordering, laws_of_reordering, laws_of_runs,
};
use nfd_points::{MOST_GIVEN, Point, PointFault, Reorder};
use std::alloc::{AllocError, Global};

/// Takes the characters of a text one by one, and finds its ranges.
#[derive(Drop)]
pub struct Finder {
    pub reorder: Reorder,
    pub window: Window,
    pub matcher: Matcher,
    /// What the reorderer gave last, and the items of the last unit. Their room is used again and again.
    pub(crate) given: ArrayVec<Point, MOST_GIVEN>,
    /// It stands on the heap, so that a finder that is moved, as into the box of a search, does not carry it.
    pub items: Box<ArrayVec<Item, MOST_ITEMS>>,
    ghost short: { window.capacity ≤ MOST_STRING_POINTS + MOST_GIVEN },
    ghost undecided: { length window.points + MOST_GIVEN ≤ window.capacity },
    ghost closed: { is_closed window.points ≡ true },
    ghost sound: { All IsSoundPoint window.points },
    ghost short_runs: { has_short_runs 0 (code_points window.points) ≡ true },
    ghost state: { matcher.walk.state ≤ matcher.walk.places.capacity },
}

impl Finder {
    ghost use Rattle.std.specs.Prelude.{◌≡◌, ℕ, ◌+◌, ◌<◌, ◌≤◌, List, [], ◌∷◌, ◌++◌, length, IfOk, OnOk, OnErr, IfErr, Ok, Some, None, true, false};
    ghost use Rattle.arrayvec.specs.ArrayVec.{array_vec_len};
    ghost use Rattle.nfd_points.specs.Points.{byte_len};
    ghost use Rattle.nfd_points.specs.PointFaults.{point_fault};
    ghost use Rattle.collation_table.specs.Table.{TableMap, longest_mapped as longest_key_of};
    ghost use Rattle.collation_elements.specs.Windows.{is_decided};
    ghost use Rattle.collation_finder.specs.Finding.{EndsText, FinderStandsFor, IsReady, KeepsSetup, StaysOpen};
    ghost use Rattle.collation_finder.specs.Taking.{TakesBehind};
    ghost use Rattle.collation_elements.specs.Clusters.{clusters_from};
    ghost use Rattle.collation_matches.specs.ByClusters.{text_begin, found as all_found};
    ghost use Rattle.collation_matches.specs.Selecting.{selected};
    ghost use Rattle.collation_walk.specs.Walks.{WalksOver};

    /// A finder at the beginning of a text.
    pub fn new<W: Weights>(
        alloc: Global,
        table: &W,
        pattern: &Pattern,
        select: Select,
    ) -> Result<Finder, AllocError>
        ensures stands { IfOk result
            (λ f. FinderStandsFor (W.table table.now) pattern.now f [] []) }
        ensures ready { IfOk result (IsReady (W.table table.now) pattern.now) }
        ensures empty { IfOk result (λ f. f.window.points ≡ []) }
        ensures select { IfOk result (λ f. f.matcher.walk.select ≡ select) }
    {
        Ok(Finder {
            reorder: Reorder::new(alloc),
            window: Window::with_capacity(alloc, table.longest_key())?,
            matcher: Matcher {
                weigher: Weigher::new(pattern.strength(), pattern.variable()),
                walk: Walk::new(alloc, pattern, select)?,
            },
            given: ArrayVec::new(),
            items: Box::new(alloc, ArrayVec::new())?,
        })
    }

    /// Goes back to the beginning of a text.
    pub fn begin_again(&mut self, alloc: Global, pattern: &Pattern)
        requires { self.old.matcher.walk.places.capacity ≡ length pattern.now.keys }
        ensures stands { (table : TableMap) → FinderStandsFor table pattern.now self.new [] [] }
        ensures empty { self.new.window.points ≡ [] }
        ensures goes_on { StaysOpen self.old self.new }
    {
        self.reorder = Reorder::new(alloc);
        self.window.clear();
        self.matcher.weigher = Weigher::new(pattern.strength(), pattern.variable());
        self.matcher.walk.begin_again(pattern);
    }

    /// Takes the next character, which stands at a byte offset, and puts the ranges that became known into `found`.
    ///
    /// # Errors
    ///
    /// That of the reorderer; then nothing was found, and it represents what it did before.
    pub fn take<W: Weights>(
        &mut self,
        table: &W,
        pattern: &Pattern,
        c: char,
        offset: u64,
        found: &mut Found,
    ) -> Result<(), PointFault>
        requires ready { IsReady (W.table table.now) pattern.now self.old }
        requires empty { found.old.items ≡ [] }
        // whatever it stood for; the points left are those of which no unit is decided, but for units that were cut early
        ensures taken { OnOk result
            (TakesBehind (W.table table.now) pattern.now self.old self.new (Some c)
            offset (c ∷ []) found.new.items) }
        ensures kept { (taken : List ℕ) (ranges : List _)
            → FinderStandsFor (W.table table.now) pattern.now self.old taken ranges
            → OnErr result (FinderStandsFor (W.table table.now) pattern.now self.new taken ranges) }
        ensures fault { (taken rest : List ℕ) (ranges : List _)
            → FinderStandsFor (W.table table.now) pattern.now self.old taken ranges
            → IfErr result (λ f. point_fault (taken ++ c ∷ rest) ≡ Some (byte_len taken, f.kind)) }
        ensures undecided { OnOk result (is_decided (W.table table.now) self.new.window ≡ false) }
        ensures apart { self.old.reorder.held ≡ [] → result ≡ Ok tt }
        ensures kind { IfErr result (λ f. f.kind ≡ 32) }
        ensures ascii { c < 128 → result ≡ Ok tt }
        ensures none { OnErr result (found.new.items ≡ []) }
        ensures few { array_vec_len found.new ≤ longest_key_of (W.table table.now) + MOST_GIVEN }
        ensures goes_on { StaysOpen self.old self.new }
    {
        closed_points_append();
        decided_units_stay();
        laws_of_decompositions();
        laws_of_faults();
        laws_of_ordering();
        laws_of_reordering();
        laws_of_runs();
        self.reorder.push(c, offset, &mut self.given)?;
        push_points(&mut self.window, self.given.as_slice());
        cut_units(
            table,
            pattern,
            &mut self.window,
            &mut self.matcher,
            &mut *self.items,
            found,
        );
        Ok(())
    }

    /// Ends the text here: puts the ranges that end before its last cluster and were not handed out yet into `found`.
    pub fn end<W: Weights>(&mut self, table: &W, pattern: &Pattern, found: &mut Found)
        requires ready { IsReady (W.table table.now) pattern.now self.old }
        requires empty { found.old.items ≡ [] }
        ensures ended { EndsText (W.table table.now) pattern.now self.old self.new found.new.items }
        ensures none_waits { self.new.reorder.held ≡ [] }
        ensures none_left { self.new.window.points ≡ [] }
        ensures few { array_vec_len found.new ≤ longest_key_of (W.table table.now) + MOST_WAITING }
        ensures setup { KeepsSetup self.old self.new }
    {
        self.reorder.finish(&mut self.given);
        push_points(&mut self.window, self.given.as_slice());
        self.window.end();
        cut_units(
            table,
            pattern,
            &mut self.window,
            &mut self.matcher,
            &mut *self.items,
            found,
        );
    }

    /// Ends the text here, as `end` does. Nothing is asked of it then but its last range, and to begin again.
    pub fn end_text<W: Weights>(&mut self, table: &W, pattern: &Pattern, found: &mut Found)
        requires ready { IsReady (W.table table.now) pattern.now self.old }
        requires empty { found.old.items ≡ [] }
        ensures ended { EndsText (W.table table.now) pattern.now self.old self.new found.new.items }
        ensures few { array_vec_len found.new ≤ longest_key_of (W.table table.now) + MOST_WAITING }
        ensures goes_on { StaysOpen self.old self.new }
    {
        self.end(table, pattern, found);
        self.window.clear();
    }

    /// Puts the range that ends with the last cluster, at the byte offset `end`, after those found, if one does.
    pub fn last(&self, pattern: &Pattern, end: u64, found: &mut Found)
        requires { array_vec_len found.old < 128 }
        ensures { (items : List _) (ranges : List _)
            → WalksOver pattern.now.keys items (ranges ++ found.old.items) self.now.matcher.walk
            → ranges ++ found.new.items
            ≡ selected self.now.matcher.walk.select
            (all_found pattern.now.keys (clusters_from text_begin items) end) }
    {
        let range = self.matcher.walk.end(pattern, end);
        keep(found, range);
    }
}
