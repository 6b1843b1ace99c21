//! Resumes a search from the words of a saved state.

use crate::saving::sizes;
use crate::search::Search;
use collation_elements::clusters_are_parts;
use collation_matches::Select;
use collation_pattern::Pattern;
use collation_states::laws::laws_of_states;
use collation_states::{ReadState, StateFault, read};
use collation_table::Weights;
use nfd_points::laws::{laws_of_points, laws_of_reordering};
use std::alloc::Global;
use utf8_cut::{Cut, whole_characters_are_the_longest_text};

impl<'a, W: Weights> Search<'a, W> {
    ghost use Rattle.std.specs.Prelude.{◌≡◌, ℕ, ◌*◌, ◌≤◌, List, [], length, IfOk, OnOk, OnErr, IfErr, None, Some};
    ghost use Rattle.collation_matches.specs.declared.select.Select.TheVariants.{All as AllRanges};
    ghost use Rattle.collation_matches.specs.Sought.{seeking};
    ghost use Rattle.collation_states.specs.StateTests.{state_fault};
    ghost use Rattle.collation_states.specs.Reading.{state_in, Says};
    ghost use Rattle.collation_search.specs.Search.{sought, HasSearched};
    ghost use Rattle.collation_search.specs.State.{sizes_of};
    ghost use Rattle.collation_search.specs.Resuming.{IsResumedFrom, BeginsWithFault, IsRefused, KeepsSaved, AcceptsSaved};

    /// The search for all minimal matches that goes on from a state, as [`Search::resume_with`] gives it.
    ///
    /// # Errors
    ///
    /// Those of [`Search::resume_with`].
    pub fn resume(
        alloc: Global,
        table: &'a W,
        pattern: &'a Pattern,
        words: &[u64],
    ) -> Result<Self, StateFault>
        ensures goes_on { IfOk result
            (λ s. IsResumedFrom s
            (seeking (W.table table.now) pattern.now AllRanges) words.now) }
        ensures begins { IfOk result (λ s. BeginsWithFault s (state_in AllRanges words.now).fault) }
        ensures accepted { OnOk result
            (state_fault
            (sizes_of (seeking (W.table table.now) pattern.now AllRanges)) words.now ≡ None) }
        ensures refused { IfErr result
            (λ f. IsRefused
            (sizes_of (seeking (W.table table.now) pattern.now AllRanges)) words.now f.kind) }
        ensures kept { KeepsSaved result
            (seeking (W.table table.now) pattern.now AllRanges) words.now }
    {
        Search::resume_with(alloc, table, pattern, Select::All, words)
    }

    /// The search that goes on from a state: `words` are those that `save` appended, and the table, the pattern and which ranges
    /// are handed out are the same as then. It goes on exactly as the one that was saved; from a state that was saved after a
    /// fault it reports that fault. Of other words that pass the tests of a state nothing is said of the ranges.
    ///
    /// # Errors
    ///
    /// 51 where the words are no state, or one of the other form: the first form is of a search for all ranges, the second one of a
    /// search for a chain. 52 where they are one of another pattern, table, strength or variable weighting. 53 in place of a
    /// search alone, where [`Search::new_with`] was refused memory: that it is for no other reason no clause says.
    pub fn resume_with(
        alloc: Global,
        table: &'a W,
        pattern: &'a Pattern,
        select: Select,
        words: &[u64],
    ) -> Result<Self, StateFault>
        ensures goes_on { IfOk result
            (λ s. IsResumedFrom s
            (seeking (W.table table.now) pattern.now select) words.now) }
        ensures begins { IfOk result (λ s. BeginsWithFault s (state_in select words.now).fault) }
        ensures accepted { OnOk result
            (state_fault
            (sizes_of (seeking (W.table table.now) pattern.now select)) words.now ≡ None) }
        ensures refused { IfErr result
            (λ f. IsRefused
            (sizes_of (seeking (W.table table.now) pattern.now select)) words.now f.kind) }
        ensures kept { KeepsSaved result
            (seeking (W.table table.now) pattern.now select) words.now }
    {
        clusters_are_parts();
        laws_of_points();
        laws_of_reordering();
        laws_of_states();
        whole_characters_are_the_longest_text();
        let state = read(&sizes(table, pattern, select), words)?;
        let mut search = Search::new_with(alloc, table, pattern, select)?;
        search.go_on_from(&state);
        Ok(search)
    }

    /// Goes on from a state as [`Search::resume_with`] does, in place of the text before, also after a fault. What was found out of
    /// characters stays, so that they are found sooner. No memory is taken.
    ///
    /// # Errors
    ///
    /// 51 and 52 as [`Search::resume_with`] answers them. Then the search is as it was.
    pub fn resume_from(&mut self, words: &[u64]) -> Result<(), StateFault>
        ensures goes_on { OnOk result (IsResumedFrom self.new (sought self.old) words.now) }
        ensures begins { OnOk result
            (BeginsWithFault self.new (state_in (sought self.old).select words.now).fault) }
        ensures accepted { OnOk result (state_fault (sizes_of (sought self.old)) words.now ≡ None) }
        ensures refused { IfErr result
            (λ f. state_fault (sizes_of (sought self.old)) words.now ≡ Some f.kind) }
        ensures kept { AcceptsSaved W.Weights result (sought self.old) words.now }
        ensures unchanged { OnErr result (self.new ≡ self.old) }
    {
        clusters_are_parts();
        laws_of_points();
        laws_of_reordering();
        laws_of_states();
        whole_characters_are_the_longest_text();
        let sizes = sizes(
            self.query.table,
            self.query.pattern,
            self.finder.matcher.walk.select,
        );
        let state = read(&sizes, words)?;
        self.begin_again();
        self.go_on_from(&state);
        Ok(())
    }

    /// Goes on from what a state says, where it is at the beginning of a text.
    fn go_on_from(&mut self, state: &ReadState)
        requires new { HasSearched self.old [] [] }
        requires few_places { length state.now.places.now ≤ 4 *
            (sizes_of (sought self.old)).pattern_len }
        requires few_points { length state.now.window.items ≤
            (sizes_of (sought self.old)).longest_key }
        ensures goes_on { (words : List ℕ)
            → Says state.now (state_in (sought self.old).select words)
            → IsResumedFrom self.new (sought self.old) words }
        ensures begins { BeginsWithFault self.new state.now.fault }
    {
        clusters_are_parts();
        laws_of_points();
        laws_of_reordering();
        laws_of_states();
        whole_characters_are_the_longest_text();
        let pattern = self.query.pattern;
        self.cut = Cut::restore(state.taken, state.held.as_slice());
        self.finder.go_on_from(self.cache.alloc, pattern, state);
        self.fault = state.fault;
    }
}
