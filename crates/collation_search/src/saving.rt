//! Saves a search: what it holds as words, by which it can go on later.

ghost use Rattle.std.specs.Prelude.{◌≡◌, ℕ, List, ◌+◌, ◌++◌, ◌<◌, ◌≤◌, length, vec_len, vec_capacity, OnOk, OnErr};
ghost use Rattle.collation_matches.specs.Sought.{seeking};
ghost use Rattle.collation_states.specs.State.{head_of, place_words, point_words, words as state_words};
ghost use Rattle.collation_states.specs.Saving.{AreWordsAppended};
ghost use Rattle.collation_search.specs.State.{sizes_of, kept_places, saved_places, match_waits, state_of, words_of};
ghost use Rattle.collation_search.specs.Search.{sought};
ghost use Rattle.collation_search.specs.StateAfter.{state_after};
ghost use Rattle.collation_search.specs.Pieces.{IsUnderWay};
ghost use Rattle.collation_search.specs.Saving.{HasRecords, most_records};

use crate::search::Search;
use collation_elements::{Window, decided_units_stay};
use collation_matches::Select;
use collation_pattern::Pattern;
use collation_states::laws::laws_of_states;
use collation_states::{
    Head, Sizes, append_head, append_place, append_point, append_points, number_of, reported_head,
};
use collation_table::Weights;
use collation_walk::Walk;
use nfd_points::laws::laws_of_reordering;
use std::alloc::AllocError;

/// The sizes and the settings of what is looked for.
pub(crate) fn sizes<W: Weights>(table: &W, pattern: &Pattern, select: Select) -> Sizes
    ensures { result
        ≡ sizes_of (seeking (W.table table.now) pattern.now select) }
{
    Sizes {
        pattern_len: pattern.len(),
        longest_key: table.longest_key(),
        most_elements: table.most_elements(),
        strength: pattern.strength(),
        variable: pattern.variable(),
        select,
    }
}

impl<'a, W: Weights> Search<'a, W> {
    /// Appends what the search holds to `words`, as records of four words: at most as many as the pattern has keys and the
    /// table's longest key code points, and 35 more, or 36 of a search for a chain, however long the text so far is.
    ///
    /// # Errors
    ///
    /// Where memory was refused, for which it asks only where `words` has no room for the state; then `words` has what it had before.
    pub fn save(&self, words: &mut Vec<u64>) -> Result<(), AllocError>
        ensures saved { OnOk result (words.new.items ≡ words.old.items ++ words_of self.now) }
        ensures kept { OnErr result (words.new.items ≡ words.old.items) }
        ensures full { OnErr result
            (vec_capacity words.old < vec_len words.old + length (words_of self.now)) }
        ensures few { HasRecords (words_of self.now) (most_records (sought self.now)) }
        // the words are those of the state after the bytes taken, however these were cut, and whatever was saved and resumed before
        ensures state { (u : List ℕ) (handed : List (ℕ × ℕ))
            → IsUnderWay self.now (sought self.now) u handed
            → words_of self.now
            ≡ state_words (sizes_of (sought self.now)) (state_after (sought self.now) u) }
    {
        decided_units_stay();
        laws_of_reordering();
        let before = words.len();
        let saved = self.append_state(words);
        if saved.is_err() {
            words.truncate(before);
        }
        saved
    }

    /// Two searches for the same that have taken the same bytes agree, however these were cut into pieces and whatever was saved and
    /// resumed on the way: they have handed out the same ranges, and they save the same words.
    pub fn agrees_with(&self, other: &Self)
        ensures handed { (u : List ℕ) (mine theirs : List (ℕ × ℕ))
            → sought other.now ≡ sought self.now
            → IsUnderWay self.now (sought self.now) u mine
            → IsUnderWay other.now (sought other.now) u theirs → mine ≡ theirs }
        ensures words { (u : List ℕ) (mine theirs : List (ℕ × ℕ))
            → sought other.now ≡ sought self.now
            → IsUnderWay self.now (sought self.now) u mine
            → IsUnderWay other.now (sought other.now) u theirs
            → words_of self.now ≡ words_of other.now }
    {
        decided_units_stay();
        laws_of_reordering();
    }

    /// Appends the state.
    fn append_state(&self, words: &mut Vec<u64>) -> Result<(), AllocError>
        ensures saved { OnOk result (words.new.items ≡ words.old.items ++ words_of self.now) }
        ensures begun { OnErr result (AreWordsAppended words.old.items words.new.items) }
        ensures full { OnErr result
            (vec_capacity words.old < vec_len words.old + length (words_of self.now)) }
        ensures few { HasRecords (words_of self.now) (most_records (sought self.now)) }
    {
        let finder = &*self.finder;
        let sizes = sizes(
            self.query.table,
            self.query.pattern,
            finder.matcher.walk.select,
        );
        append_head(words, &sizes, &self.head(), self.last_end())?;
        if self.fault.is_some() {
            return Ok(());
        }
        append_places(words, &finder.matcher.walk)?;
        append_window(words, &finder.window)?;
        append_points(words, finder.reorder.waiting())?;
        Ok(())
    }

    /// Of a chain where the last range ends that was handed out; after a fault 0.
    fn last_end(&self) -> u64
        ensures { result
            ≡ (state_of self.now.query.pattern.now self.now.cut self.now.finder.value
            self.now.fault).last_end }
    {
        match self.fault {
            Some(_) => 0,
            None => self.finder.matcher.walk.last_end,
        }
    }

    /// The numbers of the first five records.
    fn head(&self) -> Head
        ensures numbers { result
            ≡ head_of (state_of self.now.query.pattern.now self.now.cut self.now.finder.value
            self.now.fault) }
        ensures few { HasRecords (words_of self.now) (most_records (sought self.now)) }
    {
        laws_of_states();
        let finder = &*self.finder;
        let waiting = finder.reorder.waiting();
        if let Some(fault) = self.fault {
            return reported_head(fault);
        }
        let held = self.cut.held();
        Head {
            taken: self.cut.count(),
            kind: 0,
            fault_offset: 0,
            held_len: held.len() as u64,
            held: number_of(held),
            after_variable: finder.matcher.weigher.after_variable() as u64,
            start: finder.matcher.walk.start,
            has_keys: finder.matcher.walk.has_keys as u64,
            waits: match_waits(&finder.matcher.walk, self.query.pattern.len()) as u64,
            state: kept_len(&finder.matcher.walk) as u64,
            window_len: finder.window.len() as u64,
            waiting_len: waiting.len() as u64,
        }
    }
}

/// How many places of keys a walk keeps.
fn kept_len(walk: &Walk) -> usize
    ensures { result ≡ length (saved_places (kept_places walk.now)) }
{
    walk.places.len().min(walk.state)
}

/// Whether a match waits for the end of the current cluster.
pub(crate) fn match_waits(walk: &Walk, pattern_len: usize) -> bool
    ensures { result ≡ match_waits pattern_len walk.now }
{
    if !walk.has_keys || walk.state != pattern_len {
        return false;
    }
    let oldest = walk.places.len().saturating_sub(walk.state);
    match walk.places.get(oldest) {
        Some(place) => place.is_first,
        None => false,
    }
}

/// Appends the places of the last keys, as many as the walk's state says.
fn append_places(words: &mut Vec<u64>, walk: &Walk) -> Result<(), AllocError>
    ensures saved { OnOk result
        (words.new.items ≡ words.old.items ++ place_words (saved_places (kept_places walk.now))) }
    ensures begun { OnErr result (AreWordsAppended words.old.items words.new.items) }
    ensures full { OnErr result
        (vec_capacity words.old < vec_len words.old + length
        (place_words (saved_places (kept_places walk.now)))) }
    ensures capacity { vec_capacity words.old ≤ vec_capacity words.new }
{
    let mut at = walk.places.len().saturating_sub(walk.state);
    while let Some(place) = walk.places.get(at) {
        append_place(words, place.start, place.is_first)?;
        at += 1;
    }
    Ok(())
}

/// Appends the points in a window.
fn append_window(words: &mut Vec<u64>, window: &Window) -> Result<(), AllocError>
    ensures saved { OnOk result
        (words.new.items ≡ words.old.items ++ point_words window.now.points) }
    ensures begun { OnErr result (AreWordsAppended words.old.items words.new.items) }
    ensures full { OnErr result
        (vec_capacity words.old < vec_len words.old + length (point_words window.now.points)) }
    ensures capacity { vec_capacity words.old ≤ vec_capacity words.new }
{
    for i in 0..window.len() {
        append_point(words, &window.point(i))?;
    }
    Ok(())
}
