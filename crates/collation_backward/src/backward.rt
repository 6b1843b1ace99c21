//! The last range of a text before an offset, and the match that ends where a text ends.
ghost use Rattle.std.specs.Prelude.{◌≡◌, ◌⊎◌, ◌≤◌, ℕ, List, length, true, false, None, Ok, Err, IfErr};
ghost use Rattle.collation_matches.specs.declared.select.Select.TheVariants.{All};
ghost use Rattle.collation_matches.specs.GoodPrefix.{fault as fault_of, most_bytes};
ghost use Rattle.collation_matches.specs.Sought.{IsCompiledFrom, answer_to, seeking};
ghost use Rattle.collation_search.specs.Search.{sought};
ghost use Rattle.collation_anchored.specs.Anchored.{ends as ends_of};
ghost use Rattle.collation_anchored.specs.Answers.{no_memory};
ghost use Rattle.collation_backward.specs.Backward.{is_fault_before, last_up_to, IsNothingBehind, IsToldBefore};
ghost use Rattle.collation_backward.specs.Ending.{ends_answer};

use crate::places::{place_before, place_behind};
use crate::reading::said_from;
use collation_anchored::Anchored;
use collation_anchored::laws::ends_by_last_range;
use collation_elements::parts_join;
use collation_matches::matches_from_a_boundary;
use collation_pattern::Pattern;
use collation_pattern::laws::key_law;
use collation_safe::{answers_from_safe_offsets, safe_offsets_are_boundaries};
use collation_search::{Search, TextFault};
use collation_table::Strings;
use nfd_points::laws::{laws_of_decompositions, laws_of_faults};
use std::alloc::{AllocError, Global};
use utf8_cut::whole_characters_are_the_longest_text;

/// How many bytes before the offset the search begins at first, or further back.
const FIRST_BLOCK: usize = 1_024;

/// The last range of a text that ends at an offset or before it, as [`Backward::last_before`] finds it. The pattern was compiled with this
/// table.
///
/// # Errors
///
/// Those of [`Backward::last_before`], or 36 at 0 where [`Backward::new`] was refused memory. That this is for no other reason no clause
/// says, for none can name the request: it is read off the body, and tested.
pub fn last_before<W: Strings>(
    alloc: Global,
    table: &W,
    pattern: &Pattern,
    text: &[u8],
    at: usize,
) -> Result<Option<(u64, u64)>, TextFault>
    ensures good { (p : List ℕ)
        → IsCompiledFrom (seeking (W.table table.now) pattern.now All) p
        → length text.now ≤ most_bytes → is_fault_before at (fault_of text.now) ≡ false
        → (result ≡ Err no_memory)
        ⊎ (result
        ≡ Ok (last_up_to at
        (answer_to (seeking (W.table table.now) pattern.now All) p text.now).ranges)) }
    ensures told { (p : List ℕ)
        → IsCompiledFrom (seeking (W.table table.now) pattern.now All) p
        → (result ≡ Err no_memory)
        ⊎ IsToldBefore (seeking (W.table table.now) pattern.now All) p text.now at result }
    ensures behind { (p : List ℕ)
        → IsCompiledFrom (seeking (W.table table.now) pattern.now All) p
        → length text.now ≤ most_bytes
        → (result ≡ Err no_memory)
        ⊎ IfErr result (IsNothingBehind (seeking (W.table table.now) pattern.now All) p text.now at) }
{
    let Ok(mut backward) = Backward::new(alloc, table, pattern) else {
        return Err(TextFault {
            kind: TextFault::NO_MEMORY,
            offset: 0,
        });
    };
    backward.last_before(text, at)
}

/// The greatest start of a match that ends where the text ends, as [`Backward::ends`] finds it. The pattern was compiled with this table.
///
/// # Errors
///
/// Those of [`Backward::ends`], or 36 at 0 where [`Backward::new`] was refused memory. That this is for no other reason no clause says,
/// for none can name the request: it is read off the body, and tested.
pub fn ends<W: Strings>(
    alloc: Global,
    table: &W,
    pattern: &Pattern,
    text: &[u8],
) -> Result<Option<u64>, TextFault>
    ensures good { (p : List ℕ)
        → IsCompiledFrom (seeking (W.table table.now) pattern.now All) p
        → fault_of text.now ≡ None
        → (result ≡ Err no_memory)
        ⊎ (result
        ≡ Ok (ends_of (W.table table.now) pattern.now.strength pattern.now.variable p text.now)) }
    ensures answer { (p : List ℕ)
        → IsCompiledFrom (seeking (W.table table.now) pattern.now All) p
        → length text.now ≤ most_bytes
        → (result ≡ Err no_memory)
        ⊎ (result ≡ ends_answer (W.table table.now) pattern.now p text.now) }
{
    let Ok(mut backward) = Backward::new(alloc, table, pattern) else {
        return Err(TextFault {
            kind: TextFault::NO_MEMORY,
            offset: 0,
        });
    };
    backward.ends(text)
}

/// Goes back through texts in memory, one text after the other.
#[derive(Drop)]
pub struct Backward<'a, W: Strings> {
    table: &'a W,
    search: Search<'a, W>,
    anchored: Anchored<'a, W>,
    ghost table_same: { (sought search).table ≡ W.table table.now },
    ghost all: { (sought search).select ≡ All },
    ghost anchored_table: { W.table anchored.table.now ≡ (sought search).table },
    ghost anchored_pattern: { anchored.pattern.now ≡ (sought search).pattern },
}

impl<'a, W: Strings> Backward<'a, W> {
    ghost use Rattle.std.specs.Prelude.{◌≡◌, ℕ, ◌≤◌, ◌<◌, List, length, drop, not, false, true, None, Some, Ok, IfOk, IfErr};
    ghost use Rattle.collation_matches.specs.GoodPrefix.{fault as fault_of, most_bytes};
    ghost use Rattle.collation_matches.specs.Sought.{IsCompiledFrom, answer_to, seeking};
    ghost use Rattle.collation_anchored.specs.Anchored.{ends as ends_of};
    ghost use Rattle.collation_anchored.specs.Answers.{has_more_keys, unless_fault};
    ghost use Rattle.collation_backward.specs.Backward.{is_fault_before, last_up_to, IsFaultFrom, IsNothingBehind, IsPlaceBefore, IsToldBefore, IsToldFrom, IsToldOfEnd, start_told};
    ghost use Rattle.collation_backward.specs.Ending.{ends_answer};
    ghost use Rattle.collation_backward.specs.Going.{sought_by};

    /// Lends a table and a pattern that was compiled with it.
    ///
    /// # Errors
    ///
    /// Where memory was refused. That it is for no other reason no clause says: the body has no other `Err`, and it is tested.
    pub fn new(alloc: Global, table: &'a W, pattern: &'a Pattern) -> Result<Self, AllocError>
        ensures sought { IfOk result
            (λ made. sought_by made ≡ seeking (W.table table.now) pattern.now All) }
    {
        Ok(Backward {
            table,
            search: Search::new(alloc, table, pattern)?,
            anchored: Anchored::new(alloc, table, pattern)?,
        })
    }

    /// The last range of the text that ends at an offset or before it: going back from there, what is met first, a range or a fault. `at`
    /// and the range are in bytes from the beginning of the text, the end not included. Memory is asked for as by [`Search::feed`], and
    /// the answer is the same where it is refused.
    ///
    /// It begins at a safe offset some way back, reads on from there up to the offset, and goes twice as far back where it found nothing.
    ///
    /// # Errors
    ///
    /// A fault that stands before the offset, where no range was found behind it: it is the first fault of the rest of the text from a
    /// safe offset on, or from the beginning.
    pub fn last_before(&mut self, text: &[u8], at: usize) -> Result<Option<(u64, u64)>, TextFault>
        ensures good { (p : List ℕ) → IsCompiledFrom (sought_by self.old) p
            → length text.now ≤ most_bytes → is_fault_before at (fault_of text.now) ≡ false
            → result ≡ Ok (last_up_to at (answer_to (sought_by self.old) p text.now).ranges) }
        ensures told { (p : List ℕ) → IsCompiledFrom (sought_by self.old) p
            → IsToldBefore (sought_by self.old) p text.now at result }
        ensures behind { (p : List ℕ) → IsCompiledFrom (sought_by self.old) p
            → length text.now ≤ most_bytes
            → IfErr result (IsNothingBehind (sought_by self.old) p text.now at) }
        ensures sought { sought_by self.new ≡ sought_by self.old }
    {
        answers_from_safe_offsets();
        whole_characters_are_the_longest_text();
        let end = at.min(text.len());
        let mut place = place_before(self.table, text, end, FIRST_BLOCK);
        let mut said = self.said_behind(text, place, at);
        while place > 0 && is_none(&said) {
            let len = end.saturating_sub(place).saturating_mul(2);
            place = place_before(self.table, text, end, len);
            said = self.said_behind(text, place, at);
        }
        said
    }

    /// The greatest start of a match that ends where the text ends, in bytes from the beginning of the text; `None` where none ends there.
    /// It is a match in the sense of [`Anchored::equals`], and need not be minimal: ignorable characters at the end of the text belong to
    /// it.
    ///
    /// It goes back from the end as [`Backward::last_before`] does, and compares the text from the last range on with the pattern. Where
    /// the rest of the text has no range and more keys than the pattern, no match ends at the end, and it goes no further back. So it
    /// reads what stands at the end, where safe offsets are found, and goes far back only where what stands there has few keys.
    ///
    /// Memory is asked for as by [`Search::feed`], and the answer is the same where it is refused.
    ///
    /// # Errors
    ///
    /// The last fault of the text, where what stands behind it, from the next safe offset on, does not decide: no match ends there, and it has
    /// no more keys than the pattern.
    pub fn ends(&mut self, text: &[u8]) -> Result<Option<u64>, TextFault>
        ensures good { (p : List ℕ) → IsCompiledFrom (sought_by self.old) p
            → fault_of text.now ≡ None
            → result
            ≡ Ok (ends_of (sought_by self.old).table (sought_by self.old).pattern.strength (sought_by self.old).pattern.variable p text.now) }
        ensures answer { (p : List ℕ) → IsCompiledFrom (sought_by self.old) p
            → length text.now ≤ most_bytes
            → result ≡ ends_answer (sought_by self.old).table (sought_by self.old).pattern p text.now }
        ensures sought { sought_by self.new ≡ sought_by self.old }
    {
        matches_from_a_boundary();
        safe_offsets_are_boundaries();
        answers_from_safe_offsets();
        parts_join();
        key_law(self.table);
        ends_by_last_range(self.table);
        laws_of_decompositions();
        laws_of_faults();
        whole_characters_are_the_longest_text();
        match self.said_of_end(text) {
            Ok(Some((start, _))) => self.start_of_equal(text, start),
            Ok(None) => Ok(None),
            Err(fault) => self.start_behind(text, fault),
        }
    }

    /// What is said going back from the end of a text, up to the last range, the beginning, a fault, or a place from which on the text has
    /// more keys than the pattern.
    fn said_of_end(&mut self, text: &[u8]) -> Result<Option<(u64, u64)>, TextFault>
        ensures told { (p : List ℕ) → IsCompiledFrom (sought_by self.old) p
            → IsToldOfEnd (sought_by self.old) p text.now result }
        ensures before { IfErr result (λ f. f.offset < length text.now) }
        ensures sought { sought_by self.new ≡ sought_by self.old }
    {
        laws_of_faults();
        whole_characters_are_the_longest_text();
        let end = text.len();
        let mut place = place_before(self.table, text, end, FIRST_BLOCK);
        let mut said = said_from(&mut self.search, text, place, end);
        while place > 0 && is_none(&said) && !self.has_more_keys(text, place) {
            let len = end.saturating_sub(place).saturating_mul(2);
            place = place_before(self.table, text, end, len);
            said = said_from(&mut self.search, text, place, end);
        }
        said
    }

    /// The same behind a fault of the rest from a place on: by what stands behind the last fault, if it decides, and else that fault.
    fn start_behind(&mut self, text: &[u8], first: TextFault) -> Result<Option<u64>, TextFault>
        requires { first.offset < length text.now }
        ensures answer { (p : List ℕ) → IsCompiledFrom (sought_by self.old) p
            → length text.now ≤ most_bytes
            → IsFaultFrom (sought_by self.old).table text.now first
            → result ≡ ends_answer (sought_by self.old).table (sought_by self.old).pattern p text.now }
        ensures sought { sought_by self.new ≡ sought_by self.old }
    {
        matches_from_a_boundary();
        safe_offsets_are_boundaries();
        answers_from_safe_offsets();
        parts_join();
        key_law(self.table);
        ends_by_last_range(self.table);
        laws_of_decompositions();
        laws_of_faults();
        whole_characters_are_the_longest_text();
        let end = text.len();
        let mut fault = first;
        while let Some(next) = place_behind(self.table, text, fault.offset, end) {
            match said_from(&mut self.search, text, next, end) {
                Ok(Some((start, _))) => return self.start_of_equal(text, start),
                Ok(None) => return self.none_from(text, next, fault),
                Err(later) => fault = later,
            }
        }
        Err(fault)
    }

    /// What is told where the rest of a text from a place on has no range: that there is none, if the rest has more keys than the pattern,
    /// and else the fault in front of it.
    fn none_from(
        &mut self,
        text: &[u8],
        place: usize,
        fault: TextFault,
    ) -> Result<Option<u64>, TextFault>
        ensures told { fault_of (drop place text.now) ≡ None
            → result
            ≡ unless_fault (not (has_more_keys (sought_by self.old).table (sought_by self.old).pattern (drop place text.now))) (Some fault) None }
        ensures sought { sought_by self.new ≡ sought_by self.old }
    {
        if self.has_more_keys(text, place) {
            Ok(None)
        } else {
            Err(fault)
        }
    }

    /// Whether the rest of a text from a place on has more keys than the pattern. Of a rest with a fault nothing is said.
    fn has_more_keys(&mut self, text: &[u8], place: usize) -> bool
        ensures more { fault_of (drop place text.now) ≡ None
            → result
            ≡ has_more_keys (sought_by self.old).table (sought_by self.old).pattern (drop place text.now) }
        ensures sought { sought_by self.new ≡ sought_by self.old }
    {
        let (_, rest) = text.split_at(place.min(text.len()));
        self.anchored.has_more_keys(rest)
    }

    /// Where a range starts, if the text from there on is equal.
    fn start_of_equal(&mut self, text: &[u8], start: u64) -> Result<Option<u64>, TextFault>
        ensures start { (p : List ℕ) (end : ℕ) → IsCompiledFrom (sought_by self.old) p
            → fault_of (drop start text.now) ≡ None
            → result ≡ start_told (sought_by self.old) p text.now (Ok (Some (start, end))) }
        ensures sought { sought_by self.new ≡ sought_by self.old }
    {
        let (_, rest) = text.split_at((start as usize).min(text.len()));
        match self.anchored.equals(rest) {
            Ok(true) => Ok(Some(start)),
            Ok(false) => Ok(None),
            Err(fault) => Err(fault),
        }
    }

    /// What the rest of a text from a place on says up to an offset, or, where a fault stands before the offset, what the rest from the
    /// next safe offset behind the fault says, and so on; the last fault where the rest behind it says that there is nothing.
    fn said_behind(
        &mut self,
        text: &[u8],
        from: usize,
        at: usize,
    ) -> Result<Option<(u64, u64)>, TextFault>
        requires { IsPlaceBefore (W.table self.old.table.now) text.now at from }
        ensures told { (p : List ℕ) → IsCompiledFrom (sought_by self.old) p
            → IsToldFrom (sought_by self.old) p text.now from at result }
        ensures behind { (p : List ℕ) → IsCompiledFrom (sought_by self.old) p
            → length text.now ≤ most_bytes
            → IfErr result (IsNothingBehind (sought_by self.old) p text.now at) }
        ensures sought { sought_by self.new ≡ sought_by self.old }
    {
        answers_from_safe_offsets();
        whole_characters_are_the_longest_text();
        let mut said = said_from(&mut self.search, text, from, at);
        while let Err(fault) = said {
            let Some(next) = place_behind(self.table, text, fault.offset, at) else {
                return said;
            };
            let later = said_from(&mut self.search, text, next, at);
            if is_none(&later) {
                return said;
            }
            said = later;
        }
        said
    }
}

/// Whether it is said that there is nothing.
fn is_none(said: &Result<Option<(u64, u64)>, TextFault>) -> bool
    ensures is { result ≡ true → said.now ≡ Ok None }
    ensures known { said.now ≡ Ok None → result ≡ true }
{
    match said {
        Ok(None) => true,
        _ => false,
    }
}
