//! The search over a stream of bytes.
ghost use Rattle.std.specs.Prelude.{◌≡◌, ◌+◌, ◌≤◌, length, None, false};
ghost use Rattle.std.specs.Option.{ForSome};
ghost use Rattle.nfd_points.specs.declared.limits.TheConstants.{MOST_GIVEN};
ghost use Rattle.std.proofs.Props.{props};
ghost use Rattle.collation_finder.specs.Caches.{IsCacheRight};
ghost use Rattle.collation_matches.specs.GoodPrefix.{most_bytes};

use collation_elements::decided_units_stay;
use collation_finder::{Cache, Finder};
use collation_matches::{Select, TextFault, answers_in_time, matches_by_clusters};
use collation_pattern::Pattern;
pub use collation_states::MOST_BYTES;
use collation_table::Weights;
use collation_walk::{Found, Query};
use nfd_points::laws::{laws_of_decompositions, laws_of_faults, laws_of_reordering};
use std::alloc::{AllocError, Global};
use utf8_cut::{Cut, Cutting, any_bytes_may_follow, whole_characters_are_the_longest_text};

/// A search for a pattern in a text whose bytes come in pieces.
#[derive(Drop)]
pub struct Search<'a, W: Weights> {
    pub(crate) query: Query<'a, W>,
    pub(crate) cut: Cut,
    /// It stands on the heap, as what it has found out does, so that a search that is moved does not carry it.
    pub(crate) finder: Box<Finder>,
    /// The fault at which the text counts as ended.
    pub(crate) fault: Option<TextFault>,
    /// What it has found out of the characters that it met. It is no part of a state: it is found anew.
    pub(crate) cache: Box<Cache>,
    ghost right: { IsCacheRight (W.table query.table.now) query.pattern.now cache.value } by { Prim.hlevel props },
    ghost longest: { finder.value.window.capacity ≡ query.longest_key + MOST_GIVEN },
    ghost pattern_len: { finder.value.matcher.walk.places.capacity
        ≡ length query.pattern.now.keys },
    ghost open: { fault ≡ None → finder.value.window.has_ended ≡ false },
    ghost count: { cut.count ≤ most_bytes },
    ghost kept: { ForSome fault (λ f. (31 ≤ f.kind) × (f.kind ≤ 35) × (f.offset ≤ most_bytes)) },
}

impl<'a, W: Weights> Search<'a, W> {
    ghost use Rattle.std.specs.Prelude.{◌≡◌, ℕ, ◌+◌, ◌≤◌, List, [], ◌∷◌, ◌++◌, length, IfOk, OnOk, OnErr, IfErr, IfSome, Some, None, Err, Contains, false};
    ghost use Rattle.arrayvec.specs.ArrayVec.{array_vec_len};
    ghost use Rattle.std.specs.Str.{chars};
    ghost use Rattle.utf8_cut.specs.Characters.{characters_end};
    ghost use Rattle.nfd_points.specs.declared.limits.TheConstants.{MOST_GIVEN, MOST_WAITING};
    ghost use Rattle.collation_table.specs.Table.{longest_mapped as longest_key_of};
    ghost use Rattle.collation_matches.specs.declared.faults.TextFault.{TextFault};
    ghost use Rattle.collation_finder.specs.Finding.{FinderStandsFor};
    ghost use Rattle.collation_matches.specs.Lag.{code_points_from};
    ghost use Rattle.collation_matches.specs.declared.select.Select.TheVariants.{All};
    ghost use Rattle.collation_search.specs.Search.{HasSearched, HasTaken, HasReported, sought};
    ghost use Rattle.collation_search.specs.StateAfter.{reported_after};
    ghost use Rattle.collation_search.specs.Feeding.{Ends, Feeds, TakesPart};
    ghost use Rattle.collation_matches.specs.Sought.{IsCompiledFrom, answer_to, seeking, settled_in};
    ghost use Rattle.collation_matches.specs.GoodPrefix.{fault as fault_of, is_good_so_far, most_bytes, whole};

    /// A search at the beginning of a text, for all minimal matches.
    ///
    /// # Errors
    ///
    /// Where memory was refused. That it is for no other reason no clause says: the body has no other `Err`, and it is tested.
    pub fn new(alloc: Global, table: &'a W, pattern: &'a Pattern) -> Result<Self, AllocError>
        ensures stands { IfOk result (λ s. HasSearched s [] []) }
        ensures sought { IfOk result
            (λ s. sought s
            ≡ seeking (W.table table.now) pattern.now All) }
    {
        Search::new_with(alloc, table, pattern, Select::All)
    }

    /// A search at the beginning of a text, for all minimal matches or for a chain of them.
    ///
    /// # Errors
    ///
    /// Where memory was refused. That it is for no other reason no clause says: the body has no other `Err`, and it is tested.
    pub fn new_with(
        alloc: Global,
        table: &'a W,
        pattern: &'a Pattern,
        select: Select,
    ) -> Result<Self, AllocError>
        ensures stands { IfOk result (λ s. HasSearched s [] []) }
        ensures sought { IfOk result
            (λ s. sought s
            ≡ seeking (W.table table.now) pattern.now select) }
    {
        let _some = pattern.len();
        let finder = Finder::new(alloc, table, pattern, select)?;
        let cache = Cache::new(alloc, table, pattern)?;
        Ok(Search {
            query: Query {
                table,
                pattern,
                longest_key: table.longest_key(),
            },
            cut: Cut::new(),
            finder: Box::new(alloc, finder)?,
            fault: None,
            cache: Box::new(alloc, cache)?,
        })
    }

    /// Takes one byte of a text that has no fault so far.
    fn take(&mut self, byte: u8, found: &mut Found) -> Result<(), TextFault>
        requires none { self.old.fault ≡ None }
        requires empty { found.old.items ≡ [] }
        ensures stands { (place : ℕ) (u : List ℕ) (ranges : List _)
            → HasTaken self.old place u ranges
            → OnOk result (HasTaken self.new place (u ++ byte ∷ []) (ranges ++ found.new.items)) }
        ensures kept { (place : ℕ) (u : List ℕ) (ranges : List _) → HasTaken self.old place u ranges
            → OnErr result
            (FinderStandsFor
            (W.table self.new.query.table.now) self.new.query.pattern.now self.new.finder.value
            (chars (whole u)) ranges) }
        ensures fault { (place : ℕ) (u more : List ℕ) (ranges : List _)
            → HasTaken self.old place u ranges
            → IfErr result (λ f. fault_of (u ++ byte ∷ more) ≡ Some f) }
        ensures offset { (place : ℕ) (u : List ℕ) (ranges : List _)
            → HasTaken self.old place u ranges
            → IfErr result (λ f. f.offset ≡ characters_end u) }
        ensures closed { (place : ℕ) (u more : List ℕ) (ranges : List _)
            → HasTaken self.old place u ranges
            → OnErr result (is_good_so_far (u ++ byte ∷ more) ≡ false) }
        ensures kind { IfErr result (λ f. (31 ≤ f.kind) × (f.kind ≤ 34)) }
        ensures place { IfErr result (λ f. f.offset ≤ most_bytes) }
        ensures none { OnErr result (found.new.items ≡ []) }
        ensures same { self.new.query ≡ self.old.query }
        ensures select { self.new.finder.value.matcher.walk.select
            ≡ self.old.finder.value.matcher.walk.select }
        ensures good { self.new.fault ≡ None }
        ensures few { array_vec_len found.new ≤ longest_key_of
            (W.table self.old.query.table.now) + MOST_GIVEN }
    {
        any_bytes_may_follow();
        whole_characters_are_the_longest_text();
        if self.cut.count() >= MOST_BYTES {
            let offset = self.cut.held_start();
            return Err(TextFault {
                kind: TextFault::TOO_LONG,
                offset,
            });
        }
        match self.cut.push(byte) {
            Cutting::More => Ok(()),
            Cutting::Bad(offset) => Err(TextFault {
                kind: TextFault::ILL_FORMED,
                offset,
            }),
            Cutting::Char(c, offset) => {
                let table = self.query.table;
                let pattern = self.query.pattern;
                match self.finder.take(table, pattern, c, offset, found) {
                    Ok(()) => Ok(()),
                    Err(fault) => Err(TextFault {
                        kind: fault.kind,
                        offset,
                    }),
                }
            }
        }
    }

    /// Takes one byte. `found` is emptied, and then holds the ranges that became known, in order: the start and the end of each,
    /// in bytes from the beginning of the text.
    ///
    /// # Errors
    ///
    /// The first fault of the text, at which it counts as ended; then `found` has the rest of the settled ranges. From then on
    /// the same fault, and nothing is found. No memory is taken, so that 35 is only a fault that the search began with.
    pub fn step(&mut self, byte: u8, found: &mut Found) -> Result<(), TextFault>
        // the byte is taken as a piece of one byte
        ensures fed { Feeds self.old (byte ∷ []) result found.new.items self.new }
        ensures few { length found.new.items ≤ longest_key_of (sought self.old).table + MOST_GIVEN }
    {
        decided_units_stay();
        laws_of_decompositions();
        laws_of_reordering();
        self.step_on(byte, found)
    }

    /// The same, also within a piece, where units may have been cut early.
    pub(crate) fn step_on(&mut self, byte: u8, found: &mut Found) -> Result<(), TextFault>
        ensures takes { TakesPart self.old 0 (byte ∷ []) result found.new.items self.new }
        ensures few { length found.new.items ≤ longest_key_of (sought self.old).table + MOST_GIVEN }
    {
        matches_by_clusters(self.query.table);
        whole_characters_are_the_longest_text();
        found.clear();
        if let Some(fault) = self.fault {
            return Err(fault);
        }
        match self.take(byte, found) {
            Ok(()) => Ok(()),
            Err(fault) => {
                let table = self.query.table;
                let pattern = self.query.pattern;
                self.fault = Some(fault);
                self.finder.end(table, pattern, found);
                Err(fault)
            }
        }
    }

    /// Ends the text: `found` is emptied, and then holds the rest of the ranges.
    ///
    /// # Errors
    ///
    /// The fault of the text: one that was reported before, or 31 where a character that its end cuts starts.
    pub fn finish(self, found: &mut Found) -> Result<(), TextFault>
        ensures ended { Ends self.entry result found.new.items }
    {
        let mut search = self;
        search.end_text(found)
    }

    /// Ends the text, after which nothing is asked of the search but to begin again: `found` is emptied, and then holds the rest of the
    /// ranges.
    ///
    /// # Errors
    ///
    /// Those of [`Search::finish`].
    pub(crate) fn end_text(&mut self, found: &mut Found) -> Result<(), TextFault>
        ensures ended { Ends self.old result found.new.items }
        ensures sought { sought self.new ≡ sought self.old }
    {
        matches_by_clusters(self.query.table);
        whole_characters_are_the_longest_text();
        found.clear();
        if let Some(fault) = self.fault {
            return Err(fault);
        }
        let table = self.query.table;
        let pattern = self.query.pattern;
        self.finder.end_text(table, pattern, found);
        match self.cut.finish() {
            None => {
                let end = self.cut.count();
                self.finder.last(pattern, end, found);
                Ok(())
            }
            Some(offset) => Err(TextFault {
                kind: TextFault::ILL_FORMED,
                offset,
            }),
        }
    }

    /// Gives the search up, for the text can't be read further: `found` is emptied, and then holds the rest of the settled ranges
    /// of the whole characters so far. After a fault there are none.
    pub fn stop(self, found: &mut Found)
        ensures settled { (text u : List ℕ) (handed : List _)
            → IsCompiledFrom (sought self.entry) text → HasSearched self.entry u handed
            → handed ++ found.new.items ≡ settled_in (sought self.entry) text (whole u) }
        ensures again { (f : TextFault) → HasReported self.entry f → found.new.items ≡ [] }
    {
        matches_by_clusters(self.query.table);
        whole_characters_are_the_longest_text();
        found.clear();
        let Search {
            query,
            mut finder,
            fault,
            ..
        } = self;
        if fault.is_none() {
            finder.end(query.table, query.pattern, found);
        }
    }

    /// What the ranges handed out so far are of the answer, whatever bytes follow: they begin its list, and each range of it that
    /// has 31 code points more than the longest key has at or after its end among the whole characters so far is one of them. They are
    /// those that are reported after the bytes taken, however these were cut into pieces.
    pub fn has_handed_out(&self)
        ensures known { (u : List ℕ) (handed : List (ℕ × ℕ)) → HasSearched self.now u handed
            → handed ≡ reported_after (sought self.now) u }
        ensures begins { (text u later : List ℕ) (handed : List (ℕ × ℕ))
            → IsCompiledFrom (sought self.now) text → HasSearched self.now u handed
            → (rest : List (ℕ × ℕ))
            × ((answer_to (sought self.now) text (u ++ later)).ranges ≡ handed ++ rest) }
        ensures in_time { (text u later : List ℕ) (handed : List (ℕ × ℕ)) (range : ℕ × ℕ)
            → IsCompiledFrom (sought self.now) text → HasSearched self.now u handed
            → longest_key_of (sought self.now).table + (MOST_WAITING + 1) ≤ code_points_from range.1
            (chars (whole u))
            → Contains (answer_to (sought self.now) text (u ++ later)).ranges range
            → Contains handed range }
    {
        matches_by_clusters(self.query.table);
        answers_in_time(self.query.table);
        whole_characters_are_the_longest_text();
        laws_of_faults();
        decided_units_stay();
        laws_of_reordering();
    }

    /// The fault that was reported, at which the text counts as ended.
    pub fn reported(&self) -> Option<TextFault>
        ensures reported { IfSome result (λ f. HasReported self.now f) }
        ensures none { (u : List ℕ) (handed : List _) → HasSearched self.now u handed
            → result ≡ None }
        ensures again { (f : TextFault) → HasReported self.now f → result ≡ Some f }
    {
        self.fault
    }
}
