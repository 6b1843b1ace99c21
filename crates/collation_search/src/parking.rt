//! A search put away between two pieces, without its table and its pattern, and taken up again. A program that can't keep a value which
//! borrows from another, as a library for C, keeps the three apart.

ghost use Rattle.std.specs.Prelude.{◌≡◌, ◌≤◌, None, false};
ghost use Rattle.std.specs.Option.{ForSome};
ghost use Rattle.collation_matches.specs.GoodPrefix.{most_bytes};

use crate::search::Search;
use collation_finder::{Cache, Finder};
use collation_matches::TextFault;
use collation_pattern::Pattern;
use collation_table::Weights;
use collation_walk::Query;
use utf8_cut::Cut;

/// A search that was put away: all that it holds but its table and its pattern.
#[derive(Drop)]
pub struct Parked {
    pub(crate) cut: Cut,
    pub(crate) finder: Box<Finder>,
    pub(crate) fault: Option<TextFault>,
    pub(crate) cache: Box<Cache>,
    ghost open: { fault ≡ None → finder.value.window.has_ended ≡ false },
    ghost count: { cut.count ≤ most_bytes },
    ghost kept: { ForSome fault (λ f. (31 ≤ f.kind) × (f.kind ≤ 35) × (f.offset ≤ most_bytes)) },
}

impl<'a, W: Weights> Search<'a, W> {
    ghost use Rattle.std.specs.Prelude.{◌≡◌, ℕ, List};
    ghost use Rattle.collation_search.specs.Search.{sought, HasSearched};
    ghost use Rattle.collation_search.specs.State.{words_of};
    ghost use Rattle.collation_search.specs.Parking.{IsFor, HasParked, parked_select, parked_fault, parked_words};

    /// Puts the search away. It asks for no memory, and nothing of what the search holds is lost.
    pub fn park(self) -> Parked
        ensures fits { IsFor (sought self.entry).table (sought self.entry).pattern result }
        ensures select { parked_select result ≡ (sought self.entry).select }
        ensures stands { (u : List ℕ) (handed : List (ℕ × ℕ)) → HasSearched self.entry u handed
            → HasParked (sought self.entry) result u handed }
        ensures reported { parked_fault result ≡ self.entry.fault }
        ensures words { parked_words (sought self.entry) result ≡ words_of self.entry }
    {
        let Search {
            query: _,
            cut,
            finder,
            fault,
            cache,
        } = self;
        Parked {
            cut,
            finder,
            fault,
            cache,
        }
    }
}

impl Parked {
    ghost use Rattle.std.specs.Prelude.{◌≡◌, ℕ, List};
    ghost use Rattle.collation_matches.specs.Sought.{seeking};
    ghost use Rattle.collation_search.specs.Search.{sought, HasSearched};
    ghost use Rattle.collation_search.specs.State.{words_of};
    ghost use Rattle.collation_search.specs.Parking.{IsFor, HasParked, parked_select, parked_fault, parked_words};

    /// Takes the search up again, with the table and the pattern that it had. It goes on as the one that was put away, and no
    /// memory is asked for.
    pub fn unpark<'a, W: Weights>(self, table: &'a W, pattern: &'a Pattern) -> Search<'a, W>
        requires fits { IsFor (W.table table.now) pattern.now self }
        ensures sought { sought result
            ≡ seeking (W.table table.now) pattern.now (parked_select self) }
        ensures stands { (u : List ℕ) (handed : List (ℕ × ℕ))
            → HasParked (sought result) self u handed → HasSearched result u handed }
        ensures reported { result.fault ≡ parked_fault self }
        ensures words { words_of result ≡ parked_words (sought result) self }
    {
        let Parked {
            cut,
            finder,
            fault,
            cache,
        } = self;
        Search {
            query: Query {
                table,
                pattern,
                longest_key: table.longest_key(),
            },
            cut,
            finder,
            fault,
            cache,
        }
    }
}
