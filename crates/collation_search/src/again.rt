//! One search for many texts, one after the other: what it has found out of characters stays, and no memory is asked for.
use crate::search::Search;
use collation_matches::TextFault;
use collation_table::Weights;
use collation_walk::Found;
use utf8_cut::Cut;

impl<'a, W: Weights> Search<'a, W> {
    ghost use Rattle.std.specs.Prelude.{◌≡◌, []};
    ghost use Rattle.collation_search.specs.Feeding.{Ends};
    ghost use Rattle.collation_search.specs.Search.{HasSearched, sought};

    /// Gives up the text, and goes back to the beginning of another one, also after a fault. The ranges that are found in it are those of
    /// a new search; what was found out of characters stays, so that they are found sooner. No memory is taken.
    pub fn begin_again(&mut self)
        ensures stands { HasSearched self.new [] [] }
        ensures sought { sought self.new ≡ sought self.old }
    {
        let pattern = self.query.pattern;
        let _some = pattern.len();
        self.finder.begin_again(self.cache.alloc, pattern);
        self.cut = Cut::new();
        self.fault = None;
    }

    /// Ends the text as [`Search::finish`] does, and goes back to the beginning of another one: `found` is emptied, and then holds the
    /// rest of the ranges. No memory is taken.
    ///
    /// # Errors
    ///
    /// Those of [`Search::finish`]. The search is then at the beginning of another text too.
    pub fn finish_text(&mut self, found: &mut Found) -> Result<(), TextFault>
        ensures ended { Ends self.old result found.new.items }
        ensures stands { HasSearched self.new [] [] }
        ensures sought { sought self.new ≡ sought self.old }
    {
        let ended = self.end_text(found);
        self.begin_again();
        ended
    }
}
