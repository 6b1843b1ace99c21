//! A search that C feeds, piece by piece.

use crate::outcome::Outcome;
use crate::owned::{Query, Session};
use crate::parked::{
    begin_parked, end_parked, feed_parked, finish_parked, first_parked, part_parked, save_parked,
    stop_parked,
};
use crate::queue::{Queue, Range};
use collation_search::{Found, MOST_FOUND, Search, Select, StateFault};
use std::alloc::{AllocError, Global};
use std::mem::replace;
use std::sync::Arc;

/// How many bytes of a piece are searched at a time.
const PART_LEN: usize = 65536;

/// How many ranges more than it has bytes a piece can make known. Ranges end one after the other.
/// Those that were held back end at one of the last 94 code points before the piece, and these have
/// 382 bytes at most, with those of a character that is cut on both sides.
const MOST_LATE: usize = 383;

/// Room for the ranges of a piece.
fn empty_room(alloc: Global) -> Result<Box<Found>, AllocError> {
    Ok(Box::new(alloc, Found::new())?)
}

impl Session {
    ghost use Rattle.std.specs.Prelude.{◌≡◌, ◌≤◌, ◌<◌, [], length, take, IfOk, IfErr, IsSome};
    ghost use Rattle.std.specs.Arc.{arc_value};
    ghost use Rattle.collation_search.specs.State.{sizes_of};
    ghost use Rattle.collation_search.specs.Resuming.{IsRefused};
    ghost use Rattle.colfind_c.specs.declared.outcome.Outcome.TheVariants.{Short};
    ghost use Rattle.colfind_c.specs.Queries.{sought_with};
    ghost use Rattle.colfind_c.specs.Queues.{pairs, waiting};
    ghost use Rattle.colfind_c.specs.Sessions.{sought_of, HasBegunAgain, HasFed, FeedsSession, FeedsPart, FinishesSession, StopsSession, EndsSession, SearchesText, AllInSession, FirstInSession, PartInSession, IsPartOf, ResumesSession, SavesSession, TakesRanges};

    /// A search at the beginning of a text.
    ///
    /// # Errors
    ///
    /// Only where memory was refused.
    pub(crate) fn new(
        alloc: Global,
        query: Arc<Query>,
        select: Select,
    ) -> Result<Session, AllocError>
        ensures begun { IfOk result (λ s. HasFed s [] []) }
        ensures sought { IfOk result (λ s. sought_of s ≡ sought_with (arc_value query) select) }
    {
        let looked_for = &*query;
        let search = Search::new_with(alloc, &*looked_for.table, &looked_for.pattern, select)?;
        let parked = search.park();
        Ok(Session {
            query,
            select,
            parked: Some(parked),
            queue: Queue::new(alloc),
            found: empty_room(alloc)?,
            asking: None,
        })
    }

    /// Takes a piece of the text, in parts for whose ranges there is room before they are searched.
    pub(crate) fn feed(&mut self, piece: &[u8]) -> Outcome
        ensures fed { FeedsSession self.old piece.now result self.new }
    {
        if self.parked.is_none() {
            return Outcome::Ended;
        }
        let mut at = 0usize;
        while piece.len() - at > PART_LEN {
            match self.feed_part(&piece[at..at + PART_LEN], at) {
                Outcome::Good => at += PART_LEN,
                failed => return failed,
            }
        }
        self.feed_part(&piece[at..], at)
    }

    /// Takes a part of a piece, before which so many bytes of the piece were taken. A range finds no
    /// room only where the search was resumed from words that no search has saved, and then it has ended.
    fn feed_part(&mut self, part: &[u8], before: usize) -> Outcome
        requires few { length part.now ≤ PART_LEN }
        requires open { IsSome self.old.parked }
        ensures fed { FeedsPart self.old part.now before result self.new }
    {
        if self.queue.reserve(part.len() + MOST_LATE).is_err() {
            return Outcome::Partly(before as u64);
        }
        let Some(parked) = replace(&mut self.parked, None) else {
            unreachable!()
        };
        let query = &*self.query;
        let (fed, parked) = feed_parked(
            &*query.table,
            &query.pattern,
            parked,
            part,
            &mut *self.found,
            &mut self.queue,
        );
        if self.queue.lost {
            return Outcome::State(StateFault {
                kind: StateFault::MALFORMED,
            });
        }
        self.parked = Some(parked);
        match fed {
            Ok(()) => Outcome::Good,
            Err(fault) => Outcome::Text(fault),
        }
    }

    /// Ends the text.
    pub(crate) fn finish(&mut self) -> Outcome
        ensures finished { FinishesSession self.old result self.new }
    {
        if self.parked.is_none() {
            return Outcome::Ended;
        }
        if self.queue.reserve(MOST_FOUND).is_err() {
            return Outcome::NoMemory;
        }
        let Some(parked) = replace(&mut self.parked, None) else {
            unreachable!()
        };
        let query = &*self.query;
        let ended = finish_parked(&*query.table, &query.pattern, parked, &mut self.queue);
        match ended {
            Ok(()) => Outcome::Good,
            Err(fault) => Outcome::Text(fault),
        }
    }

    /// Gives the text up.
    pub(crate) fn stop(&mut self) -> Outcome
        ensures stopped { StopsSession self.old result self.new }
    {
        if self.parked.is_none() {
            return Outcome::Ended;
        }
        if self.queue.reserve(MOST_FOUND).is_err() {
            return Outcome::NoMemory;
        }
        let Some(parked) = replace(&mut self.parked, None) else {
            unreachable!()
        };
        let query = &*self.query;
        stop_parked(&*query.table, &query.pattern, parked, &mut self.queue);
        Outcome::Good
    }

    /// The first range of what stands in a text from an offset on, if there is one, and how the call has
    /// ended. What was fed before is given up, with the ranges that wait, and the search is at the
    /// beginning of a text.
    pub(crate) fn first_in(&mut self, text: &[u8], from: usize) -> (Outcome, Option<(u64, u64)>)
        ensures first { FirstInSession self.old text.now from result.1 result.0 self.new }
    {
        if from > text.len() {
            return (Outcome::BadArgument, None);
        }
        if self.parked.is_none() {
            return (Outcome::Ended, None);
        }
        let Some(parked) = replace(&mut self.parked, None) else {
            unreachable!()
        };
        self.queue.clear();
        let query = &*self.query;
        let (first, parked) = first_parked(&*query.table, &query.pattern, parked, text, from);
        self.parked = Some(parked);
        match first {
            Ok(found) => (Outcome::Good, found),
            Err(fault) => (Outcome::Text(fault), None),
        }
    }

    /// Searches the part of a text between two offsets, whose ranges wait. What was fed before is given up, with the ranges that waited, and
    /// the search is at the beginning of a text. So it is where memory for a range was refused, and then none waits.
    pub(crate) fn search_part(&mut self, text: &[u8], from: usize, to: usize) -> Outcome
        ensures part { PartInSession self.old text.now from to result self.new }
    {
        if to < from {
            return Outcome::BadArgument;
        }
        if from > text.len() {
            return Outcome::BadArgument;
        }
        if self.parked.is_none() {
            return Outcome::Ended;
        }
        self.search_part_of(text, from, to)
    }

    /// Searches a part that a text has, with a search that has not ended.
    fn search_part_of(&mut self, text: &[u8], from: usize, to: usize) -> Outcome
        requires open { IsSome self.old.parked }
        requires part { IsPartOf from to text.now }
        ensures part { PartInSession self.old text.now from to result self.new }
    {
        let Some(parked) = replace(&mut self.parked, None) else {
            unreachable!()
        };
        self.queue.clear();
        let query = &*self.query;
        let (ended, parked) = part_parked(
            &*query.table,
            &query.pattern,
            parked,
            text,
            from,
            to,
            &mut self.queue,
        );
        if self.queue.lost {
            self.queue.clear();
            self.parked = Some(parked);
            return Outcome::NoMemory;
        }
        self.parked = Some(parked);
        match ended {
            Ok(()) => Outcome::Good,
            Err(fault) => Outcome::Text(fault),
        }
    }

    /// Gives the text up, with the ranges that wait, and goes back to the beginning of another one.
    fn begin_again(&mut self)
        requires open { IsSome self.old.parked }
        ensures begun { HasBegunAgain self.new }
        ensures same { sought_of self.new ≡ sought_of self.old }
    {
        let Some(parked) = replace(&mut self.parked, None) else {
            unreachable!()
        };
        self.queue.clear();
        let query = &*self.query;
        self.parked = Some(begin_parked(&*query.table, &query.pattern, parked));
    }

    /// Ends the text. Its ranges wait, and the search is at the beginning of another one.
    fn end_text(&mut self) -> Outcome
        requires open { IsSome self.old.parked }
        ensures ended { EndsSession self.old result self.new }
    {
        if self.queue.reserve(MOST_FOUND).is_err() {
            return Outcome::NoMemory;
        }
        let Some(parked) = replace(&mut self.parked, None) else {
            unreachable!()
        };
        let query = &*self.query;
        let (ended, parked) = end_parked(
            &*query.table,
            &query.pattern,
            parked,
            &mut *self.found,
            &mut self.queue,
        );
        self.parked = Some(parked);
        match ended {
            Ok(()) => Outcome::Good,
            Err(fault) => Outcome::Text(fault),
        }
    }

    /// Searches a text from its beginning to its end. Its ranges wait.
    fn search_text(&mut self, text: &[u8]) -> Outcome
        requires begun { HasBegunAgain self.old }
        ensures searched { SearchesText self.old text.now result self.new }
    {
        match self.feed(text) {
            Outcome::Good => self.end_text(),
            Outcome::Partly(_) => Outcome::NoMemory,
            failed => failed,
        }
    }

    /// All ranges of a text, as many as have room, how many there are, and how the call has ended. What was fed before is given up, with
    /// the ranges that wait, and the search is at the beginning of a text.
    pub(crate) fn all_in(&mut self, text: &[u8], out: &mut [Range]) -> (Outcome, usize)
        ensures all { AllInSession self.old text.now out.new result.1 result.0 self.new }
        ensures len { length out.new ≡ length out.old }
    {
        if self.parked.is_none() {
            return (Outcome::Ended, 0);
        }
        self.begin_again();
        match self.search_text(text) {
            Outcome::Good => self.hand_over(out, Outcome::Good),
            Outcome::Text(fault) => self.hand_over(out, Outcome::Text(fault)),
            Outcome::NoMemory => {
                self.begin_again();
                (Outcome::NoMemory, 0)
            }
            failed => (failed, 0),
        }
    }

    /// Gives the ranges that wait, as many as have room, and goes back to the beginning of a text: how many there are, and what is told of
    /// them, which is that they are too many where they are.
    fn hand_over(&mut self, out: &mut [Range], outcome: Outcome) -> (Outcome, usize)
        requires open { IsSome self.old.parked }
        ensures begun { HasBegunAgain self.new }
        ensures same { sought_of self.new ≡ sought_of self.old }
        ensures count { result.1 ≡ length (waiting self.old.queue) }
        ensures all { result.1 ≤ length out.old
            → (result.0 ≡ outcome) × (pairs (take result.1 out.new) ≡ waiting self.old.queue) }
        ensures some { length out.old < result.1
            → (result.0 ≡ Short result.1)
            × (pairs out.new ≡ take (length out.old) (waiting self.old.queue)) }
        ensures len { length out.new ≡ length out.old }
    {
        let count = self.queue.len();
        self.queue.take(out);
        self.begin_again();
        if count > out.len() {
            (Outcome::Short(count as u64), count)
        } else {
            (outcome, count)
        }
    }

    /// Takes ranges that wait, the oldest first: how many.
    pub(crate) fn take(&mut self, out: &mut [Range]) -> usize
        ensures taken { TakesRanges self.old (length out.old) result out.new self.new }
        ensures len { length out.new ≡ length out.old }
    {
        self.queue.take(out)
    }

    /// The search that goes on from words.
    ///
    /// # Errors
    ///
    /// Those of `Search::resume_with`.
    pub(crate) fn resume(
        alloc: Global,
        query: Arc<Query>,
        select: Select,
        words: &[u64],
    ) -> Result<Session, StateFault>
        ensures goes_on { IfOk result
            (ResumesSession (sought_with (arc_value query) select) words.now) }
        ensures refused { IfErr result
            (λ f. IsRefused (sizes_of (sought_with (arc_value query) select)) words.now f.kind) }
    {
        let looked_for = &*query;
        let resumed = Search::resume_with(
            alloc,
            &*looked_for.table,
            &looked_for.pattern,
            select,
            words,
        )?;
        let parked = resumed.park();
        Ok(Session {
            query,
            select,
            parked: Some(parked),
            queue: Queue::new(alloc),
            found: empty_room(alloc)?,
            asking: None,
        })
    }

    /// The search as words, which an empty list takes.
    pub(crate) fn save(&mut self, words: &mut Vec<u64>) -> Outcome
        requires empty { words.old.items ≡ [] }
        ensures saved { SavesSession self.old result words.new.items self.new }
    {
        if self.parked.is_none() {
            return Outcome::Ended;
        }
        let Some(parked) = replace(&mut self.parked, None) else {
            unreachable!()
        };
        let query = &*self.query;
        let (saved, parked) = save_parked(&*query.table, &query.pattern, parked, words);
        self.parked = Some(parked);
        match saved {
            Ok(()) => Outcome::Good,
            Err(_) => Outcome::NoMemory,
        }
    }
}
