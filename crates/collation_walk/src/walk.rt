//! The walk over the items of a text by a pattern's borders. It keeps no key of the text: how much of the pattern ends the
//! keys so far is a number, and of the last keys, of as many as that at least, it keeps where they stand.

use circular_buffer::HeapCircularBuffer;
use collation_elements::Item;
use collation_letters::{Letter, NO_SYMBOL, advance, laws_of_symbols};
use collation_matches::Select;
use collation_pattern::Pattern;
use std::alloc::{AllocError, Global};

/// Where a key of a text stands.
#[derive(Clone, Copy)]
pub struct KeyPlace {
    /// Where its cluster starts, in bytes from the beginning of the text.
    pub start: u64,
    /// Whether it is the first key of its cluster.
    pub is_first: bool,
}

/// A walk over the items of a text.
#[derive(Drop)]
pub struct Walk {
    /// How many keys at the beginning of the pattern, at most, end the keys so far.
    pub state: usize,
    /// The places of the last keys: of as many as the state says at least, and at most as many as the pattern has.
    pub places: HeapCircularBuffer<KeyPlace>,
    /// Where the current cluster starts, in bytes from the beginning of the text.
    pub start: u64,
    /// Whether the current cluster has keys.
    pub has_keys: bool,
    /// Which of the ranges it hands out.
    pub select: Select,
    /// Of a chain, where the last range that was handed out ends, in bytes from the beginning of the text; else 0.
    pub last_end: u64,
}

impl Walk {
    ghost use Rattle.std.specs.Prelude.{◌≡◌, ℕ, ◌<◌, ◌≤◌, List, [], ◌∷◌, ◌++◌, length, map, option_to_list, IfOk, IfSome, Some, if◌then◌else◌};
    ghost use Rattle.collation_elements.specs.declared.keys.Key.{Key};
    ghost use Rattle.collation_elements.specs.declared.keys.Item.{Item};
    ghost use Rattle.collation_elements.specs.declared.keys.Item.TheVariants.{ClusterStart};
    ghost use Rattle.collation_elements.specs.Clusters.{clusters_from};
    ghost use Rattle.collation_matches.specs.ByClusters.{text_begin, found};
    ghost use Rattle.collation_matches.specs.Selecting.{selected, remembered};
    ghost use Rattle.collation_letters.specs.declared.letter.Role.TheVariants.{Plain};
    ghost use Rattle.collation_walk.specs.Walks.{KeepsWalk, WalksOn, WalksOver, letter_items, passed_to};
    ghost use Rattle.collation_letters.specs.Symbols.{AreLastSymbols, listed, some_symbol};

    /// A walk at the beginning of a text.
    ///
    /// # Errors
    ///
    /// Only where memory was refused.
    pub fn new(alloc: Global, pattern: &Pattern, select: Select) -> Result<Walk, AllocError>
        ensures walks { IfOk result (λ walk. WalksOver pattern.now.keys [] [] walk) }
        ensures within { IfOk result (λ walk. walk.state ≤ length pattern.now.keys) }
        ensures select { IfOk result (λ walk. walk.select ≡ select) }
    {
        Ok(Walk {
            state: 0,
            places: HeapCircularBuffer::with_capacity(alloc, pattern.len())?,
            start: 0,
            has_keys: false,
            select,
            last_end: 0,
        })
    }

    /// Goes back to the beginning of a text.
    pub fn begin_again(&mut self, pattern: &Pattern)
        requires { self.old.places.capacity ≡ length pattern.now.keys }
        ensures walks { WalksOver pattern.now.keys [] [] self.new }
        ensures state { self.new.state ≡ 0 }
        ensures select { self.new.select ≡ self.old.select }
        ensures room { self.new.places.capacity ≡ self.old.places.capacity }
    {
        self.places.clear();
        self.state = 0;
        self.start = 0;
        self.has_keys = false;
        self.last_end = 0;
    }

    /// Takes the next item, and hands out the range that ends where the item's cluster starts, if there is one: its start
    /// and its end, in bytes from the beginning of the text, the end not included.
    #[inline(always)]
    pub(crate) fn take(&mut self, pattern: &Pattern, item: Item) -> Option<(u64, u64)>
        requires { self.old.state ≤ length pattern.now.keys }
        ensures walks { WalksOn pattern.now self.old self.new (item ∷ []) (option_to_list result) }
        ensures at_start { IfSome result (λ range. item ≡ ClusterStart range.1) }
        ensures keeps { KeepsWalk pattern.now self.old self.new }
    {
        match item {
            // The first cluster has begun with the text.
            Item::ClusterStart(0) => None,
            Item::ClusterStart(start) => {
                let range = self.end(pattern, start);
                self.start = start;
                self.has_keys = false;
                self.last_end = self.last_end_with(range);
                range
            }
            Item::Element(key) => {
                self.state = pattern.advance(self.state, &key);
                self.places.push_back(KeyPlace {
                    start: self.start,
                    is_first: !self.has_keys,
                });
                self.has_keys = true;
                None
            }
        }
    }

    /// Takes the start of a cluster at a byte offset, if one begins there, and the keys of a letter. It hands out the range that ends at
    /// the start, if there is one.
    #[inline(always)]
    pub(crate) fn take_letter(
        &mut self,
        pattern: &Pattern,
        letter: &Letter,
        start: u64,
    ) -> Option<(u64, u64)>
        requires state { self.old.state ≤ length pattern.now.keys }
        ensures walks { (keys : List Key)
            → AreLastSymbols pattern.now.keys keys (listed letter.now.symbols)
            → WalksOn pattern.now self.old self.new (letter_items letter.now.role start keys)
            (option_to_list result) }
        ensures keeps { KeepsWalk pattern.now self.old self.new }
    {
        laws_of_symbols();
        let range = self.take_start(pattern, letter.role.begins_cluster(), start);
        self.take_symbol(pattern, letter.symbols.first);
        self.take_symbol(pattern, letter.symbols.second);
        self.take_symbol(pattern, letter.symbols.third);
        range
    }

    /// Takes the start of a cluster at a byte offset and the keys of a symbol, as far as it is one. It hands out the range that ends at the
    /// start, if there is one.
    #[inline(always)]
    pub(crate) fn take_plain(
        &mut self,
        pattern: &Pattern,
        symbol: u8,
        start: u64,
    ) -> Option<(u64, u64)>
        requires state { self.old.state ≤ length pattern.now.keys }
        ensures walks { (keys : List Key)
            → AreLastSymbols pattern.now.keys keys (some_symbol symbol)
            → WalksOn pattern.now self.old self.new (letter_items Plain start keys)
            (option_to_list result) }
        ensures keeps { KeepsWalk pattern.now self.old self.new }
    {
        let range = self.take(pattern, Item::ClusterStart(start));
        self.take_symbol(pattern, symbol);
        range
    }

    /// Takes the start of a cluster at a byte offset, if one begins there.
    #[inline(always)]
    fn take_start(&mut self, pattern: &Pattern, begins: bool, start: u64) -> Option<(u64, u64)>
        requires state { self.old.state ≤ length pattern.now.keys }
        ensures walks { WalksOn pattern.now self.old self.new
            (if begins then ClusterStart start ∷ [] else []) (option_to_list result) }
        ensures keeps { KeepsWalk pattern.now self.old self.new }
    {
        if begins {
            self.take(pattern, Item::ClusterStart(start))
        } else {
            None
        }
    }

    /// Takes the keys of a symbol, if it is one. Where no prefix of the pattern has matched then, it is of no account where the keys so
    /// far stand.
    #[inline(always)]
    fn take_symbol(&mut self, pattern: &Pattern, symbol: u8)
        requires state { self.old.state ≤ length pattern.now.keys }
        ensures walks { (items : List Item) (ranges : List (ℕ × ℕ)) (keys : List Key)
            → AreLastSymbols pattern.now.keys keys (some_symbol symbol)
            → WalksOver pattern.now.keys items ranges self.old
            → WalksOver pattern.now.keys (items ++ map (λ key.
            Item.Element key) keys) ranges self.new }
        ensures keeps { KeepsWalk pattern.now self.old self.new }
    {
        laws_of_symbols();
        if symbol == NO_SYMBOL {
            return;
        }
        self.state = advance(pattern, self.state, symbol);
        let is_first = !self.has_keys;
        self.has_keys = true;
        if self.state == 0 {
            return;
        }
        self.places.push_back(KeyPlace {
            start: self.start,
            is_first,
        });
    }

    /// Goes to a cluster with a key that starts at this offset, where no key waits before it or behind it.
    #[inline(always)]
    pub fn pass_to(&mut self, start: u64)
        ensures { self.new ≡ passed_to self.old start }
    {
        self.state = 0;
        self.start = start;
        self.has_keys = true;
    }

    /// The range that is handed out if the current cluster ends at the byte offset `end`: its start and its end, in bytes from the
    /// beginning of the text, the end not included. Of a chain none that begins before the last one ends.
    pub fn end(&self, pattern: &Pattern, end: u64) -> Option<(u64, u64)>
        ensures found { (items : List Item) (ranges : List (ℕ × ℕ))
            → WalksOver pattern.now.keys items ranges self.now
            → ranges ++ option_to_list result
            ≡ selected self.now.select (found pattern.now.keys
            (clusters_from text_begin items) end) }
        ensures at_end { IfSome result (λ range. range.1 ≡ end) }
    {
        let range = self.ended(pattern, end)?;
        if range.0 < self.last_end {
            return None;
        }
        Some(range)
    }

    /// Where the last range of a chain ends that was handed out, this one included.
    #[inline(always)]
    fn last_end_with(&self, range: Option<(u64, u64)>) -> u64
        ensures { (ranges : List (ℕ × ℕ)) → self.now.last_end ≡ remembered self.now.select ranges
            → result ≡ remembered self.now.select (ranges ++ option_to_list range) }
    {
        match (self.select, range) {
            (Select::Chain, Some((_, end))) => end,
            _ => self.last_end,
        }
    }

    /// The range that ends with the current cluster, if that ends at the byte offset `end`.
    ///
    /// A cluster without keys ends no range, although it leaves the state as it was.
    fn ended(&self, pattern: &Pattern, end: u64) -> Option<(u64, u64)>
        ensures found { (items : List Item) (ranges : List (ℕ × ℕ))
            → (h : WalksOver pattern.now.keys items ranges self.now)
            → found pattern.now.keys h.before h.current.start ++ option_to_list result
            ≡ found pattern.now.keys (clusters_from text_begin items) end }
        ensures at_end { IfSome result (λ range. range.1 ≡ end) }
    {
        if !self.has_keys || self.state != pattern.len() {
            return None;
        }
        let first = self.places.front()?;
        if first.is_first {
            Some((first.start, end))
        } else {
            None
        }
    }
}
