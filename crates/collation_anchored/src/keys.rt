//! The keys of a text, one after the other, compared with those of a pattern.

ghost use Rattle.std.specs.Prelude.{◌+◌, ◌≤◌, ◌↔◌, length, IsTrue};
ghost use Rattle.collation_pattern.specs.Borders.{IsNextKey};

use collation_elements::{Item, Key};

/// How far a text has gone through the keys of a pattern.
#[derive(Clone, Copy)]
pub(crate) struct Progress {
    /// How many of the pattern's keys the text began with so far.
    pub(crate) matched: usize,
    /// Where the first cluster begins behind all of the pattern's keys, in bytes from the text's beginning.
    pub(crate) completed: Option<u64>,
}

impl Progress {
    ghost use Rattle.std.specs.Prelude.{◌≡◌, ◌≤◌, List, [], ◌∷◌, ◌++◌, true, false, length, take, None};
    ghost use Rattle.collation_elements.specs.declared.keys.Item.{Item};
    ghost use Rattle.collation_elements.specs.ItemParts.{item_keys};
    ghost use Rattle.collation_anchored.specs.Anchored.{is_begun};
    ghost use Rattle.collation_anchored.specs.Compared.{completed_among};

    /// At the beginning of a text.
    pub(crate) fn new() -> Self
        ensures { result ≡ record { matched = 0; completed = None } }
    {
        Progress {
            matched: 0,
            completed: None,
        }
    }

    /// Takes some more items of the text: whether its keys are still the first of the pattern's.
    pub(crate) fn take(&mut self, keys: &[Key], items: &[Item]) -> bool
        ensures alike { self.old.matched ≤ length keys.now → result ≡ true
            → take self.new.matched keys.now
            ≡ take self.old.matched keys.now ++ item_keys items.now }
        ensures within { self.old.matched ≤ length keys.now
            → self.new.matched ≤ length keys.now }
        ensures apart { self.old.matched ≤ length keys.now → result ≡ false
            → is_begun keys.now (take self.old.matched keys.now ++ item_keys items.now) ≡ false }
        ensures completed { (earlier : List Item) → self.old.matched ≤ length keys.now
            → item_keys earlier ≡ take self.old.matched keys.now
            → self.old.completed ≡ completed_among keys.now [] earlier
            → self.new.completed ≡ completed_among keys.now [] (earlier ++ items.now) }
    {
        for item in items {
            let alike = self.take_item(keys, item);
            if !alike {
                return false;
            }
        }
        true
    }

    /// Takes one more item.
    #[inline(always)]
    fn take_item(&mut self, keys: &[Key], item: &Item) -> bool
        ensures alike { self.old.matched ≤ length keys.now → result ≡ true
            → take self.new.matched keys.now
            ≡ take self.old.matched keys.now ++ item_keys (item.now ∷ []) }
        ensures within { self.old.matched ≤ length keys.now
            → self.new.matched ≤ length keys.now }
        ensures apart { self.old.matched ≤ length keys.now → result ≡ false
            → is_begun keys.now (take self.old.matched keys.now ++ item_keys (item.now ∷ []))
            ≡ false }
        ensures completed { (earlier : List Item) → self.old.matched ≤ length keys.now
            → item_keys earlier ≡ take self.old.matched keys.now
            → self.old.completed ≡ completed_among keys.now [] earlier
            → self.new.completed ≡ completed_among keys.now [] (earlier ++ item.now ∷ []) }
    {
        match item {
            Item::ClusterStart(start) => {
                if self.completed.is_none() && self.matched == keys.len() && *start != 0 {
                    self.completed = Some(*start);
                }
                true
            }
            Item::Element(key) => {
                let is_next = is_next(keys, self.matched, key);
                if is_next {
                    self.matched += 1;
                }
                is_next
            }
        }
    }
}

/// Whether a key stands after the first `len` of some keys.
#[inline(always)]
fn is_next(keys: &[Key], len: usize, key: &Key) -> bool
    ensures next { IsTrue result ↔ IsNextKey keys.now len key.now }
    ensures within { IsTrue result → len + 1 ≤ length keys.now }
{
    len < keys.len() && keys[len] == *key
}
