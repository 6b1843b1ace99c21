//! What a table has for code points, in pages of 256: so one is found by two reads of an array.
ghost use Rattle.std.specs.Prelude.{◌≡◌, ℕ, true, Some, OnOk};
ghost use Rattle.collation_table.specs.Trie.{page_entry, no_page_entry, HasRoom};

use std::alloc::{AllocError, Global};

/// How many code points a page has.
const PAGE_POINTS: u32 = 256;

/// A part of a vector, from one place to before another.
#[derive(Clone, Copy, PartialEq, Eq, Debug)]
pub(crate) struct Place {
    pub start: usize,
    pub end: usize,
}

/// Where a code point leads in the trie of mapped strings.
#[derive(Clone, Copy, PartialEq, Eq, Debug)]
pub(crate) struct Entry {
    /// The elements of the mapped string that ends with it.
    pub place: Option<Place>,
    /// The node after it, if a longer mapped string goes on.
    pub node: Option<u32>,
}

/// What a page has for a code point.
#[derive(Clone, Copy, PartialEq, Eq, Debug)]
pub(crate) struct PageEntry {
    /// Where it leads as the first code point of a mapped string.
    pub entry: Entry,
    /// Whether it stands after the first place in some mapped string.
    pub continues: bool,
}

/// Where a code point leads with which no mapped string goes on.
pub(crate) const EMPTY_ENTRY: Entry = Entry {
    place: None,
    node: None,
};

/// That of a code point which no mapped string has.
pub(crate) const NO_PAGE_ENTRY: PageEntry = PageEntry {
    entry: EMPTY_ENTRY,
    continues: false,
};

/// Pages by the upper bits of a code point. One that no mapped string needs is empty, or after the
/// last.
#[derive(Drop)]
pub(crate) struct Pages {
    pages: Vec<Vec<PageEntry>>,
}

impl Pages {
    /// No pages. Takes no memory.
    pub fn new(alloc: Global) -> Pages
        ensures { (cp : ℕ) → page_entry result.pages.items cp ≡ no_page_entry }
    {
        Pages {
            pages: Vec::new(alloc),
        }
    }

    /// What stands there for a code point.
    #[inline(always)]
    pub fn get(&self, cp: u32) -> PageEntry
        ensures { result ≡ page_entry self.now.pages.items cp }
    {
        match self.pages.get((cp / PAGE_POINTS) as usize) {
            Some(page) => match page.get((cp % PAGE_POINTS) as usize) {
                Some(entry) => *entry,
                None => NO_PAGE_ENTRY,
            },
            None => NO_PAGE_ENTRY,
        }
    }

    /// Whether there is a page for a code point, with a place for it.
    fn has_room(&self, cp: u32) -> bool
        ensures { result ≡ true → HasRoom self.now.pages.items cp }
    {
        let number = (cp / PAGE_POINTS) as usize;
        if number >= self.pages.len() {
            return false;
        }
        self.pages[number].len() > (cp % PAGE_POINTS) as usize
    }

    /// Makes room for a code point where there is none. Most code points find their page there.
    #[inline(always)]
    fn make_room(&mut self, alloc: Global, cp: u32) -> Result<(), AllocError>
        ensures same { OnOk result ((q : ℕ)
            → page_entry self.new.pages.items q ≡ page_entry self.old.pages.items q) }
        ensures room { OnOk result (HasRoom self.new.pages.items cp) }
    {
        if self.has_room(cp) {
            return Ok(());
        }
        self.add_page(alloc, cp)?;
        Ok(())
    }

    /// Adds the page of a code point, and those before it.
    fn add_page(&mut self, alloc: Global, cp: u32) -> Result<(), AllocError>
        ensures same { OnOk result ((q : ℕ)
            → page_entry self.new.pages.items q ≡ page_entry self.old.pages.items q) }
        ensures room { OnOk result (HasRoom self.new.pages.items cp) }
    {
        let number = (cp / PAGE_POINTS) as usize;
        while self.pages.len() <= number {
            self.pages.push(Vec::new(alloc))?;
        }
        if self.pages[number].len() < PAGE_POINTS as usize {
            self.pages[number].resize(PAGE_POINTS as usize, NO_PAGE_ENTRY)?;
        }
        Ok(())
    }

    /// Puts an entry in the place of that of a code point.
    pub fn set(&mut self, alloc: Global, cp: u32, entry: PageEntry) -> Result<(), AllocError>
        ensures here { OnOk result (page_entry self.new.pages.items cp ≡ entry) }
        ensures others { OnOk result ((q : ℕ) → ((q ≡ cp) → ⊥)
            → page_entry self.new.pages.items q ≡ page_entry self.old.pages.items q) }
    {
        self.make_room(alloc, cp)?;
        self.pages[(cp / PAGE_POINTS) as usize][(cp % PAGE_POINTS) as usize] = entry;
        Ok(())
    }

    /// Puts a place into the entry of a code point.
    pub fn set_place(&mut self, alloc: Global, cp: u32, place: Place) -> Result<(), AllocError>
        ensures here { OnOk result
            (let was = page_entry self.old.pages.items cp in
            page_entry self.new.pages.items cp
            ≡ record was { entry = record was.entry { place = Some place } }) }
        ensures others { OnOk result ((q : ℕ) → ((q ≡ cp) → ⊥)
            → page_entry self.new.pages.items q ≡ page_entry self.old.pages.items q) }
    {
        self.make_room(alloc, cp)?;
        self.pages[(cp / PAGE_POINTS) as usize][(cp % PAGE_POINTS) as usize]
            .entry
            .place = Some(place);
        Ok(())
    }
}
