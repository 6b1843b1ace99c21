//! The index of a table: from a list of code points to the place of the row that has it as its mapped string.
//!
//! The first code point is looked up in pages, each further one as a step from a node. All steps stand in an ordered map by their
//! node and their code point, so no mapped string is compared with another as a whole. The step that was set first from a node
//! also stands in a record of the node, which says whether there are others. So the map is asked only after a node with two steps or
//! more, and for another code point than that of the first. That no file makes a step take longer than the logarithm of the number of
//! steps is why the trie has this form; the time of a look-up is measured, and no clause speaks of it.
ghost use Rattle.std.specs.Prelude.{◌≡◌, ℕ, ◌<◌, ◌≤◌, List, [], ◌∷◌, ◌++◌, false, length, is_some, None, Some, OnOk, IfOk, OnSome, IfSome};
ghost use Rattle.collation_table.specs.Table.{TableMap, is_mapped, longest_prefix};
ghost use Rattle.collation_table.specs.Trie.{at, place_of, seek, continues, Leads, IsTrie, IsMarked, HasFirst, IsSet};

use crate::first_steps::FirstSteps;
use crate::pages::{EMPTY_ENTRY, Entry, PageEntry, Pages, Place};
use crate::row_index::RowIndex;
use std::alloc::{AllocError, Global};
use std::collections::BTreeMap;

/// Steps from nodes. Node 0 is the root.
#[derive(Drop)]
pub(crate) struct Trie {
    pages: Pages,
    steps: BTreeMap<(u32, u32), Entry>,
    firsts: FirstSteps,
    nodes: u32,
}

impl Trie {
    /// Where a code point leads after a node.
    fn step(&self, node: u32, cp: u32) -> Entry
        requires marked { IsMarked self.now }
        requires firsts { HasFirst self.now }
        ensures { result ≡ at self.now node cp }
    {
        if node == 0 {
            return self.pages.get(cp).entry;
        }
        match self.firsts.find(node, cp) {
            Some(entry) => entry,
            None => self.step_in_map(node, cp),
        }
    }

    /// Where a code point leads after a node other than the root, by the map. One that continues no mapped string leads nowhere, and
    /// is not looked for.
    fn step_in_map(&self, node: u32, cp: u32) -> Entry
        requires marked { IsMarked self.now }
        requires deep { 0 < node }
        ensures { result ≡ at self.now node cp }
    {
        let page_entry = self.pages.get(cp);
        if !page_entry.continues {
            return EMPTY_ENTRY;
        }
        match self.steps.get(&(node, cp)) {
            Some(entry) => *entry,
            None => EMPTY_ENTRY,
        }
    }

    /// Sets where a code point leads after a node.
    fn set_step(
        &mut self,
        alloc: Global,
        node: u32,
        cp: u32,
        entry: Entry,
    ) -> Result<(), AllocError>
        requires marked { IsMarked self.old }
        requires firsts { HasFirst self.old }
        ensures set { OnOk result (IsSet (at self.old) (at self.new) node cp entry) }
        ensures marked { OnOk result (IsMarked self.new) }
        ensures firsts { OnOk result (HasFirst self.new) }
        ensures nodes { OnOk result (self.new.nodes ≡ self.old.nodes) }
    {
        let page_entry = self.pages.get(cp);
        if node == 0 {
            self.pages.set(
                alloc,
                cp,
                PageEntry {
                    entry,
                    continues: page_entry.continues,
                },
            )?;
            return Ok(());
        }
        self.pages.set(
            alloc,
            cp,
            PageEntry {
                entry: page_entry.entry,
                continues: true,
            },
        )?;
        self.steps.insert((node, cp), entry)?;
        self.firsts.set(node, cp, entry)?;
        Ok(())
    }

    /// Adds a node to which a code point leads after another.
    fn add_node(
        &mut self,
        alloc: Global,
        node: u32,
        cp: u32,
        place: Option<Place>,
    ) -> Result<u32, AllocError>
        requires trie { IsTrie self.old }
        requires used { node < self.old.nodes }
        requires none { at self.old node cp ≡ record { place = place; node = None } }
        ensures trie { OnOk result (IsTrie self.new) }
        ensures used { IfOk result (λ next. next < self.new.nodes) }
        ensures same { OnOk result ((string : List ℕ)
            → place_of self.new string ≡ place_of self.old string) }
        ensures leads { IfOk result (λ next. (prefix : List ℕ) → Leads (at self.old) 0 prefix node
            → Leads (at self.new) 0 (prefix ++ cp ∷ []) next) }
    {
        let next = self.nodes;
        let Some(nodes) = next.checked_add(1) else {
            return Err(AllocError);
        };
        self.set_step(
            alloc,
            node,
            cp,
            Entry {
                place,
                node: Some(next),
            },
        )?;
        self.nodes = nodes;
        Ok(next)
    }

    /// The node to which a code point leads after another, which is added where there is none.
    fn follow(&mut self, alloc: Global, node: u32, cp: u32) -> Result<u32, AllocError>
        requires trie { IsTrie self.old }
        requires used { node < self.old.nodes }
        ensures trie { OnOk result (IsTrie self.new) }
        ensures used { IfOk result (λ next. next < self.new.nodes) }
        ensures same { OnOk result ((string : List ℕ)
            → place_of self.new string ≡ place_of self.old string) }
        ensures leads { IfOk result (λ next. (prefix : List ℕ) → Leads (at self.old) 0 prefix node
            → Leads (at self.new) 0 (prefix ++ cp ∷ []) next) }
    {
        let entry = self.step(node, cp);
        match entry.node {
            Some(next) => Ok(next),
            None => self.add_node(alloc, node, cp, entry.place),
        }
    }

    /// The node to which code points lead, made where there is none.
    fn follow_all(&mut self, alloc: Global, cps: &[u32]) -> Result<u32, AllocError>
        requires trie { IsTrie self.old }
        ensures trie { OnOk result (IsTrie self.new) }
        ensures used { IfOk result (λ node. node < self.new.nodes) }
        ensures same { OnOk result ((string : List ℕ)
            → place_of self.new string ≡ place_of self.old string) }
        ensures leads { IfOk result (λ node. Leads (at self.new) 0 cps.now node) }
    {
        let mut node = 0;
        for cp in cps {
            node = self.follow(alloc, node, *cp)?;
        }
        Ok(node)
    }

    /// Sets the place to which a code point leads after a node.
    fn set_place(
        &mut self,
        alloc: Global,
        node: u32,
        cp: u32,
        place: Place,
    ) -> Result<(), AllocError>
        requires marked { IsMarked self.old }
        requires firsts { HasFirst self.old }
        ensures set { OnOk result
            (IsSet (at self.old) (at self.new) node cp
            (record (at self.old node cp) { place = Some place })) }
        ensures marked { OnOk result (IsMarked self.new) }
        ensures firsts { OnOk result (HasFirst self.new) }
        ensures nodes { OnOk result (self.new.nodes ≡ self.old.nodes) }
    {
        if node == 0 {
            self.pages.set_place(alloc, cp, place)?;
            return Ok(());
        }
        let entry = self.step(node, cp);
        self.set_step(
            alloc,
            node,
            cp,
            Entry {
                place: Some(place),
                node: entry.node,
            },
        )?;
        Ok(())
    }

    /// Where the code points of a string lead from the root.
    #[inline(always)]
    fn entry(&self, string: &[u32]) -> Entry
        requires { IsTrie self.now }
        ensures { (more : List ℕ)
            → seek (at self.now) result more ≡ place_of self.now (string.now ++ more) }
    {
        let [first, rest @ ..] = string else {
            return Entry {
                place: None,
                node: Some(0),
            };
        };
        let mut entry = self.step(0, *first);
        for cp in rest {
            match entry.node {
                Some(node) => entry = self.step(node, *cp),
                None => return EMPTY_ENTRY,
            }
        }
        entry
    }

    /// Whether a mapped string that is longer than `string` begins with it; `true` for the empty string.
    pub fn goes_on(&self, string: &[u32]) -> bool
        requires { IsTrie self.now }
        ensures { result ≡ false → (d : ℕ) (rest : List ℕ)
            → place_of self.now (string.now ++ d ∷ rest) ≡ None }
    {
        let entry = self.entry(string);
        entry.node.is_some()
    }

    /// The greatest number of code points at which a prefix of `points` is mapped, and 0 if none is. The walk ends where no mapped
    /// string goes on, which no clause says.
    pub fn longest(&self, points: &[u32]) -> usize
        requires { IsTrie self.now }
        ensures value { (T : TableMap)
            → ((string : List ℕ) → is_mapped T string ≡ is_some (place_of self.now string))
            → result ≡ longest_prefix T points.now }
        ensures within { result ≤ length points.now }
    {
        let [first, rest @ ..] = points else {
            return 0;
        };
        let mut entry = self.step(0, *first);
        let mut longest = 0;
        if entry.place.is_some() {
            longest = 1;
        }
        let mut length = 1;
        for cp in rest {
            match entry.node {
                Some(node) => entry = self.step(node, *cp),
                None => return longest,
            }
            length += 1;
            if entry.place.is_some() {
                longest = length;
            }
        }
        longest
    }

    /// Whether a mapped string of two or more code points begins with `cp`.
    pub fn begins_longer_string(&self, cp: u32) -> bool
        requires { IsTrie self.now }
        ensures { result ≡ false → (d : ℕ) (rest : List ℕ)
            → place_of self.now (cp ∷ d ∷ rest) ≡ None }
    {
        self.pages.get(cp).entry.node.is_some()
    }

    /// The place of the mapped string that `cp` is alone, where no mapped string of two or more code points begins with it; `None`
    /// where one may. It asks the pages once.
    #[inline(always)]
    pub fn lone_place(&self, cp: u32) -> Option<Option<Place>>
        requires { IsTrie self.now }
        ensures alone { OnSome result ((d : ℕ) (rest : List ℕ)
            → place_of self.now (cp ∷ d ∷ rest) ≡ None) }
        ensures place { IfSome result (λ place. place ≡ place_of self.now (cp ∷ [])) }
    {
        let entry = self.pages.get(cp).entry;
        if entry.node.is_some() {
            return None;
        }
        Some(entry.place)
    }

    /// Whether `cp` stands after the first place in a mapped string.
    pub fn continues_string(&self, cp: u32) -> bool
        requires { IsTrie self.now }
        ensures { result ≡ false → (first : ℕ) (prefix rest : List ℕ)
            → place_of self.now (first ∷ (prefix ++ cp ∷ rest)) ≡ None }
    {
        self.pages.get(cp).continues
    }
}

impl RowIndex for Trie {
    ghost finds = { place_of };

    ghost is_whole = { IsTrie };

    fn new(alloc: Global) -> Trie {
        Trie {
            pages: Pages::new(alloc),
            steps: BTreeMap::new(alloc),
            firsts: FirstSteps::new(alloc),
            nodes: 1,
        }
    }

    fn insert(&mut self, alloc: Global, string: &[u32], place: Place) -> Result<(), AllocError> {
        let last = string.len() - 1;
        let node = self.follow_all(alloc, &string[..last])?;
        self.set_place(alloc, node, string[last], place)?;
        Ok(())
    }

    fn place(&self, string: &[u32]) -> Option<Place> {
        self.entry(string).place
    }
}
