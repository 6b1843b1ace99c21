//! The step that was set first from each node of a trie. Most nodes after the first code point have one step only. Where a code point
//! leads after such a node is answered here by one look, also where it leads nowhere.
ghost use Rattle.std.specs.Prelude.{◌≡◌, ℕ, ◌<◌, length, IfSome, OnOk};
ghost use Rattle.collation_table.specs.declared.pages.Entry.{Entry};
ghost use Rattle.collation_table.specs.Trie.{IsFirst, AreFirst, IsSet, first_of, no_first_step};

use crate::pages::{EMPTY_ENTRY, Entry};
use std::alloc::{AllocError, Global};

/// What is known of the steps from a node.
#[derive(Clone, Copy, PartialEq, Eq, Debug)]
pub(crate) struct FirstStep {
    /// Where its code point leads.
    pub entry: Entry,
    /// The code point with which a step was set first.
    pub cp: u32,
    /// Whether a step with another code point was set.
    pub others: bool,
}

/// That of a node from which no step is taken.
const NO_FIRST_STEP: FirstStep = FirstStep {
    entry: EMPTY_ENTRY,
    cp: 0,
    others: false,
};

/// The first steps by the number of the node. A node after the last has no step. The first place is that of the root, and nothing is
/// kept in it.
#[derive(Drop)]
pub(crate) struct FirstSteps {
    steps: Vec<FirstStep>,
}

/// What is known of the steps from a node once the step with a code point is set.
fn with_step(first: FirstStep, cp: u32, entry: Entry) -> FirstStep
    ensures { (E F : ℕ → ℕ → Entry) (node : ℕ)
        → IsSet E F node cp entry → IsFirst E node first → IsFirst F node result }
{
    let replaces = match first.entry {
        EMPTY_ENTRY => true,
        _ => first.cp == cp,
    };
    if replaces {
        return FirstStep {
            entry,
            cp,
            others: first.others,
        };
    }
    FirstStep {
        entry: first.entry,
        cp: first.cp,
        others: true,
    }
}

impl FirstSteps {
    /// No steps. Takes no memory.
    pub fn new(alloc: Global) -> FirstSteps
        ensures { (node : ℕ) → first_of result.steps.items node ≡ no_first_step }
    {
        FirstSteps {
            steps: Vec::new(alloc),
        }
    }

    /// Where a code point leads after a node; `None` where the first step does not tell.
    #[inline(always)]
    pub fn find(&self, node: u32, cp: u32) -> Option<Entry>
        ensures { (E : ℕ → ℕ → Entry) → AreFirst E self.now.steps.items
            → 0 < node → IfSome result (λ entry. entry ≡ E node cp) }
    {
        match self.steps.get(node as usize) {
            Some(first) => {
                if first.cp == cp {
                    return Some(first.entry);
                }
                if first.others {
                    return None;
                }
                Some(EMPTY_ENTRY)
            }
            None => Some(EMPTY_ENTRY),
        }
    }

    /// Makes room for a node.
    fn make_room(&mut self, node: u32) -> Result<(), AllocError>
        ensures same { OnOk result ((other : ℕ)
            → first_of self.new.steps.items other ≡ first_of self.old.steps.items other) }
        ensures room { OnOk result (node < length self.new.steps.items) }
    {
        let number = node as usize;
        if number >= self.steps.len() {
            self.steps.resize(number + 1, NO_FIRST_STEP)?;
        }
        Ok(())
    }

    /// Keeps up with the step of a code point after a node, which is set in the map.
    pub fn set(&mut self, node: u32, cp: u32, entry: Entry) -> Result<(), AllocError>
        ensures { OnOk result ((E F : ℕ → ℕ → Entry) → IsSet E F node cp entry
            → AreFirst E self.old.steps.items → AreFirst F self.new.steps.items) }
    {
        self.make_room(node)?;
        let number = node as usize;
        self.steps[number] = with_step(self.steps[number], cp, entry);
        Ok(())
    }
}
