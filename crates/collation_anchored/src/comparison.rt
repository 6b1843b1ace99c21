//! The comparison of a text with a pattern, while the text's bytes come one by one.

ghost use Rattle.std.specs.Prelude.{◌≡◌, ◌+◌, ◌≤◌, length, true, false};
ghost use Rattle.nfd_points.specs.Reordering.{is_closed};
ghost use Rattle.nfd_points.specs.declared.limits.TheConstants.{MOST_GIVEN};

use crate::cutting::{cut_units, push_points};
use crate::keys::Progress;
use arrayvec::ArrayVec;
use collation_elements::{Item, MOST_ITEMS, Weigher, Window, closed_points_append};
use collation_matches::TextFault;
use collation_pattern::Pattern;
use collation_table::Weights;
use nfd_points::laws::laws_of_faults;
use nfd_points::{MOST_GIVEN, Point, PointFault, Reorder};
use std::alloc::{AllocError, Global};
use utf8_cut::{Cut, Cutting, any_bytes_may_follow, whole_characters_are_the_longest_text};

/// How many bytes a text may have.
const MOST_BYTES_COMPARED: u64 = 1 << 62;

/// What is asked of a text.
#[derive(Clone, Copy, PartialEq)]
pub(crate) enum Asked {
    /// Whether all of it is a match.
    Whole,
    /// Where a match ends that begins with it.
    Beginning,
}

/// How far a text was read.
pub(crate) enum Reading {
    /// As far as the answer was open.
    Decided,
    /// To its end or, where it has one, to its first fault.
    Ended(Option<TextFault>),
}

/// Takes the bytes of a text, and compares its keys with those of a pattern.
#[derive(Drop)]
pub(crate) struct Comparison {
    pub(crate) cut: Cut,
    pub(crate) reorder: Reorder,
    pub(crate) window: Window,
    pub(crate) weigher: Weigher,
    /// How far the text has gone through the pattern's keys.
    pub(crate) progress: Progress,
    /// The number of code points of the table's longest key.
    pub(crate) longest_key: usize,
    /// What the reorderer gave last, and the items of the last unit. Their room is used again and again.
    pub(crate) given: ArrayVec<Point, MOST_GIVEN>,
    pub(crate) items: Box<ArrayVec<Item, MOST_ITEMS>>,
    ghost capacity: { window.capacity ≡ longest_key + MOST_GIVEN },
    ghost undecided: { length window.points ≤ longest_key },
    ghost closed: { is_closed window.points ≡ true },
    ghost not_ended: { window.has_ended ≡ false },
}

impl Comparison {
    ghost use Rattle.std.specs.Prelude.{◌≡◌, ℕ, ◌+◌, ◌≤◌, List, [], ◌∷◌, ◌++◌, length, take, IfOk, OnOk, OnErr, IfErr, Ok, Option, Some, None, true, false};
    ghost use Rattle.std.specs.Str.{chars};
    ghost use Rattle.utf8_cut.specs.Characters.{characters_end};
    ghost use Rattle.nfd_points.specs.Points.{byte_len, points};
    ghost use Rattle.nfd_points.specs.PointFaults.{point_fault};
    ghost use Rattle.collation_table.specs.Table.{TableMap, longest_mapped};
    ghost use Rattle.collation_elements.specs.Keys.{keys};
    ghost use Rattle.collation_pattern.specs.Levels.{text_keys};
    ghost use Rattle.collation_matches.specs.GoodPrefix.{fault as fault_of, good_prefix, whole};
    ghost use Rattle.collation_anchored.specs.Anchored.{is_begun};
    ghost use Rattle.collation_anchored.specs.Answers.{begun_by};
    ghost use Rattle.collation_anchored.specs.Compared.{completed};
    ghost use Rattle.collation_anchored.specs.Comparing.{HasCompared, HasComparedBytes};
    ghost use Rattle.collation_anchored.specs.Counted.{HasCounted};
    ghost use Rattle.collation_matches.specs.declared.faults.TextFault.{TextFault};
    ghost use Rattle.collation_anchored.specs.declared.comparison.Asked.TheVariants.{Whole};
    ghost use Rattle.collation_anchored.specs.declared.comparison.Reading.TheVariants.{Decided, Ended};

    /// A comparison at the beginning of a text.
    pub(crate) fn new<W: Weights>(
        alloc: Global,
        table: &W,
        pattern: &Pattern,
    ) -> Result<Self, AllocError>
        ensures longest { IfOk result
            (λ made. made.longest_key ≡ longest_mapped (W.table table.now)) }
    {
        let longest_key = table.longest_key();
        Ok(Comparison {
            cut: Cut::new(),
            reorder: Reorder::new(alloc),
            window: Window::with_capacity(alloc, longest_key)?,
            weigher: Weigher::new(pattern.strength(), pattern.variable()),
            progress: Progress::new(),
            longest_key,
            given: ArrayVec::new(),
            items: Box::new(alloc, ArrayVec::new())?,
        })
    }

    /// Goes to the beginning of a text.
    pub(crate) fn begin(&mut self, pattern: &Pattern)
        ensures taken { (table : TableMap) → HasComparedBytes table pattern.now self.new [] }
        ensures counted { (table : TableMap) → HasCounted table pattern.now self.new 0 [] }
        ensures longest { self.new.longest_key ≡ self.old.longest_key }
    {
        self.cut = Cut::new();
        self.reorder.finish(&mut self.given);
        self.window.clear();
        self.weigher = Weigher::new(pattern.strength(), pattern.variable());
        self.progress = Progress::new();
    }

    /// Takes the next character, which stands at a byte offset: whether the keys of the text may still be the first of the pattern's.
    ///
    /// # Errors
    ///
    /// That of the reorderer; then it represents what it did before.
    fn take_character<W: Weights>(
        &mut self,
        table: &W,
        pattern: &Pattern,
        c: char,
        offset: u64,
    ) -> Result<bool, PointFault>
        requires longest { self.old.longest_key ≡ longest_mapped (W.table table.now) }
        ensures stands { (taken : List ℕ)
            → HasCompared (W.table table.now) pattern.now self.old taken
            → offset ≡ byte_len taken → result ≡ Ok true
            → HasCompared (W.table table.now) pattern.now self.new (taken ++ c ∷ []) }
        ensures differs { (taken rest : List ℕ)
            → HasCompared (W.table table.now) pattern.now self.old taken
            → offset ≡ byte_len taken → result ≡ Ok false
            → is_begun pattern.now.keys
            (keys (W.table table.now) pattern.now.strength pattern.now.variable
            (points (taken ++ c ∷ rest)))
            ≡ false }
        ensures completed { (taken rest : List ℕ)
            → HasCompared (W.table table.now) pattern.now self.old taken
            → offset ≡ byte_len taken → result ≡ Ok false
            → self.new.progress.completed
            ≡ completed (W.table table.now) pattern.now (points (taken ++ c ∷ rest)) }
        ensures good { (taken : List ℕ)
            → HasCompared (W.table table.now) pattern.now self.old taken
            → offset ≡ byte_len taken → OnOk result (point_fault (taken ++ c ∷ []) ≡ None) }
        ensures kept { (taken : List ℕ)
            → HasCompared (W.table table.now) pattern.now self.old taken
            → OnErr result (HasCompared (W.table table.now) pattern.now self.new taken) }
        ensures fault { (taken rest : List ℕ)
            → HasCompared (W.table table.now) pattern.now self.old taken
            → IfErr result (λ f. point_fault (taken ++ c ∷ rest) ≡ Some (byte_len taken, f.kind)) }
        ensures cut { self.new.cut ≡ self.old.cut }
        ensures longest { self.new.longest_key ≡ self.old.longest_key }
    {
        closed_points_append();
        self.reorder.push(c, offset, &mut self.given)?;
        push_points(&mut self.window, self.given.as_slice());
        let alike = cut_units(
            table,
            pattern,
            &mut self.window,
            &mut self.weigher,
            &mut *self.items,
            &mut self.progress,
        );
        if alike {
            Ok(true)
        } else {
            self.window.clear();
            Ok(false)
        }
    }

    /// Takes one byte of a text: whether the keys of the text may still be the first of the pattern's.
    ///
    /// # Errors
    ///
    /// The first fault of the text; then it represents the code points before it.
    fn take<W: Weights>(
        &mut self,
        table: &W,
        pattern: &Pattern,
        byte: u8,
    ) -> Result<bool, TextFault>
        requires longest { self.old.longest_key ≡ longest_mapped (W.table table.now) }
        ensures stands { (u : List ℕ) → HasComparedBytes (W.table table.now) pattern.now self.old u
            → result ≡ Ok true
            → HasComparedBytes (W.table table.now) pattern.now self.new (u ++ byte ∷ []) }
        ensures differs { (u more : List ℕ) → HasComparedBytes (W.table table.now) pattern.now self.old u
            → result ≡ Ok false
            → is_begun pattern.now.keys
            (text_keys (W.table table.now) pattern.now.strength pattern.now.variable
            (good_prefix (u ++ byte ∷ more)))
            ≡ false }
        ensures completed { (u more : List ℕ)
            → HasComparedBytes (W.table table.now) pattern.now self.old u → result ≡ Ok false
            → self.new.progress.completed
            ≡ completed (W.table table.now) pattern.now
            (points (chars (good_prefix (u ++ byte ∷ more)))) }
        ensures kept { (u : List ℕ) → HasComparedBytes (W.table table.now) pattern.now self.old u
            → OnErr result
            (HasCompared (W.table table.now) pattern.now self.new (chars (whole u))) }
        ensures fault { (u more : List ℕ) → HasComparedBytes (W.table table.now) pattern.now self.old u
            → IfErr result (λ f. fault_of (u ++ byte ∷ more) ≡ Some f) }
        ensures offset { (u : List ℕ) → HasComparedBytes (W.table table.now) pattern.now self.old u
            → IfErr result (λ f. f.offset ≡ characters_end u) }
        ensures longest { self.new.longest_key ≡ self.old.longest_key }
    {
        any_bytes_may_follow();
        whole_characters_are_the_longest_text();
        laws_of_faults();
        if self.cut.count() >= MOST_BYTES_COMPARED {
            let offset = self.cut.held_start();
            return Err(TextFault {
                kind: TextFault::TOO_LONG,
                offset,
            });
        }
        match self.cut.push(byte) {
            Cutting::More => Ok(true),
            Cutting::Bad(offset) => Err(TextFault {
                kind: TextFault::ILL_FORMED,
                offset,
            }),
            Cutting::Char(c, offset) => match self.take_character(table, pattern, c, offset) {
                Ok(alike) => Ok(alike),
                Err(fault) => Err(TextFault {
                    kind: fault.kind,
                    offset,
                }),
            },
        }
    }

    /// Ends the text here, and compares the rest of its keys: whether all are the first of the pattern's.
    pub(crate) fn end<W: Weights>(&mut self, table: &W, pattern: &Pattern) -> bool
        requires longest { self.old.longest_key ≡ longest_mapped (W.table table.now) }
        ensures begun { (taken : List ℕ)
            → HasCompared (W.table table.now) pattern.now self.old taken
            → result ≡ is_begun pattern.now.keys
            (keys (W.table table.now) pattern.now.strength pattern.now.variable (points taken)) }
        ensures matched { (taken : List ℕ)
            → HasCompared (W.table table.now) pattern.now self.old taken → result ≡ true
            → keys (W.table table.now) pattern.now.strength pattern.now.variable (points taken)
            ≡ take self.new.progress.matched pattern.now.keys }
        ensures within { (taken : List ℕ)
            → HasCompared (W.table table.now) pattern.now self.old taken → result ≡ true
            → self.new.progress.matched ≤ length pattern.now.keys }
        ensures completed { (taken : List ℕ)
            → HasCompared (W.table table.now) pattern.now self.old taken
            → self.new.progress.completed
            ≡ completed (W.table table.now) pattern.now (points taken) }
        ensures longest { self.new.longest_key ≡ self.old.longest_key }
    {
        self.reorder.finish(&mut self.given);
        push_points(&mut self.window, self.given.as_slice());
        self.window.end();
        let alike = cut_units(
            table,
            pattern,
            &mut self.window,
            &mut self.weigher,
            &mut *self.items,
            &mut self.progress,
        );
        self.window.clear();
        alike
    }

    /// Takes the bytes of a text, from its beginning, for as long as what is asked is open: its keys are the first of the pattern's so far
    /// and, where a beginning is asked for, no cluster began behind all of them.
    pub(crate) fn read<W: Weights>(
        &mut self,
        table: &W,
        pattern: &Pattern,
        text: &[u8],
        asked: Asked,
    ) -> Reading
        requires longest { self.old.longest_key ≡ longest_mapped (W.table table.now) }
        ensures apart { result ≡ Decided → asked ≡ Whole
            → begun_by (W.table table.now) pattern.now text.now ≡ false }
        ensures none { result ≡ Decided → self.new.progress.completed ≡ None
            → begun_by (W.table table.now) pattern.now text.now ≡ false }
        ensures completed { result ≡ Decided
            → self.new.progress.completed
            ≡ completed (W.table table.now) pattern.now
            (points (chars (good_prefix text.now))) }
        ensures fault { (at : Option TextFault) → result ≡ Ended at → at ≡ fault_of text.now }
        ensures stands { (at : Option TextFault) → result ≡ Ended at
            → HasCompared (W.table table.now) pattern.now self.new
            (chars (good_prefix text.now)) }
        ensures longest { self.new.longest_key ≡ self.old.longest_key }
    {
        whole_characters_are_the_longest_text();
        laws_of_faults();
        self.begin(pattern);
        for byte in text {
            match self.take(table, pattern, *byte) {
                Ok(alike) => {
                    if !alike {
                        return Reading::Decided;
                    }
                    if asked == Asked::Beginning && self.progress.completed.is_some() {
                        return Reading::Decided;
                    }
                }
                Err(fault) => return Reading::Ended(Some(fault)),
            }
        }
        match self.cut.finish() {
            None => Reading::Ended(None),
            Some(offset) => Reading::Ended(Some(TextFault {
                kind: TextFault::ILL_FORMED,
                offset,
            })),
        }
    }
}
