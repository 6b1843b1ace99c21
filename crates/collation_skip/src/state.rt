//! A state of the automaton: what is known behind some bytes.
ghost use Rattle.std.specs.Prelude.{◌≡◌, ◌≢◌, ◌≤◌, ℕ, List, length, Option, Some, None};
ghost use Rattle.std.specs.Char.{len_utf8};
ghost use Rattle.nfd_points.specs.declared.points.Point.{Point as PointValue};
ghost use Rattle.collation_table.specs.Table.{TableMap};
ghost use Rattle.collation_pattern.specs.Compiled.{Compiled};
ghost use Rattle.collation_letters.specs.Clusters.{IsClusterAt};
ghost use Rattle.collation_letters.specs.Letters.{IsLetter, IsLetterAt, ordered_from};
ghost use Rattle.collation_skip.specs.Reached.{AreMarksRight, IsHeld};
ghost use Rattle.collation_skip.specs.declared.begun.Begun.TheVariants.{Whole};

use crate::begun::Begun;
use crate::depth::depth_after;
use collation_letters::{Cluster, FOREIGN, Letter, NO_SYMBOL, Symbols};
use collation_pattern::Pattern;

/// How many points a spent letter is said to have at least, so that few differ. No character has more.
const SPENT_POINTS: u8 = 4;

/// What a `Cluster` knows of a letter besides: its last two marks, and the letter without them.
#[derive(Clone, Copy, Debug, PartialEq, Eq)]
pub(crate) struct Marks {
    pub(crate) base: Letter,
    pub(crate) before: Letter,
    pub(crate) last: Letter,
}

/// What is known behind some bytes. What it means stands in `specs/Reached.antt`.
#[derive(Clone, Copy, Debug, PartialEq, Eq)]
pub(crate) struct State {
    /// How many of the pattern's first keys have matched before the last letter.
    pub(crate) depth: usize,
    /// The last letter: a character, one with the marks behind it, or two that are one mapped string. Where it begins a cluster, has a
    /// last key, and no key of the pattern waits behind it, it is spent: kept without its symbols.
    pub(crate) letter: Letter,
    /// Its last marks, where states keep them apart.
    pub(crate) marks: Option<Marks>,
    /// The character that it is, where a unit may reach out of it, or a mark go before one of its points; else 0.
    pub(crate) character: char,
    /// How many bytes it has, if it is one character, else 0.
    pub(crate) len: u8,
    /// How many bytes the character before it has, if the text may be passed by up to there, else 0.
    pub(crate) before: u8,
    /// The bytes of the character behind it.
    pub(crate) begun: Begun,
}

impl State {
    /// Behind a letter that is one character, before which stands a character of so many bytes up to which the text may be passed by. Where
    /// marks are kept apart, so is a character of which one is a point.
    pub(crate) fn behind(
        pattern: &Pattern,
        depth: usize,
        letter: Letter,
        c: char,
        before: u8,
        keeps_marks: bool,
    ) -> State
        requires { depth ≤ length pattern.now.keys }
        ensures depth { result.depth ≡ depth }
        ensures letter { (table : TableMap) (cs : List ℕ) → IsLetter table pattern.now cs letter
            → IsHeld table pattern.now depth cs result.letter }
        ensures marks { result.marks ≡ None }
        ensures character { result.character ≢ 0 → result.character ≡ c }
        ensures len { result.len ≡ len_utf8 c }
        ensures before { result.before ≡ before }
        ensures begun { result.begun ≡ Whole }
    {
        State {
            depth,
            letter: spent(pattern, depth, letter),
            marks: None,
            character: if !letter.is_closed || (keeps_marks && ends_in_a_mark(&letter)) {
                c
            } else {
                '\0'
            },
            len: c.len_utf8() as u8,
            before,
            begun: Begun::Whole,
        }
    }

    /// The same with these bytes of the character behind it.
    pub(crate) fn with_begun(&self, begun: Begun) -> State
        ensures { result ≡ record self.now { begun = begun; before = 0 } }
    {
        State {
            before: 0,
            begun,
            ..*self
        }
    }

    /// The same where the last letter goes on: it is this one.
    pub(crate) fn with_letter(&self, pattern: &Pattern, letter: Letter) -> State
        requires { self.now.depth ≤ length pattern.now.keys }
        ensures rest { result
            ≡ record {
              depth = self.now.depth;
              letter = result.letter;
              marks = None;
              character = 0;
              len = 0;
              before = 0;
              begun = Whole;
            } }
        ensures letter { (table : TableMap) (ps : List PointValue)
            → IsLetterAt (Some self.now.depth) table pattern.now ps letter
            → IsLetterAt (Some self.now.depth) table pattern.now ps result.letter }
        ensures closed { result.letter.is_closed ≡ letter.is_closed }
    {
        State {
            depth: self.depth,
            letter: spent(pattern, self.depth, letter),
            marks: None,
            character: '\0',
            len: 0,
            before: 0,
            begun: Begun::Whole,
        }
    }

    /// The same with the letter of a cluster, whose marks are kept apart if `keeps_marks` says so.
    pub(crate) fn with_cluster(
        &self,
        pattern: &Pattern,
        cluster: Cluster,
        keeps_marks: bool,
    ) -> State
        requires { self.now.depth ≤ length pattern.now.keys }
        ensures rest { result
            ≡ record {
              depth = self.now.depth;
              letter = result.letter;
              marks = result.marks;
              character = 0;
              len = 0;
              before = 0;
              begun = Whole;
            } }
        ensures letter { (table : TableMap) (cs : List ℕ)
            → IsClusterAt (Some self.now.depth) table pattern.now (ordered_from 0 cs) cluster
            → IsHeld table pattern.now self.now.depth cs result.letter }
        ensures marks { (table : TableMap) (cs : List ℕ)
            → IsClusterAt (Some self.now.depth) table pattern.now (ordered_from 0 cs) cluster
            → AreMarksRight table pattern.now cs result }
    {
        let mut state = self.with_letter(pattern, cluster.letter);
        if keeps_marks {
            state.marks = Some(Marks {
                base: spent(pattern, self.depth, cluster.base),
                before: cluster.before,
                last: cluster.last,
            });
        }
        state
    }

    /// The last letter, with what is known of its marks.
    pub(crate) fn cluster(&self) -> Cluster
        ensures { (table : TableMap) (pattern : Compiled) (cs : List ℕ)
            → IsHeld table pattern self.now.depth cs self.now.letter
            → AreMarksRight table pattern cs self.now
            → IsClusterAt (Some self.now.depth) table pattern (ordered_from 0 cs) result }
    {
        match self.marks {
            None => Cluster::new(self.letter),
            Some(marks) => Cluster {
                letter: self.letter,
                base: marks.base,
                before: marks.before,
                last: marks.last,
            },
        }
    }
}

/// A letter where so many of the pattern's first keys have matched before it, spent if no key waits behind it: as if its last key were one
/// that the pattern does not have.
#[inline(always)]
fn spent(pattern: &Pattern, depth: usize, letter: Letter) -> Letter
    requires { depth ≤ length pattern.now.keys }
    ensures letter { (table : TableMap) (ps : List PointValue)
        → IsLetterAt (Some depth) table pattern.now ps letter
        → IsLetterAt (Some depth) table pattern.now ps result }
    ensures closed { result.is_closed ≡ letter.is_closed }
{
    // of most letters one question is enough
    if letter.is_clean() {
        return with_most_points(letter);
    }
    if !letter.has_last_key() || depth_after(pattern, depth, letter.symbols) != 0 {
        return letter.without_apart();
    }
    let spent = Letter {
        symbols: Symbols {
            first: NO_SYMBOL,
            second: NO_SYMBOL,
            third: FOREIGN,
        },
        ..letter
    };
    with_most_points(spent).settled()
}

/// The same letter, which is said to have as many points as a spent one.
#[inline(always)]
fn with_most_points(letter: Letter) -> Letter
    ensures letter { (depth : ℕ) (table : TableMap) (pattern : Compiled) (ps : List PointValue)
        → IsLetterAt (Some depth) table pattern ps letter
        → IsLetterAt (Some depth) table pattern ps result }
    ensures closed { result.is_closed ≡ letter.is_closed }
{
    Letter {
        is_apart: false,
        points: letter.points.max(SPENT_POINTS),
        ..letter
    }
}

/// Whether the last point of a character is a mark, before which another one may go.
fn ends_in_a_mark(letter: &Letter) -> bool {
    letter.points > 1 && letter.class > 0
}
