//! A text to search for, as its keys.

ghost use Rattle.std.specs.Prelude.{◌≡◌, ◌↔◌, ◌≤◌, length, IsTrue, ◌≢◌, ◌<◌, ℕ, List, [], ◌∷◌, ◌++◌, slice_get, false, None, Some, IfOk, OnOk, IfErr};
ghost use Rattle.collation_pattern.specs.Levels.{levels, text_keys};
ghost use Rattle.collation_pattern.specs.Compiled.{Compiled, IsCompiledWith};
ghost use Rattle.collation_pattern.specs.Borders.{AreBorders};
ghost use Rattle.collation_pattern.specs.KeySets.{HasPlaces};
ghost use Rattle.collation_elements.specs.declared.keys.Key.{Key};
ghost use Rattle.collation_pattern.specs.Border.{border};
ghost use Rattle.collation_pattern.specs.PatternFaults.{pattern_fault};

use crate::borders::{borders_of, state_after};
use crate::compile::keys_of_pattern;
use crate::faults::PatternFault;
use crate::key_set::{PLACES, key_set, place_of};
use crate::level_weights::same_levels;
use collation_elements::{Key, Strength, Variable};
use collation_table::Weights;
use std::alloc::Global;
use std::marker::Model;

/// A pattern: the keys of a text at a strength and under a variable weighting, of which there is at least one.
#[derive(Drop)]
pub struct Pattern {
    keys: Vec<Key>,
    /// The table of borders of the keys.
    borders: Vec<usize>,
    /// The set of the keys.
    set: [u8; PLACES],
    strength: Strength,
    variable: Variable,
}

impl Model for Pattern {
    ghost Value = { Compiled };

    ghost view = { λ p. record {
      keys = p.keys.items;
      strength = p.strength;
      variable = p.variable;
    } };

    ghost invariant = { λ p. (1 ≤ length p.keys.items)
        × (length p.borders.items ≡ length p.keys.items)
        × AreBorders p.keys.items p.borders.items
        × HasPlaces p.keys.items p.set };
}

impl Pattern {
    /// Compiles a text.
    ///
    /// # Errors
    ///
    /// The first of these: `TOO_LONG`, `LONG_RUN`, `NO_KEY`; `MEMORY` in place of any answer, only where memory was refused.
    pub fn compile<W: Weights>(
        alloc: Global,
        table: &W,
        text: &str,
        strength: Strength,
        variable: Variable,
    ) -> Result<Pattern, PatternFault>
        ensures compiled { IfOk result
            (λ pattern. pattern
            ≡ record {
              keys = text_keys
                  (W.table table.now) strength variable text.now;
              strength = strength;
              variable = variable;
            }) }
        ensures from_text { IfOk result
            (λ pattern. IsCompiledWith (W.table table.now) pattern text.now) }
        ensures accepted { OnOk result
            (pattern_fault (W.table table.now) strength variable text.now ≡ None) }
        ensures refused { IfErr result (λ f. f.kind ≢ 24
            → pattern_fault (W.table table.now) strength variable text.now ≡ Some f.kind) }
    {
        let keys = keys_of_pattern(alloc, table, text, strength, variable)?;
        let Ok(borders) = borders_of(alloc, &keys) else {
            return Err(PatternFault {
                kind: PatternFault::MEMORY,
            });
        };
        let set = key_set(&keys);
        Ok(Pattern {
            keys,
            borders,
            set,
            strength,
            variable,
        })
    }

    /// How many keys the pattern has, at least 1.
    pub fn len(&self) -> usize
        ensures keys { result ≡ length self.now.keys }
        ensures some { 1 ≤ result }
    {
        self.keys.len()
    }

    /// The strength at which it was compiled.
    pub fn strength(&self) -> Strength
        ensures { result ≡ self.now.strength }
    {
        self.strength
    }

    /// The variable weighting under which it was compiled.
    pub fn variable(&self) -> Variable
        ensures { result ≡ self.now.variable }
    {
        self.variable
    }

    /// The keys of the pattern, in order.
    pub fn keys(&self) -> &[Key]
        ensures { result.now ≡ self.now.keys }
    {
        self.keys.as_slice()
    }

    /// Whether the pattern may have a key: where it says no, the pattern does not have it. It looks once, however long the
    /// pattern is.
    pub fn may_have(&self, key: &Key) -> bool
        ensures { result ≡ false → (place : ℕ) → slice_get self.now.keys place ≢ Some key.now }
    {
        self.set[place_of(key)] != 0
    }

    /// From which place on the pattern may have a key: it does not have it before. It looks once, however long the pattern is, and
    /// answers 254 at most.
    pub fn may_have_from(&self, key: &Key) -> usize
        ensures { (place : ℕ) → place < result → slice_get self.now.keys place ≢ Some key.now }
    {
        self.set[place_of(key)].saturating_sub(1) as usize
    }

    /// How many keys at the beginning of the pattern end the keys of a text with one more key, from how many of them ended
    /// the text's keys without it.
    ///
    /// `state` is the number of keys of the longest prefix of the pattern that the keys before `key` end with; for a text
    /// without keys it is 0. The whole pattern ends the text's keys exactly where the result is [`Pattern::len`]. Over all
    /// keys of a text the calls take time proportional to their number.
    pub fn advance(&self, state: usize, key: &Key) -> usize
        requires { state ≤ length self.now.keys }
        ensures border { (ks : List Key) → border self.now.keys ks ≡ state
            → result ≡ border self.now.keys (ks ++ key.now ∷ []) }
        ensures within { result ≤ length self.now.keys }
    {
        state_after(&self.keys, &self.borders, state, key)
    }

    /// Whether a list of keys has the pattern's sort key (UTS #10, S3): the same weights at each level up to the
    /// strength, those that are 0 left out.
    ///
    /// Two lists may differ and yet have the same levels, as a pair and two primary keys of its weights; under a
    /// well-formed table no two texts have such lists.
    pub fn same_key(&self, keys: &[Key]) -> bool
        ensures { IsTrue result ↔
            (levels self.now.strength keys.now ≡ levels self.now.strength self.now.keys) }
    {
        same_levels(self.strength, keys, self.keys.as_slice())
    }
}
