//! Text that can't match is passed by, where no key waits.
use collation_elements::weighers_go_on;
use collation_letters::Letters;
use collation_pattern::Pattern;
use collation_pattern::laws::laws_of_borders;
use collation_skip::{Passed, Skip};
use collation_table::Weights;
use collation_walk::Query;
use std::alloc::{AllocError, Global};

/// The most keys of a pattern for which letters are found, and text is passed by, from the first piece on.
const MOST_KEYS_AT_ONCE: usize = 1_024;

/// The most bytes of a short text that go by steps alone where the pattern has more keys: of a script of many letters few come again.
const BY_STEPS: usize = 3_072;

/// How many bytes of a piece tell what its characters are.
const TELLING_FRONT: usize = 512;

/// How many bytes are walked over first where the pattern has more keys: only a longer text gives back what it costs to find out what
/// passes it by.
const WALKED_FIRST: usize = 4_096;

/// What a search has found out of the characters that it met, for its table and its pattern.
#[derive(Drop)]
pub struct Cache {
    pub letters: Letters,
    pub(crate) skip: Skip,
    /// How many bytes more go by steps alone, as long as no piece has more: for one short text letters cost more than the steps that they
    /// save.
    pub by_steps: usize,
    /// The allocator of the search.
    pub alloc: Global,
}

impl Cache {
    ghost use Rattle.std.specs.Prelude.{◌≡◌, ◌<◌, ◌≤◌, length, true, IfOk, IfSome};
    ghost use Rattle.nfd_points.specs.Points.{points_of, begins_with_starter};
    ghost use Rattle.collation_table.specs.Table.{TableMap};
    ghost use Rattle.collation_pattern.specs.Compiled.{Compiled};
    ghost use Rattle.collation_finder.specs.declared.cache.TheConstants.{MOST_KEYS_AT_ONCE};
    ghost use Rattle.collation_finder.specs.Caches.{IsCacheRight, SkipsText};
    ghost use Rattle.collation_finder.specs.LetterRun.{StandsInFront};

    /// Nothing is known yet.
    ///
    /// # Errors
    ///
    /// Only where memory was refused.
    pub fn new<W: Weights>(alloc: Global, table: &W, pattern: &Pattern) -> Result<Cache, AllocError>
        ensures right { IfOk result (λ cache. (table : TableMap) (pattern : Compiled)
            → IsCacheRight table pattern cache) }
        ensures at_once { length pattern.now.keys ≤ MOST_KEYS_AT_ONCE
            → IfOk result (λ cache. cache.by_steps ≡ 0) }
    {
        let (by_steps, due) = if pattern.len() > MOST_KEYS_AT_ONCE {
            (BY_STEPS, WALKED_FIRST)
        } else {
            (0, 0)
        };
        Ok(Cache {
            letters: Letters::for_long_patterns(alloc, table)?,
            skip: Skip::new(alloc, due),
            by_steps,
            alloc,
        })
    }

    /// Prepares, before its first byte, for one text alone of `len` bytes: at least `by_steps` of these go by steps, and at least
    /// `due` are walked over before any are passed by; it has many different bytes of ASCII, if `has_many`.
    pub fn prepare(&mut self, by_steps: usize, due: usize, len: usize, has_many: bool)
        ensures { (table : TableMap) (pattern : Compiled)
            → IsCacheRight table pattern self.old → IsCacheRight table pattern self.new }
    {
        self.by_steps = self.by_steps.max(by_steps);
        self.skip.pace.prepare(due, len, has_many);
    }

    /// Whether a piece, whose bytes `by_steps` does not count any more, goes by steps alone: where it and the pieces before it are short, as
    /// its front says how many letters its script has.
    pub fn leaves_to_steps(&self, piece: &[u8]) -> bool {
        let gone = BY_STEPS.saturating_sub(self.by_steps);
        let front = &piece[..piece.len().min(TELLING_FRONT)];
        gone.saturating_mul(front.len()) <= TELLING_FRONT.saturating_mul(most_by_steps(front))
    }

    /// Passes by text at the front of a piece, which stands at a byte offset, where no key waits. It ends at `reach` or before it.
    #[inline(never)]
    pub(crate) fn skip<W: Weights>(
        &mut self,
        query: &Query<'_, W>,
        piece: &[u8],
        first: char,
        reach: usize,
        offset: u64,
    ) -> Option<Passed>
        requires first { StandsInFront piece.now first }
        requires begins { begins_with_starter (points_of offset first) ≡ true }
        requires later { 0 < offset }
        requires right { IsCacheRight (W.table query.now.table.now) query.now.pattern.now self.old }
        ensures skips { IfSome result
            (SkipsText (W.table query.now.table.now) query.now.pattern.now
            piece.now first reach offset) }
        ensures right { IsCacheRight (W.table query.now.table.now) query.now.pattern.now self.new }
    {
        laws_of_borders();
        weighers_go_on();
        self.skip.pass(query.table, query.pattern, &mut self.letters, piece, reach)
    }
}

/// How many bytes go by steps alone for a text that begins with these, as far as its characters say: none for ASCII, some for each of two
/// bytes, more for each of three, and most for Han, Hangul and what has four.
fn most_by_steps(front: &[u8]) -> usize {
    let mut bytes = 0usize;
    for byte in front {
        bytes = bytes.wrapping_add(match *byte {
            0xC0..=0xDF => 1,
            0xE0..=0xE3 => 4,
            0xE4.. => 32,
            _ => 0,
        });
    }
    bytes
}
