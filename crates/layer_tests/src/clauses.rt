//! What the ways to pass by text say, clause by clause, where their contracts have one name for it (`PassesTo`).
ghost use Rattle.std.specs.Prelude.{ℕ, ◌+◌, ◌≤◌, ◌∷◌, [], length, take, drop, IfSome};
ghost use Rattle.std.specs.Char.{len_utf8};
ghost use Rattle.std.specs.Str.{chars, IsUtf8};
ghost use Rattle.utf8_cut.specs.Sequences.{SpellsCharacter};
ghost use Rattle.collation_letters.specs.Letters.{IsLetter};
ghost use Rattle.collation_letters.specs.Store.{AreLetters};
ghost use Rattle.collation_skip.specs.Blocks.{AreBlocksRight};
ghost use Rattle.collation_skip.specs.Passed.{IsPassed};
ghost use Rattle.collation_skip.specs.Rows.{AreRowsRight};
ghost use Rattle.collation_skip.specs.Skips.{IsSkipRight};

use collation_letters::Letters;
use collation_pattern::Pattern;
use collation_skip::{AsciiBlocks, Automaton, Pace, Passed, Skip};
use collation_table::Weights;

/// What `Skip::pass` says.
fn skip_says<W: Weights>(
    skip: &mut Skip,
    table: &W,
    pattern: &Pattern,
    letters: &mut Letters,
    piece: &[u8],
    reach: usize,
) -> Option<Passed>
    requires right { IsSkipRight (W.table table.now) pattern.now skip.old }
    requires letters { AreLetters (W.table table.now) pattern.now letters.old }
    ensures within { IfSome result (λ it. it.end + len_utf8 it.next ≤ length piece.now) }
    ensures order { IfSome result (λ it. it.start ≤ it.end) }
    ensures reach { IfSome result (λ it. it.end ≤ reach) }
    ensures next { IfSome result
        (λ it. SpellsCharacter (take (len_utf8 it.next) (drop it.end piece.now)) it.next) }
    ensures letter { IfSome result
        (λ it. IsLetter (W.table table.now) pattern.now (it.next ∷ []) it.letter) }
    ensures text { IfSome result (λ it. IsUtf8 (take it.end piece.now)) }
    ensures passed { IfSome result (λ it. (at : ℕ)
        → IsPassed (W.table table.now) pattern.now at (at + it.start)
        (chars (take it.end piece.now)) it.next) }
    ensures right { IsSkipRight (W.table table.now) pattern.now skip.new }
    ensures letters { AreLetters (W.table table.now) pattern.now letters.new }
{
    skip.pass(table, pattern, letters, piece, reach)
}

/// What `Automaton::pass` says.
fn automaton_says<W: Weights>(
    automaton: &mut Automaton,
    table: &W,
    pattern: &Pattern,
    letters: &mut Letters,
    piece: &[u8],
    reach: usize,
    is_calm: bool,
) -> Option<Passed>
    requires right { AreRowsRight (W.table table.now) pattern.now automaton.old }
    requires letters { AreLetters (W.table table.now) pattern.now letters.old }
    ensures within { IfSome result (λ it. it.end + len_utf8 it.next ≤ length piece.now) }
    ensures order { IfSome result (λ it. it.start ≤ it.end) }
    ensures reach { IfSome result (λ it. it.end ≤ reach) }
    ensures next { IfSome result
        (λ it. SpellsCharacter (take (len_utf8 it.next) (drop it.end piece.now)) it.next) }
    ensures letter { IfSome result
        (λ it. IsLetter (W.table table.now) pattern.now (it.next ∷ []) it.letter) }
    ensures text { IfSome result (λ it. IsUtf8 (take it.end piece.now)) }
    ensures passed { IfSome result (λ it. (at : ℕ)
        → IsPassed (W.table table.now) pattern.now at (at + it.start)
        (chars (take it.end piece.now)) it.next) }
    ensures right { AreRowsRight (W.table table.now) pattern.now automaton.new }
    ensures letters { AreLetters (W.table table.now) pattern.now letters.new }
{
    automaton.pass(table, pattern, letters, piece, reach, is_calm)
}

/// What `AsciiBlocks::pass` says.
fn blocks_say<W: Weights>(
    blocks: &mut AsciiBlocks,
    table: &W,
    pattern: &Pattern,
    letters: &mut Letters,
    pace: &mut Pace,
    piece: &[u8],
    reach: usize,
    looked: &mut usize,
) -> Option<Passed>
    requires right { AreLetters (W.table table.now) pattern.now letters.old }
    requires blocks { AreBlocksRight (W.table table.now) pattern.now blocks.old }
    ensures within { IfSome result (λ it. it.end + len_utf8 it.next ≤ length piece.now) }
    ensures order { IfSome result (λ it. it.start ≤ it.end) }
    ensures reach { IfSome result (λ it. it.end ≤ reach) }
    ensures next { IfSome result
        (λ it. SpellsCharacter (take (len_utf8 it.next) (drop it.end piece.now)) it.next) }
    ensures letter { IfSome result
        (λ it. IsLetter (W.table table.now) pattern.now (it.next ∷ []) it.letter) }
    ensures text { IfSome result (λ it. IsUtf8 (take it.end piece.now)) }
    ensures passed { IfSome result (λ it. (at : ℕ)
        → IsPassed (W.table table.now) pattern.now at (at + it.start)
        (chars (take it.end piece.now)) it.next) }
    ensures right { AreLetters (W.table table.now) pattern.now letters.new }
    ensures blocks { AreBlocksRight (W.table table.now) pattern.now blocks.new }
{
    blocks.pass(table, pattern, letters, pace, piece, reach, looked)
}
