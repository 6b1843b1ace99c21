//! A mark that goes before the last ones of a letter, or stands behind a letter out of which a unit may reach. Behind one character it makes a
//! letter with this, which is found once; behind more their characters are read again.
ghost use Rattle.std.specs.Prelude.{IfSome};
ghost use Rattle.std.specs.Str.{chars};
ghost use Rattle.collation_letters.specs.Clusters.{IsCluster};
ghost use Rattle.collation_letters.specs.Letters.{ordered_from};
ghost use Rattle.collation_letters.specs.Store.{AreLetters};
ghost use Rattle.collation_finder.specs.LetterRun.{IsJoined};

use collation_letters::{Cluster, Letter, Letters};
use collation_table::Weights;
use collation_walk::Query;
use utf8_cut::sized_character;

/// The most points of a letter whose characters are read again for one mark more: else a long run of marks would be read as often as it has
/// marks.
const MOST_POINTS_AGAIN: u8 = 4;

/// The letter of the characters `so_far`, which have this letter, and a mark `c` behind them, wherever canonical ordering has it; `None`
/// where that is left to the steps.
#[inline(always)]
pub(crate) fn with_mark<W: Weights>(
    query: &Query<'_, W>,
    letters: &mut Letters,
    so_far: &[u8],
    letter: &Letter,
    c: char,
    mark: &Letter,
) -> Option<Letter>
    requires right { AreLetters (W.table query.now.table.now) query.now.pattern.now letters.old }
    ensures joined { IfSome result (IsJoined (W.table query.now.table.now) query.now.pattern.now
        (chars so_far.now) letter.now c mark.now) }
    ensures right { AreLetters (W.table query.now.table.now) query.now.pattern.now letters.new }
{
    // most marks go behind the others: the rest stands in a function of its own, so that these cost no more
    if !letter.is_closed || (mark.class != 0 && mark.class < letter.class) {
        return with_mark_in_order(query, letters, so_far, letter, c, mark);
    }
    letter.with_mark(*mark)
}

/// The same where the mark does not join the letter as it is.
#[inline(never)]
fn with_mark_in_order<W: Weights>(
    query: &Query<'_, W>,
    letters: &mut Letters,
    so_far: &[u8],
    letter: &Letter,
    c: char,
    mark: &Letter,
) -> Option<Letter>
    requires right { AreLetters (W.table query.now.table.now) query.now.pattern.now letters.old }
    ensures joined { IfSome result (IsJoined (W.table query.now.table.now) query.now.pattern.now
        (chars so_far.now) letter.now c mark.now) }
    ensures right { AreLetters (W.table query.now.table.now) query.now.pattern.now letters.new }
{
    // no mark joins what begins no cluster
    if !letter.role.begins_cluster() || letter.points > MOST_POINTS_AGAIN {
        return None;
    }
    let (first, len) = sized_character(so_far)?;
    if len == so_far.len() {
        let both = letters.pair(query.table, query.pattern, first, c);
        return if both.role.is_steps() {
            None
        } else {
            Some(both)
        };
    }
    // nor does one with which a string of the table may go on
    if !letter.is_closed && query.table.continues_string(c as u32) {
        return None;
    }
    let cluster = read_again(query, letters, so_far)?;
    let both = cluster.with_mark(query.table, c, *mark)?;
    Some(both.letter)
}

/// A text as one cluster: a character and the marks behind it, in any order; `None` where that is left to the steps, or is none.
fn read_again<W: Weights>(
    query: &Query<'_, W>,
    letters: &mut Letters,
    so_far: &[u8],
) -> Option<Cluster>
    requires right { AreLetters (W.table query.now.table.now) query.now.pattern.now letters.old }
    ensures cluster { IfSome result (IsCluster (W.table query.now.table.now) query.now.pattern.now
        (ordered_from 0 (chars so_far.now))) }
    ensures right { AreLetters (W.table query.now.table.now) query.now.pattern.now letters.new }
{
    let (first, len) = sized_character(so_far)?;
    let mut cluster = Cluster::new(letters.letter(query.table, query.pattern, first));
    let mut at = len;
    'marks: while at < so_far.len() {
        let (c, len) = sized_character(&so_far[at..])?;
        let mark = letters.letter(query.table, query.pattern, c);
        cluster = cluster.with_mark(query.table, c, mark)?;
        at += len;
    }
    Some(cluster)
}
