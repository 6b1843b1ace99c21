//! From letters to ranges: a letter's keys and the start of its cluster are its own, so a matcher takes them without units.
ghost use Rattle.std.specs.Prelude.{◌≡◌, ◌≢◌, ◌≤◌, length, false};
ghost use Rattle.collation_letters.specs.Letters.{is_mark};
ghost use Rattle.collation_letters.specs.declared.letter.Role.TheVariants.{Steps, Plain};
ghost use Rattle.collation_walk.specs.HandingOut.{HandsOut};
ghost use Rattle.collation_walk.specs.Walked.{WalksLetter};
ghost use Rattle.collation_walk.specs.Walks.{KeepsWalk};

use crate::handing_out::call;
use crate::matching::Matcher;
use crate::query::Query;
use collation_elements::{Weigher, weighers_go_on};
use collation_letters::{Letter, Role, laws_of_symbols};
use collation_table::Weights;
use nfd_points::laws::laws_of_points;

/// Walks over the characters of a letter, of which the first stands at a byte offset, and hands out the range that became known, if there
/// is one. It answers whether there was one, of which no clause speaks: a caller that wants one range stops there.
#[inline(always)]
pub fn walk_letter<W: Weights, F: FnMut(u64, u64)>(
    matcher: &mut Matcher,
    query: &Query<'_, W>,
    letter: &Letter,
    start: u64,
    sink: &mut F,
) -> bool
    requires known { (letter.now.role ≢ Steps) × (is_mark letter.now.role ≡ false) }
    requires state { matcher.old.walk.state ≤ length query.now.pattern.now.keys }
    requires callable { F.IsAlwaysCallable sink.old }
    ensures walked { HandsOut F.step sink.old sink.new
        (WalksLetter (W.table query.now.table.now) query.now.pattern.now matcher.old matcher.new
        letter.now start) }
    ensures keeps { KeepsWalk query.now.pattern.now matcher.old.walk matcher.new.walk }
    ensures callable { F.IsAlwaysCallable sink.new }
{
    match letter.role {
        Role::Plain => walk_plain(matcher, query, letter, start, sink),
        _ => walk_any(matcher, query, letter, start, sink),
    }
}

/// The same of a plain letter, as most are.
#[inline(always)]
fn walk_plain<W: Weights, F: FnMut(u64, u64)>(
    matcher: &mut Matcher,
    query: &Query<'_, W>,
    letter: &Letter,
    start: u64,
    sink: &mut F,
) -> bool
    requires plain { letter.now.role ≡ Plain }
    requires state { matcher.old.walk.state ≤ length query.now.pattern.now.keys }
    requires callable { F.IsAlwaysCallable sink.old }
    ensures walked { HandsOut F.step sink.old sink.new
        (WalksLetter (W.table query.now.table.now) query.now.pattern.now matcher.old matcher.new
        letter.now start) }
    ensures keeps { KeepsWalk query.now.pattern.now matcher.old.walk matcher.new.walk }
    ensures callable { F.IsAlwaysCallable sink.new }
{
    laws_of_points();
    laws_of_symbols();
    weighers_go_on();
    let pattern = query.pattern;
    let symbol = letter.symbols.third;
    let range = matcher.walk.take_plain(pattern, symbol, start);
    matcher.weigher = Weigher::restore(pattern.strength(), pattern.variable(), false);
    call(range, sink);
    range.is_some()
}

/// The same of any letter.
#[inline(never)]
fn walk_any<W: Weights, F: FnMut(u64, u64)>(
    matcher: &mut Matcher,
    query: &Query<'_, W>,
    letter: &Letter,
    start: u64,
    sink: &mut F,
) -> bool
    requires known { (letter.now.role ≢ Steps) × (is_mark letter.now.role ≡ false) }
    requires state { matcher.old.walk.state ≤ length query.now.pattern.now.keys }
    requires callable { F.IsAlwaysCallable sink.old }
    ensures walked { HandsOut F.step sink.old sink.new
        (WalksLetter (W.table query.now.table.now) query.now.pattern.now matcher.old matcher.new
        letter.now start) }
    ensures keeps { KeepsWalk query.now.pattern.now matcher.old.walk matcher.new.walk }
    ensures callable { F.IsAlwaysCallable sink.new }
{
    laws_of_points();
    weighers_go_on();
    let pattern = query.pattern;
    let range = matcher.walk.take_letter(pattern, letter, start);
    let after = letter.role.flag_after(matcher.weigher.after_variable());
    matcher.weigher = Weigher::restore(pattern.strength(), pattern.variable(), after);
    call(range, sink);
    range.is_some()
}
