//! The letter of a character, as the table says it.
ghost use Rattle.std.specs.Prelude.{◌≡◌, ◌≢◌, ◌≤◌, List, [], ◌∷◌, ◌++◌, true, false, None, length, All, IfSome};
ghost use Rattle.std.specs.Option.{ForSome, option_to_list};
ghost use Rattle.nfd_points.specs.declared.limits.TheConstants.{MOST_DECOMPOSITION, MOST_WAITING};
ghost use Rattle.nfd_points.specs.Points.{begins_with_starter, is_in_order};
ghost use Rattle.nfd_points.specs.Reordering.{IsSoundPoint};
ghost use Rattle.collation_table.specs.Table.{BeginsNoLongerString};
ghost use Rattle.collation_elements.specs.declared.keys.Key.{Key as KeyValue};
ghost use Rattle.collation_elements.specs.CharacterItems.{AreItemsOfPoints, character_keys};
ghost use Rattle.collation_elements.specs.Weighing.{weigher};
ghost use Rattle.collation_letters.specs.Finding.{AreItemsOfRole, HasRole, IsLastClass, IsSilent};
ghost use Rattle.collation_letters.specs.Letters.{AreApart, AreClosed, IsLetter, IsLetterOf, IsPossible, is_mark};
ghost use Rattle.collation_letters.specs.Symbols.{AreLastSymbols, listed};
ghost use Rattle.collation_letters.specs.declared.letter.Role.TheVariants.{Steps as LeftToSteps, Plain};

use crate::letter::{Letter, Role};
use crate::symbols::{Lengths, NO_SYMBOLS, Symbols, symbol_for};
use collation_elements::{
    CharacterItems, Key, Variable, Weigher, Window, begin_anew, units_stay_apart,
};
use collation_pattern::Pattern;
use collation_table::Weights;
use nfd_points::laws::{laws_of_decompositions, laws_of_points};
use nfd_points::{Point, points_of_character};

/// The letter of a character, where patterns of these lengths have symbols. Its points go through the window, which is then as it was.
pub(crate) fn find_letter<W: Weights>(
    table: &W,
    pattern: &Pattern,
    lengths: Lengths,
    window: &mut Window,
    c: char,
) -> Letter
    requires empty { window.old.points ≡ [] }
    requires open { window.old.has_ended ≡ false }
    requires room { MOST_DECOMPOSITION ≤ window.old.capacity }
    ensures window { window.new ≡ window.old }
    ensures letter { IsLetter (W.table table.now) pattern.now (c ∷ []) result }
{
    units_stay_apart();
    laws_of_decompositions();
    laws_of_points();
    let points = points_of_character(c, 0);
    let points = points.as_slice();
    let is_closed = are_closed(table, points);
    let letter = letter_of(table, pattern, lengths, window, points, is_closed);
    Letter {
        is_apart: begin_apart(table, points, letter.role),
        ..letter
    }
}

/// The letter of points in canonical order, out of which no unit reaches where `is_closed` says so. It says nothing of units that reach into
/// them. They go through the window, which is then as it was.
pub(crate) fn letter_of<W: Weights>(
    table: &W,
    pattern: &Pattern,
    lengths: Lengths,
    window: &mut Window,
    points: &[Point],
    is_closed: bool,
) -> Letter
    requires empty { window.old.points ≡ [] }
    requires open { window.old.has_ended ≡ false }
    requires room { length points.now ≤ window.old.capacity }
    requires some { 1 ≤ length points.now }
    requires few { length points.now ≤ MOST_WAITING }
    requires sound { All IsSoundPoint points.now }
    requires in_order { is_in_order points.now ≡ true }
    requires closed { is_closed ≡ true → AreClosed (W.table table.now) points.now }
    ensures window { window.new ≡ window.old }
    ensures letter { IsLetterOf (W.table table.now) pattern.now points.now result }
{
    let (role, symbols) = match items_of(table, pattern, window, points) {
        Some((plain, after)) => {
            role_and_symbols(pattern, lengths, points, is_closed, &plain, &after)
        }
        None => (Role::Steps, NO_SYMBOLS),
    };
    let letter = Letter {
        role,
        is_closed,
        is_apart: false,
        points: points.len() as u8,
        class: last_class(points),
        symbols,
    };
    letter.settled()
}

/// Whether none of these points begins a mapped string of two or more code points, as far as the table knows.
pub(crate) fn are_closed<W: Weights>(table: &W, points: &[Point]) -> bool
    ensures { result ≡ true → All (λ p. BeginsNoLongerString (W.table table.now) p.cp) points.now }
{
    for point in points {
        if table.begins_longer_string(point.cp) {
            return false;
        }
    }
    true
}

/// Whether these points begin with a starter.
pub(crate) fn begins_with_starter(points: &[Point]) -> bool
    ensures { result ≡ begins_with_starter points.now }
{
    match points {
        [] => true,
        [first, ..] => first.ccc == 0,
    }
}

/// Whether the first of these points is a starter that stands in no mapped string after the first place, as far as the table knows.
pub(crate) fn are_apart<W: Weights>(table: &W, points: &[Point]) -> bool
    ensures { result ≡ true → AreApart (W.table table.now) points.now }
{
    match points {
        [] => false,
        [first, ..] => first.ccc == 0 && !table.continues_string(first.cp),
    }
}

/// The same of points that are no mark; of a mark it is not said, so that it begins no letter.
fn begin_apart<W: Weights>(table: &W, points: &[Point], role: Role) -> bool
    ensures { result ≡ true → AreApart (W.table table.now) points.now }
{
    !role.is_mark() && are_apart(table, points)
}

/// The class of the last of these points.
fn last_class(points: &[Point]) -> u8
    ensures { IsLastClass points.now result }
{
    match points {
        [] => 0,
        [.., last] => last.ccc,
    }
}

/// The items of these points where the last element that was variable or primary was not variable, and where it was, if that may
/// be; `None` where there are more than three keys.
fn items_of<W: Weights>(
    table: &W,
    pattern: &Pattern,
    window: &mut Window,
    points: &[Point],
) -> Option<(CharacterItems, Option<CharacterItems>)>
    requires empty { window.old.points ≡ [] }
    requires open { window.old.has_ended ≡ false }
    requires room { length points.now ≤ window.old.capacity }
    requires sound { All IsSoundPoint points.now }
    ensures window { window.new ≡ window.old }
    ensures plain { IfSome result (λ r.
        AreItemsOfPoints (W.table table.now)
        (weigher pattern.now.strength pattern.now.variable false) points.now r.0) }
    ensures after { IfSome result (λ r. IsPossible pattern.now.variable true → IfSome r.1
        (AreItemsOfPoints (W.table table.now)
        (weigher pattern.now.strength pattern.now.variable true) points.now)) }
    ensures some { IfSome result (λ r. IsPossible pattern.now.variable true → r.1 ≢ None) }
{
    let (strength, variable) = (pattern.strength(), pattern.variable());
    let plain = Weigher::restore(strength, variable, false);
    let plain = CharacterItems::of_points(table, window, plain, points)?;
    if variable == Variable::NonIgnorable {
        return Some((plain, None));
    }
    if begin_anew(table, points) {
        return Some((plain, Some(plain)));
    }
    let after = Weigher::restore(strength, variable, true);
    let after = CharacterItems::of_points(table, window, after, points)?;
    Some((plain, Some(after)))
}

/// What a search does with points that have these items, and the symbols of their keys.
fn role_and_symbols(
    pattern: &Pattern,
    lengths: Lengths,
    points: &[Point],
    is_closed: bool,
    plain: &CharacterItems,
    after: &Option<CharacterItems>,
) -> (Role, Symbols)
    ensures role { let role = result.0 in role ≢ LeftToSteps
        → HasRole points.now plain.now after.now role }
    ensures other { let role = result.0 in role ≢ Plain }
    ensures symbols { let role = result.0 in role ≢ LeftToSteps
        → AreLastSymbols pattern.now.keys (character_keys plain.now) (listed result.1) }
{
    match symbols_of(pattern, lengths, plain) {
        Some(symbols) => (role_of(points, is_closed, plain, after), symbols),
        None => (Role::Steps, NO_SYMBOLS),
    }
}

/// What a search does with points that have these items.
fn role_of(
    points: &[Point],
    is_closed: bool,
    plain: &CharacterItems,
    after: &Option<CharacterItems>,
) -> Role
    ensures other { result ≢ Plain }
    ensures role { result ≢ LeftToSteps → HasRole points.now plain.now after.now result }
{
    if begins_with_starter(points) {
        let role = role_of_starter(plain, after);
        if !role.is_steps() {
            return role;
        }
    }
    if is_closed && points.len() == 1 {
        return role_of_mark(plain, after);
    }
    Role::Steps
}

/// What a search does with points that begin with a starter and are no mark.
fn role_of_starter(plain: &CharacterItems, after: &Option<CharacterItems>) -> Role
    ensures other { result ≢ Plain }
    ensures role { result ≢ LeftToSteps → (is_mark result ≡ false)
        × AreItemsOfRole plain.now after.now result }
{
    if plain.begins_cluster {
        return match (is_as(plain, after), plain.after_variable) {
            (false, _) => Role::Steps,
            (true, false) => Role::Base,
            (true, true) => Role::VariableBase,
        };
    }
    if says_nothing(plain, false) && is_silent(after) {
        return Role::Silent;
    }
    Role::Steps
}

/// What a search does with one point as a mark.
fn role_of_mark(plain: &CharacterItems, after: &Option<CharacterItems>) -> Role
    ensures other { result ≢ Plain }
    ensures role { result ≢ LeftToSteps → (is_mark result ≡ true)
        × AreItemsOfRole plain.now after.now result }
{
    if plain.begins_cluster || plain.after_variable {
        return Role::Steps;
    }
    if is_as(plain, after) {
        return Role::PrimaryMark;
    }
    if is_silent(after) {
        return Role::Mark;
    }
    Role::Steps
}

/// Whether behind a variable element the items are the same, if they are known.
fn is_as(plain: &CharacterItems, after: &Option<CharacterItems>) -> bool
    ensures { result ≡ true → ForSome after.now (λ it. it ≡ plain.now) }
{
    match after {
        Some(after) => after == plain,
        None => true,
    }
}

/// Whether behind a variable element there are no items, and what follows stands behind a variable element too.
fn is_silent(after: &Option<CharacterItems>) -> bool
    ensures { result ≡ true → ForSome after.now (IsSilent true) }
{
    match after {
        Some(after) => says_nothing(after, true),
        None => true,
    }
}

/// Whether there are no items, and the flag after them is this.
fn says_nothing(items: &CharacterItems, flag: bool) -> bool
    ensures { result ≡ true → IsSilent flag items.now }
{
    !items.begins_cluster
        && items.after_variable == flag
        && items.first.is_none()
        && items.second.is_none()
        && items.third.is_none()
}

/// The symbols of the keys among these items; `None` where one of them has none.
fn symbols_of(pattern: &Pattern, lengths: Lengths, items: &CharacterItems) -> Option<Symbols>
    ensures { IfSome result (λ symbols.
        AreLastSymbols pattern.now.keys (character_keys items.now) (listed symbols)) }
{
    let symbols = with_key(pattern, lengths, NO_SYMBOLS, items.first)?;
    let symbols = with_key(pattern, lengths, symbols, items.second)?;
    with_key(pattern, lengths, symbols, items.third)
}

/// These symbols and that of a key, if there is one; `None` where it has none.
fn with_key(
    pattern: &Pattern,
    lengths: Lengths,
    symbols: Symbols,
    key: Option<Key>,
) -> Option<Symbols>
    ensures { IfSome result (λ all. (keys : List KeyValue)
        → AreLastSymbols pattern.now.keys keys (listed symbols)
        → AreLastSymbols pattern.now.keys (keys ++ option_to_list key) (listed all)) }
{
    match key {
        None => Some(symbols),
        Some(key) => symbols.with(symbol_for(pattern, lengths, &key)?),
    }
}
