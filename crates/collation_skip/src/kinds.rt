//! What a character is to a place of the pattern, by its letter.
ghost use Rattle.std.specs.Prelude.{◌≡◌, ◌<◌, ◌∷◌, [], ℕ, false, true, length};
ghost use Rattle.collation_table.specs.Table.{TableMap};
ghost use Rattle.collation_letters.specs.Letters.{IsLetter};
ghost use Rattle.collation_skip.specs.Blocks.{IsLone, IsNotAt, IsOfKind, LeavesNone, most};

use collation_letters::{FOREIGN, Letter, NO_SYMBOL, Role, laws_of_symbols};
use collation_pattern::Pattern;
use collation_pattern::laws::laws_of_borders;
use nfd_points::laws::laws_of_points;

/// What a character is to a place of the pattern.
#[derive(Clone, Copy, Debug)]
pub(crate) struct Kind {
    /// It can't be passed.
    pub(crate) halt: bool,
    /// Its last key may be the pattern's at the place.
    pub(crate) key: bool,
    /// It has no key, or its last one may be the pattern's behind the place.
    pub(crate) later: bool,
    /// A unit may reach out of it.
    pub(crate) joins: bool,
    /// A unit may reach into it.
    pub(crate) inner: bool,
}

/// How many of the pattern's keys may have matched in text that is passed.
pub(crate) fn most_matched(pattern: &Pattern, place: usize) -> usize
    requires { place < length pattern.now.keys }
    ensures { result ≡ most pattern.now.keys place }
{
    let last = pattern.keys().len() - 1;
    if place < last { place + 1 } else { last }
}

/// Whether no key of the pattern waits behind a cluster with this letter, where as many have matched before it as may have in text that is
/// passed.
pub(crate) fn leaves_none(pattern: &Pattern, letter: &Letter, place: usize) -> bool
    requires { place < length pattern.now.keys }
    ensures { result ≡ true → LeavesNone (most pattern.now.keys place) letter.now }
{
    let matched = most_matched(pattern, place);
    let symbol = letter.symbols.third;
    match letter.role {
        Role::Plain => {
            symbol != NO_SYMBOL && (symbol == FOREIGN || symbol as usize - 1 > matched)
        }
        _ => false,
    }
}

/// What a character with this letter is to a place of the pattern.
pub(crate) fn kind_of(pattern: &Pattern, letter: &Letter, place: usize) -> Kind
    requires { place < length pattern.now.keys }
    ensures { (table : TableMap) (c : ℕ) → IsLetter table pattern.now (c ∷ []) letter.now
        → IsOfKind table pattern.now place c result }
{
    laws_of_points();
    laws_of_symbols();
    laws_of_borders();
    let symbol = letter.symbols.third;
    let most = most_matched(pattern, place);
    let key = may_be(pattern, symbol, place);
    Kind {
        halt: must_halt(letter, key, place, most),
        key,
        later: may_come_later(pattern, symbol, most),
        joins: !letter.is_closed,
        inner: !letter.is_apart,
    }
}

/// Whether a letter can't be passed: it is left to the steps or has several symbols, or its key may be the last one that a match needs.
fn must_halt(letter: &Letter, is_key: bool, place: usize, most: usize) -> bool
    ensures lone { result ≡ false → IsLone letter.now }
    ensures last { result ≡ false → most ≡ place → is_key ≡ false }
{
    !is_lone(letter) || (is_key && most == place)
}

/// Whether there is no key, or one with this symbol may be the pattern's at a place.
fn may_come_later(pattern: &Pattern, symbol: u8, place: usize) -> bool
    requires { place < length pattern.now.keys }
    ensures some { result ≡ false → symbol < 255 }
    ensures other { result ≡ false → IsNotAt pattern.now.keys symbol place }
{
    symbol == NO_SYMBOL || may_be(pattern, symbol, place)
}

/// Whether the letter begins with a starter, is not left to the steps, and has one symbol at most.
fn is_lone(letter: &Letter) -> bool
    ensures { result ≡ true → IsLone letter.now }
{
    match letter.role {
        Role::Plain | Role::Base | Role::VariableBase | Role::Silent => {
            letter.symbols.first == NO_SYMBOL && letter.symbols.second == NO_SYMBOL
        }
        Role::Steps | Role::PrimaryMark | Role::Mark => false,
    }
}

/// Whether a key with this symbol may be the pattern's at a place.
fn may_be(pattern: &Pattern, symbol: u8, place: usize) -> bool
    requires { place < length pattern.now.keys }
    ensures { result ≡ false → IsNotAt pattern.now.keys symbol place }
{
    if symbol == FOREIGN || symbol == NO_SYMBOL {
        return false;
    }
    let keys = pattern.keys();
    let first = symbol as usize - 1;
    first >= keys.len() || keys[first] == keys[place]
}
