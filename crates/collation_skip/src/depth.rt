//! How many of a pattern's first keys have matched behind a letter.
ghost use Rattle.std.specs.Prelude.{◌≡◌, ◌≤◌, ◌++◌, List, length, Some};
ghost use Rattle.collation_elements.specs.declared.keys.Key.{Key as KeyValue};
ghost use Rattle.collation_pattern.specs.Border.{border};
ghost use Rattle.collation_letters.specs.Symbols.{AreLastSymbols, AreSymbolsAt, listed, some_symbol};

use collation_letters::{NO_SYMBOL, Symbols, advance, laws_of_symbols};
use collation_pattern::Pattern;

/// How many of the pattern's first keys end those so far and those with these symbols, where so many end those so far.
pub(crate) fn depth_after(pattern: &Pattern, depth: usize, symbols: Symbols) -> usize
    requires { depth ≤ length pattern.now.keys }
    ensures { (before keys : List KeyValue)
        → AreSymbolsAt (Some depth) pattern.now.keys keys (listed symbols)
        → border pattern.now.keys before ≡ depth
        → border pattern.now.keys (before ++ keys) ≡ result }
{
    laws_of_symbols();
    let depth = depth_after_one(pattern, depth, symbols.first);
    let depth = depth_after_one(pattern, depth, symbols.second);
    depth_after_one(pattern, depth, symbols.third)
}

/// The same of the keys of one symbol, or of none.
fn depth_after_one(pattern: &Pattern, depth: usize, symbol: u8) -> usize
    requires { depth ≤ length pattern.now.keys }
    ensures border { (before keys : List KeyValue)
        → AreLastSymbols pattern.now.keys keys (some_symbol symbol)
        → border pattern.now.keys before ≡ depth
        → border pattern.now.keys (before ++ keys) ≡ result }
    ensures foreign { symbol ≡ 0 → result ≡ 0 }
    ensures within { result ≤ length pattern.now.keys }
{
    laws_of_symbols();
    if symbol == NO_SYMBOL {
        return depth;
    }
    advance(pattern, depth, symbol)
}
