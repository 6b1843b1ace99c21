//! Symbols: the keys of a text as a pattern sees them.
ghost use Rattle.std.specs.Prelude.{◌≡◌, ◌≢◌, ◌<◌, ◌≤◌, ◌∷◌, ◌++◌, ℕ, List, [], length, Option, IfSome};
ghost use Rattle.collation_elements.specs.declared.keys.Key.{Key as KeyValue};
ghost use Rattle.collation_pattern.specs.Border.{border};
ghost use Rattle.collation_letters.specs.declared.symbols.TheConstants.{FOREIGN};
ghost use Rattle.collation_letters.specs.Symbols.{AreLastSymbols, AreSymbolsAt, IsSymbol, listed, some_symbol};

use collation_elements::Key;
use collation_pattern::Pattern;
use collation_pattern::laws::laws_of_borders;

/// The symbol of a key that the pattern does not have.
pub const FOREIGN: u8 = 0;

/// The symbol of the pattern's first key.
pub const FIRST: u8 = 1;

/// No symbol.
pub const NO_SYMBOL: u8 = 255;

/// How many keys at the beginning of a pattern have symbols.
const MOST_SYMBOLS: usize = 254;

/// How many keys of a pattern are compared at most where a letter is found.
const MOST_KEYS: usize = 1_024;

/// Of which lengths the patterns are whose keys have symbols.
#[derive(Clone, Copy)]
pub(crate) enum Lengths {
    /// Up to `MOST_KEYS` keys.
    Short,
    /// Any number of keys.
    Any,
}

/// Up to three symbols.
#[derive(Clone, Copy, Debug, PartialEq, Eq)]
pub struct Symbols {
    /// The first of three, or none.
    pub first: u8,
    /// The last but one, or none.
    pub second: u8,
    /// The last one, or none.
    pub third: u8,
}

pub const NO_SYMBOLS: Symbols = Symbols {
    first: NO_SYMBOL,
    second: NO_SYMBOL,
    third: NO_SYMBOL,
};

impl Symbols {
    /// These symbols and one more; `None` where there is no room.
    pub fn with(self, symbol: u8) -> Option<Symbols>
        requires { symbol < 255 }
        ensures { IfSome result (λ all. (depth : Option ℕ) (pattern keys more : List KeyValue)
            → AreSymbolsAt depth pattern keys (listed self)
            → AreLastSymbols pattern more (symbol ∷ [])
            → AreSymbolsAt depth pattern (keys ++ more) (listed all)) }
    {
        if symbol == FOREIGN {
            return Some(Symbols {
                first: NO_SYMBOL,
                second: NO_SYMBOL,
                third: FOREIGN,
            });
        }
        if self.first != NO_SYMBOL {
            return None;
        }
        Some(Symbols {
            first: self.second,
            second: self.third,
            third: symbol,
        })
    }

    /// These symbols and those of keys that follow; `None` where there is no room.
    pub fn with_all(self, more: Symbols) -> Option<Symbols>
        ensures { IfSome result (λ all. (depth : Option ℕ) (pattern keys later : List KeyValue)
            → AreSymbolsAt depth pattern keys (listed self)
            → AreLastSymbols pattern later (listed more)
            → AreSymbolsAt depth pattern (keys ++ later) (listed all)) }
    {
        let all = with_some(self, more.first)?;
        let all = with_some(all, more.second)?;
        with_some(all, more.third)
    }
}

/// These symbols and one more, if it is one.
fn with_some(symbols: Symbols, symbol: u8) -> Option<Symbols>
    ensures { IfSome result (λ all. (depth : Option ℕ) (pattern keys more : List KeyValue)
        → AreSymbolsAt depth pattern keys (listed symbols)
        → AreLastSymbols pattern more (some_symbol symbol)
        → AreSymbolsAt depth pattern (keys ++ more) (listed all)) }
{
    if symbol == NO_SYMBOL {
        return Some(symbols);
    }
    symbols.with(symbol)
}

/// The symbol of a key; `None` where the pattern has it first behind the keys that have symbols, or has too many keys.
pub fn symbol_of(pattern: &Pattern, key: &Key) -> Option<u8>
    ensures symbol { IfSome result (λ symbol. IsSymbol pattern.now.keys key.now symbol) }
    ensures below { IfSome result (λ symbol. symbol < 255) }
{
    if pattern.keys().len() > MOST_KEYS {
        return None;
    }
    symbol_in(pattern, key)
}

/// The symbol of a key of a pattern of any length; `None` where the pattern has it first behind the keys that have symbols, or may have
/// it behind those that are compared. Of most keys that the pattern does not have, one look says so; of most others one more says where
/// they stand, or that they stand behind those that have symbols.
pub fn symbol_in(pattern: &Pattern, key: &Key) -> Option<u8>
    ensures symbol { IfSome result (λ symbol. IsSymbol pattern.now.keys key.now symbol) }
    ensures below { IfSome result (λ symbol. symbol < 255) }
{
    if !pattern.may_have(key) {
        return Some(FOREIGN);
    }
    let keys = pattern.keys();
    // of a long pattern those that have symbols are enough: whatever stands behind them, the answer is `None`
    let compared = if keys.len() > MOST_KEYS {
        MOST_SYMBOLS
    } else {
        keys.len()
    };
    for place in pattern.may_have_from(key)..compared {
        if keys[place] == *key {
            if place >= MOST_SYMBOLS {
                return None;
            }
            return Some(place as u8 + 1);
        }
    }
    if compared < keys.len() {
        return None;
    }
    Some(FOREIGN)
}

/// The symbol of a key, where patterns of these lengths have symbols.
pub(crate) fn symbol_for(pattern: &Pattern, lengths: Lengths, key: &Key) -> Option<u8>
    ensures symbol { IfSome result (λ symbol. IsSymbol pattern.now.keys key.now symbol) }
    ensures below { IfSome result (λ symbol. symbol < 255) }
{
    match lengths {
        Lengths::Short => symbol_of(pattern, key),
        Lengths::Any => symbol_in(pattern, key),
    }
}

/// How many keys of the pattern have matched after a key with this symbol, where so many had before it.
#[inline(always)]
pub fn advance(pattern: &Pattern, state: usize, symbol: u8) -> usize
    requires { state ≤ length pattern.now.keys }
    ensures border { (ks : List KeyValue) (key : KeyValue) → IsSymbol pattern.now.keys key symbol
        → border pattern.now.keys ks ≡ state → result ≡ border pattern.now.keys (ks ++ key ∷ []) }
    ensures within { result ≤ length pattern.now.keys }
    ensures foreign { symbol ≡ FOREIGN → result ≡ 0 }
    ensures other { state ≡ 0 → symbol ≢ 1 → result ≡ 0 }
{
    laws_of_borders();
    // where no prefix has matched one comparison is enough, and most symbols give the same answer
    if state == 0 {
        if symbol != FIRST {
            return 0;
        }
        return pattern.len().min(1);
    }
    if symbol == FOREIGN {
        return 0;
    }
    let keys = pattern.keys();
    let place = symbol as usize - 1;
    if place >= keys.len() {
        return 0;
    }
    pattern.advance(state, &keys[place])
}
