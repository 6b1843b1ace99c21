//! Laws of symbols and of characters: each is the contract of a function that does nothing.
ghost use Rattle.collation_letters.specs.Laws.{LetterLaws};
ghost use Rattle.collation_letters.specs.Symbols.{NoSymbolIsOfNoKey, NothingWaitsBehindForeignKeys, OneSymbolIsOfTheLastKey, SymbolsAreListed, SymbolsComeInTurn};

use collation_pattern::laws::laws_of_borders;
use nfd_points::laws::{laws_of_decompositions, laws_of_faults, laws_of_ordering, laws_of_points};

/// What points say of characters that are taken before the one that follows.
pub fn laws_of_characters()
    ensures { LetterLaws }
{
    laws_of_decompositions();
    laws_of_faults();
    laws_of_points();
    laws_of_ordering();
}

/// What symbols say of the keys whose symbols they are.
pub fn laws_of_symbols()
    ensures none { NoSymbolIsOfNoKey }
    ensures one { OneSymbolIsOfTheLastKey }
    ensures turn { SymbolsComeInTurn }
    ensures listed { SymbolsAreListed }
    ensures foreign { NothingWaitsBehindForeignKeys }
{
    laws_of_borders();
}
