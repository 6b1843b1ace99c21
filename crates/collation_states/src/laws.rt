//! Laws of states, each the promise of a function that does nothing.
ghost use Rattle.collation_states.specs.Laws.{StatesAreAccepted, StatesAreReadBack, WordsAreThoseOfTheirState, StatesAreRecords};

/// The words of a state that a search may hold pass the tests, and they say that state. Words that pass the tests are those of the
/// state that they say, where each code point is its own decomposition.
pub fn laws_of_states()
    ensures accepted { StatesAreAccepted }
    ensures back { StatesAreReadBack }
    ensures words { WordsAreThoseOfTheirState }
    ensures records { StatesAreRecords }
{}
