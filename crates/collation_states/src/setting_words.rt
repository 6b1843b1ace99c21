//! The words that say the form of a state, and the settings of its search.
ghost use Rattle.std.specs.Prelude.{◌≡◌};
ghost use Rattle.collation_states.specs.State.{form_word, strength_word, variable_word};

use collation_elements::{Strength, Variable};
use collation_matches::Select;

/// The form of the states of a search.
pub(crate) fn word_of_select(select: Select) -> u64
    ensures { result ≡ form_word select }
{
    match select {
        Select::All => 1,
        Select::Chain => 2,
    }
}

/// A strength as a word.
pub(crate) fn word_of_strength(strength: Strength) -> u64
    ensures { result ≡ strength_word strength }
{
    match strength {
        Strength::One => 1,
        Strength::Two => 2,
        Strength::Three => 3,
    }
}

/// A variable weighting as a word.
pub(crate) fn word_of_variable(variable: Variable) -> u64
    ensures { result ≡ variable_word variable }
{
    match variable {
        Variable::NonIgnorable => 0,
        Variable::Shifted => 1,
    }
}
