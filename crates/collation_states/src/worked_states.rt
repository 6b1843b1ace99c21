//! Worked lists of words: which are states, and which kind of fault the others have, proved by computing.

ghost use Rattle.collation_states.specs.WorkedStates.{AcceptedStates, ChangedStates, ChainStates};

/// States of a search for `aa` after some bytes.
pub fn accepted_states()
    ensures { AcceptedStates }
{}

/// The state after `a`, with one word changed.
pub fn changed_states()
    ensures { ChangedStates }
{}

/// States of a search for a chain of the ranges of `aa`, and what they are with a word changed.
pub fn chain_states()
    ensures { ChainStates }
{}
