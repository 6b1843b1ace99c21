//! How much of a pattern ends a list of keys that grows by one key after the other, by a table of borders (the automaton of
//! Knuth, Morris and Pratt).
//!
//! The entry i of a table belongs to the first i + 1 keys of a pattern. It is the length of the longest prefix of the
//! pattern that is shorter than these keys and ends them.

ghost use Rattle.std.specs.Prelude.{◌≡◌, ◌≤◌, [], ◌∷◌, ◌++◌, ◌↔◌, length, take, IfOk, IsTrue};
ghost use Rattle.collation_pattern.specs.Border.{border};
ghost use Rattle.collation_pattern.specs.Borders.{AreBorders, IsNextKey};

use collation_elements::Key;
use std::alloc::{AllocError, Global};

/// The table of borders of some keys, with an entry for each key.
pub fn borders_of(alloc: Global, keys: &[Key]) -> Result<Vec<usize>, AllocError>
    ensures length { IfOk result (λ borders. length borders.items ≡ length keys.now) }
    ensures borders { IfOk result (λ borders. AreBorders keys.now borders.items) }
{
    let mut borders = Vec::new(alloc);
    let mut state = 0;
    for (i, key) in keys.iter().enumerate() {
        if i > 0 {
            state = state_after(keys, &borders, state, key);
        }
        borders.push(state)?;
    }
    Ok(borders)
}

/// How many keys at the beginning of a pattern end its first `state` keys with one key more, by a table that has an entry
/// for each of these.
pub fn state_after(keys: &[Key], borders: &[usize], state: usize, key: &Key) -> usize
    requires within { state ≤ length keys.now }
    requires known { state ≤ length borders.now }
    requires borders { AreBorders keys.now borders.now }
    ensures { result ≡ border keys.now (take state keys.now ++ key.now ∷ []) }
{
    let mut candidate = state;
    'candidates: loop {
        if is_next(keys, candidate, key) {
            return candidate + 1;
        }
        if candidate == 0 {
            return 0;
        }
        candidate = borders[candidate - 1];
    }
}

/// Whether a key stands after the first `len` of some keys.
fn is_next(keys: &[Key], len: usize, key: &Key) -> bool
    ensures { IsTrue result ↔ IsNextKey keys.now len key.now }
{
    len < keys.len() && keys[len] == *key
}
