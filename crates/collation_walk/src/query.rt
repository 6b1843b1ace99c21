//! What a search compares with.
ghost use Rattle.std.specs.Prelude.{◌≡◌};
ghost use Rattle.collation_table.specs.Table.{longest_mapped as longest_key_of};

use collation_pattern::Pattern;
use collation_table::Weights;

/// What a search compares with: a table, and a pattern that was compiled with it.
#[derive(Drop)]
pub struct Query<'a, W: Weights> {
    pub table: &'a W,
    pub pattern: &'a Pattern,
    /// The number of code points of the table's longest key.
    pub longest_key: usize,
    ghost longest: { longest_key ≡ longest_key_of (W.table table.now) },
}
