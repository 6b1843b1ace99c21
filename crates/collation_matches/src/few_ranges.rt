//! How many ranges there may be.
ghost use Rattle.std.specs.Prelude.{ℕ, ◌+◌, ◌≤◌, List, length};
ghost use Rattle.collation_table.specs.Table.{TableMap};
ghost use Rattle.collation_elements.specs.declared.settings.Strength.{Strength};
ghost use Rattle.collation_elements.specs.declared.settings.Variable.{Variable};
ghost use Rattle.collation_matches.specs.Answer.{answer};
ghost use Rattle.collation_matches.specs.Matches.{settled};

/// At most one minimal match begins at each offset of a text, so there are no more of them than bytes, and one.
pub fn one_range_begins_at_an_offset()
    ensures answer { (table : TableMap) (strength : Strength) (variable : Variable)
        (pattern bytes : List ℕ)
        → length (answer table strength variable pattern bytes).ranges ≤ length bytes + 1 }
    ensures settled { (table : TableMap) (strength : Strength) (variable : Variable)
        (pattern text : List ℕ)
        → length (settled table strength variable pattern text) ≤ length text + 1 }
{}
