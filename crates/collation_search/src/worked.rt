//! Worked states: what a search holds and has reported after some bytes, proved by computing.

ghost use Rattle.collation_search.specs.WorkedStatesAfter.{StatesAfter, RangesInTime};

/// The words of a search for `aa`, and of one for a chain of its ranges, after some bytes.
pub fn states_after()
    ensures { StatesAfter }
{}

/// When the range of `a` in `abb` is reported.
pub fn ranges_in_time()
    ensures { RangesInTime }
{}
