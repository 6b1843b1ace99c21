//! Ranges of code points with implicit weights of their own (UTS #10, section 10.1.3, `@implicitweights`).
ghost use Rattle.std.specs.Prelude.{◌≡◌, max, map};
ghost use Rattle.std.specs.List.{list_any};
ghost use Rattle.collation_table.specs.Table.{first_with_base, greatest, is_in};
ghost use Rattle.collation_table.specs.WellFormed.{breaks_ranges, overlaps, spreads_too_far, with_base};

/// The primary weights that may represent a range (AAAA).
const LOWEST_BASE: u16 = 0xFB00;

const HIGHEST_BASE: u16 = 0xFB3F;

/// How far the second weight of a pair (BBBB) can count.
const MOST_OFFSET: u32 = 0x7FFF;

/// A range of code points whose implicit weights are counted under a lead of their own.
#[derive(Clone, Copy, PartialEq, Eq, Debug)]
pub struct ImplicitRange {
    /// The first code point.
    pub first: u32,
    /// The last code point, which is in the range.
    pub last: u32,
    /// The primary weight of the first element, AAAA in the standard.
    pub base: u16,
}

impl ImplicitRange {
    /// Whether `cp` is in the range.
    pub(crate) fn contains(&self, cp: u32) -> bool
        ensures { result ≡ is_in cp self.now }
    {
        self.first <= cp && cp <= self.last
    }

    fn overlaps(&self, other: &ImplicitRange) -> bool
        ensures { result ≡ overlaps self.now other.now }
    {
        self.first <= other.last && other.first <= self.last
    }
}

/// The smallest code point of the ranges with this base, or `cp` if that is smaller.
#[tactic(auto, using(crate::proofs::RangeLemmas::smallest_in))]
pub(crate) fn first_with_base(base: u16, cp: u32, ranges: &[ImplicitRange]) -> u32
    ensures { result ≡ first_with_base base cp ranges.now }
{
    let mut first = cp;
    for range in ranges {
        if range.base == base {
            first = first.min(range.first);
        }
    }
    first
}

/// The greatest code point of the ranges with this base, or `cp` if that is greater.
fn last_with_base(base: u16, cp: u32, ranges: &[ImplicitRange]) -> u32
    ensures { result ≡ max cp (greatest (map (λ s. s.last) (with_base base ranges.now))) }
{
    let mut last = cp;
    for range in ranges {
        if range.base == base {
            last = last.max(range.last);
        }
    }
    last
}

/// Whether `range` shares a code point with an earlier one.
fn overlaps_any(earlier: &[ImplicitRange], range: &ImplicitRange) -> bool
    ensures { result ≡ list_any (overlaps range.now) earlier.now }
{
    earlier.iter().any(|other| range.overlaps(other))
}

/// Whether `range` and the earlier ones with its base leave more code points under it than BBBB can count.
fn spreads_too_far(earlier: &[ImplicitRange], range: &ImplicitRange) -> bool
    ensures { result ≡ spreads_too_far earlier.now range.now }
{
    let first = first_with_base(range.base, range.first, earlier);
    let last = last_with_base(range.base, range.last, earlier);
    last.saturating_sub(first) > MOST_OFFSET
}

/// Whether `range`, after the earlier ones, has its ends in the wrong order, a base that is none, a code point that an
/// earlier one has, or leaves more code points under its base than the second weight of a pair can count.
pub(crate) fn breaks_ranges(earlier: &[ImplicitRange], range: &ImplicitRange) -> bool
    ensures { result ≡ breaks_ranges earlier.now range.now }
{
    range.last < range.first
        || !(LOWEST_BASE <= range.base && range.base <= HIGHEST_BASE)
        || overlaps_any(earlier, range)
        || spreads_too_far(earlier, range)
}
