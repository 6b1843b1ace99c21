//! Collation elements (UTS #10, section 3.1).
ghost use Rattle.std.specs.Prelude.{◌≡◌};
ghost use Rattle.collation_table.specs.WellFormed.{is_follower, is_lead, is_primary, is_secondary, is_tertiary, skips_level, is_high_variable};
ghost use Rattle.collation_table.specs.Bounds.{is_unusual};

/// The least primary weight of an element of follower form.
const LEAST_FOLLOWER: u16 = 0x8000;

/// The primary weights that take one weight more (UTS #10, section 10.1.3).
const LEAST_LEAD: u16 = 0xFB00;

const GREATEST_LEAD: u16 = 0xFBFF;

/// A collation element: its weights at the first three levels, and whether it is variable.
#[derive(Clone, Copy, PartialEq, Eq, Debug)]
pub struct Element {
    /// Whether variable weighting applies to it (UTS #10, section 4).
    pub is_variable: bool,
    /// The primary weight.
    pub w1: u16,
    /// The secondary weight.
    pub w2: u16,
    /// The tertiary weight.
    pub w3: u16,
}

impl Element {
    /// Whether it has the form of the second element of an implicit pair, `[.BBBB.0000.0000]`.
    pub fn is_follower(&self) -> bool
        ensures { result ≡ is_follower self.now }
    {
        !self.is_variable && self.w1 >= LEAST_FOLLOWER && self.w2 == 0 && self.w3 == 0
    }

    /// Whether it is the first of a pair: a primary weight that the follower's weight belongs to.
    pub fn is_lead(&self) -> bool
        ensures { result ≡ is_lead self.now }
    {
        !self.is_variable
            && (LEAST_LEAD <= self.w1 && self.w1 <= GREATEST_LEAD)
            && !self.is_follower()
    }

    /// Whether it is a primary element. A pair counts as its lead, so a follower is none.
    pub fn is_primary(&self) -> bool
        ensures { result ≡ is_primary self.now }
    {
        self.w1 > 0 && !self.is_follower()
    }

    /// Whether its first weight is zero and its second is not.
    pub fn is_secondary(&self) -> bool
        ensures { result ≡ is_secondary self.now }
    {
        self.w1 == 0 && self.w2 > 0
    }

    /// Whether its third weight alone is not zero.
    pub fn is_tertiary(&self) -> bool
        ensures { result ≡ is_tertiary self.now }
    {
        self.w1 == 0 && self.w2 == 0 && self.w3 > 0
    }

    /// Whether a weight is not zero and that of the next level is (UTS #10, WF1).
    pub(crate) fn skips_level(&self) -> bool
        ensures { result ≡ skips_level self.now }
    {
        !self.is_follower() && (self.w1 > 0 && self.w2 == 0 || self.w2 > 0 && self.w3 == 0)
    }

    /// Whether it may break a condition on its row: its first weight is as high as a follower's, a weight is not zero and the next
    /// one is, or it is variable and its first weight is zero.
    pub(crate) fn is_unusual(&self) -> bool
        ensures { result ≡ is_unusual self.now }
    {
        self.w1 >= LEAST_FOLLOWER
            || self.w1 > 0 && self.w2 == 0
            || self.w2 > 0 && self.w3 == 0
            || self.is_variable && self.w1 == 0
    }

    /// Whether it is variable and its first weight is as high as a lead's.
    pub(crate) fn is_high_variable(&self) -> bool
        ensures { result ≡ is_high_variable self.now }
    {
        self.is_variable && self.w1 >= LEAST_LEAD
    }
}
