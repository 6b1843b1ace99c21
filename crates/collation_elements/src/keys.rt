//! What is compared: the keys of collation elements, and the items of a text.

/// A collation element that is not ignorable up to a strength. Weights past the strength are 0.
#[derive(Clone, Copy, Debug, PartialEq, Eq)]
pub enum Key {
    /// The primary, secondary and tertiary weight of an element with a primary weight.
    Primary(u16, u16, u16),
    /// A pair of elements that represents one character (UTS #10, section 10.1.3): both primary weights, and the
    /// secondary and tertiary weight of the first.
    Pair(u16, u16, u16, u16),
    /// The secondary and tertiary weight of an element without a primary weight.
    Secondary(u16, u16),
    /// The tertiary weight of an element without a primary and a secondary weight.
    Tertiary(u16),
}

/// What a text is made of, in order.
#[derive(Clone, Copy, Debug, PartialEq, Eq)]
pub enum Item {
    /// A cluster begins at this offset, in bytes from the beginning of the text.
    ClusterStart(u64),
    /// The next key.
    Element(Key),
}

/// A fixed vector of items fills its unused places with this.
impl Default for Item {
    ghost use Rattle.std.specs.Prelude.{◌≡◌};
    ghost use Rattle.collation_elements.specs.declared.keys.Item.TheVariants.{ClusterStart};

    ghost is_default = { λ x. x ≡ ClusterStart 0 };

    fn default() -> Self {
        Item::ClusterStart(0)
    }
}
