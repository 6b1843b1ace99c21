//! How texts are compared: the strength and the variable weighting (UTS #10, section 4).

/// How many levels of weights are compared.
#[derive(Clone, Copy, Debug, PartialEq, Eq)]
pub enum Strength {
    /// Primary weights alone: base letters.
    One,
    /// Primary and secondary weights: base letters and accents.
    Two,
    /// Primary, secondary and tertiary weights: base letters, accents, and case or other variants.
    Three,
}

/// What becomes of variable elements, as those of spaces and punctuation.
#[derive(Clone, Copy, Debug, PartialEq, Eq)]
pub enum Variable {
    /// They are compared as others are.
    NonIgnorable,
    /// They become ignorable, and with them each primary ignorable element that follows one, up to the next element that
    /// has a primary weight and is not variable.
    Shifted,
}
