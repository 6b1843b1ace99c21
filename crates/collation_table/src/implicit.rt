//! Implicit weights (UTS #10, section 10.1.3): those of a code point that has no row in the table.
ghost use Rattle.std.specs.Prelude.{◌≡◌, ◌<◌, find, option_copied};
ghost use Rattle.collation_table.specs.Table.{is_in, is_core_ideograph, is_other_ideograph, implicit_base, implicit_weights_of, pair_of_weights};
ghost use Rattle.collation_table.specs.WellFormed.{AreRangesSound};

use crate::elements::Element;
use crate::ranges::{ImplicitRange, first_with_base};

/// The secondary and the tertiary weight of an implicit pair's first element.
const COMMON_SECOND: u16 = 0x20;

const COMMON_THIRD: u16 = 2;

/// The bit that each second weight of a pair (BBBB) has.
const FOLLOWER_BIT: u16 = 0x8000;

/// The code points under one lead, where it is counted by the upper bits of the code point.
const BLOCK: u32 = 0x8000;

fn is_core_ideograph(cp: u32) -> bool
    ensures { result ≡ is_core_ideograph cp }
{
    matches!(
        cp,
        0x4E00..=0x9FFF
            | 0xFA0E..=0xFA0F
            | 0xFA11
            | 0xFA13..=0xFA14
            | 0xFA1F
            | 0xFA21
            | 0xFA23..=0xFA24
            | 0xFA27..=0xFA29
    )
}

fn is_other_ideograph(cp: u32) -> bool
    ensures { result ≡ is_other_ideograph cp }
{
    matches!(
        cp,
        0x3400..=0x4DBF | 0x20000..=0x2A6DF | 0x2A700..=0x2EE5F | 0x30000..=0x323AF
    )
}

fn implicit_base(cp: u32) -> u16
    ensures { result ≡ implicit_base cp }
{
    if is_core_ideograph(cp) {
        0xFB40
    } else if is_other_ideograph(cp) {
        0xFB80
    } else {
        0xFBC0
    }
}

/// The range that holds a code point.
fn range_of(ranges: &[ImplicitRange], cp: u32) -> Option<&ImplicitRange>
    ensures { option_copied result ≡ find (is_in cp) ranges.now }
{
    ranges.iter().find(|range| range.contains(cp))
}

/// The two first weights (AAAA, BBBB) of a code point's implicit pair.
fn implicit_weights(ranges: &[ImplicitRange], cp: u32) -> (u16, u16)
    requires sound { AreRangesSound ranges.now }
    requires code_point { cp < 0x110000 }
    ensures { result ≡ implicit_weights_of ranges.now cp }
{
    match range_of(ranges, cp) {
        Some(range) => {
            let first = first_with_base(range.base, cp, ranges);
            (range.base, FOLLOWER_BIT + (cp - first) as u16)
        }
        None => (
            implicit_base(cp) + (cp / BLOCK) as u16,
            FOLLOWER_BIT + (cp % BLOCK) as u16,
        ),
    }
}

/// The two elements of a code point that has no row.
#[inline(always)]
pub(crate) fn implicit_pair(ranges: &[ImplicitRange], cp: u32) -> [Element; 2]
    requires sound { AreRangesSound ranges.now }
    requires code_point { cp < 0x110000 }
    ensures { result ≡ pair_of_weights (implicit_weights_of ranges.now cp) }
{
    let (lead, follower) = implicit_weights(ranges, cp);
    [
        Element {
            is_variable: false,
            w1: lead,
            w2: COMMON_SECOND,
            w3: COMMON_THIRD,
        },
        Element {
            is_variable: false,
            w1: follower,
            w2: 0,
            w3: 0,
        },
    ]
}
