//! Whether the decomposition of one code point is at fault, with the run of non-starters before it.
ghost use Rattle.std.specs.Prelude.{◌≡◌, ◌≤◌};
ghost use Rattle.std.specs.Option.{option_map};
ghost use Rattle.unicode_normalization.specs.StreamSafe.{has_short_runs};
ghost use Rattle.nfd_points.specs.PointFaults.{part_fault};

use crate::faults::PointFault;
use crate::limits::{MOST_DECOMPOSITION, MOST_WAITING};
use unicode_normalization::char::canonical_combining_class;

/// Whether no run of non-starters gets longer than `MOST_WAITING` by these code points, with `run` of them before.
fn has_room(mut run: usize, parts: &[char]) -> bool
    requires { run ≤ MOST_WAITING }
    ensures { result ≡ has_short_runs run parts.now }
{
    if parts.len() <= MOST_WAITING - run {
        return true;
    }
    for part in parts {
        if canonical_combining_class(*part) == 0 {
            run = 0;
        } else if run < MOST_WAITING {
            run += 1;
        } else {
            return false;
        }
    }
    true
}

/// The fault of a code point with this decomposition, where `run` non-starters stand before it.
pub(crate) fn fault_of(run: usize, parts: &[char]) -> Option<PointFault>
    requires { run ≤ MOST_WAITING }
    ensures { option_map (λ f. f.kind) result ≡ part_fault run parts.now }
{
    let kind = if parts.len() > MOST_DECOMPOSITION {
        PointFault::LONG_DECOMPOSITION
    } else if !has_room(run, parts) {
        PointFault::LONG_RUN
    } else {
        return None;
    };
    Some(PointFault { kind })
}
