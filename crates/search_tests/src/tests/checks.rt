//! What the tests compare, each in a function of its own that promises nothing, so that a proof meets a comparison once, and not at each
//! use.

use super::Range;
use collation_search::TextFault;
use std::fmt::Debug;
use std::process::Abort;

/// Two values are the same. A proof goes through what a comparison prints once, for any type.
pub(super) fn same<T: PartialEq + Debug>(rt: &impl Abort, got: &T, want: &T) {
    assert_eq!(rt; *got, *want);
}

/// The same of a row, which is told.
pub(super) fn same_at<T: PartialEq + Debug, A: Debug>(rt: &impl Abort, got: &T, want: &T, row: &A) {
    assert_eq!(rt; *got, *want, "{row:?}");
}

/// This holds of a row, which is told.
pub(super) fn holds<A: Debug>(rt: &impl Abort, is_so: bool, row: &A) {
    assert!(rt; is_so, "{row:?}");
}

/// The ranges of a row are these.
pub(super) fn ranges_are(rt: &impl Abort, got: &[Range], want: &[Range], row: &str) {
    same_at(rt, &got, &want, &row);
}

/// The words are these.
pub(super) fn words_are(rt: &impl Abort, got: &[u64], want: &[u64]) {
    same(rt, &got, &want);
}

/// The fault of a row is this.
pub(super) fn fault_is(
    rt: &impl Abort,
    got: Option<TextFault>,
    want: Option<TextFault>,
    row: &str,
) {
    same_at(rt, &got, &want, &row);
}

/// A call answers this.
pub(super) fn answer_is(rt: &impl Abort, got: Result<(), TextFault>, want: Result<(), TextFault>) {
    same(rt, &got, &want);
}

/// The first range of a row, or its fault, is this.
pub(super) fn first_is(
    rt: &impl Abort,
    got: Result<Option<Range>, TextFault>,
    want: Result<Option<Range>, TextFault>,
    row: &str,
) {
    same_at(rt, &got, &want, &row);
}

/// The kind of a fault is this.
pub(super) fn kind_is(rt: &impl Abort, got: Option<u8>, want: Option<u8>) {
    same(rt, &got, &want);
}

/// There are so many.
pub(super) fn count_is(rt: &impl Abort, got: usize, want: usize) {
    same(rt, &got, &want);
}

/// Each of these ranges has `len` bytes and begins `step` bytes after the one before, the first one at 0.
pub(super) fn ranges_follow(rt: &impl Abort, ranges: &[Range], len: u64, step: u64) {
    let mut next = 0u64;
    for range in ranges {
        same(rt, range, &(next, next.wrapping_add(len)));
        next = next.wrapping_add(step);
    }
}
