//! A table with a string of 64 code points, the most that one may have: a match ends only once no such string can go on.

use crate::asking::{KEPT, THREE, begin, compile, repeated, same_at, table_with};
use collation_anchored::TextFault;
use std::alloc::Global;
use std::process::Abort;

/// Compares where the least match of `b` ends that begins with so many letters `b`, and whether these are equal to it.
fn compare(rt: &impl Abort, alloc: Global, letters: usize, end: Option<u64>) {
    let table = table_with(rt, alloc, 64);
    let pattern = compile(rt, alloc, &table, "b", THREE, KEPT);
    let mut anchored = begin(rt, alloc, &table, &pattern);
    let text = repeated(rt, alloc, "b", letters);
    same_at(rt, &anchored.begins(text.as_bytes()), &Ok(end), &letters);
    let equal: Result<bool, TextFault> = Ok(letters == 1);
    same_at(rt, &anchored.equals(text.as_bytes()), &equal, &letters);
}

/// 63 letters are 63 units, and 64 are one.
#[test]
fn string_of_sixty_four(rt: HostRuntime) {
    compare(&rt, rt.alloc(), 1, Some(1));
    compare(&rt, rt.alloc(), 63, Some(1));
    compare(&rt, rt.alloc(), 64, None);
    compare(&rt, rt.alloc(), 65, None);
}
