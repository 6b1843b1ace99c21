//! `colfind` finds a pattern in a text by Unicode collation: it compares sort keys at a chosen
//! strength (UTS #10) and reports the byte ranges of the matches.
//!
//! The text is that of a file or of standard input, and the ranges are written to standard output. The
//! weights come from a table file, and from a second one that tailors it, where one is named. Here are its standard streams; all else
//! is `colfind_run`.
#![tactic(auto)]

use colfind_io::{FromRead, ToWrite};
use colfind_run::process::{Status, ended};

fn main(rt: HostRuntime) -> Status {
    let mut input = FromRead::new(rt.stdin());
    let mut out = ToWrite::new(rt.stdout());
    let mut err = ToWrite::new(rt.stderr());
    ended(&rt, &mut input, &mut out, &mut err)
}
