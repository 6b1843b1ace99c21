//! What the words of the command ask for, and which words are refused.

use super::same_at;
use colfind_io::Output::{self, Count, Marks, Ranges};
use colfind_run::settings::settings;
use colfind_run::words::{Settings, SettingsFault};
use collation_elements::Strength::{self, One, Three, Two};
use collation_elements::Variable::{self, NonIgnorable, Shifted};
use collation_search::Select::{self, All, Chain};
use std::alloc::Global;
use std::process::Abort;

/// A tailor file, a pattern, a strength, a weighting, a form of output, which matches are selected, and a text file.
type Asked<'a> = (
    Option<&'a str>,
    &'a str,
    Strength,
    Variable,
    Output,
    Select,
    Option<&'a str>,
);

/// Where nothing but the table file and the pattern is named.
const PLAIN: Asked = (None, "p", Three, NonIgnorable, Ranges, All, None);

/// Words, and what they ask for beside the table file `t`.
const TAKEN: [(&[&str], Asked); 14] = [
    (&["--table", "t", "p"], PLAIN),
    (&["p", "--table=t"], PLAIN),
    (&["--strength", "3", "--table", "t", "--", "p"], PLAIN),
    (&["--table", "t", "--select", "all", "p"], PLAIN),
    (&["--table", "t", "--variable", "non-ignorable", "p"], PLAIN),
    (
        &["--table", "t", "--variable", "shifted", "p"],
        (None, "p", Three, Shifted, Ranges, All, None),
    ),
    (
        &["--table", "t", "--strength", "2", "--", "-"],
        (None, "-", Two, NonIgnorable, Ranges, All, None),
    ),
    (
        &["--table", "t", "--strength", "1", "p"],
        (None, "p", One, NonIgnorable, Ranges, All, None),
    ),
    (
        &["--table", "t", "p", "--output", "count"],
        (None, "p", Three, NonIgnorable, Count, All, None),
    ),
    (
        &["--output=marks", "--table", "t", "--", "-p", "-text"],
        (None, "-p", Three, NonIgnorable, Marks, All, Some("-text")),
    ),
    (
        &["p", "", "--table", "t"],
        (None, "p", Three, NonIgnorable, Ranges, All, Some("")),
    ),
    (
        &["--table", "t", "p", "--select=chain"],
        (None, "p", Three, NonIgnorable, Ranges, Chain, None),
    ),
    (
        &["--tailor", "u", "--table", "t", "p"],
        (Some("u"), "p", Three, NonIgnorable, Ranges, All, None),
    ),
    (
        &["--table", "t", "p", "--tailor="],
        (Some(""), "p", Three, NonIgnorable, Ranges, All, None),
    ),
];

/// The words ask for this, or are refused so.
fn settings_are<'a>(
    rt: &impl Abort,
    alloc: Global,
    words: &'a [&'a str],
    want: Result<Settings<'a>, SettingsFault>,
) {
    same_at(rt, &settings(alloc, words), &want, &words);
}

/// Compares what the words of a row ask for.
fn compare<'a>(rt: &impl Abort, alloc: Global, words: &'a [&'a str], asked: Asked<'a>) {
    let (tailor, pattern, strength, variable, output, select, text) = asked;
    let wanted = Settings {
        table: "t",
        tailor,
        pattern,
        strength,
        variable,
        output,
        select,
        text,
    };
    settings_are(rt, alloc, words, Ok(wanted));
}

#[test]
fn reads_the_words(rt: HostRuntime) {
    for (words, asked) in &TAKEN {
        compare(&rt, rt.alloc(), *words, *asked);
    }
}

/// The words are refused.
fn is_refused<'a>(rt: &impl Abort, alloc: Global, words: &'a [&'a str]) {
    settings_are(rt, alloc, words, Err(SettingsFault::Usage));
}

const REFUSED: [&[&str]; 17] = [
    &[],
    &["p"],
    &["--table", "t"],
    &["--table", "t", "-p"],
    &["--table", "t", "p", "q", "r"],
    &["--table", "t", "--strength", "4", "p"],
    &["--table", "t", "--strength", "01", "p"],
    &["--table", "t", "--variable", "Shifted", "p"],
    &["--table", "t", "--output", "lines", "p"],
    &["--table", "t", "--output", "p"],
    &["--table", "t", "--select", "chains", "p"],
    &["--table", "t", "--select", "p"],
    &["--tailor", "u", "p"],
    &["--table", "t", "p", "--tailor"],
    &["--table", "t", "--tailor", "u", "--tailor", "v", "p"],
    &["--help"],
    &["--version"],
];

#[test]
fn refuses_other_words(rt: HostRuntime) {
    for words in REFUSED {
        is_refused(&rt, rt.alloc(), words);
    }
}
