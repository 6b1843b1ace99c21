//! The program `colfind`, but for its standard streams.
//!
//! [`run::run`] and [`run::run_with`] search the text of a reader and print its ranges to a writer. [`settings::settings`] reads the words
//! of the command line. [`program::program`] is all of it: the words, the table and the file that tailors it, the pattern, the run, the line
//! of a fault and the status. [`program::count_matches`] is the same of settings and a folder of files, and [`process::ended`] of a process.
//!
//! It stands on `collation_search`, which searches a text that comes in pieces, on `collation_pattern` and
//! `collation_table`, which make the pattern and the table, on the settings of `collation_elements`, and on `colfind_io`, which reads and
//! writes; on `clap` for the words.
#![tactic(auto)]

pub mod faults;
pub mod process;
pub mod program;
pub mod run;
pub mod settings;
mod texts;
pub mod words;
