//! What the words of the command line ask for.
use colfind_io::Output;
use collation_elements::{Strength, Variable};
use collation_search::Select;
use thiserror::Error;

/// What the words of the command line ask for.
#[derive(Clone, Copy, Debug, PartialEq, Eq)]
pub struct Settings<'a> {
    /// The path of the table file.
    pub table: &'a str,
    /// The path of the tailor file, where there is one.
    pub tailor: Option<&'a str>,
    /// The text to search for.
    pub pattern: &'a str,
    /// How many levels of weights are compared.
    pub strength: Strength,
    /// How variable elements are weighted (UTS #10, section 4).
    pub variable: Variable,
    /// How the ranges are printed.
    pub output: Output,
    /// Which of the matches are printed.
    pub select: Select,
    /// The path of the text file, where there is one. Else the text is standard input.
    pub text: Option<&'a str>,
}

/// Why there are no settings.
#[derive(Error, Clone, Copy, Debug, PartialEq, Eq)]
pub enum SettingsFault {
    /// The words are not those of the command.
    #[error("the words are not those of the command")]
    Usage,
    /// Memory was refused.
    #[error("memory was refused")]
    Memory,
}
