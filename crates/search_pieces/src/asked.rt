//! What the words of the command line ask for.
use collation_elements::{Strength, Variable};
use collation_search::Select;
use thiserror::Error;

/// What the words of the command line ask for.
#[derive(Clone, Copy)]
pub(crate) struct Asked<'a> {
    /// The path of the table file.
    pub(crate) table: &'a str,
    /// How many levels of weights are compared.
    pub(crate) strength: Strength,
    /// How variable elements are weighted (UTS #10, section 4).
    pub(crate) variable: Variable,
    /// Which of the matches are handed out.
    pub(crate) select: Select,
    /// The text to search for.
    pub(crate) pattern: &'a str,
    /// The path of the text file.
    pub(crate) text: &'a str,
    /// How many bytes each piece has, but for the last one.
    pub(crate) sizes: &'a [String],
}

/// The words are not those of the command.
#[derive(Error, Clone, Copy, Debug, Drop, PartialEq, Eq)]
#[error("the words are not TABLE 1|2|3 non-ignorable|shifted all|chain PATTERN TEXT SIZE..")]
pub(crate) struct Usage;

/// Reads the words, which come without the program's name. The sizes are read one by one, as the pieces are taken.
pub(crate) fn read_words(words: &[String]) -> Result<Asked<'_>, Usage> {
    let [table, strength, variable, select, pattern, text, sizes @ ..] = words else {
        return Err(Usage);
    };
    Ok(Asked {
        table: table.as_str(),
        strength: strength_named(strength.as_str()).ok_or(Usage)?,
        variable: variable_named(variable.as_str()).ok_or(Usage)?,
        select: select_named(select.as_str()).ok_or(Usage)?,
        pattern: pattern.as_str(),
        text: text.as_str(),
        sizes,
    })
}

fn strength_named(word: &str) -> Option<Strength> {
    match word {
        "1" => Some(Strength::One),
        "2" => Some(Strength::Two),
        "3" => Some(Strength::Three),
        _ => None,
    }
}

fn variable_named(word: &str) -> Option<Variable> {
    match word {
        "non-ignorable" => Some(Variable::NonIgnorable),
        "shifted" => Some(Variable::Shifted),
        _ => None,
    }
}

fn select_named(word: &str) -> Option<Select> {
    match word {
        "all" => Some(Select::All),
        "chain" => Some(Select::Chain),
        _ => None,
    }
}
