//! The reading of the words of the command line.
ghost use Rattle.std.specs.Prelude.{◌≡◌, map, option_map, IfOk, false};
ghost use Rattle.clap.specs.Words.{app_of, first_of, found_of, rows_of, rule_of};
ghost use Rattle.colfind_run.specs.Command.{command, TakesNames, strength_names, variable_names, output_names, select_names};
ghost use Rattle.colfind_run.specs.Command.{table_rule, tailor_rule, strength_rule, variable_rule, output_rule, select_rule, pattern_rule, text_rule};
ghost use Rattle.colfind_run.specs.Settings.{IsReadFrom, IsTakenAs, IsCommandLineRefused, entry, strength_of, variable_of, output_of, select_of};

use crate::words::{Settings, SettingsFault};
use clap::error::ErrorKind;
use clap::{Arg, ArgMatches, Command};
use colfind_io::Output;
use collation_elements::{Strength, Variable};
use collation_search::Select;
use std::alloc::{AllocError, Global};

static STRENGTHS: [&str; 3] = ["1", "2", "3"];

static VARIABLES: [&str; 2] = ["shifted", "non-ignorable"];

static OUTPUTS: [&str; 3] = ["ranges", "count", "marks"];

static SELECTIONS: [&str; 2] = ["all", "chain"];

fn table_option<'a>(alloc: Global) -> Arg<'a>
    ensures rule { rule_of result ≡ table_rule }
    ensures local { result.global ≡ false }
{
    Arg::new(alloc, "table").long("table").required(true)
}

fn tailor_option<'a>(alloc: Global) -> Arg<'a>
    ensures rule { rule_of result ≡ tailor_rule }
    ensures local { result.global ≡ false }
{
    Arg::new(alloc, "tailor").long("tailor")
}

fn strength_option<'a>(alloc: Global) -> Arg<'a>
    ensures rule { (names : _) × (rule_of result ≡ strength_rule names)
        × TakesNames names strength_names }
    ensures local { result.global ≡ false }
{
    Arg::new(alloc, "strength")
        .long("strength")
        .value_parser(STRENGTHS.as_slice())
        .default_value("3")
}

fn variable_option<'a>(alloc: Global) -> Arg<'a>
    ensures rule { (names : _) × (rule_of result ≡ variable_rule names)
        × TakesNames names variable_names }
    ensures local { result.global ≡ false }
{
    Arg::new(alloc, "variable")
        .long("variable")
        .value_parser(VARIABLES.as_slice())
        .default_value("non-ignorable")
}

fn output_option<'a>(alloc: Global) -> Arg<'a>
    ensures rule { (names : _) × (rule_of result ≡ output_rule names)
        × TakesNames names output_names }
    ensures local { result.global ≡ false }
{
    Arg::new(alloc, "output")
        .long("output")
        .value_parser(OUTPUTS.as_slice())
        .default_value("ranges")
}

fn select_option<'a>(alloc: Global) -> Arg<'a>
    ensures rule { (names : _) × (rule_of result ≡ select_rule names)
        × TakesNames names select_names }
    ensures local { result.global ≡ false }
{
    Arg::new(alloc, "select")
        .long("select")
        .value_parser(SELECTIONS.as_slice())
        .default_value("all")
}

fn pattern_argument<'a>(alloc: Global) -> Arg<'a>
    ensures rule { rule_of result ≡ pattern_rule }
    ensures local { result.global ≡ false }
{
    Arg::new(alloc, "pattern").required(true)
}

fn text_argument<'a>(alloc: Global) -> Arg<'a>
    ensures rule { rule_of result ≡ text_rule }
    ensures local { result.global ≡ false }
{
    Arg::new(alloc, "text")
}

/// The command as its argument parser sees it. Its words come without the program's name.
fn command_line<'a>(alloc: Global) -> Result<Command<'a>, AllocError>
    ensures { IfOk result
        (λ c. (strengths : _) × (variables : _) × (outputs : _) × (selections : _)
        × TakesNames strengths strength_names
        × TakesNames variables variable_names × TakesNames outputs output_names
        × TakesNames selections select_names
        × (app_of c ≡ command strengths variables outputs selections)) }
{
    Command::new(alloc, "colfind")
        .no_binary_name(true)
        .disable_help_flag(true)
        .arg(table_option(alloc))?
        .arg(tailor_option(alloc))?
        .arg(strength_option(alloc))?
        .arg(variable_option(alloc))?
        .arg(output_option(alloc))?
        .arg(select_option(alloc))?
        .arg(pattern_argument(alloc))?
        .arg(text_argument(alloc))
}

/// The text of an entry that a parse has made, empty where there is none.
fn text_of<'a>(matches: &ArgMatches<'a>, id: &str) -> &'a str
    ensures { result.now ≡ entry id.now (rows_of (found_of matches.now)) }
{
    match matches.get_str(id) {
        Some(text) => text,
        None => "",
    }
}

fn strength_named(word: &str) -> Strength
    ensures { result ≡ strength_of word.now }
{
    if word == "1" {
        Strength::One
    } else if word == "2" {
        Strength::Two
    } else {
        Strength::Three
    }
}

fn variable_named(word: &str) -> Variable
    ensures { result ≡ variable_of word.now }
{
    if word == "shifted" {
        Variable::Shifted
    } else {
        Variable::NonIgnorable
    }
}

fn output_named(word: &str) -> Output
    ensures { result ≡ output_of word.now }
{
    if word == "count" {
        Output::Count
    } else if word == "marks" {
        Output::Marks
    } else {
        Output::Ranges
    }
}

fn select_named(word: &str) -> Select
    ensures { result ≡ select_of word.now }
{
    if word == "chain" {
        Select::Chain
    } else {
        Select::All
    }
}

/// The text of an entry that a parse has made, if there is one.
fn given_text<'a>(matches: &ArgMatches<'a>, id: &str) -> Option<&'a str>
    ensures { option_map (λ text. text.now) result
        ≡ first_of id.now (rows_of (found_of matches.now)) }
{
    matches.get_str(id)
}

/// The settings of the entries that a parse has made. Its command lets no other names through.
fn read_from<'a>(matches: &ArgMatches<'a>) -> Settings<'a>
    ensures { IsReadFrom (rows_of (found_of matches.now)) result }
{
    Settings {
        table: text_of(matches, "table"),
        tailor: given_text(matches, "tailor"),
        pattern: text_of(matches, "pattern"),
        strength: strength_named(text_of(matches, "strength")),
        variable: variable_named(text_of(matches, "variable")),
        output: output_named(text_of(matches, "output")),
        select: select_named(text_of(matches, "select")),
        text: given_text(matches, "text"),
    }
}

/// Reads the words of the command line, which come without the program's name, by the command
/// `colfind --table FILE [--tailor FILE] [--strength 1|2|3] [--variable shifted|non-ignorable]
/// [--output ranges|count|marks] [--select all|chain] PATTERN [FILE]`. Where an option is left out,
/// the strength is 3, the weighting non-ignorable and the output ranges, and all matches are selected.
/// A pattern that begins with `-` stands after the word `--`.
pub fn settings<'a>(alloc: Global, words: &'a [&'a str]) -> Result<Settings<'a>, SettingsFault>
    ensures taken { IfOk result (IsTakenAs (map (λ word. word.now) words.entry.now)) }
    ensures usage { result ≡ Err SettingsFault.Usage
        → IsCommandLineRefused (map (λ word. word.now) words.entry.now) }
{
    let Ok(command) = command_line(alloc) else {
        return Err(SettingsFault::Memory);
    };
    match command.try_get_matches_from(words) {
        Ok(matches) => Ok(read_from(&matches)),
        Err(error) => match error.kind() {
            ErrorKind::OutOfMemory => Err(SettingsFault::Memory),
            _ => Err(SettingsFault::Usage),
        },
    }
}
