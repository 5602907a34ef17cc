//! The words of a command line, taken apart by `clap`.
ghost use Rattle.std.specs.Prelude.{◌≡◌, false, IfOk, MatchOption, map, string_bytes};
ghost use Rattle.clap.specs.Words.{app_of, rule_of, found_of, first_value};
ghost use Rattle.jc_words.specs.Command.{option_rule, command_app};
ghost use Rattle.jc_words.specs.Values.{AreFound, AreValuesOf, HasNoLine, words_found};

use clap::builder::ValueParser;
use clap::error::ErrorKind;
use clap::{Arg, ArgAction, ArgMatches, Command};
use jc_rules::{Items, Text, WantOfMemory};
use std::alloc::{AllocError, Global};

/// What the words behind the program's name say: the values of the options, and the positional words in order.
#[derive(Debug, Drop)]
pub struct Values {
    pub out: Option<Text>,
    pub run: Option<Text>,
    pub steps: Option<Text>,
    pub words: Items<Text>,
}

/// The option `--NAME`, which takes one value.
fn option<'a>(alloc: Global, name: &'a str) -> Arg<'a>
    ensures rule { rule_of result ≡ option_rule name.entry.now }
    ensures local { result.global ≡ false }
{
    Arg::new(alloc, name)
        .long(name)
        .action(ArgAction::Set)
        .value_parser(ValueParser::NonEmptyString)
}

/// The command of javag. It has no options for help and the version.
fn command<'a>(alloc: Global) -> Result<Command<'a>, AllocError>
    ensures { IfOk result (λ command. app_of command ≡ command_app) }
{
    let words = Arg::new(alloc, "words").action(ArgAction::Append);
    Command::new(alloc, "javag")
        .disable_help_flag(true)
        .disable_version_flag(true)
        .arg(option(alloc, "out"))?
        .arg(option(alloc, "run"))?
        .arg(option(alloc, "steps"))?
        .arg(words)
}

/// The value of an option, if it stands on the line.
fn value(alloc: Global, matches: &ArgMatches<'_>, name: &str) -> Result<Option<Text>, WantOfMemory>
    ensures { IfOk result (λ value. value ≡ first_value (found_of matches.now) name.now) }
{
    match matches.get_str(name) {
        Some(text) => Ok(Some(Text::copied(alloc, text)?)),
        None => Ok(None),
    }
}

fn copies(alloc: Global, words: &[&str]) -> Result<Items<Text>, WantOfMemory>
    ensures { IfOk result (λ texts. texts ≡ map (λ word. word.now) words.now) }
{
    let mut texts = Items::new(alloc);
    for word in words {
        texts.push(Text::copied(alloc, word)?)?;
    }
    Ok(texts)
}

/// The positional words, in order.
fn words(alloc: Global, matches: &ArgMatches<'_>) -> Result<Items<Text>, WantOfMemory>
    ensures { IfOk result (λ words. words ≡ words_found (found_of matches.now)) }
{
    match matches.get_strs("words") {
        Some(words) => copies(alloc, words),
        None => Ok(Items::new(alloc)),
    }
}

fn values_of(alloc: Global, matches: &ArgMatches<'_>) -> Result<Values, WantOfMemory>
    ensures { IfOk result (λ values. AreFound (found_of matches.now) values) }
{
    Ok(Values {
        out: value(alloc, matches, "out")?,
        run: value(alloc, matches, "run")?,
        steps: value(alloc, matches, "steps")?,
        words: words(alloc, matches)?,
    })
}

/// What the words say, where the first word is the program's name. None where they break a rule on options.
pub fn read_values(alloc: Global, words: &[String]) -> Result<Option<Values>, WantOfMemory>
    ensures { IfOk result (λ values. MatchOption values (HasNoLine (map string_bytes words.now)) (λ v. AreValuesOf (map string_bytes words.now) v)) }
{
    match command(alloc)?.try_get_matches_from(words) {
        Ok(matches) => Ok(Some(values_of(alloc, &matches)?)),
        Err(error) => match error.kind() {
            ErrorKind::OutOfMemory => Err(WantOfMemory),
            _ => Ok(None),
        },
    }
}
