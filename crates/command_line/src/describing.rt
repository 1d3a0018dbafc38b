//! What a program accepts: its name, the words of its help, and its options one by one.
ghost use Rattle.std.specs.Prelude.{◌≡◌, IfOk, Some, false, map};
ghost use Rattle.clap.specs.Words.{App, app_of, rule_of, with_rule};
ghost use Rattle.command_line.specs.Rules.{IsChoiceRule, file_rule, named, number_rule};
ghost use Rattle.clap.specs.Words.{new_rule};

use clap::builder::ValueParser;
use clap::{Arg, Command};
use std::alloc::{AllocError, Global};

/// The version, and the toolchain that all is proved with.
const VERSION: &str = "1.0.0 (proved with rattle-kit-13f logic dac8208d650f15bf)";

/// Describes a program by its name, and the first and the last words of its help. Takes memory. This
/// project's choice.
pub fn program<'a>(
    alloc: Global,
    name: &'a str,
    about: &'a str,
    after: &'a str,
) -> Result<Command<'a>, AllocError>
    ensures { IfOk result (λ command. app_of command ≡ named name.entry.now) }
{
    Command::new(alloc, name)
        .version(VERSION)
        .about(about)
        .after_help(after)
        .bin_name(name)
}

/// Adds an option, where there was memory so far. Takes memory.
pub fn with<'a>(
    command: Result<Command<'a>, AllocError>,
    option: Arg<'a>,
) -> Result<Command<'a>, AllocError>
    ensures { (app : App) → IfOk command.entry (λ before. app_of before ≡ app)
        → option.entry.global ≡ false
        → IfOk result (λ after. app_of after ≡ with_rule app (rule_of option.entry)) }
{
    match command {
        Ok(command) => command.arg(option),
        Err(error) => Err(error),
    }
}

/// Describes an option with a number, of those that its parser accepts. Takes memory.
pub fn number<'a>(alloc: Global, name: &'a str, numbers: ValueParser<'a>, help: &'a str) -> Arg<'a>
    ensures rule { rule_of result ≡ record (new_rule name.entry.now) {
      long = Some name.entry.now;
      value_names = 1;
      parser = Some numbers.entry;
    } }
    ensures own { result.global ≡ false }
{
    Arg::new(alloc, name)
        .long(name)
        .value_name("N")
        .value_parser(numbers)
        .help(help)
}

/// Describes an option with one of some words, which the help calls by a name. Takes memory.
pub fn choice<'a>(
    alloc: Global,
    name: &'a str,
    called: &'a str,
    words: &'a [&'a str],
    help: &'a str,
) -> Arg<'a>
    ensures rule { IsChoiceRule name.entry.now (map (λ word. word.now) words.entry.now) (rule_of result) }
    ensures own { result.global ≡ false }
{
    Arg::new(alloc, name)
        .long(name)
        .value_name(called)
        .value_parser(words)
        .help(help)
}

/// Describes an option with the name of a file. Takes memory.
pub fn file<'a>(alloc: Global, name: &'a str, help: &'a str) -> Arg<'a>
    ensures rule { rule_of result ≡ file_rule name.entry.now }
    ensures own { result.global ≡ false }
{
    Arg::new(alloc, name)
        .long(name)
        .value_name("FILE")
        .help(help)
}
