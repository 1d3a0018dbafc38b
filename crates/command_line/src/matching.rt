//! What the words of a command line give: the value of each option, or why there are none.
ghost use Rattle.std.specs.Prelude.{◌≡◌, ◌≢◌, ◌<◌, ◌^◌, IfErr, IfOk, None, Some, map, option_map, true};
ghost use Rattle.std.specs.Str.Parse.{IsNumeral, without_leading_plus};
ghost use Rattle.clap.specs.Words.{Text, app_of, first_of, found_of, is_simple, is_simple_and_free, kind_of};
ghost use Rattle.clap.specs.Words.{matches_of, one_of, rows_of, takes};
ghost use Rattle.command_line.specs.Given.{number_of};
ghost use Rattle.command_line.specs.Told.{AskForIt, IsShown, IsTold, IsUsage};
ghost use Rattle.clap.specs.declared.error.kind.ErrorKind.TheVariants.{OutOfMemory};

use clap::error::ErrorKind;
use clap::{ArgMatches, Command};
use std::alloc::Global;
use std::convert::AsStr;

/// Why a command line gives no options.
#[derive(Drop)]
pub enum Refused {
    /// Help or the version was asked for; this is its text, for standard output.
    Told(String),
    /// The line is refused; this text says why, for standard error.
    Usage(String),
    /// A growth was refused.
    OutOfMemory,
}

/// Returns what was given for each option in the words of a command line, the program's name first.
/// `Told` comes where the first of the faults is a use of `--help` or of `--version`, `Usage` for an
/// unknown or repeated option, a missing value, or one that isn't allowed. Takes memory.
pub fn get_matches<'a, S: AsStr>(
    alloc: Global,
    command: Command<'a>,
    words: &'a [S],
) -> Result<ArgMatches<'a>, Refused>
    ensures found { is_simple (app_of command.entry) ≡ true → IfOk result (λ matches.
        rows_of (found_of matches) ≡ matches_of (app_of command.entry) (map S.text words.entry.now)) }
    ensures told { is_simple_and_free (app_of command.entry) ≡ true → IfErr result (λ refused.
        IsTold refused → AskForIt (app_of command.entry) (map S.text words.entry.now)) }
    ensures usage { IfErr result (λ refused. IsUsage refused
        → takes (app_of command.entry) (map S.text words.entry.now) ≢ true) }
{
    match command.try_get_matches_from(words) {
        Ok(matches) => Ok(matches),
        Err(error) => Err(reason_of(alloc, &error)),
    }
}

/// Returns what comes of a command line with this error.
fn reason_of(alloc: Global, error: &clap::Error) -> Refused
    ensures told { IsTold result → IsShown (kind_of error.now) }
    ensures usage { IsUsage result → kind_of error.now ≢ OutOfMemory }
{
    let Ok(text) = format!(in alloc; "{error}") else {
        return Refused::OutOfMemory;
    };
    match error.kind() {
        ErrorKind::OutOfMemory => Refused::OutOfMemory,
        ErrorKind::DisplayHelp | ErrorKind::DisplayVersion => Refused::Told(text),
        _ => Refused::Usage(text),
    }
}

/// Returns the number that was given for an option, where one was: its digits, after a plus or
/// without one. Takes no memory.
pub fn number_given(matches: &ArgMatches, id: &str) -> Option<u64>
    ensures absent { one_of id.now (rows_of (found_of matches.now)) ≡ None → result ≡ None }
    ensures given { (text : Text) → one_of id.now (rows_of (found_of matches.now)) ≡ Some text
        → IsNumeral 10 (without_leading_plus text) → number_of text < 2 ^ 64
        → result ≡ Some (number_of text) }
{
    matches.get_one::<u64>(id)
}

/// Returns the word that was given for an option, where one was. Takes no memory.
pub fn word_given<'a>(matches: &ArgMatches<'a>, id: &str) -> Option<&'a str>
    ensures { option_map (λ word. word.now) result ≡ first_of id.now (rows_of (found_of matches.now)) }
{
    matches.get_str(id)
}
