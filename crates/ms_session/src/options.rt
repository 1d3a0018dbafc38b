//! What a run is asked to be, and the command line that asks for it.
//!
//!     metarun --max-granules 1 --addresses   ->   Options { settings, addresses, verbosity, form, .. }
//!
//! Kept true: what is accepted lies within the ranges that `Settings` has, and what is not asked
//! for is the default. `clap` reads the words and writes the texts of refusals and of the help.
//! Only `options_of` takes memory.
ghost use Rattle.std.specs.Prelude.{◌≡◌, ◌≢◌, ◌⊎◌, ◌≤◌, IfOk, IfErr, IsOkAnd, codes, length, map, false, IsTrue, ◌↔◌};
ghost use Rattle.clap.specs.Words.{app_of, found_of, rows_of, rule_of};
ghost use Rattle.command_line.specs.Rules.{file_rule, number_rule};
ghost use Rattle.command_line.specs.Told.{AreNotTaken, AskToBeTold, IsTold, IsUsage};
ghost use Rattle.ms_session.specs.Asked.{IsAllowed, IsDefault, AreRead, AreAsked, AskMore};
ghost use Rattle.ms_session.specs.Asked.{ReadsVerbosity, ReadsFlag, ReadsForm, ReadsNumber, ReadsPolicy};
ghost use Rattle.ms_session.specs.Asked.{AskTooMuch, Says, SaysWhy, ShowsNames};
ghost use Rattle.ms_session.specs.CommandLine.{IsCommandLine, IsPolicyRule, IsFormatRule, IsReportRule};
ghost use Rattle.ms_session.specs.CommandLine.{addresses_rule};

use crate::asked::{Form, Options};
use clap::{Arg, ArgAction, ArgMatches, Command, value_parser};
use command_line::{
    Refused, choice, file, get_matches, number, number_given, program, with, word_given,
};
use ms_answers::Verbosity;
use ms_base::{Policy, Settings};
use std::alloc::{AllocError, Global};
use std::convert::AsStr;

/// Reads a command line, whose first word is the program's name. Granules count 8192 words each,
/// 2048 under policy aggressive; nodes count 1048576 words each. `Told` comes where the first of
/// the faults is a use of `--help` or of `--version`, `Usage` for an unknown or repeated option, a
/// missing value, or one out of its range, and where more than one worker is asked for blocks'
/// addresses, since a schedule decides them, or for a form other than text, which shows the states
/// that the lines lead to one after the other, and where names are asked for that basic reports
/// don't show.
/// Takes memory. This project's choice.
pub fn options_of<'a, S: AsStr>(alloc: Global, words: &'a [S]) -> Result<Options<'a>, Refused>
    ensures allowed { IfOk result IsAllowed }
    ensures default { length words.entry.now ≤ 1 → IsOkAnd result IsDefault }
    ensures asked { IfOk result (AreAsked (map S.text words.entry.now)) }
    ensures told { IfErr result (λ refused.
        IsTold refused → AskToBeTold IsCommandLine (map S.text words.entry.now)) }
    ensures usage { IfErr result (λ refused. IsUsage refused
        → AreNotTaken IsCommandLine (map S.text words.entry.now) ⊎ AskTooMuch (map S.text words.entry.now)) }
{
    if words.len() <= 1 {
        return Ok(Options::DEFAULT);
    }
    let Ok(command) = command(alloc) else {
        return Err(Refused::OutOfMemory);
    };
    let matches = get_matches(alloc, command, words)?;
    chosen(alloc, &matches)
}

/// The line on standard error where addresses are asked for of several workers.
const ADDRESSES_ALONE: &str = "metarun: --addresses needs --workers 1\n";

/// The line where a page or a document is.
const FORM_ALONE: &str = "metarun: --format html or json needs --workers 1\n";

/// The line where names are asked for, and a text with basic reports.
const NAMES_SHOWN: &str = "metarun: --names needs --format html or json, or --report full\n";

/// Refuses a command line with this line for standard error.
fn refused_with(alloc: Global, line: &str) -> Refused
    ensures { Says line.now result }
{
    match String::from_str(alloc, line) {
        Ok(text) => Refused::Usage(text),
        Err(_) => Refused::OutOfMemory,
    }
}

/// Collects what was chosen. Only one worker may show addresses, or write another form than text, and
/// basic reports show no names.
fn chosen<'a>(alloc: Global, matches: &ArgMatches<'a>) -> Result<Options<'a>, Refused>
    ensures allowed { IfOk result IsAllowed }
    ensures read { IfOk result (AreRead (rows_of (found_of matches.now))) }
    ensures refused { IfErr result SaysWhy }
    ensures many { IfErr result (λ refused. AskMore (rows_of (found_of matches.now))) }
{
    let workers = number_in(matches, "workers", 1, 8, 1) as u32;
    let addresses = flag_in(matches, "addresses");
    if addresses && workers > 1 {
        return Err(refused_with(alloc, ADDRESSES_ALONE));
    }
    let form = form_in(matches);
    if is_other(form) && workers > 1 {
        return Err(refused_with(alloc, FORM_ALONE));
    }
    let names = word_given(matches, "names");
    let verbosity = verbosity_in(matches);
    if names.is_some() && !shows_names(form, verbosity) {
        return Err(refused_with(alloc, NAMES_SHOWN));
    }
    Ok(Options {
        settings: Settings {
            workers,
            nodes: number_in(matches, "nodes", 1, 64, 64) as u32,
            max_granules: number_in(matches, "max-granules", 1, 40960, 8192),
            policy: policy_in(matches),
            class_nodes: number_in(matches, "class-nodes", 0, 16, 0) as u32,
        },
        addresses,
        verbosity,
        form,
        max_lines: number_in(matches, "max-lines", 1, 10_000_000, 100_000) as u32,
        names,
    })
}

/// Reads the number that was given, or the default where there is none: `clap` accepts no number
/// out of the range.
fn number_in(matches: &ArgMatches, id: &str, least: u64, most: u64, default: u64) -> u64
    requires low { least ≤ default }
    requires high { default ≤ most }
    ensures least { least ≤ result }
    ensures most { result ≤ most }
    ensures read { ReadsNumber (rows_of (found_of matches.now)) id.now least most default result }
{
    match number_given(matches, id) {
        Some(number) if least <= number && number <= most => number,
        _ => default,
    }
}

/// Returns whether a flag was given.
fn flag_in(matches: &ArgMatches, id: &str) -> bool
    ensures { ReadsFlag (rows_of (found_of matches.now)) id.now result }
{
    matches.get_flag(id)
}

/// Returns the policy that was given, or the default.
fn policy_in(matches: &ArgMatches) -> Policy
    ensures { ReadsPolicy (rows_of (found_of matches.now)) result }
{
    match word_given(matches, "policy") {
        Some(word) => policy_named(word),
        None => Policy::Balanced,
    }
}

/// Returns the policy of that word: `clap` accepts no other than the three.
fn policy_named(word: &str) -> Policy
    ensures aggressive { word.now ≡ codes "aggressive" → result ≡ Policy.Aggressive }
    ensures none { word.now ≡ codes "none" → result ≡ Policy.None }
    ensures balanced { word.now ≡ codes "balanced" → result ≡ Policy.Balanced }
{
    match word {
        "aggressive" => Policy::Aggressive,
        "none" => Policy::None,
        _ => Policy::Balanced,
    }
}

/// Returns how much a report shall show, or the default.
fn verbosity_in(matches: &ArgMatches) -> Verbosity
    ensures { ReadsVerbosity (rows_of (found_of matches.now)) result }
{
    match word_given(matches, "report") {
        Some(word) => verbosity_named(word),
        None => Verbosity::Basic,
    }
}

/// Returns the verbosity of that word: `clap` accepts no other than the two.
fn verbosity_named(word: &str) -> Verbosity
    ensures full { word.now ≡ codes "full" → result ≡ Verbosity.Full }
    ensures basic { word.now ≡ codes "basic" → result ≡ Verbosity.Basic }
{
    match word {
        "full" => Verbosity::Full,
        _ => Verbosity::Basic,
    }
}

/// Returns the form that was given, or the default.
fn form_in(matches: &ArgMatches) -> Form
    ensures { ReadsForm (rows_of (found_of matches.now)) result }
{
    match word_given(matches, "format") {
        Some(word) => form_named(word),
        None => Form::Text,
    }
}

/// Returns the form of that word: `clap` accepts no other than the three.
fn form_named(word: &str) -> Form
    ensures html { word.now ≡ codes "html" → result ≡ Form.Html }
    ensures json { word.now ≡ codes "json" → result ≡ Form.Json }
    ensures text { word.now ≡ codes "text" → result ≡ Form.Text }
{
    match word {
        "html" => Form::Html,
        "json" => Form::Json,
        _ => Form::Text,
    }
}

/// Returns whether a form is another than text.
fn is_other(form: Form) -> bool
    ensures { IsTrue result ↔ (form ≢ Form.Text) }
{
    match form {
        Form::Text => false,
        Form::Html | Form::Json => true,
    }
}

/// Returns whether names are shown: on a page, in a document, and after a text with full reports.
fn shows_names(form: Form, verbosity: Verbosity) -> bool
    ensures { IsTrue result ↔ ShowsNames form verbosity }
{
    match (form, verbosity) {
        (Form::Text, Verbosity::Basic) => false,
        (Form::Html | Form::Json, _) | (Form::Text, Verbosity::Full) => true,
    }
}

/// The first words of the help.
const ABOUT: &str = "Runs a trace of class loader operations over an elastic metaspace.

Standard input has the trace: one operation a line, as 'new 1 standard' (a loader), 'alloc 1 1 10'
(a block of 10 words), 'free 1 1', 'unload 1', 'purge' or 'report'. Standard output gets a reply
for each operation: its line number, and 'ok', 'at A', 'value V' or 'refused NAME'; after a report's
'ok' the totals. With --format html or json it gets one page or document in their place. A word is
8 bytes.";

/// The last words of the help.
const AFTER: &str = "Exit status:
  0  each line is answered, refused ones included; or this help, or the version
  1  the trace has a fault, which is told on standard error
  2  the command line is refused; nothing was read
  3  memory or a thread is wanting in the run itself
  4  accounts were left open between phases, which never comes
  5  standard input or standard output failed, or the file of names did, or it doesn't fit the trace

Example:
  printf 'new 1 standard\\nalloc 1 1 10\\nreport\\n' | metarun --addresses";

/// Describes the command line.
fn command<'a>(alloc: Global) -> Result<Command<'a>, AllocError>
    ensures { IfOk result (λ command. IsCommandLine (app_of command)) }
{
    let command = program(alloc, "metarun", ABOUT, AFTER);
    let command = with(command, workers(alloc));
    let command = with(command, granules(alloc));
    let command = with(command, nodes(alloc));
    let command = with(command, addresses(alloc));
    let command = with(command, policy(alloc));
    let command = with(command, class_nodes(alloc));
    let command = with(command, report(alloc));
    let command = with(command, max_lines(alloc));
    let command = with(command, format(alloc));
    with(command, names(alloc))
}

/// Describes `--workers`.
fn workers<'a>(alloc: Global) -> Arg<'a>
    ensures rule { rule_of result ≡ number_rule (codes "workers") 1 8 }
    ensures own { result.global ≡ false }
{
    number(
        alloc,
        "workers",
        value_parser!(u64).range(1..=8),
        "Replay loaders on N threads: 1 to 8 [default: 1]",
    )
}

/// Describes `--max-granules`.
fn granules<'a>(alloc: Global) -> Arg<'a>
    ensures rule { rule_of result ≡ number_rule (codes "max-granules") 1 40960 }
    ensures own { result.global ≡ false }
{
    number(
        alloc,
        "max-granules",
        value_parser!(u64).range(1..=40960),
        "Commit at most N granules of 8192 words, 2048 if aggressive: 1 to 40960 [default: 8192]",
    )
}

/// Describes `--nodes`.
fn nodes<'a>(alloc: Global) -> Arg<'a>
    ensures rule { rule_of result ≡ number_rule (codes "nodes") 1 64 }
    ensures own { result.global ≡ false }
{
    number(
        alloc,
        "nodes",
        value_parser!(u64).range(1..=64),
        "Reserve at most N nodes of 1048576 words: 1 to 64 [default: 64]",
    )
}

/// Describes `--addresses`.
fn addresses<'a>(alloc: Global) -> Arg<'a>
    ensures rule { rule_of result ≡ addresses_rule }
    ensures own { result.global ≡ false }
{
    Arg::new(alloc, "addresses")
        .long("addresses")
        .action(ArgAction::SetTrue)
        .help("Tell where each block starts, as a word number; needs --workers 1 [default: no]")
}

/// Describes `--policy`.
fn policy<'a>(alloc: Global) -> Arg<'a>
    ensures rule { IsPolicyRule (rule_of result) }
    ensures own { result.global ≡ false }
{
    let policies = ["balanced", "aggressive", "none"].as_slice();
    choice(
        alloc,
        "policy",
        "P",
        policies,
        "What becomes of freed memory [default: balanced]",
    )
}

/// Describes `--class-nodes`.
fn class_nodes<'a>(alloc: Global) -> Arg<'a>
    ensures rule { rule_of result ≡ number_rule (codes "class-nodes") 0 16 }
    ensures own { result.global ≡ false }
{
    number(
        alloc,
        "class-nodes",
        value_parser!(u64).range(0..=16),
        "Give the class space N nodes of 1048576 words: 0 to 16 [default: 0]",
    )
}

/// Describes `--report`.
fn report<'a>(alloc: Global) -> Arg<'a>
    ensures rule { IsReportRule (rule_of result) }
    ensures own { result.global ≡ false }
{
    let reports = ["basic", "full"].as_slice();
    choice(
        alloc,
        "report",
        "R",
        reports,
        "How much a report tells [default: basic]",
    )
}

/// Describes `--max-lines`.
fn max_lines<'a>(alloc: Global) -> Arg<'a>
    ensures rule { rule_of result ≡ number_rule (codes "max-lines") 1 10000000 }
    ensures own { result.global ≡ false }
{
    number(
        alloc,
        "max-lines",
        value_parser!(u64).range(1..=10_000_000),
        "Accept a trace of at most N lines: 1 to 10000000 [default: 100000]",
    )
}

/// Describes `--format`.
fn format<'a>(alloc: Global) -> Arg<'a>
    ensures rule { IsFormatRule (rule_of result) }
    ensures own { result.global ≡ false }
{
    let forms = ["text", "html", "json"].as_slice();
    choice(
        alloc,
        "format",
        "F",
        forms,
        "Write text, one HTML page, or one JSON document; the latter two need --workers 1 [default: text]",
    )
}

/// Describes `--names`.
fn names<'a>(alloc: Global) -> Arg<'a>
    ensures rule { rule_of result ≡ file_rule (codes "names") }
    ensures own { result.global ≡ false }
{
    file(
        alloc,
        "names",
        "Show in pages, documents and full reports what FILE says of each 'new' line: loader, space, text",
    )
}
