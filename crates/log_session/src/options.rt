//! What a run is asked to be, and the command line that asks for it.
//!
//!     metalog --reports gc --merge   ->   Options { reports: Gc, merge: Some(128), names: None }
//!
//! Kept true: what isn't asked for is the default. `clap` reads the words and writes the texts of
//! refusals and of the help.
ghost use Rattle.std.specs.Prelude.{◌≡◌, ◌≤◌, ◌∷◌, [], IfErr, IfOk, IsFalse, IsOkAnd, IsTrue, None, codes, false, length, map};
ghost use Rattle.clap.specs.Words.{app_of, found_of, rows_of, rule_of};
ghost use Rattle.command_line.specs.Rules.{file_rule};
ghost use Rattle.command_line.specs.Told.{AreNotTaken, AskToBeTold, IsTold, IsUsage};
ghost use Rattle.log_session.specs.Asked.{AreAsked, AreRead, IsDefault, ReadsMerge, ReadsReports};
ghost use Rattle.log_session.specs.CommandLine.{IsCommandLine, IsReportRule, merge_rule};

use clap::builder::ValueParser;
use clap::{Arg, ArgMatches, Command, value_parser};
use command_line::{
    Refused, choice, file, get_matches, number, number_given, program, with, word_given,
};
use std::alloc::{AllocError, Global};
use std::convert::AsStr;

/// Where the trace asks for reports.
#[derive(Clone, Copy, Debug, PartialEq, Eq)]
pub enum Reports {
    /// One at the end.
    End,
    /// After each collection, and one at the end.
    Gc,
    /// Nowhere.
    None,
}

impl Reports {
    ghost use Rattle.ms_trace.specs.declared.trace.Command.TheVariants.{Report};
    ghost use Rattle.log_session.specs.Trace.{asks_reports, last_report};

    /// Checks whether each collection asks for a report.
    pub fn are_after_collections(self) -> bool
        ensures { result ≡ asks_reports self }
    {
        matches!(self, Reports::Gc)
    }

    /// Checks whether the end asks for a report.
    pub fn are_at_end(self) -> bool
        ensures report { IsTrue result → last_report self ≡ Report ∷ [] }
        ensures none { IsFalse result → last_report self ≡ [] }
    {
        !matches!(self, Reports::None)
    }
}

/// The options of a run. This project's choice.
#[derive(Clone, Copy)]
pub struct Options<'a> {
    pub reports: Reports,
    /// The most words of a block that is joined of several, where blocks are joined.
    pub merge: Option<u64>,
    /// The file that the loaders' names go to.
    pub names: Option<&'a str>,
}

impl Options<'_> {
    /// What `metalog` runs with where no option is given.
    pub const DEFAULT: Options<'static> = Options {
        reports: Reports::End,
        merge: None,
        names: None,
    };
}

/// Reads a command line, whose first word is the program's name. `Told` comes where the first of the
/// faults is a use of `--help` or of `--version`, `Usage` for an unknown or repeated option, a missing
/// value, or one that isn't allowed. Takes memory. This project's choice.
pub fn options_of<'a, S: AsStr>(alloc: Global, words: &'a [S]) -> Result<Options<'a>, Refused>
    ensures default { length words.entry.now ≤ 1 → IsOkAnd result IsDefault }
    ensures asked { IfOk result (AreAsked (map S.text words.entry.now)) }
    ensures told { IfErr result (λ refused.
        IsTold refused → AskToBeTold IsCommandLine (map S.text words.entry.now)) }
    ensures usage { IfErr result (λ refused.
        IsUsage refused → AreNotTaken IsCommandLine (map S.text words.entry.now)) }
{
    if words.len() <= 1 {
        return Ok(Options::DEFAULT);
    }
    let Ok(command) = command(alloc) else {
        return Err(Refused::OutOfMemory);
    };
    let matches = get_matches(alloc, command, words)?;
    Ok(chosen(&matches))
}

/// Collects what was chosen.
fn chosen<'a>(matches: &ArgMatches<'a>) -> Options<'a>
    ensures { AreRead (rows_of (found_of matches.now)) result }
{
    Options {
        reports: reports_in(matches),
        merge: merge_in(matches),
        names: word_given(matches, "names"),
    }
}

/// Returns up to how many words blocks are joined, if they are: `clap` accepts no number out of the
/// range.
fn merge_in(matches: &ArgMatches) -> Option<u64>
    ensures { ReadsMerge (rows_of (found_of matches.now)) result }
{
    number_given(matches, "merge")
}

/// Returns where reports are asked for, at the end where they are not.
fn reports_in(matches: &ArgMatches) -> Reports
    ensures { ReadsReports (rows_of (found_of matches.now)) result }
{
    match word_given(matches, "reports") {
        Some(word) => reports_named(word),
        None => Reports::End,
    }
}

/// Returns where reports of that word stand: `clap` accepts no other than the three.
fn reports_named(word: &str) -> Reports
    ensures at_end { word.now ≡ codes "end" → result ≡ Reports.End }
    ensures gc { word.now ≡ codes "gc" → result ≡ Reports.Gc }
    ensures none { word.now ≡ codes "none" → result ≡ Reports.None }
{
    match word {
        "gc" => Reports::Gc,
        "none" => Reports::None,
        _ => Reports::End,
    }
}

/// The first words of the help.
const ABOUT: &str = "Makes a trace for metarun of the log of a JVM's metaspace (JDK 17).

Standard input has the log of a JVM that was started with
  java \"-Xlog:metaspace*=trace,class+loader+data=trace:file=meta.log:uptime,tid,level,tags:\\
filecount=0\" ..
Standard output gets the trace: each loader, and each block with its exact words.";

/// The last words of the help.
const AFTER: &str =
    "What is wrong with a log is told on standard error, with the number of its first line.

Exit status:
  0  the trace is written; or this help, or the version
  1  no line of the log is of a loader, or one is of another release than JDK 17: nothing is read or
     written after it
  2  the command line is refused; nothing was read
  3  memory is wanting
  5  standard input, standard output or the file of names failed

Example:
  metalog < meta.log > app.trace && metarun < app.trace";

/// Describes the command line.
fn command<'a>(alloc: Global) -> Result<Command<'a>, AllocError>
    ensures { IfOk result (λ command. IsCommandLine (app_of command)) }
{
    let command = program(alloc, "metalog", ABOUT, AFTER);
    let command = with(command, report_option(alloc));
    let command = with(command, merge_option(alloc));
    with(command, name_option(alloc))
}

/// Describes `--reports`.
fn report_option<'a>(alloc: Global) -> Arg<'a>
    ensures rule { IsReportRule (rule_of result) }
    ensures own { result.global ≡ false }
{
    let choices = ["end", "gc", "none"].as_slice();
    choice(
        alloc,
        "reports",
        "R",
        choices,
        "Ask for a report at the end, after each collection too, or nowhere [default: end]",
    )
}

/// Describes `--merge`.
fn merge_option<'a>(alloc: Global) -> Arg<'a>
    ensures rule { rule_of result ≡ merge_rule }
    ensures own { result.global ≡ false }
{
    let words: ValueParser<'a> = value_parser!(u64).range(2..=1_048_576).into();
    let option = number(
        alloc,
        "merge",
        words,
        "Join blocks of an arena that lie side by side and are never freed, up to N words: \
2 to 1048576, 128 where no N is given; the whole trace is kept in memory [default: no]",
    );
    option.num_args(0..=1).default_missing_value("128")
}

/// Describes `--names`.
fn name_option<'a>(alloc: Global) -> Arg<'a>
    ensures rule { rule_of result ≡ file_rule (codes "names") }
    ensures own { result.global ≡ false }
{
    file(
        alloc,
        "names",
        "Write for each 'new' line the loader's number, and what the log tells of it, to FILE",
    )
}
