//! The file of names: what it says of each loader that a trace makes.
//!
//!     new 1 standard   <--->   1 jdk/internal/loader/ClassLoaders$AppClassLoader
//!
//! Kept true: the lines of the file are those of the `new` lines of the trace, in their order, each
//! with the number of its loader. `metalog --names` writes such a file. Takes memory for the texts;
//! nothing waits.
ghost use Rattle.std.specs.Prelude.{◌≡◌, ◌≢◌, ◌++◌, ◌∷◌, [], None, IfErr, IfOk, OnOk, map, string_bytes};
ghost use Rattle.ms_session.specs.Naming.{AddsNames, line_of, made_by, made_in};
ghost use Rattle.ms_session.specs.Failure.{IsPageless};

use crate::asked::Options;
use crate::devices::{ReadFault, read_text};
use crate::failure::Failure;
use ms_base::Step;
use ms_course::Course;
use ms_json::Named;
use ms_trace::{Command, Line};
use std::alloc::{AllocError, Global};
use std::collections::BTreeMap;
use std::fs::File;
use std::rt::Files;

/// The most bytes that are read of a file of names; a longer one doesn't fit.
const MOST_BYTES: usize = 268_435_456;

/// The most characters of a name that are shown.
const MOST_CHARACTERS: usize = 60;

/// Reads the file of names for the lines of a trace, where the options have one, as `read_names` does;
/// returns nothing where they have none. A text has at most 60 characters.
pub fn names_asked<T: Files>(
    rt: &T,
    alloc: Global,
    options: &Options,
    lines: &[Line],
) -> Result<Vec<Named>, Failure>
    ensures none { options.now.names ≡ None → IfOk result (λ named. named.items ≡ []) }
    ensures made { options.now.names ≢ None
        → IfOk result (λ named. map line_of named.items ≡ made_in lines.now) }
    ensures pageless { IfErr result IsPageless }
{
    match options.names {
        Some(path) => read_names(rt, alloc, path, lines),
        None => Ok(Vec::new(alloc)),
    }
}

/// Reads a file of names for the lines of a trace. `NamesFile` comes where the file can't be read or
/// isn't UTF-8, `Misnamed` for the first line of it that isn't that of the next `new` line, or that
/// is wanting. Takes memory for the file. This project's choice.
fn read_names<T: Files>(
    rt: &T,
    alloc: Global,
    path: &str,
    lines: &[Line],
) -> Result<Vec<Named>, Failure>
    ensures made { IfOk result (λ named. map line_of named.items ≡ made_in lines.now) }
    ensures pageless { IfErr result IsPageless }
{
    let Ok(mut file) = File::open(rt, path) else {
        return Err(Failure::NamesFile);
    };
    let bytes = match read_text(alloc, &mut file, MOST_BYTES) {
        Ok(bytes) => bytes,
        Err(ReadFault::Device) => return Err(Failure::NamesFile),
        Err(ReadFault::OutOfMemory) => return Err(Failure::OutOfMemory),
    };
    match String::from_utf8(bytes) {
        Ok(text) => names_for(alloc, &text, lines),
        Err(_) => Err(Failure::NamesFile),
    }
}

/// Reads the text of a file of names for the lines of a trace.
fn names_for(alloc: Global, text: &str, lines: &[Line]) -> Result<Vec<Named>, Failure>
    ensures made { IfOk result (λ named. map line_of named.items ≡ made_in lines.now) }
    ensures pageless { IfErr result IsPageless }
{
    let mut named = Vec::new(alloc);
    let mut told = text.lines();
    let mut number: u32 = 1;
    for line in lines {
        let Some(loader) = loader_made(line) else {
            continue;
        };
        let Some(text) = told.next().and_then(|words| name_of(loader, words)) else {
            return Err(Failure::Misnamed { line: number });
        };
        add(alloc, &mut named, line.number(), loader, text)?;
        number = number.saturating_add(1);
    }
    match told.next() {
        None => Ok(named),
        Some(_) => Err(Failure::Misnamed { line: number }),
    }
}

/// Adds what the file says of the loader that a line makes.
fn add(
    alloc: Global,
    named: &mut Vec<Named>,
    line: u32,
    loader: u16,
    text: &str,
) -> Result<(), AllocError>
    ensures { OnOk result (map line_of named.new.items
        ≡ map line_of named.old.items ++ (line, loader) ∷ []) }
{
    let text = shortened(alloc, text)?;
    named.push(Named { line, loader, text })?;
    Ok(())
}

/// Returns the loader that a line asks for, where it is a `new` line.
fn loader_made(line: &Line) -> Option<u16>
    ensures { result ≡ made_by line.now.command }
{
    match line.command() {
        Command::Step(Step::New { loader, .. }) => Some(loader),
        _ => None,
    }
}

/// Returns what a line of the file says of this loader, where it is the loader's: its number, a
/// space, and a text.
fn name_of(loader: u16, words: &str) -> Option<&str> {
    let (number, text) = words.split_once(' ')?;
    match number.parse::<u16>() {
        Ok(number) if number == loader => Some(text),
        _ => None,
    }
}

/// Copies a text, whose end gives way to an ellipsis where it has more than 60 characters, and each
/// control character to a question mark.
fn shortened(alloc: Global, text: &str) -> Result<String, AllocError> {
    let mut short = String::new(alloc);
    let is_long = text.chars().count() > MOST_CHARACTERS;
    let kept = if is_long {
        MOST_CHARACTERS - 1
    } else {
        MOST_CHARACTERS
    };
    for character in text.chars().take(kept) {
        short.push(if character < ' ' { '?' } else { character })?;
    }
    if is_long {
        short.push('…')?;
    }
    Ok(short)
}

/// Appends the part that ends a text with full reports: a line for each `new` line, with its number,
/// the loader's and the name. Appends nothing where there is none. Takes memory for the part.
pub fn push_names(alloc: Global, text: &mut String, named: &[Named]) -> Result<(), AllocError>
    ensures { OnOk result (AddsNames named.now (string_bytes text.old) (string_bytes text.new)) }
{
    if named.is_empty() {
        return Ok(());
    }
    let part = part_of(alloc, named)?;
    text.push_str(&part)
}

/// Returns the part of names.
fn part_of(alloc: Global, named: &[Named]) -> Result<String, AllocError> {
    let mut part = String::from_str(alloc, "Names\n      line  loader  name\n")?;
    for its in named {
        writeln!(part, "{:>10}{:>8}  {}", its.line, its.loader, its.text)?;
    }
    Ok(part)
}

/// Chooses the texts of the loaders that there are at a run's end, each by the line that made it.
/// Takes memory for them.
pub fn names_at_end(
    alloc: Global,
    named: Vec<Named>,
    course: &Course,
) -> Result<BTreeMap<u16, String>, AllocError> {
    let mut names = BTreeMap::new(alloc);
    for Named { line, loader, text } in named {
        if course.birth(loader).is_some_and(|birth| birth.line == line) {
            names.insert(loader, text)?;
        }
    }
    Ok(names)
}
