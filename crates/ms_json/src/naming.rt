//! What a file says of the loaders of a trace, as a member of the document.
ghost use Rattle.std.specs.Prelude.{◌≡◌, ◌++◌, [], false, OnOk, map, string_bytes};
ghost use Rattle.json.specs.Print.{quoted};
ghost use Rattle.serde_json.specs.Written.{compact_text};
ghost use Rattle.ms_json.specs.Names.{name_data, name_rows};
ghost use Rattle.ms_json.specs.Rows.{elements_run, list_of, rows_then};

use crate::run::push_lines;
use crate::writing::{push_comma, push_label};
use serde_json::Value;
use std::alloc::{AllocError, Global};

/// What a file of names says of the loader that a line of the trace makes.
#[derive(Drop)]
pub struct Named {
    /// The number of the line.
    pub line: u32,
    /// The loader's name in the trace.
    pub loader: u16,
    /// The text; any character may stand in it.
    pub text: String,
}

/// Appends the member of names, where there is one. Takes memory for a name.
pub(crate) fn push_names(
    alloc: Global,
    text: &mut String,
    names: &[Named],
) -> Result<(), AllocError>
    ensures { OnOk result (string_bytes text.new
        ≡ string_bytes text.old ++ rows_then (name_rows names.now) []) }
{
    if names.is_empty() {
        return Ok(());
    }
    push_label(text, true, "names")?;
    push_list(alloc, text, names)
}

/// Appends names as an array.
fn push_list(alloc: Global, text: &mut String, names: &[Named]) -> Result<(), AllocError>
    ensures { OnOk result (string_bytes text.new
        ≡ string_bytes text.old ++ compact_text (list_of (map name_data names.now))) }
{
    text.push_str("[")?;
    push_each_name(alloc, text, names)?;
    text.push_str("]")
}

/// Appends names with commas between them.
fn push_each_name(alloc: Global, text: &mut String, names: &[Named]) -> Result<(), AllocError>
    ensures { OnOk result (string_bytes text.new
        ≡ string_bytes text.old ++ elements_run false (map name_data names.now)) }
{
    let mut later = false;
    for named in names {
        push_comma(text, later)?;
        push_name(alloc, text, named)?;
        later = true;
    }
    Ok(())
}

/// Appends a name: the line, the loader and the text.
fn push_name(alloc: Global, text: &mut String, named: &Named) -> Result<(), AllocError>
    ensures { OnOk result (string_bytes text.new
        ≡ string_bytes text.old ++ compact_text (name_data named.now)) }
{
    push_lines(text, named.line, u32::from(named.loader))?;
    push_quoted(alloc, text, &named.text)?;
    text.push_str("]")
}

/// Appends a text between quotes, with serde_json's escapes.
fn push_quoted(alloc: Global, text: &mut String, word: &str) -> Result<(), AllocError>
    ensures { OnOk result (string_bytes text.new ≡ string_bytes text.old ++ quoted word.now) }
{
    let value = Value::String(String::from_str(alloc, word)?);
    let quoted = value.to_string(alloc)?;
    text.push_str(&quoted)
}
