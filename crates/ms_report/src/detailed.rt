//! The full report: the fixed text, then the settings, then how much of the memory is what, then
//! what the loaders of each kind and each loader hold, then how many lines were refused, then the
//! peaks, and then the maps of roots.
//!
//!     Settings
//!       policy          balanced
//!     Usage
//!                         words        size  per cent
//!      committed           8192     64.0 KB       0.0
//!
//! A share is cut off after one digit, as a size is. Kept true: the text is the bytes that
//! `specs/Detailed.antt` gives for the totals, the details, the settings, the counts of refusals
//! and the peaks. Takes memory for the text alone.
ghost use Rattle.std.specs.Prelude.{◌≡◌, ◌++◌, IfOk, OnOk, string_bytes};
ghost use Rattle.ms_answers.specs.Sums.{sums_in};
ghost use Rattle.ms_report.specs.Cells.{rows_in};
ghost use Rattle.ms_answers.specs.Details.{details_in, told_in};
ghost use Rattle.ms_report.specs.Detailed.{amount_line, amount_lines, class_usage, class_usages};
ghost use Rattle.ms_report.specs.Detailed.{detailed_text, full_text, share_in};
ghost use Rattle.ms_report.specs.Detailed.{details_part, maps_part};
ghost use Rattle.ms_report.specs.Kinds.{kinds_part};
ghost use Rattle.ms_report.specs.Holdings.{holdings_part};
ghost use Rattle.ms_report.specs.Detailed.{titled_usage, usage_part, usage_rows};

use crate::holdings::push_holdings;
use crate::kinds::push_kinds;
use crate::maps::push_maps;
use crate::peaks::push_peaks;
use crate::refused::{Refusals, push_refused};
use crate::sections::push_report;
use crate::setup::push_settings;
use crate::sizes::{push_pointed, push_sized};
use crate::usage::{Amount, Usage, Usages, weigh};
use ms_answers::{Details, Totals, Verbosity};
use ms_base::Settings;
use std::alloc::{AllocError, Global};

/// The headings of a usage.
const HEADINGS: &str = "                     words        size  per cent\n";

/// Writes the full report of these totals of a run with these settings, in which so many lines were
/// refused: the text that `text` writes, then the settings, then the usage of the space, and where
/// the class space has nodes its usage, and that of both; then, where the totals have details, what
/// the loaders of each kind hold, and what each loader holds in each space; then the refused lines
/// by name; then, where the totals have them, the peaks; and where they have details the maps of
/// roots. Takes memory for the text; an error means that a growth was refused. This project's
/// choice.
pub fn full_text(
    alloc: Global,
    totals: &Totals,
    settings: &Settings,
    refusals: &Refusals,
) -> Result<String, AllocError>
    ensures { IfOk result (λ text.
        string_bytes text ≡ full_text settings.now refusals.now (sums_in totals.now)
        (told_in totals.now) totals.now.peaks) }
{
    let mut text = String::new(alloc);
    push_full(&mut text, settings, refusals, totals)?;
    Ok(text)
}

/// Appends a report of the verbosity asked for.
pub(crate) fn push_detailed(
    text: &mut String,
    verbosity: Verbosity,
    settings: &Settings,
    refusals: &Refusals,
    totals: &Totals,
) -> Result<(), AllocError>
    ensures { OnOk result (string_bytes text.new
        ≡ string_bytes text.old ++ detailed_text verbosity settings.now refusals.now
        (sums_in totals.now) (told_in totals.now) totals.now.peaks) }
{
    match verbosity {
        Verbosity::Basic => push_report(text, totals),
        Verbosity::Full => push_full(text, settings, refusals, totals),
    }
}

/// Appends the full report of totals.
fn push_full(
    text: &mut String,
    settings: &Settings,
    refusals: &Refusals,
    totals: &Totals,
) -> Result<(), AllocError>
    ensures { OnOk result (string_bytes text.new
        ≡ string_bytes text.old ++ full_text settings.now refusals.now (sums_in totals.now)
        (told_in totals.now) totals.now.peaks) }
{
    push_report(text, totals)?;
    push_settings(text, settings)?;
    push_usages(text, settings, totals)?;
    push_details(text, totals)?;
    push_refused(text, refusals)?;
    push_peaks(text, settings, totals.peaks)?;
    push_roots(text, totals)?;
    Ok(())
}

/// Appends the maps of roots, where there are any.
fn push_roots(text: &mut String, totals: &Totals) -> Result<(), AllocError>
    ensures { OnOk result (string_bytes text.new
        ≡ string_bytes text.old ++ maps_part (told_in totals.now)) }
{
    match &totals.details {
        Some(details) => push_maps(text, details.roots.as_slice()),
        None => Ok(()),
    }
}

/// Appends what the loaders hold, where it was asked for.
fn push_details(text: &mut String, totals: &Totals) -> Result<(), AllocError>
    ensures { OnOk result (string_bytes text.new
        ≡ string_bytes text.old ++ details_part (told_in totals.now)) }
{
    match &totals.details {
        Some(details) => push_tables(text, details),
        None => Ok(()),
    }
}

/// Appends what the loaders of each kind hold, and what each loader holds.
fn push_tables(text: &mut String, details: &Details) -> Result<(), AllocError>
    ensures { OnOk result (string_bytes text.new
        ≡ string_bytes text.old ++ (kinds_part (details_in details.now).loaders
        ++ holdings_part (details_in details.now).loaders)) }
{
    push_kinds(text, details.loaders.as_slice())?;
    push_holdings(text, details.loaders.as_slice())
}

/// Appends how much of the memory is what.
fn push_usages(text: &mut String, settings: &Settings, totals: &Totals) -> Result<(), AllocError>
    ensures { OnOk result (string_bytes text.new
        ≡ string_bytes text.old ++ usage_part settings.now (sums_in totals.now)) }
{
    let usages = weigh(totals, settings);
    push_usage(text, "Usage\n", &usages.space)?;
    push_class_usage(text, totals.class_space.nodes, &usages)
}

/// Appends the usage of the class space and of both, where the class space has nodes.
fn push_class_usage(text: &mut String, nodes: u32, usages: &Usages) -> Result<(), AllocError>
    ensures { OnOk result (string_bytes text.new
        ≡ string_bytes text.old ++ class_usage nodes usages.now) }
{
    if nodes == 0 {
        return Ok(());
    }
    push_class_usages(text, usages)
}

/// Appends the usage of the class space and of both.
fn push_class_usages(text: &mut String, usages: &Usages) -> Result<(), AllocError>
    ensures { OnOk result (string_bytes text.new
        ≡ string_bytes text.old ++ class_usages usages.now) }
{
    push_usage(text, "Class usage\n", &usages.class_space)?;
    push_usage(text, "Usage of both\n", &usages.both)
}

/// Appends a usage under its title.
fn push_usage(text: &mut String, title: &str, usage: &Usage) -> Result<(), AllocError>
    ensures { OnOk result (string_bytes text.new
        ≡ string_bytes text.old ++ titled_usage title.now usage.now) }
{
    text.push_str(title)?;
    text.push_str(HEADINGS)?;
    push_amounts(text, usage)?;
    Ok(())
}

/// Appends the six amounts of a usage.
fn push_amounts(text: &mut String, usage: &Usage) -> Result<(), AllocError>
    ensures { OnOk result (string_bytes text.new
        ≡ string_bytes text.old ++ amount_lines (usage_rows usage.now)) }
{
    let rows = [
        ("reserved", usage.reserved),
        ("committed", usage.committed),
        ("used", usage.used),
        ("live", usage.live),
        ("free blocks", usage.free_blocks),
        ("waste", usage.waste),
    ];
    push_amount_lines(text, &rows)
}

/// Appends a line for each label with its amount.
fn push_amount_lines(text: &mut String, rows: &[(&'static str, Amount)]) -> Result<(), AllocError>
    ensures { OnOk result (string_bytes text.new
        ≡ string_bytes text.old ++ amount_lines (rows_in rows.now)) }
{
    for (label, amount) in rows {
        push_amount_line(text, label, *amount)?;
    }
    Ok(())
}

/// Appends the line of an amount.
fn push_amount_line(text: &mut String, label: &str, amount: Amount) -> Result<(), AllocError>
    ensures { OnOk result (string_bytes text.new
        ≡ string_bytes text.old ++ amount_line label.now amount) }
{
    push_sized(text, label, amount.words, amount.words)?;
    push_share(text, amount.share)?;
    text.push_str("\n")
}

/// Appends a share, or a dash where there is none.
fn push_share(text: &mut String, share: Option<u128>) -> Result<(), AllocError>
    ensures { OnOk result (string_bytes text.new ≡ string_bytes text.old ++ share_in share) }
{
    match share {
        Some(tenths) => push_pointed(text, 8, tenths / 10, tenths % 10),
        None => text.push_str("         -"),
    }
}
