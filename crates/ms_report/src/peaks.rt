//! The part Peaks of a full report: the most that the run had at once so far.
//!
//!     Peaks
//!                         number        size
//!       granules               1     64.0 KB
//!       loaders                2
//!
//! Kept true: the text is the bytes that `specs/Peaks.antt` gives for the peaks and the settings.
//! Takes memory for the text alone.
ghost use Rattle.std.specs.Prelude.{◌≡◌, ◌++◌, OnOk, string_bytes};
ghost use Rattle.ms_report.specs.Peaks.{all_peaks, amount_peaks, peaks_part, sized_line};

use crate::layout::push_number_line;
use crate::sizes::push_sized;
use ms_answers::Peaks;
use ms_base::{NODE_WORDS, Settings, granule};
use std::alloc::AllocError;

/// The title and the headings of the peaks.
const HEADINGS: &str = "Peaks\n                    number        size\n";

/// Appends the peaks, where they were kept.
pub(crate) fn push_peaks(
    text: &mut String,
    settings: &Settings,
    peaks: Option<Peaks>,
) -> Result<(), AllocError>
    ensures { OnOk result (string_bytes text.new
        ≡ string_bytes text.old ++ peaks_part settings.now peaks) }
{
    match peaks {
        Some(peaks) => push_all_peaks(text, settings, peaks),
        None => Ok(()),
    }
}

/// Appends the peaks under their title.
fn push_all_peaks(text: &mut String, settings: &Settings, peaks: Peaks) -> Result<(), AllocError>
    ensures { OnOk result (string_bytes text.new
        ≡ string_bytes text.old ++ all_peaks settings.now peaks) }
{
    text.push_str(HEADINGS)?;
    push_amount_peaks(text, settings, peaks)?;
    push_number_line(text, "loaders", peaks.loaders)
}

/// Appends the peaks that are amounts of memory, each with its size.
fn push_amount_peaks(text: &mut String, settings: &Settings, peaks: Peaks) -> Result<(), AllocError>
    ensures { OnOk result (string_bytes text.new
        ≡ string_bytes text.old ++ amount_peaks settings.now peaks) }
{
    push_sized_line(text, "granules", peaks.granules, granule(settings.policy))?;
    push_sized_line(text, "nodes", peaks.nodes, NODE_WORDS)?;
    push_sized_line(text, "used", peaks.used, 1)
}

/// Appends the line of a number of things, each of so many words.
fn push_sized_line(
    text: &mut String,
    label: &str,
    number: u64,
    words: u64,
) -> Result<(), AllocError>
    ensures { OnOk result (string_bytes text.new
        ≡ string_bytes text.old ++ sized_line label.now number words) }
{
    let number = u128::from(number);
    push_sized(text, label, number, number * u128::from(words))?;
    text.push_str("\n")
}
