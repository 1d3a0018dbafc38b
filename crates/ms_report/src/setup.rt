//! The part Settings of a full report: what the run was set up with.
//!
//!     Settings
//!       policy          balanced
//!       granule             8192
//!
//! Kept true: the text is the bytes that `specs/Setup.antt` gives for the settings. Takes memory
//! for the text alone.
ghost use Rattle.std.specs.Prelude.{◌≡◌, ◌++◌, OnOk, string_bytes};
ghost use Rattle.ms_report.specs.Layout.{number_lines};
ghost use Rattle.ms_report.specs.Setup.{policy_line, setting_rows, settings_part};

use crate::layout::push_number_lines;
use ms_base::{Policy, Settings, granule};
use std::alloc::AllocError;

/// Appends the settings of a run.
pub(crate) fn push_settings(text: &mut String, settings: &Settings) -> Result<(), AllocError>
    ensures { OnOk result (string_bytes text.new
        ≡ string_bytes text.old ++ settings_part settings.now) }
{
    text.push_str("Settings\n")?;
    text.push_str(policy_row(settings.policy))?;
    push_setting_rows(text, settings)
}

/// Appends the five numbers of the settings.
fn push_setting_rows(text: &mut String, settings: &Settings) -> Result<(), AllocError>
    ensures { OnOk result (string_bytes text.new
        ≡ string_bytes text.old ++ number_lines (setting_rows settings.now)) }
{
    let rows = [
        ("granule", granule(settings.policy)),
        ("max granules", settings.max_granules),
        ("nodes", u64::from(settings.nodes)),
        ("class nodes", u64::from(settings.class_nodes)),
        ("workers", u64::from(settings.workers)),
    ];
    push_number_lines(text, &rows)
}

/// Returns the line of the policy.
fn policy_row(policy: Policy) -> &'static str
    ensures { result.now ≡ policy_line policy }
{
    match policy {
        Policy::Balanced => "  policy          balanced\n",
        Policy::Aggressive => "  policy        aggressive\n",
        Policy::None => "  policy              none\n",
    }
}
