//! One state: what a full report shows, as an object.
ghost use Rattle.std.specs.Prelude.{◌≡◌, ◌++◌, ◌/◌, true, false, OnOk, map, codes, string_bytes};
ghost use Rattle.std.specs.Option.{option_map};
ghost use Rattle.serde_json.specs.Written.{compact_text};
ghost use Rattle.ms_pool.specs.Mapping.{map_in};
ghost use Rattle.ms_answers.specs.Details.{details_in, loader_in, told_in};
ghost use Rattle.ms_answers.specs.Sums.{space_in, sums_in};
ghost use Rattle.ms_report.specs.Layout.{kind_text};
ghost use Rattle.ms_report.specs.Setup.{policy_text};
ghost use Rattle.ms_json.specs.Rows.{elements_run, is_plain, list_of};
ghost use Rattle.ms_json.specs.Sums.{kind_data, kinds_data, kinds_told, loader_data, peaks_data, refused_data};
ghost use Rattle.ms_json.specs.Sums.{root_data, settings_data, space_data, spaces_data};
ghost use Rattle.ms_json.specs.Document.{kinds_if, line_data, loaders_data, map_data, peaks_told};
ghost use Rattle.ms_json.specs.Document.{totals_data};

use crate::leaf::Leaf;
use crate::writing::{push_comma, push_label, push_number, push_object};
use ms_answers::{Details, LoaderDetails, Peaks, SpaceTotals, Totals};
use ms_base::{Kind, Policy, Settings, granule};
use ms_pool::RootMap;
use ms_report::{KindTotals, Kinds, Refusals, sum_kinds};
use std::alloc::AllocError;

/// Appends a state: that of a report, which the line asked for, or that of the end.
pub(crate) fn push_state(
    text: &mut String,
    line: Option<u32>,
    refusals: &Refusals,
    totals: &Totals,
) -> Result<(), AllocError>
    ensures { OnOk result (string_bytes text.new
        ≡ string_bytes text.old ++ compact_text (totals_data line refusals.now totals.now)) }
{
    text.push_str("{")?;
    push_label(text, false, "kinds")?;
    push_kinds_if(text, &totals.details)?;
    push_label(text, true, "line")?;
    push_line(text, line)?;
    push_label(text, true, "loaders")?;
    push_loaders_told(text, &totals.details)?;
    push_label(text, true, "map")?;
    push_map_told(text, &totals.details)?;
    push_label(text, true, "peaks")?;
    push_peaks_told(text, totals.peaks)?;
    push_label(text, true, "refused")?;
    push_refused(text, refusals)?;
    push_label(text, true, "spaces")?;
    push_spaces(text, totals)?;
    text.push_str("}")
}

/// Appends the number of a line, where one asked.
fn push_line(text: &mut String, line: Option<u32>) -> Result<(), AllocError>
    ensures { OnOk result (string_bytes text.new
        ≡ string_bytes text.old ++ compact_text (line_data line)) }
{
    match line {
        Some(line) => push_number(text, u128::from(line)),
        None => text.push_str("null"),
    }
}

/// Appends what the loaders of each kind hold, where the totals have it.
fn push_kinds_if(text: &mut String, details: &Option<Details>) -> Result<(), AllocError>
    ensures { OnOk result (string_bytes text.new ≡ string_bytes text.old
        ++ compact_text (kinds_if (option_map details_in details.now))) }
{
    match details {
        Some(details) => push_kinds(text, details.loaders.as_slice()),
        None => text.push_str("null"),
    }
}

/// Appends what the loaders of each kind hold.
fn push_kinds(text: &mut String, loaders: &[LoaderDetails]) -> Result<(), AllocError>
    ensures { OnOk result (string_bytes text.new
        ≡ string_bytes text.old ++ compact_text (kinds_data (map loader_in loaders.now))) }
{
    let kinds = sum_kinds(loaders);
    push_four(text, &kinds)
}

/// Appends the sums of each kind.
fn push_four(text: &mut String, kinds: &Kinds) -> Result<(), AllocError>
    ensures { OnOk result (string_bytes text.new
        ≡ string_bytes text.old ++ compact_text (kinds_told kinds.now)) }
{
    text.push_str("[")?;
    push_kind(text, Kind::Boot, &kinds.boot)?;
    text.push_str(",")?;
    push_kind(text, Kind::Standard, &kinds.standard)?;
    text.push_str(",")?;
    push_kind(text, Kind::Hidden, &kinds.hidden)?;
    text.push_str(",")?;
    push_kind(text, Kind::Reflection, &kinds.reflection)?;
    text.push_str("]")
}

/// Appends what the loaders of a kind hold.
fn push_kind(text: &mut String, kind: Kind, totals: &KindTotals) -> Result<(), AllocError>
    ensures { OnOk result (string_bytes text.new
        ≡ string_bytes text.old ++ compact_text (kind_data kind totals.now)) }
{
    let rows = [
        ("capacity", Leaf::Number(totals.capacity)),
        ("chunks", Leaf::Number(totals.chunks)),
        ("free blocks", Leaf::Number(totals.free_blocks)),
        ("fronts", Leaf::Number(totals.fronts)),
        ("kind", Leaf::Word(kind_word(kind))),
        ("live", Leaf::Number(totals.live)),
        ("loaders", Leaf::Number(u128::from(totals.loaders))),
        ("used", Leaf::Number(totals.used)),
        ("waste", Leaf::Number(totals.waste)),
    ];
    push_object(text, &rows)
}

/// Names a kind.
fn kind_word(kind: Kind) -> &'static str
    ensures word { result.now ≡ kind_text kind }
    ensures plain { is_plain result.now ≡ true }
{
    match kind {
        Kind::Standard => "standard",
        Kind::Boot => "boot",
        Kind::Reflection => "reflection",
        Kind::Hidden => "hidden",
    }
}

/// Appends the loaders, where the totals have them.
fn push_loaders_told(text: &mut String, details: &Option<Details>) -> Result<(), AllocError>
    ensures { OnOk result (string_bytes text.new ≡ string_bytes text.old
        ++ compact_text (loaders_data (option_map details_in details.now))) }
{
    match details {
        Some(details) => push_loaders(text, details.loaders.as_slice()),
        None => text.push_str("null"),
    }
}

/// Appends loaders as an array.
fn push_loaders(text: &mut String, loaders: &[LoaderDetails]) -> Result<(), AllocError>
    ensures { OnOk result (string_bytes text.new ≡ string_bytes text.old
        ++ compact_text (list_of (map loader_data (map loader_in loaders.now)))) }
{
    text.push_str("[")?;
    push_each_loader(text, loaders)?;
    text.push_str("]")
}

/// Appends loaders with commas between them.
fn push_each_loader(text: &mut String, loaders: &[LoaderDetails]) -> Result<(), AllocError>
    ensures { OnOk result (string_bytes text.new ≡ string_bytes text.old
        ++ elements_run false (map loader_data (map loader_in loaders.now))) }
{
    let mut later = false;
    for loader in loaders {
        push_comma(text, later)?;
        push_loader(text, loader)?;
        later = true;
    }
    Ok(())
}

/// Appends a loader.
fn push_loader(text: &mut String, loader: &LoaderDetails) -> Result<(), AllocError>
    ensures { OnOk result (string_bytes text.new
        ≡ string_bytes text.old ++ compact_text (loader_data (loader_in loader.now))) }
{
    let rows = [
        ("class", Leaf::Arena(&loader.class_space)),
        ("kind", Leaf::Word(kind_word(loader.kind))),
        ("name", Leaf::Number(u128::from(loader.name))),
        ("non-class", Leaf::Arena(&loader.space)),
    ];
    push_object(text, &rows)
}

/// Appends the maps of roots, where the totals have them.
fn push_map_told(text: &mut String, details: &Option<Details>) -> Result<(), AllocError>
    ensures { OnOk result (string_bytes text.new ≡ string_bytes text.old
        ++ compact_text (map_data (option_map details_in details.now))) }
{
    match details {
        Some(details) => push_roots(text, details.roots.as_slice()),
        None => text.push_str("null"),
    }
}

/// Appends roots as an array.
fn push_roots(text: &mut String, roots: &[RootMap]) -> Result<(), AllocError>
    ensures { OnOk result (string_bytes text.new ≡ string_bytes text.old
        ++ compact_text (list_of (map root_data (map map_in roots.now)))) }
{
    text.push_str("[")?;
    push_each_root(text, roots)?;
    text.push_str("]")
}

/// Appends roots with commas between them.
fn push_each_root(text: &mut String, roots: &[RootMap]) -> Result<(), AllocError>
    ensures { OnOk result (string_bytes text.new ≡ string_bytes text.old
        ++ elements_run false (map root_data (map map_in roots.now))) }
{
    let mut later = false;
    for root in roots {
        push_comma(text, later)?;
        push_root(text, root)?;
        later = true;
    }
    Ok(())
}

/// Appends a root.
fn push_root(text: &mut String, root: &RootMap) -> Result<(), AllocError>
    ensures { OnOk result (string_bytes text.new
        ≡ string_bytes text.old ++ compact_text (root_data (map_in root.now))) }
{
    let rows = [
        ("places", Leaf::Cells(root.cells.as_slice())),
        ("root", Leaf::Number(u128::from(root.root))),
        ("slot", Leaf::Number(u128::from(root.root / 2))),
    ];
    push_object(text, &rows)
}

/// Appends the peaks, where the totals have them.
fn push_peaks_told(text: &mut String, peaks: Option<Peaks>) -> Result<(), AllocError>
    ensures { OnOk result (string_bytes text.new
        ≡ string_bytes text.old ++ compact_text (peaks_told peaks)) }
{
    match peaks {
        Some(peaks) => push_peaks(text, peaks),
        None => text.push_str("null"),
    }
}

/// Appends the peaks.
fn push_peaks(text: &mut String, peaks: Peaks) -> Result<(), AllocError>
    ensures { OnOk result (string_bytes text.new
        ≡ string_bytes text.old ++ compact_text (peaks_data peaks)) }
{
    let rows = [
        ("granules", Leaf::Number(u128::from(peaks.granules))),
        ("loaders", Leaf::Number(u128::from(peaks.loaders))),
        ("nodes", Leaf::Number(u128::from(peaks.nodes))),
        ("used", Leaf::Number(u128::from(peaks.used))),
    ];
    push_object(text, &rows)
}

/// Appends how many lines were refused, by name.
fn push_refused(text: &mut String, counts: &Refusals) -> Result<(), AllocError>
    ensures { OnOk result (string_bytes text.new
        ≡ string_bytes text.old ++ compact_text (refused_data counts.now)) }
{
    let rows = [
        ("BlockExists", Leaf::Number(u128::from(counts.block_exists))),
        ("CommitLimit", Leaf::Number(u128::from(counts.commit_limit))),
        ("IdsUsedUp", Leaf::Number(u128::from(counts.ids_used_up))),
        (
            "LoaderExists",
            Leaf::Number(u128::from(counts.loader_exists)),
        ),
        ("NoBlock", Leaf::Number(u128::from(counts.no_block))),
        ("NoLoader", Leaf::Number(u128::from(counts.no_loader))),
        (
            "OutOfMemory",
            Leaf::Number(u128::from(counts.out_of_memory)),
        ),
        ("OutOfRange", Leaf::Number(u128::from(counts.out_of_range))),
        (
            "ReserveLimit",
            Leaf::Number(u128::from(counts.reserve_limit)),
        ),
        ("TooLarge", Leaf::Number(u128::from(counts.too_large))),
        ("ZeroWords", Leaf::Number(u128::from(counts.zero_words))),
    ];
    push_object(text, &rows)
}

/// Appends the sums over both spaces.
fn push_spaces(text: &mut String, totals: &Totals) -> Result<(), AllocError>
    ensures { OnOk result (string_bytes text.new
        ≡ string_bytes text.old ++ compact_text (spaces_data (sums_in totals.now))) }
{
    text.push_str("[")?;
    push_space(text, "non-class", &totals.space)?;
    text.push_str(",")?;
    push_space(text, "class", &totals.class_space)?;
    text.push_str("]")
}

/// Appends the sums over a space.
fn push_space(text: &mut String, name: &'static str, totals: &SpaceTotals) -> Result<(), AllocError>
    requires { is_plain name.now ≡ true }
    ensures { OnOk result (string_bytes text.new
        ≡ string_bytes text.old ++ compact_text (space_data name.now (space_in totals.now))) }
{
    let rows = [
        ("capacity", Leaf::Number(u128::from(totals.capacity))),
        ("chunks", Leaf::Number(u128::from(totals.chunks))),
        ("committed", Leaf::Number(u128::from(totals.committed))),
        ("free", Leaf::Levels(&totals.free)),
        ("free blocks", Leaf::Number(u128::from(totals.free_blocks))),
        ("fronts", Leaf::Number(u128::from(totals.fronts))),
        ("granules", Leaf::Number(u128::from(totals.granules))),
        ("held", Leaf::Levels(&totals.held)),
        ("live", Leaf::Number(u128::from(totals.live))),
        ("nodes", Leaf::Number(u128::from(totals.nodes))),
        ("reserved", Leaf::Number(u128::from(totals.reserved))),
        ("space", Leaf::Word(name)),
        ("used", Leaf::Number(u128::from(totals.used))),
        ("waste", Leaf::Number(u128::from(totals.waste))),
    ];
    push_object(text, &rows)
}

/// Appends what a run was set up with.
pub(crate) fn push_settings(text: &mut String, settings: &Settings) -> Result<(), AllocError>
    ensures { OnOk result (string_bytes text.new
        ≡ string_bytes text.old ++ compact_text (settings_data settings.now)) }
{
    let rows = [
        (
            "class nodes",
            Leaf::Number(u128::from(settings.class_nodes)),
        ),
        (
            "granule",
            Leaf::Number(u128::from(granule(settings.policy))),
        ),
        (
            "max granules",
            Leaf::Number(u128::from(settings.max_granules)),
        ),
        ("nodes", Leaf::Number(u128::from(settings.nodes))),
        ("policy", Leaf::Word(policy_word(settings.policy))),
        ("workers", Leaf::Number(u128::from(settings.workers))),
    ];
    push_object(text, &rows)
}

/// Names a policy.
fn policy_word(policy: Policy) -> &'static str
    ensures word { result.now ≡ policy_text policy }
    ensures plain { is_plain result.now ≡ true }
{
    match policy {
        Policy::Balanced => "balanced",
        Policy::Aggressive => "aggressive",
        Policy::None => "none",
    }
}
