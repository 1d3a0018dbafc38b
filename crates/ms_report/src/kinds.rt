//! The part Kinds of a full report: how much the loaders of each kind hold, over both spaces.
//!
//!     loaders   1 hidden, 2 standard, 3 hidden   -->   boot 0, standard 1, hidden 2, reflection 0
//!
//! Kept true: each number is exactly the sum over the loaders of the kind, and the text is the
//! bytes that `specs/Kinds.antt` gives for them. Takes memory for the text alone.
ghost use Rattle.std.specs.Prelude.{◌≡◌, ◌++◌, ◌+◌, ◌<◌, ◌^◌, ℕ, OnOk, IsAscii, codes, decimal};
ghost use Rattle.std.specs.Prelude.{length, map, string_bytes};
ghost use Rattle.std.specs.List.{filter};
ghost use Rattle.ms_answers.specs.Details.{loader_in};
ghost use Rattle.ms_report.specs.Layout.{cells, kind_text, right_in};
ghost use Rattle.ms_report.specs.Kinds.{IsBelow, is_of, kind_line, kind_lines, kinds_of};
ghost use Rattle.ms_report.specs.Kinds.{kinds_part, same_kind, sum_columns};
ghost use Rattle.ms_report.specs.Kinds.{sum_texts, sums_over, with_loader};

use crate::layout::push_wides;
use crate::line::{COUNT, FREE_BLOCKS, Line, WORDS};
use ms_answers::LoaderDetails;
use ms_base::Kind;
use std::alloc::AllocError;

/// The sums over the loaders of a kind, over both spaces. Of 128 bits, so that a sum always has
/// room. After HotSpot's VM.metaspace, with this project's numbers.
#[derive(Clone, Copy, Debug)]
pub struct KindTotals {
    /// Loaders of the kind.
    pub loaders: u64,
    /// Chunks that they hold.
    pub chunks: u128,
    /// Words of their chunks.
    pub capacity: u128,
    /// Words of their fronts.
    pub fronts: u128,
    /// Words in use: the sum of the tops.
    pub used: u128,
    /// Words of live blocks.
    pub live: u128,
    /// Words of free blocks.
    pub free_blocks: u128,
    /// Words in use that are in no live and in no free block.
    pub waste: u128,
}

/// The sums over the loaders of each kind.
#[derive(Clone, Copy)]
pub struct Kinds {
    /// Those of the boot loader's kind.
    pub boot: KindTotals,
    /// Those of ordinary loaders.
    pub standard: KindTotals,
    /// Those of hidden classes.
    pub hidden: KindTotals,
    /// Those of reflection.
    pub reflection: KindTotals,
}

/// Over no loader.
const NONE: KindTotals = KindTotals {
    loaders: 0,
    chunks: 0,
    capacity: 0,
    fronts: 0,
    used: 0,
    live: 0,
    free_blocks: 0,
    waste: 0,
};

/// The title and the headings of the table of kinds.
const HEADINGS: &str =
    "Kinds\n          kind  loaders  chunks  capacity    fronts      used      live  free blocks     waste\n";

/// Returns how much the loaders of each kind hold, over both spaces.
pub fn sum_kinds(loaders: &[LoaderDetails]) -> Kinds
    ensures { result ≡ kinds_of (map loader_in loaders.now) }
{
    Kinds {
        boot: sum_one(Kind::Boot, loaders),
        standard: sum_one(Kind::Standard, loaders),
        hidden: sum_one(Kind::Hidden, loaders),
        reflection: sum_one(Kind::Reflection, loaders),
    }
}

/// Adds up what the loaders of a kind hold.
fn sum_one(kind: Kind, loaders: &[LoaderDetails]) -> KindTotals
    ensures { result ≡ sums_over (filter (is_of kind) (map loader_in loaders.now)) }
{
    let mut totals = NONE;
    for loader in loaders {
        if is_same(kind, loader.kind) {
            totals = add(totals, *loader);
        }
    }
    totals
}

/// Returns whether two kinds are the same.
fn is_same(kind: Kind, other: Kind) -> bool
    ensures { result ≡ same_kind kind other }
{
    kind == other
}

/// Adds what one more loader holds.
fn add(totals: KindTotals, loader: LoaderDetails) -> KindTotals
    requires { IsBelow 9223372036854775807 totals }
    ensures sums { result ≡ with_loader totals (loader_in loader) }
    ensures below { (count : ℕ) → IsBelow count totals → IsBelow (count + 1) result }
{
    let space = loader.space;
    let class_space = loader.class_space;
    KindTotals {
        loaders: totals.loaders + 1,
        chunks: totals.chunks + both(u64::from(space.chunks), u64::from(class_space.chunks)),
        capacity: totals.capacity + both(space.capacity, class_space.capacity),
        fronts: totals.fronts + both(space.fronts, class_space.fronts),
        used: totals.used + both(space.used, class_space.used),
        live: totals.live + both(space.live, class_space.live),
        free_blocks: totals.free_blocks + both(space.free_blocks, class_space.free_blocks),
        waste: totals.waste + both(space.waste, class_space.waste),
    }
}

/// Adds up the amounts of both spaces.
fn both(amount: u64, class_amount: u64) -> u128
    ensures sum { result ≡ amount + class_amount }
    ensures small { result < 2 ^ 65 }
{
    u128::from(amount) + u128::from(class_amount)
}

/// Appends the table of kinds.
pub(crate) fn push_kinds(text: &mut String, loaders: &[LoaderDetails]) -> Result<(), AllocError>
    ensures { OnOk result (string_bytes text.new
        ≡ string_bytes text.old ++ kinds_part (map loader_in loaders.now)) }
{
    let kinds = sum_kinds(loaders);
    text.push_str(HEADINGS)?;
    push_kind_lines(text, &kinds)
}

/// Appends the line of each kind.
fn push_kind_lines(text: &mut String, kinds: &Kinds) -> Result<(), AllocError>
    ensures { OnOk result (string_bytes text.new ≡ string_bytes text.old ++ kind_lines kinds.now) }
{
    push_kind(text, Kind::Boot, &kinds.boot)?;
    push_kind(text, Kind::Standard, &kinds.standard)?;
    push_kind(text, Kind::Hidden, &kinds.hidden)?;
    push_kind(text, Kind::Reflection, &kinds.reflection)?;
    Ok(())
}

/// Appends the line of a kind.
fn push_kind(text: &mut String, kind: Kind, totals: &KindTotals) -> Result<(), AllocError>
    ensures { OnOk result (string_bytes text.new
        ≡ string_bytes text.old ++ kind_line kind totals.now) }
{
    push_count(text, kind, totals.loaders)?;
    push_sums(text, totals)?;
    text.push_str("\n")
}

/// Appends the first two columns of a kind's line, with the spaces before them.
fn push_count(text: &mut String, kind: Kind, loaders: u64) -> Result<(), AllocError>
    ensures { OnOk result (string_bytes text.new ≡ string_bytes text.old
        ++ (codes "  " ++ (right_in 12 (kind_text kind) ++ right_in 9 (decimal loaders)))) }
{
    let mut line = Line::open();
    line.put_right(9, loaders);
    line.put_word(kind_cell(kind));
    line.put_word("  ");
    line.push_to(text)
}

/// Appends the sums of a kind, each in its column.
fn push_sums(text: &mut String, totals: &KindTotals) -> Result<(), AllocError>
    ensures { OnOk result (string_bytes text.new
        ≡ string_bytes text.old ++ cells sum_columns (sum_texts totals.now)) }
{
    let columns = [
        (COUNT, totals.chunks),
        (WORDS, totals.capacity),
        (WORDS, totals.fronts),
        (WORDS, totals.used),
        (WORDS, totals.live),
        (FREE_BLOCKS, totals.free_blocks),
        (WORDS, totals.waste),
    ];
    push_wides(text, &columns)
}

/// Returns the word of a kind, right in its column.
pub(crate) fn kind_cell(kind: Kind) -> &'static str
    ensures cell { result.now ≡ right_in 12 (kind_text kind) }
    ensures long { length result.now ≡ 12 }
    ensures ascii { IsAscii result.now }
{
    match kind {
        Kind::Standard => "    standard",
        Kind::Boot => "        boot",
        Kind::Reflection => "  reflection",
        Kind::Hidden => "      hidden",
    }
}
