//! What the loaders of each kind hold at the end, beside what there was of the kind half-way.
//!
//! Kept true: each number is exactly the sum over the loaders of the kind. Takes no memory.
ghost use Rattle.std.specs.Prelude.{◌≡◌, count_by};
ghost use Rattle.ms_report.specs.Kinds.{same_kind};
ghost use Rattle.ms_page.specs.Kinds.{kind_holding, kind_holdings, live_if, live_of};
ghost use Rattle.ms_page.specs.Kinds.{is_of_kind};

use crate::sums::add;
use ms_answers::LoaderDetails;
use ms_base::Kind;
use ms_course::LoaderThen;
use ms_report::{KindTotals, sum_kinds};

/// What the loaders of a kind hold. This project's choice.
#[derive(Clone, Copy, Debug)]
pub struct KindHolding {
    /// The kind.
    pub kind: Kind,
    /// How many loaders of the kind there were half-way.
    pub loaders_then: u64,
    /// Words of their live blocks half-way.
    pub live_then: u64,
    /// The sums at the end, over both spaces.
    pub totals: KindTotals,
}

/// Makes the rows of boot, standard, hidden and reflection.
pub(crate) fn kind_holdings(halfway: &[LoaderThen], loaders: &[LoaderDetails]) -> [KindHolding; 4]
    ensures { result ≡ kind_holdings halfway.now loaders.now }
{
    let kinds = sum_kinds(loaders);
    [
        kind_holding(Kind::Boot, halfway, kinds.boot),
        kind_holding(Kind::Standard, halfway, kinds.standard),
        kind_holding(Kind::Hidden, halfway, kinds.hidden),
        kind_holding(Kind::Reflection, halfway, kinds.reflection),
    ]
}

/// Puts the sums of a kind beside what there was of it half-way.
fn kind_holding(kind: Kind, halfway: &[LoaderThen], totals: KindTotals) -> KindHolding
    ensures { result ≡ kind_holding kind halfway.now totals }
{
    KindHolding {
        kind,
        loaders_then: loaders_of(kind, halfway),
        live_then: live_of(kind, halfway),
        totals,
    }
}

/// Counts the loaders of a kind.
fn loaders_of(kind: Kind, halfway: &[LoaderThen]) -> u64
    ensures { result ≡ count_by (is_of_kind kind) halfway.now }
{
    halfway
        .iter()
        .filter(|loader| is_same(kind, loader.kind))
        .count() as u64
}

/// Adds up the live words of the loaders of a kind.
fn live_of(kind: Kind, halfway: &[LoaderThen]) -> u64
    ensures { result ≡ live_of kind halfway.now }
{
    let mut live = 0;
    for loader in halfway {
        live = add(live, live_if(kind, loader));
    }
    live
}

/// Returns the live words of a loader if it is of a kind.
fn live_if(kind: Kind, loader: &LoaderThen) -> u64
    ensures { result ≡ live_if kind loader.now }
{
    if is_same(kind, loader.kind) {
        loader.live
    } else {
        0
    }
}

/// Says whether two kinds are the same.
fn is_same(kind: Kind, other: Kind) -> bool
    ensures { result ≡ same_kind kind other }
{
    kind == other
}
