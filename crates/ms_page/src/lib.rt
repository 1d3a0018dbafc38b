//! What a page shows of a replay, as values: one picture of a run, and the lengths and names by
//! which it is drawn.
//!
//!     settings, course, totals ── Picture::new ──> facts, tiles, advice, peaks, loaders, cells ..
//!     number, whole ── scaled ───────────────────> a length on the track
//!     peak          ── word_axis, count_axis ────> an axis
//!     a name        ── push_name ────────────────> text without `<`, `>` or `"`
//!
//! Kept true: a bar stays in its track and something is never drawn as nothing; a tile says that
//! there is a problem exactly where a line was refused for want of what it shows; the list of
//! loaders has each loader of the end once. Apart because no other form draws. Stands on `ms_base`,
//! `ms_course`, `ms_loaders`, `ms_pool` and `ms_report`. `Picture::new` and `push_name` take
//! memory; nothing waits. All of it is this project's choice.
#![tactic(auto)]

mod advice;
mod axis;
mod cells;
mod ends;
mod escape;
mod facts;
mod halfway;
mod holding;
mod holdings;
mod kinds;
mod largest;
pub mod laws;
mod peaks;
mod picture;
mod scale;
mod stays;
mod sums;
mod tiles;

pub use advice::{Advice, CommitAdvice, PolicyAdvice, advise};
pub use axis::{Axis, count_axis, steps, word_axis, word_step};
pub use cells::CellCounts;
pub use escape::{push_escaped, push_name};
pub use facts::facts_of;
pub use holding::{Growth, Holding};
pub use kinds::KindHolding;
pub use peaks::peaks_of;
pub use picture::Picture;
pub use scale::scaled;
pub use tiles::{
    ClassCase, CommittedCase, Facts, LoaderCase, Mark, RefusedCase, ReservedCase, Tiles, UsedCase,
};
