//! The course of a run in columns: what a chart of it shows, and what a program reads of it.
//!
//!     line      0  1  2  3  4  5  6  7  8  9        of ten
//!     column    0  0  0  1  1  1  1  2  2  2        of three: line j is in column j * 3 / 10
//!     shows    [ the most of each amount after its lines, and how many of them unloaded .. ]
//!
//! A run of 100,000 lines has as many states, and a chart has room for some hundred. Kept true:
//! each number is the most within its column, so that no peak is lost, and a column's live words are
//! at most its used ones, these at most its committed and reserved ones. Apart because two forms
//! stand on it, and it needs no system: whoever runs lines says how it stands after each. Stands on
//! `ms_base` alone. What takes memory: `Columns::new` and `Course::new`, the same for every run of 512
//! lines or more, and `Course::push`, an entry for each loader. Nothing waits. The columns are this
//! project's choice.
#![tactic(auto)]

mod births;
mod column;
mod columns;
mod course;
pub mod laws;
mod moment;
mod reason;
mod refusals;
mod schedule;
mod standing;
mod stretch;

pub use births::Birth;
pub use column::Column;
pub use columns::{Columns, column_for};
pub use course::{Course, LoaderThen};
pub use moment::{Asked, Deed, Moment};
pub use reason::Reason;
pub use refusals::Refused;
pub use schedule::Schedule;
pub use standing::{Extent, Standing};
pub use stretch::Stretch;
