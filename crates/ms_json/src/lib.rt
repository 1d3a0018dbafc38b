//! A run as one JSON document, which programs read.
//!
//!     Answer ── put ──> an element of `answers`, a state of `reports`
//!     columns, totals of the end ── finish ──> `course`, `end`, the other members, the whole
//!
//! The document is a value first, `specs/Document.antt`: its members have the labels of the full
//! report, in the order of their bytes. Kept true: the text is what serde_json's `to_string` writes
//! of that value, so serde_json's `read` of it gives the value back. No such value is made: each
//! number goes into the text as it comes, and memory is that of the text. Apart because the lines of
//! a replay, its columns and its totals come from crates that know of no form. Stands on
//! `ms_course`, `ms_loaders` and `ms_report`, whose sums by kind and counts of refusals it takes.
//! Nothing waits. The document is this project's choice.
#![tactic(auto)]

mod document;
mod leaf;
mod naming;
mod run;
mod series;
mod state;
mod writing;

pub use document::Document;
pub use naming::Named;
