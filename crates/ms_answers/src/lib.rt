//! What a run answers: a reply to each line, and the totals that a report shows.
//!
//!     Replies ── Answer { line, reply, report } ── Totals ── SpaceTotals, of each space
//!                                                    ├────── LoaderRow, of each loader
//!                                                    └────── Details and Peaks, of a full report
//!
//! Apart because who writes reports and pages needs these values alone: nothing here knows a pool, an
//! arena or a step's body. Only a sink takes memory; nothing waits.
#![tactic(auto)]

mod details;
mod peaks;
mod replies;
mod totals;
mod verbosity;

pub use details::{Details, LoaderDetails};
pub use peaks::Peaks;
pub use replies::{Answer, AnswerSink, Replies};
pub use totals::{LoaderRow, SpaceTotals, Totals};
pub use verbosity::Verbosity;
