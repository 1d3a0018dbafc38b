//! Reports of a metaspace, and the replies to a trace, as texts.
//!
//!     System -- collecting --> Totals -- sections, layout --> the report's text
//!                    Totals, Settings -- usage, detailed ---> the full report's text
//!                      Details, Peaks -- kinds, holdings, peaks -> its tables
//!                    an Answer, and the next -- answer_text --> a line each, and reports
//!
//! Kept true: each text is exactly the bytes that `specs/` gives for its numbers, and the totals
//! of a system are the sums over the machine that it stands for. Apart because the text is a file
//! format of its own: whoever reads reports needs no more than this crate. Stands on `ms_base` and
//! `ms_loaders`. All calls but `weigh`, `tally` and `sum_kinds` take memory; nothing
//! waits.
#![tactic(auto)]

mod answer_text;
mod collecting;
mod columns;
mod detailed;
mod done_line;
mod holdings;
mod kinds;
pub mod laws;
mod layout;
mod line;
mod maps;
mod peaks;
mod refused;
mod reply_lines;
mod sections;
mod setup;
mod sizes;
mod usage;

pub use answer_text::{AnswerText, lines, lines_detailed};
pub use collecting::totals;
pub use detailed::full_text;
pub use kinds::{KindTotals, Kinds, sum_kinds};
pub use maps::{map_text, push_letters};
pub use refused::{Refusals, count, tally};
pub use sections::text;
pub use usage::{Amount, Usage, Usages, weigh};
