//! One session of `metarun`: the command line is read, then the trace, which is replayed, and what is
//! asked for is written.
//!
//!     words ──── options ────────┐
//!     standard input ── devices ── ms_trace ── ms_run ─┬─ ms_report ─┬─ devices ── standard output
//!                         read      parse      replay  ├── ms_json ──┤   write
//!                                                      └── ms_html ──┘
//!
//! Kept true: what goes out is the text, or the document, of the answers to the trace that came in,
//! those of a run of the machine with one worker, or the page of such a run. The command line is
//! judged before anything is read, and the whole trace is read and parsed before anything runs.
//! Stands on `ms_trace`, `ms_run`, `ms_report`, `ms_json` and `ms_html`.
#![tactic(auto)]

mod answering;
mod asked;
mod charting;
mod devices;
mod failure;
mod naming;
mod options;
mod starting;
mod watching;

pub use answering::session;
pub use asked::{Form, Options};
pub use command_line::Refused;
pub use options::options_of;
pub use starting::start;
