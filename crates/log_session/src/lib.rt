//! One session of `metalog`: the command line is read, then the log, line by line, of which the trace
//! is written as its lines are known.
//!
//!     words ──── options ───┐
//!     standard input ── jvm_log ── conversion ─┬─ joining ── output ── standard output
//!                        read                  ├─ warnings ──────────── standard error
//!                                              └─ naming ────────────── the file of names
//!
//! Kept true: what goes out is the trace of all that the log's lines say, and of no other release's
//! log than JDK 17's. The command line is judged before anything is read. Stands on `jvm_log` and
//! `ms_trace`.
#![tactic(auto)]

mod conversion;
mod converting;
mod failure;
mod joining;
mod naming;
mod options;
mod output;
mod starting;
mod warnings;

pub use command_line::Refused;
pub use converting::session;
pub use options::{Options, Reports, options_of};
pub use starting::start;
