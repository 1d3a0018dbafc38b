//! Traces of requests as texts: reading and printing, with the first fault of a text that is none.
//!
//!     new 1 standard          line 1, a command: a word and its fields, one space between
//!     # ten words             line 2, a comment
//!                             line 3, blank
//!     alloc 1 1 10            line 4, the trace goes on under this number
//!
//! Apart because the grammar is a file format of its own: tools that make traces need no more than
//! this crate. `specs/` has it twice, as the table of faults and as the spelling of commands, and
//! the laws say that these fit. Stands on `ms_base`. Only `parse` and `print` take memory.
#![tactic(auto)]

mod commands;
mod cutting;
mod fault;
mod fields;
pub mod laws;
mod numbers;
mod printing;
mod reading;
mod spellings;
mod trace;

pub use fault::{FaultKind, ParseFault, TraceFault};
pub use fields::read_word;
pub use printing::{print, print_command};
pub use reading::{parse, parse_within};
pub use trace::{Command, Line, Lines, Trace};
