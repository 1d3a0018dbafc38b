//! The command line of this project's programs, over `clap`: the words that the host has, what a
//! program accepts, and what was given.
//!
//!     words_of ── get_matches(command, words) ─┬─ word_given, number_given ── a program's options
//!                                              └─ Refused ── standard output or standard error
//!
//! Kept true: a program and its options are described to `clap` once, and `clap` alone reads the words
//! and writes the texts of refusals and of the help. Which options there are, and what they mean, is
//! each program's. Stands on `clap`. Takes memory where it says so.
#![tactic(auto)]

mod describing;
mod matching;
mod words;

pub use describing::{choice, file, number, program, with};
pub use matching::{Refused, get_matches, number_given, word_given};
pub use words::words_of;
