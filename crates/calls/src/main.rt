//! `calls` makes the library's calls while an allocator refuses growths, and prints what it finds,
//! a row for each word of the command line. Some rows make a call that takes memory:
//!
//!     carve before .. free Span { .. }   the state, once all is prepared
//!     carve answer ok ()                 what the call answers
//!     carve after .. free Span { .. }    the state after it
//!     carve again ok ()                  where that was a refusal: the same call once more,
//!     carve last .. free Span { .. }     and the state after that
//!     place probed Block { .. } ..       last, what calls find in a state of which no call tells all
//!
//! The others make calls that take none:
//!
//!     tree marked                        all is prepared: from here on no memory is asked for
//!     tree enlarge Some(Ok(..))          a call, and its answer
//!     tree leaf (Span { .. }, ..)        a part of a state
//!
//! The row `replay` replays the trace of standard input, by as many workers as the next word says,
//! and prints what each line is answered, or why none is:
//!
//!     replay answer 1 Ok
//!     replay answer fault NoThread
//!     replay again 1 Ok                  where memory or a thread was wanted: the call once more
//!
//! The row `steps` has a system run the steps of standard input's trace, with as many granules for
//! the limit as the next word says, and prints the same, and what the system holds at last:
//!
//!     steps left PoolTotals { .. } 1 ..  the sums over the pool, then each loader, with its chunks
//!
//! A growth refused outside a row's call, or before its mark, is status 3; a word that names no row,
//! or no word, 5. It promises nothing: the system tests compare it with a run without a refusal.
#![tactic(auto)]

mod arenas;
mod loaders;
mod parts;
mod pools;
mod probing;
mod reports;
mod row;
mod runs;
mod shared;
mod systems;
mod texts;

use crate::arenas::Allocating;
use crate::loaders::Inserting;
use crate::parts::blocks::{self, Reserving};
use crate::parts::tree::{self, Carving};
use crate::parts::{nodes, sizes};
use crate::pools::maps::Mapping;
use crate::pools::{Making, Taking, accounts};
use crate::reports::{Replying, Reporting, Written};
use crate::row::{tell_probed_row, tell_row};
use crate::shared::lock::{self, Sharing};
use crate::shared::meter::{self, Metering};
use crate::systems::{Asked, Asking, settling, stepping};
use crate::texts::{Parsing, Printing};
use std::env;
use std::io::{self, ErrorKind};
use std::process::ExitCode;
use std::sync::Wait;
use std::thread::Threads;

fn main(rt: HostRuntime) -> ExitCode {
    match tell_asked(&rt, &rt) {
        Ok(()) => ExitCode::from(0),
        Err(error) if error.kind() == ErrorKind::OutOfMemory => {
            let _ = eprintln!(rt; "refused outside a call");
            ExitCode::from(3)
        }
        Err(error) => {
            let _ = eprintln!(rt; "{error}");
            ExitCode::from(5)
        }
    }
}

/// Prints the rows that the command line names.
fn tell_asked<R: Threads + Wait + Sync>(rt: &HostRuntime, waits: &R) -> io::Result<()> {
    let mut words = env::args(rt)?;
    drop(words.next());
    let (mut numbered, mut asked) = (None, false);
    for word in words {
        let told = tell_word(rt, waits, word.as_str(), numbered);
        numbered = Numbered::named(word.as_str());
        asked = true;
        drop(word);
        told?;
    }
    if asked {
        Ok(())
    } else {
        Err(ErrorKind::InvalidInput.into())
    }
}

/// A row over a trace, which the next word has a number for.
#[derive(Clone, Copy)]
enum Numbered {
    /// By so many workers.
    Replay,
    /// With so many granules for the limit.
    Steps,
}

impl Numbered {
    /// The row of that name.
    fn named(name: &str) -> Option<Numbered> {
        match name {
            "replay" => Some(Numbered::Replay),
            "steps" => Some(Numbered::Steps),
            _ => None,
        }
    }
}

/// Prints the row that a word names, or the row before it whose number the word is.
fn tell_word<R: Threads + Wait + Sync>(
    rt: &HostRuntime,
    waits: &R,
    word: &str,
    numbered: Option<Numbered>,
) -> io::Result<()> {
    match numbered {
        Some(Numbered::Replay) => runs::tell_calls(rt, waits, word),
        Some(Numbered::Steps) => stepping::tell_all(rt, word),
        None if Numbered::named(word).is_some() => Ok(()),
        None => tell_named(rt, waits, word),
    }
}

/// Prints the row of that name, of what stands below an arena or is shared.
fn tell_named<R: Wait>(rt: &HostRuntime, waits: &R, name: &str) -> io::Result<()> {
    match name {
        "sizes" => sizes::tell_all(rt),
        "nodes" => nodes::tell_all(rt),
        "carve" => tell_row(rt, "carve", Ok(Carving::prepared(rt.alloc()))),
        "carve_boxes" => tell_row(rt, "carve_boxes", Ok(Carving::in_boxes(rt.alloc()))),
        "tree" => tree::tell_all(rt),
        "boxes" => tree::tell_boxes(rt),
        "reserve" => tell_probed_row(rt, "reserve", Reserving::prepared(rt.alloc())),
        "blocks" => blocks::tell_all(rt),
        "pool" => tell_row(rt, "pool", Making::prepared(rt.alloc())),
        "take" => tell_row(rt, "take", Taking::prepared(rt.alloc())),
        "pool_maps" => tell_row(rt, "pool_maps", Mapping::prepared(rt.alloc())),
        "accounts" => accounts::tell_all(rt),
        "shared" => tell_row(rt, "shared", Sharing::prepared(rt.alloc())),
        "lock" => lock::tell_all(rt, waits),
        "meter" => tell_row(rt, "meter", Metering::prepared(rt.alloc())),
        "counter" => meter::tell_all(rt),
        _ => tell_upper(rt, name),
    }
}

/// Prints a row of arenas, of loaders or of a system.
fn tell_upper(rt: &HostRuntime, name: &str) -> io::Result<()> {
    match name {
        "place" => tell_arena(rt, "place", arenas::Asked::Place),
        "alloc" => tell_arena(rt, "alloc", arenas::Asked::Alloc),
        "arena" => arenas::tell_all(rt),
        "insert" => tell_probed_row(rt, "insert", Inserting::prepared(rt.alloc())),
        "loaders" => loaders::tell_all(rt),
        "new_loader" => tell_probed_row(rt, "new_loader", Asking::new_loader(rt.alloc())),
        "step" => tell_system(rt, "step", Asked::Step),
        "run" => tell_system(rt, "run", Asked::Run),
        "totals" => tell_system(rt, "totals", Asked::Totals),
        "details" => tell_system(rt, "details", Asked::Details),
        "system_maps" => tell_system(rt, "system_maps", Asked::Maps),
        "system" => settling::tell_all(rt),
        _ => tell_other(rt, name),
    }
}

/// Prints a row of texts.
fn tell_other(rt: &HostRuntime, name: &str) -> io::Result<()> {
    match name {
        "parse" => tell_row(rt, "parse", Parsing::prepared(rt.alloc())),
        "print" => tell_row(rt, "print", Printing::prepared(rt.alloc())),
        "text" => tell_report(rt, "text", Written::Text),
        "full_text" => tell_report(rt, "full_text", Written::FullText),
        "map_text" => tell_report(rt, "map_text", Written::Maps),
        "lines" => tell_row(rt, "lines", Replying::prepared(rt.alloc())),
        "report" => reports::tell_all(rt),
        _ => Err(ErrorKind::InvalidInput.into()),
    }
}

/// Prints a row of an arena.
fn tell_arena(rt: &HostRuntime, name: &str, asked: arenas::Asked) -> io::Result<()> {
    tell_probed_row(rt, name, Allocating::prepared(rt.alloc(), asked))
}

/// Prints a row of a system with loaders.
fn tell_system(rt: &HostRuntime, name: &str, asked: Asked) -> io::Result<()> {
    tell_probed_row(rt, name, Asking::filled(rt.alloc(), asked))
}

/// Prints a row of what is written of sums.
fn tell_report(rt: &HostRuntime, name: &str, written: Written) -> io::Result<()> {
    tell_row(rt, name, Reporting::prepared(rt.alloc(), written))
}
