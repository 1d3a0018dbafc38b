//! `metalog` makes a trace of the log of a JVM's metaspace. The session is that of `log_session`, over
//! the command line and the standard devices.
#![tactic(auto)]

use command_line::words_of;
pub use log_session::{Options, Refused, Reports, options_of, session, start};
use std::io::BufReader;
use std::process::ExitCode;

/// The bytes that are read at a time.
const PIECE: usize = 65_536;

fn main(rt: HostRuntime) -> ExitCode {
    let words = match words_of(&rt, "metalog") {
        Ok(words) => words,
        Err(status) => return ExitCode::from(status),
    };
    let Ok(mut input) = BufReader::with_capacity(rt.alloc(), PIECE, rt.reader()) else {
        let _ = eprintln!(rt; "metalog: out of memory");
        return ExitCode::from(3);
    };
    let status = start(
        &rt,
        rt.alloc(),
        words.as_slice(),
        &mut input,
        &mut rt.stdout(),
        &mut rt.stderr(),
    );
    ExitCode::from(status)
}
