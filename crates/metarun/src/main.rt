//! `metarun` runs a trace of class loader operations: one reply a line, and a report of the
//! metaspace where one is asked for; or one document with all of it. The session is that of
//! `ms_session`, over the command line and the standard devices.
#![tactic(auto)]

use command_line::words_of;
pub use ms_session::{Form, Options, Refused, options_of, session, start};
use std::process::ExitCode;

fn main(rt: HostRuntime) -> ExitCode {
    let words = match words_of(&rt, "metarun") {
        Ok(words) => words,
        Err(status) => return ExitCode::from(status),
    };
    let status = start(
        &rt,
        rt.alloc(),
        words.as_slice(),
        &mut rt.stdin(),
        &mut rt.stdout(),
        &mut rt.stderr(),
    );
    ExitCode::from(status)
}
