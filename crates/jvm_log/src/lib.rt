//! The log of a JVM's metaspace, line by line, and the trace that it amounts to.
//!
//!     [0.4s][7][trace][metaspace] Arena @0x00007fc51c142c00 (class sm): requested 65 words.
//!     --------------------------- ------------------------------------- -------------------
//!     head: the thread            whose arena                           Event::Requested
//!
//! `read_log` passes what each line says to a `Listener`; `Machine` makes a trace's lines of it.
//! `specs/Reading` has the form of each line, part by part; any other line says nothing.
//! A file of names, as `metalog --names` writes it, has a line for each `new` line of the trace, in
//! their order: the loader's number, a space, and what the log says of it, or `?`.
//! Apart because the forms of the log are another program's, of one release. Stands on `ms_trace`.
//! After the messages of HotSpot 17.0.15.
#![tactic(auto)]

mod event;
mod held;
mod kinds;
mod lines;
mod loader;
mod machine;
mod names;
mod owners;
mod parts;
mod placed;
mod reading;
mod trouble;

pub use event::{Event, Said};
pub use lines::{Listener, Stop, read_log};
pub use machine::Machine;
pub use owners::{Owner, name_in, owner_in};
pub use placed::Placed;
pub use reading::said_in;
pub use trouble::Trouble;
