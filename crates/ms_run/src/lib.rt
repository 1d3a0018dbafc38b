//! Replaying a trace: the lines of each loader by one worker at a time, all workers over one pool.
//!
//!     phase 0           sync           phase 1
//!     worker 0: 1 ──┐            ┌── worker 0: 2
//!                   ├── settled ─┤                    loaders 1 and 2 move on with their chunks
//!     worker 1: 2 ──┘            └── worker 1: 1
//!
//! Kept true: each loader gets its own replies, whatever the number of workers and their order, and
//! at each phase's end all is one good system. Apart because nothing else starts a thread. Stands
//! on `ms_loaders`, `ms_shared` and `ms_trace`. Takes memory; a phase of two workers or more waits
//! for the lock and for its threads. The phases are this project's choice.
#![tactic(auto)]

mod alone;
mod between;
mod dealing;
mod fault;
mod gate;
mod gathering;
pub mod laws;
mod merging;
mod metering;
mod observer;
mod observing;
mod peaks;
mod phase;
mod replaying;
mod share;
mod turn;
mod working;

pub use fault::RunFault;
pub use gate::{Gate, NoGate};
pub use ms_course::{Extent, Standing};
pub use observer::Observer;
pub use observing::replay_observed;
pub use replaying::{replay, replay_detailed, replay_into};
