//! The whole machine in one thread: class loaders by name over one pool, and the steps that they ask.
//!
//!     System ── Loaders, by name ── Loader ── blocks by name
//!        │                            ├── Arena ─────── account ─┐
//!        │                            └── Arena, classes' ─ account ─┤
//!        └── Pool, of both spaces <── lends chunks to ───────────┘
//!
//! Kept true: the state of a `System` is a good state of the machine, and each step is one of its
//! transitions. Apart because everything above speaks of steps and replies, and nothing below does:
//! the pool knows accounts, the arena knows no names. Stands on `ms_pool`, `ms_loader` and
//! `ms_loader_map`, by their contracts alone. What takes memory: `System::new`, `new_loader`, `step`,
//! `run`, `totals`, `details`; nothing waits, but for a source that does.
#![tactic(auto)]

mod collecting;
mod in_use;
pub mod laws;
mod serving;
mod system;

pub use ms_answers::{Answer, Replies, Totals};
pub use ms_base::{Reply, Step};
pub use ms_loader::Loader;
pub use ms_loader_map::Loaders;
pub use serving::serve;
pub use system::{Allocation, GranuleRun, LoaderTotals, System};
