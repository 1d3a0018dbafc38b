//! A seat of a shared pool with the class loader that it serves, and runs of granules: what a program
//! of threads has where no call may wait.
//!
//!     Member ── seat, alone or with the pool ── spare seats
//!         └──── a loader that names its blocks, or arenas that know them, or bare ones that don't
//!
//! Kept true: a member's seat serves its loader, so loader and seat go together from thread to thread;
//! a call that needs the pool is made while the seat has it. Stands on `ms_loader` and `ms_shared`.
//! Takes memory where it says so; nothing waits.
#![tactic(auto)]

mod granules;
mod member;

pub use granules::{Granules, NoGranules, next_run};
pub use member::Member;
