//! The pool: chunks lent to accounts from root chunks of both spaces, under both limits.
//!
//! Apart because arenas, the lock and the workers stand on what it answers and on nothing else: the
//! trait `ChunkSource` is all that an arena knows, and `AccountSource` all that a step of the
//! machine does. Contracts see a pool as a `Ledger`, and each call is one relation of
//! `specs/Calls.antt`. Stands on `ms_commit` for nodes and granules and on `ms_buddy` for the parts
//! of each root. Only `Pool::new`, `take` and `maps` take memory; nothing waits.
#![tactic(auto)]

mod account;
mod counting;
mod index;
mod lender;
mod lending;
mod lent;
mod mapping;
mod no_chunks;
mod pool;
mod search;
mod source;
mod spare;
mod totals;
mod trees;

pub use account::Account;
pub use mapping::{Cell, RootMap};
pub use no_chunks::NoChunks;
pub use pool::{LimitCounts, Pool};
pub use source::{AccountSource, ChunkSource};
pub use totals::PoolTotals;
