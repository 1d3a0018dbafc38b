//! One class loader: an arena in each space, and the names of its blocks.
//!
//!     Loader ── names, by number
//!       ├────── RawArena ─────────── account
//!       └────── RawArena, classes' ─ account
//!
//! Apart because it is proved once, over any source of chunks, and knows no other loader. Stands on
//! `ms_pool` for the trait `ChunkSource` and on `ms_arena`, by their contracts alone. Only a loader's
//! `allocate`, `alloc` and `calloc` take memory; nothing waits, but for a source that does.
#![tactic(auto)]

mod amounts;
mod loader;
mod naming;

pub use amounts::Amounts;
pub use loader::{Loader, is_class};
