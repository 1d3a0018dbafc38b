//! Class loaders by name: a map that knows how often a name may stand, and each loader's owner numbers.
//!
//!     Loaders ── 0: Loader    3: Loader    4: Loader  ..  65535
//!
//! Apart because it asks no pool and serves no step: who has a loader's name finds the loader here.
//! Stands on `ms_loader` by its contract alone. Only `insert` and `open` take memory; nothing waits.
#![tactic(auto)]

mod loaders;

pub use loaders::{Iter, Loaders, Values};
