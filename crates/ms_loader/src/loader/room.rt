//! The memory that a loader has, which it keeps when it starts anew.
use super::Loader;

/// For how many names a small loader has memory at most.
const SMALL_NAMES: usize = 256;

impl Loader {
    /// Returns whether the loader's memory is small, as that of its arenas is. A hint, of which
    /// nothing is promised.
    pub fn is_small(&self) -> bool {
        self.arena.is_small() && self.class_arena.is_small() && self.names.capacity() <= SMALL_NAMES
    }
}
