//! Which granules of a system are committed: what a user with memory of its own asks after each
//! call.
ghost use Rattle.std.specs.Prelude.{◌≡◌, ◌++◌};
ghost use Rattle.ms_base.specs.Committed.{is_among};

use super::System;

impl System {
    /// Returns whether a granule is committed: the words from its number times a granule's words
    /// on, which are 8192, or 2048 under the policy aggressive. Past the end of the class space
    /// none is. Takes no memory, and visits no chunk and no loader.
    pub fn is_committed(&self, granule: u64) -> bool
        ensures { result ≡ is_among (self.now.committed ++ self.now.class_committed) granule }
    {
        self.pool.is_committed(granule)
    }
}
