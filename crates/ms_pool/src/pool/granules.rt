//! Which granules are committed: what a user with memory of its own asks after each call.
ghost use Rattle.std.specs.Prelude.{◌≡◌, ◌++◌};
ghost use Rattle.ms_base.specs.Committed.{is_among};

use super::Pool;

impl Pool {
    /// Returns whether a granule is committed, by its number over both spaces; past their end none
    /// is. Takes no memory, and visits no chunk.
    pub fn is_committed(&self, granule: u64) -> bool
        ensures { result ≡ is_among (self.now.committed ++ self.now.class_committed) granule }
    {
        self.lender.nodes.is_committed(granule)
    }
}
