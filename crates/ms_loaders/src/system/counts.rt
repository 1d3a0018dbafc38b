//! What is committed and reserved, beside what may be, and how many loaders there are: what a user
//! asks who watches the limits.
ghost use Rattle.std.specs.Prelude.{◌≡◌, length};
ghost use Rattle.ms_pool.specs.LimitCounts.{limit_counts};

use super::System;
use ms_pool::LimitCounts;

impl System {
    /// Returns what is committed and reserved, in both spaces, beside what may be. Takes no memory,
    /// and visits no chunk and no loader.
    pub fn counts(&self) -> LimitCounts
        ensures { result
            ≡ limit_counts self.now.slots self.now.committed self.now.class_committed self.now.limits }
    {
        self.pool.counts()
    }
    /// Returns how many loaders there are, at most 65536. Takes no memory, and looks at none.
    pub fn loader_count(&self) -> u64
        ensures { result ≡ length self.now.loaders }
    {
        self.loaders.len() as u64
    }
}
